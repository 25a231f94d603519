//! The places of a side of a curve above a polynomial are those of the primes of an order of its presentation, and are
//! listed by the rows of these primes where the order is that of the side's integral functions, which is maximal. There
//! is no code: each theorem is the contract of a function with an empty body.
#![tactic(auto)]

ghost use Rattle.std.specs.Prelude.{◌≡◌, ℕ, List, [], ◌∷◌, map};
ghost use Rattle.ff_fields.specs.Field.{CodeField};
ghost use Rattle.ff_fields.specs.Over.{IsOver};
ghost use Rattle.ff_poly.specs.Words.{IsIrreducibleList};
ghost use Rattle.function_field.specs.declared.side.Side.{Side};
ghost use Rattle.function_field.specs.declared.side.Side.TheVariants.{Infinite};
ghost use Rattle.function_field.specs.Curves.{CurveValue, IsCurve};
ghost use Rattle.function_field.specs.Values.{Functions};
ghost use Rattle.function_field.specs.Infinity.{function_on};
ghost use Rattle.ff_lattice.specs.Lattices.{LatticeValue, row_elems};
ghost use Rattle.ff_lattice.specs.Orders.{IsOrderLattice};
ghost use Rattle.value_theory.specs.IntegralLattices.{presentation, IsIntegralLattice};
ghost use Rattle.value_theory.specs.Primes.{PrimeValue, IsPrimeOf, AreAllPrimes};
ghost use Rattle.decomposition_theory.specs.Decompositions.{IsMaximalOrderAt};
ghost use Rattle.function_field.specs.PlaceLists.{ListedPlace, AreAllPlacesAbove, ListSamePlaces};
ghost use Rattle.place_lists_theory.specs.Lists.{SpansWholePlace, ArePlacesOfPrimes, listed_prime};

/// All primes of an order over an irreducible polynomial, which is t on the infinite side, are those of the places of
/// the side above it: each is what one place has of the order, with its ramification index and its degree, and each
/// place is that of one of them.
pub fn places_of_primes_law()
    ensures { (k : CodeField) (c : CurveValue) (s : Side) (o : LatticeValue) (pi : List ℕ) (Ps : List PrimeValue)
        → IsCurve k c → IsOrderLattice k (presentation c s) o
        → IsOver k.ops pi → IsIrreducibleList k.ops pi → (s ≡ Infinite → pi ≡ 0 ∷ 1 ∷ [])
        → AreAllPrimes k (presentation c s) o pi Ps
        → ArePlacesOfPrimes k c s o pi Ps }
{}

/// Of the order of a side's integral functions, the rows of all primes over an irreducible polynomial span the places
/// above it, each once, with their ramification indices and degrees.
pub fn listed_places_law()
    ensures { (k : CodeField) (c : CurveValue) (s : Side) (o : LatticeValue) (pi : List ℕ) (Ps : List PrimeValue)
        → IsCurve k c → IsOrderLattice k (presentation c s) o
        → IsOver k.ops pi → IsIrreducibleList k.ops pi → (s ≡ Infinite → pi ≡ 0 ∷ 1 ∷ [])
        → AreAllPrimes k (presentation c s) o pi Ps → IsIntegralLattice k c s o
        → AreAllPlacesAbove k c s pi (map (listed_prime k c s) Ps) }
{}

/// All places above a polynomial are listed in one way, but for their order and the functions that span them.
pub fn one_list_law()
    ensures { (k : CodeField) (c : CurveValue) (s : Side) (pi : List ℕ) (Ps Qs : List (ListedPlace (Functions k c.fin)))
        → IsCurve k c → AreAllPlacesAbove k c s pi Ps → AreAllPlacesAbove k c s pi Qs
        → ListSamePlaces k c s Ps Qs }
{}

/// The lattice of a side's integral functions is an order, which is maximal at each irreducible polynomial, and on the
/// infinite side at t.
pub fn integral_order_law()
    ensures order { (k : CodeField) (c : CurveValue) (s : Side) (o : LatticeValue) → IsCurve k c
        → IsIntegralLattice k c s o → IsOrderLattice k (presentation c s) o }
    ensures maximal { (k : CodeField) (c : CurveValue) (s : Side) (o : LatticeValue) (pi : List ℕ) → IsCurve k c
        → IsIntegralLattice k c s o → IsOver k.ops pi → IsIrreducibleList k.ops pi
        → (s ≡ Infinite → pi ≡ 0 ∷ 1 ∷ []) → IsMaximalOrderAt k (presentation c s) o pi }
{}

/// On the infinite side the rows of a prime over t, of the order of the integral functions, span over k[t] what they
/// span over the ring of the side with powers of t as denominators. On the finite side both rings are one.
pub fn whole_place_law()
    ensures { (k : CodeField) (c : CurveValue) (s : Side) (o : LatticeValue) (pi : List ℕ) (P : PrimeValue)
        → IsCurve k c → IsIntegralLattice k c s o → (s ≡ Infinite → pi ≡ 0 ∷ 1 ∷ [])
        → IsPrimeOf k (presentation c s) o P → P.p ≡ pi
        → SpansWholePlace k c s (map (function_on k c.fin c.c s) (row_elems P.rows)) }
{}
