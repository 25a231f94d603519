//! The infinite side of a function field F = k(x)[y]/(f) over a finite field k, by lattices over k[t] with t = 1/x:
//! lattices that differ from k[t][Y] at t alone, the ring O_inf of the functions that are integral over the fractions
//! of degree at most 0, and membership over those fractions. Nothing is asked of f but, where it is said, that its
//! discriminant isn't 0: F need not be a field. What holds at t holds at each irreducible polynomial, and is said so.
//! Each main theorem is the contract of a function with an empty body; the crates above cite the lemmas of proofs/.
#![tactic(auto)]

ghost use Rattle.std.specs.Prelude.{◌≡◌, ℕ, ℤ, ◌+ℤ◌, ◌≤◌, ◌↔◌, List, map};
ghost use Rattle.std.proofs.Common.{pos};
ghost use Rattle.ring_lemmas.specs.Ring.{pow};
ghost use Rattle.ring_theory.specs.Subsets.{IsModule, Span, Product, Colon};
ghost use Rattle.ff_fields.specs.Field.{CodeField};
ghost use Rattle.linear_theory.specs.Basis.{IsSum};
ghost use Rattle.linear_theory.specs.Euclidean.{IsDivisorIn};
ghost use Rattle.ff_poly.specs.Words.{IsIrreducibleList};
ghost use Rattle.ff_poly.specs.Polynomials.{Polynomial, polynomials, codes_of, x_poly};
ghost use Rattle.function_field.specs.declared.side.Side.TheVariants.{Finite, Infinite};
ghost use Rattle.function_field.specs.Functions.{Equation, FunctionOf, ring_of, of_poly, setting_of, degree_of_y, IsPolynomial, IsScalar};
ghost use Rattle.function_field.specs.Values.{PresValue, Functions, functions, setting, equation_of};
ghost use Rattle.function_field.specs.Places.{Place, IsPlace, IsIn, IsSamePlace, IsIntegralAt, LiesOver, HasValuation, HasValuationAtLeast};
ghost use Rattle.function_field.specs.Divisors.{HasDegree};
ghost use Rattle.function_field.specs.Infinity.{IsInfinitePresentation};
ghost use Rattle.function_field.specs.Discriminant.{discriminant};
ghost use Rattle.prime_theory.specs.Ideals.{Multiple, SameSet};
ghost use Rattle.prime_theory.specs.Orders.{MaximalAt, Radical};
ghost use Rattle.prime_theory.specs.Primes.{IsPrime, Pair};
ghost use Rattle.prime_theory.specs.IntegerValues.{ValueIs};
ghost use Rattle.trace_theory.specs.Traces.{HasPolynomialCoordinates};
ghost use Rattle.function_field.specs.Indices.{HasIndex, space_ops};
ghost use Rattle.lattice_theory.specs.Lattices.{IsLattice};
ghost use Rattle.order_theory.specs.Orders.{IsOrder, IsPrimeTo, TakenByPowers};
ghost use Rattle.infinite_theory.specs.Supported.{IsSupportedAt, HasPowerDenominator, IsLocallyIn};
ghost use Rattle.infinite_theory.specs.InfiniteMaps.{IsInfiniteMap, IsCombinationAtInfinity, IsMemberBelow, place_at_infinity};
ghost use Rattle.infinite_theory.specs.InfinitePlaces.{InfinitePlace, IsAllInfinite, sum_of_infinite_degrees};

use lattice_theory::FunctionSets;

/// A curve's presentation, its infinite one, and two sets of functions of that: an order, say, and a prime of it. Only
/// theorems use it, as a type parameter that no value has.
pub trait InfiniteSets {
    ghost field: { CodeField };

    ghost presentation: { PresValue };

    ghost infinite: { PresValue };

    ghost members: { Functions field infinite → Type 0 };

    ghost prime: { Functions field infinite → Type 0 };
}

/// Lattices supported at p, which are k[x][y] up to powers of p: k[x][y] is one, and so are the sum, the product and
/// the colon of two, the multiples of one by what powers of p take to polynomials together with its inverse, and what
/// lies between two. The radical of an order supported at p is one, and so are the integral functions that powers of p
/// take into it.
pub fn supported_law<S: FunctionSets>()
    ensures coordinates { (p : Polynomial S.field) → IsIrreducibleList S.field.ops (codes_of S.field p)
        → IsOrder S.equation (HasPolynomialCoordinates S.equation)
        × IsSupportedAt S.equation p (HasPolynomialCoordinates S.equation) }
    ensures sum { (p : Polynomial S.field) → IsIrreducibleList S.field.ops (codes_of S.field p)
        → IsLattice S.equation S.first → IsLattice S.equation S.second
        → IsSupportedAt S.equation p S.first → IsSupportedAt S.equation p S.second
        → IsSupportedAt S.equation p (IsSum (space_ops S.equation) S.first S.second) }
    ensures product { (p : Polynomial S.field) → IsIrreducibleList S.field.ops (codes_of S.field p)
        → IsLattice S.equation S.first → IsLattice S.equation S.second
        → IsSupportedAt S.equation p S.first → IsSupportedAt S.equation p S.second
        → IsSupportedAt S.equation p (Product (ring_of S.equation).ops S.first S.second) }
    ensures colon { (p : Polynomial S.field) → IsIrreducibleList S.field.ops (codes_of S.field p)
        → IsLattice S.equation S.first → IsLattice S.equation S.second
        → IsSupportedAt S.equation p S.first → IsSupportedAt S.equation p S.second
        → IsSupportedAt S.equation p (Colon (ring_of S.equation).ops S.first S.second) }
    ensures multiple { (p : Polynomial S.field) → IsIrreducibleList S.field.ops (codes_of S.field p)
        → IsLattice S.equation S.first → IsSupportedAt S.equation p S.first
        → (n : ℕ) (u v : FunctionOf S.equation) → (ring_of S.equation).◌⊗◌ u v ≡ (ring_of S.equation).𝟙
        → IsPolynomial S.equation ((ring_of S.equation).◌⊗◌ (pow (ring_of S.equation).ops (of_poly S.equation p) n) u)
        → IsPolynomial S.equation ((ring_of S.equation).◌⊗◌ (pow (ring_of S.equation).ops (of_poly S.equation p) n) v)
        → IsSupportedAt S.equation p (Multiple (ring_of S.equation).ops u S.first) }
    ensures between { (p : Polynomial S.field) → IsIrreducibleList S.field.ops (codes_of S.field p)
        → IsLattice S.equation S.first → IsLattice S.equation S.third
        → IsSupportedAt S.equation p S.first → IsSupportedAt S.equation p S.third
        → IsModule (ring_of S.equation).ops (IsPolynomial S.equation) S.second
        → ((z : FunctionOf S.equation) → S.first z → S.second z)
        → ((z : FunctionOf S.equation) → S.second z → S.third z) → IsSupportedAt S.equation p S.second }
    ensures radical { (p : Polynomial S.field) → IsIrreducibleList S.field.ops (codes_of S.field p)
        → IsOrder S.equation S.first → IsSupportedAt S.equation p S.first
        → IsSupportedAt S.equation p (Radical (ring_of S.equation).ops S.first (of_poly S.equation p)) }
    ensures taken { (p : Polynomial S.field) → IsIrreducibleList S.field.ops (codes_of S.field p)
        → ¬ (discriminant S.equation ≡ (polynomials S.field).𝟘)
        → IsOrder S.equation S.first → IsSupportedAt S.equation p S.first
        → IsSupportedAt S.equation p (TakenByPowers S.equation p S.first) }
{}

/// A lattice supported at p is what it is locally at p, among the functions that have powers of p as denominators. So
/// membership in it up to factors prime to p is membership of one multiple.
pub fn local_member_law<S: FunctionSets>()
    ensures members { (p : Polynomial S.field) → IsIrreducibleList S.field.ops (codes_of S.field p)
        → IsLattice S.equation S.first → IsSupportedAt S.equation p S.first
        → (z : FunctionOf S.equation) → S.first z
        ↔ (HasPowerDenominator S.equation p z × IsLocallyIn S.equation p S.first z) }
    ensures member { (p : Polynomial S.field) → IsIrreducibleList S.field.ops (codes_of S.field p)
        → IsLattice S.equation S.first → IsSupportedAt S.equation p S.first
        → (z u : FunctionOf S.equation) → IsPrimeTo S.equation p u
        → HasPowerDenominator S.equation p ((ring_of S.equation).◌⊗◌ u z)
        → IsLocallyIn S.equation p S.first z ↔ S.first ((ring_of S.equation).◌⊗◌ u z) }
{}

/// An order that is maximal at p is the ring of integral functions, locally at p; where it is supported at p, it has
/// those of them that have powers of p as denominators. So there is one such order.
pub fn local_integral_law<S: FunctionSets>()
    ensures locally { (p : Polynomial S.field) → IsIrreducibleList S.field.ops (codes_of S.field p)
        → IsOrder S.equation S.first
        → MaximalAt (ring_of S.equation).ops (of_poly S.equation p) (IsIntegralAt (setting_of S.equation) Finite)
        S.first
        → (z : FunctionOf S.equation) → IsLocallyIn S.equation p S.first z
        ↔ IsLocallyIn S.equation p (IsIntegralAt (setting_of S.equation) Finite) z }
    ensures members { (p : Polynomial S.field) → IsIrreducibleList S.field.ops (codes_of S.field p)
        → IsOrder S.equation S.first → IsSupportedAt S.equation p S.first
        → MaximalAt (ring_of S.equation).ops (of_poly S.equation p) (IsIntegralAt (setting_of S.equation) Finite)
        S.first
        → (z : FunctionOf S.equation) → S.first z
        ↔ (HasPowerDenominator S.equation p z
        × IsLocallyIn S.equation p (IsIntegralAt (setting_of S.equation) Finite) z) }
    ensures once { (p : Polynomial S.field) → IsIrreducibleList S.field.ops (codes_of S.field p)
        → IsOrder S.equation S.first → IsSupportedAt S.equation p S.first
        → MaximalAt (ring_of S.equation).ops (of_poly S.equation p) (IsIntegralAt (setting_of S.equation) Finite)
        S.first
        → IsOrder S.equation S.second → IsSupportedAt S.equation p S.second
        → MaximalAt (ring_of S.equation).ops (of_poly S.equation p) (IsIntegralAt (setting_of S.equation) Finite)
        S.second → SameSet S.first S.second }
{}

/// The integral functions that powers of p take into k[x][y] are the order supported at p that is maximal at p. Where
/// the square of p doesn't divide the discriminant, they are k[x][y].
pub fn supported_order_law()
    ensures order { (k : CodeField) (c : Equation k) (p : Polynomial k) → IsIrreducibleList k.ops (codes_of k p)
        → ¬ (discriminant c ≡ (polynomials k).𝟘)
        → IsOrder c (TakenByPowers c p (HasPolynomialCoordinates c))
        × IsSupportedAt c p (TakenByPowers c p (HasPolynomialCoordinates c))
        × MaximalAt (ring_of c).ops (of_poly c p) (IsIntegralAt (setting_of c) Finite)
        (TakenByPowers c p (HasPolynomialCoordinates c)) }
    ensures whole { (k : CodeField) (c : Equation k) (p : Polynomial k) → IsIrreducibleList k.ops (codes_of k p)
        → ¬ IsDivisorIn (polynomials k).ops ((polynomials k).◌⊗◌ p p) (discriminant c)
        → SameSet (TakenByPowers c p (HasPolynomialCoordinates c)) (HasPolynomialCoordinates c) }
{}

/// The variable is irreducible; and the infinite presentation has the functions of the curve: there is an isomorphism
/// that takes its elements to the functions that they stand for, and carries what is said of its variable to t = 1/x.
pub fn infinite_map_law()
    ensures irreducible { (k : CodeField) → IsIrreducibleList k.ops (codes_of k (x_poly k)) }
    ensures exists { (k : CodeField) (p q : PresValue) (c : ℕ) → 1 ≤ p.n → IsInfinitePresentation k p c q
        → (f : Functions k q → Functions k p) × IsInfiniteMap k p q c f }
{}

/// For a lattice over k[t], the combinations of its generators over the fractions of degree at most 0 are what is
/// locally at t in it. Where it is supported at t, it has those of them that have powers of t as denominators, and
/// whether a function is one is membership of a multiple.
pub fn combination_law<L: InfiniteSets>()
    ensures locally { (c : ℕ) (f : Functions L.field L.infinite → Functions L.field L.presentation)
        → IsInfiniteMap L.field L.presentation L.infinite c f
        → IsLattice (equation_of L.field L.infinite) L.members → (gs : List (Functions L.field L.infinite))
        → SameSet L.members (Span (functions L.field L.infinite).ops (IsPolynomial (equation_of L.field L.infinite)) gs)
        → (z : Functions L.field L.infinite) → IsCombinationAtInfinity L.field L.presentation L.infinite f gs z
        ↔ IsLocallyIn (equation_of L.field L.infinite) (x_poly L.field) L.members z }
    ensures member { (c : ℕ) (f : Functions L.field L.infinite → Functions L.field L.presentation)
        → IsInfiniteMap L.field L.presentation L.infinite c f
        → IsLattice (equation_of L.field L.infinite) L.members
        → IsSupportedAt (equation_of L.field L.infinite) (x_poly L.field) L.members
        → (gs : List (Functions L.field L.infinite))
        → SameSet L.members (Span (functions L.field L.infinite).ops (IsPolynomial (equation_of L.field L.infinite)) gs)
        → (z u : Functions L.field L.infinite) → IsPrimeTo (equation_of L.field L.infinite) (x_poly L.field) u
        → HasPowerDenominator (equation_of L.field L.infinite) (x_poly L.field) ((functions L.field L.infinite).◌⊗◌ u z)
        → IsCombinationAtInfinity L.field L.presentation L.infinite f gs z
        ↔ L.members ((functions L.field L.infinite).◌⊗◌ u z) }
    ensures members { (c : ℕ) (f : Functions L.field L.infinite → Functions L.field L.presentation)
        → IsInfiniteMap L.field L.presentation L.infinite c f
        → IsLattice (equation_of L.field L.infinite) L.members
        → IsSupportedAt (equation_of L.field L.infinite) (x_poly L.field) L.members
        → (gs : List (Functions L.field L.infinite))
        → SameSet L.members (Span (functions L.field L.infinite).ops (IsPolynomial (equation_of L.field L.infinite)) gs)
        → (z : Functions L.field L.infinite) → L.members z
        ↔ (HasPowerDenominator (equation_of L.field L.infinite) (x_poly L.field) z
        × IsCombinationAtInfinity L.field L.presentation L.infinite f gs z) }
{}

/// The discriminant of the infinite presentation isn't 0 where that of the curve isn't; then the integral functions
/// that powers of t take into k[t][Y] are what O_inf has with powers of t as denominators, and O_inf is, up to factors
/// that t doesn't divide, what they are. Where the square of t doesn't divide the discriminant, they are k[t][Y].
pub fn infinite_maximal_law()
    ensures discriminant { (k : CodeField) (p q : PresValue) (c : ℕ) → 1 ≤ p.n → IsInfinitePresentation k p c q
        → ¬ (discriminant (equation_of k p) ≡ (polynomials k).𝟘)
        → ¬ (discriminant (equation_of k q) ≡ (polynomials k).𝟘) }
    ensures members { (k : CodeField) (p q : PresValue) (c : ℕ) (f : Functions k q → Functions k p)
        → IsInfiniteMap k p q c f
        → ¬ (discriminant (equation_of k q) ≡ (polynomials k).𝟘) → (z : Functions k q)
        → TakenByPowers (equation_of k q) (x_poly k) (HasPolynomialCoordinates (equation_of k q)) z
        ↔ (HasPowerDenominator (equation_of k q) (x_poly k) z × IsIntegralAt (setting k p) Infinite (f z)) }
    ensures locally { (k : CodeField) (p q : PresValue) (c : ℕ) (f : Functions k q → Functions k p)
        → IsInfiniteMap k p q c f
        → ¬ (discriminant (equation_of k q) ≡ (polynomials k).𝟘) → (z : Functions k q)
        → IsLocallyIn (equation_of k q) (x_poly k)
        (TakenByPowers (equation_of k q) (x_poly k) (HasPolynomialCoordinates (equation_of k q))) z
        ↔ IsIntegralAt (setting k p) Infinite (f z) }
    ensures spans { (k : CodeField) (p q : PresValue) (c : ℕ) (f : Functions k q → Functions k p)
        → IsInfiniteMap k p q c f
        → ¬ (discriminant (equation_of k q) ≡ (polynomials k).𝟘) → (gs : List (Functions k q))
        → SameSet (TakenByPowers (equation_of k q) (x_poly k) (HasPolynomialCoordinates (equation_of k q)))
        (Span (functions k q).ops (IsPolynomial (equation_of k q)) gs) → (z : Functions k q)
        → IsIntegralAt (setting k p) Infinite (f z) ↔ IsCombinationAtInfinity k p q f gs z }
    ensures whole { (k : CodeField) (p q : PresValue) (c : ℕ) (f : Functions k q → Functions k p)
        → IsInfiniteMap k p q c f
        → ¬ (discriminant (equation_of k q) ≡ (polynomials k).𝟘)
        → ¬ IsDivisorIn (polynomials k).ops ((polynomials k).◌⊗◌ (x_poly k) (x_poly k))
        (discriminant (equation_of k q)) → (z : Functions k q)
        → HasPolynomialCoordinates (equation_of k q) z
        ↔ (HasPowerDenominator (equation_of k q) (x_poly k) z × IsIntegralAt (setting k p) Infinite (f z)) }
{}

/// The infinite maximal order: of an order over k[t] that is maximal at t, the combinations over the fractions of
/// degree at most 0 are O_inf. Where it is supported at t, it has what O_inf has with powers of t as denominators.
pub fn infinite_order_law<O: InfiniteSets>()
    ensures integral { (c : ℕ) (f : Functions O.field O.infinite → Functions O.field O.presentation)
        → IsInfiniteMap O.field O.presentation O.infinite c f
        → IsOrder (equation_of O.field O.infinite) O.members
        → MaximalAt (functions O.field O.infinite).ops (of_poly (equation_of O.field O.infinite) (x_poly O.field))
        (IsIntegralAt (setting O.field O.infinite) Finite) O.members
        → (gs : List (Functions O.field O.infinite))
        → SameSet O.members (Span (functions O.field O.infinite).ops (IsPolynomial (equation_of O.field O.infinite)) gs)
        → (z : Functions O.field O.infinite) → IsIntegralAt (setting O.field O.presentation) Infinite (f z)
        ↔ IsCombinationAtInfinity O.field O.presentation O.infinite f gs z }
    ensures members { (c : ℕ) (f : Functions O.field O.infinite → Functions O.field O.presentation)
        → IsInfiniteMap O.field O.presentation O.infinite c f
        → IsOrder (equation_of O.field O.infinite) O.members
        → IsSupportedAt (equation_of O.field O.infinite) (x_poly O.field) O.members
        → MaximalAt (functions O.field O.infinite).ops (of_poly (equation_of O.field O.infinite) (x_poly O.field))
        (IsIntegralAt (setting O.field O.infinite) Finite) O.members
        → (z : Functions O.field O.infinite) → O.members z
        ↔ (HasPowerDenominator (equation_of O.field O.infinite) (x_poly O.field) z
        × IsIntegralAt (setting O.field O.presentation) Infinite (f z)) }
{}

/// The finite places of the infinite presentation over its variable are the infinite places, with the same degrees and
/// valuations: each gives the one that the images of its generators span, which has the same integral functions over
/// k[t], and each infinite place is given so.
pub fn place_map_law()
    ensures place { (k : CodeField) (p q : PresValue) (c : ℕ) (f : Functions k q → Functions k p)
        → IsInfiniteMap k p q c f → (Q : Place (Functions k q))
        → IsPlace (setting k q) Q → LiesOver (setting k q) Q (setting k q).x
        → IsPlace (setting k p) (place_at_infinity k p q f Q) }
    ensures members { (k : CodeField) (p q : PresValue) (c : ℕ) (f : Functions k q → Functions k p)
        → IsInfiniteMap k p q c f → (Q : Place (Functions k q))
        → IsPlace (setting k q) Q → LiesOver (setting k q) Q (setting k q).x → (z : Functions k q)
        → IsIntegralAt (setting k q) Finite z
        → IsIn (setting k p) (place_at_infinity k p q f Q) (f z) ↔ IsIn (setting k q) Q z }
    ensures degree { (k : CodeField) (p q : PresValue) (c : ℕ) (f : Functions k q → Functions k p)
        → IsInfiniteMap k p q c f → (Q : Place (Functions k q))
        → IsPlace (setting k q) Q → LiesOver (setting k q) Q (setting k q).x → (d : ℕ) → HasDegree (setting k q) Q d
        → HasDegree (setting k p) (place_at_infinity k p q f Q) d }
    ensures value { (k : CodeField) (p q : PresValue) (c : ℕ) (f : Functions k q → Functions k p)
        → IsInfiniteMap k p q c f
        → ¬ (discriminant (equation_of k q) ≡ (polynomials k).𝟘) → (Q : Place (Functions k q)) → IsPlace (setting k q) Q
        → LiesOver (setting k q) Q (setting k q).x → (z : Functions k q) (m : ℤ)
        → HasValuation (setting k p) (place_at_infinity k p q f Q) (f z) m ↔ HasValuation (setting k q) Q z m }
    ensures every { (k : CodeField) (p q : PresValue) (c : ℕ) (f : Functions k q → Functions k p)
        → IsInfiniteMap k p q c f
        → ¬ (discriminant (equation_of k q) ≡ (polynomials k).𝟘) → (P : Place (Functions k p))
        → IsPlace (setting k p) P → P.side ≡ Infinite
        → (Q : Place (Functions k q)) × IsPlace (setting k q) Q × LiesOver (setting k q) Q (setting k q).x
        × IsSamePlace (setting k p) (place_at_infinity k p q f Q) P }
{}

/// Of an order over k[t] that is maximal at t, each prime over t gives an infinite place: the images of functions that
/// span the prime over k[t] span the place, and the order has the same members of both. The degree of the place is the
/// index of the prime in the order, and its valuation that of the prime. Each infinite place has such a prime, of the
/// members of the order that go into it, and is the place that it gives.
pub fn prime_at_infinity_law<O: InfiniteSets>()
    ensures place { (c : ℕ) (f : Functions O.field O.infinite → Functions O.field O.presentation)
        → IsInfiniteMap O.field O.presentation O.infinite c f
        → IsOrder (equation_of O.field O.infinite) O.members
        → MaximalAt (functions O.field O.infinite).ops (of_poly (equation_of O.field O.infinite) (x_poly O.field))
        (IsIntegralAt (setting O.field O.infinite) Finite) O.members
        → IsPrime (functions O.field O.infinite).ops O.members O.prime → O.prime (setting O.field O.infinite).x
        → (gs : List (Functions O.field O.infinite))
        → SameSet O.prime (Span (functions O.field O.infinite).ops (IsPolynomial (equation_of O.field O.infinite)) gs)
        → IsPlace (setting O.field O.presentation) (record { side = Infinite; generators = map f gs })
        × ((z : Functions O.field O.infinite) → O.members z
        → IsIn (setting O.field O.presentation) (record { side = Infinite; generators = map f gs }) (f z) ↔ O.prime z) }
    ensures degree { (c : ℕ) (f : Functions O.field O.infinite → Functions O.field O.presentation)
        → IsInfiniteMap O.field O.presentation O.infinite c f
        → IsOrder (equation_of O.field O.infinite) O.members
        → MaximalAt (functions O.field O.infinite).ops (of_poly (equation_of O.field O.infinite) (x_poly O.field))
        (IsIntegralAt (setting O.field O.infinite) Finite) O.members
        → IsPrime (functions O.field O.infinite).ops O.members O.prime → O.prime (setting O.field O.infinite).x
        → (gs : List (Functions O.field O.infinite))
        → SameSet O.prime (Span (functions O.field O.infinite).ops (IsPolynomial (equation_of O.field O.infinite)) gs)
        → (d : ℕ) → HasIndex (equation_of O.field O.infinite) O.prime O.members d
        → HasDegree (setting O.field O.presentation) (record { side = Infinite; generators = map f gs }) d }
    ensures value { (c : ℕ) (f : Functions O.field O.infinite → Functions O.field O.presentation)
        → IsInfiniteMap O.field O.presentation O.infinite c f
        → IsOrder (equation_of O.field O.infinite) O.members
        → MaximalAt (functions O.field O.infinite).ops (of_poly (equation_of O.field O.infinite) (x_poly O.field))
        (IsIntegralAt (setting O.field O.infinite) Finite) O.members
        → IsPrime (functions O.field O.infinite).ops O.members O.prime → O.prime (setting O.field O.infinite).x
        → (gs : List (Functions O.field O.infinite))
        → SameSet O.prime (Span (functions O.field O.infinite).ops (IsPolynomial (equation_of O.field O.infinite)) gs)
        → ¬ (discriminant (equation_of O.field O.infinite) ≡ (polynomials O.field).𝟘)
        → (t : Pair (functions O.field O.infinite).ops O.members O.prime) (z : Functions O.field O.infinite) (m : ℤ)
        → HasValuation (setting O.field O.presentation) (record { side = Infinite; generators = map f gs }) (f z) m
        ↔ ValueIs (functions O.field O.infinite).ops O.members O.prime t z m }
    ensures every { (c : ℕ) (f : Functions O.field O.infinite → Functions O.field O.presentation)
        → IsInfiniteMap O.field O.presentation O.infinite c f
        → IsOrder (equation_of O.field O.infinite) O.members
        → MaximalAt (functions O.field O.infinite).ops (of_poly (equation_of O.field O.infinite) (x_poly O.field))
        (IsIntegralAt (setting O.field O.infinite) Finite) O.members
        → (P : Place (Functions O.field O.presentation)) → IsPlace (setting O.field O.presentation) P → P.side
        ≡ Infinite
        → IsPrime (functions O.field O.infinite).ops O.members
        (IsMemberBelow O.field O.presentation O.infinite f O.members P)
        × IsLattice (equation_of O.field O.infinite) (IsMemberBelow O.field O.presentation O.infinite f O.members P)
        × IsMemberBelow O.field O.presentation O.infinite f O.members P (setting O.field O.infinite).x
        × ((gs : List (Functions O.field O.infinite))
        → SameSet (IsMemberBelow O.field O.presentation O.infinite f O.members P)
        (Span (functions O.field O.infinite).ops (IsPolynomial (equation_of O.field O.infinite)) gs)
        → IsSamePlace (setting O.field O.presentation) (record { side = Infinite; generators = map f gs }) P) }
{}

/// Membership at infinity is decided: in a span over the fractions of degree at most 0, and in O_inf.
pub fn infinite_decided_law()
    ensures spans { (k : CodeField) (c : Equation k) (gs : List (FunctionOf c)) (z : FunctionOf c)
        → Dec (Span (ring_of c).ops (IsScalar c Infinite) gs z) }
    ensures integral { (k : CodeField) (c : Equation k) → ¬ (discriminant c ≡ (polynomials k).𝟘) → (z : FunctionOf c)
        → Dec (IsIntegralAt (setting_of c) Infinite z) }
{}

/// Each infinite place has t = 1/x, sameness of two is decided, and each has a degree.
pub fn infinite_place_law()
    ensures over { (k : CodeField) (c : Equation k) (P : Place (FunctionOf c)) → IsPlace (setting_of c) P → P.side
        ≡ Infinite
        → IsIn (setting_of c) P (setting_of c).one_over_x }
    ensures same { (k : CodeField) (c : Equation k) (P Q : Place (FunctionOf c)) → P.side ≡ Infinite → Q.side
        ≡ Infinite → Dec (IsSamePlace (setting_of c) P Q) }
    ensures has_degree { (k : CodeField) (c : Equation k) → ¬ (discriminant c ≡ (polynomials k).𝟘)
        → (P : Place (FunctionOf c)) → IsPlace (setting_of c) P
        → P.side ≡ Infinite → (d : ℕ) × HasDegree (setting_of c) P d }
{}

/// The infinite places are finitely many, and listed; the sum of e·f over them is n.
pub fn infinite_places_law()
    ensures { (k : CodeField) (c : Equation k) → ¬ (discriminant c ≡ (polynomials k).𝟘)
        → (ps : List (InfinitePlace (setting_of c)))
        × IsAllInfinite (setting_of c) ps × (sum_of_infinite_degrees (setting_of c) ps ≡ degree_of_y c) }
{}

/// A function with an inverse has a value at each infinite place.
pub fn infinite_value_law()
    ensures { (k : CodeField) (c : Equation k) (P : Place (FunctionOf c)) → ¬ (discriminant c ≡ (polynomials k).𝟘)
        → IsPlace (setting_of c) P
        → P.side ≡ Infinite → (z y : FunctionOf c) → (ring_of c).◌⊗◌ z y ≡ (ring_of c).𝟙 → (m : ℤ)
        × HasValuation (setting_of c) P z m }
{}

/// The functions without poles at infinite places are O_inf.
pub fn infinite_regular_law()
    ensures { (k : CodeField) (c : Equation k) (z : FunctionOf c) → ¬ (discriminant c ≡ (polynomials k).𝟘)
        → ((P : Place (FunctionOf c)) → IsPlace (setting_of c) P → P.side ≡ Infinite
        → HasValuationAtLeast (setting_of c) P z (pos 0))
        ↔ IsIntegralAt (setting_of c) Infinite z }
{}

/// At each place, values add on products, and the value of a sum of functions with different values is the smaller one.
pub fn value_rules_law()
    ensures product { (k : CodeField) (c : Equation k) (P : Place (FunctionOf c))
        → ¬ (discriminant c ≡ (polynomials k).𝟘) → IsPlace (setting_of c) P
        → (z w : FunctionOf c) (m n : ℤ) → HasValuation (setting_of c) P z m → HasValuation (setting_of c) P w n
        → HasValuation (setting_of c) P ((ring_of c).◌⊗◌ z w) (m +ℤ n) }
    ensures sum { (k : CodeField) (c : Equation k) (P : Place (FunctionOf c))
        → ¬ (discriminant c ≡ (polynomials k).𝟘) → IsPlace (setting_of c) P
        → (z w : FunctionOf c) (m : ℤ) → HasValuation (setting_of c) P z m
        → HasValuationAtLeast (setting_of c) P w (m +ℤ pos 1)
        → HasValuation (setting_of c) P ((ring_of c).◌⊕◌ z w) m }
{}
