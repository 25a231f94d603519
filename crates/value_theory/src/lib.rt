//! The bridge from lattices of codes to sets of functions: what contracts say of lattices, orders and ideals, in the
//! words of the theory, the primes of orders as values, and the lattices of the integral functions of a side. There is
//! no code: each theorem is the contract of a function with an empty body.
#![tactic(auto)]

ghost use Rattle.std.specs.Prelude.{◌<◌, ℕ, List};
ghost use Rattle.ff_fields.specs.Field.{CodeField};
ghost use Rattle.ff_fields.specs.Over.{IsOver};
ghost use Rattle.ff_poly.specs.Words.{IsIrreducibleList};
ghost use Rattle.ff_poly.specs.Polynomials.{x_poly};
ghost use Rattle.function_field.specs.declared.side.Side.TheVariants.{Infinite};
ghost use Rattle.function_field.specs.Curves.{CurveValue, IsCurve};
ghost use Rattle.function_field.specs.Values.{PresValue, equation_of};
ghost use Rattle.infinite_theory.specs.Supported.{IsSupportedAt};
ghost use Rattle.ideal_theory.specs.Records.{RecordedPrime};
ghost use Rattle.ff_lattice.specs.Lattices.{LatticeValue, Contains};
ghost use Rattle.ff_lattice.specs.Orders.{IsOrderLattice};
ghost use Rattle.ff_lattice.specs.Quotients.{QuotientValue, IsQuotient};
ghost use Rattle.value_theory.specs.IntegralLattices.{IsIntegralLattice};
ghost use Rattle.value_theory.specs.Primes.{PrimeValue, IsPrimeOf, AreAllPrimes};
ghost use Rattle.value_theory.specs.Laws.{IndicesByDegrees, IdealsAsSets, FieldsAndMaximalIdeals, IsRecordOf, IsRecordOfPrimes};

/// The index of a lattice relative to another one is the difference of their pivot degrees, and relative to k[x][y] the
/// pivot degree.
pub fn index_law()
    ensures { (k : CodeField) (p : PresValue) → 0 < p.n → IndicesByDegrees k p }
{}

/// An ideal of an order is an ideal, and a module over the order, as a set of functions.
pub fn ideal_law()
    ensures { (k : CodeField) (p : PresValue) → IdealsAsSets k p }
{}

/// An order modulo an ideal is a field exactly where the ideal is maximal.
pub fn field_law()
    ensures { (k : CodeField) (q : QuotientValue) → IsQuotient k q → FieldsAndMaximalIdeals k q }
{}

/// A prime of an order gives a recorded prime: its rows, those of its inverse, its ramification index and its degree.
pub fn prime_law()
    ensures { (k : CodeField) (p : PresValue) (o : LatticeValue) (P : PrimeValue) → 0 < p.n → IsOrderLattice k p o
        → IsPrimeOf k p o P
        → (R : RecordedPrime (equation_of k p) (Contains k p o)) × IsRecordOf k p o P R }
{}

/// All primes of an order over an irreducible polynomial are a record of primes, so that where the discriminant isn't
/// 0 they are those of the places over it: each is what one place has of the order, with its ramification index and
/// its degree.
pub fn primes_law()
    ensures { (k : CodeField) (p : PresValue) (o : LatticeValue) (pi : List ℕ) (Ps : List PrimeValue) → 0 < p.n
        → IsOrderLattice k p o
        → IsOver k.ops pi → IsIrreducibleList k.ops pi → AreAllPrimes k p o pi Ps
        → (Rs : List (RecordedPrime (equation_of k p) (Contains k p o))) × IsRecordOfPrimes k p o pi Ps Rs }
{}

/// The lattice of the integral functions of the infinite side differs from k[t][Y] at t = 1/x alone.
pub fn infinite_lattice_law()
    ensures { (k : CodeField) (c : CurveValue) (l : LatticeValue) → IsCurve k c → IsIntegralLattice k c Infinite l
        → IsSupportedAt (equation_of k c.inf) (x_poly k) (Contains k c.inf l) }
{}
