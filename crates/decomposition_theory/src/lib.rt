//! The primes of an order that is maximal at an irreducible polynomial, from the primitive idempotents of the order
//! modulo the polynomial, and when a list of primes has all of them. There is no code: each theorem is the contract of
//! a function with an empty body.
#![tactic(auto)]

ghost use Rattle.std.specs.Prelude.{◌<◌, ℕ, List};
ghost use Rattle.std.specs.List.{AllZip};
ghost use Rattle.prime_theory.specs.Places.{IsMaximalIdeal};
ghost use Rattle.ff_fields.specs.Field.{CodeField};
ghost use Rattle.ff_fields.specs.Over.{IsOver};
ghost use Rattle.ff_poly.specs.Words.{IsIrreducibleList};
ghost use Rattle.ff_poly.specs.Value.{value};
ghost use Rattle.function_field.specs.Functions.{of_poly};
ghost use Rattle.function_field.specs.Values.{PresValue, functions, equation_of};
ghost use Rattle.ff_lattice.specs.Lattices.{LatticeValue, Contains};
ghost use Rattle.ff_lattice.specs.Orders.{IsOrderLattice};
ghost use Rattle.ff_lattice.specs.Quotients.{QuotientValue, IsIdealLattice};
ghost use Rattle.value_theory.specs.Primes.{PrimeValue, AreAllPrimes};
ghost use Rattle.decomposition_theory.specs.Decompositions.{IsMaximalOrderAt, AreIdempotentsModulo, IsComponentPrime};
ghost use Rattle.decomposition_theory.specs.Laws.{HaveComponentPrimes, IsPrimeSystem, IsInvertiblePrime};

/// The primitive idempotents of an order modulo an irreducible polynomial have each a prime of the order, the members
/// whose class times the idempotent is nilpotent. They are different maximal ideals over the polynomial, and what is
/// in all of them is nilpotent modulo it.
pub fn component_law()
    ensures { (k : CodeField) (q : QuotientValue) (pi : List ℕ) (es : List (List ℕ))
        → IsMaximalOrderAt k q.p q.order pi → AreIdempotentsModulo k q pi es → HaveComponentPrimes k q pi es }
{}

/// The primes of all primitive idempotents, as values, are different primes over the polynomial, such that what is in
/// all of them is nilpotent modulo it.
pub fn component_system_law()
    ensures { (k : CodeField) (q : QuotientValue) (pi : List ℕ) (es : List (List ℕ)) (Ps : List PrimeValue)
        → IsMaximalOrderAt k q.p q.order pi → AreIdempotentsModulo k q pi es → AllZip (IsComponentPrime k q pi) es Ps
        → IsPrimeSystem k q.p q.order pi Ps }
{}

/// Different primes over an irreducible polynomial, such that what is in all of them is nilpotent modulo it, are all
/// the primes over it: n times its degree is the sum of e·f, and the product of their powers lies in its multiples.
pub fn all_primes_law()
    ensures { (k : CodeField) (p : PresValue) (o : LatticeValue) (pi : List ℕ) (Ps : List PrimeValue) → 0 < p.n
        → IsOrderLattice k p o
        → IsOver k.ops pi → IsIrreducibleList k.ops pi → IsPrimeSystem k p o pi Ps → AreAllPrimes k p o pi Ps }
{}

/// A maximal ideal, with the polynomial, of an order that is maximal at the polynomial: its product with its inverse is
/// the order, and there is a greatest power of it that has the polynomial.
pub fn prime_inverse_law()
    ensures { (k : CodeField) (p : PresValue) (o m : LatticeValue) (pi : List ℕ) → IsMaximalOrderAt k p o pi
        → IsIdealLattice k p o m → IsMaximalIdeal (functions k p).ops (Contains k p o) (Contains k p m)
        → Contains k p m (of_poly (equation_of k p) (value k pi)) → IsInvertiblePrime k p o pi m }
{}
