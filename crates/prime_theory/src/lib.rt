//! Integral elements, orders that are maximal at an element p, prime ideals and their valuations, in any commutative
//! ring: no field, no polynomials, no determinants. Each main theorem is the contract of a function with an empty
//! body; the crates above cite the lemmas of proofs/.
#![tactic(auto)]

ghost use Rattle.std.specs.Prelude.{◌≡◌, ℕ, suc, ◌<◌, ℤ, ◌+ℤ◌, ◌⊎◌, List, ◌++◌, All, map, ◌↔◌};
ghost use Rattle.std.specs.List.{Any};
ghost use Rattle.std.proofs.Common.{pos, negsuc};
ghost use Rattle.ring_lemmas.specs.Ring.{CommRing, pow};
ghost use Rattle.ring_lemmas.specs.Sums.{sum_below};
ghost use Rattle.ring_theory.specs.Determinant.{determinant};
ghost use Rattle.ring_theory.specs.Subsets.{IsSubring, IsModule, Span, Product, Colon};
ghost use Rattle.ring_theory.specs.Integral.{IsIntegral};
ghost use Rattle.ring_theory.specs.Local.{PrimeTo, Locally};
ghost use Rattle.prime_theory.specs.Ideals.{IsIdeal, IsMultiplicative, SameSet, Inverse, Invertible, Multiple};
ghost use Rattle.prime_theory.specs.Primes.{IsPrime, Pair};
ghost use Rattle.prime_theory.specs.Systems.{At, PrimeExponent, opposite, IdealProduct, IsFamily, IsSystem, IsDecomposition, PrimeAt, TraceGenerators, AreDistinctPrimes, Generators};
ghost use Rattle.prime_theory.specs.Orders.{Radical, MaximalAt, Denominator};
ghost use Rattle.prime_theory.specs.Places.{IsMaximalIdeal, PlaceOf, PlaceAtLeast, PlaceAtLeastMinus};
ghost use Rattle.prime_theory.specs.IntegerValues.{ValueAtLeast, ValueIs, PrimePower, entry};

use ring_theory::sets::{Family, Subset};

/// The elements that are integral over a subring are a subring that has it.
pub fn integral_ring_law<T, S: Subset<T>>()
    ensures ring { (R : CommRing T) → IsSubring R.ops S.members → IsSubring R.ops (IsIntegral R.ops S.members) }
    ensures base { (R : CommRing T) → IsSubring R.ops S.members → (s : T) → S.members s → IsIntegral R.ops S.members s }
{}

/// What takes a finitely generated module into itself is integral, where the module has an invertible element. So the
/// members of a ring that finitely many elements span are.
pub fn multiplier_law<T, S: Subset<T>, O: Subset<T>>()
    ensures order { (R : CommRing T) (bs : List T) → IsSubring R.ops S.members → IsSubring R.ops O.members
        → SameSet O.members (Span R.ops S.members bs) → (z : T) → O.members z → IsIntegral R.ops S.members z }
    ensures multiplier { (R : CommRing T) (bs : List T) (d e z : T) → IsSubring R.ops S.members → R.◌⊗◌ e d ≡ R.𝟙
        → Span R.ops S.members bs d
        → ((y : T) → Span R.ops S.members bs y → Span R.ops S.members bs (R.◌⊗◌ z y)) → IsIntegral R.ops S.members z }
{}

/// An element whose products with a basis have traces in S is spanned by the basis over S after multiplication by the
/// discriminant: its coordinates v times the determinant of the traces of products of the basis are in S.
pub fn discriminant_law<T, S: Subset<T>>()
    ensures { (R : CommRing T) (trace : T → T) (n : ℕ) (b v : ℕ → T) (z : T) → IsSubring R.ops S.members
        → ((j : ℕ) → trace (R.◌⊗◌ z (b j)) ≡ sum_below R.ops n (λ i. R.◌⊗◌ (v i) (trace (R.◌⊗◌ (b i) (b j)))))
        → ((i j : ℕ) → S.members (trace (R.◌⊗◌ (b i) (b j)))) → ((j : ℕ) → S.members (trace (R.◌⊗◌ z (b j))))
        → (i : ℕ) → i < n → S.members (R.◌⊗◌ (v i) (determinant R.ops n (λ i j. trace (R.◌⊗◌ (b i) (b j))))) }
{}

/// With denominators from U, what is integral over S, and what is spanned, has a multiple by a denominator that is so
/// without them.
pub fn denominators_law<T, S: Subset<T>, U: Subset<T>>()
    ensures integral { (R : CommRing T) → IsSubring R.ops S.members → IsMultiplicative R.ops S.members U.members
        → ((w : T) → U.members w → (u : T) × (R.◌⊗◌ u w ≡ R.𝟙)) → (z : T)
        → IsIntegral R.ops (Locally R.ops U.members S.members) z
        ↔ Locally R.ops U.members (IsIntegral R.ops S.members) z }
    ensures spanned { (R : CommRing T) → IsSubring R.ops S.members → IsMultiplicative R.ops S.members U.members
        → ((w : T) → U.members w → (u : T) × (R.◌⊗◌ u w ≡ R.𝟙)) → (bs : List T) (z : T)
        → Span R.ops (Locally R.ops U.members S.members) bs z ↔ Locally R.ops U.members (Span R.ops S.members bs) z }
{}

/// A ring over S is maximal at p exactly where it has each integral element up to factors prime to p.
pub fn maximal_law<T, S: Subset<T>, N: Subset<T>, O: Subset<T>>()
    ensures { (R : CommRing T) (p : T) → IsSubring R.ops S.members → PrimeTo R.ops S.members N.members p
        → IsModule R.ops S.members O.members
        → ((z : T) → IsIntegral R.ops S.members z → Denominator R.ops N.members O.members p z)
        → MaximalAt R.ops p (IsIntegral R.ops S.members) O.members
        ↔ ((z : T) → IsIntegral R.ops S.members z → Locally R.ops N.members O.members z) }
{}

/// The criterion of Pohst and Zassenhaus: O is maximal at p exactly where it has the multipliers of its radical modulo
/// p.
pub fn criterion_law<T, O: Subset<T>>()
    ensures { (R : CommRing T) (p r : T) (ys : List T) → IsSubring R.ops O.members → O.members p → R.◌⊗◌ r p ≡ R.𝟙
        → SameSet (Radical R.ops O.members p) (Span R.ops O.members ys)
        → ((w : T) → Colon R.ops (Radical R.ops O.members p) (Radical R.ops O.members p) w → O.members w)
        ↔ MaximalAt R.ops p (IsIntegral R.ops O.members) O.members }
{}

/// The inverse of an invertible module is the only module whose product with it is O, and the inverse of a product is
/// the product of the inverses.
pub fn inverse_law<T, O: Subset<T>, M: Subset<T>, J: Subset<T>>()
    ensures unique { (R : CommRing T) → IsSubring R.ops O.members → IsModule R.ops O.members J.members
        → SameSet (Product R.ops M.members J.members) O.members
        → SameSet J.members (Inverse R.ops O.members M.members) }
    ensures product { (R : CommRing T) → IsSubring R.ops O.members → IsModule R.ops O.members M.members
        → IsModule R.ops O.members J.members
        → Invertible R.ops O.members M.members → Invertible R.ops O.members J.members
        → SameSet (Product R.ops (Inverse R.ops O.members M.members) (Inverse R.ops O.members J.members))
        (Inverse R.ops O.members (Product R.ops M.members J.members)) }
{}

/// The value of z at an invertible prime of O: one integer, additive on products, at least the smaller one on sums and
/// equal to it where the two differ; it is at least m exactly where z is in the m-th power of the prime, locally.
pub fn valuation_law<T, O: Subset<T>, P: Subset<T>>()
    ensures unique { (R : CommRing T) → IsSubring R.ops O.members → IsPrime R.ops O.members P.members
        → (t : Pair R.ops O.members P.members)
        → (z : T) (m k : ℤ) → ValueIs R.ops O.members P.members t z m → ValueIs R.ops O.members P.members t z k → k
        ≡ m }
    ensures product { (R : CommRing T) → IsSubring R.ops O.members → IsPrime R.ops O.members P.members
        → (t : Pair R.ops O.members P.members)
        → (z w : T) (m k : ℤ) → ValueIs R.ops O.members P.members t z m → ValueIs R.ops O.members P.members t w k
        → ValueIs R.ops O.members P.members t (R.◌⊗◌ z w) (m +ℤ k) }
    ensures sum { (R : CommRing T) → IsSubring R.ops O.members → IsPrime R.ops O.members P.members
        → (t : Pair R.ops O.members P.members)
        → (z w : T) (m : ℤ) → ValueAtLeast R.ops O.members P.members t z m
        → ValueAtLeast R.ops O.members P.members t w m
        → ValueAtLeast R.ops O.members P.members t (R.◌⊕◌ z w) m }
    ensures strict { (R : CommRing T) → IsSubring R.ops O.members → IsPrime R.ops O.members P.members
        → (t : Pair R.ops O.members P.members)
        → (z w : T) (m : ℤ) → ValueIs R.ops O.members P.members t z m
        → ValueAtLeast R.ops O.members P.members t w (m +ℤ pos 1)
        → ValueIs R.ops O.members P.members t (R.◌⊕◌ z w) m }
    ensures next { (R : CommRing T) → IsSubring R.ops O.members → IsPrime R.ops O.members P.members
        → (t : Pair R.ops O.members P.members)
        → (z : T) (m : ℤ) → ValueAtLeast R.ops O.members P.members t z m
        → ValueAtLeast R.ops O.members P.members t z (m +ℤ pos 1) ⊎ ValueIs R.ops O.members P.members t z m }
    ensures power { (R : CommRing T) → IsSubring R.ops O.members → IsPrime R.ops O.members P.members
        → (t : Pair R.ops O.members P.members)
        → (z : T) (m : ℤ) → ValueAtLeast R.ops O.members P.members t z m
        ↔ At R.ops O.members P.members (PrimePower R.ops O.members P.members m) z }
{}

/// The members of O of a maximal ideal of B with p are a prime of O, from which it comes back; and each prime of O
/// over p is that of a maximal ideal of B. B is a ring between O and what is in O up to factors prime to p.
pub fn places_law<
    T,
    S: Subset<T>,
    N: Subset<T>,
    O: Subset<T>,
    B: Subset<T>,
    M: Subset<T>,
    P: Subset<T>,
>()
    ensures down { (R : CommRing T) (p : T) → IsSubring R.ops S.members → PrimeTo R.ops S.members N.members p
        → IsSubring R.ops O.members → ((s : T) → S.members s → O.members s)
        → IsSubring R.ops B.members → ((a : T) → O.members a → B.members a)
        → ((z : T) → B.members z → Locally R.ops N.members O.members z)
        → IsMaximalIdeal R.ops B.members M.members → M.members p
        → ((u : T) → O.members u → M.members u ⊎ (¬ (M.members u)))
        → IsPrime R.ops O.members (λ a. O.members a × M.members a)
        × SameSet M.members (PlaceOf R.ops B.members N.members (λ a. O.members a × M.members a)) }
    ensures up { (R : CommRing T) (p : T) → IsSubring R.ops S.members → PrimeTo R.ops S.members N.members p
        → IsSubring R.ops O.members → ((s : T) → S.members s → O.members s)
        → IsSubring R.ops B.members → ((a : T) → O.members a → B.members a)
        → ((z : T) → B.members z → Locally R.ops N.members O.members z)
        → IsPrime R.ops O.members P.members → P.members p
        → IsMaximalIdeal R.ops B.members (PlaceOf R.ops B.members N.members P.members)
        × ((z : T) → O.members z → PlaceOf R.ops B.members N.members P.members z ↔ P.members z) }
{}

/// The valuation by powers of a maximal ideal of B is that of its prime of O; for values below 0, where finitely many
/// elements span it.
pub fn place_values_law<
    T,
    S: Subset<T>,
    N: Subset<T>,
    O: Subset<T>,
    B: Subset<T>,
    M: Subset<T>,
    P: Subset<T>,
>()
    ensures above { (R : CommRing T) (p : T) → IsSubring R.ops S.members → PrimeTo R.ops S.members N.members p
        → IsSubring R.ops O.members → ((s : T) → S.members s → O.members s)
        → IsSubring R.ops B.members → ((a : T) → O.members a → B.members a)
        → ((z : T) → B.members z → Locally R.ops N.members O.members z)
        → IsPrime R.ops O.members P.members → P.members p → (t : Pair R.ops O.members P.members)
        → IsIdeal R.ops B.members M.members → ((z : T) → M.members z → Locally R.ops N.members P.members z)
        → ((z : T) → P.members z → M.members z)
        → (z : T) (m : ℕ) → PlaceAtLeast R.ops B.members M.members z m
        ↔ ValueAtLeast R.ops O.members P.members t z (pos m) }
    ensures below { (R : CommRing T) (p : T) → IsSubring R.ops S.members → PrimeTo R.ops S.members N.members p
        → IsSubring R.ops O.members → ((s : T) → S.members s → O.members s)
        → IsSubring R.ops B.members → ((a : T) → O.members a → B.members a)
        → ((z : T) → B.members z → Locally R.ops N.members O.members z)
        → IsPrime R.ops O.members P.members → P.members p → (t : Pair R.ops O.members P.members)
        → IsIdeal R.ops B.members M.members → ((z : T) → M.members z → Locally R.ops N.members P.members z)
        → ((z : T) → P.members z → M.members z)
        → (gens : List T) → SameSet M.members (Span R.ops B.members gens)
        → (z : T) (m : ℕ) → PlaceAtLeastMinus R.ops B.members M.members z (suc m)
        ↔ ValueAtLeast R.ops O.members P.members t z (negsuc m) }
{}

/// Local orthogonal idempotents modulo p give a prime system at p; its primes are invertible where O has the
/// multipliers of their inverses.
pub fn decomposition_law<T, I, O: Subset<T>>()
    ensures system { (R : CommRing T) (p : T) (e : I → T) (is : List I) → IsSubring R.ops O.members → O.members p
        → IsDecomposition R.ops O.members p I e is
        → IsSystem R.ops O.members p I (λ i. PrimeAt R.ops O.members p (e i)) is }
    ensures family { (R : CommRing T) (p : T) (e : I → T) (is : List I) → IsSubring R.ops O.members → O.members p
        → IsDecomposition R.ops O.members p I e is → (r : T) → R.◌⊗◌ r p ≡ R.𝟙
        → ((x : T) → O.members x → Multiple R.ops p O.members x ⊎ (¬ (Multiple R.ops p O.members x)))
        → ((i : I) (z : T) → Colon R.ops (Inverse R.ops O.members (PrimeAt R.ops O.members p (e i)))
        (Inverse R.ops O.members (PrimeAt R.ops O.members p (e i))) z
        → O.members (R.◌⊗◌ p z) → O.members z)
        → ((i : I) → TraceGenerators R.ops O.members (PrimeAt R.ops O.members p (e i)))
        → IsFamily R.ops O.members I (λ i. PrimeAt R.ops O.members p (e i)) }
{}

/// A ring with a prime system at p is maximal at p, and each prime over p is in the system, of the family or with
/// finitely many generators.
pub fn system_law<T, I, O: Subset<T>, P: Family<I, T>, Q: Subset<T>>()
    ensures maximal { (R : CommRing T) (p : T) (is : List I) → IsSubring R.ops O.members → O.members p
        → IsFamily R.ops O.members I P.members
        → IsSystem R.ops O.members p I P.members is → MaximalAt R.ops p (IsIntegral R.ops O.members) O.members }
    ensures complete { (R : CommRing T) (p : T) (is : List I) → IsSubring R.ops O.members → O.members p
        → IsFamily R.ops O.members I P.members
        → IsSystem R.ops O.members p I P.members is → (j : I) → P.members j p
        → Any (λ i. SameSet (P.members i) (P.members j)) is }
    ensures every { (R : CommRing T) (p : T) (is : List I) → IsSubring R.ops O.members → O.members p
        → IsFamily R.ops O.members I P.members
        → IsSystem R.ops O.members p I P.members is → IsPrime R.ops O.members Q.members
        → Generators R.ops O.members Q.members
        → Q.members p → Any (λ i. SameSet (P.members i) Q.members) is }
{}

/// At a prime system at an invertible p the ideal p·O is the product of powers of the primes, with the values of p as
/// exponents.
pub fn ramification_law<T, I, O: Subset<T>, P: Family<I, T>>()
    ensures { (R : CommRing T) (p q : T) (is : List I) → IsSubring R.ops O.members → O.members p
        → (fam : IsFamily R.ops O.members I P.members) → IsSystem R.ops O.members p I P.members is
        → AreDistinctPrimes P.members is → R.◌⊗◌ q p ≡ R.𝟙
        → (e : I → ℕ) × ((i : I) → ValueIs R.ops O.members (P.members i) (fam.pair i) p (pos (e i)))
        × SameSet (Multiple R.ops p O.members)
        (IdealProduct R.ops O.members P.members (map (λ i. entry i (pos (e i))) is)) }
{}

/// An ideal between powers of p is a product of powers of the primes over p, and has an element with all their
/// exponents as values.
pub fn factorisation_law<T, I, O: Subset<T>, P: Family<I, T>, M: Subset<T>>()
    ensures { (R : CommRing T) (p : T) (is : List I) → IsSubring R.ops O.members → O.members p
        → (fam : IsFamily R.ops O.members I P.members) → IsSystem R.ops O.members p I P.members is
        → AreDistinctPrimes P.members is
        → IsModule R.ops O.members M.members → (gens : List T) → SameSet M.members (Span R.ops O.members gens)
        → (a : ℕ) → M.members (pow R.ops p a) → ((z : T) → M.members z → O.members (R.◌⊗◌ (pow R.ops p a) z))
        → (v : I → ℤ) × SameSet M.members (IdealProduct R.ops O.members P.members (map (λ i. entry i (v i)) is))
        × ((z : T) × M.members z × All (λ i. ValueIs R.ops O.members (P.members i) (fam.pair i) z (v i)) is) }
{}

/// The product of the powers of primes in two lists together is the product of their products, and that of a list with
/// opposite exponents is its inverse.
pub fn divisor_law<T, I, O: Subset<T>, P: Family<I, T>>()
    ensures sum { (R : CommRing T) → IsSubring R.ops O.members → IsFamily R.ops O.members I P.members
        → (l l' : List (PrimeExponent I))
        → SameSet (IdealProduct R.ops O.members P.members (l ++ l'))
        (Product R.ops (IdealProduct R.ops O.members P.members l) (IdealProduct R.ops O.members P.members l')) }
    ensures opposite { (R : CommRing T) → IsSubring R.ops O.members → IsFamily R.ops O.members I P.members
        → (l : List (PrimeExponent I))
        → SameSet (Product R.ops (IdealProduct R.ops O.members P.members l)
        (IdealProduct R.ops O.members P.members (opposite l))) O.members }
{}
