//! Places and valuations of a function field: the rules that follow from their definitions, and the isomorphism between
//! the two presentations. Each main theorem is the contract of a function with an empty body; the crates above cite the
//! lemmas of proofs/.
#![tactic(auto)]

ghost use Rattle.std.specs.Prelude.{◌≡◌, ◌≢◌, ℕ, [], suc, ◌≤◌, ℤ, ◌+ℤ◌, List, map, All, ◌↔◌};
ghost use Rattle.std.specs.List.{Contains, Any};
ghost use Rattle.std.proofs.Common.{pos};
ghost use Rattle.ring_lemmas.specs.Ring.{CommRing, pow};
ghost use Rattle.ring_theory.specs.Subsets.{IsSubring, Span};
ghost use Rattle.ring_theory.specs.Integral.{IsIntegral};
ghost use Rattle.ring_theory.specs.Local.{PrimeTo, Locally};
ghost use Rattle.ff_fields.specs.Field.{CodeField};
ghost use Rattle.ff_poly.specs.Words.{IsPoly};
ghost use Rattle.function_field.specs.declared.side.Side.{Side};
ghost use Rattle.function_field.specs.Values.{PresValue, ElemValue, IsElem, Functions, functions, setting, function_of};
ghost use Rattle.function_field.specs.Places.{Place, IsPlace, IsSamePlace, IsIntegralAt, IsIn, InPower, HasValuationAtLeast, HasValuation};
ghost use Rattle.function_field.specs.Divisors.{Entry, Divisor, IsDivisor, HasMultiplicity};
ghost use Rattle.function_field.specs.Infinity.{function_on, IsInfinitePresentation};
ghost use Rattle.prime_theory.specs.Places.{IsMaximalIdeal, PlaceAtLeast, PlaceAtLeastMinus};
ghost use Rattle.prime_theory.specs.Primes.{IsPrime, Pair};
ghost use Rattle.prime_theory.specs.Systems.{IsDecomposition, IsFamily, IsSystem, PrimeAt};
ghost use Rattle.prime_theory.specs.IntegerValues.{ValueIs};
ghost use Rattle.prime_theory.specs.Ideals.{SameSet};
ghost use Rattle.prime_theory.specs.Orders.{Radical, MaximalAt, Denominator};
ghost use Rattle.finite_algebra_theory.specs.Algebra.{FiniteAlgebra, IsNilpotent};
ghost use Rattle.finite_algebra_theory.specs.Maximal.{NilpotentAt};
ghost use Rattle.places_theory.specs.Maps.{IsIsomorphism};
ghost use Rattle.places_theory.specs.InfiniteSide.{InReverse, IsPrimeToT};
ghost use Rattle.places_theory.specs.Orders.{IsOrderAt, IsPlaceOver, InPrime};
ghost use Rattle.places_theory.specs.Reductions.{IsReduction, Primitive};

use ring_theory::sets::Subset;

/// A function field with a base ring, the members of that ring that are prime to some function, an order over the base
/// ring and a prime of the order. Only theorems use it, as a type parameter that no value has.
pub trait LocalOrder {
    ghost field: { CodeField };

    ghost presentation: { PresValue };

    ghost base: { Functions field presentation → Type 0 };

    ghost prime_to: { Functions field presentation → Type 0 };

    ghost members: { Functions field presentation → Type 0 };

    ghost prime: { Functions field presentation → Type 0 };
}

/// The integral functions of a side are a ring over the scalars of the side.
pub fn integral_functions_law()
    ensures ring { (k : CodeField) (p : PresValue) (s : Side)
        → IsSubring (functions k p).ops (IsIntegralAt (setting k p) s) }
    ensures scalars { (k : CodeField) (p : PresValue) (s : Side) (z : Functions k p) → (setting k p).IsScalar s z
        → IsIntegralAt (setting k p) s z }
{}

/// The places of a side are the maximal ideals of its ring of integral functions that finitely many functions span.
pub fn maximal_ideals_law()
    ensures { (k : CodeField) (p : PresValue) (P : Place (Functions k p))
        → IsPlace (setting k p) P ↔ IsMaximalIdeal (functions k p).ops (IsIntegralAt (setting k p) P.side)
        (IsIn (setting k p) P) }
{}

/// Sameness of places is an equivalence, and it is decided where membership is.
pub fn same_place_law()
    ensures reflexive { (k : CodeField) (p : PresValue) (P : Place (Functions k p)) → IsSamePlace (setting k p) P P }
    ensures symmetric { (k : CodeField) (p : PresValue) (P Q : Place (Functions k p)) → IsSamePlace (setting k p) P Q
        → IsSamePlace (setting k p) Q P }
    ensures transitive { (k : CodeField) (p : PresValue) (P Q T : Place (Functions k p))
        → IsSamePlace (setting k p) P Q → IsSamePlace (setting k p) Q T → IsSamePlace (setting k p) P T }
    ensures decided { (k : CodeField) (p : PresValue) (P Q : Place (Functions k p))
        → ((z : Functions k p) → Dec (IsIn (setting k p) P z)) → ((z : Functions k p) → Dec (IsIn (setting k p) Q z))
        → Dec (IsSamePlace (setting k p) P Q) }
{}

/// D(P): at most one integer; there is one where sameness with the places of D is decided, and never none; an entry
/// gives it at its place.
pub fn multiplicity_law()
    ensures once { (k : CodeField) (p : PresValue) (D : Divisor (Functions k p)) (P : Place (Functions k p)) (m n : ℤ)
        → HasMultiplicity (setting k p) D P m → HasMultiplicity (setting k p) D P n → m ≡ n }
    ensures decided { (k : CodeField) (p : PresValue) (D : Divisor (Functions k p)) (P : Place (Functions k p))
        → All (λ e. Dec (IsSamePlace (setting k p) P e.place)) D → (m : ℤ) × HasMultiplicity (setting k p) D P m }
    ensures never_none { (k : CodeField) (p : PresValue) (D : Divisor (Functions k p)) (P : Place (Functions k p))
        → ¬ (¬ ((m : ℤ) × HasMultiplicity (setting k p) D P m)) }
    ensures at_entry { (k : CodeField) (p : PresValue) (D : Divisor (Functions k p)) → IsDivisor (setting k p) D
        → (e : Entry (Functions k p)) → Contains D e → HasMultiplicity (setting k p) D e.place e.times }
    ensures elsewhere { (k : CodeField) (p : PresValue) (D : Divisor (Functions k p)) (P : Place (Functions k p))
        → All (λ e. ¬ IsSamePlace (setting k p) P e.place) D → HasMultiplicity (setting k p) D P (pos 0) }
{}

/// Each power of a place lies in the one before.
pub fn powers_law()
    ensures { (k : CodeField) (p : PresValue) (P : Place (Functions k p)) → IsPlace (setting k p) P
        → (m : ℕ) (z : Functions k p)
        → InPower (setting k p) P (suc m) z → InPower (setting k p) P m z }
{}

/// A value of at least m + 1 is one of at least m, there is at most one value, and what the least values of a sum and a
/// product are.
pub fn valuation_law()
    ensures next { (k : CodeField) (p : PresValue) (P : Place (Functions k p)) → IsPlace (setting k p) P
        → (z : Functions k p) (m : ℤ)
        → HasValuationAtLeast (setting k p) P z (m +ℤ pos 1) → HasValuationAtLeast (setting k p) P z m }
    ensures once { (k : CodeField) (p : PresValue) (P : Place (Functions k p)) → IsPlace (setting k p) P
        → (z : Functions k p) (m n : ℤ)
        → HasValuation (setting k p) P z m → HasValuation (setting k p) P z n → m ≡ n }
    ensures sum { (k : CodeField) (p : PresValue) (P : Place (Functions k p)) → IsPlace (setting k p) P
        → (z w : Functions k p) (m : ℤ)
        → HasValuationAtLeast (setting k p) P z m → HasValuationAtLeast (setting k p) P w m
        → HasValuationAtLeast (setting k p) P ((functions k p).◌⊕◌ z w) m }
    ensures product { (k : CodeField) (p : PresValue) (P : Place (Functions k p)) → IsPlace (setting k p) P
        → (z w : Functions k p) (m n : ℤ)
        → HasValuationAtLeast (setting k p) P z m → HasValuationAtLeast (setting k p) P w n
        → HasValuationAtLeast (setting k p) P ((functions k p).◌⊗◌ z w) (m +ℤ n) }
    ensures unit { (k : CodeField) (p : PresValue) (P : Place (Functions k p)) → IsPlace (setting k p) P
        → (z : Functions k p)
        → IsIntegralAt (setting k p) P.side z → ¬ (IsIn (setting k p) P z) → HasValuation (setting k p) P z (pos 0) }
{}

/// An isomorphism of rings carries integral elements, spans, maximal ideals and the values by powers of these over, and
/// back.
pub fn isomorphism_law<T, Q, O: Subset<T>, M: Subset<T>, B: Subset<Q>, N: Subset<Q>>()
    ensures integral { (R : CommRing T) (A : CommRing Q) (f : T → Q) → IsIsomorphism R A f
        → ((a : T) → O.members a ↔ B.members (f a))
        → (z : T) → IsIntegral R.ops O.members z ↔ IsIntegral A.ops B.members (f z) }
    ensures spans { (R : CommRing T) (A : CommRing Q) (f : T → Q) → IsIsomorphism R A f
        → ((a : T) → O.members a ↔ B.members (f a))
        → (gs : List T) (z : T) → Span R.ops O.members gs z ↔ Span A.ops B.members (map f gs) (f z) }
    ensures maximal { (R : CommRing T) (A : CommRing Q) (f : T → Q) → IsIsomorphism R A f
        → ((a : T) → O.members a ↔ B.members (f a))
        → ((a : T) → M.members a ↔ N.members (f a))
        → IsMaximalIdeal R.ops O.members M.members ↔ IsMaximalIdeal A.ops B.members N.members }
    ensures values { (R : CommRing T) (A : CommRing Q) (f : T → Q) → IsIsomorphism R A f
        → ((a : T) → O.members a ↔ B.members (f a))
        → ((a : T) → M.members a ↔ N.members (f a)) → (z : T) (m : ℕ)
        → PlaceAtLeast R.ops O.members M.members z m ↔ PlaceAtLeast A.ops B.members N.members (f z) m }
    ensures poles { (R : CommRing T) (A : CommRing Q) (f : T → Q) → IsIsomorphism R A f
        → ((a : T) → O.members a ↔ B.members (f a))
        → ((a : T) → M.members a ↔ N.members (f a)) → (z : T) (m : ℕ)
        → PlaceAtLeastMinus R.ops O.members M.members z m ↔ PlaceAtLeastMinus A.ops B.members N.members (f z) m }
{}

/// The functions of the infinite presentation are those of the finite one: what its elements stand for is an
/// isomorphism of rings, which takes what is integral over the polynomials to what is integral over k[t].
pub fn presentations_law()
    ensures { (k : CodeField) (p q : PresValue) (c : ℕ) → 1 ≤ p.n → IsInfinitePresentation k p c q
        → (f : Functions k q → Functions k p) × IsIsomorphism (functions k q) (functions k p) f
        × ((z : ElemValue) → IsElem k.ops q.n z → IsPoly z.den → z.den ≢ []
        → f (function_of k q z) ≡ function_on k p c Side.Infinite z)
        × ((z : Functions k q) → IsIntegralAt (setting k q) Side.Finite z
        ↔ IsIntegral (functions k p).ops (InReverse k p) (f z)) }
{}

/// The scalars of the infinite side are k[t] at t = 1/x with denominators that t does not divide. So a function is
/// integral there, or in a span, where a multiple by such a denominator is so over k[t].
pub fn infinite_side_law()
    ensures scalars { (k : CodeField) (p : PresValue)
        → SameSet ((setting k p).IsScalar Side.Infinite)
        (Locally (functions k p).ops (IsPrimeToT k p) (InReverse k p)) }
    ensures integral { (k : CodeField) (p : PresValue) → SameSet (IsIntegralAt (setting k p) Side.Infinite)
        (Locally (functions k p).ops (IsPrimeToT k p) (IsIntegral (functions k p).ops (InReverse k p))) }
    ensures spans { (k : CodeField) (p : PresValue) (bs : List (Functions k p))
        → SameSet (Span (functions k p).ops ((setting k p).IsScalar Side.Infinite) bs)
        (Locally (functions k p).ops (IsPrimeToT k p) (Span (functions k p).ops (InReverse k p) bs)) }
{}

/// Where O modulo p is a finite algebra over a finite field, its primitive idempotents give a prime system of O at p.
/// The radical modulo p, and the prime of an idempotent, are the members of O that reduce to nilpotent elements, at the
/// idempotent.
pub fn prime_system_law<T, Q, O: Subset<T>, K: Subset<Q>>()
    ensures radical { (R : CommRing T) (A : CommRing Q) (p : T) (reduce : T → Q) (lift : Q → T)
        → IsSubring R.ops O.members
        → IsReduction R.ops O.members p A.ops reduce lift → (z : T)
        → Radical R.ops O.members p z ↔ (O.members z × IsNilpotent A.ops (reduce z)) }
    ensures prime { (R : CommRing T) (A : CommRing Q) (p : T) (reduce : T → Q) (lift : Q → T)
        → IsSubring R.ops O.members
        → IsReduction R.ops O.members p A.ops reduce lift → (e : Primitive A.ops) (z : T)
        → PrimeAt R.ops O.members p (lift e.0) z ↔ (O.members z × NilpotentAt A.ops e.0 (reduce z)) }
    ensures system { (R : CommRing T) (A : CommRing Q) (p : T) (reduce : T → Q) (lift : Q → T)
        → IsSubring R.ops O.members → O.members p
        → IsReduction R.ops O.members p A.ops reduce lift → FiniteAlgebra A.ops K.members
        → (is : List (Primitive A.ops)) × IsDecomposition R.ops O.members p (Primitive A.ops) (λ i. lift i.0) is
        × IsSystem R.ops O.members p (Primitive A.ops) (λ i. PrimeAt R.ops O.members p (lift i.0)) is }
{}

/// An order over the base ring that is maximal at p has each integral function of the side up to a factor prime to p,
/// where those over the base ring have a denominator p^n·w, w prime to p, and those of the side are integral over the
/// base ring up to such a w.
pub fn order_law<C: LocalOrder>()
    ensures { let S = setting C.field C.presentation in (s : Side) (p : Functions C.field C.presentation)
        → IsSubring S.functions.ops C.base → PrimeTo S.functions.ops C.base C.prime_to p
        → IsSubring S.functions.ops C.members
        → ((z : Functions C.field C.presentation) → C.base z → C.members z)
        → ((z : Functions C.field C.presentation) → C.members z → IsIntegralAt S s z)
        → ((z : Functions C.field C.presentation) → IsIntegralAt S s z
        → Locally S.functions.ops C.prime_to (IsIntegral S.functions.ops C.base) z)
        → ((z : Functions C.field C.presentation) → IsIntegral S.functions.ops C.base z
        → Denominator S.functions.ops C.prime_to C.members p z)
        → MaximalAt S.functions.ops p (IsIntegral S.functions.ops C.members) C.members
        → IsOrderAt S s C.base C.prime_to p C.members }
{}

/// The places over p are those of the primes over p of an order that is maximal at p: each prime that finitely many
/// functions span is that of a place, two places with the same prime are the same, and a list of places whose primes
/// are a system at p has each place over p.
pub fn places_over_law<C: LocalOrder, I>()
    ensures place { let S = setting C.field C.presentation in (s : Side) (p : Functions C.field C.presentation)
        (rows gens : List (Functions C.field C.presentation))
        → IsOrderAt S s C.base C.prime_to p C.members → IsPrime S.functions.ops C.members C.prime → C.prime p
        → ((a : Functions C.field C.presentation) → C.base a → S.IsScalar s a)
        → SameSet C.prime (Span S.functions.ops C.base rows)
        → SameSet (IsIntegralAt S s) (Span S.functions.ops (S.IsScalar s) gens)
        → (P : Place (Functions C.field C.presentation)) × (P.side ≡ s) × IsPlace S P
        × ((z : Functions C.field C.presentation) → C.members z → IsIn S P z ↔ C.prime z) }
    ensures once { let S = setting C.field C.presentation in (P Q : Place (Functions C.field C.presentation))
        (p : Functions C.field C.presentation)
        → IsPlaceOver S P C.base C.prime_to p C.members → IsPlaceOver S Q C.base C.prime_to p C.members
        → P.side ≡ Q.side
        → ((z : Functions C.field C.presentation) → C.members z → IsIn S P z ↔ IsIn S Q z) → IsSamePlace S P Q }
    ensures every { let S = setting C.field C.presentation in (p : Functions C.field C.presentation)
        (places : I → Place (Functions C.field C.presentation)) (is : List I)
        → ((i : I) → IsPlaceOver S (places i) C.base C.prime_to p C.members)
        → IsFamily S.functions.ops C.members I (λ i. InPrime S (places i) C.members)
        → IsSystem S.functions.ops C.members p I (λ i. InPrime S (places i) C.members) is
        → (P : Place (Functions C.field C.presentation)) → IsPlaceOver S P C.base C.prime_to p C.members
        → ((i : I) → (places i).side ≡ P.side)
        → ((a : Functions C.field C.presentation) → C.base a → S.IsScalar P.side a)
        → (rows : List (Functions C.field C.presentation)) → SameSet C.members (Span S.functions.ops C.base rows)
        → ((z : Functions C.field C.presentation) → IsIn S P z
        → Locally S.functions.ops C.prime_to (Span S.functions.ops C.base P.generators) z)
        → Any (λ i. IsSamePlace S (places i) P) is }
{}

/// The valuation of a place over p is that of its prime in an order that is maximal at p. So values add on products,
/// the value of a sum of functions with different values is the smaller one, and a function with an inverse has a
/// value.
pub fn place_valuation_law<C: LocalOrder>()
    ensures prime { let S = setting C.field C.presentation in (P : Place (Functions C.field C.presentation))
        (p : Functions C.field C.presentation)
        → IsPlaceOver S P C.base C.prime_to p C.members → IsPrime S.functions.ops C.members (InPrime S P C.members) }
    ensures same { let S = setting C.field C.presentation in (P : Place (Functions C.field C.presentation))
        (p : Functions C.field C.presentation)
        → IsPlaceOver S P C.base C.prime_to p C.members → (t : Pair S.functions.ops C.members (InPrime S P C.members))
        → (z : Functions C.field C.presentation) (m : ℤ)
        → HasValuation S P z m ↔ ValueIs S.functions.ops C.members (InPrime S P C.members) t z m }
    ensures product { let S = setting C.field C.presentation in (P : Place (Functions C.field C.presentation))
        (p : Functions C.field C.presentation)
        → IsPlaceOver S P C.base C.prime_to p C.members → Pair S.functions.ops C.members (InPrime S P C.members)
        → (z w : Functions C.field C.presentation) (m n : ℤ) → HasValuation S P z m → HasValuation S P w n
        → HasValuation S P (S.functions.◌⊗◌ z w) (m +ℤ n) }
    ensures sum { let S = setting C.field C.presentation in (P : Place (Functions C.field C.presentation))
        (p : Functions C.field C.presentation)
        → IsPlaceOver S P C.base C.prime_to p C.members → Pair S.functions.ops C.members (InPrime S P C.members)
        → (z w : Functions C.field C.presentation) (m : ℤ) → HasValuation S P z m
        → HasValuationAtLeast S P w (m +ℤ pos 1)
        → HasValuation S P (S.functions.◌⊕◌ z w) m }
    ensures exists { let S = setting C.field C.presentation in (P : Place (Functions C.field C.presentation))
        (p : Functions C.field C.presentation)
        → IsPlaceOver S P C.base C.prime_to p C.members → Pair S.functions.ops C.members (InPrime S P C.members)
        → (z y d d' w : Functions C.field C.presentation) (e n : ℕ) → S.functions.◌⊗◌ z y ≡ S.functions.𝟙
        → C.members d → C.members d' → C.members (S.functions.◌⊗◌ d z) → C.members (S.functions.◌⊗◌ d' y)
        → S.functions.◌⊗◌ d d' ≡ S.functions.◌⊗◌ (pow S.functions.ops p n) w → C.members w → ¬ (IsIn S P w)
        → HasValuation S P p (pos e) → (m : ℤ) × HasValuation S P z m }
{}
