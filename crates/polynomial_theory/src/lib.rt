//! Polynomials over a small field: division with rest, irreducible polynomials and their inverses, lists of codes for
//! them, and the codes as a finite field. Each main theorem is the contract of a function with an empty body; the
//! crates above cite the lemmas of proofs/.
#![tactic(auto)]

ghost use Rattle.std.specs.Prelude.{◌≡◌, ◌↔◌, ℕ, ◌≤◌, ◌^◌, ◌⊎◌, List, length};
ghost use Rattle.ring_lemmas.specs.Ring.{pow};
ghost use Rattle.ff_fields.specs.Field.{CodeField};
ghost use Rattle.ff_fields.specs.Code.{code_ring};
ghost use Rattle.ff_fields.specs.Over.{IsOver};
ghost use Rattle.ff_poly.specs.Words.{IsMonicList, IsIrreducibleList};
ghost use Rattle.ff_poly.specs.Value.{value};
ghost use Rattle.ff_poly.specs.Polynomials.{Polynomial, polynomials, x_poly};
ghost use Rattle.linear_theory.specs.Euclidean.{IsDivisorIn, Bezout};
ghost use Rattle.finite_algebra_theory.specs.ByMap.{FiniteField};
ghost use Rattle.polynomial_theory.specs.Division.{Divided};
ghost use Rattle.polynomial_theory.specs.Laws.{value_at, IsLeastMonic, IsPrimitiveModulo, Kills, IsPrimePower, VanishesAt};

/// Each polynomial has a quotient and a rest by each other one but 0.
pub fn division_law()
    ensures { (k : CodeField) (a b : Polynomial k) → ¬ (b ≡ (polynomials k).𝟘) → Divided k a b }
{}

/// An irreducible polynomial that divides a product divides a factor.
pub fn prime_law()
    ensures { (k : CodeField) (p : List ℕ) → IsOver k.ops p → IsIrreducibleList k.ops p → (a b : Polynomial k)
        → IsDivisorIn (polynomials k).ops (value k p) ((polynomials k).◌⊗◌ a b)
        → IsDivisorIn (polynomials k).ops (value k p) a ⊎ IsDivisorIn (polynomials k).ops (value k p) b }
{}

/// What an irreducible polynomial doesn't divide has an inverse modulo it: a combination of the two is 1.
pub fn inverse_law()
    ensures { (k : CodeField) (p : List ℕ) → IsOver k.ops p → IsIrreducibleList k.ops p → (a : Polynomial k)
        → ¬ IsDivisorIn (polynomials k).ops (value k p) a → Bezout (polynomials k).ops a (value k p) }
{}

/// Each polynomial of degree 1 or more has an irreducible divisor.
pub fn irreducible_divisor_law()
    ensures { (k : CodeField) (a : Polynomial k) → 2 ≤ length a.0
        → (p : List ℕ) × IsOver k.ops p × IsIrreducibleList k.ops p × IsDivisorIn (polynomials k).ops (value k p) a }
{}

/// Monic polynomials that divide each other are the same.
pub fn monic_law()
    ensures { (k : CodeField) (p q : List ℕ) → IsOver k.ops p → IsOver k.ops q → IsMonicList p → IsMonicList q
        → IsDivisorIn (polynomials k).ops (value k p) (value k q)
        → IsDivisorIn (polynomials k).ops (value k q) (value k p) → p ≡ q }
{}

/// The codes of a field are a finite field: equality is decided, all are listed, each once, and each is its own q-th
/// power.
pub fn finite_field_law()
    ensures { (k : CodeField) → FiniteField (code_ring k).ops }
{}

/// Let e be a primitive idempotent of k[x]/(g). The monic h of least degree with h·e = 0 is a power of one irreducible
/// polynomial, and this belongs to e.
pub fn prime_power_law()
    ensures { (k : CodeField) (g e : Polynomial k) → IsPrimitiveModulo k g e
        → (h : List ℕ) → IsLeastMonic k (Kills k g e) h → IsPrimePower k g e h }
{}

/// Let q^m be at least j. In k[x]/(p^j), p irreducible, the monic polynomial r of least degree with r(x^(q^m)) = 0 is p
/// itself, since p(x^(q^m)) is p(x)^(q^m).
pub fn iterate_law()
    ensures power { (k : CodeField) (m : ℕ) (w : List ℕ) → let Q = k.size ^ m in
        value_at k w (pow (polynomials k).ops (x_poly k) Q) ≡ pow (polynomials k).ops (value k w) Q }
    ensures least { (k : CodeField) (p : List ℕ) → IsOver k.ops p → IsIrreducibleList k.ops p
        → (j m : ℕ) → 1 ≤ j → j ≤ k.size ^ m → (r : List ℕ)
        → let g = pow (polynomials k).ops (value k p) j in let t = pow (polynomials k).ops (x_poly k) (k.size ^ m) in
        IsLeastMonic k (VanishesAt k g t) r ↔ (r ≡ p) }
{}
