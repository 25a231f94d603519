//! Commutative algebra: definitions in specs/, theorems in proofs/. Some theorems are named by the contract of an empty
//! function; the crates above cite the rest by their lemmas.
#![tactic(auto)]

ghost use Rattle.std.specs.Prelude.{◌≡◌, ℕ, Bool, IsTrue, List, ◌∷◌, All, ◌↔◌};
ghost use Rattle.ring_lemmas.specs.Ring.{CommRing};
ghost use Rattle.ring_lemmas.specs.Sums.{matrix_product};
ghost use Rattle.ring_theory.specs.Determinant.{determinant};
ghost use Rattle.ring_theory.specs.Subsets.{IsSubring, Span, Product, products};
ghost use Rattle.ring_theory.specs.Integral.{IsIntegral};
ghost use Rattle.ring_theory.specs.Monoid.{CommMonoid, FinitePowers, IdempotentPower};

pub mod sets;

/// z is integral where it takes the span of 1 and some more elements into itself.
pub fn integral_law<T>()
    ensures { (R : CommRing T) (p : T → Bool) (bs : List T) (z : T) → IsSubring R.ops (λ a. IsTrue (p a))
        → All (λ b. Span R.ops (λ a. IsTrue (p a)) (R.𝟙 ∷ bs) (R.◌⊗◌ z b)) (R.𝟙 ∷ bs)
        → IsIntegral R.ops (λ a. IsTrue (p a)) z }
{}

/// An element whose powers are finitely many has an idempotent power.
pub fn idempotent_law<T>()
    ensures { (M : CommMonoid T) (a : T) → FinitePowers M a → IdempotentPower M a }
{}

/// The product of spans is the span of the products of their generators.
pub fn product_law<T>()
    ensures { (R : CommRing T) (p : T → Bool) (bs cs : List T) (a : T) → IsSubring R.ops (λ a. IsTrue (p a))
        → (Product R.ops (Span R.ops (λ a. IsTrue (p a)) bs) (Span R.ops (λ a. IsTrue (p a)) cs) a
        ↔ Span R.ops (λ a. IsTrue (p a)) (products R.ops bs cs) a) }
{}

/// The product of matrices is associative.
pub fn matrix_law<T>()
    ensures { (R : CommRing T) (m n : ℕ) (a b c : ℕ → ℕ → T) (i j : ℕ)
        → matrix_product R.ops n (matrix_product R.ops m a b) c i j
        ≡ matrix_product R.ops m a (matrix_product R.ops n b c) i j }
{}

/// The determinant of a product is the product of the determinants.
pub fn determinant_law<T>()
    ensures { (R : CommRing T) (n : ℕ) (a b : ℕ → ℕ → T)
        → determinant R.ops n (matrix_product R.ops n a b)
        ≡ R.◌⊗◌ (determinant R.ops n a) (determinant R.ops n b) }
{}
