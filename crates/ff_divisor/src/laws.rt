//! The law of formal sums, stated by a function with an empty body.

ghost use Rattle.std.specs.Prelude.{◌≡◌, ℕ, ℤ, List};
ghost use Rattle.ff_divisor.specs.FormalSums.{IsFormalSum, multiplicity};

/// A law: formal sums with the same multiplicity at every place are equal.
pub fn one_form_law()
    ensures { (a b : List (ℕ × ℤ)) → IsFormalSum a → IsFormalSum b
        → ((p : ℕ) → multiplicity p a ≡ multiplicity p b) → a ≡ b }
{}
