//! What a printed text tells: no two polynomials, and no two elements, have one text, where no code and no degree has
//! more than 64 digits. A decimal number is written with its last 64 digits, so that longer ones aren't told apart.
//! There is no code: each theorem is the contract of a function with an empty body.
#![tactic(auto)]

ghost use Rattle.std.specs.Prelude.{◌≡◌, ◌≤◌, ◌^◌, ℕ, List, length, All};
ghost use Rattle.ff_fields.specs.Field.{CodeField};
ghost use Rattle.ff_fields.specs.Over.{IsOver};
ghost use Rattle.ff_poly.specs.Words.{IsPoly};
ghost use Rattle.ff_text.specs.Printed.{WrittenValue, poly_text, elem_text};
ghost use Rattle.text_theory.specs.WrittenInFull.{IsWrittenInFull, IsElemWrittenInFull};

/// One text belongs to one polynomial.
pub fn one_poly_text_law()
    ensures { (a b : List ℕ) → IsWrittenInFull a → IsWrittenInFull b → poly_text a ≡ poly_text b → a ≡ b }
{}

/// One text belongs to one element, of however many numerators.
pub fn one_elem_text_law()
    ensures { (z w : WrittenValue) → IsElemWrittenInFull z → IsElemWrittenInFull w
        → elem_text z.num z.den ≡ elem_text w.num w.den → z ≡ w }
{}

/// Polynomials and elements over a field of codes are written in full, up to a degree that no memory holds.
pub fn written_in_full_law()
    ensures polynomial { (k : CodeField) (p : List ℕ) → IsOver k.ops p → IsPoly p → length p ≤ 10 ^ 64
        → IsWrittenInFull p }
    ensures element { (k : CodeField) (z : WrittenValue) → All (IsOver k.ops) z.num → All IsPoly z.num
        → All (λ p. length p ≤ 10 ^ 64) z.num → IsOver k.ops z.den → IsPoly z.den → length z.den ≤ 10 ^ 64
        → IsElemWrittenInFull z }
{}
