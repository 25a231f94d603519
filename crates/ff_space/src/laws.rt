//! Laws of printed bases, each stated by a function with an empty body.

ghost use Rattle.std.specs.Prelude.{◌≡◌, ◌≤◌, ◌↔◌, List, map};
ghost use Rattle.ff_fields.specs.Field.{CodeField};
ghost use Rattle.function_field.specs.Divisors.{IsSpaceBasis};
ghost use Rattle.function_field.specs.Values.{ElemValue, PresValue, Functions, function_of, setting};
ghost use Rattle.ff_space.specs.Spaces.{InCodeSpan, IsPrintedBasis};

/// A law: the functions that are printed for a space are a basis of it over k.
pub fn printed_is_basis()
    ensures { (k : CodeField) (p : PresValue) (fs : List (Functions k p)) (zs : List ElemValue) → 1 ≤ p.n
        → IsPrintedBasis k p (InCodeSpan k p fs) zs
        → IsSpaceBasis (setting k p) (InCodeSpan k p fs) (map (function_of k p) zs) }
{}

/// A law: a space is printed in one way, whatever functions span it.
pub fn one_printed_basis()
    ensures { (k : CodeField) (p : PresValue) (fs gs : List (Functions k p)) (zs ws : List ElemValue) → 1 ≤ p.n
        → ((z : Functions k p) → InCodeSpan k p fs z ↔ InCodeSpan k p gs z)
        → IsPrintedBasis k p (InCodeSpan k p fs) zs → IsPrintedBasis k p (InCodeSpan k p gs) ws → zs ≡ ws }
{}
