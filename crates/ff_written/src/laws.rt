//! Laws of written functions, each stated by a function with an empty body.

ghost use Rattle.std.specs.Prelude.{◌≡◌, ◌≤◌};
ghost use Rattle.ff_fields.specs.Field.{CodeField};
ghost use Rattle.function_field.specs.Values.{PresValue, Functions};
ghost use Rattle.ff_text.specs.Printed.{WrittenValue};
ghost use Rattle.ff_written.specs.LowestTerms.{IsWritten};

/// A law: a function is written in one way.
pub fn one_written()
    ensures { (k : CodeField) (p : PresValue) (f : Functions k p) (z w : WrittenValue)
        → 1 ≤ p.n → IsWritten k p f z → IsWritten k p f w → z ≡ w }
{}
