//! Laws of function fields, each stated by a function with an empty body.

ghost use Rattle.std.specs.Prelude.{◌↔◌};
ghost use Rattle.ring_lemmas.specs.Ring.{IsField};
ghost use Rattle.ff_fields.specs.Field.{CodeField};
ghost use Rattle.function_field.specs.Curves.{CurveValue, IsCurve};
ghost use Rattle.function_field.specs.Values.{Functions, functions};
ghost use Rattle.constants_theory.specs.Idempotents.{IsProperIdempotent};

/// The functions of a curve are a field exactly where no idempotent is other than 0 and 1.
pub fn field_law()
    ensures { (k : CodeField) (c : CurveValue) → IsCurve k c
        → IsField (functions k c.fin).ops ↔ ((e : Functions k c.fin) → ¬ IsProperIdempotent k c.fin e) }
{}
