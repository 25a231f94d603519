//! Curves from text.

ghost use Rattle.std.specs.Prelude.{IfOk};
ghost use Rattle.function_field.specs.Curves.{IsCurve};

use crate::read::BAD;
use crate::terms::terms;
use ff_algebra::Curve;
use ff_fields::field::SmallField;
use std::alloc::{AllocError, Global};

/// The curve of the terms, where there is one.
pub fn curve<K: SmallField>(alloc: Global, k: &K, text: &str) -> Result<Curve, AllocError>
    ensures { IfOk result (IsCurve (K.field k.now)) }
{
    let f = terms(alloc, k, text)?;
    match Curve::new(alloc, k, &f) {
        Ok(made) => Ok(made),
        Err(_) => Err(BAD),
    }
}
