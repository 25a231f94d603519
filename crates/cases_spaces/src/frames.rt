//! Curves with their maximal orders.

ghost use Rattle.std.specs.Prelude.{IfOk};
ghost use Rattle.ff_rr.specs.Frames.{IsFrame};

use case_values::curves::curve;
use ff_algebra::Side;
use ff_fields::field::SmallField;
use ff_maximal::maximal_order;
use ff_rr::Frame;
use std::alloc::{AllocError, Global};

/// The curve of the terms with the orders of the integral functions of both sides.
pub fn frame<K: SmallField>(alloc: Global, k: &K, text: &str) -> Result<Frame, AllocError>
    ensures { IfOk result (IsFrame (K.field k.now)) }
{
    let c = curve(alloc, k, text)?;
    let fin = maximal_order(alloc, k, &c, Side::Finite)?;
    let inf = maximal_order(alloc, k, &c, Side::Infinite)?;
    Ok(Frame::new(c, fin, inf))
}
