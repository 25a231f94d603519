//! The statement `order`.

ghost use Rattle.std.specs.Prelude.{IfOk};
ghost use Rattle.ff_rr.specs.Frames.{IsFrame};
ghost use Rattle.ff_cert.specs.RowOrder as order_row;

use ff_algebra::Side;
use ff_fields::field::SmallField;
use ff_rr::Frame;
use ff_written::{RowList, written_rows};
use std::alloc::{AllocError, Global};

/// Rows that span the functions that are integral on a side, in x and y in lowest terms. It takes the factors of
/// each row's denominator.
pub fn integral_rows<K: SmallField>(
    alloc: Global,
    k: &K,
    frame: &Frame,
    side: Side,
) -> Result<RowList, AllocError>
    requires { IsFrame (K.field k.now) frame.now }
    ensures { IfOk result (order_row.IsTrue (K.field k.now) frame.now.curve side) }
{
    let o = frame.order(side);
    written_rows(alloc, k, frame.curve(), side, o.lattice())
}
