//! The statement `constants`.

ghost use Rattle.std.specs.Prelude.{◌≡◌, IfOk, length, map};
ghost use Rattle.ff_written.specs.LowestTerms.{elem_of};

use ff_algebra::elem::Elem;
use ff_rr::SpaceBasis;
use ff_written::{RowList, as_written};
use std::alloc::{AllocError, Global};

/// The elements as they stand.
fn rows_of(alloc: Global, elems: &[Elem]) -> Result<RowList, AllocError>
    ensures { IfOk result (λ zs. map elem_of zs ≡ elems.now) }
{
    let mut rows = Vec::new(alloc);
    for z in elems {
        rows.push(as_written(alloc, z)?)?;
    }
    Ok(RowList { rows })
}

/// The dimension of the constants over the field, and their basis as it is printed.
pub fn written_constants(
    alloc: Global,
    constants: &SpaceBasis,
) -> Result<(u64, RowList), AllocError>
    ensures dimension { IfOk result (λ r. r.0 ≡ length constants.now.space.functions) }
    ensures functions { IfOk result (λ r. map elem_of r.1 ≡ constants.now.space.functions) }
{
    let functions = constants.functions();
    let rows = rows_of(alloc, functions)?;
    Ok((functions.len() as u64, rows))
}
