//! Rows of polynomials from text.

ghost use Rattle.std.specs.Prelude.{All, IfOk};
ghost use Rattle.ff_poly.specs.Popov.{rows_of, IsRow};

use crate::read::{BAD, row};
use ff_fields::field::SmallField;
use ff_poly::Poly;
use std::alloc::{AllocError, Global};

/// The row of so many polynomials.
fn wide_row<K: SmallField>(
    alloc: Global,
    k: &K,
    width: usize,
    text: &str,
) -> Result<Vec<Poly>, AllocError>
    ensures { IfOk result (λ polys. IsRow (K.field k.now).ops width polys.items) }
{
    let polys = row(alloc, k, text)?;
    if polys.len() != width {
        return Err(BAD);
    }
    Ok(polys)
}

/// The rows between semicolons, each of the width; none where the text is blank.
pub fn rows<K: SmallField>(
    alloc: Global,
    k: &K,
    width: usize,
    text: &str,
) -> Result<Vec<Vec<Poly>>, AllocError>
    ensures { IfOk result (λ rows. All (IsRow (K.field k.now).ops width) (rows_of rows.items)) }
{
    let mut rows = Vec::new(alloc);
    if text.trim().is_empty() {
        return Ok(rows);
    }
    for part in text.split(';') {
        rows.push(wide_row(alloc, k, width, part)?)?;
    }
    Ok(rows)
}
