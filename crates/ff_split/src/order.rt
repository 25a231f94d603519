//! The order of the columns of a Popov matrix.

ghost use Rattle.std.specs.Prelude.{◌≡◌, ◌<◌, length, map, IfOk};
ghost use Rattle.ff_poly.specs.Popov.{rows_of, IsPopovMatrix};
ghost use Rattle.split_theory.specs.Splits.{split_degree};
ghost use Rattle.ff_split.specs.Splits.{columns, AreOrdered};

use ff_poly::Poly;
use std::alloc::{AllocError, Global};

/// The degree of the pivot of row i over u. A degree that isn't below 2^63 is a want of memory.
fn degree(rows: &[Vec<Poly>], u: &Poly, i: usize) -> Result<i64, AllocError>
    requires inside { i < length rows.now }
    requires popov { IsPopovMatrix (length rows.now) (rows_of rows.now) }
    ensures { IfOk result (λ d. d ≡ split_degree u.now (rows_of rows.now) i) }
{
    let Ok(pivot) = i64::try_from(rows[i][i].len()) else {
        return Err(AllocError);
    };
    let Ok(less) = i64::try_from(u.len()) else {
        return Err(AllocError);
    };
    Ok(pivot - less)
}

/// The degree of the pivot of each column over u, with the column.
fn columns(alloc: Global, rows: &[Vec<Poly>], u: &Poly) -> Result<Vec<(i64, usize)>, AllocError>
    requires { IsPopovMatrix (length rows.now) (rows_of rows.now) }
    ensures { IfOk result (λ ps. ps.items ≡ columns u.now (rows_of rows.now)) }
{
    let mut columns = Vec::new(alloc);
    for i in 0..rows.len() {
        columns.push((degree(rows, u, i)?, i))?;
    }
    Ok(columns)
}

/// All columns with the degrees of their pivots over u, by these degrees and then from left to right.
pub(crate) fn ordered(
    alloc: Global,
    rows: &[Vec<Poly>],
    u: &Poly,
) -> Result<Vec<(i64, usize)>, AllocError>
    requires { IsPopovMatrix (length rows.now) (rows_of rows.now) }
    ensures { IfOk result (λ ps. AreOrdered u.now (rows_of rows.now) ps.items) }
{
    let mut columns = columns(alloc, rows, u)?;
    columns.sort()?;
    Ok(columns)
}

/// The degrees alone.
pub(crate) fn degrees(alloc: Global, order: &[(i64, usize)]) -> Result<Vec<i64>, AllocError>
    ensures { IfOk result (λ ds. ds.items ≡ map (λ p. p.0) order.now) }
{
    let mut degrees = Vec::new(alloc);
    for p in order {
        degrees.push(p.0)?;
    }
    Ok(degrees)
}
