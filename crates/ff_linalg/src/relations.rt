//! The first relation of the rows of a matrix.

ghost use Rattle.std.specs.Prelude.{◌<◌, ◌≤◌, length, IfOk, MatchOption};
ghost use Rattle.ff_linalg.specs.Matrix.{HasShape, IsMatrixOver};
ghost use Rattle.ff_linalg.specs.Relations.{IsColumnWritten, IsTransposed, IsDiagonalStart, IsColumnStart};
ghost use Rattle.ff_linalg.specs.Space.{HasIndependentRows, IsFirstRelation};

use crate::elimination::echelon;
use crate::matrix::Matrix;
use ff_fields::field::SmallField;
use std::alloc::{AllocError, Global};

/// Writes the codes into column c, from its first entry on.
fn write_column(m: &mut Matrix, c: usize, codes: &[u32])
    requires col_in { c < m.old.cols }
    requires fits { length codes.now ≤ length m.old.rows }
    requires shape { HasShape m.old (length m.old.rows) m.old.cols }
    ensures { IsColumnWritten m.old c codes.now (length codes.now) m.new }
{
    for j in 0..codes.len() {
        m.set(j, c, codes[j]);
    }
}

/// The matrix whose rows are the columns of a.
fn transposed(alloc: Global, a: &Matrix) -> Result<Matrix, AllocError>
    ensures made { IfOk result (IsTransposed a.now) }
    ensures shape { IfOk result (λ _. HasShape a.now (length a.now.rows) a.now.cols) }
{
    let mut columns = Matrix::zero(alloc, a.cols, a.rows)?;
    for i in 0..a.rows {
        write_column(&mut columns, i, a.row(i));
    }
    Ok(columns)
}

/// How many rows, from the first on, have a 1 on the diagonal.
fn diagonal_ones(m: &Matrix) -> usize
    ensures { IsDiagonalStart m.now result }
{
    let count = m.rows().min(m.cols());
    for i in 0..count {
        if m.get(i, i) != 1 {
            return i;
        }
    }
    count
}

/// The first r entries of column r.
fn above_diagonal(alloc: Global, m: &Matrix, r: usize) -> Result<Vec<u32>, AllocError>
    requires rows_in { r ≤ length m.now.rows }
    requires col_in { r < m.now.cols }
    ensures { IfOk result (λ v. IsColumnStart m.now r r v.items) }
{
    let mut out = Vec::new(alloc);
    for i in 0..r {
        out.push(m.get(i, r))?;
    }
    Ok(out)
}

/// For the least r such that row r is a combination of the rows before it, the r coefficients of that combination; None
/// exactly where the rows are independent.
/// The rows are the columns of the transposed matrix, and its reduced row echelon form has the same relations among its
/// columns: the first column without a pivot shows its coefficients.
/// Cost: that of one elimination of the transposed matrix.
pub fn min_relation<K: SmallField>(
    alloc: Global,
    k: &K,
    a: &Matrix,
) -> Result<Option<Vec<u32>>, AllocError>
    requires { IsMatrixOver (K.field k.now).ops a.now }
    ensures { IfOk result (λ o. MatchOption o (HasIndependentRows (K.field k.now).ops a.now)
        (λ v. IsFirstRelation (K.field k.now).ops a.now v.items)) }
{
    let mut columns = transposed(alloc, a)?;
    echelon(k, &mut columns);
    let r = diagonal_ones(&columns);
    if r == a.rows() {
        return Ok(None);
    }
    let coefficients = above_diagonal(alloc, &columns, r)?;
    Ok(Some(coefficients))
}
