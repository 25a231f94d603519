//! Matrices from rows of codes, and the reduced echelon basis of their row space.

ghost use Rattle.std.specs.Prelude.{◌≡◌, ◌<◌, ◌≤◌, ◌*◌, ◌↔◌, ℕ, List, length, All, IfOk};
ghost use Rattle.ff_fields.specs.Over.{IsOver};
ghost use Rattle.ff_linalg.specs.Matrix.{HasShape, IsMatrixOver, first_rows_of, rows_in};
ghost use Rattle.ff_linalg.specs.Space.{IsInRowSpace, IsReducedForm};
ghost use Rattle.ff_space.specs.Steps.{AreShort, IsEchelonBasisOf, vector_rows, with_row};

use crate::vectors::vector_of;
use ff_fields::field::SmallField;
use ff_linalg::{Matrix, echelon};
use ff_poly::Poly;
use std::alloc::{AllocError, Global};

/// Writes the codes over row i.
fn write_row(m: &mut Matrix, i: usize, codes: &[u32])
    requires row_in { i < length m.old.rows }
    requires fits { length codes.now ≡ m.old.cols }
    requires shape { HasShape m.old (length m.old.rows) m.old.cols }
    ensures { m.new ≡ with_row m.old i codes.now }
{
    for j in 0..codes.len() {
        m.set(i, j, codes[j]);
    }
}

/// The matrix whose rows stand one after another in the codes.
fn matrix_of(alloc: Global, codes: &[u32], rows: usize, cols: usize) -> Result<Matrix, AllocError>
    requires { length codes.now ≡ rows * cols }
    ensures { IfOk result (λ m. m ≡ record { cols = cols; rows = rows_in cols rows codes.now }) }
{
    let mut m = Matrix::zero(alloc, rows, cols)?;
    let mut rest = codes;
    for i in 0..rows {
        let (row, others) = rest.split_at(cols);
        write_row(&mut m, i, row);
        rest = others;
    }
    Ok(m)
}

/// The matrix of the first rows of m.
fn first_rows(alloc: Global, m: &Matrix, rows: usize) -> Result<Matrix, AllocError>
    requires within { rows ≤ length m.now.rows }
    requires shape { HasShape m.now (length m.now.rows) m.now.cols }
    ensures { IfOk result (λ r. r ≡ first_rows_of m.now rows) }
{
    let mut first = Matrix::zero(alloc, rows, m.cols())?;
    for i in 0..rows {
        write_row(&mut first, i, m.row(i));
    }
    Ok(first)
}

/// The reduced echelon basis of the row space of the matrix.
fn echelon_rows<K: SmallField>(alloc: Global, k: &K, mut m: Matrix) -> Result<Matrix, AllocError>
    requires over { IsMatrixOver (K.field k.now).ops m }
    requires shape { HasShape m (length m.rows) m.cols }
    ensures { IfOk result (IsEchelonBasisOf (K.field k.now) m) }
{
    let rank = echelon(k, &mut m);
    first_rows(alloc, &m, rank)
}

/// The reduced echelon basis of the vectors of the polynomials, n for each of so many vectors.
pub(crate) fn vector_basis<K: SmallField>(
    alloc: Global,
    k: &K,
    num: &[Poly],
    count: usize,
    n: usize,
    width: usize,
) -> Result<Matrix, AllocError>
    requires count { length num.now ≡ count * n }
    requires over { All (IsOver (K.field k.now).ops) num.now }
    requires short { AreShort width num.now }
    ensures { IfOk result (IsEchelonBasisOf (K.field k.now) (vector_rows num.now count n width)) }
{
    let cols = n.checked_mul(width).ok_or(AllocError)?;
    let codes = vector_of(alloc, num, width)?;
    let m = matrix_of(alloc, codes.as_slice(), count, cols)?;
    echelon_rows(alloc, k, m)
}
