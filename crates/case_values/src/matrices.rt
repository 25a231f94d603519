//! Codes and matrices of codes from text.

ghost use Rattle.std.specs.Prelude.{◌<◌, IfOk};
ghost use Rattle.ff_fields.specs.Over.{IsOver};
ghost use Rattle.ff_linalg.specs.Matrix.{IsMatrixOver};

use crate::read::{BAD, numbers};
use ff_fields::field::SmallField;
use ff_linalg::Matrix;
use std::alloc::{AllocError, Global};

/// The codes of the field, between blanks.
pub fn codes<K: SmallField>(alloc: Global, k: &K, text: &str) -> Result<Vec<u32>, AllocError>
    ensures { IfOk result (λ v. IsOver (K.field k.now).ops v.items) }
{
    let found = numbers(alloc, text)?;
    let size = k.size();
    if !found.iter().all(|c| *c < size) {
        return Err(BAD);
    }
    Ok(found)
}

/// The numbers between blanks and commas.
pub fn all_numbers(alloc: Global, text: &str) -> Result<Vec<u32>, AllocError> {
    let mut found = Vec::new(alloc);
    for part in text.split(',') {
        found.extend_from_slice(numbers(alloc, part)?.as_slice())?;
    }
    Ok(found)
}

/// Writes an entry where it stands in the matrix and the code is one of the field.
fn put<K: SmallField>(
    k: &K,
    m: &mut Matrix,
    r: usize,
    c: usize,
    code: u32,
) -> Result<(), AllocError>
    requires { IsMatrixOver (K.field k.now).ops m.old }
    ensures { IsMatrixOver (K.field k.now).ops m.new }
{
    if r >= m.rows() || c >= m.cols() || code >= k.size() {
        return Err(BAD);
    }
    m.set(r, c, code);
    Ok(())
}

/// Writes the entries row after row, of a width that isn't 0.
fn fill<K: SmallField>(
    k: &K,
    m: &mut Matrix,
    width: usize,
    entries: &[u32],
) -> Result<(), AllocError>
    requires { IsMatrixOver (K.field k.now).ops m.old }
    ensures { IsMatrixOver (K.field k.now).ops m.new }
{
    for i in 0..entries.len() {
        put(
            k,
            m,
            i.checked_div(width).unwrap_or(0),
            i.checked_rem(width).unwrap_or(0),
            entries[i],
        )?;
    }
    Ok(())
}

/// The zero matrix, where so many entries may be.
fn zeros<K: SmallField>(
    alloc: Global,
    k: &K,
    rows: usize,
    cols: usize,
) -> Result<Matrix, AllocError>
    ensures { IfOk result (IsMatrixOver (K.field k.now).ops) }
{
    let m = Matrix::zero(alloc, rows, cols)?;
    Ok(m)
}

/// The matrix of the numbers of rows and columns, and of the rows after a comma each. Entries that are missing at the
/// end are 0.
pub fn matrix<K: SmallField>(alloc: Global, k: &K, text: &str) -> Result<Matrix, AllocError>
    ensures { IfOk result (IsMatrixOver (K.field k.now).ops) }
{
    let found = all_numbers(alloc, text)?;
    if found.len() < 2 {
        return Err(BAD);
    }
    let cols = found[1] as usize;
    let mut m = zeros(alloc, k, found[0] as usize, cols)?;
    fill(k, &mut m, cols, &found[2..])?;
    Ok(m)
}
