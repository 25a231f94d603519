//! The kernel of a matrix.

ghost use Rattle.std.specs.Prelude.{◌≡◌, ◌+◌, ◌-◌, ◌*◌, ◌^◌, ◌<◌, ◌≤◌, ◌++◌, length, replicate, drop, map, slice_set, IfOk};
ghost use Rattle.ff_fields.specs.Over.{IsOver};
ghost use Rattle.ff_linalg.specs.Matrix.{rows_in, IsMatrixOver};
ghost use Rattle.ff_linalg.specs.Steps.{IsBesideUnit};
ghost use Rattle.ff_linalg.specs.Forms.{IsEliminated};
ghost use Rattle.ff_linalg.specs.Kernel.{IsKernelBasis};

use crate::elimination::reduce;
use crate::matrix::{Matrix, zeros};
use ff_fields::field::SmallField;
use std::alloc::{AllocError, Global};

/// Writes the source, and a 1 at the position i behind it.
fn write_row(row: &mut [u32], source: &[u32], i: usize)
    requires { length source.now + i < length row.old }
    ensures { row.new ≡ source.now ++ slice_set (drop (length source.now) row.old) i 1 }
{
    let cols = source.len();
    row[..cols].copy_from_slice(source);
    row[cols + i] = 1;
}

/// Writes the rows, each with a unit row on its right, over zeros.
fn write_beside_unit(whole: &mut [u32], entries: &[u32], rows: usize, cols: usize)
    requires zeros { whole.old ≡ replicate (rows * (cols + rows)) 0 }
    requires shape { length entries.now ≡ rows * cols }
    requires fits { cols + rows < 2 ^ 64 }
    ensures { IsBesideUnit rows (rows_in cols rows entries.now) (rows_in (cols + rows) rows whole.new) }
{
    let width = cols + rows;
    for i in 0..rows {
        let row = &mut whole[i * width..i * width + width];
        write_row(row, &entries[i * cols..i * cols + cols], i);
    }
}

/// Writes the rows with the unit matrix on their right over zeros, reduces that, and answers the rank of the rows.
fn eliminate_whole<K: SmallField>(
    k: &K,
    whole: &mut [u32],
    entries: &[u32],
    rows: usize,
    cols: usize,
) -> usize
    requires zeros { whole.old ≡ replicate (rows * (cols + rows)) 0 }
    requires shape { length entries.now ≡ rows * cols }
    requires fits { cols + rows < 2 ^ 64 }
    requires entries_in { IsOver (K.field k.now).ops entries.now }
    ensures within { result ≤ rows }
    ensures over { IsOver (K.field k.now).ops whole.new }
    ensures eliminated { IsEliminated (K.field k.now) cols (rows_in cols rows entries.now)
        (rows_in (cols + rows) rows whole.new) result }
{
    let width = cols + rows;
    write_beside_unit(whole, entries, rows, cols);
    let rank = reduce(k, whole, rows, width, 0, 0, cols);
    reduce(k, whole, rows, width, rank, cols, width);
    rank
}

/// The rows from `top` on without their first `left` entries, one after another.
fn lower_right(
    alloc: Global,
    entries: &[u32],
    rows: usize,
    width: usize,
    top: usize,
    left: usize,
) -> Result<Vec<u32>, AllocError>
    requires shape { length entries.now ≡ rows * width }
    requires top_in { top ≤ rows }
    requires left_in { left ≤ width }
    ensures length { IfOk result (λ v. length v.items ≡ (rows - top) * (width - left)) }
    ensures rows { IfOk result (λ v. rows_in (width - left) (rows - top) v.items
        ≡ map (drop left) (drop top (rows_in width rows entries.now))) }
{
    let mut out = Vec::new(alloc);
    for i in 0..rows - top {
        let at = (top + i) * width;
        out.extend_from_slice(&entries[at + left..at + width])?;
    }
    Ok(out)
}

/// The reduced echelon basis, as rows, of all v with v·a = 0. The rows with the unit matrix on their right are held at
/// once; more than `usize::MAX` columns of these are want of memory, since one row of them fits in no memory. Cost:
/// rows² · (rows + cols) products and sums.
pub fn kernel<K: SmallField>(alloc: Global, k: &K, a: &Matrix) -> Result<Matrix, AllocError>
    requires { IsMatrixOver (K.field k.now).ops a.now }
    ensures { IfOk result (IsKernelBasis (K.field k.now).ops a.now) }
{
    let rows = a.rows;
    let cols = a.cols;
    let width = cols.checked_add(rows).ok_or(AllocError)?;
    let mut whole = zeros(alloc, rows, width)?;
    let rank = eliminate_whole(k, whole.as_mut_slice(), a.entries.as_slice(), rows, cols);
    let entries = lower_right(alloc, whole.as_slice(), rows, width, rank, cols)?;
    Ok(Matrix {
        rows: rows - rank,
        cols: rows,
        entries,
    })
}
