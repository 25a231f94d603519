//! Steps on rows that stand one after another in a buffer.

ghost use Rattle.std.specs.Prelude.{◌≡◌, ◌≢◌, ℕ, ◌*◌, ◌<◌, ◌≤◌, length, map, slice_index, swap, MatchOption};
ghost use Rattle.ff_fields.specs.Over.{IsOver};
ghost use Rattle.ff_linalg.specs.Matrix.{rows_in};
ghost use Rattle.ff_linalg.specs.Steps.{matrix_entry, cleared, eliminated};

use crate::slices::{add_multiple, scale_all};
use ff_fields::field::SmallField;

/// The first row from `rank` on whose entry in column c isn't 0.
pub(crate) fn find_pivot(
    entries: &[u32],
    rows: usize,
    cols: usize,
    rank: usize,
    c: usize,
) -> Option<usize>
    requires shape { length entries.now ≡ rows * cols }
    requires col_in { c < cols }
    ensures { let m = rows_in cols rows entries.now in MatchOption result
        ((l : ℕ) → rank ≤ l → l < rows → matrix_entry m l c ≡ 0)
        (λ i. (rank ≤ i) × (i < rows) × (matrix_entry m i c ≢ 0)) }
{
    for i in rank..rows {
        if entries[i * cols + c] != 0 {
            return Some(i);
        }
    }
    None
}

/// Exchanges two rows.
pub(crate) fn swap_rows(entries: &mut [u32], rows: usize, cols: usize, upper: usize, lower: usize)
    requires shape { length entries.old ≡ rows * cols }
    requires order { upper < lower }
    requires within { lower < rows }
    ensures { rows_in cols rows entries.new ≡ swap (rows_in cols rows entries.old) upper lower }
{
    let (front, back) = entries.split_at_mut(lower * cols);
    front[upper * cols..upper * cols + cols].swap_with_slice(&mut back[..cols]);
}

/// Takes from the row the multiple of the pivot's row that clears its entry in column c. The entries before it stay,
/// since those of the pivot's row are 0.
fn clear_row<K: SmallField>(k: &K, row: &mut [u32], pivot: &[u32], c: usize)
    requires same_size { length row.old ≡ length pivot.now }
    requires col_in { c < length pivot.now }
    requires row_in { IsOver (K.field k.now).ops row.old }
    requires pivot_in { IsOver (K.field k.now).ops pivot.now }
    requires left_zero { (j : ℕ) → j < c → slice_index pivot.now j ≡ 0 }
    ensures cleared { row.new ≡ cleared (K.field k.now).ops c pivot.now row.old }
    ensures over { IsOver (K.field k.now).ops row.new }
{
    let factor = k.neg(row[c]);
    add_multiple(k, &mut row[c..], factor, &pivot[c..]);
}

/// Takes from each row the multiple of the pivot's row that clears its entry in column c, from that column on.
pub(crate) fn clear_rows<K: SmallField>(
    k: &K,
    part: &mut [u32],
    count: usize,
    pivot: &[u32],
    c: usize,
)
    requires shape { length part.old ≡ count * length pivot.now }
    requires col_in { c < length pivot.now }
    requires part_in { IsOver (K.field k.now).ops part.old }
    requires pivot_in { IsOver (K.field k.now).ops pivot.now }
    requires left_zero { (j : ℕ) → j < c → slice_index pivot.now j ≡ 0 }
    ensures cleared { let w = length pivot.now in
        rows_in w count part.new ≡ map (cleared (K.field k.now).ops c pivot.now) (rows_in w count part.old) }
    ensures over { IsOver (K.field k.now).ops part.new }
{
    let cols = pivot.len();
    for i in 0..count {
        clear_row(k, &mut part[i * cols..i * cols + cols], pivot, c);
    }
}

/// Makes the entry of row p in column c 1 and those of the other rows 0.
pub(crate) fn clear_column<K: SmallField>(
    k: &K,
    entries: &mut [u32],
    rows: usize,
    cols: usize,
    p: usize,
    c: usize,
)
    requires shape { length entries.old ≡ rows * cols }
    requires row_in { p < rows }
    requires col_in { c < cols }
    requires nonzero { matrix_entry (rows_in cols rows entries.old) p c ≢ 0 }
    requires left_zero { (j : ℕ) → j < c → matrix_entry (rows_in cols rows entries.old) p j ≡ 0 }
    requires entries_in { IsOver (K.field k.now).ops entries.old }
    ensures eliminated { rows_in cols rows entries.new
        ≡ eliminated (K.field k.now).ops p c (rows_in cols rows entries.old) }
    ensures over { IsOver (K.field k.now).ops entries.new }
{
    let (front, rest) = entries.split_at_mut(p * cols);
    let (pivot, back) = rest.split_at_mut(cols);
    let inverse = k.inv(pivot[c]);
    scale_all(k, pivot, inverse);
    clear_rows(k, front, p, pivot, c);
    clear_rows(k, back, rows - p - 1, pivot, c);
}
