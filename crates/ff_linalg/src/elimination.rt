//! Reduced row echelon form.

ghost use Rattle.std.specs.Prelude.{◌≡◌, ℕ, ◌+◌, ◌*◌, ◌<◌, ◌≤◌, ◌↔◌, List, length, MatchBool};
ghost use Rattle.ff_fields.specs.Over.{IsOver};
ghost use Rattle.ff_linalg.specs.Matrix.{rows_in, IsMatrixOver, HasShape};
ghost use Rattle.ff_linalg.specs.Steps.{RaisesPivot, HasNoPivot};
ghost use Rattle.ff_linalg.specs.Forms.{IsReducedBelow, HaveSameSpace, IsEliminationStep};
ghost use Rattle.ff_linalg.specs.Space.{IsInRowSpace, IsReducedForm};

use crate::matrix::Matrix;
use crate::rows::{clear_column, find_pivot, swap_rows};
use ff_fields::field::SmallField;

/// Brings the first row from `rank` on whose entry in column c isn't 0 to the position `rank`, if there is one.
fn raise_pivot(entries: &mut [u32], rows: usize, cols: usize, rank: usize, c: usize) -> bool
    requires shape { length entries.old ≡ rows * cols }
    requires col_in { c < cols }
    ensures { let old = rows_in cols rows entries.old in
        MatchBool result (RaisesPivot old (rows_in cols rows entries.new) rank c)
        (HasNoPivot old rank c × (entries.new ≡ entries.old)) }
{
    match find_pivot(entries, rows, cols, rank, c) {
        Some(i) => {
            if rank < i {
                swap_rows(entries, rows, cols, rank, i);
            }
            true
        }
        None => false,
    }
}

/// Eliminates in column c, where the columns before it are done with `rank` pivots, and answers how many there are
/// then.
fn eliminate_next<K: SmallField>(
    k: &K,
    entries: &mut [u32],
    rows: usize,
    cols: usize,
    rank: usize,
    c: usize,
) -> usize
    requires shape { length entries.old ≡ rows * cols }
    requires col_in { c < cols }
    requires entries_in { IsOver (K.field k.now).ops entries.old }
    requires reduced { IsReducedBelow (K.field k.now) c (rows_in cols rows entries.old) rank }
    ensures over { IsOver (K.field k.now).ops entries.new }
    ensures step { IsEliminationStep (K.field k.now) cols c (rows_in cols rows entries.old)
        (rows_in cols rows entries.new) result }
{
    if !raise_pivot(entries, rows, cols, rank, c) {
        return rank;
    }
    clear_column(k, entries, rows, cols, rank, c);
    rank + 1
}

/// Eliminates in the columns from `from` up to `to`, where those before are done with `rank` pivots, and answers how
/// many there are then.
pub(crate) fn reduce<K: SmallField>(
    k: &K,
    entries: &mut [u32],
    rows: usize,
    cols: usize,
    rank: usize,
    from: usize,
    to: usize,
) -> usize
    requires shape { length entries.old ≡ rows * cols }
    requires order { from ≤ to }
    requires within { to ≤ cols }
    requires entries_in { IsOver (K.field k.now).ops entries.old }
    requires reduced { IsReducedBelow (K.field k.now) from (rows_in cols rows entries.old) rank }
    ensures over { IsOver (K.field k.now).ops entries.new }
    ensures reduced { IsReducedBelow (K.field k.now) to (rows_in cols rows entries.new) result }
    ensures same { HaveSameSpace (K.field k.now) cols (rows_in cols rows entries.new) (rows_in cols rows entries.old) }
{
    let mut pivots = rank;
    for c in from..to {
        pivots = eliminate_next(k, entries, rows, cols, pivots, c);
    }
    pivots
}

/// Brings the matrix into its reduced row echelon form, in place, and answers the rank. No memory.
/// Cost: at most a product and a sum for each pivot, each row and each column from that of the pivot on.
pub fn echelon<K: SmallField>(k: &K, a: &mut Matrix) -> usize
    requires { IsMatrixOver (K.field k.now).ops a.old }
    ensures shape { HasShape a.new (length a.old.rows) a.old.cols }
    ensures over { IsMatrixOver (K.field k.now).ops a.new }
    ensures reduced { IsReducedForm (K.field k.now).ops a.new result }
    ensures row_space { (v : List ℕ) → IsInRowSpace (K.field k.now).ops a.new v
        ↔ IsInRowSpace (K.field k.now).ops a.old v }
{
    let rows = a.rows;
    let cols = a.cols;
    reduce(k, a.entries.as_mut_slice(), rows, cols, 0, 0, cols)
}

/// Two matrices of one shape in reduced row echelon form that have one row space are equal, and so are their ranks.
pub fn echelon_law<K: SmallField>(k: &K, a: &Matrix, b: &Matrix)
    requires a_shape { HasShape a.now (length a.now.rows) a.now.cols }
    requires b_shape { HasShape b.now (length a.now.rows) a.now.cols }
    requires a_in { IsMatrixOver (K.field k.now).ops a.now }
    requires b_in { IsMatrixOver (K.field k.now).ops b.now }
    ensures { (r s : ℕ) → IsReducedForm (K.field k.now).ops a.now r → IsReducedForm (K.field k.now).ops b.now s
        → ((v : List ℕ) → IsInRowSpace (K.field k.now).ops a.now v ↔ IsInRowSpace (K.field k.now).ops b.now v)
        → (a.now ≡ b.now) × (r ≡ s) }
{}
