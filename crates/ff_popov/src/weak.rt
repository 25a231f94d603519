//! Weak Popov form by simple transformations.

ghost use Rattle.std.specs.Prelude.{◌≡◌, ◌+◌, ◌<◌, ◌≤◌, length, All, IfOk, OnOk, MatchOption};
ghost use Rattle.ff_poly.specs.Popov.{rows_of, row_at, entry_at, width_of, IsRow, IsPivot, IsWeakPopovMatrix, HaveSameRowSpan, row_degree_bound};
ghost use Rattle.ff_popov.specs.Rows.{IsCleared, IsClash, IsApartAt, IsApartBelow, Keeps, SameOrSwapped, total_position};

use crate::rows::{copy_row, pivot, quotient_term, subtract};
use crate::steps::Steps;
use ff_fields::field::SmallField;
use ff_poly::Poly;
use std::alloc::{AllocError, Global};
use std::sync::ledger::Ledger;

/// A row before row i with the pivot of row i, and the pivot's column. No memory.
fn clash(rows: &[Vec<Poly>], i: usize) -> Option<(usize, usize)>
    requires { i < length rows.now }
    ensures { MatchOption result (IsApartAt (rows_of rows.now) i) (λ c. IsClash (rows_of rows.now) i c.0 c.1) }
{
    let column = pivot(&rows[i])?;
    for j in 0..i {
        if let Some(other) = pivot(&rows[j]) {
            if other == column {
                return Some((j, column));
            }
        }
    }
    None
}

/// Exchanges the rows where row i is the shorter one. No memory.
fn order(rows: &mut [Vec<Poly>], i: usize, j: usize, column: usize)
    requires i_in { i < length rows.old }
    requires pair { IsClash (rows_of rows.old) i j column }
    ensures rows { SameOrSwapped rows.old i j rows.new }
    ensures longer { length (entry_at (row_at (rows_of rows.new) j) column) ≤ length
        (entry_at (row_at (rows_of rows.new) i) column) }
{
    if rows[i][column].len() < rows[j][column].len() {
        rows.swap(i, j);
    }
}

/// Row a less the multiple of row b that clears the pivot of a.
fn cleared<K: SmallField>(
    alloc: Global,
    k: &K,
    a: &[Poly],
    b: &[Poly],
    column: usize,
) -> Result<Vec<Poly>, AllocError>
    requires a_in { IsRow (K.field k.now).ops (length a.now) a.now }
    requires b_in { IsRow (K.field k.now).ops (length a.now) b.now }
    requires a_pivot { IsPivot a.now column }
    requires b_pivot { IsPivot b.now column }
    requires longer { length (entry_at b.now column) ≤ length (entry_at a.now column) }
    ensures { IfOk result (λ row. IsCleared (K.field k.now).ops a.now b.now column row.items) }
{
    let (c, s) = quotient_term(k, &a[column], &b[column]);
    let mut row = copy_row(alloc, a)?;
    subtract(k, row.as_mut_slice(), c, s, b)?;
    Ok(row)
}

/// One simple transformation, at two rows with one pivot.
fn step<K: SmallField>(
    alloc: Global,
    k: &K,
    rows: &mut [Vec<Poly>],
    i: usize,
    j: usize,
    column: usize,
) -> Result<(), AllocError>
    requires i_in { i < length rows.old }
    requires rows_in { All (IsRow (K.field k.now).ops (width_of (rows_of rows.old))) (rows_of rows.old) }
    requires pair { IsClash (rows_of rows.old) i j column }
    requires apart { IsApartBelow i (rows_of rows.old) }
    ensures keeps { Keeps (K.field k.now) (width_of (rows_of rows.old)) (rows_of rows.old) (rows_of rows.new) }
    ensures apart { IsApartBelow i (rows_of rows.new) }
    ensures falls { OnOk result (total_position (width_of (rows_of rows.old)) (rows_of rows.new) < total_position
        (width_of (rows_of rows.old)) (rows_of rows.old)) }
    ensures stays { total_position (width_of (rows_of rows.old)) (rows_of rows.new) ≤ total_position
        (width_of (rows_of rows.old)) (rows_of rows.old) }
{
    order(rows, i, j, column);
    let row = cleared(alloc, k, &rows[i], &rows[j], column)?;
    rows[i] = row;
    Ok(())
}

/// Transforms until row i has no pivot of an earlier row.
fn settle<K: SmallField, L: Ledger>(
    alloc: Global,
    k: &K,
    rows: &mut [Vec<Poly>],
    i: usize,
    steps: &mut Steps<L>,
) -> Result<(), AllocError>
    requires i_in { i < length rows.old }
    requires rows_in { All (IsRow (K.field k.now).ops (width_of (rows_of rows.old))) (rows_of rows.old) }
    requires apart { IsApartBelow i (rows_of rows.old) }
    ensures keeps { Keeps (K.field k.now) (width_of (rows_of rows.old)) (rows_of rows.old) (rows_of rows.new) }
    ensures apart { OnOk result (IsApartBelow (i + 1) (rows_of rows.new)) }
    ensures steps { steps.new + total_position (width_of (rows_of rows.old)) (rows_of rows.new) ≤ steps.old
        + total_position (width_of (rows_of rows.old)) (rows_of rows.old) }
    ensures counted { steps.old ≤ steps.new }
{
    while let Some((j, column)) = clash(rows, i) {
        step(alloc, k, rows, i, j, column)?;
        steps.tick();
    }
    Ok(())
}

/// The rows one after another.
fn reduce<K: SmallField, L: Ledger>(
    alloc: Global,
    k: &K,
    rows: &mut [Vec<Poly>],
    steps: &mut Steps<L>,
) -> Result<(), AllocError>
    requires { All (IsRow (K.field k.now).ops (width_of (rows_of rows.old))) (rows_of rows.old) }
    ensures keeps { Keeps (K.field k.now) (width_of (rows_of rows.old)) (rows_of rows.old) (rows_of rows.new) }
    ensures apart { OnOk result (IsApartBelow (length rows.new) (rows_of rows.new)) }
    ensures steps { steps.new + total_position (width_of (rows_of rows.old)) (rows_of rows.new) ≤ steps.old
        + total_position (width_of (rows_of rows.old)) (rows_of rows.old) }
    ensures counted { steps.old ≤ steps.new }
{
    for i in 0..rows.len() {
        settle(alloc, k, rows, i, steps)?;
    }
    Ok(())
}

/// Brings the rows, all of one width, into weak Popov form. Each step of the counter is one simple transformation:
/// c·x^j times a row is taken from another row with its pivot in the same column and at least its degree, so that the
/// pivot falls. A transformation takes time linear in the two rows; the new row is made aside, so that after want of
/// memory the rows span the same lattice.
pub fn weak_popov<K: SmallField, L: Ledger>(
    alloc: Global,
    k: &K,
    rows: &mut Vec<Vec<Poly>>,
    steps: &mut Steps<L>,
) -> Result<(), AllocError>
    requires { All (IsRow (K.field k.now).ops (width_of (rows_of rows.old.items))) (rows_of rows.old.items) }
    ensures weak { OnOk result (IsWeakPopovMatrix (rows_of rows.new.items)) }
    ensures span { HaveSameRowSpan (K.field k.now).ops (width_of (rows_of rows.old.items)) (rows_of rows.old.items)
        (rows_of rows.new.items) }
    ensures count { length rows.new.items ≡ length rows.old.items }
    ensures rows_in { All (IsRow (K.field k.now).ops (width_of (rows_of rows.old.items))) (rows_of rows.new.items) }
    ensures steps { steps.new ≤ steps.old + row_degree_bound (width_of (rows_of rows.old.items))
        (rows_of rows.old.items) }
    ensures counted { steps.old ≤ steps.new }
{
    reduce(alloc, k, rows.as_mut_slice(), steps)
}
