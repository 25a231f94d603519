//! The Popov basis.

ghost use Rattle.std.specs.Prelude.{◌≡◌, ◌∷◌, [], ◌+◌, ◌<◌, ◌≤◌, ℕ, length, All, IfOk, OnOk, MatchOption};
ghost use Rattle.ff_poly.specs.Words.{poly_of};
ghost use Rattle.ff_poly.specs.Popov.{rows_of, entry_at, width_of, IsRow, IsPivot, IsWeakPopovMatrix, IsPopovMatrix, HaveSameRowSpan, HasFullRankMatrix};
ghost use Rattle.ff_popov.specs.Rows.{IsShortened, IsOwner, IsMissing, IsOwners, IsLow, IsCongruentRow, IsPopovRow, IsPopovRows, owner_length};

use crate::members::{minus_one, zero_row};
use crate::rows::{pivot, quotient_term, subtract};
use crate::steps::Steps;
use crate::weak::weak_popov;
use ff_fields::field::SmallField;
use ff_poly::Poly;
use std::alloc::{AllocError, Global};
use std::marker::Brand;
use std::sync::ledger::{Blank, Ledger};

/// The first row with its pivot in the column. No memory.
fn owner(rows: &[Vec<Poly>], column: usize) -> Option<usize>
    ensures { MatchOption result (IsMissing (rows_of rows.now) column) (IsOwner (rows_of rows.now) column) }
{
    for i in 0..rows.len() {
        if let Some(other) = pivot(&rows[i]) {
            if other == column {
                return Some(i);
            }
        }
    }
    None
}

/// For each column the row with its pivot there; None where a column has none.
fn owners(alloc: Global, rows: &[Vec<Poly>], width: usize) -> Result<Option<Vec<usize>>, AllocError>
    ensures { IfOk result (λ found. MatchOption found ((j : ℕ) × (j < width) × IsMissing (rows_of rows.now) j)
        (λ v. IsOwners width (rows_of rows.now) v.items)) }
{
    let mut found = Vec::new(alloc);
    for column in 0..width {
        match owner(rows, column) {
            None => {
                return Ok(None);
            }
            Some(i) => {
                found.push(i)?;
            }
        }
    }
    Ok(Some(found))
}

/// Takes the multiple of the other row away, whose pivot stands in the column, that shortens the entry there, in place.
fn clear_entry<K: SmallField>(
    k: &K,
    row: &mut [Poly],
    other: &[Poly],
    column: usize,
) -> Result<(), AllocError>
    requires row_in { IsRow (K.field k.now).ops (length row.old) row.old }
    requires other_in { IsRow (K.field k.now).ops (length row.old) other.now }
    requires other_pivot { IsPivot other.now column }
    requires longer { length (entry_at other.now column) ≤ length (entry_at row.old column) }
    ensures { OnOk result (IsShortened (K.field k.now).ops row.old other.now column row.new) }
{
    let (c, s) = quotient_term(k, &row[column], &other[column]);
    subtract(k, row, c, s, other)?;
    Ok(())
}

/// Shortens the entries of one length, from the last column to the first, where the pivot of the column is no longer.
fn lower_level<K: SmallField>(
    k: &K,
    row: &mut [Poly],
    rows: &[Vec<Poly>],
    owners: &[usize],
    len: usize,
) -> Result<(), AllocError>
    requires row_in { IsRow (K.field k.now).ops (length row.old) row.old }
    requires rows_in { All (IsRow (K.field k.now).ops (length row.old)) (rows_of rows.now) }
    requires owners { IsOwners (length row.old) (rows_of rows.now) owners.now }
    requires low { IsLow (rows_of rows.now) owners.now len (length row.old) row.old }
    ensures low { OnOk result (IsLow (rows_of rows.now) owners.now len 0 row.new) }
    ensures congruent { OnOk result
        (IsCongruentRow (K.field k.now) (length row.old) (rows_of rows.now) row.old row.new) }
{
    for column in (0..row.len()).rev() {
        let other = &rows[owners[column]];
        if row[column].len() == len && other[column].len() <= len {
            clear_entry(k, row, other, column)?;
        }
    }
    Ok(())
}

/// Shortens the entries, which are at most len long, until each is shorter than the pivot of its column.
fn reduce_row<K: SmallField>(
    k: &K,
    row: &mut [Poly],
    rows: &[Vec<Poly>],
    owners: &[usize],
    len: usize,
) -> Result<(), AllocError>
    requires row_in { IsRow (K.field k.now).ops (length row.old) row.old }
    requires rows_in { All (IsRow (K.field k.now).ops (length row.old)) (rows_of rows.now) }
    requires owners { IsOwners (length row.old) (rows_of rows.now) owners.now }
    requires bounded { (j : ℕ) → length (entry_at row.old j) ≤ len }
    ensures shorter { OnOk result ((j : ℕ) → j < length row.old
        → length (entry_at row.new j) < owner_length (rows_of rows.now) owners.now j) }
    ensures congruent { OnOk result
        (IsCongruentRow (K.field k.now) (length row.old) (rows_of rows.now) row.old row.new) }
{
    for level in (0..len).rev() {
        lower_level(k, row, rows, owners, level + 1)?;
    }
    Ok(())
}

/// The constant polynomial.
fn constant(alloc: Global, code: u32) -> Result<Poly, AllocError>
    ensures { IfOk result (λ p. p ≡ poly_of (code ∷ [])) }
{
    let mut codes = Vec::new(alloc);
    codes.push(code)?;
    Ok(Poly::from_codes(codes))
}

/// The row of the Popov basis with its pivot in column i: the rest of -x^d modulo the lattice, and x^d, where d is the
/// degree of the pivot there.
fn popov_row<K: SmallField>(
    alloc: Global,
    k: &K,
    rows: &[Vec<Poly>],
    owners: &[usize],
    i: usize,
) -> Result<Vec<Poly>, AllocError>
    requires i_in { i < length owners.now }
    requires rows_in { All (IsRow (K.field k.now).ops (length owners.now)) (rows_of rows.now) }
    requires owners { IsOwners (length owners.now) (rows_of rows.now) owners.now }
    ensures { IfOk result (λ row. IsPopovRow (K.field k.now) (length owners.now) (rows_of rows.now) owners.now i
        row.items) }
{
    let one = constant(alloc, 1)?;
    let minus = minus_one(alloc, k)?;
    let degree = rows[owners[i]][i].len() - 1;
    let mut row = zero_row(alloc, owners.len())?;
    row[i].sub_multiple(k, 1, degree, &one)?;
    reduce_row(k, row.as_mut_slice(), rows, owners, degree + 1)?;
    row[i].sub_multiple(k, 1, degree, &minus)?;
    Ok(row)
}

/// The rows of the Popov basis, one for each column.
fn popov_rows<K: SmallField>(
    alloc: Global,
    k: &K,
    rows: &[Vec<Poly>],
    owners: &[usize],
) -> Result<Vec<Vec<Poly>>, AllocError>
    requires rows_in { All (IsRow (K.field k.now).ops (length owners.now)) (rows_of rows.now) }
    requires owners { IsOwners (length owners.now) (rows_of rows.now) owners.now }
    ensures { IfOk result (λ basis. IsPopovRows (K.field k.now) (length owners.now) (rows_of rows.now) owners.now
        (length owners.now) (rows_of basis.items)) }
{
    let mut basis = Vec::new(alloc);
    for i in 0..owners.len() {
        basis.push(popov_row(alloc, k, rows, owners, i)?)?;
    }
    Ok(basis)
}

/// The Popov basis of rows in weak Popov form, of a width above 0; None where a column has no pivot.
fn basis_of<K: SmallField>(
    alloc: Global,
    k: &K,
    rows: &[Vec<Poly>],
    width: usize,
) -> Result<Option<Vec<Vec<Poly>>>, AllocError>
    requires positive { 0 < width }
    requires rows_in { All (IsRow (K.field k.now).ops width) (rows_of rows.now) }
    requires weak { IsWeakPopovMatrix (rows_of rows.now) }
    ensures { IfOk result (λ found. MatchOption found ((j : ℕ) × (j < width) × IsMissing (rows_of rows.now) j)
        (λ basis. IsPopovMatrix width (rows_of basis.items)
        × All (IsRow (K.field k.now).ops width) (rows_of basis.items)
        × HaveSameRowSpan (K.field k.now).ops width (rows_of rows.now) (rows_of basis.items))) }
{
    match owners(alloc, rows, width)? {
        None => Ok(None),
        Some(positions) => {
            let basis = popov_rows(alloc, k, rows, &positions)?;
            Ok(Some(basis))
        }
    }
}

/// Weak Popov form, with a counter of its own.
fn reduce_rows<K: SmallField, L: Ledger>(
    alloc: Global,
    k: &K,
    blank: Blank,
    rows: &mut Vec<Vec<Poly>>,
) -> Result<(), AllocError>
    requires name { blank.name ≡ L.name }
    requires parts { blank.parts ≡ L.parts }
    requires one { blank.parts ≡ 1 }
    requires rows_in { All (IsRow (K.field k.now).ops (width_of (rows_of rows.old.items))) (rows_of rows.old.items) }
    ensures weak { OnOk result (IsWeakPopovMatrix (rows_of rows.new.items)) }
    ensures span { HaveSameRowSpan (K.field k.now).ops (width_of (rows_of rows.old.items)) (rows_of rows.old.items)
        (rows_of rows.new.items) }
    ensures rows_in { All (IsRow (K.field k.now).ops (width_of (rows_of rows.old.items))) (rows_of rows.new.items) }
{
    let mut steps = Steps::<L>::new(blank);
    weak_popov(alloc, k, rows, &mut steps)
}

/// The Popov basis of the lattice of the rows; None exactly where their rank is below the width. Of width 0 it has no
/// rows.
/// Takes as many simple transformations as `weak_popov`, and then one division of -x^d for each column.
pub fn popov<K: SmallField>(
    alloc: Global,
    k: &K,
    rows: Vec<Vec<Poly>>,
    width: usize,
) -> Result<Option<Vec<Vec<Poly>>>, AllocError>
    requires { All (IsRow (K.field k.now).ops width) (rows_of rows.items) }
    ensures { IfOk result (λ found. MatchOption found (¬ HasFullRankMatrix (K.field k.now).ops width
        (rows_of rows.items))
        (λ basis. IsPopovMatrix width (rows_of basis.items)
        × All (IsRow (K.field k.now).ops width) (rows_of basis.items)
        × HaveSameRowSpan (K.field k.now).ops width (rows_of rows.items) (rows_of basis.items))) }
{
    if width == 0 {
        return Ok(Some(Vec::new(alloc)));
    }
    if rows.is_empty() {
        return Ok(None);
    }
    let mut reduced = rows;
    reduce_rows::<K, Brand>(alloc, k, Blank::new(1), &mut reduced)?;
    let found = basis_of(alloc, k, &reduced, width)?;
    Ok(found)
}
