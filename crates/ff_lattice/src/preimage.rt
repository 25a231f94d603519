//! The rows of polynomials that a matrix takes into a lattice.

ghost use Rattle.std.specs.Prelude.{◌≡◌, ◌+◌, ◌<◌, ◌≤◌, ◌↔◌, ℕ, [], ◌++◌, length, map, replicate, All, IfOk, MatchOption, OnOk, IsTrue};
ghost use Rattle.ff_poly.specs.Popov.{rows_of, row_at, entry_at, IsRow, IsPopovMatrix};
ghost use Rattle.ff_lattice.specs.Steps.{lifted, unit_row, IsTwistedRows, IsBesideUnitRows, HasZeroCorner, HasShortMultiples, corner, IsPreimage, pivot_sum};

use crate::positions::longest_entry;
use crate::rows::{copy_row, unit_row, zero_row};
use ff_fields::field::SmallField;
use ff_poly::Poly;
use ff_poly::poly::shift;
use ff_popov::popov;
use std::alloc::{AllocError, Global};

/// Appends the entries times x to the power.
fn push_lifted(
    alloc: Global,
    row: &mut Vec<Poly>,
    entries: &[Poly],
    power: usize,
) -> Result<(), AllocError>
    ensures { OnOk result (row.new.items ≡ row.old.items ++ lifted power entries.now) }
{
    for entry in entries {
        row.push(shift(alloc, entry, power)?)?;
    }
    Ok(())
}

/// The rows of m times x to the power, each behind its unit row.
fn rows_beside_unit(
    alloc: Global,
    m: &[Vec<Poly>],
    power: usize,
) -> Result<Vec<Vec<Poly>>, AllocError>
    ensures { IfOk result (λ rows. IsBesideUnitRows power (rows_of m.now) (rows_of rows.items)) }
{
    let mut rows = Vec::new(alloc);
    for i in 0..m.len() {
        let mut row = unit_row(alloc, m.len(), i)?;
        push_lifted(alloc, &mut row, &m[i], power)?;
        rows.push(row)?;
    }
    Ok(rows)
}

/// Appends the rows of ls times x to the power, each behind so many zeros.
fn push_behind_zeros(
    alloc: Global,
    rows: &mut Vec<Vec<Poly>>,
    zeros: usize,
    ls: &[Vec<Poly>],
    power: usize,
) -> Result<(), AllocError>
    ensures { OnOk result (rows_of rows.new.items
        ≡ rows_of rows.old.items ++ map (λ l. replicate zeros [] ++ lifted power l) (rows_of ls.now)) }
{
    for l in ls {
        let mut row = zero_row(alloc, zeros)?;
        push_lifted(alloc, &mut row, l, power)?;
        rows.push(row)?;
    }
    Ok(())
}

/// The rows of ls behind zeros, and then those of m behind the unit matrix, all times x to the power. Those of ls come
/// first, so that the others are reduced by them before they are reduced by each other.
fn twisted_rows(
    alloc: Global,
    m: &[Vec<Poly>],
    ls: &[Vec<Poly>],
    power: usize,
) -> Result<Vec<Vec<Poly>>, AllocError>
    ensures { IfOk result (λ rows. IsTwistedRows power (rows_of m.now) (rows_of ls.now) (rows_of rows.items)) }
{
    let mut rows = Vec::new(alloc);
    push_behind_zeros(alloc, &mut rows, m.len(), ls, power)?;
    let mut beside = rows_beside_unit(alloc, m, power)?;
    rows.append(&mut beside)?;
    Ok(rows)
}

/// Are the entries from the position on zero?
fn is_zero_from(row: &[Poly], position: usize) -> bool
    ensures { IsTrue result ↔ ((j : ℕ) → position ≤ j → entry_at row.now j ≡ []) }
{
    for j in position..row.len() {
        if !row[j].is_zero() {
            return false;
        }
    }
    true
}

/// Have the first n rows zeros from the position n on?
fn has_zero_corner(rows: &[Vec<Poly>], n: usize) -> bool
    requires { n ≤ length rows.now }
    ensures { IsTrue result ↔ HasZeroCorner n (rows_of rows.now) }
{
    for i in 0..n {
        if !is_zero_from(&rows[i], n) {
            return false;
        }
    }
    true
}

/// The first n entries of the first n rows.
fn corner(alloc: Global, rows: &[Vec<Poly>], n: usize) -> Result<Vec<Vec<Poly>>, AllocError>
    requires rows_fit { n ≤ length rows.now }
    requires entries_fit { (i : ℕ) → i < n → n ≤ length (row_at (rows_of rows.now) i) }
    ensures { IfOk result (λ out. rows_of out.items ≡ corner n (rows_of rows.now)) }
{
    let mut out = Vec::new(alloc);
    for i in 0..n {
        let row = &rows[i];
        out.push(copy_row(alloc, &row[..n])?)?;
    }
    Ok(out)
}

/// The Popov basis of the rows z with z·m in the lattice of ls, where the power of x is high enough; or None, which
/// comes only below each length that multiples in the lattice have at most. A number of columns beyond the end of its
/// type, which no memory holds, is a want of memory.
fn preimage_at<K: SmallField>(
    alloc: Global,
    k: &K,
    m: &[Vec<Poly>],
    ls: &[Vec<Poly>],
    width: usize,
    power: usize,
) -> Result<Option<Vec<Vec<Poly>>>, AllocError>
    requires some { 0 < length m.now }
    requires positive { 0 < width }
    requires m_in { All (IsRow (K.field k.now).ops width) (rows_of m.now) }
    requires ls_in { All (IsRow (K.field k.now).ops width) (rows_of ls.now) }
    ensures { let k = (K.field k.now).ops in
        IfOk result (λ found. MatchOption found
        ((bound : ℕ) → HasShortMultiples k width (rows_of ls.now) bound → power < bound)
        (λ basis. IsPreimage k (length m.now) width (rows_of m.now) (rows_of ls.now) (rows_of basis.items))) }
{
    let total = m.len().checked_add(width).ok_or(AllocError)?;
    let rows = twisted_rows(alloc, m, ls, power)?;
    let Some(whole) = popov(alloc, k, rows, total)? else {
        return Ok(None);
    };
    if !has_zero_corner(&whole, m.len()) {
        return Ok(None);
    }
    let basis = corner(alloc, &whole, m.len())?;
    Ok(Some(basis))
}

/// The power of x to begin with, for so many rows of the answer: the length of the longest entry of the rows, or the
/// mean of the lengths that rows of the answer can have together, if that is more. No memory.
fn first_power(rows: &[Vec<Poly>], count: usize) -> usize
    requires { 0 < count }
    ensures { 0 < result }
{
    let mut most = 1;
    let mut total: usize = 0;
    for row in rows {
        let length = longest_entry(row);
        most = length.max(most);
        total = total.saturating_add(length);
    }
    most.max(total / count)
}

/// The pivot degree of the rows and 1: each row of their width has a multiple in their lattice by a polynomial of at
/// most so many codes. Where the number is beyond the end of its type the pivots have more codes than memory holds, and
/// that is a want of memory.
fn multiples_bound(rows: &[Vec<Poly>]) -> Result<usize, AllocError>
    requires { IsPopovMatrix (length rows.now) (rows_of rows.now) }
    ensures { IfOk result (λ bound. bound ≡ pivot_sum (rows_of rows.now) (length rows.now) + 1) }
{
    let mut bound: usize = 1;
    for i in 0..rows.len() {
        bound = bound.checked_add(rows[i][i].len() - 1).ok_or(AllocError)?;
    }
    Ok(bound)
}

/// The basis at the last power of x, which is the bound of the lengths of multiples and always serves.
fn last_preimage<K: SmallField>(
    alloc: Global,
    k: &K,
    m: &[Vec<Poly>],
    ls: &[Vec<Poly>],
    width: usize,
    bound: usize,
) -> Result<Vec<Vec<Poly>>, AllocError>
    requires some { 0 < length m.now }
    requires positive { 0 < width }
    requires m_in { All (IsRow (K.field k.now).ops width) (rows_of m.now) }
    requires ls_in { All (IsRow (K.field k.now).ops width) (rows_of ls.now) }
    requires short { HasShortMultiples (K.field k.now).ops width (rows_of ls.now) bound }
    ensures { IfOk result (λ basis.
        IsPreimage (K.field k.now).ops (length m.now) width (rows_of m.now) (rows_of ls.now) (rows_of basis.items)) }
{
    match preimage_at(alloc, k, m, ls, width, bound)? {
        Some(basis) => Ok(basis),
        None => unreachable!(),
    }
}

/// The Popov basis of the rows z with z·m in the lattice of the rows ls, in which each row of the width has a multiple
/// by a polynomial of at most so many codes. It is read off the Popov basis of the rows of ls behind zeros and those of
/// m behind the unit matrix, all times a power of x that is doubled until it is above the degree of the answer, and is
/// the bound at the last; `first_power` mostly serves. It takes the time of that Popov basis, of as many rows as m and
/// ls have.
fn preimage_within<K: SmallField>(
    alloc: Global,
    k: &K,
    m: &[Vec<Poly>],
    ls: &[Vec<Poly>],
    width: usize,
    bound: usize,
) -> Result<Vec<Vec<Poly>>, AllocError>
    requires some { 0 < length m.now }
    requires positive { 0 < width }
    requires m_in { All (IsRow (K.field k.now).ops width) (rows_of m.now) }
    requires ls_in { All (IsRow (K.field k.now).ops width) (rows_of ls.now) }
    requires short { HasShortMultiples (K.field k.now).ops width (rows_of ls.now) bound }
    ensures { IfOk result (λ basis.
        IsPreimage (K.field k.now).ops (length m.now) width (rows_of m.now) (rows_of ls.now) (rows_of basis.items)) }
{
    let mut power = first_power(ls, m.len());
    while power < bound {
        if let Some(basis) = preimage_at(alloc, k, m, ls, width, power)? {
            return Ok(basis);
        }
        power = power.saturating_mul(2);
    }
    last_preimage(alloc, k, m, ls, width, bound)
}

/// The Popov basis of the rows z with z·m in the lattice of the Popov basis ls, as `preimage_within` finds it for the
/// pivot degree of ls. A bound beyond the end of its type is a want of memory, as `multiples_bound` says.
pub(crate) fn preimage<K: SmallField>(
    alloc: Global,
    k: &K,
    m: &[Vec<Poly>],
    ls: &[Vec<Poly>],
    width: usize,
) -> Result<Vec<Vec<Poly>>, AllocError>
    requires some { 0 < length m.now }
    requires positive { 0 < width }
    requires m_in { All (IsRow (K.field k.now).ops width) (rows_of m.now) }
    requires ls_in { All (IsRow (K.field k.now).ops width) (rows_of ls.now) }
    requires popov { IsPopovMatrix width (rows_of ls.now) }
    ensures { IfOk result (λ basis.
        IsPreimage (K.field k.now).ops (length m.now) width (rows_of m.now) (rows_of ls.now) (rows_of basis.items)) }
{
    let bound = multiples_bound(ls)?;
    preimage_within(alloc, k, m, ls, width, bound)
}
