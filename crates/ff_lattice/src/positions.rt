//! The codes of a row modulo an ideal, position by position.

ghost use Rattle.std.specs.Prelude.{◌≡◌, ◌+◌, ◌-◌, ◌*◌, ◌^◌, ◌<◌, ◌≤◌, suc, [], length, get_or, drop, max, replicate, All, IfOk, OnOk};
ghost use Rattle.ff_fields.specs.Over.{IsOver};
ghost use Rattle.ff_poly.specs.Popov.{rows_of, entry_at, row_at, longest, IsRow, IsPopovMatrix};
ghost use Rattle.ff_lattice.specs.PositionLists.{pivot_length, row_less, code_count, codes_below, spread_onto, IsDeepest, IsReadDown, IsSpreadDown};

use crate::rows::zero_row;
use ff_fields::field::SmallField;
use ff_poly::Poly;
use std::alloc::{AllocError, Global};

/// Takes c·x^s times the other row away, in place. A multiple too long to be counted is a want of memory.
pub(crate) fn subtract<K: SmallField>(
    k: &K,
    row: &mut [Poly],
    c: u32,
    s: usize,
    other: &[Poly],
) -> Result<(), AllocError>
    requires row_in { IsRow (K.field k.now).ops (length row.old) row.old }
    requires c_in { c < (K.field k.now).size }
    requires other_in { IsRow (K.field k.now).ops (length row.old) other.now }
    ensures { OnOk result (row.new ≡ row_less (K.field k.now).ops row.old c s other.now) }
{
    for i in 0..row.len() {
        if other[i].len() >= usize::MAX - s {
            return Err(AllocError);
        }
        row[i].sub_multiple(k, c, s, &other[i])?;
    }
    Ok(())
}

/// The length of the pivot in a column.
fn pivot_len<K: SmallField>(k: &K, rows: &[Vec<Poly>], j: usize) -> usize
    requires rows_in { All (IsRow (K.field k.now).ops (length rows.now)) (rows_of rows.now) }
    requires j_in { j < length rows.now }
    ensures { result ≡ pivot_length (rows_of rows.now) j }
{
    rows[j][j].len()
}

/// The length of the longest pivot.
pub(crate) fn deepest<K: SmallField>(k: &K, rows: &[Vec<Poly>]) -> usize
    requires { All (IsRow (K.field k.now).ops (length rows.now)) (rows_of rows.now) }
    ensures { IsDeepest (rows_of rows.now) (length rows.now) result }
{
    let mut most = 0;
    for j in 0..rows.len() {
        let len = pivot_len(k, rows, j);
        if most < len {
            most = len;
        }
    }
    most
}

/// Takes away the multiple of row j that clears the position of x^t in column j.
fn clear<K: SmallField>(
    k: &K,
    row: &mut [Poly],
    rows: &[Vec<Poly>],
    t: usize,
    j: usize,
) -> Result<(), AllocError>
    requires row_in { IsRow (K.field k.now).ops (length row.old) row.old }
    requires rows_in { All (IsRow (K.field k.now).ops (length row.old)) (rows_of rows.now) }
    requires popov { IsPopovMatrix (length row.old) (rows_of rows.now) }
    requires j_in { j < length row.old }
    requires fits { t + 1 < 2 ^ 64 }
    requires reaches { pivot_length (rows_of rows.now) j ≤ t + 1 }
    ensures { OnOk result (row.new ≡ row_less (K.field k.now).ops row.old (get_or (entry_at row.old j) t 0)
        (suc t - pivot_length (rows_of rows.now) j) (row_at (rows_of rows.now) j)) }
{
    let s = t + 1 - pivot_len(k, rows, j);
    let code = row[j].coeff(t);
    subtract(k, row, code, s, &rows[j])?;
    Ok(())
}

/// Reads the code at the position of x^t in column j, if there is one, and clears the position.
fn read_position<K: SmallField>(
    k: &K,
    codes: &mut Vec<u32>,
    row: &mut [Poly],
    order: &[Vec<Poly>],
    ideal: &[Vec<Poly>],
    t: usize,
    j: usize,
) -> Result<(), AllocError>
    requires row_in { IsRow (K.field k.now).ops (length row.old) row.old }
    requires order_in { All (IsRow (K.field k.now).ops (length row.old)) (rows_of order.now) }
    requires order_popov { IsPopovMatrix (length row.old) (rows_of order.now) }
    requires ideal_in { All (IsRow (K.field k.now).ops (length row.old)) (rows_of ideal.now) }
    requires ideal_popov { IsPopovMatrix (length row.old) (rows_of ideal.now) }
    requires j_in { j < length row.old }
    requires fits { t + 1 < 2 ^ 64 }
    ensures { let n = length row.old in
        OnOk result (IsReadDown (K.field k.now).ops n (rows_of order.now) (rows_of ideal.now) (suc (t * n + j))
        (t * n + j) row.old codes.old.items row.new codes.new.items) }
{
    if t + 1 < pivot_len(k, order, j) {
        return Ok(());
    }
    if pivot_len(k, ideal, j) <= t + 1 {
        clear(k, row, ideal, t, j)?;
        return Ok(());
    }
    codes.push(row[j].coeff(t))?;
    clear(k, row, order, t, j)?;
    Ok(())
}

/// Reads the codes at the positions of x^t, from the last column to the first.
fn read_degree<K: SmallField>(
    k: &K,
    codes: &mut Vec<u32>,
    row: &mut [Poly],
    order: &[Vec<Poly>],
    ideal: &[Vec<Poly>],
    t: usize,
) -> Result<(), AllocError>
    requires row_in { IsRow (K.field k.now).ops (length row.old) row.old }
    requires order_in { All (IsRow (K.field k.now).ops (length row.old)) (rows_of order.now) }
    requires order_popov { IsPopovMatrix (length row.old) (rows_of order.now) }
    requires ideal_in { All (IsRow (K.field k.now).ops (length row.old)) (rows_of ideal.now) }
    requires ideal_popov { IsPopovMatrix (length row.old) (rows_of ideal.now) }
    requires fits { t + 1 < 2 ^ 64 }
    ensures { let n = length row.old in
        OnOk result (IsReadDown (K.field k.now).ops n (rows_of order.now) (rows_of ideal.now) (suc t * n) (t * n)
        row.old codes.old.items row.new codes.new.items) }
{
    for j in (0..row.len()).rev() {
        read_position(k, codes, row, order, ideal, t, j)?;
    }
    Ok(())
}

/// The length of the longest entry. No memory.
pub(crate) fn longest_entry(row: &[Poly]) -> usize
    ensures { result ≡ longest row.now }
{
    let mut most = 0;
    for entry in row {
        let len = entry.len();
        if most < len {
            most = len;
        }
    }
    most
}

/// The codes of a row modulo the ideal, whose pivots are at most so long. It takes the time of two subtractions of rows
/// for each position of the row.
pub(crate) fn read_codes<K: SmallField>(
    alloc: Global,
    k: &K,
    row: &mut [Poly],
    order: &[Vec<Poly>],
    ideal: &[Vec<Poly>],
    depth: usize,
) -> Result<Vec<u32>, AllocError>
    requires row_in { IsRow (K.field k.now).ops (length row.old) row.old }
    requires order_in { All (IsRow (K.field k.now).ops (length row.old)) (rows_of order.now) }
    requires order_popov { IsPopovMatrix (length row.old) (rows_of order.now) }
    requires ideal_in { All (IsRow (K.field k.now).ops (length row.old)) (rows_of ideal.now) }
    requires ideal_popov { IsPopovMatrix (length row.old) (rows_of ideal.now) }
    ensures { let n = length row.old in
        IfOk result (λ v. v.items ≡ codes_below n (rows_of order.now) (rows_of ideal.now) (K.field k.now).ops
        (max depth (longest row.old) * n) row.old) }
{
    let mut codes = Vec::new(alloc);
    let most = longest_entry(row);
    let top = if most < depth { depth } else { most };
    for t in (0..top).rev() {
        read_degree(k, &mut codes, row, order, ideal, t)?;
    }
    Ok(codes)
}

/// Adds the multiple of row j by the code at the position of x^t in column j, if there is one; answers how many codes
/// are done.
fn spread_position<K: SmallField>(
    k: &K,
    row: &mut [Poly],
    order: &[Vec<Poly>],
    ideal: &[Vec<Poly>],
    rows: &[Vec<Poly>],
    codes: &[u32],
    done: usize,
    t: usize,
    j: usize,
) -> Result<usize, AllocError>
    requires row_in { IsRow (K.field k.now).ops (length row.old) row.old }
    requires order_in { All (IsRow (K.field k.now).ops (length row.old)) (rows_of order.now) }
    requires order_size { length order.now ≡ length row.old }
    requires ideal_in { All (IsRow (K.field k.now).ops (length row.old)) (rows_of ideal.now) }
    requires ideal_size { length ideal.now ≡ length row.old }
    requires rows_in { All (IsRow (K.field k.now).ops (length row.old)) (rows_of rows.now) }
    requires rows_size { length rows.now ≡ length row.old }
    requires codes_in { IsOver (K.field k.now).ops codes.now }
    requires left { let n = length row.old in
        length (drop done codes.now) ≡ code_count n (rows_of order.now) (rows_of ideal.now) (suc (t * n + j)) }
    requires j_in { j < length row.old }
    requires fits { t + 1 < 2 ^ 64 }
    ensures { let n = length row.old in
        IfOk result (λ next. IsSpreadDown (K.field k.now).ops n (rows_of order.now) (rows_of ideal.now)
        (rows_of rows.now) (suc (t * n + j)) (t * n + j) row.old (drop done codes.now) row.new
        (drop next codes.now)) }
{
    let first = pivot_len(k, order, j);
    if t + 1 < first {
        return Ok(done);
    }
    if pivot_len(k, ideal, j) <= t + 1 {
        return Ok(done);
    }
    let c = k.neg(codes[done]);
    subtract(k, row, c, t + 1 - first, &rows[j])?;
    Ok(done + 1)
}

/// Adds the multiples for the codes at the positions of x^t, from the last column to the first.
fn spread_degree<K: SmallField>(
    k: &K,
    row: &mut [Poly],
    order: &[Vec<Poly>],
    ideal: &[Vec<Poly>],
    rows: &[Vec<Poly>],
    codes: &[u32],
    done: usize,
    t: usize,
) -> Result<usize, AllocError>
    requires row_in { IsRow (K.field k.now).ops (length row.old) row.old }
    requires order_in { All (IsRow (K.field k.now).ops (length row.old)) (rows_of order.now) }
    requires order_size { length order.now ≡ length row.old }
    requires ideal_in { All (IsRow (K.field k.now).ops (length row.old)) (rows_of ideal.now) }
    requires ideal_size { length ideal.now ≡ length row.old }
    requires rows_in { All (IsRow (K.field k.now).ops (length row.old)) (rows_of rows.now) }
    requires rows_size { length rows.now ≡ length row.old }
    requires codes_in { IsOver (K.field k.now).ops codes.now }
    requires left { let n = length row.old in
        length (drop done codes.now) ≡ code_count n (rows_of order.now) (rows_of ideal.now) (suc t * n) }
    requires fits { t + 1 < 2 ^ 64 }
    ensures { let n = length row.old in
        IfOk result (λ next. IsSpreadDown (K.field k.now).ops n (rows_of order.now) (rows_of ideal.now)
        (rows_of rows.now) (suc t * n) (t * n) row.old (drop done codes.now) row.new (drop next codes.now)) }
{
    let mut next = done;
    for j in (0..row.len()).rev() {
        next = spread_position(k, row, order, ideal, rows, codes, next, t, j)?;
    }
    Ok(next)
}

/// The combination of the rows by the codes, for an ideal whose pivots are at most so long. It takes the time of a
/// subtraction of rows for each code.
pub(crate) fn spread_codes<K: SmallField>(
    alloc: Global,
    k: &K,
    order: &[Vec<Poly>],
    ideal: &[Vec<Poly>],
    depth: usize,
    rows: &[Vec<Poly>],
    codes: &[u32],
) -> Result<Vec<Poly>, AllocError>
    requires order_in { All (IsRow (K.field k.now).ops (length order.now)) (rows_of order.now) }
    requires ideal_in { All (IsRow (K.field k.now).ops (length order.now)) (rows_of ideal.now) }
    requires ideal_size { length ideal.now ≡ length order.now }
    requires rows_in { All (IsRow (K.field k.now).ops (length order.now)) (rows_of rows.now) }
    requires rows_size { length rows.now ≡ length order.now }
    requires codes_in { IsOver (K.field k.now).ops codes.now }
    requires size { let n = length order.now in length codes.now
        ≡ code_count n (rows_of order.now) (rows_of ideal.now) (depth * n) }
    ensures { let n = length order.now in
        IfOk result (λ v. v.items ≡ spread_onto n (rows_of order.now) (rows_of ideal.now) (K.field k.now).ops
        (rows_of rows.now) (depth * n) codes.now (replicate n [])) }
{
    let mut row = zero_row(alloc, order.len())?;
    let mut done = 0;
    for t in (0..depth).rev() {
        done = spread_degree(k, &mut row, order, ideal, rows, codes, done, t)?;
    }
    Ok(row)
}
