//! Single rows: the pivot, the term that clears it, and a multiple taken away.

ghost use Rattle.std.specs.Prelude.{◌≡◌, ℕ, ◌+◌, ◌^◌, ◌<◌, ◌≤◌, length, All, IfOk, OnOk, MatchOption};
ghost use Rattle.ff_fields.specs.Over.{IsOver};
ghost use Rattle.ff_poly.specs.Words.{IsPoly};
ghost use Rattle.ff_poly.specs.Terms.{less_multiple};
ghost use Rattle.ff_poly.specs.Popov.{entry_at, IsRow, IsPivot, IsZeroRow};
ghost use Rattle.ff_popov.specs.Rows.{IsRowLess, IsClearedBy};

use ff_fields::field::SmallField;
use ff_poly::Poly;
use std::alloc::{AllocError, Global};

/// The column of the pivot, None for the zero row. No memory.
pub(crate) fn pivot(row: &[Poly]) -> Option<usize>
    ensures column { MatchOption result (IsZeroRow row.now) (IsPivot row.now) }
    ensures trimmed { All IsPoly row.now }
{
    let mut column = 0;
    let mut longest = 0;
    for (j, entry) in row.iter().enumerate() {
        let len = entry.len();
        if longest <= len {
            column = j;
            longest = len;
        }
    }
    if longest == 0 { None } else { Some(column) }
}

/// The term c·x^s whose multiple of b has the top of a. No memory.
pub(crate) fn quotient_term<K: SmallField>(k: &K, a: &Poly, b: &Poly) -> (u32, usize)
    requires a_in { IsOver (K.field k.now).ops a.now }
    requires b_in { IsOver (K.field k.now).ops b.now }
    requires some { 0 < length b.now }
    requires longer { length b.now ≤ length a.now }
    ensures below { result.0 < (K.field k.now).size }
    ensures degrees { result.1 + length b.now ≡ length a.now }
    ensures fits { length a.now < 2 ^ 64 }
    ensures shorter { length (less_multiple (K.field k.now).ops a.now result.0 result.1 b.now) < length a.now }
{
    let top = a.coeff(a.len() - 1);
    let inverse = k.inv(b.coeff(b.len() - 1));
    (k.mul(top, inverse), a.len() - b.len())
}

/// The same row.
pub(crate) fn copy_row(alloc: Global, row: &[Poly]) -> Result<Vec<Poly>, AllocError>
    ensures { IfOk result (λ v. v.items ≡ row.now) }
{
    let mut copy = Vec::new(alloc);
    for entry in row {
        copy.push(entry.copy(alloc)?)?;
    }
    Ok(copy)
}

/// Takes c·x^s times the other row away, in place.
pub(crate) fn subtract<K: SmallField>(
    k: &K,
    row: &mut [Poly],
    c: u32,
    s: usize,
    other: &[Poly],
) -> Result<(), AllocError>
    requires same { length other.now ≡ length row.old }
    requires row_in { All (IsOver (K.field k.now).ops) row.old }
    requires c_in { c < (K.field k.now).size }
    requires other_in { All (IsOver (K.field k.now).ops) other.now }
    requires fits { (i : ℕ) → s + length (entry_at other.now i) < 2 ^ 64 }
    ensures { OnOk result (IsRowLess (K.field k.now).ops row.old c s other.now row.new) }
{
    for i in 0..row.len() {
        row[i].sub_multiple(k, c, s, &other[i])?;
    }
    Ok(())
}

/// Takes the multiple of the other row away that clears the pivot, in place, and answers its term c·x^s.
pub(crate) fn clear_pivot<K: SmallField>(
    k: &K,
    row: &mut [Poly],
    other: &[Poly],
    column: usize,
) -> Result<(u32, usize), AllocError>
    requires row_in { IsRow (K.field k.now).ops (length row.old) row.old }
    requires other_in { IsRow (K.field k.now).ops (length row.old) other.now }
    requires row_pivot { IsPivot row.old column }
    requires other_pivot { IsPivot other.now column }
    requires longer { length (entry_at other.now column) ≤ length (entry_at row.old column) }
    ensures { IfOk result (λ t. IsClearedBy (K.field k.now).ops row.old other.now column t.0 t.1 row.new) }
{
    let (c, s) = quotient_term(k, &row[column], &other[column]);
    subtract(k, row, c, s, other)?;
    Ok((c, s))
}
