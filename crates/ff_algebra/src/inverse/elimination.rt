//! Relations between the multiples of a row and 1, by elimination without fractions.
//!
//! A line is n + 1 factors, w and a polynomial d, followed by the n entries of w·v - d.

ghost use Rattle.std.specs.Prelude.{◌≡◌, ◌≢◌, ◌+◌, ◌<◌, ℕ, [], ◌∷◌, length, take, replicate, slice_set, All, IfOk, MatchOption};
ghost use Rattle.ff_fields.specs.Over.{IsOver};
ghost use Rattle.ff_poly.specs.Popov.{rows_of};
ghost use Rattle.function_field.specs.Values.{IsPresOver};
ghost use Rattle.ff_algebra.specs.RowProducts.{IsPolyRow};
ghost use Rattle.ff_algebra.specs.Inverses.{ClearsColumn, AreEliminatedLines, IsInverseLine, IsInverseRelation, eliminated_lines, line_entry};

use crate::elem::Pres;
use crate::rows::{cross_sums, row_product, zeros};
use ff_fields::field::SmallField;
use ff_poly::{Poly, poly};
use std::alloc::{AllocError, Global};

/// n polynomials, all 0 but a 1 at position i.
fn unit_row(alloc: Global, n: usize, i: usize) -> Result<Vec<Poly>, AllocError>
    requires { i < n }
    ensures { IfOk result (λ row. row.items ≡ slice_set (replicate n []) i (1 ∷ [])) }
{
    let mut row = zeros(alloc, n)?;
    row[i] = Poly::one(alloc)?;
    Ok(row)
}

/// The line of these factors.
fn line_of<K: SmallField>(
    alloc: Global,
    k: &K,
    p: &Pres,
    v: &[Poly],
    mut factors: Vec<Poly>,
) -> Result<Vec<Poly>, AllocError>
    requires p_in { IsPresOver (K.field k.now).ops p.now }
    requires v_in { IsPolyRow (K.field k.now).ops p.now.n v.now }
    requires factors_in { IsPolyRow (K.field k.now).ops (p.now.n + 1) factors.items }
    ensures line { IfOk result (λ line. IsInverseLine (K.field k.now) p.now v.now line.items) }
    ensures factors { IfOk result (λ line. take (p.now.n + 1) line.items ≡ factors.items) }
{
    let n = p.n();
    let one = Poly::one(alloc)?;
    let mut product = row_product(alloc, k, p, &factors[..n], v)?;
    product[0].add_product(k, k.neg(1), &one, &factors[n])?;
    factors.append(&mut product)?;
    Ok(factors)
}

/// The n + 1 lines of the multiples of v by 1, y, and so on, and of 1.
fn starting_lines<K: SmallField>(
    alloc: Global,
    k: &K,
    p: &Pres,
    v: &[Poly],
) -> Result<Vec<Vec<Poly>>, AllocError>
    requires p_in { IsPresOver (K.field k.now).ops p.now }
    requires v_in { IsPolyRow (K.field k.now).ops p.now.n v.now }
    ensures lines { IfOk result (λ lines. AreEliminatedLines (K.field k.now) p.now v.now (p.now.n + 1)
        (rows_of lines.items)) }
    ensures count { IfOk result (λ lines. length lines.items ≡ p.now.n + 1) }
{
    let count = p.n() + 1;
    let mut lines = Vec::new(alloc);
    for i in 0..count {
        let factors = unit_row(alloc, count, i)?;
        lines.push(line_of(alloc, k, p, v, factors)?)?;
    }
    Ok(lines)
}

/// The position of a line that isn't 0 in the column, of least degree there; None where each line is 0 there.
fn shortest_at(lines: &[Vec<Poly>], column: usize) -> Option<usize>
    requires { All (λ line. column < length line) (rows_of lines.now) }
    ensures { MatchOption result ((i : ℕ) → line_entry (rows_of lines.now) i column ≡ [])
        (λ i. (i < length lines.now) × (line_entry (rows_of lines.now) i column ≢ [])) }
{
    let mut found: Option<(usize, usize)> = None;
    for i in 0..lines.len() {
        let Some(degree) = lines[i][column].degree() else {
            continue;
        };
        if let Some((_, least)) = found {
            if least <= degree {
                continue;
            }
        }
        found = Some((i, degree));
    }
    found.map(|(i, _)| i)
}

/// b times the line less a times the pivot, where b and a are the entries of the pivot and of the line in the column.
fn eliminate<K: SmallField>(
    alloc: Global,
    k: &K,
    column: usize,
    pivot: &[Poly],
    line: &[Poly],
) -> Result<Vec<Poly>, AllocError>
    requires within { column < length line.now }
    requires same_length { length line.now ≡ length pivot.now }
    requires pivot_in { All (IsOver (K.field k.now).ops) pivot.now }
    requires line_in { All (IsOver (K.field k.now).ops) line.now }
    ensures { IfOk result (λ row. row.items ≡ eliminated_lines (K.field k.now).ops column pivot.now line.now) }
{
    let minus = poly::scale(alloc, k, &line[column], k.neg(1))?;
    cross_sums(alloc, k, &minus, &pivot[column], line, pivot)
}

/// Takes a line that isn't 0 in the column away, and makes the others 0 there.
fn clear_column<K: SmallField>(
    alloc: Global,
    k: &K,
    mut lines: Vec<Vec<Poly>>,
    column: usize,
    width: usize,
) -> Result<Vec<Vec<Poly>>, AllocError>
    requires within { column < width }
    requires lines_in { All (IsPolyRow (K.field k.now).ops width) (rows_of lines.items) }
    ensures { IfOk result (λ rest. ClearsColumn (K.field k.now).ops column (rows_of lines.items) (rows_of rest.items)) }
{
    let Some(i) = shortest_at(lines.as_slice(), column) else {
        return Ok(lines);
    };
    let pivot = lines.remove(i);
    let mut rest = Vec::new(alloc);
    for line in &lines {
        rest.push(eliminate(alloc, k, column, pivot.as_slice(), line.as_slice())?)?;
    }
    Ok(rest)
}

/// A row w and a polynomial d, not both 0, with w·v equal to d: the factors of a line that is 0 in each of the n last
/// columns.
pub(super) fn relation<K: SmallField>(
    alloc: Global,
    k: &K,
    p: &Pres,
    v: &[Poly],
) -> Result<(Vec<Poly>, Poly), AllocError>
    requires p_in { IsPresOver (K.field k.now).ops p.now }
    requires v_in { IsPolyRow (K.field k.now).ops p.now.n v.now }
    ensures { IfOk result (λ r. IsInverseRelation (K.field k.now) p.now v.now r.0.items r.1) }
{
    let first = p.n() + 1;
    let width = p.n() + first;
    let mut lines = starting_lines(alloc, k, p, v)?;
    for column in first..width {
        lines = clear_column(alloc, k, lines, column, width)?;
    }
    let mut factors = lines.remove(0);
    factors.truncate(first);
    let Some(d) = factors.pop() else {
        unreachable!()
    };
    Ok((factors, d))
}
