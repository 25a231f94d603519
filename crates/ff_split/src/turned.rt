//! Coordinates as polynomials in t, read as polynomials in x.

ghost use Rattle.std.specs.Prelude.{◌≡◌, ◌≤◌, ◌<◌, ◌*◌, ◌^◌, ℕ, length, All, IfOk};
ghost use Rattle.ff_poly.specs.Words.{shifted};
ghost use Rattle.ff_poly.specs.Popov.{rows_of, row_at, entry_at};
ghost use Rattle.function_field.specs.Curves.{IsCurve, reversed_of};
ghost use Rattle.ff_lattice.specs.Lattices.{IsLatticeValue};
ghost use Rattle.split_theory.specs.Splits.{AreCoordinates, turned_row, turned_from};
ghost use Rattle.ff_split.specs.Steps.{HaveEntriesWithin};

use crate::coordinates::coordinates_in_t;
use ff_algebra::curve::Curve;
use ff_fields::field::SmallField;
use ff_lattice::Lattice;
use ff_poly::{Poly, poly};
use std::alloc::{AllocError, Global};

/// x^(m-1)·a(1/x) times x^e, for at most m codes of a.
fn turned_entry(alloc: Global, a: &Poly, m: usize, e: usize) -> Result<Poly, AllocError>
    requires { length a.now ≤ m }
    ensures { IfOk result (λ p. p ≡ shifted (reversed_of a.now m) e) }
{
    let mut codes = a.codes().to_vec(alloc)?;
    codes.reverse();
    let reversed = poly::shift(alloc, &Poly::from_codes(codes), m - a.len())?;
    poly::shift(alloc, &reversed, e)
}

/// The row turned, times x^e.
fn turned_row(alloc: Global, row: &[Poly], m: usize, e: usize) -> Result<Vec<Poly>, AllocError>
    requires { (i : ℕ) → length (entry_at row.now i) ≤ m }
    ensures { IfOk result (λ out. out.items ≡ turned_row m e row.now) }
{
    let mut out = Vec::new(alloc);
    for a in row {
        out.push(turned_entry(alloc, a, m, e)?)?;
    }
    Ok(out)
}

/// The rows turned, and row j times x^(c·j).
fn turned_rows(
    alloc: Global,
    rows: &[Vec<Poly>],
    c: usize,
    m: usize,
) -> Result<Vec<Vec<Poly>>, AllocError>
    requires small { c < 2 ^ 32 }
    requires few { length rows.now ≤ 4 }
    requires short { HaveEntriesWithin m (rows_of rows.now) }
    ensures { IfOk result (λ out. rows_of out.items ≡ turned_from c m 0 (rows_of rows.now)) }
{
    let mut out = Vec::new(alloc);
    for j in 0..rows.len() {
        out.push(turned_row(alloc, &rows[j], m, c * j)?)?;
    }
    Ok(out)
}

/// The number of codes of the longest entry, or the least number that is allowed.
fn longest_entry(row: &[Poly], least: usize) -> usize
    ensures least { least ≤ result }
    ensures each { (i : ℕ) → length (entry_at row.now i) ≤ result }
{
    let mut longest = least;
    for entry in row {
        longest = longest.max(entry.len());
    }
    longest
}

/// The number of codes of the longest entry of the rows, or the least number that is allowed.
fn longest(rows: &[Vec<Poly>], least: usize) -> usize
    ensures least { least ≤ result }
    ensures short { HaveEntriesWithin result (rows_of rows.now) }
{
    let mut longest = least;
    for row in rows {
        longest = longest_entry(row, longest);
    }
    longest
}

/// The coordinates of 1, y, and so on, times a power of x, in the functions of the infinite rows, and the exponent.
pub(crate) fn coordinates_in_x<K: SmallField>(
    alloc: Global,
    k: &K,
    c: &Curve,
    inf: &Lattice,
) -> Result<(usize, Vec<Vec<Poly>>), AllocError>
    requires curve { IsCurve (K.field k.now) c.now }
    requires form { IsLatticeValue (K.field k.now).ops c.now.inf.n inf.now }
    ensures { IfOk result (λ r. AreCoordinates (K.field k.now) c.now inf.now r.0 (rows_of r.1.items)) }
{
    let (exponent, rows) = coordinates_in_t(alloc, k, c, inf)?;
    let least = exponent.checked_add(1).ok_or(AllocError)?;
    let m = longest(&rows, least);
    let turned = turned_rows(alloc, &rows, c.c() as usize, m)?;
    Ok((m - least, turned))
}
