//! The coordinates of the powers of Y, times a power of t, in the rows of a lattice at infinity.

ghost use Rattle.std.specs.Prelude.{◌≡◌, ◌<◌, ◌≤◌, ℕ, length, IfOk, IfSome, MatchOption};
ghost use Rattle.ff_fields.specs.Over.{IsOver};
ghost use Rattle.ff_poly.specs.Popov.{rows_of, InRowSpan, IsCombinationList};
ghost use Rattle.function_field.specs.Curves.{IsCurve};
ghost use Rattle.ff_lattice.specs.Lattices.{IsLatticeValue};
ghost use Rattle.split_theory.specs.Splits.{AreCoordinatesInT};
ghost use Rattle.ff_split.specs.Steps.{power_row};

use crate::rows::zero_row;
use ff_algebra::curve::Curve;
use ff_fields::field::SmallField;
use ff_lattice::Lattice;
use ff_poly::{Poly, poly};
use ff_popov::coordinates;
use std::alloc::{AllocError, Global};

/// The denominator times t^exponent in column j of n, and zeros else.
fn power_row(
    alloc: Global,
    n: usize,
    den: &Poly,
    exponent: usize,
    j: usize,
) -> Result<Vec<Poly>, AllocError>
    requires { j < n }
    ensures { IfOk result (λ row. row.items ≡ power_row n den.now exponent j) }
{
    let mut row = zero_row(alloc, n)?;
    row[j] = poly::shift(alloc, den, exponent)?;
    Ok(row)
}

/// The coordinates of t^exponent·Y^j in the rows of the lattice, None where they aren't polynomials.
fn coordinate_row<K: SmallField>(
    alloc: Global,
    k: &K,
    inf: &Lattice,
    exponent: usize,
    j: usize,
) -> Result<Option<Vec<Poly>>, AllocError>
    requires inside { j < length inf.now.rows }
    requires form { IsLatticeValue (K.field k.now).ops (length inf.now.rows) inf.now }
    ensures { let n = length inf.now.rows in
        IfOk result (λ found. MatchOption found
        (¬ InRowSpan (K.field k.now).ops n inf.now.rows (power_row n inf.now.den exponent j))
        (λ q. IsCombinationList (K.field k.now).ops n inf.now.rows (power_row n inf.now.den exponent j) q.items)) }
{
    let row = power_row(alloc, inf.len(), inf.den(), exponent, j)?;
    coordinates(alloc, k, inf.rows(), &row)
}

/// The coordinates of t^exponent·Y^j for each j, None where they aren't all polynomials.
fn coordinate_rows<K: SmallField>(
    alloc: Global,
    k: &K,
    c: &Curve,
    inf: &Lattice,
    exponent: usize,
) -> Result<Option<Vec<Vec<Poly>>>, AllocError>
    requires curve { IsCurve (K.field k.now) c.now }
    requires form { IsLatticeValue (K.field k.now).ops c.now.inf.n inf.now }
    ensures { let k = K.field k.now in let n = length inf.now.rows in
        IfOk result (λ found. MatchOption found
        ((j : ℕ) × (j < n) × ¬ InRowSpan k.ops n inf.now.rows (power_row n inf.now.den exponent j))
        (λ q. AreCoordinatesInT k c.now inf.now exponent (rows_of q.items))) }
{
    let mut rows = Vec::new(alloc);
    for j in 0..inf.len() {
        match coordinate_row(alloc, k, inf, exponent, j)? {
            None => {
                return Ok(None);
            }
            Some(row) => {
                rows.push(row)?;
            }
        }
    }
    Ok(Some(rows))
}

/// A power of t that takes 1, Y, and so on into the lattice, and their coordinates then. The exponents 1, 2, 4, and so
/// on are tried. An exponent that isn't below 2^64 is a want of memory.
pub(crate) fn coordinates_in_t<K: SmallField>(
    alloc: Global,
    k: &K,
    c: &Curve,
    inf: &Lattice,
) -> Result<(usize, Vec<Vec<Poly>>), AllocError>
    requires curve { IsCurve (K.field k.now) c.now }
    requires form { IsLatticeValue (K.field k.now).ops c.now.inf.n inf.now }
    ensures { IfOk result (λ r. AreCoordinatesInT (K.field k.now) c.now inf.now r.0 (rows_of r.1.items)) }
{
    let mut exponent: usize = 1;
    loop {
        if let Some(rows) = coordinate_rows(alloc, k, c, inf, exponent)? {
            return Ok((exponent, rows));
        }
        exponent = exponent.checked_mul(2).ok_or(AllocError)?;
    }
}
