//! Coordinates in a Popov basis.

ghost use Rattle.std.specs.Prelude.{◌≡◌, ◌∷◌, [], length, replicate, All, IfOk, MatchOption};
ghost use Rattle.ff_fields.specs.Over.{IsOver};
ghost use Rattle.ff_poly.specs.Words.{difference_of};
ghost use Rattle.ff_poly.specs.Popov.{rows_of, IsRow, IsPopovMatrix, InRowSpan, IsCombinationList};

use crate::rows::{clear_pivot, copy_row, pivot};
use ff_fields::field::SmallField;
use ff_poly::Poly;
use std::alloc::{AllocError, Global};

/// A row of zeros.
pub(crate) fn zero_row(alloc: Global, width: usize) -> Result<Vec<Poly>, AllocError>
    ensures { IfOk result (λ v. v.items ≡ replicate width []) }
{
    let mut row = Vec::new(alloc);
    for i in 0..width {
        row.push(Poly::from_codes(Vec::new(alloc)))?;
    }
    Ok(row)
}

/// The constant -1.
pub(crate) fn minus_one<K: SmallField>(alloc: Global, k: &K) -> Result<Poly, AllocError>
    ensures { IfOk result (λ p. p ≡ difference_of (K.field k.now).ops [] (1 ∷ [])) }
{
    let mut codes = Vec::new(alloc);
    codes.push(k.neg(1))?;
    Ok(Poly::from_codes(codes))
}

/// The coefficients with which v is a combination of the rows of a Popov basis of its width; None exactly where v isn't
/// in their lattice. Takes as many subtractions of rows as v has positions, the width times its degree and 1, each
/// linear in a row.
pub fn coordinates<K: SmallField>(
    alloc: Global,
    k: &K,
    basis: &[Vec<Poly>],
    v: &[Poly],
) -> Result<Option<Vec<Poly>>, AllocError>
    requires basis_in { All (IsRow (K.field k.now).ops (length v.now)) (rows_of basis.now) }
    requires popov { IsPopovMatrix (length v.now) (rows_of basis.now) }
    requires v_in { All (IsOver (K.field k.now).ops) v.now }
    ensures { IfOk result (λ found. MatchOption found
        (¬ InRowSpan (K.field k.now).ops (length v.now) (rows_of basis.now) v.now)
        (λ c. IsCombinationList (K.field k.now).ops (length v.now) (rows_of basis.now) v.now c.items)) }
{
    let minus = minus_one(alloc, k)?;
    let mut rest = copy_row(alloc, v)?;
    let mut coefficients = zero_row(alloc, basis.len())?;
    while let Some(column) = pivot(&rest) {
        let row = &basis[column];
        if rest[column].len() < row[column].len() {
            return Ok(None);
        }
        let (c, s) = clear_pivot(k, rest.as_mut_slice(), row, column)?;
        coefficients[column].sub_multiple(k, c, s, &minus)?;
    }
    Ok(Some(coefficients))
}
