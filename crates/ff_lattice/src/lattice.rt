//! The lattices: rows in Popov form over a denominator.

ghost use Rattle.std.specs.Prelude.{◌≡◌, ℕ, ◌<◌, length, All, IfOk, IfSome, MatchOption, slice_get, Some};
ghost use Rattle.ff_fields.specs.Field.{FieldOps};
ghost use Rattle.ff_fields.specs.Over.{IsOver};
ghost use Rattle.ff_poly.specs.Words.{IsPoly, IsMonicList};
ghost use Rattle.ff_poly.specs.Popov.{rows_of, IsRow, IsPopovMatrix, HasFullRankMatrix};
ghost use Rattle.function_field.specs.Values.{IsElem, IsMonicElem};
ghost use Rattle.ff_lattice.specs.Lattices.{LatticeValue, IsForm, IsLatticeValue, IsSpannedBy, elems_over, row_elems};
ghost use Rattle.ff_lattice.specs.Steps.{IsReducedTo};

use crate::denominators::{exact_quotient, quotient_rows};
use crate::multipliers::least_multiplier;
use crate::rows::{copy_row, copy_rows};
use ff_algebra::Elem;
use ff_fields::field::SmallField;
use ff_poly::Poly;
use ff_popov::popov;
use std::alloc::{AllocError, Global};
use std::marker::Model;

/// A lattice of F, a module over k[x] of full rank: its Popov basis over one monic denominator of least degree. Over
/// the infinite presentation the polynomials are those in 1/x.
#[derive(Debug, Drop)]
pub struct Lattice {
    rows: Vec<Vec<Poly>>,
    den: Poly,
}

impl Model for Lattice {
    ghost use Rattle.ff_poly.specs.Popov.{rows_of};
    ghost use Rattle.ff_lattice.specs.Lattices.{LatticeValue, IsForm};

    ghost Value = { LatticeValue };

    ghost view = { λ l. record { rows = rows_of l.rows.items; den = l.den } };

    ghost invariant = { λ l. IsForm (record { rows = rows_of l.rows.items; den = l.den }) };
}

impl Lattice {
    /// The number of rows, which is the degree in y.
    pub fn len(&self) -> usize
        ensures { result ≡ length self.now.rows }
    {
        self.rows.len()
    }

    /// The rows of numerators, in Popov form.
    pub fn rows(&self) -> &[Vec<Poly>]
        ensures rows { rows_of result.now ≡ self.now.rows }
        ensures form { IsForm self.now }
    {
        self.rows.as_slice()
    }

    /// The denominator, which is monic.
    pub fn den(&self) -> &Poly
        ensures den { result.now ≡ self.now.den }
        ensures form { IsForm self.now }
    {
        &self.den
    }

    /// Row i over the denominator, counted from 0.
    pub fn row(&self, alloc: Global, i: usize) -> Result<Elem, AllocError>
        requires { i < length self.now.rows }
        ensures row { IfOk result (λ z. slice_get (row_elems self.now) i ≡ Some z) }
        ensures in_range { IfOk result (λ z. (k : FieldOps) (n : ℕ) → IsLatticeValue k n self.now → IsElem k n z) }
        ensures monic { IfOk result IsMonicElem }
    {
        let num = copy_row(alloc, &self.rows[i])?;
        let den = self.den.copy(alloc)?;
        Ok(Elem::over_monic(num, den))
    }

    /// An equal lattice, in memory of its own.
    pub fn copy(&self, alloc: Global) -> Result<Lattice, AllocError>
        ensures { IfOk result (λ l. l ≡ self.now) }
    {
        let rows = copy_rows(alloc, &self.rows)?;
        let den = self.den.copy(alloc)?;
        Ok(Lattice { rows, den })
    }
}

/// The lattice of n rows in Popov form over a monic polynomial. Its time is that of `least_multiplier`.
pub(crate) fn normalized<K: SmallField>(
    alloc: Global,
    k: &K,
    rows: &[Vec<Poly>],
    n: usize,
    e: &Poly,
) -> Result<Lattice, AllocError>
    requires rows_in { All (IsRow (K.field k.now).ops n) (rows_of rows.now) }
    requires popov { IsPopovMatrix n (rows_of rows.now) }
    requires e_in { IsOver (K.field k.now).ops e.now }
    requires e_monic { IsMonicList e.now }
    ensures form { IfOk result (IsLatticeValue (K.field k.now).ops n) }
    ensures reduced { IfOk result (IsReducedTo (K.field k.now).ops (rows_of rows.now) e.now) }
{
    let den = least_multiplier(alloc, k, rows, n, e)?;
    let factor = exact_quotient(alloc, k, e, &den)?;
    let rows = quotient_rows(alloc, k, &factor, rows, n)?;
    Ok(Lattice { rows, den })
}

/// The lattice of the rows over a monic polynomial; None exactly where their rank is below n.
pub(crate) fn from_rows<K: SmallField>(
    alloc: Global,
    k: &K,
    rows: Vec<Vec<Poly>>,
    n: usize,
    e: &Poly,
) -> Result<Option<Lattice>, AllocError>
    requires positive { 0 < n }
    requires rows_in { All (IsRow (K.field k.now).ops n) (rows_of rows.items) }
    requires rows_poly { All (All IsPoly) (rows_of rows.items) }
    requires e_in { IsOver (K.field k.now).ops e.now }
    requires e_monic { IsMonicList e.now }
    ensures form { IfOk result (λ found. MatchOption found (¬ HasFullRankMatrix (K.field k.now).ops n
        (rows_of rows.items))
        (IsLatticeValue (K.field k.now).ops n)) }
    ensures members { IfOk result (λ found. IfSome found
        (IsSpannedBy (K.field k.now) n (elems_over (rows_of rows.items) e.now))) }
{
    match popov(alloc, k, rows, n)? {
        None => Ok(None),
        Some(basis) => Ok(Some(normalized(alloc, k, &basis, n, e)?)),
    }
}
