//! The functions of the rows of a Popov matrix in the coordinates of the infinite rows.

ghost use Rattle.std.specs.Prelude.{◌≡◌, ◌<◌, ◌≤◌, [], length, map, All, IfOk};
ghost use Rattle.ff_fields.specs.Over.{IsOver};
ghost use Rattle.ff_poly.specs.Words.{IsMonicList};
ghost use Rattle.ff_poly.specs.Value.{value};
ghost use Rattle.ff_poly.specs.Popov.{rows_of, entry_at, IsRow};
ghost use Rattle.function_field.specs.Functions.{of_poly};
ghost use Rattle.function_field.specs.Values.{IsElem, IsMonicElem, functions, function_of, equation_of};
ghost use Rattle.function_field.specs.Curves.{IsCurve};
ghost use Rattle.lattice_theory.specs.Lattices.{polynomial_ops};
ghost use Rattle.linear_theory.specs.Module.{combine};
ghost use Rattle.ff_lattice.specs.Lattices.{IsLatticeValue};
ghost use Rattle.split_theory.specs.Splits.{infinite_rows, AreRowsOver};
ghost use Rattle.ff_split.specs.Splits.{IsLowestElem};

use crate::rows::{copy_row, multiple_row};
use ff_algebra::curve::Curve;
use ff_algebra::elem::{Elem, Pres, add};
use ff_algebra::sides::to_fin;
use ff_fields::field::SmallField;
use ff_lattice::Lattice;
use ff_poly::{Poly, poly};
use ff_written::in_lowest_terms;
use std::alloc::{AllocError, Global};

/// a·z.
fn multiple<K: SmallField>(
    alloc: Global,
    k: &K,
    p: &Pres,
    a: &Poly,
    z: &Elem,
) -> Result<Elem, AllocError>
    requires a_in { IsOver (K.field k.now).ops a.now }
    requires z_in { IsElem (K.field k.now).ops p.now.n z.now }
    ensures product { let k = K.field k.now in
        IfOk result (λ w. function_of k p.now w
        ≡ (functions k p.now).◌⊗◌ (of_poly (equation_of k p.now) (value k a.now)) (function_of k p.now z.now)) }
    ensures in_range { IfOk result (IsElem (K.field k.now).ops p.now.n) }
    ensures monic { IfOk result IsMonicElem }
{
    let num = multiple_row(alloc, k, a, z.num())?;
    let den = z.den().copy(alloc)?;
    Ok(Elem::over_monic(num, den))
}

/// z/u for a monic polynomial u.
fn quotient<K: SmallField>(
    alloc: Global,
    k: &K,
    p: &Pres,
    z: &Elem,
    u: &Poly,
) -> Result<Elem, AllocError>
    requires z_in { IsElem (K.field k.now).ops p.now.n z.now }
    requires u_in { IsOver (K.field k.now).ops u.now }
    requires u_monic { IsMonicList u.now }
    ensures quotient { let k = K.field k.now in
        IfOk result (λ w.
        (functions k p.now).◌⊗◌ (of_poly (equation_of k p.now) (value k u.now)) (function_of k p.now w)
        ≡ function_of k p.now z.now) }
    ensures in_range { IfOk result (IsElem (K.field k.now).ops p.now.n) }
{
    let num = copy_row(alloc, z.num())?;
    let den = poly::mul(alloc, k, u, z.den())?;
    Ok(Elem::over_monic(num, den))
}

/// The sum of the products of the polynomials and the elements, of which there is one at least.
fn combined<K: SmallField>(
    alloc: Global,
    k: &K,
    p: &Pres,
    row: &[Poly],
    elems: &[Elem],
) -> Result<Elem, AllocError>
    requires some { 0 < length elems.now }
    requires one_each { length row.now ≡ length elems.now }
    requires row_in { All (IsOver (K.field k.now).ops) row.now }
    requires elems_in { All (IsElem (K.field k.now).ops p.now.n) elems.now }
    ensures sum { let k = K.field k.now in
        IfOk result (λ z. function_of k p.now z
        ≡ combine (polynomial_ops (equation_of k p.now)) (λ j. value k (entry_at row.now j))
        (map (function_of k p.now) elems.now)) }
    ensures in_range { IfOk result (IsElem (K.field k.now).ops p.now.n) }
{
    let mut sum = multiple(alloc, k, p, &row[0], &elems[0])?;
    for j in 1..elems.len() {
        let term = multiple(alloc, k, p, &row[j], &elems[j])?;
        sum = add(alloc, k, &sum, &term)?;
    }
    Ok(sum)
}

/// The function of z in lowest terms. It takes the factors of the denominator.
fn lowest<K: SmallField>(alloc: Global, k: &K, p: &Pres, z: &Elem) -> Result<Elem, AllocError>
    requires positive { 1 ≤ p.now.n }
    requires z_in { IsElem (K.field k.now).ops p.now.n z.now }
    ensures same { let k = K.field k.now in
        IfOk result (λ w. function_of k p.now w ≡ function_of k p.now z.now) }
    ensures lowest { IfOk result (IsLowestElem (K.field k.now).ops p.now.n) }
{
    let (num, den) = in_lowest_terms(alloc, k, p, z)?.into_parts();
    Ok(Elem::over_monic(num, den))
}

/// The combination of the elements by the row over u, in lowest terms.
fn element<K: SmallField>(
    alloc: Global,
    k: &K,
    p: &Pres,
    elems: &[Elem],
    row: &[Poly],
    u: &Poly,
) -> Result<Elem, AllocError>
    requires positive { 1 ≤ p.now.n }
    requires one_each { length elems.now ≡ p.now.n }
    requires elems_in { All (IsElem (K.field k.now).ops p.now.n) elems.now }
    requires row_in { IsRow (K.field k.now).ops p.now.n row.now }
    requires u_in { IsOver (K.field k.now).ops u.now }
    requires u_monic { IsMonicList u.now }
    ensures quotient { let k = K.field k.now in
        IfOk result (λ w.
        (functions k p.now).◌⊗◌ (of_poly (equation_of k p.now) (value k u.now)) (function_of k p.now w)
        ≡ combine (polynomial_ops (equation_of k p.now)) (λ j. value k (entry_at row.now j))
        (map (function_of k p.now) elems.now)) }
    ensures lowest { IfOk result (IsLowestElem (K.field k.now).ops p.now.n) }
{
    let sum = combined(alloc, k, p, row, elems)?;
    let over = quotient(alloc, k, p, &sum, u)?;
    lowest(alloc, k, p, &over)
}

/// The rows of the lattice at infinity, as elements in x and y.
fn infinite_elements<K: SmallField>(
    alloc: Global,
    k: &K,
    c: &Curve,
    inf: &Lattice,
) -> Result<Vec<Elem>, AllocError>
    requires curve { IsCurve (K.field k.now) c.now }
    requires infinite { IsLatticeValue (K.field k.now).ops c.now.inf.n inf.now }
    ensures functions { let k = K.field k.now in
        IfOk result (λ hs. map (function_of k c.now.fin) hs.items ≡ infinite_rows k c.now inf.now) }
    ensures in_range { IfOk result (λ hs. All (IsElem (K.field k.now).ops c.now.fin.n) hs.items) }
{
    let mut elems = Vec::new(alloc);
    for i in 0..inf.len() {
        let row = inf.row(alloc, i)?;
        elems.push(to_fin(alloc, k, c, &row)?)?;
    }
    Ok(elems)
}

/// The combinations of the elements by each row over u, in lowest terms.
fn combinations<K: SmallField>(
    alloc: Global,
    k: &K,
    p: &Pres,
    elems: &[Elem],
    rows: &[Vec<Poly>],
    u: &Poly,
) -> Result<Vec<Elem>, AllocError>
    requires positive { 1 ≤ p.now.n }
    requires one_each { length elems.now ≡ p.now.n }
    requires elems_in { All (IsElem (K.field k.now).ops p.now.n) elems.now }
    requires rows_in { All (IsRow (K.field k.now).ops p.now.n) (rows_of rows.now) }
    requires u_in { IsOver (K.field k.now).ops u.now }
    requires u_monic { IsMonicList u.now }
    ensures quotients { let k = K.field k.now in
        IfOk result (λ out.
        map (λ w. (functions k p.now).◌⊗◌ (of_poly (equation_of k p.now) (value k u.now)) (function_of k p.now w))
        out.items
        ≡ map (λ row. combine (polynomial_ops (equation_of k p.now)) (λ j. value k (entry_at row j))
        (map (function_of k p.now) elems.now)) (rows_of rows.now)) }
    ensures lowest { IfOk result (λ out. All (IsLowestElem (K.field k.now).ops p.now.n) out.items) }
{
    let mut out = Vec::new(alloc);
    for row in rows {
        out.push(element(alloc, k, p, elems, row, u)?)?;
    }
    Ok(out)
}

/// The functions of the rows over u, in lowest terms.
pub(crate) fn elements<K: SmallField>(
    alloc: Global,
    k: &K,
    c: &Curve,
    inf: &Lattice,
    rows: &[Vec<Poly>],
    u: &Poly,
) -> Result<Vec<Elem>, AllocError>
    requires curve { IsCurve (K.field k.now) c.now }
    requires infinite { IsLatticeValue (K.field k.now).ops c.now.inf.n inf.now }
    requires rows_in { All (IsRow (K.field k.now).ops c.now.fin.n) (rows_of rows.now) }
    requires count { length rows.now ≡ c.now.fin.n }
    requires u_in { IsOver (K.field k.now).ops u.now }
    requires u_monic { IsMonicList u.now }
    ensures rows { let k = K.field k.now in
        IfOk result (λ out. AreRowsOver k c.now inf.now u.now (rows_of rows.now)
        (map (function_of k c.now.fin) out.items)) }
    ensures lowest { IfOk result (λ out. All (IsLowestElem (K.field k.now).ops c.now.fin.n) out.items) }
{
    let elems = infinite_elements(alloc, k, c, inf)?;
    combinations(alloc, k, c.fin(), &elems, rows, u)
}
