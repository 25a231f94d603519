//! The inner loops, on rows of polynomials.

ghost use Rattle.std.specs.Prelude.{◌≡◌, ◌-◌, ◌<◌, ◌≤◌, [], length, map, replicate, All, IfOk, OnOk};
ghost use Rattle.ring_lemmas.specs.Rows.{row_trace, row_mul};
ghost use Rattle.ff_fields.specs.Over.{IsOver};
ghost use Rattle.ff_poly.specs.Words.{multiple_of};
ghost use Rattle.ff_poly.specs.Value.{value};
ghost use Rattle.ff_poly.specs.Polynomials.{polynomials};
ghost use Rattle.function_field.specs.Values.{IsPresOver, equation_of};
ghost use Rattle.ff_algebra.specs.RowProducts.{IsPolyRow, add_products, cross_sums, row_at, y_times};

use crate::elem::Pres;
use ff_fields::field::SmallField;
use ff_poly::{Poly, poly};
use std::alloc::{AllocError, Global};

/// Equal polynomials, in memory of their own.
pub(crate) fn copy_all(alloc: Global, row: &[Poly]) -> Result<Vec<Poly>, AllocError>
    ensures { IfOk result (λ copies. copies.items ≡ row.now) }
{
    let mut copies = Vec::new(alloc);
    for entry in row {
        copies.push(entry.copy(alloc)?)?;
    }
    Ok(copies)
}

/// n zeros.
pub(crate) fn zeros(alloc: Global, n: usize) -> Result<Vec<Poly>, AllocError>
    ensures { IfOk result (λ row. row.items ≡ replicate n []) }
{
    let mut row = Vec::new(alloc);
    for _ in 0..n {
        row.push(Poly::zero(alloc))?;
    }
    Ok(row)
}

/// Multiplies each polynomial by the code c, in place.
pub(crate) fn multiply_all<K: SmallField>(k: &K, row: &mut [Poly], c: u32)
    requires row_in { All (IsOver (K.field k.now).ops) row.old }
    requires c_in { c < (K.field k.now).size }
    ensures { row.new ≡ map (λ v. multiple_of (K.field k.now).ops v c) row.old }
{
    for i in 0..row.len() {
        row[i].multiply_by(k, c);
    }
}

/// Adds c·a·w to the entry at the position of each w of the row, in place.
pub(crate) fn add_products<K: SmallField>(
    k: &K,
    sums: &mut [Poly],
    c: u32,
    a: &Poly,
    row: &[Poly],
) -> Result<(), AllocError>
    requires fits { length row.now ≤ length sums.old }
    requires sums_in { All (IsOver (K.field k.now).ops) sums.old }
    requires c_in { c < (K.field k.now).size }
    requires a_in { IsOver (K.field k.now).ops a.now }
    requires row_in { All (IsOver (K.field k.now).ops) row.now }
    ensures { OnOk result (sums.new ≡ add_products (K.field k.now).ops c a.now sums.old row.now) }
{
    for i in 0..row.len() {
        sums[i].add_product(k, c, a, &row[i])?;
    }
    Ok(())
}

/// e·v + d·w for each v and w of two rows of the same length.
pub(crate) fn cross_sums<K: SmallField>(
    alloc: Global,
    k: &K,
    d: &Poly,
    e: &Poly,
    vs: &[Poly],
    ws: &[Poly],
) -> Result<Vec<Poly>, AllocError>
    requires same_length { length vs.now ≡ length ws.now }
    requires d_in { IsOver (K.field k.now).ops d.now }
    requires e_in { IsOver (K.field k.now).ops e.now }
    requires vs_in { All (IsOver (K.field k.now).ops) vs.now }
    requires ws_in { All (IsOver (K.field k.now).ops) ws.now }
    ensures { IfOk result (λ sums. sums.items ≡ cross_sums (K.field k.now).ops d.now e.now vs.now ws.now) }
{
    let mut sums = Vec::new(alloc);
    for i in 0..vs.len() {
        let mut sum = poly::mul(alloc, k, e, &vs[i])?;
        sum.add_product(k, 1, d, &ws[i])?;
        sums.push(sum)?;
    }
    Ok(sums)
}

/// Multiplies the row by y in place, with y^n replaced by y^n - f.
pub(crate) fn multiply_by_y<K: SmallField>(
    alloc: Global,
    k: &K,
    p: &Pres,
    row: &mut Vec<Poly>,
) -> Result<(), AllocError>
    requires p_in { IsPresOver (K.field k.now).ops p.now }
    requires row_in { IsPolyRow (K.field k.now).ops p.now.n row.old.items }
    ensures product { let k = K.field k.now in
        OnOk result (row_at k p.now row.new.items ≡ y_times k p.now (row_at k p.now row.old.items)) }
    ensures in_range { OnOk result (IsPolyRow (K.field k.now).ops p.now.n row.new.items) }
{
    let f = p.coeffs();
    let Some(top) = row.pop() else {
        return Ok(());
    };
    row.insert(0, Poly::zero(alloc))?;
    add_products(k, row.as_mut_slice(), k.neg(1), &top, f)?;
    Ok(())
}

/// The product of two rows modulo f.
pub(crate) fn row_product<K: SmallField>(
    alloc: Global,
    k: &K,
    p: &Pres,
    v: &[Poly],
    w: &[Poly],
) -> Result<Vec<Poly>, AllocError>
    requires p_in { IsPresOver (K.field k.now).ops p.now }
    requires v_len { length v.now ≡ p.now.n }
    requires v_in { All (IsOver (K.field k.now).ops) v.now }
    requires w_len { length w.now ≡ p.now.n }
    requires w_in { All (IsOver (K.field k.now).ops) w.now }
    ensures product { let k = K.field k.now in
        let f = (equation_of k p.now).coefficients in
        IfOk result (λ row. row_at k p.now row.items
        ≡ row_mul (polynomials k).ring (p.now.n - 1) f (row_at k p.now v.now) (row_at k p.now w.now)) }
    ensures in_range { IfOk result (λ row. IsPolyRow (K.field k.now).ops p.now.n row.items) }
{
    let mut product = zeros(alloc, p.n())?;
    let mut i = v.len();
    while i > 0 {
        i -= 1;
        multiply_by_y(alloc, k, p, &mut product)?;
        add_products(k, product.as_mut_slice(), 1, &v[i], w)?;
    }
    Ok(product)
}

/// The trace of multiplication by the row: the sum of the coefficients of y^i in y^i times the row, for i below n.
pub(crate) fn row_trace<K: SmallField>(
    alloc: Global,
    k: &K,
    p: &Pres,
    v: &[Poly],
) -> Result<Poly, AllocError>
    requires p_in { IsPresOver (K.field k.now).ops p.now }
    requires v_in { IsPolyRow (K.field k.now).ops p.now.n v.now }
    ensures trace { let k = K.field k.now in
        let f = (equation_of k p.now).coefficients in
        IfOk result (λ t. value k t ≡ row_trace (polynomials k).ops (p.now.n - 1) f (row_at k p.now v.now)) }
    ensures over { IfOk result (IsOver (K.field k.now).ops) }
{
    let mut row = copy_all(alloc, v)?;
    let mut sum = Poly::zero(alloc);
    for i in 0..p.n() {
        sum = poly::add(alloc, k, &sum, &row[i])?;
        multiply_by_y(alloc, k, p, &mut row)?;
    }
    Ok(sum)
}
