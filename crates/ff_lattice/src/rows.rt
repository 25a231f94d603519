//! Rows of polynomials.

ghost use Rattle.std.specs.Prelude.{◌≡◌, ◌<◌, [], map, replicate, slice_set, All, IfOk};
ghost use Rattle.ff_fields.specs.Over.{IsOver};
ghost use Rattle.ff_poly.specs.Popov.{rows_of, IsRow, multiple_of_row};
ghost use Rattle.ff_lattice.specs.Steps.{unit_row};

use ff_fields::field::SmallField;
use ff_poly::{Poly, poly};
use std::alloc::{AllocError, Global};

/// An equal row, in memory of its own.
pub(crate) fn copy_row(alloc: Global, row: &[Poly]) -> Result<Vec<Poly>, AllocError>
    ensures { IfOk result (λ copy. copy.items ≡ row.now) }
{
    let mut copy = Vec::new(alloc);
    for entry in row {
        copy.push(entry.copy(alloc)?)?;
    }
    Ok(copy)
}

/// Equal rows, in memory of their own.
pub(crate) fn copy_rows(alloc: Global, rows: &[Vec<Poly>]) -> Result<Vec<Vec<Poly>>, AllocError>
    ensures { IfOk result (λ copies. rows_of copies.items ≡ rows_of rows.now) }
{
    let mut copies = Vec::new(alloc);
    for row in rows {
        copies.push(copy_row(alloc, row)?)?;
    }
    Ok(copies)
}

/// Equal lists of rows, in memory of their own.
pub(crate) fn copy_matrices(
    alloc: Global,
    matrices: &[Vec<Vec<Poly>>],
) -> Result<Vec<Vec<Vec<Poly>>>, AllocError>
    ensures { IfOk result (λ copies. map (λ m. rows_of m.items) copies.items
        ≡ map (λ m. rows_of m.items) matrices.now) }
{
    let mut copies = Vec::new(alloc);
    for rows in matrices {
        copies.push(copy_rows(alloc, rows)?)?;
    }
    Ok(copies)
}

/// n zeros.
pub(crate) fn zero_row(alloc: Global, n: usize) -> Result<Vec<Poly>, AllocError>
    ensures { IfOk result (λ row. row.items ≡ replicate n []) }
{
    let mut row = Vec::new(alloc);
    for i in 0..n {
        row.push(Poly::zero(alloc))?;
    }
    Ok(row)
}

/// n polynomials, 1 at the position i and 0 elsewhere.
pub(crate) fn unit_row(alloc: Global, n: usize, i: usize) -> Result<Vec<Poly>, AllocError>
    requires { i < n }
    ensures { IfOk result (λ row. row.items ≡ unit_row n i) }
{
    let mut row = zero_row(alloc, n)?;
    row[i] = Poly::one(alloc)?;
    Ok(row)
}

/// n polynomials, a at the position i and 0 elsewhere.
pub(crate) fn placed_row(
    alloc: Global,
    n: usize,
    i: usize,
    a: Poly,
) -> Result<Vec<Poly>, AllocError>
    requires { i < n }
    ensures { IfOk result (λ row. row.items ≡ slice_set (replicate n []) i a) }
{
    let mut row = zero_row(alloc, n)?;
    row[i] = a;
    Ok(row)
}

/// c times the row.
pub(crate) fn multiple_row<K: SmallField>(
    alloc: Global,
    k: &K,
    c: &Poly,
    row: &[Poly],
) -> Result<Vec<Poly>, AllocError>
    requires c_in { IsOver (K.field k.now).ops c.now }
    requires row_in { All (IsOver (K.field k.now).ops) row.now }
    ensures { IfOk result (λ product. product.items ≡ multiple_of_row (K.field k.now).ops c.now row.now) }
{
    let mut product = Vec::new(alloc);
    for entry in row {
        product.push(poly::mul(alloc, k, c, entry)?)?;
    }
    Ok(product)
}

/// c times each row.
pub(crate) fn multiple_rows<K: SmallField>(
    alloc: Global,
    k: &K,
    c: &Poly,
    rows: &[Vec<Poly>],
    n: usize,
) -> Result<Vec<Vec<Poly>>, AllocError>
    requires c_in { IsOver (K.field k.now).ops c.now }
    requires rows_in { All (IsRow (K.field k.now).ops n) (rows_of rows.now) }
    ensures { IfOk result (λ products. rows_of products.items
        ≡ map (multiple_of_row (K.field k.now).ops c.now) (rows_of rows.now)) }
{
    let mut products = Vec::new(alloc);
    for row in rows {
        products.push(multiple_row(alloc, k, c, row)?)?;
    }
    Ok(products)
}
