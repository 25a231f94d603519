//! Rows of polynomials and their combinations.

ghost use Rattle.std.specs.Prelude.{◌≡◌, [], length, map, replicate, All, IfOk};
ghost use Rattle.ff_fields.specs.Over.{IsOver};
ghost use Rattle.ff_poly.specs.Popov.{rows_of, IsRow, combination_list, multiple_of_row, sum_of_rows};

use ff_fields::field::SmallField;
use ff_poly::{Poly, poly};
use std::alloc::{AllocError, Global};

/// n zeros.
pub(crate) fn zero_row(alloc: Global, n: usize) -> Result<Vec<Poly>, AllocError>
    ensures { IfOk result (λ row. row.items ≡ replicate n []) }
{
    let mut row = Vec::new(alloc);
    for i in 0..n {
        row.push(Poly::zero(alloc))?;
    }
    Ok(row)
}

/// c times the row, and the other row added.
fn add_multiple<K: SmallField>(
    alloc: Global,
    k: &K,
    c: &Poly,
    row: &[Poly],
    total: &[Poly],
) -> Result<Vec<Poly>, AllocError>
    requires c_in { IsOver (K.field k.now).ops c.now }
    requires row_in { All (IsOver (K.field k.now).ops) row.now }
    requires total_in { All (IsOver (K.field k.now).ops) total.now }
    requires same_size { length row.now ≡ length total.now }
    ensures { let k = (K.field k.now).ops in
        IfOk result (λ sum. sum.items ≡ sum_of_rows k (multiple_of_row k c.now row.now) total.now) }
{
    let mut sum = Vec::new(alloc);
    for j in 0..row.len() {
        let product = poly::mul(alloc, k, c, &row[j])?;
        sum.push(poly::add(alloc, k, &product, &total[j])?)?;
    }
    Ok(sum)
}

/// The combination of the rows with these coefficients.
fn combined<K: SmallField>(
    alloc: Global,
    k: &K,
    coefficients: &[Poly],
    rows: &[Vec<Poly>],
    n: usize,
) -> Result<Vec<Poly>, AllocError>
    requires one_each { length coefficients.now ≡ length rows.now }
    requires coefficients_in { All (IsOver (K.field k.now).ops) coefficients.now }
    requires rows_in { All (IsRow (K.field k.now).ops n) (rows_of rows.now) }
    ensures { IfOk result (λ v. v.items ≡ combination_list (K.field k.now).ops n coefficients.now (rows_of rows.now)) }
{
    let mut total = zero_row(alloc, n)?;
    let len = rows.len();
    for i in 0..len {
        let j = len - 1 - i;
        total = add_multiple(alloc, k, &coefficients[j], &rows[j], &total)?;
    }
    Ok(total)
}

/// The combinations of the rows with each row of coefficients.
pub(crate) fn combinations<K: SmallField>(
    alloc: Global,
    k: &K,
    coefficients: &[Vec<Poly>],
    rows: &[Vec<Poly>],
    n: usize,
) -> Result<Vec<Vec<Poly>>, AllocError>
    requires coefficients_in { All (IsRow (K.field k.now).ops (length rows.now)) (rows_of coefficients.now) }
    requires rows_in { All (IsRow (K.field k.now).ops n) (rows_of rows.now) }
    ensures { let k = (K.field k.now).ops in
        IfOk result (λ out. rows_of out.items
        ≡ map (λ c. combination_list k n c (rows_of rows.now)) (rows_of coefficients.now)) }
{
    let mut out = Vec::new(alloc);
    for c in coefficients {
        out.push(combined(alloc, k, c, rows, n)?)?;
    }
    Ok(out)
}

/// An equal row, in memory of its own.
pub(crate) fn copy_row(alloc: Global, row: &[Poly]) -> Result<Vec<Poly>, AllocError>
    ensures { IfOk result (λ copy. copy.items ≡ row.now) }
{
    let mut copy = Vec::new(alloc);
    for entry in row {
        copy.push(entry.copy(alloc)?)?;
    }
    Ok(copy)
}

/// c times the row.
pub(crate) fn multiple_row<K: SmallField>(
    alloc: Global,
    k: &K,
    c: &Poly,
    row: &[Poly],
) -> Result<Vec<Poly>, AllocError>
    requires c_in { IsOver (K.field k.now).ops c.now }
    requires row_in { All (IsOver (K.field k.now).ops) row.now }
    ensures { IfOk result (λ product. product.items ≡ multiple_of_row (K.field k.now).ops c.now row.now) }
{
    let mut product = Vec::new(alloc);
    for entry in row {
        product.push(poly::mul(alloc, k, c, entry)?)?;
    }
    Ok(product)
}
