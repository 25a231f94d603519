//! The functions that take one lattice into another.

ghost use Rattle.std.specs.Prelude.{◌≡◌, ◌↔◌, ◌<◌, length, map, All, IfOk};
ghost use Rattle.ff_fields.specs.Over.{IsOver};
ghost use Rattle.ff_poly.specs.Words.{IsMonicList};
ghost use Rattle.ff_poly.specs.Value.{value};
ghost use Rattle.ff_poly.specs.Popov.{rows_of, IsRow, sum_of_rows, multiple_of_row, combination_list};
ghost use Rattle.function_field.specs.Functions.{of_poly};
ghost use Rattle.function_field.specs.Values.{PresValue, IsPresOver, IsElem, Functions, functions, function_of, equation_of};
ghost use Rattle.ff_lattice.specs.Lattices.{IsLatticeValue, Contains, row_elems};
ghost use Rattle.ff_lattice.specs.Colons.{IsColon, IsKept, one_row};

use crate::generators::{common_denominator, numerators};
use crate::lattice::{Lattice, from_rows};
use crate::multiples::scale;
use crate::operations::push_products;
use crate::preimage::preimage;
use crate::rows::{multiple_rows, zero_row};
use crate::sets::same_rows;
use ff_algebra::{Elem, Pres};
use ff_fields::field::SmallField;
use ff_poly::{Poly, poly};
use std::alloc::{AllocError, Global};

/// c times the row, and the other row.
fn add_multiple<K: SmallField>(
    alloc: Global,
    k: &K,
    c: &Poly,
    row: &[Poly],
    total: &[Poly],
) -> Result<Vec<Poly>, AllocError>
    requires c_in { IsOver (K.field k.now).ops c.now }
    requires row_in { All (IsOver (K.field k.now).ops) row.now }
    requires total_in { All (IsOver (K.field k.now).ops) total.now }
    requires same_size { length row.now ≡ length total.now }
    ensures { let k = (K.field k.now).ops in
        IfOk result (λ sum. sum.items ≡ sum_of_rows k (multiple_of_row k c.now row.now) total.now) }
{
    let mut sum = Vec::new(alloc);
    for j in 0..row.len() {
        let product = poly::mul(alloc, k, c, &row[j])?;
        sum.push(poly::add(alloc, k, &product, &total[j])?)?;
    }
    Ok(sum)
}

/// The combination of the rows with these coefficients.
fn combined<K: SmallField>(
    alloc: Global,
    k: &K,
    coefficients: &[Poly],
    rows: &[Vec<Poly>],
    n: usize,
) -> Result<Vec<Poly>, AllocError>
    requires one_each { length coefficients.now ≡ length rows.now }
    requires coefficients_in { All (IsOver (K.field k.now).ops) coefficients.now }
    requires rows_in { All (IsRow (K.field k.now).ops n) (rows_of rows.now) }
    ensures { IfOk result (λ v. v.items ≡ combination_list (K.field k.now).ops n coefficients.now (rows_of rows.now)) }
{
    let mut total = zero_row(alloc, n)?;
    let len = rows.len();
    for i in 0..len {
        let j = len - 1 - i;
        total = add_multiple(alloc, k, &coefficients[j], &rows[j], &total)?;
    }
    Ok(total)
}

/// The combinations of the rows with each row of coefficients.
fn combinations<K: SmallField>(
    alloc: Global,
    k: &K,
    basis: &[Vec<Poly>],
    rows: &[Vec<Poly>],
    n: usize,
) -> Result<Vec<Vec<Poly>>, AllocError>
    requires basis_in { All (IsRow (K.field k.now).ops (length rows.now)) (rows_of basis.now) }
    requires rows_in { All (IsRow (K.field k.now).ops n) (rows_of rows.now) }
    ensures { let k = (K.field k.now).ops in
        IfOk result (λ out. rows_of out.items
        ≡ map (λ c. combination_list k n c (rows_of rows.now)) (rows_of basis.now)) }
{
    let mut out = Vec::new(alloc);
    for c in basis {
        out.push(combined(alloc, k, c, rows, n)?)?;
    }
    Ok(out)
}

/// The coefficients with which the rows of l combine to functions whose product with w is in a.
fn kept_coefficients<K: SmallField>(
    alloc: Global,
    k: &K,
    p: &Pres,
    l: &Lattice,
    w: &Elem,
    a: &Lattice,
) -> Result<Vec<Vec<Poly>>, AllocError>
    requires p_in { IsPresOver (K.field k.now).ops p.now }
    requires l_form { IsLatticeValue (K.field k.now).ops p.now.n l.now }
    requires w_in { IsElem (K.field k.now).ops p.now.n w.now }
    requires a_form { IsLatticeValue (K.field k.now).ops p.now.n a.now }
    ensures { IfOk result (λ basis. IsKept (K.field k.now) p.now l.now w.now a.now (rows_of basis.items)) }
{
    let mut gens = Vec::with_capacity(alloc, p.n())?;
    push_products(alloc, k, p, &mut gens, w, l)?;
    let e = common_denominator(alloc, k, &gens, p.n())?;
    let rows = numerators(alloc, k, &gens, p.n(), &e)?;
    let m = multiple_rows(alloc, k, a.den(), &rows, p.n())?;
    let ls = multiple_rows(alloc, k, &e, a.rows(), p.n())?;
    preimage(alloc, k, &m, &ls, p.n())
}

/// The members of l whose product with w is in a. Where these are all members, l is copied.
fn restricted<K: SmallField>(
    alloc: Global,
    k: &K,
    p: &Pres,
    l: &Lattice,
    w: &Elem,
    a: &Lattice,
) -> Result<Lattice, AllocError>
    requires p_in { IsPresOver (K.field k.now).ops p.now }
    requires l_form { IsLatticeValue (K.field k.now).ops p.now.n l.now }
    requires w_in { IsElem (K.field k.now).ops p.now.n w.now }
    requires a_form { IsLatticeValue (K.field k.now).ops p.now.n a.now }
    ensures form { IfOk result (IsLatticeValue (K.field k.now).ops p.now.n) }
    ensures members { let k = K.field k.now in
        IfOk result (λ r. (z : Functions k p.now) →
        Contains k p.now r z
        ↔ (Contains k p.now l.now z × Contains k p.now a.now ((functions k p.now).◌⊗◌ (function_of k p.now w.now) z))) }
{
    let basis = kept_coefficients(alloc, k, p, l, w, a)?;
    let rows = combinations(alloc, k, &basis, l.rows(), p.n())?;
    if same_rows(&rows, l.rows()) {
        let copy = l.copy(alloc)?;
        return Ok(copy);
    }
    match from_rows(alloc, k, rows, p.n(), l.den())? {
        Some(lattice) => Ok(lattice),
        None => unreachable!(),
    }
}

/// The row of 1 over the denominator.
fn one_row(alloc: Global, den: &Poly, n: usize) -> Result<Vec<Poly>, AllocError>
    requires { 0 < n }
    ensures { IfOk result (λ row. row.items ≡ one_row n den.now) }
{
    let mut row = zero_row(alloc, n)?;
    row[0] = den.copy(alloc)?;
    Ok(row)
}

/// A monic polynomial in the lattice, over each presentation of the degree n. It takes the time of a Popov basis of
/// n + 1 rows.
pub fn polynomial_in<K: SmallField>(
    alloc: Global,
    k: &K,
    b: &Lattice,
    n: usize,
) -> Result<Poly, AllocError>
    requires positive { 0 < n }
    requires b_form { IsLatticeValue (K.field k.now).ops n b.now }
    ensures over { IfOk result (IsOver (K.field k.now).ops) }
    ensures monic { IfOk result IsMonicList }
    ensures inside { let k = K.field k.now in
        IfOk result (λ h.
        (p : PresValue) →
        p.n ≡ n →
        Contains k p b.now (of_poly (equation_of k p) (value k h))) }
{
    let row = one_row(alloc, b.den(), n)?;
    let mut m = Vec::new(alloc);
    m.push(row)?;
    let basis = preimage(alloc, k, &m, b.rows(), n)?;
    let h = basis[0][0].copy(alloc)?;
    Ok(h)
}

/// The members of the lattice that each row of b takes into a.
fn restricted_by_rows<K: SmallField>(
    alloc: Global,
    k: &K,
    p: &Pres,
    a: &Lattice,
    b: &Lattice,
    start: Lattice,
) -> Result<Lattice, AllocError>
    requires p_in { IsPresOver (K.field k.now).ops p.now }
    requires a_form { IsLatticeValue (K.field k.now).ops p.now.n a.now }
    requires b_form { IsLatticeValue (K.field k.now).ops p.now.n b.now }
    requires start_form { IsLatticeValue (K.field k.now).ops p.now.n start }
    ensures form { IfOk result (IsLatticeValue (K.field k.now).ops p.now.n) }
    ensures members { let k = K.field k.now in
        IfOk result (λ l. (z : Functions k p.now) →
        Contains k p.now l z
        ↔ (Contains k p.now start z × All
        (λ w. Contains k p.now a.now ((functions k p.now).◌⊗◌ (function_of k p.now w) z)) (row_elems b.now))) }
{
    let mut found = start;
    for i in 0..b.len() {
        let row = b.row(alloc, i)?;
        found = restricted(alloc, k, p, &found, &row, a)?;
    }
    Ok(found)
}

/// The functions whose products with the members of b are in a. It takes the time of a Popov basis of 2·n rows for each
/// of the n rows of b, where n is the degree in y.
pub fn colon<K: SmallField>(
    alloc: Global,
    k: &K,
    p: &Pres,
    a: &Lattice,
    b: &Lattice,
) -> Result<Lattice, AllocError>
    requires p_in { IsPresOver (K.field k.now).ops p.now }
    requires a_form { IsLatticeValue (K.field k.now).ops p.now.n a.now }
    requires b_form { IsLatticeValue (K.field k.now).ops p.now.n b.now }
    ensures form { IfOk result (IsLatticeValue (K.field k.now).ops p.now.n) }
    ensures members { let k = K.field k.now in
        IfOk result (λ l. (z : Functions k p.now) → Contains k p.now l z ↔ IsColon k p.now a.now b.now z) }
{
    let h = polynomial_in(alloc, k, b, p.n())?;
    let one = Poly::one(alloc)?;
    let start = scale(alloc, k, a, &one, &h)?;
    restricted_by_rows(alloc, k, p, a, b, start)
}
