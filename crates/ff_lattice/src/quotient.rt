//! Quotients of orders by ideals, as finite algebras.

ghost use Rattle.std.specs.Prelude.{◌≡◌, ◌↔◌, ◌<◌, length, map, All, IfOk};
ghost use Rattle.ff_fields.specs.Over.{IsOver};
ghost use Rattle.ff_poly.specs.Polynomials.{x_poly};
ghost use Rattle.ff_poly.specs.Popov.{rows_of, IsRow, IsPopovMatrix};
ghost use Rattle.function_field.specs.Functions.{of_poly};
ghost use Rattle.function_field.specs.Values.{IsPres, IsPresOver, Functions, functions, function_of, equation_of, IsElem};
ghost use Rattle.ff_falg.specs.Algebras.{IsVector};
ghost use Rattle.ff_lattice.specs.Lattices.{IsLatticeValue, Contains, InSpanOf, elems_over};
ghost use Rattle.ff_lattice.specs.Orders.{IsOrderLattice};
ghost use Rattle.ff_lattice.specs.Quotients.{QuotientValue, IsQuotient, IsQuotientOver, IsClassOf, IsRowOf, IsRowsOf, IsIdealLattice, AreCodesOf, AreRowProducts, AreProducts, HasClasses, dimension, lifted, class_algebra, spread};

use crate::denominators::row_quotient;
use crate::lattice::Lattice;
use crate::operations::{push_products, push_rows};
use crate::order::{Order, one_elem, polynomial_elem};
use crate::positions::{deepest, read_codes, spread_codes};
use crate::rows::{copy_matrices, copy_rows, multiple_row};
use ff_algebra::{Elem, Pres};
use ff_falg::FiniteAlgebra;
use ff_fields::field::SmallField;
use ff_poly::Poly;
use ff_poly::poly::shift;
use ff_popov::popov;
use std::alloc::{AllocError, Global};
use std::marker::Model;

/// An order modulo an ideal, as a finite algebra over the field that it was made over. A class is a list of codes.
#[derive(Debug, Drop)]
pub struct Quotient {
    p: Pres,
    order: Order,
    ideal: Lattice,
    rows: Vec<Vec<Poly>>,
    depth: usize,
    products: Vec<Vec<Vec<Poly>>>,
    one: Vec<u32>,
}

impl Model for Quotient {
    ghost use Rattle.std.specs.Prelude.{◌≡◌, length, map};
    ghost use Rattle.ff_poly.specs.Popov.{rows_of};
    ghost use Rattle.ff_lattice.specs.Quotients.{QuotientValue, dimension};

    ghost Value = { QuotientValue };

    ghost view = { λ q. record {
      p = q.p;
      order = q.order;
      ideal = q.ideal;
      rows = rows_of q.rows.items;
      depth =
          q.depth;
      products = map (λ m. rows_of m.items) q.products.items;
      one = q.one.items;
    } };

    ghost invariant = { λ q. length q.one.items
        ≡ dimension (record {
          p = q.p;
          order = q.order;
          ideal = q.ideal;
          rows = rows_of q.rows.items;
          depth = q.depth;
          products = map (λ m. rows_of m.items) q.products.items;
          one = q.one.items;
        }) };
}

/// The row that stands for z, which is in the lattice, over the lattice's denominator.
fn row_over<K: SmallField>(
    alloc: Global,
    k: &K,
    p: &Pres,
    l: &Lattice,
    z: &Elem,
) -> Result<Vec<Poly>, AllocError>
    requires l_form { IsLatticeValue (K.field k.now).ops p.now.n l.now }
    requires z_in { IsElem (K.field k.now).ops p.now.n z.now }
    requires member { let k = K.field k.now in Contains k p.now l.now (function_of k p.now z.now) }
    ensures { let k = K.field k.now in
        IfOk result (λ row. IsRowOf k p.now l.now (function_of k p.now z.now) row.items) }
{
    let v = multiple_row(alloc, k, l.den(), z.num())?;
    let row = row_quotient(alloc, k, z.den(), &v)?;
    Ok(row)
}

/// The rows that stand for members of the lattice, over its denominator.
fn rows_over<K: SmallField>(
    alloc: Global,
    k: &K,
    p: &Pres,
    l: &Lattice,
    zs: &[Elem],
) -> Result<Vec<Vec<Poly>>, AllocError>
    requires l_form { IsLatticeValue (K.field k.now).ops p.now.n l.now }
    requires zs_in { All (IsElem (K.field k.now).ops p.now.n) zs.now }
    requires members { let k = K.field k.now in All (λ z. Contains k p.now l.now (function_of k p.now z)) zs.now }
    ensures { let k = K.field k.now in IfOk result (λ rows. IsRowsOf k p.now l.now zs.now (rows_of rows.items)) }
{
    let mut rows = Vec::new(alloc);
    for z in zs {
        rows.push(row_over(alloc, k, p, l, z)?)?;
    }
    Ok(rows)
}

/// The codes of z, which is in the order, modulo the ideal that has these rows over the order's denominator, with
/// pivots at most so long.
fn codes_of<K: SmallField>(
    alloc: Global,
    k: &K,
    p: &Pres,
    l: &Lattice,
    rows: &[Vec<Poly>],
    depth: usize,
    z: &Elem,
) -> Result<Vec<u32>, AllocError>
    requires l_form { IsLatticeValue (K.field k.now).ops p.now.n l.now }
    requires rows_in { All (IsRow (K.field k.now).ops p.now.n) (rows_of rows.now) }
    requires rows_popov { IsPopovMatrix p.now.n (rows_of rows.now) }
    requires z_in { IsElem (K.field k.now).ops p.now.n z.now }
    requires member { let k = K.field k.now in Contains k p.now l.now (function_of k p.now z.now) }
    ensures { let k = K.field k.now in
        IfOk result (λ v. AreCodesOf k p.now l.now (rows_of rows.now) depth (function_of k p.now z.now) v.items) }
{
    let mut row = row_over(alloc, k, p, l, z)?;
    let codes = read_codes(alloc, k, &mut row, l.rows(), rows, depth)?;
    Ok(codes)
}

/// The codes of 1.
fn unit_codes<K: SmallField>(
    alloc: Global,
    k: &K,
    p: &Pres,
    l: &Lattice,
    rows: &[Vec<Poly>],
    depth: usize,
) -> Result<Vec<u32>, AllocError>
    requires order { IsOrderLattice (K.field k.now) p.now l.now }
    requires rows_in { All (IsRow (K.field k.now).ops p.now.n) (rows_of rows.now) }
    requires rows_popov { IsPopovMatrix p.now.n (rows_of rows.now) }
    ensures codes { let k = K.field k.now in
        IfOk result (λ v. AreCodesOf k p.now l.now (rows_of rows.now) depth (functions k p.now).𝟙 v.items) }
    ensures range { IfOk result (λ v. IsPres p.now) }
{
    let unit = one_elem(alloc, k, p.n())?;
    codes_of(alloc, k, p, l, rows, depth, &unit)
}

/// The Popov basis of the ideal's rows over the denominator of the order.
fn ideal_basis<K: SmallField>(
    alloc: Global,
    k: &K,
    p: &Pres,
    l: &Lattice,
    i: &Lattice,
) -> Result<Vec<Vec<Poly>>, AllocError>
    requires l_form { IsLatticeValue (K.field k.now).ops p.now.n l.now }
    requires ideal { IsIdealLattice (K.field k.now) p.now l.now i.now }
    ensures rows_in { IfOk result (λ rows. All (IsRow (K.field k.now).ops p.now.n) (rows_of rows.items)) }
    ensures popov { IfOk result (λ rows. IsPopovMatrix p.now.n (rows_of rows.items)) }
    ensures members { let k = K.field k.now in
        IfOk result (λ rows. (z : Functions k p.now)
        → Contains k p.now i.now z ↔ InSpanOf k p.now (elems_over (rows_of rows.items) l.now.den) z) }
{
    let mut gens = Vec::new(alloc);
    push_rows(alloc, &mut gens, i)?;
    let rows = rows_over(alloc, k, p, l, &gens)?;
    match popov(alloc, k, rows, p.n())? {
        None => unreachable!(),
        Some(basis) => Ok(basis),
    }
}

/// The rows that stand for the products of row i of the order by the rows.
fn products_of_row<K: SmallField>(
    alloc: Global,
    k: &K,
    p: &Pres,
    l: &Lattice,
    i: usize,
) -> Result<Vec<Vec<Poly>>, AllocError>
    requires p_in { IsPresOver (K.field k.now).ops p.now }
    requires order { IsOrderLattice (K.field k.now) p.now l.now }
    requires in_rows { i < length l.now.rows }
    ensures { let k = K.field k.now in IfOk result (λ rows. AreRowProducts k p.now l.now i (rows_of rows.items)) }
{
    let row = l.row(alloc, i)?;
    let mut gens = Vec::new(alloc);
    push_products(alloc, k, p, &mut gens, &row, l)?;
    rows_over(alloc, k, p, l, &gens)
}

/// For each row of the order the rows that stand for its products by the rows.
fn product_rows<K: SmallField>(
    alloc: Global,
    k: &K,
    p: &Pres,
    l: &Lattice,
) -> Result<Vec<Vec<Vec<Poly>>>, AllocError>
    requires p_in { IsPresOver (K.field k.now).ops p.now }
    requires order { IsOrderLattice (K.field k.now) p.now l.now }
    ensures { let k = K.field k.now in
        IfOk result (λ ms. AreProducts k p.now l.now (length l.now.rows) (map (λ m. rows_of m.items) ms.items)) }
{
    let mut products = Vec::new(alloc);
    for i in 0..l.len() {
        products.push(products_of_row(alloc, k, p, l, i)?)?;
    }
    Ok(products)
}

impl Quotient {
    /// The order modulo the ideal. It takes the time of n² products of rows, and of the Popov basis of the ideal.
    pub fn new<K: SmallField>(
        alloc: Global,
        k: &K,
        p: &Pres,
        o: &Order,
        i: &Lattice,
    ) -> Result<Quotient, AllocError>
        requires p_in { IsPresOver (K.field k.now).ops p.now }
        requires order { IsOrderLattice (K.field k.now) p.now o.now }
        requires ideal { IsIdealLattice (K.field k.now) p.now o.now i.now }
        ensures p { IfOk result (λ q. q.p ≡ p.now) }
        ensures order { IfOk result (λ q. q.order ≡ o.now) }
        ensures ideal { IfOk result (λ q. q.ideal ≡ i.now) }
        ensures quotient { IfOk result (IsQuotient (K.field k.now)) }
        ensures over { IfOk result (IsQuotientOver (K.field k.now)) }
    {
        let l = o.lattice();
        let rows = ideal_basis(alloc, k, p, l, i)?;
        let depth = deepest(k, &rows);
        let one = unit_codes(alloc, k, p, l, &rows, depth)?;
        let products = product_rows(alloc, k, p, l)?;
        let p = p.copy(alloc)?;
        let order = o.copy(alloc)?;
        let ideal = i.copy(alloc)?;
        Ok(Quotient {
            p,
            order,
            ideal,
            rows,
            depth,
            products,
            one,
        })
    }

    /// An equal quotient, in memory of its own.
    pub fn copy(&self, alloc: Global) -> Result<Quotient, AllocError>
        ensures { IfOk result (λ q. q ≡ self.now) }
    {
        let rows = copy_rows(alloc, &self.rows)?;
        let products = copy_matrices(alloc, &self.products)?;
        let one = Vec::from_slice(alloc, &self.one)?;
        let p = self.p.copy(alloc)?;
        let order = self.order.copy(alloc)?;
        let ideal = self.ideal.copy(alloc)?;
        Ok(Quotient {
            p,
            order,
            ideal,
            rows,
            depth: self.depth,
            products,
            one,
        })
    }

    /// The presentation.
    pub fn p(&self) -> &Pres
        ensures { result.now ≡ self.now.p }
    {
        &self.p
    }

    /// The order.
    pub fn order(&self) -> &Order
        ensures { result.now ≡ self.now.order }
    {
        &self.order
    }

    /// The ideal.
    pub fn ideal(&self) -> &Lattice
        ensures { result.now ≡ self.now.ideal }
    {
        &self.ideal
    }

    /// The codes of the class of a member of the order. It takes the time of one row division, and of two subtractions
    /// of rows for each position of the row.
    pub fn reduce<K: SmallField>(
        &self,
        alloc: Global,
        k: &K,
        z: &Elem,
    ) -> Result<Vec<u32>, AllocError>
        requires over { IsQuotient (K.field k.now) self.now }
        requires z_in { IsElem (K.field k.now).ops self.now.p.n z.now }
        requires member { let k = K.field k.now in Contains k self.now.p self.now.order
            (function_of k self.now.p z.now) }
        ensures { let k = K.field k.now in
            IfOk result (λ a. IsClassOf k self.now (function_of k self.now.p z.now) a.items) }
    {
        let l = self.order.lattice();
        codes_of(alloc, k, &self.p, l, &self.rows, self.depth, z)
    }

    /// The codes of the class of x, which is in every order.
    pub fn class_of_x<K: SmallField>(&self, alloc: Global, k: &K) -> Result<Vec<u32>, AllocError>
        requires { IsQuotient (K.field k.now) self.now }
        ensures { let k = K.field k.now in
            IfOk result (λ a. IsClassOf k self.now (of_poly (equation_of k self.now.p) (x_poly k)) a.items) }
    {
        let one = Poly::one(alloc)?;
        let x = shift(alloc, &one, 1)?;
        let z = polynomial_elem(alloc, k, self.p.n(), x)?;
        self.reduce(alloc, k, &z)
    }

    /// The combination of rows by the codes.
    fn spread<K: SmallField>(
        &self,
        alloc: Global,
        k: &K,
        rows: &[Vec<Poly>],
        a: &[u32],
    ) -> Result<Vec<Poly>, AllocError>
        requires over { IsQuotient (K.field k.now) self.now }
        requires rows_in { All (IsRow (K.field k.now).ops self.now.p.n) (rows_of rows.now) }
        requires rows_size { length rows.now ≡ self.now.p.n }
        requires a_in { IsVector (K.field k.now).ops (dimension self.now) a.now }
        ensures { IfOk result (λ v. v.items ≡ spread (K.field k.now).ops self.now (rows_of rows.now) a.now) }
    {
        let l = self.order.lattice();
        let row = spread_codes(alloc, k, l.rows(), &self.rows, self.depth, rows, a)?;
        Ok(row)
    }

    /// A member of the order of the class with these codes, of which there are as many as the dimension. It takes the
    /// time of a subtraction of rows for each code.
    pub fn lift<K: SmallField>(&self, alloc: Global, k: &K, a: &[u32]) -> Result<Elem, AllocError>
        requires over { IsQuotient (K.field k.now) self.now }
        requires a_in { IsVector (K.field k.now).ops (dimension self.now) a.now }
        ensures lifted { let k = K.field k.now in
            IfOk result (λ z. function_of k self.now.p z ≡ function_of k self.now.p (lifted k.ops self.now a.now)) }
        ensures member { let k = K.field k.now in
            IfOk result (λ z. Contains k self.now.p self.now.order (function_of k self.now.p z)) }
        ensures in_range { IfOk result (IsElem (K.field k.now).ops self.now.p.n) }
    {
        let l = self.order.lattice();
        let num = self.spread(alloc, k, l.rows(), a)?;
        let den = l.den().copy(alloc)?;
        Ok(Elem::over_monic(num, den))
    }
}

impl Quotient {
    /// For each row of the order the combination by the codes of its products by the rows.
    fn multiples<K: SmallField>(
        &self,
        alloc: Global,
        k: &K,
        b: &[u32],
    ) -> Result<Vec<Vec<Poly>>, AllocError>
        requires over { IsQuotient (K.field k.now) self.now }
        requires b_in { IsVector (K.field k.now).ops (dimension self.now) b.now }
        ensures { let k = K.field k.now in
            IfOk result (λ v. rows_of v.items ≡ map (λ rows. spread k.ops self.now rows b.now) self.now.products) }
    {
        let mut multiples = Vec::new(alloc);
        for i in 0..self.products.len() {
            multiples.push(self.spread(alloc, k, &self.products[i], b)?)?;
        }
        Ok(multiples)
    }
}

impl<K: SmallField> FiniteAlgebra<K> for Quotient {
    ghost algebra = { class_algebra };

    ghost IsOver = { λ q k. IsQuotientOver k q };

    ghost laws = { λ q k over. over.algebra };

    fn dim(&self) -> usize {
        self.one.len()
    }

    fn one(&self, alloc: Global) -> Result<Vec<u32>, AllocError> {
        let codes = Vec::from_slice(alloc, &self.one)?;
        Ok(codes)
    }

    fn mul(&self, alloc: Global, k: &K, a: &[u32], b: &[u32]) -> Result<Vec<u32>, AllocError> {
        let multiples = self.multiples(alloc, k, b)?;
        let mut row = self.spread(alloc, k, &multiples, a)?;
        let rows = self.order.lattice().rows();
        let codes = read_codes(alloc, k, &mut row, rows, &self.rows, self.depth)?;
        Ok(codes)
    }

    /// The class of x: where the ideal is generated by a polynomial, it leads from each class x^s·w of the basis to the
    /// next.
    fn generator(&self, alloc: Global, k: &K) -> Result<Vec<u32>, AllocError> {
        self.class_of_x(alloc, k)
    }
}

/// Taking classes keeps sums, products and 1, and takes exactly the ideal to 0; each class has one list of codes.
pub fn classes_law<K: SmallField>(k: &K, q: &Quotient)
    requires { IsQuotient (K.field k.now) q.now }
    ensures { HasClasses (K.field k.now) q.now }
{}

/// A presentation, an order and an ideal have one quotient over a field: all that it keeps is the same.
pub fn one_quotient<K: SmallField>(k: &K, q: &Quotient, r: &Quotient)
    requires q_over { IsQuotient (K.field k.now) q.now }
    requires r_over { IsQuotient (K.field k.now) r.now }
    requires p { q.now.p ≡ r.now.p }
    requires order { q.now.order ≡ r.now.order }
    requires ideal { q.now.ideal ≡ r.now.ideal }
    ensures { q.now ≡ r.now }
{}

/// A quotient is a commutative algebra with unit over the field that it was made over.
pub fn quotient_law<K: SmallField>(k: &K, q: &Quotient)
    requires { IsQuotient (K.field k.now) q.now }
    ensures { IsQuotientOver (K.field k.now) q.now }
{}
