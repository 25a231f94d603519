//! Orders: the lattices that are rings.

ghost use Rattle.std.specs.Prelude.{◌≡◌, ◌↔◌, ◌≤◌, ◌<◌, [], ◌∷◌, All, IfOk, IfSome, IsSome, IsTrue};
ghost use Rattle.ff_fields.specs.Over.{IsOver};
ghost use Rattle.ff_poly.specs.Words.{IsPoly};
ghost use Rattle.ff_poly.specs.Value.{value};
ghost use Rattle.function_field.specs.Functions.{of_poly};
ghost use Rattle.function_field.specs.Values.{PresValue, IsPresOver, IsElem, IsMonicElem, Functions, functions, function_of, equation_of};
ghost use Rattle.ff_lattice.specs.Lattices.{LatticeValue, IsLatticeValue, row_elems};
ghost use Rattle.ff_lattice.specs.Orders.{IsOrderLattice, IsOrderByRows, TakesRowsIn};
ghost use Rattle.ff_lattice.specs.Steps.{unit_row};

use crate::lattice::Lattice;
use crate::rows::{placed_row, unit_row};
use crate::sets::contains;
use ff_algebra::elem::mul;
use ff_algebra::{Elem, Pres};
use ff_fields::field::SmallField;
use ff_poly::Poly;
use std::alloc::{AllocError, Global};
use std::marker::Model;

/// An order of F: a lattice that contains 1 and the products of its members. Which lattices are orders, `Order::new`
/// says.
#[derive(Debug, Drop)]
pub struct Order {
    lattice: Lattice,
}

impl Model for Order {
    ghost use Rattle.ff_lattice.specs.Lattices.{LatticeValue};

    ghost Value = { LatticeValue };

    ghost view = { λ o. o.lattice };
}

/// The element 1, with n numerators.
pub(crate) fn one_elem<K: SmallField>(alloc: Global, k: &K, n: usize) -> Result<Elem, AllocError>
    requires { 1 ≤ n }
    ensures one { let k = K.field k.now in
        IfOk result (λ z. (p : PresValue) → p.n ≡ n → function_of k p z ≡ (functions k p).𝟙) }
    ensures in_range { IfOk result (IsElem (K.field k.now).ops n) }
    ensures monic { IfOk result IsMonicElem }
{
    let num = unit_row(alloc, n, 0)?;
    let den = Poly::one(alloc)?;
    Ok(Elem::over_monic(num, den))
}

/// The polynomial as an element, with n numerators.
pub(crate) fn polynomial_elem<K: SmallField>(
    alloc: Global,
    k: &K,
    n: usize,
    a: Poly,
) -> Result<Elem, AllocError>
    requires positive { 1 ≤ n }
    requires a_in { IsOver (K.field k.now).ops a }
    requires a_poly { IsPoly a }
    ensures is { let k = K.field k.now in
        IfOk result (λ z. (p : PresValue) → p.n ≡ n → function_of k p z ≡ of_poly (equation_of k p) (value k a)) }
    ensures in_range { IfOk result (IsElem (K.field k.now).ops n) }
{
    let num = placed_row(alloc, n, 0, a)?;
    let den = Poly::one(alloc)?;
    Ok(Elem::over_monic(num, den))
}

/// The element y^i, with n numerators, of which there is one for y^i.
pub fn power_of_y<K: SmallField>(
    alloc: Global,
    k: &K,
    n: usize,
    i: usize,
) -> Result<Elem, AllocError>
    requires { i < n }
    ensures row { let k = K.field k.now in
        IfOk result (λ z. (p : PresValue)
        → function_of k p z ≡ function_of k p (record { num = unit_row n i; den = 1 ∷ [] })) }
    ensures in_range { IfOk result (IsElem (K.field k.now).ops n) }
{
    let num = unit_row(alloc, n, i)?;
    let den = Poly::one(alloc)?;
    Ok(Elem::over_monic(num, den))
}

/// Are the products of z and the rows of the lattice members?
pub(crate) fn takes_rows_in<K: SmallField>(
    alloc: Global,
    k: &K,
    p: &Pres,
    l: &Lattice,
    z: &Elem,
) -> Result<bool, AllocError>
    requires p_in { IsPresOver (K.field k.now).ops p.now }
    requires l_form { IsLatticeValue (K.field k.now).ops p.now.n l.now }
    requires z_in { IsElem (K.field k.now).ops p.now.n z.now }
    ensures { let k = K.field k.now in
        IfOk result (λ r. IsTrue r ↔ TakesRowsIn k p.now l.now (function_of k p.now z.now)) }
{
    for j in 0..l.len() {
        let row = l.row(alloc, j)?;
        let product = mul(alloc, k, p, z, &row)?;
        if !contains(alloc, k, l, &product)? {
            return Ok(false);
        }
    }
    Ok(true)
}

/// Are the products of each two rows members?
fn has_products<K: SmallField>(
    alloc: Global,
    k: &K,
    p: &Pres,
    l: &Lattice,
) -> Result<bool, AllocError>
    requires p_in { IsPresOver (K.field k.now).ops p.now }
    requires l_form { IsLatticeValue (K.field k.now).ops p.now.n l.now }
    ensures { let k = K.field k.now in
        IfOk result (λ r. IsTrue r ↔ All (λ z. TakesRowsIn k p.now l.now (function_of k p.now z)) (row_elems l.now)) }
{
    for i in 0..l.len() {
        let row = l.row(alloc, i)?;
        if !takes_rows_in(alloc, k, p, l, &row)? {
            return Ok(false);
        }
    }
    Ok(true)
}

impl Order {
    /// The lattice as an order; None exactly where 1 or a product of two rows isn't a member. It takes the time of n²
    /// products of rows, and of as many questions whether an element is in the lattice.
    pub fn new<K: SmallField>(
        alloc: Global,
        k: &K,
        p: &Pres,
        l: Lattice,
    ) -> Result<Option<Order>, AllocError>
        requires p_in { IsPresOver (K.field k.now).ops p.now }
        requires l_form { IsLatticeValue (K.field k.now).ops p.now.n l }
        ensures decides { IfOk result (λ found. IsSome found ↔ IsOrderLattice (K.field k.now) p.now l) }
        ensures same { IfOk result (λ found. IfSome found (λ o. o ≡ l)) }
    {
        let one = one_elem(alloc, k, p.n())?;
        if !contains(alloc, k, &l, &one)? {
            return Ok(None);
        }
        if !has_products(alloc, k, p, &l)? {
            return Ok(None);
        }
        Ok(Some(Order { lattice: l }))
    }

    /// The order of a lattice that is known to be one. No test is made.
    pub fn of<K: SmallField>(k: &K, p: &Pres, l: Lattice) -> Order
        requires { IsOrderLattice (K.field k.now) p.now l }
        ensures { result ≡ l }
    {
        Order { lattice: l }
    }

    /// The lattice of its members.
    pub fn lattice(&self) -> &Lattice
        ensures { result.now ≡ self.now }
    {
        &self.lattice
    }

    /// An equal order, in memory of its own.
    pub fn copy(&self, alloc: Global) -> Result<Order, AllocError>
        ensures { IfOk result (λ o. o ≡ self.now) }
    {
        let lattice = self.lattice.copy(alloc)?;
        Ok(Order { lattice })
    }
}

/// A lattice is an order exactly where 1 and the products of its rows are members.
pub fn order_by_rows<K: SmallField>(k: &K, p: &Pres, l: &Lattice)
    requires { IsLatticeValue (K.field k.now).ops p.now.n l.now }
    ensures { let k = K.field k.now in IsOrderLattice k p.now l.now ↔ IsOrderByRows k p.now l.now }
{}
