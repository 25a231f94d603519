//! Which lattices are ideals of an order.

ghost use Rattle.std.specs.Prelude.{◌↔◌, All, IfOk, IsTrue};
ghost use Rattle.function_field.specs.Values.{IsPresOver, function_of};
ghost use Rattle.ff_lattice.specs.Lattices.{IsLatticeValue, Contains, row_elems};
ghost use Rattle.ff_lattice.specs.Orders.{IsOrderLattice, TakesRowsIn};
ghost use Rattle.ff_lattice.specs.Quotients.{IsIdealLattice};

use crate::lattice::Lattice;
use crate::order::{Order, takes_rows_in};
use crate::sets::contains;
use ff_algebra::Pres;
use ff_fields::field::SmallField;
use std::alloc::{AllocError, Global};

/// Are the rows of i members of l?
fn has_rows<K: SmallField>(
    alloc: Global,
    k: &K,
    p: &Pres,
    l: &Lattice,
    i: &Lattice,
) -> Result<bool, AllocError>
    requires l_form { IsLatticeValue (K.field k.now).ops p.now.n l.now }
    requires i_form { IsLatticeValue (K.field k.now).ops p.now.n i.now }
    ensures { let k = K.field k.now in
        IfOk result (λ r. IsTrue r ↔ All (λ w. Contains k p.now l.now (function_of k p.now w)) (row_elems i.now)) }
{
    for j in 0..i.len() {
        let row = i.row(alloc, j)?;
        if !contains(alloc, k, l, &row)? {
            return Ok(false);
        }
    }
    Ok(true)
}

/// Are the products of the rows of l and those of i members of i?
fn takes_rows<K: SmallField>(
    alloc: Global,
    k: &K,
    p: &Pres,
    l: &Lattice,
    i: &Lattice,
) -> Result<bool, AllocError>
    requires p_in { IsPresOver (K.field k.now).ops p.now }
    requires l_form { IsLatticeValue (K.field k.now).ops p.now.n l.now }
    requires i_form { IsLatticeValue (K.field k.now).ops p.now.n i.now }
    ensures { let k = K.field k.now in
        IfOk result (λ r. IsTrue r ↔ All (λ z. TakesRowsIn k p.now i.now (function_of k p.now z)) (row_elems l.now)) }
{
    for j in 0..l.len() {
        let row = l.row(alloc, j)?;
        if !takes_rows_in(alloc, k, p, i, &row)? {
            return Ok(false);
        }
    }
    Ok(true)
}

/// Is the lattice an ideal of the order? It takes the time of n² products of rows, and of n² + n questions whether an
/// element is in a lattice, where n is the degree in y.
pub fn is_ideal<K: SmallField>(
    alloc: Global,
    k: &K,
    p: &Pres,
    o: &Order,
    i: &Lattice,
) -> Result<bool, AllocError>
    requires p_in { IsPresOver (K.field k.now).ops p.now }
    requires order { IsOrderLattice (K.field k.now) p.now o.now }
    requires i_form { IsLatticeValue (K.field k.now).ops p.now.n i.now }
    ensures { IfOk result (λ r. IsTrue r ↔ IsIdealLattice (K.field k.now) p.now o.now i.now) }
{
    let l = o.lattice();
    if !has_rows(alloc, k, p, l, i)? {
        return Ok(false);
    }
    takes_rows(alloc, k, p, l, i)
}
