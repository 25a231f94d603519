//! The greatest power of a prime of an order that has a given member of the order.

ghost use Rattle.std.specs.Prelude.{suc, IfOk, IfSome, IfNone};
ghost use Rattle.function_field.specs.Values.{IsPresOver, IsElem, Functions, functions, function_of};
ghost use Rattle.prime_theory.specs.Ideals.{Power, Invertible};
ghost use Rattle.prime_theory.specs.Places.{IsMaximalIdeal};
ghost use Rattle.ff_lattice.specs.Lattices.{IsLatticeValue, Contains};
ghost use Rattle.ff_lattice.specs.Orders.{IsOrderLattice};
ghost use Rattle.ff_lattice.specs.Colons.{IsColon};

use ff_algebra::elem::mul;
use ff_algebra::{Elem, Pres};
use ff_fields::field::SmallField;
use ff_lattice::{Lattice, Order, contains};
use std::alloc::{AllocError, Global};

/// The first row of the one lattice that isn't in the other; None exactly where each member of the one is in the other.
pub fn outside_row<K: SmallField>(
    alloc: Global,
    k: &K,
    p: &Pres,
    l: &Lattice,
    a: &Lattice,
) -> Result<Option<Elem>, AllocError>
    requires l_form { IsLatticeValue (K.field k.now).ops p.now.n l.now }
    requires a_form { IsLatticeValue (K.field k.now).ops p.now.n a.now }
    ensures in_range { IfOk result (λ r. IfSome r (IsElem (K.field k.now).ops p.now.n)) }
    ensures inside { let k = K.field k.now in
        IfOk result (λ r. IfSome r (λ z. Contains k p.now l.now (function_of k p.now z))) }
    ensures outside { let k = K.field k.now in
        IfOk result (λ r. IfSome r (λ z. ¬ Contains k p.now a.now (function_of k p.now z))) }
    ensures within { let k = K.field k.now in
        IfOk result (λ r. IfNone r ((z : Functions k p.now) → Contains k p.now l.now z → Contains k p.now a.now z)) }
{
    let degree = p.n();
    prove!(degree > 0);
    for i in 0..l.len() {
        let row = l.row(alloc, i)?;
        if !contains(alloc, k, a, &row)? {
            return Ok(Some(row));
        }
    }
    Ok(None)
}

/// The greatest exponent with which a power of an invertible prime has w, a member of the order. By gamma, which takes
/// the prime into the order and isn't in the order, each exponent falls by one. An exponent of 2^32 - 1 or more, which
/// only elements of more codes have, is want of memory; so is w in all powers, as 0 is, after so many turns.
/// It takes the time of a product by gamma and of `contains` for each turn, and one turn more than the answer.
pub fn greatest_exponent<K: SmallField>(
    alloc: Global,
    k: &K,
    p: &Pres,
    o: &Order,
    rows: &Lattice,
    gamma: &Elem,
    w: &Elem,
) -> Result<u32, AllocError>
    requires p_in { IsPresOver (K.field k.now).ops p.now }
    requires order { IsOrderLattice (K.field k.now) p.now o.now }
    requires form { IsLatticeValue (K.field k.now).ops p.now.n rows.now }
    requires maximal { let k = K.field k.now in
        IsMaximalIdeal (functions k p.now).ops (Contains k p.now o.now) (Contains k p.now rows.now) }
    requires invertible { let k = K.field k.now in
        Invertible (functions k p.now).ops (Contains k p.now o.now) (Contains k p.now rows.now) }
    requires gamma_in { IsElem (K.field k.now).ops p.now.n gamma.now }
    requires gamma_takes { let k = K.field k.now in
        IsColon k p.now o.now rows.now (function_of k p.now gamma.now) }
    requires gamma_outside { let k = K.field k.now in ¬ Contains k p.now o.now (function_of k p.now gamma.now) }
    requires w_in { IsElem (K.field k.now).ops p.now.n w.now }
    requires member { let k = K.field k.now in Contains k p.now o.now (function_of k p.now w.now) }
    ensures inside { let k = K.field k.now in
        IfOk result (λ m. Power (functions k p.now).ops (Contains k p.now o.now) (Contains k p.now rows.now) m
        (function_of k p.now w.now)) }
    ensures not_more { let k = K.field k.now in
        IfOk result (λ m. ¬ Power (functions k p.now).ops (Contains k p.now o.now) (Contains k p.now rows.now) (suc m)
        (function_of k p.now w.now)) }
{
    let degree = p.n();
    prove!(degree > 0);
    let mut cur = w.copy(alloc)?;
    for m in 0..u32::MAX {
        if !contains(alloc, k, rows, &cur)? {
            return Ok(m);
        }
        cur = mul(alloc, k, p, gamma, &cur)?;
    }
    Err(AllocError)
}
