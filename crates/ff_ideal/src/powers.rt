//! Powers of ideals of an order with integers as exponents.

ghost use Rattle.std.specs.Prelude.{◌↔◌, ◌<◌, IfOk};
ghost use Rattle.function_field.specs.Values.{IsPresOver, Functions, functions, equation_of};
ghost use Rattle.prime_theory.specs.Ideals.{Power};
ghost use Rattle.ideal_theory.specs.Records.{IsAdmitted};
ghost use Rattle.ff_lattice.specs.Lattices.{IsLatticeValue, Contains};
ghost use Rattle.ff_lattice.specs.Orders.{IsOrderLattice};
ghost use Rattle.ff_ideal.specs.Powers.{IntegerPower};

use crate::inverses::inverse;
use ff_algebra::Pres;
use ff_fields::field::SmallField;
use ff_lattice::{Lattice, Order, product};
use std::alloc::{AllocError, Global};

/// The product of m copies of a lattice that is closed under the order, by squaring: at most twice as many products
/// as m has bits.
fn positive_power<K: SmallField>(
    alloc: Global,
    k: &K,
    p: &Pres,
    o: &Order,
    i: &Lattice,
    m: u64,
) -> Result<Lattice, AllocError>
    requires p_in { IsPresOver (K.field k.now).ops p.now }
    requires order { IsOrderLattice (K.field k.now) p.now o.now }
    requires i_form { IsLatticeValue (K.field k.now).ops p.now.n i.now }
    requires closed { let k = K.field k.now in
        (u v : Functions k p.now) → Contains k p.now o.now u → Contains k p.now i.now v
        → Contains k p.now i.now ((functions k p.now).◌⊗◌ u v) }
    requires some { 0 < m }
    ensures form { IfOk result (IsLatticeValue (K.field k.now).ops p.now.n) }
    ensures members { let k = K.field k.now in
        IfOk result (λ l. (z : Functions k p.now) → Contains k p.now l z
        ↔ Power (functions k p.now).ops (Contains k p.now o.now) (Contains k p.now i.now) m z) }
{
    let degree = p.n();
    prove!(degree > 0);
    if m == 1 {
        return i.copy(alloc);
    }
    let half = positive_power(alloc, k, p, o, i, m / 2)?;
    let square = product(alloc, k, p, &half, &half)?;
    if m % 2 == 0 {
        return Ok(square);
    }
    product(alloc, k, p, i, &square)
}

/// The m-th power of a lattice as of an ideal: the order for m = 0, the product of m copies of the lattice for m > 0,
/// and of -m copies of its inverse for m < 0. The conditions are those of `inverse`. It takes the time of at most twice
/// as many products as m has bits, and for m < 0 that of `inverse`.
pub fn power<K: SmallField>(
    alloc: Global,
    k: &K,
    p: &Pres,
    o: &Order,
    i: &Lattice,
    m: i64,
) -> Result<Lattice, AllocError>
    requires p_in { IsPresOver (K.field k.now).ops p.now }
    requires order { IsOrderLattice (K.field k.now) p.now o.now }
    requires i_form { IsLatticeValue (K.field k.now).ops p.now.n i.now }
    requires closed { let k = K.field k.now in
        (u v : Functions k p.now) → Contains k p.now o.now u → Contains k p.now i.now v
        → Contains k p.now i.now ((functions k p.now).◌⊗◌ u v) }
    requires admitted { let k = K.field k.now in
        IsAdmitted (equation_of k p.now) (Contains k p.now o.now) (Contains k p.now i.now) }
    ensures form { IfOk result (IsLatticeValue (K.field k.now).ops p.now.n) }
    ensures members { let k = K.field k.now in
        IfOk result (λ l. (z : Functions k p.now) → Contains k p.now l z
        ↔ IntegerPower (functions k p.now).ops (Contains k p.now o.now) (Contains k p.now i.now) m z) }
{
    let degree = p.n();
    prove!(degree > 0);
    if m > 0 {
        return positive_power(alloc, k, p, o, i, m.unsigned_abs());
    }
    if m < 0 {
        let j = inverse(alloc, k, p, o, i)?;
        return positive_power(alloc, k, p, o, &j, m.unsigned_abs());
    }
    o.lattice().copy(alloc)
}
