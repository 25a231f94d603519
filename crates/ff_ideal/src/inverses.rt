//! Inverses of ideals of an order, and of what else is closed under it.

ghost use Rattle.std.specs.Prelude.{◌↔◌, IfOk};
ghost use Rattle.ring_theory.specs.Subsets.{Product};
ghost use Rattle.function_field.specs.Values.{IsPresOver, Functions, functions, equation_of};
ghost use Rattle.prime_theory.specs.Ideals.{SameSet};
ghost use Rattle.ideal_theory.specs.Records.{IsAdmitted};
ghost use Rattle.ff_lattice.specs.Lattices.{IsLatticeValue, Contains};
ghost use Rattle.ff_lattice.specs.Orders.{IsOrderLattice};
ghost use Rattle.ff_lattice.specs.Colons.{IsColon};

use ff_algebra::Pres;
use ff_fields::field::SmallField;
use ff_lattice::{Lattice, Order, colon};
use std::alloc::{AllocError, Global};

/// The functions whose products with the members of the lattice are in the order; the product of the two is the order.
/// The lattice is closed under multiplication by the order, and at each irreducible polynomial where it isn't the
/// order, the order is maximal. It takes the time of `colon`.
pub fn inverse<K: SmallField>(
    alloc: Global,
    k: &K,
    p: &Pres,
    o: &Order,
    i: &Lattice,
) -> Result<Lattice, AllocError>
    requires p_in { IsPresOver (K.field k.now).ops p.now }
    requires order { IsOrderLattice (K.field k.now) p.now o.now }
    requires i_form { IsLatticeValue (K.field k.now).ops p.now.n i.now }
    requires closed { let k = K.field k.now in
        (u v : Functions k p.now) → Contains k p.now o.now u → Contains k p.now i.now v
        → Contains k p.now i.now ((functions k p.now).◌⊗◌ u v) }
    requires admitted { let k = K.field k.now in
        IsAdmitted (equation_of k p.now) (Contains k p.now o.now) (Contains k p.now i.now) }
    ensures form { IfOk result (IsLatticeValue (K.field k.now).ops p.now.n) }
    ensures members { let k = K.field k.now in
        IfOk result (λ l. (z : Functions k p.now) → Contains k p.now l z ↔ IsColon k p.now o.now i.now z) }
    ensures product { let k = K.field k.now in
        IfOk result (λ l. SameSet
        (Product (functions k p.now).ops (Contains k p.now l) (Contains k p.now i.now)) (Contains k p.now o.now)) }
{
    let degree = p.n();
    prove!(degree > 0);
    colon(alloc, k, p, o.lattice(), i)
}
