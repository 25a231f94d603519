//! The enlargement of an order at irreducible polynomials by the multipliers of its radicals.

ghost use Rattle.std.specs.Prelude.{◌≡◌, ◌↔◌, ◌<ℤ◌, map, All, IfOk};
ghost use Rattle.ff_fields.specs.Over.{IsOver};
ghost use Rattle.ff_poly.specs.Words.{IsIrreducibleList};
ghost use Rattle.ff_poly.specs.Value.{value};
ghost use Rattle.ff_poly.specs.Polynomials.{polynomials};
ghost use Rattle.function_field.specs.declared.side.Side.TheVariants.{Finite};
ghost use Rattle.function_field.specs.Functions.{of_poly};
ghost use Rattle.function_field.specs.Discriminant.{discriminant};
ghost use Rattle.function_field.specs.Places.{IsIntegralAt};
ghost use Rattle.function_field.specs.Values.{IsPresOver, Functions, functions, equation_of, setting};
ghost use Rattle.prime_theory.specs.Orders.{MaximalAt};
ghost use Rattle.ff_lattice.specs.Lattices.{Contains, pivot_degree_of};
ghost use Rattle.ff_lattice.specs.Orders.{IsOrderLattice};
ghost use Rattle.ff_lattice.specs.Quotients.{IsIdealLattice};
ghost use Rattle.ff_lattice.specs.Colons.{IsColon};
ghost use Rattle.order_theory.specs.Orders.{TakenByPowers};
ghost use Rattle.ff_order.specs.Enlargements.{TakenByProducts};

use crate::radicals::radical;
use ff_algebra::Pres;
use ff_fields::field::SmallField;
use ff_lattice::colons::colon;
use ff_lattice::sets::same_lattice;
use ff_lattice::{Lattice, Order};
use ff_poly::Poly;
use std::alloc::{AllocError, Global};

/// The functions whose products with the members of an ideal of the order are in the ideal. It takes the time of
/// `colon`.
pub fn multiplier<K: SmallField>(
    alloc: Global,
    k: &K,
    p: &Pres,
    o: &Order,
    i: &Lattice,
) -> Result<Order, AllocError>
    requires p_in { IsPresOver (K.field k.now).ops p.now }
    requires ideal { IsIdealLattice (K.field k.now) p.now o.now i.now }
    ensures order { IfOk result (IsOrderLattice (K.field k.now) p.now) }
    ensures members { let k = K.field k.now in
        IfOk result (λ m. (z : Functions k p.now) → Contains k p.now m z ↔ IsColon k p.now i.now i.now z) }
{
    let multipliers = colon(alloc, k, p, i, i)?;
    Ok(Order::of(k, p, multipliers))
}

/// One turn of the enlargement at an irreducible monic polynomial: the multipliers of the radical of the order there. A
/// turn enlarges the order and lowers its pivot degree; where the multipliers are the order itself, it is maximal at
/// the polynomial. It takes the time of `radical` and of `multiplier`.
pub fn enlarged<K: SmallField>(
    alloc: Global,
    k: &K,
    p: &Pres,
    o: &Order,
    pi: &Poly,
) -> Result<Order, AllocError>
    requires p_in { IsPresOver (K.field k.now).ops p.now }
    requires order { IsOrderLattice (K.field k.now) p.now o.now }
    requires pi_in { IsOver (K.field k.now).ops pi.now }
    requires irreducible { IsIrreducibleList (K.field k.now).ops pi.now }
    ensures order { IfOk result (IsOrderLattice (K.field k.now) p.now) }
    ensures enlarges { let k = K.field k.now in
        IfOk result (λ m. (z : Functions k p.now) → Contains k p.now o.now z → Contains k p.now m z) }
    ensures lowers { IfOk result (λ m. ¬ (m ≡ o.now) → pivot_degree_of m <ℤ pivot_degree_of o.now) }
    ensures last { let k = K.field k.now in
        IfOk result (λ m. m ≡ o.now → MaximalAt (functions k p.now).ops (of_poly (equation_of k p.now) (value k pi.now))
        (IsIntegralAt (setting k p.now) Finite) (Contains k p.now o.now)) }
    ensures taken { let k = K.field k.now in
        IfOk result (λ m. (z : Functions k p.now) →
        Contains k p.now m z → TakenByPowers (equation_of k p.now) (value k pi.now) (Contains k p.now o.now) z) }
{
    let degree = p.n();
    prove!(degree > 0);
    let i = radical(alloc, k, p, o, pi)?;
    multiplier(alloc, k, p, o, &i)
}

/// The integral functions that a power of an irreducible monic polynomial takes into the order. The discriminant isn't
/// 0.
/// It takes the time of a radical and its multipliers for each turn; each turn but the last enlarges the order.
pub fn p_maximal<K: SmallField>(
    alloc: Global,
    k: &K,
    p: &Pres,
    o: &Order,
    pi: &Poly,
) -> Result<Order, AllocError>
    requires p_in { IsPresOver (K.field k.now).ops p.now }
    requires some { let k = K.field k.now in ¬ (discriminant (equation_of k p.now) ≡ (polynomials k).𝟘) }
    requires order { IsOrderLattice (K.field k.now) p.now o.now }
    requires pi_in { IsOver (K.field k.now).ops pi.now }
    requires irreducible { IsIrreducibleList (K.field k.now).ops pi.now }
    ensures order { IfOk result (IsOrderLattice (K.field k.now) p.now) }
    ensures members { let k = K.field k.now in
        IfOk result (λ m. (z : Functions k p.now) →
        Contains k p.now m z ↔ TakenByPowers (equation_of k p.now) (value k pi.now) (Contains k p.now o.now) z) }
{
    let degree = p.n();
    prove!(degree > 0);
    let mut cur = o.copy(alloc)?;
    'turns: loop {
        let next = enlarged(alloc, k, p, &cur, pi)?;
        if same_lattice(alloc, k, next.lattice(), cur.lattice())? {
            return Ok(cur);
        }
        cur = next;
    }
}

/// The integral functions that a product of powers of irreducible monic polynomials takes into the order. The
/// discriminant isn't 0. It takes the time of `p_maximal` for each of the polynomials.
pub fn maximal<K: SmallField>(
    alloc: Global,
    k: &K,
    p: &Pres,
    o: &Order,
    primes: &[Poly],
) -> Result<Order, AllocError>
    requires p_in { IsPresOver (K.field k.now).ops p.now }
    requires some { let k = K.field k.now in ¬ (discriminant (equation_of k p.now) ≡ (polynomials k).𝟘) }
    requires order { IsOrderLattice (K.field k.now) p.now o.now }
    requires primes_in { All (IsOver (K.field k.now).ops) primes.now }
    requires irreducible { All (IsIrreducibleList (K.field k.now).ops) primes.now }
    ensures order { IfOk result (IsOrderLattice (K.field k.now) p.now) }
    ensures members { let k = K.field k.now in
        IfOk result (λ m. (z : Functions k p.now) →
        Contains k p.now m z ↔ TakenByProducts (equation_of k p.now) (map (value k) primes.now) (Contains k p.now o.now)
        z) }
{
    let degree = p.n();
    prove!(degree > 0);
    let mut cur = o.copy(alloc)?;
    for pi in primes {
        cur = p_maximal(alloc, k, p, &cur, pi)?;
    }
    Ok(cur)
}
