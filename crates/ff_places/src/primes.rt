//! The primes of an order that is maximal at a polynomial.

ghost use Rattle.std.specs.Prelude.{◌≡◌, ◌↔◌, suc, ◌<◌, ◌^◌, pos, ◌-ℤ◌, length, All, IfOk};
ghost use Rattle.std.specs.List.{AllZip};
ghost use Rattle.ff_poly.specs.Value.{value};
ghost use Rattle.function_field.specs.Functions.{of_poly};
ghost use Rattle.function_field.specs.Values.{IsPresOver, Functions, functions, equation_of};
ghost use Rattle.ff_falg.specs.Idempotents.{elements_of};
ghost use Rattle.ff_lattice.specs.Lattices.{IsLatticeValue, Contains, pivot_degree_of};
ghost use Rattle.ff_lattice.specs.Colons.{IsColon};
ghost use Rattle.ff_lattice.specs.Quotients.{IsQuotientOver, IsIdealLattice};
ghost use Rattle.prime_theory.specs.Ideals.{SameSet, Multiple, Power};
ghost use Rattle.prime_theory.specs.Places.{IsMaximalIdeal};
ghost use Rattle.value_theory.specs.Primes.{IsPrimeOf};
ghost use Rattle.decomposition_theory.specs.Decompositions.{IsMaximalOrderAt, IsComponentPrime};
ghost use Rattle.decomposition_theory.specs.Laws.{IsPrimeSystem};
ghost use Rattle.ff_places.specs.Steps.{IsIdealAbove, HasComponent};

use crate::components::component;
use ff_algebra::{Pres, Side};
use ff_falg::{fixed_by, frobenius, idempotents_by};
use ff_fields::field::SmallField;
use ff_ideal::valuations::polynomial_elem;
use ff_ideal::{Prime, greatest_exponent, outside_row};
use ff_lattice::{Lattice, Order, Quotient, colon};
use ff_order::{multiples, radical_by};
use ff_poly::Poly;
use std::alloc::{AllocError, Global};

/// The pivot degree of the one lattice less that of the other. A number that isn't below 2^32 is want of memory.
fn relative_degree(l: &Lattice, a: &Lattice) -> Result<u32, AllocError>
    requires few { length l.now.rows < 2 ^ 62 }
    requires few_others { length a.now.rows < 2 ^ 62 }
    ensures { IfOk result (λ d. pos d ≡ pivot_degree_of l.now -ℤ pivot_degree_of a.now) }
{
    let Some(degree) = l.pivot_degree().checked_sub(a.pivot_degree()) else {
        return Err(AllocError);
    };
    let Ok(degree) = u32::try_from(degree) else {
        return Err(AllocError);
    };
    Ok(degree)
}

/// The greatest exponent with which a power of a prime of the order has the polynomial.
fn ramification<K: SmallField>(
    alloc: Global,
    k: &K,
    p: &Pres,
    o: &Order,
    pi: &Poly,
    rows: &Lattice,
    inverse: &Lattice,
) -> Result<u32, AllocError>
    requires p_in { IsPresOver (K.field k.now).ops p.now }
    requires order { IsMaximalOrderAt (K.field k.now) p.now o.now pi.now }
    requires ideal { IsIdealLattice (K.field k.now) p.now o.now rows.now }
    requires maximal { let k = K.field k.now in
        IsMaximalIdeal (functions k p.now).ops (Contains k p.now o.now) (Contains k p.now rows.now) }
    requires over { let k = K.field k.now in
        Contains k p.now rows.now (of_poly (equation_of k p.now) (value k pi.now)) }
    requires inverse_form { IsLatticeValue (K.field k.now).ops p.now.n inverse.now }
    requires inverse { let k = K.field k.now in
        (z : Functions k p.now) → Contains k p.now inverse.now z ↔ IsColon k p.now o.now rows.now z }
    ensures inside { let k = K.field k.now in
        IfOk result (λ m. Power (functions k p.now).ops (Contains k p.now o.now) (Contains k p.now rows.now) m
        (of_poly (equation_of k p.now) (value k pi.now))) }
    ensures not_more { let k = K.field k.now in
        IfOk result (λ m. ¬ Power (functions k p.now).ops (Contains k p.now o.now) (Contains k p.now rows.now) (suc m)
        (of_poly (equation_of k p.now) (value k pi.now))) }
{
    let degree = p.n();
    prove!(degree > 0);
    let gamma = match outside_row(alloc, k, p, inverse, o.lattice())? {
        Some(row) => row,
        None => unreachable!(),
    };
    let w = polynomial_elem(alloc, k, degree, pi.copy(alloc)?)?;
    greatest_exponent(alloc, k, p, o, rows, &gamma, &w)
}

/// The prime with these rows, which are a maximal ideal of the order with the polynomial. It takes the time of `colon`,
/// and of a product of elements for each turn up to the ramification index.
fn prime_of_rows<K: SmallField>(
    alloc: Global,
    k: &K,
    p: &Pres,
    o: &Order,
    side: Side,
    pi: &Poly,
    rows: Lattice,
) -> Result<Prime, AllocError>
    requires p_in { IsPresOver (K.field k.now).ops p.now }
    requires order { IsMaximalOrderAt (K.field k.now) p.now o.now pi.now }
    requires ideal { IsIdealLattice (K.field k.now) p.now o.now rows }
    requires maximal { let k = K.field k.now in
        IsMaximalIdeal (functions k p.now).ops (Contains k p.now o.now) (Contains k p.now rows) }
    requires over { let k = K.field k.now in
        Contains k p.now rows (of_poly (equation_of k p.now) (value k pi.now)) }
    ensures prime { IfOk result (IsPrimeOf (K.field k.now) p.now o.now) }
    ensures over { IfOk result (λ q. q.p ≡ pi.now) }
    ensures rows { IfOk result (λ q. q.rows ≡ rows) }
    ensures side { IfOk result (λ q. q.side ≡ side) }
{
    let degree = p.n();
    prove!(degree > 0);
    let inverse = colon(alloc, k, p, o.lattice(), &rows)?;
    let e = ramification(alloc, k, p, o, pi, &rows, &inverse)?;
    let f = relative_degree(&rows, o.lattice())?;
    let pi = pi.copy(alloc)?;
    Ok(Prime::new(side, pi, 0, e, f, rows, inverse))
}

/// The prime of an idempotent, by the radical of the order at the polynomial.
fn prime_of_idempotent<K: SmallField>(
    alloc: Global,
    k: &K,
    q: &Quotient,
    side: Side,
    pi: &Poly,
    radical: &Lattice,
    e: &[u32],
) -> Result<Prime, AllocError>
    requires over { IsQuotientOver (K.field k.now) q.now }
    requires order { IsMaximalOrderAt (K.field k.now) q.now.p q.now.order pi.now }
    requires radical { IsIdealAbove (K.field k.now) q.now radical.now }
    requires component { HasComponent (K.field k.now) q.now pi.now radical.now e.now }
    ensures prime { IfOk result (IsComponentPrime (K.field k.now) q.now pi.now e.now) }
    ensures side { IfOk result (λ q. q.side ≡ side) }
{
    let rows = component(alloc, k, q, radical, e)?;
    prime_of_rows(alloc, k, q.p(), q.order(), side, pi, rows)
}

/// The primes of the idempotents, in their order.
fn primes_of_idempotents<K: SmallField>(
    alloc: Global,
    k: &K,
    q: &Quotient,
    side: Side,
    pi: &Poly,
    radical: &Lattice,
    es: &[Vec<u32>],
) -> Result<Vec<Prime>, AllocError>
    requires over { IsQuotientOver (K.field k.now) q.now }
    requires order { IsMaximalOrderAt (K.field k.now) q.now.p q.now.order pi.now }
    requires radical { IsIdealAbove (K.field k.now) q.now radical.now }
    requires components { All (HasComponent (K.field k.now) q.now pi.now radical.now) (elements_of es.now) }
    ensures primes { IfOk result (λ v.
        AllZip (IsComponentPrime (K.field k.now) q.now pi.now) (elements_of es.now) v.items) }
    ensures sides { IfOk result (λ v. All (λ q. q.side ≡ side) v.items) }
{
    let mut primes = Vec::new(alloc);
    for e in es {
        primes.push(prime_of_idempotent(alloc, k, q, side, pi, radical, e.as_slice())?)?;
    }
    Ok(primes)
}

/// The primes over the polynomial whose multiples are the ideal of the quotient, by the order of their idempotents.
fn primes_of_quotient<K: SmallField>(
    alloc: Global,
    k: &K,
    q: &Quotient,
    side: Side,
    pi: &Poly,
) -> Result<Vec<Prime>, AllocError>
    requires over { IsQuotientOver (K.field k.now) q.now }
    requires order { IsMaximalOrderAt (K.field k.now) q.now.p q.now.order pi.now }
    requires ideal { let k = K.field k.now in
        SameSet (Contains k q.now.p q.now.ideal)
        (Multiple (functions k q.now.p).ops (of_poly (equation_of k q.now.p) (value k pi.now))
        (Contains k q.now.p q.now.order)) }
    ensures primes { IfOk result (λ v. IsPrimeSystem (K.field k.now) q.now.p q.now.order pi.now v.items) }
    ensures sides { IfOk result (λ v. All (λ q. q.side ≡ side) v.items) }
{
    let map = frobenius(alloc, k, q)?;
    let radical = radical_by(alloc, k, q, &map)?;
    let basis = fixed_by(alloc, k, q, &map)?;
    let idempotents = idempotents_by(alloc, k, q, &basis)?;
    primes_of_idempotents(alloc, k, q, side, pi, &radical, idempotents.as_slice())
}

/// The primes over an irreducible monic polynomial of an order that is maximal there, in no order that is told, without
/// numbers.
pub(crate) fn primes_above<K: SmallField>(
    alloc: Global,
    k: &K,
    p: &Pres,
    o: &Order,
    side: Side,
    pi: &Poly,
) -> Result<Vec<Prime>, AllocError>
    requires p_in { IsPresOver (K.field k.now).ops p.now }
    requires order { IsMaximalOrderAt (K.field k.now) p.now o.now pi.now }
    ensures primes { IfOk result (λ v. IsPrimeSystem (K.field k.now) p.now o.now pi.now v.items) }
    ensures sides { IfOk result (λ v. All (λ q. q.side ≡ side) v.items) }
{
    let ideal = multiples(alloc, k, p, o, pi)?;
    let q = Quotient::new(alloc, k, p, o, &ideal)?;
    primes_of_quotient(alloc, k, &q, side, pi)
}
