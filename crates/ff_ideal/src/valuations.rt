//! The valuation of a place, at the prime that an order has of it.

ghost use Rattle.std.specs.Prelude.{◌≡◌, ◌≤◌, ◌<◌, [], slice_set, replicate, pos, ◌-ℤ◌, IfOk};
ghost use Rattle.ff_fields.specs.Over.{IsOver};
ghost use Rattle.ff_poly.specs.Words.{IsPoly, IsMonicList, IsIrreducibleList};
ghost use Rattle.ff_poly.specs.Value.{value};
ghost use Rattle.function_field.specs.declared.side.Side.TheVariants.{Finite, Infinite};
ghost use Rattle.function_field.specs.Functions.{of_poly};
ghost use Rattle.function_field.specs.Curves.{CurveValue, IsCurve};
ghost use Rattle.function_field.specs.Infinity.{function_on};
ghost use Rattle.function_field.specs.Places.{Place, IsIntegralAt, HasValuation};
ghost use Rattle.function_field.specs.Values.{PresValue, IsPresOver, IsElem, Functions, functions, function_of, equation_of, setting};
ghost use Rattle.prime_theory.specs.Ideals.{Invertible};
ghost use Rattle.prime_theory.specs.Orders.{MaximalAt};
ghost use Rattle.prime_theory.specs.Places.{IsMaximalIdeal};
ghost use Rattle.ff_lattice.specs.Lattices.{IsLatticeValue, Contains};
ghost use Rattle.ff_lattice.specs.Orders.{IsOrderLattice};
ghost use Rattle.ff_lattice.specs.Colons.{IsColon};
ghost use Rattle.value_theory.specs.Primes.{IsPrimeOf};
ghost use Rattle.ff_ideal.specs.Places.{IsPlaceOf, IsInfinitePlaceOf, HasPrimeValue};

use crate::exponents::{greatest_exponent, outside_row};
use crate::primes::Prime;
use ff_algebra::elem::mul;
use ff_algebra::{Elem, Pres};
use ff_fields::field::SmallField;
use ff_lattice::operations::{push_rows, spanned};
use ff_lattice::{Lattice, Order, colon, contains, polynomial_in};
use ff_poly::Poly;
use std::alloc::{AllocError, Global};

/// n zeros.
fn zero_row(alloc: Global, n: usize) -> Result<Vec<Poly>, AllocError>
    ensures { IfOk result (λ row. row.items ≡ replicate n []) }
{
    let mut row = Vec::new(alloc);
    for i in 0..n {
        row.push(Poly::zero(alloc))?;
    }
    Ok(row)
}

/// n polynomials, the first one a and all others 0.
fn constant_row(alloc: Global, n: usize, a: Poly) -> Result<Vec<Poly>, AllocError>
    requires { 0 < n }
    ensures { IfOk result (λ row. row.items ≡ slice_set (replicate n []) 0 a) }
{
    let mut row = zero_row(alloc, n)?;
    row[0] = a;
    Ok(row)
}

/// The polynomial as an element, with n numerators.
pub fn polynomial_elem<K: SmallField>(
    alloc: Global,
    k: &K,
    n: usize,
    a: Poly,
) -> Result<Elem, AllocError>
    requires positive { 1 ≤ n }
    requires a_in { IsOver (K.field k.now).ops a }
    requires a_poly { IsPoly a }
    ensures is { let k = K.field k.now in
        IfOk result (λ z. (p : PresValue) → p.n ≡ n → function_of k p z ≡ of_poly (equation_of k p) (value k a)) }
    ensures in_range { IfOk result (IsElem (K.field k.now).ops n) }
{
    let num = constant_row(alloc, n, a)?;
    let den = Poly::one(alloc)?;
    Ok(Elem::over_monic(num, den))
}

/// The lattice that the rows of the order and z span.
fn spanned_with<K: SmallField>(
    alloc: Global,
    k: &K,
    p: &Pres,
    o: &Order,
    z: &Elem,
) -> Result<Lattice, AllocError>
    requires order { IsOrderLattice (K.field k.now) p.now o.now }
    requires z_in { IsElem (K.field k.now).ops p.now.n z.now }
    ensures form { IfOk result (IsLatticeValue (K.field k.now).ops p.now.n) }
    ensures member { let k = K.field k.now in IfOk result (λ l. Contains k p.now l (function_of k p.now z.now)) }
{
    let degree = p.n();
    prove!(degree > 0);
    let mut gens = Vec::new(alloc);
    push_rows(alloc, &mut gens, o.lattice())?;
    gens.push(z.copy(alloc)?)?;
    spanned(alloc, k, p, &gens)
}

/// A monic polynomial whose product with z is in the order: 1 where z is.
fn denominator_in<K: SmallField>(
    alloc: Global,
    k: &K,
    p: &Pres,
    o: &Order,
    z: &Elem,
) -> Result<Poly, AllocError>
    requires p_in { IsPresOver (K.field k.now).ops p.now }
    requires order { IsOrderLattice (K.field k.now) p.now o.now }
    requires z_in { IsElem (K.field k.now).ops p.now.n z.now }
    ensures over { IfOk result (IsOver (K.field k.now).ops) }
    ensures monic { IfOk result IsMonicList }
    ensures inside { let k = K.field k.now in
        IfOk result (λ h. Contains k p.now o.now
        ((functions k p.now).◌⊗◌ (of_poly (equation_of k p.now) (value k h)) (function_of k p.now z.now))) }
{
    let degree = p.n();
    prove!(degree > 0);
    if contains(alloc, k, o.lattice(), z)? {
        return Poly::one(alloc);
    }
    let l = spanned_with(alloc, k, p, o, z)?;
    let b = colon(alloc, k, p, o.lattice(), &l)?;
    polynomial_in(alloc, k, &b, degree)
}

/// The difference of two numbers.
fn difference(a: u32, b: u32) -> i64
    ensures { result ≡ pos a -ℤ pos b }
{
    i64::from(a) - i64::from(b)
}

/// The value of z at an invertible prime: the exponent of c·z less that of c, where both are in the order.
fn quotient_value<K: SmallField>(
    alloc: Global,
    k: &K,
    p: &Pres,
    o: &Order,
    rows: &Lattice,
    gamma: &Elem,
    c: &Elem,
    z: &Elem,
) -> Result<i64, AllocError>
    requires p_in { IsPresOver (K.field k.now).ops p.now }
    requires order { IsOrderLattice (K.field k.now) p.now o.now }
    requires form { IsLatticeValue (K.field k.now).ops p.now.n rows.now }
    requires maximal { let k = K.field k.now in
        IsMaximalIdeal (functions k p.now).ops (Contains k p.now o.now) (Contains k p.now rows.now) }
    requires invertible { let k = K.field k.now in
        Invertible (functions k p.now).ops (Contains k p.now o.now) (Contains k p.now rows.now) }
    requires gamma_in { IsElem (K.field k.now).ops p.now.n gamma.now }
    requires gamma_takes { let k = K.field k.now in
        IsColon k p.now o.now rows.now (function_of k p.now gamma.now) }
    requires gamma_outside { let k = K.field k.now in ¬ Contains k p.now o.now (function_of k p.now gamma.now) }
    requires c_in { IsElem (K.field k.now).ops p.now.n c.now }
    requires z_in { IsElem (K.field k.now).ops p.now.n z.now }
    requires member { let k = K.field k.now in Contains k p.now o.now (function_of k p.now c.now) }
    requires multiple { let k = K.field k.now in
        Contains k p.now o.now ((functions k p.now).◌⊗◌ (function_of k p.now c.now) (function_of k p.now z.now)) }
    ensures { let k = K.field k.now in
        IfOk result (HasPrimeValue k p.now o.now rows.now (function_of k p.now z.now)) }
{
    let degree = p.n();
    prove!(degree > 0);
    let multiple = mul(alloc, k, p, c, z)?;
    let above = greatest_exponent(alloc, k, p, o, rows, gamma, &multiple)?;
    let below = greatest_exponent(alloc, k, p, o, rows, gamma, c)?;
    Ok(difference(above, below))
}

/// v_P(z), where P is the place of the prime's side whose members in the order are those of the prime. The order is
/// maximal at the polynomial of the prime, and z has an inverse, without which it might have no value. Exponents of
/// 2^32 - 1 or more, which only elements of more codes have, are want of memory. It takes the time of `colon`, where
/// z isn't in the order, and of `greatest_exponent` twice.
pub fn valuation<K: SmallField>(
    alloc: Global,
    k: &K,
    p: &Pres,
    o: &Order,
    prime: &Prime,
    z: &Elem,
) -> Result<i64, AllocError>
    requires p_in { IsPresOver (K.field k.now).ops p.now }
    requires order { IsOrderLattice (K.field k.now) p.now o.now }
    requires prime { IsPrimeOf (K.field k.now) p.now o.now prime.now }
    requires over { IsOver (K.field k.now).ops prime.now.p }
    requires irreducible { IsIrreducibleList (K.field k.now).ops prime.now.p }
    requires maximal { let k = K.field k.now in
        MaximalAt (functions k p.now).ops (of_poly (equation_of k p.now) (value k prime.now.p))
        (IsIntegralAt (setting k p.now) Finite) (Contains k p.now o.now) }
    requires z_in { IsElem (K.field k.now).ops p.now.n z.now }
    requires invertible { let k = K.field k.now in
        (w : Functions k p.now) × ((functions k p.now).◌⊗◌ (function_of k p.now z.now) w ≡ (functions k p.now).𝟙) }
    ensures value { let k = K.field k.now in
        IfOk result (λ m. (M : Place (Functions k p.now)) → IsPlaceOf k p.now o.now prime.now M
        → HasValuation (setting k p.now) M (function_of k p.now z.now) m) }
    ensures infinite { let k = K.field k.now in
        IfOk result (λ m. (c : CurveValue) → IsCurve k c → c.inf ≡ p.now
        → (Q : Place (Functions k c.fin)) → IsInfinitePlaceOf k c o.now prime.now Q
        → HasValuation (setting k c.fin) Q (function_on k c.fin c.c Infinite z.now) m) }
{
    let degree = p.n();
    prove!(degree > 0);
    let len = z.den().len();
    prove!(len > 0);
    let gamma = match outside_row(alloc, k, p, prime.inverse(), o.lattice())? {
        Some(row) => row,
        None => unreachable!(),
    };
    let h = denominator_in(alloc, k, p, o, z)?;
    let c = polynomial_elem(alloc, k, degree, h)?;
    quotient_value(alloc, k, p, o, prime.rows(), &gamma, &c, z)
}
