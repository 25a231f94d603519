//! All places of a side over a polynomial, and valuations at them.

ghost use Rattle.std.specs.Prelude.{◌≡◌, [], ◌∷◌, All, IfOk, IsTrue};
ghost use Rattle.ff_fields.specs.Over.{IsOver};
ghost use Rattle.ff_poly.specs.Words.{IsIrreducibleList};
ghost use Rattle.function_field.specs.declared.side.Side.TheVariants.{Infinite};
ghost use Rattle.function_field.specs.Curves.{IsCurve};
ghost use Rattle.function_field.specs.Values.{IsPresOver, IsElem};
ghost use Rattle.value_theory.specs.IntegralLattices.{presentation};
ghost use Rattle.value_theory.specs.Primes.{PrimeValue, IsPrimeOf};
ghost use Rattle.decomposition_theory.specs.Decompositions.{IsMaximalOrderAt};

use crate::enlarged::prime;
use crate::lattices::lattice_text;
use case_values::read::{BAD, element, number, parted};
use ff_algebra::{Curve, Elem, Pres, Side, try_inverse};
use ff_fields::field::SmallField;
use ff_ideal::{Prime, valuation};
use ff_lattice::Order;
use ff_maximal::maximal_order;
use ff_places::places_above;
use ff_poly::Poly;
use ff_poly::poly::shift;
use std::alloc::{AllocError, Global};

// The side of the word.
fn side_of(text: &str) -> Result<Side, AllocError> {
    match text.trim() {
        "finite" => Ok(Side::Finite),
        "infinite" => Ok(Side::Infinite),
        _ => Err(BAD),
    }
}

// Are places of the side asked for over the polynomial? Over infinity it is the variable.
fn is_of_side(alloc: Global, side: Side, pi: &Poly) -> Result<bool, AllocError>
    ensures { IfOk result (λ r. IsTrue r → side ≡ Infinite → pi.now ≡ 0 ∷ 1 ∷ []) }
{
    match side {
        Side::Finite => Ok(true),
        Side::Infinite => Ok(pi.equals(&shift(alloc, &Poly::one(alloc)?, 1)?)),
    }
}

// The presentation of a side.
fn presentation(c: &Curve, side: Side) -> &Pres
    ensures { result.now ≡ presentation c.now side }
{
    match side {
        Side::Finite => c.fin(),
        Side::Infinite => c.inf(),
    }
}

// The maximal order of the side, which is maximal at the polynomial.
fn order_at<K: SmallField>(
    alloc: Global,
    k: &K,
    c: &Curve,
    side: Side,
    pi: &Poly,
) -> Result<Order, AllocError>
    requires curve { IsCurve (K.field k.now) c.now }
    requires pi_in { IsOver (K.field k.now).ops pi.now }
    requires irreducible { IsIrreducibleList (K.field k.now).ops pi.now }
    requires infinite { side ≡ Infinite → pi.now ≡ 0 ∷ 1 ∷ [] }
    ensures { IfOk result (λ o. IsMaximalOrderAt (K.field k.now) (presentation c.now side) o pi.now) }
{
    maximal_order(alloc, k, c, side)
}

// Appends the number of the prime, its ramification index, its degree and its lattice.
fn push_prime(alloc: Global, out: &mut String, prime: &Prime) -> Result<(), AllocError> {
    write!(
        out,
        "({} {} {}) ",
        prime.number(),
        prime.e(),
        prime.degree()
    )?;
    let rows = lattice_text(alloc, prime.rows())?;
    out.push_str(rows.as_str())
}

// The primes, each as its number, its ramification index, its degree and its lattice.
fn primes_text(alloc: Global, primes: &[Prime]) -> Result<String, AllocError> {
    let mut out = String::new(alloc);
    for i in 0..primes.len() {
        if i > 0 {
            out.push_str(" | ")?;
        }
        push_prime(alloc, &mut out, &primes[i])?;
    }
    Ok(out)
}

// The value of z at a prime of the order.
fn value_text<K: SmallField>(
    alloc: Global,
    k: &K,
    p: &Pres,
    o: &Order,
    prime: &Prime,
    z: &Elem,
) -> Result<String, AllocError>
    requires p_in { IsPresOver (K.field k.now).ops p.now }
    requires order { IsMaximalOrderAt (K.field k.now) p.now o.now prime.now.p }
    requires prime { IsPrimeOf (K.field k.now) p.now o.now prime.now }
    requires z_in { IsElem (K.field k.now).ops p.now.n z.now }
{
    match try_inverse(alloc, k, p, z) {
        Ok(_) => format!(in alloc; "{}", valuation(alloc, k, p, o, prime, z)?),
        Err(_) => Err(BAD),
    }
}

// The value of the element at the prime with the number before it.
fn value_at<K: SmallField>(
    alloc: Global,
    k: &K,
    p: &Pres,
    o: &Order,
    primes: &[Prime],
    text: &str,
) -> Result<String, AllocError>
    requires p_in { IsPresOver (K.field k.now).ops p.now }
    requires order { All (λ (q : PrimeValue). IsMaximalOrderAt (K.field k.now) p.now o.now q.p) primes.now }
    requires primes { All (IsPrimeOf (K.field k.now) p.now o.now) primes.now }
{
    let (wanted, rest) = parted(text)?;
    let wanted = number(wanted)?;
    let z = element(alloc, k, p.n(), rest)?;
    for prime in primes {
        if prime.number() == wanted {
            return value_text(alloc, k, p, o, prime, &z);
        }
    }
    Err(BAD)
}

// All places over the polynomial, as primes of the order.
fn places_line<K: SmallField>(
    alloc: Global,
    k: &K,
    c: &Curve,
    side: Side,
    text: &str,
) -> Result<String, AllocError>
    requires { IsCurve (K.field k.now) c.now }
{
    let pi = prime(alloc, k, text)?;
    if !is_of_side(alloc, side, &pi)? {
        return Err(BAD);
    }
    let o = order_at(alloc, k, c, side, &pi)?;
    let primes = places_above(alloc, k, c, side, &o, &pi)?;
    primes_text(alloc, primes.as_slice())
}

// `pi: number: z`: the value of z at the place with the number over the polynomial.
fn value_line<K: SmallField>(
    alloc: Global,
    k: &K,
    c: &Curve,
    side: Side,
    text: &str,
) -> Result<String, AllocError>
    requires { IsCurve (K.field k.now) c.now }
{
    let (pi, rest) = parted(text)?;
    let pi = prime(alloc, k, pi)?;
    if !is_of_side(alloc, side, &pi)? {
        return Err(BAD);
    }
    let o = order_at(alloc, k, c, side, &pi)?;
    let primes = places_above(alloc, k, c, side, &o, &pi)?;
    value_at(alloc, k, presentation(c, side), &o, primes.as_slice(), rest)
}

/// `side: pi`: all places of the side over the irreducible polynomial, which over infinity is the variable, as primes
/// of the maximal order, each with its number, its ramification index and its degree; or `side: pi: number: z`: the
/// value at the place with the number of an element of the side's presentation.
pub fn places_text<K: SmallField>(
    alloc: Global,
    k: &K,
    c: &Curve,
    word: &str,
    text: &str,
) -> Result<String, AllocError>
    requires { IsCurve (K.field k.now) c.now }
{
    let (side, rest) = parted(text)?;
    let side = side_of(side)?;
    if word == "places" {
        places_line(alloc, k, c, side, rest)
    } else {
        value_line(alloc, k, c, side, rest)
    }
}
