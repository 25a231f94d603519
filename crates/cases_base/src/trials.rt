//! Counts over all polynomials of a degree.

ghost use Rattle.std.specs.Prelude.{IfOk};
ghost use Rattle.ff_fields.specs.Over.{IsOver};

use case_values::print::worded;
use case_values::read::{BAD, number, tested};
use ff_factor::{Factors, factor, is_irreducible};
use ff_fields::field::SmallField;
use ff_poly::Poly;
use ff_poly::poly::{mul, scale};
use std::alloc::{AllocError, Global};

// The monic polynomial of this degree whose lower codes are the digits of n.
fn monic<K: SmallField>(alloc: Global, k: &K, degree: u32, n: u32) -> Result<Poly, AllocError>
    ensures { IfOk result (IsOver (K.field k.now).ops) }
{
    let size = k.size();
    let mut codes = Vec::new(alloc);
    let mut left = n;
    for _ in 0..degree {
        codes.push(left.checked_rem(size).ok_or(BAD)?)?;
        left = left.checked_div(size).ok_or(BAD)?;
    }
    codes.push(1)?;
    tested(alloc, k, codes.as_slice())
}

// start·p^often
fn times_power<K: SmallField>(
    alloc: Global,
    k: &K,
    start: Poly,
    p: &Poly,
    often: u32,
) -> Result<Poly, AllocError>
    requires start_in { IsOver (K.field k.now).ops start }
    requires p_in { IsOver (K.field k.now).ops p.now }
    ensures { IfOk result (IsOver (K.field k.now).ops) }
{
    let mut product = start;
    for _ in 0..often {
        product = mul(alloc, k, &product, p)?;
    }
    Ok(product)
}

// The unit times the powers of the parts.
fn product_of<K: SmallField>(alloc: Global, k: &K, found: &Factors) -> Result<Poly, AllocError>
    ensures { IfOk result (IsOver (K.field k.now).ops) }
{
    let mut product = tested(alloc, k, &[found.unit()])?;
    for part in found.parts() {
        let p = tested(alloc, k, part.0.codes())?;
        product = times_power(alloc, k, product, &p, part.1)?;
    }
    Ok(product)
}

// Are the parts irreducible?
fn are_irreducible<K: SmallField>(
    alloc: Global,
    k: &K,
    found: &Factors,
) -> Result<bool, AllocError> {
    for part in found.parts() {
        if !is_irreducible(alloc, k, &tested(alloc, k, part.0.codes())?)? {
            return Ok(false);
        }
    }
    Ok(true)
}

// Is the polynomial the product of its factors, which are irreducible?
fn is_factored<K: SmallField>(alloc: Global, k: &K, g: &Poly) -> Result<bool, AllocError>
    requires { IsOver (K.field k.now).ops g.now }
{
    if g.is_zero() {
        return Ok(false);
    }
    let found = factor(alloc, k, g)?;
    Ok(are_irreducible(alloc, k, &found)? && product_of(alloc, k, &found)?.equals(g))
}

// Are all multiples of the polynomial by codes but 0 factored?
fn are_factored<K: SmallField>(alloc: Global, k: &K, g: &Poly) -> Result<bool, AllocError>
    requires { IsOver (K.field k.now).ops g.now }
{
    for unit in 1..k.size() {
        if !is_factored(alloc, k, &scale(alloc, k, g, unit)?)? {
            return Ok(false);
        }
    }
    Ok(true)
}

// Has the polynomial no factor twice?
fn is_simple<K: SmallField>(alloc: Global, k: &K, g: &Poly) -> Result<bool, AllocError>
    requires { IsOver (K.field k.now).ops g.now }
{
    if g.is_zero() {
        return Ok(false);
    }
    let found = factor(alloc, k, g)?;
    Ok(found.parts().iter().all(|part| part.1 == 1))
}

fn holds<K: SmallField>(alloc: Global, k: &K, word: &str, g: &Poly) -> Result<bool, AllocError>
    requires { IsOver (K.field k.now).ops g.now }
{
    match word {
        "irreducibles" => is_irreducible(alloc, k, g),
        "simple" => is_simple(alloc, k, g),
        _ => are_factored(alloc, k, g),
    }
}

/// How many monic polynomials of the degree are irreducible, have no factor twice, or are, with all their multiples by
/// codes, the products of their factors, which are irreducible.
pub fn trial_line<K: SmallField>(
    alloc: Global,
    k: &K,
    word: &str,
    text: &str,
) -> Result<String, AllocError> {
    let degree = number(text)?;
    let count = k.size().checked_pow(degree).ok_or(BAD)?;
    let mut found: u64 = 0;
    for n in 0..count {
        let g = monic(alloc, k, degree, n)?;
        if holds(alloc, k, word, &g)? {
            found = found.saturating_add(1);
        }
    }
    worded(alloc, "count", found)
}
