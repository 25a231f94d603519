//! Values and powers of polynomials.

ghost use Rattle.std.specs.Prelude.{◌≡◌, ◌<◌, ◌≤◌, length, IfOk};
ghost use Rattle.ff_fields.specs.Over.{IsOver};
ghost use Rattle.ff_poly.specs.Words.{product_of};
ghost use Rattle.ff_poly.specs.PowerWords.{IsRest, power_of, value_at_code};

use crate::poly::{Poly, divide, mul};
use ff_fields::field::SmallField;
use std::alloc::{AllocError, Global};

/// The value of a at the code c, in time of the degree. No memory is taken.
pub fn eval<K: SmallField>(k: &K, a: &Poly, c: u32) -> u32
    requires a_in { IsOver (K.field k.now).ops a.now }
    requires c_in { c < (K.field k.now).size }
    ensures value { result ≡ value_at_code (K.field k.now).ops a.now c }
    ensures in_range { result < (K.field k.now).size }
{
    let mut value = 0;
    let mut i = a.codes().len();
    while i > 0 {
        i -= 1;
        value = k.add(a.codes()[i], k.mul(c, value));
    }
    value
}

/// The rest of a·b by m, which isn't 0.
fn product_mod<K: SmallField>(
    alloc: Global,
    k: &K,
    a: &Poly,
    b: &Poly,
    m: &Poly,
) -> Result<Poly, AllocError>
    requires a_in { IsOver (K.field k.now).ops a.now }
    requires b_in { IsOver (K.field k.now).ops b.now }
    requires m_in { IsOver (K.field k.now).ops m.now }
    requires not_constant { 2 ≤ length m.now }
    ensures { IfOk result (IsRest (K.field k.now).ops (product_of (K.field k.now).ops a.now b.now) m.now) }
{
    let (_, rest) = divide(alloc, k, &mul(alloc, k, a, b)?, m)?;
    Ok(rest)
}

/// The rest of a to the power e by m, whose degree is 1 or more; a to the power 0 is 1. It takes the time of at most
/// 128 products of polynomials below the degree of m, and divisions of these by m.
pub fn pow_mod<K: SmallField>(
    alloc: Global,
    k: &K,
    a: &Poly,
    e: u64,
    m: &Poly,
) -> Result<Poly, AllocError>
    requires a_in { IsOver (K.field k.now).ops a.now }
    requires m_in { IsOver (K.field k.now).ops m.now }
    requires not_constant { 2 ≤ length m.now }
    ensures rest { IfOk result (IsRest (K.field k.now).ops (power_of (K.field k.now).ops a.now e) m.now) }
    ensures over { IfOk result (IsOver (K.field k.now).ops) }
{
    let mut power = Poly::one(alloc)?;
    let (_, mut square) = divide(alloc, k, a, m)?;
    let mut left = e;
    while left > 0 {
        if left % 2 == 1 {
            power = product_mod(alloc, k, &power, &square, m)?;
        }
        square = product_mod(alloc, k, &square, &square, m)?;
        left /= 2;
    }
    Ok(power)
}
