//! Monic polynomials as their lower coefficients, lowest first: values, roots, and division by a linear factor.

ghost use Rattle.std.specs.Prelude.{◌≡◌, ◌<◌, length, IfOk};
ghost use Rattle.ff_fields.specs.Code.{raw_ring};
ghost use Rattle.ff_fields.specs.Over.{IsOver};
ghost use Rattle.ring_lemmas.specs.Lists.{neg_list};
ghost use Rattle.ff_falg.specs.Roots.{monic_value, quotient_of, IsRoots};

use crate::rows::zeros;
use ff_fields::field::SmallField;
use std::alloc::{AllocError, Global};

/// Takes the negative of each code.
pub(crate) fn negate_all<K: SmallField>(k: &K, codes: &mut [u32])
    requires { IsOver (K.field k.now).ops codes.old }
    ensures { codes.new ≡ neg_list (raw_ring (K.field k.now).ops) codes.old }
{
    for j in 0..codes.len() {
        codes[j] = k.neg(codes[j]);
    }
}

/// The value at c, by Horner's rule.
pub(crate) fn value<K: SmallField>(k: &K, lower: &[u32], c: u32) -> u32
    requires lower_in { IsOver (K.field k.now).ops lower.now }
    requires c_in { c < (K.field k.now).size }
    ensures { result ≡ monic_value (K.field k.now).ops lower.now c }
{
    let mut v = 1;
    for j in (0..lower.len()).rev() {
        v = k.add(lower[j], k.mul(c, v));
    }
    v
}

/// The roots, in ascending order, as far as there are as many as the degree.
/// Cost: a value for each code up to the last of them.
pub(crate) fn roots<K: SmallField>(
    alloc: Global,
    k: &K,
    lower: &[u32],
) -> Result<Vec<u32>, AllocError>
    requires { IsOver (K.field k.now).ops lower.now }
    ensures { IfOk result (λ v. IsRoots (K.field k.now).ops lower.now v.items) }
{
    let mut found = Vec::new(alloc);
    for c in 0..k.size() {
        if found.len() == lower.len() {
            return Ok(found);
        }
        if value(k, lower, c) == 0 {
            found.push(c)?;
        }
    }
    Ok(found)
}

/// Writes the coefficients of the quotient by t - c, of which the last is 1.
fn write_quotient<K: SmallField>(k: &K, lower: &[u32], c: u32, quotient: &mut [u32])
    requires lower_in { IsOver (K.field k.now).ops lower.now }
    requires c_in { c < (K.field k.now).size }
    requires fits { length quotient.old ≡ length lower.now }
    ensures { quotient.new ≡ quotient_of (K.field k.now).ops lower.now c }
{
    let mut v = 1;
    for j in (0..lower.len()).rev() {
        quotient[j] = v;
        v = k.add(lower[j], k.mul(c, v));
    }
}

/// The coefficients of the quotient by t - c, of which the last is 1.
pub(crate) fn quotient<K: SmallField>(
    alloc: Global,
    k: &K,
    lower: &[u32],
    c: u32,
) -> Result<Vec<u32>, AllocError>
    requires lower_in { IsOver (K.field k.now).ops lower.now }
    requires c_in { c < (K.field k.now).size }
    ensures { IfOk result (λ v. v.items ≡ quotient_of (K.field k.now).ops lower.now c) }
{
    let mut out = zeros(alloc, lower.len())?;
    write_quotient(k, lower, c, out.as_mut_slice());
    Ok(out)
}
