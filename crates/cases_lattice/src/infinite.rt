//! k[t][Y] of a curve, and what it contains.

ghost use Rattle.function_field.specs.Values.{IsElem};
ghost use Rattle.function_field.specs.Curves.{IsCurve};

use case_values::read::element;
use ff_algebra::{Curve, Elem, to_inf};
use ff_fields::field::SmallField;
use ff_infinite::{infinite_start, local_contains};
use ff_lattice::sets::contains;
use std::alloc::{AllocError, Global};

// Is z in k[t][Y]?
fn is_plain<K: SmallField>(alloc: Global, k: &K, c: &Curve, z: &Elem) -> Result<bool, AllocError>
    requires curve { IsCurve (K.field k.now) c.now }
    requires z_in { IsElem (K.field k.now).ops c.now.fin.n z.now }
{
    let start = infinite_start(alloc, k, c)?;
    let l = start.lattice();
    contains(alloc, k, l, &to_inf(alloc, k, c, z)?)
}

// Is z a combination of the powers of Y over the fractions of degree at most 0?
fn is_local<K: SmallField>(alloc: Global, k: &K, c: &Curve, z: &Elem) -> Result<bool, AllocError>
    requires curve { IsCurve (K.field k.now) c.now }
    requires z_in { IsElem (K.field k.now).ops c.now.fin.n z.now }
{
    let start = infinite_start(alloc, k, c)?;
    let l = start.lattice();
    local_contains(alloc, k, c, l, z)
}

/// Is the element of the text in k[t][Y], or in its combinations over the fractions of degree at most 0?
pub fn is_member<K: SmallField>(
    alloc: Global,
    k: &K,
    c: &Curve,
    word: &str,
    text: &str,
) -> Result<bool, AllocError>
    requires { IsCurve (K.field k.now) c.now }
{
    let z = element(alloc, k, c.fin().n(), text)?;
    if word == "plain" {
        is_plain(alloc, k, c, &z)
    } else {
        is_local(alloc, k, c, &z)
    }
}
