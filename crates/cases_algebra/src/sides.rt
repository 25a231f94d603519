//! The same function in the other presentation.

ghost use Rattle.function_field.specs.Values.{IsElem};
ghost use Rattle.function_field.specs.Curves.{IsCurve};

use crate::elements::element_text;
use case_values::curves::curve;
use case_values::print::decided;
use case_values::read::{element, parted};
use ff_algebra::elem::{Elem, same};
use ff_algebra::{Curve, to_fin, to_inf};
use ff_fields::field::SmallField;
use std::alloc::{AllocError, Global};

fn infinite_text<K: SmallField>(
    alloc: Global,
    k: &K,
    c: &Curve,
    text: &str,
) -> Result<String, AllocError>
    requires { IsCurve (K.field k.now) c.now }
{
    let z = element(alloc, k, c.fin().n(), text)?;
    element_text(alloc, &to_inf(alloc, k, c, &z)?)
}

fn finite_text<K: SmallField>(
    alloc: Global,
    k: &K,
    c: &Curve,
    text: &str,
) -> Result<String, AllocError>
    requires { IsCurve (K.field k.now) c.now }
{
    let z = element(alloc, k, c.inf().n(), text)?;
    element_text(alloc, &to_fin(alloc, k, c, &z)?)
}

// Is the function the same when it comes back from the infinite presentation?
fn returns<K: SmallField>(alloc: Global, k: &K, c: &Curve, z: &Elem) -> Result<bool, AllocError>
    requires curve { IsCurve (K.field k.now) c.now }
    requires z_in { IsElem (K.field k.now).ops c.now.fin.n z.now }
{
    let w = to_inf(alloc, k, c, z)?;
    let back = to_fin(alloc, k, c, &w)?;
    same(alloc, k, &back, z)
}

fn returned<K: SmallField>(
    alloc: Global,
    k: &K,
    c: &Curve,
    text: &str,
) -> Result<String, AllocError>
    requires { IsCurve (K.field k.now) c.now }
{
    let z = element(alloc, k, c.fin().n(), text)?;
    decided(alloc, returns(alloc, k, c, &z)?)
}

/// `terms: z`: z in the infinite presentation, z of the infinite presentation in the finite one, or whether z is the
/// same when it comes back.
pub fn side_line<K: SmallField>(
    alloc: Global,
    k: &K,
    word: &str,
    text: &str,
) -> Result<String, AllocError> {
    let (list, z) = parted(text)?;
    let c = curve(alloc, k, list)?;
    match word {
        "inf" => infinite_text(alloc, k, &c, z),
        "fin" => finite_text(alloc, k, &c, z),
        _ => returned(alloc, k, &c, z),
    }
}
