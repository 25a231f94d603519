//! Functions by their coordinates in a list of functions.

ghost use Rattle.std.specs.Prelude.{◌≡◌, ◌<◌, [], ◌∷◌, length, All, IfOk};
ghost use Rattle.ff_fields.specs.Over.{IsOver};
ghost use Rattle.ff_poly.specs.Words.{poly_of};
ghost use Rattle.function_field.specs.Values.{IsPresOver, IsElem, functions, function_of};
ghost use Rattle.function_field.specs.Infinity.{constant};
ghost use Rattle.ff_rr.specs.Listings.{function_at};

use ff_algebra::elem::{Elem, Pres, add, mul};
use ff_fields::field::SmallField;
use ff_ideal::valuations::polynomial_elem;
use ff_poly::Poly;
use std::alloc::{AllocError, Global};

/// The code as a polynomial.
fn constant(alloc: Global, c: u32) -> Result<Poly, AllocError>
    ensures { IfOk result (λ a. a ≡ poly_of (c ∷ [])) }
{
    let mut codes = Vec::new(alloc);
    codes.push(c)?;
    Ok(Poly::from_codes(codes))
}

/// The element times a code of k.
fn multiple<K: SmallField>(
    alloc: Global,
    k: &K,
    p: &Pres,
    c: u32,
    z: &Elem,
) -> Result<Elem, AllocError>
    requires p_in { IsPresOver (K.field k.now).ops p.now }
    requires c_in { c < (K.field k.now).size }
    requires z_in { IsElem (K.field k.now).ops p.now.n z.now }
    ensures product { let k = K.field k.now in
        IfOk result (λ w. function_of k p.now w
        ≡ (functions k p.now).◌⊗◌ (constant k p.now c) (function_of k p.now z.now)) }
    ensures in_range { IfOk result (IsElem (K.field k.now).ops p.now.n) }
{
    let factor = polynomial_elem(alloc, k, p.n(), constant(alloc, c)?)?;
    mul(alloc, k, p, &factor, z)
}

/// The sum of the functions times the codes. It takes a product and a sum of elements for each.
pub(crate) fn combination<K: SmallField>(
    alloc: Global,
    k: &K,
    p: &Pres,
    codes: &[u32],
    functions: &[Elem],
) -> Result<Elem, AllocError>
    requires p_in { IsPresOver (K.field k.now).ops p.now }
    requires one_each { length codes.now ≡ length functions.now }
    requires codes_in { IsOver (K.field k.now).ops codes.now }
    requires functions_in { All (IsElem (K.field k.now).ops p.now.n) functions.now }
    ensures is { let k = K.field k.now in
        IfOk result (λ z. function_of k p.now z ≡ function_at k p.now functions.now codes.now) }
    ensures in_range { IfOk result (IsElem (K.field k.now).ops p.now.n) }
{
    let mut sum = polynomial_elem(alloc, k, p.n(), Poly::zero(alloc))?;
    for i in 0..codes.len() {
        let term = multiple(alloc, k, p, codes[i], &functions[i])?;
        sum = add(alloc, k, &sum, &term)?;
    }
    Ok(sum)
}
