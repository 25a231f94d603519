//! The numerators of elements over one denominator, and the monic denominator of least degree.

ghost use Rattle.std.specs.Prelude.{◌≡◌, ◌≢◌, ◌≤◌, ◌*◌, ℕ, List, [], length, map, All, IfOk, IsTrue, MatchOption};
ghost use Rattle.ff_fields.specs.Over.{IsOver};
ghost use Rattle.ff_poly.specs.Words.{IsPoly, IsMonicList, DividesList, product_of};
ghost use Rattle.function_field.specs.Values.{IsElem, IsMonicElem};
ghost use Rattle.ff_lattice.specs.Steps.{IsCommonMultiple};
ghost use Rattle.ff_space.specs.Steps.{IsQuotient, AreQuotientsOver, HasNoQuotients, AreNumerators, AreLeastNumerators};

use ff_algebra::Elem;
use ff_factor::lowest_terms;
use ff_fields::field::SmallField;
use ff_poly::{Poly, poly};
use std::alloc::{AllocError, Global};

/// Does d divide e?
fn divides<K: SmallField>(alloc: Global, k: &K, d: &Poly, e: &Poly) -> Result<bool, AllocError>
    requires d_in { IsOver (K.field k.now).ops d.now }
    requires d_some { d.now ≢ [] }
    requires e_in { IsOver (K.field k.now).ops e.now }
    ensures { IfOk result (λ r. IsTrue r → IsPoly e.now → DividesList (K.field k.now).ops d.now e.now) }
{
    let (_, rest) = poly::divide(alloc, k, e, d)?;
    Ok(rest.is_zero())
}

/// A monic polynomial that e and d divide: e, or their product.
fn common_multiple<K: SmallField>(
    alloc: Global,
    k: &K,
    e: Poly,
    d: &Poly,
) -> Result<Poly, AllocError>
    requires e_in { IsOver (K.field k.now).ops e }
    requires e_monic { IsMonicList e }
    requires d_in { IsOver (K.field k.now).ops d.now }
    requires d_monic { IsMonicList d.now }
    ensures { IfOk result (IsCommonMultiple (K.field k.now).ops e d.now) }
{
    if divides(alloc, k, d, &e)? {
        return Ok(e);
    }
    let product = poly::mul(alloc, k, &e, d)?;
    Ok(product)
}

/// A monic polynomial that each denominator divides.
fn common_denominator<K: SmallField>(
    alloc: Global,
    k: &K,
    zs: &[Elem],
    n: usize,
) -> Result<Poly, AllocError>
    requires { All (IsElem (K.field k.now).ops n) zs.now }
    ensures over { IfOk result (IsOver (K.field k.now).ops) }
    ensures monic { IfOk result IsMonicList }
    ensures divides { IfOk result (λ e. All (λ z. DividesList (K.field k.now).ops z.den e) zs.now) }
{
    let mut e = Poly::one(alloc)?;
    for z in zs {
        e = common_multiple(alloc, k, e, z.den())?;
    }
    Ok(e)
}

/// e·v/d; None where it is no polynomial.
fn quotient_over<K: SmallField>(
    alloc: Global,
    k: &K,
    e: &Poly,
    v: &Poly,
    d: &Poly,
) -> Result<Option<Poly>, AllocError>
    requires e_in { IsOver (K.field k.now).ops e.now }
    requires v_in { IsOver (K.field k.now).ops v.now }
    requires d_in { IsOver (K.field k.now).ops d.now }
    requires d_poly { IsPoly d.now }
    requires d_some { d.now ≢ [] }
    ensures { let ops = (K.field k.now).ops in
        IfOk result (λ r. MatchOption r ((w : List ℕ) → IsOver ops w → IsPoly w
        → ¬ (product_of ops e.now v.now ≡ product_of ops d.now w))
        (IsQuotient ops e.now v.now d.now)) }
{
    let product = poly::mul(alloc, k, e, v)?;
    let (quotient, rest) = poly::divide(alloc, k, &product, d)?;
    if !rest.is_zero() {
        return Ok(None);
    }
    Ok(Some(quotient))
}

/// e·v/d for each of the polynomials v; None where one of them is no polynomial.
fn quotients_over<K: SmallField>(
    alloc: Global,
    k: &K,
    e: &Poly,
    vs: &[Poly],
    d: &Poly,
) -> Result<Option<Vec<Poly>>, AllocError>
    requires e_in { IsOver (K.field k.now).ops e.now }
    requires vs_in { All (IsOver (K.field k.now).ops) vs.now }
    requires d_in { IsOver (K.field k.now).ops d.now }
    requires d_poly { IsPoly d.now }
    requires d_some { d.now ≢ [] }
    ensures { let ops = (K.field k.now).ops in
        IfOk result (λ r. MatchOption r (HasNoQuotients ops e.now vs.now d.now)
        (λ ws. AreQuotientsOver ops e.now vs.now d.now ws.items)) }
{
    let mut ws = Vec::new(alloc);
    for v in vs {
        match quotient_over(alloc, k, e, v, d)? {
            None => return Ok(None),
            Some(w) => ws.push(w)?,
        }
    }
    Ok(Some(ws))
}

/// The numerators of the element over e; None where e times the element has other coordinates than polynomials.
pub(crate) fn numerators_over<K: SmallField>(
    alloc: Global,
    k: &K,
    z: &Elem,
    e: &Poly,
) -> Result<Option<Vec<Poly>>, AllocError>
    requires z_in { IsElem (K.field k.now).ops (length z.now.num) z.now }
    requires e_in { IsOver (K.field k.now).ops e.now }
    ensures quotients { let ops = (K.field k.now).ops in
        IfOk result (λ r. MatchOption r (HasNoQuotients ops e.now z.now.num z.now.den)
        (λ ws. AreQuotientsOver ops e.now z.now.num z.now.den ws.items)) }
    ensures monic { IfOk result (λ _. IsMonicElem z.now) }
{
    quotients_over(alloc, k, e, z.num(), z.den())
}

/// The numerators over e of each of the elements, whose denominators divide it, one element after another.
fn all_numerators<K: SmallField>(
    alloc: Global,
    k: &K,
    zs: &[Elem],
    n: usize,
    e: &Poly,
) -> Result<Vec<Poly>, AllocError>
    requires zs_in { All (IsElem (K.field k.now).ops n) zs.now }
    requires e_in { IsOver (K.field k.now).ops e.now }
    requires e_monic { IsMonicList e.now }
    requires divides { All (λ z. DividesList (K.field k.now).ops z.den e.now) zs.now }
    ensures { IfOk result (λ ws. AreNumerators (K.field k.now) n zs.now ws.items e.now) }
{
    let mut all = Vec::new(alloc);
    for z in zs {
        match numerators_over(alloc, k, z, e)? {
            None => unreachable!(),
            Some(mut ws) => all.append(&mut ws)?,
        }
    }
    Ok(all)
}

/// The numerators of the elements over the monic polynomial of least degree for which there are some, one element after
/// another, and that polynomial. It takes the factors of a common multiple of the denominators.
pub(crate) fn least_numerators<K: SmallField>(
    alloc: Global,
    k: &K,
    zs: &[Elem],
    n: usize,
) -> Result<(Vec<Poly>, Poly), AllocError>
    requires { All (IsElem (K.field k.now).ops n) zs.now }
    ensures { IfOk result (λ r. AreLeastNumerators (K.field k.now) n zs.now r.0.items r.1) }
{
    let mut den = common_denominator(alloc, k, zs, n)?;
    let mut num = all_numerators(alloc, k, zs, n, &den)?;
    lowest_terms(alloc, k, &mut num, &mut den)?;
    Ok((num, den))
}
