//! Functions as they are written: lowest terms, in x and y. All that is printed of a function passes here.

ghost use Rattle.std.specs.Prelude.{◌≡◌, ◌≤◌, IfOk};
ghost use Rattle.function_field.specs.Values.{IsElem, IsMonicElem, function_of};
ghost use Rattle.function_field.specs.Infinity.{function_on};
ghost use Rattle.function_field.specs.Curves.{IsCurve};
ghost use Rattle.ff_factor.specs.LowestTerms.{AreIrreducible, HasFactorsOf};
ghost use Rattle.ff_written.specs.LowestTerms.{IsWritten, elem_of};

use ff_algebra::Side;
use ff_algebra::curve::Curve;
use ff_algebra::elem::{Elem, Pres};
use ff_algebra::sides::to_fin;
use ff_factor::{cancel, factor};
use ff_fields::field::SmallField;
use ff_poly::Poly;
use ff_text::Written;
use std::alloc::{AllocError, Global};

/// Equal polynomials, in memory of their own.
fn copies(alloc: Global, polys: &[Poly]) -> Result<Vec<Poly>, AllocError>
    ensures { IfOk result (λ ps. ps.items ≡ polys.now) }
{
    let mut copies = Vec::new(alloc);
    for p in polys {
        copies.push(p.copy(alloc)?)?;
    }
    Ok(copies)
}

/// Equal elements, in memory of their own.
pub fn copy_elements(alloc: Global, elements: &[Elem]) -> Result<Vec<Elem>, AllocError>
    ensures { IfOk result (λ zs. zs.items ≡ elements.now) }
{
    let mut copies = Vec::new(alloc);
    for z in elements {
        copies.push(z.copy(alloc)?)?;
    }
    Ok(copies)
}

/// The element as it stands, to be printed.
pub fn as_written(alloc: Global, z: &Elem) -> Result<Written, AllocError>
    ensures { IfOk result (λ w. elem_of w ≡ z.now) }
{
    let num = copies(alloc, z.num())?;
    let den = z.den().copy(alloc)?;
    Ok(Written::new(num, den))
}

/// The function of the element, written in lowest terms, where each irreducible monic divisor of the denominator is
/// listed. It takes one division of each part a turn, with a turn for each time that a divisor is cancelled and one
/// more for each divisor.
pub fn in_lowest_terms_by<K: SmallField>(
    alloc: Global,
    k: &K,
    f: &Pres,
    z: &Elem,
    divisors: &[Poly],
) -> Result<Written, AllocError>
    requires positive { 1 ≤ f.now.n }
    requires element { IsElem (K.field k.now).ops f.now.n z.now }
    requires irreducible { AreIrreducible (K.field k.now).ops divisors.now }
    requires each { HasFactorsOf (K.field k.now).ops divisors.now z.now.den }
    ensures { let k = K.field k.now in IfOk result (IsWritten k f.now (function_of k f.now z.now)) }
{
    let mut num = copies(alloc, z.num())?;
    let mut den = z.den().copy(alloc)?;
    cancel(alloc, k, &mut num, &mut den, divisors)?;
    Ok(Written::new(num, den))
}

/// The function of the element, written in lowest terms. It takes the factors of the denominator.
pub fn in_lowest_terms<K: SmallField>(
    alloc: Global,
    k: &K,
    f: &Pres,
    z: &Elem,
) -> Result<Written, AllocError>
    requires positive { 1 ≤ f.now.n }
    requires element { IsElem (K.field k.now).ops f.now.n z.now }
    ensures { let k = K.field k.now in IfOk result (IsWritten k f.now (function_of k f.now z.now)) }
{
    let divisors = factor(alloc, k, z.den())?.polys(alloc)?;
    in_lowest_terms_by(alloc, k, f, z, divisors.as_slice())
}

/// The element of the side's presentation, in x and y.
fn in_x_and_y<K: SmallField>(
    alloc: Global,
    k: &K,
    curve: &Curve,
    side: Side,
    r: &Elem,
) -> Result<Elem, AllocError>
    requires curve { IsCurve (K.field k.now) curve.now }
    requires r_in { IsElem (K.field k.now).ops curve.now.fin.n r.now }
    requires monic { IsMonicElem r.now }
    ensures same { let k = K.field k.now in
        IfOk result (λ z. function_of k curve.now.fin z ≡ function_on k curve.now.fin curve.now.c side r.now) }
    ensures in_range { IfOk result (IsElem (K.field k.now).ops curve.now.fin.n) }
{
    match side {
        Side::Finite => r.copy(alloc),
        Side::Infinite => to_fin(alloc, k, curve, r),
    }
}

/// The function of an element of the side's presentation, written in x and y in lowest terms. It takes the factors of
/// the denominator.
pub fn written<K: SmallField>(
    alloc: Global,
    k: &K,
    curve: &Curve,
    side: Side,
    r: &Elem,
) -> Result<Written, AllocError>
    requires curve { IsCurve (K.field k.now) curve.now }
    requires r_in { IsElem (K.field k.now).ops curve.now.fin.n r.now }
    requires monic { IsMonicElem r.now }
    ensures { let k = K.field k.now in
        IfOk result (IsWritten k curve.now.fin (function_on k curve.now.fin curve.now.c side r.now)) }
{
    let z = in_x_and_y(alloc, k, curve, side, r)?;
    in_lowest_terms(alloc, k, curve.fin(), &z)
}
