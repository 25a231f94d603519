//! The coordinates of a function in a printed basis.

ghost use Rattle.std.specs.Prelude.{◌≤◌, length, map, IfOk, MatchOption};
ghost use Rattle.ff_fields.specs.Over.{IsOver};
ghost use Rattle.ff_poly.specs.Words.{IsMonicList};
ghost use Rattle.function_field.specs.Values.{IsElem, function_of};
ghost use Rattle.ff_space.specs.Coordinates.{AreCoordinates};
ghost use Rattle.ff_space.specs.Spaces.{InCodeSpan, IsSpaceForm};
ghost use Rattle.ff_space.specs.Steps.{HasNoVectorOver, IsVectorOver};

use crate::denominators::numerators_over;
use crate::space::PrintedBasis;
use crate::vectors::{longest, vector_of};
use ff_algebra::{Elem, Pres};
use ff_fields::field::SmallField;
use ff_linalg::solve;
use ff_poly::Poly;
use std::alloc::{AllocError, Global};

/// The vector of the element's function over the denominator, of so many codes for each coordinate; None where it has
/// none.
fn vector_over<K: SmallField>(
    alloc: Global,
    k: &K,
    z: &Elem,
    den: &Poly,
    width: usize,
) -> Result<Option<Vec<u32>>, AllocError>
    requires z_in { IsElem (K.field k.now).ops (length z.now.num) z.now }
    requires den_in { IsOver (K.field k.now).ops den.now }
    requires monic { IsMonicList den.now }
    ensures { let k = K.field k.now in
        IfOk result (λ r. MatchOption r (HasNoVectorOver k z.now den.now width)
        (λ v. IsVectorOver k z.now den.now width v.items)) }
{
    let Some(ws) = numerators_over(alloc, k, z, den)? else {
        return Ok(None);
    };
    if longest(ws.as_slice()) > width {
        return Ok(None);
    }
    Ok(Some(vector_of(alloc, ws.as_slice(), width)?))
}

/// The codes c_i for which the function of the element is the sum of the c_i·f_i, for the functions f_i of the basis;
/// None exactly where the function isn't in their span over k.
/// Cost: a product and a division for each numerator, and the solution of a system of as many rows as there are
/// functions.
pub fn coordinates<K: SmallField>(
    alloc: Global,
    k: &K,
    p: &Pres,
    s: &PrintedBasis,
    z: &Elem,
) -> Result<Option<Vec<u32>>, AllocError>
    requires positive { 1 ≤ p.now.n }
    requires form { IsSpaceForm (K.field k.now) p.now s.now }
    requires z_in { IsElem (K.field k.now).ops p.now.n z.now }
    ensures { let k = K.field k.now in let fs = map (function_of k p.now) s.now.functions in
        IfOk result (λ r. MatchOption r (¬ InCodeSpan k p.now fs (function_of k p.now z.now))
        (λ c. AreCoordinates k p.now fs (function_of k p.now z.now) c.items)) }
{
    match vector_over(alloc, k, z, &s.den, s.width)? {
        None => Ok(None),
        Some(v) => solve(alloc, k, &s.rows, v.as_slice()),
    }
}
