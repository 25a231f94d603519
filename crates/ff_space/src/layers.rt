//! Elements times powers of x.

ghost use Rattle.std.specs.Prelude.{◌≡◌, ℤ, pos, ◌-ℤ◌, ◌++◌, length, map, All, IfOk, OnOk};
ghost use Rattle.ff_poly.specs.Words.{shifted};
ghost use Rattle.reduced_basis_theory.specs.Degree.{size};
ghost use Rattle.ff_space.specs.Layers.{layers_of, multiples_of, x_times};

use ff_algebra::Elem;
use ff_poly::{Poly, poly};
use std::alloc::{AllocError, Global};

/// x times each of the polynomials.
fn shifted_all(alloc: Global, polys: &[Poly]) -> Result<Vec<Poly>, AllocError>
    ensures { IfOk result (λ vs. vs.items ≡ map (λ v. shifted v 1) polys.now) }
{
    let mut shifted = Vec::new(alloc);
    for v in polys {
        shifted.push(poly::shift(alloc, v, 1)?)?;
    }
    Ok(shifted)
}

/// x times the element.
fn x_times(alloc: Global, z: &Elem) -> Result<Elem, AllocError>
    ensures { IfOk result (λ w. w ≡ x_times z.now) }
{
    let num = shifted_all(alloc, z.num())?;
    let den = z.den().copy(alloc)?;
    Ok(Elem::over_monic(num, den))
}

/// How many j there are with 0 ≤ j ≤ -d.
fn multiples_count(d: i64) -> u64
    ensures { result ≡ size (pos 0 -ℤ d) }
{
    if d > 0 {
        return 0;
    }
    d.unsigned_abs() + 1
}

/// Pushes z, x·z, .., x^j·z with the greatest j ≤ -d.
fn push_multiples(alloc: Global, list: &mut Vec<Elem>, z: &Elem, d: i64) -> Result<(), AllocError>
    ensures { OnOk result (list.new.items ≡ list.old.items ++ multiples_of (size (pos 0 -ℤ d)) z.now) }
{
    let count = multiples_count(d);
    let mut w = z.copy(alloc)?;
    for i in 0..count {
        let next = x_times(alloc, &w)?;
        list.push(w)?;
        w = next;
    }
    Ok(())
}

/// All x^j·b_i with 0 ≤ j ≤ -d_i.
pub(crate) fn all_multiples(
    alloc: Global,
    basis: &[Elem],
    degrees: &[i64],
) -> Result<Vec<Elem>, AllocError>
    requires { length basis.now ≡ length degrees.now }
    ensures { IfOk result (λ zs. zs.items ≡ layers_of basis.now degrees.now) }
{
    let mut list = Vec::new(alloc);
    for i in 0..basis.len() {
        push_multiples(alloc, &mut list, &basis[i], degrees[i])?;
    }
    Ok(list)
}
