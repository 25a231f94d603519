//! Vectors of codes from polynomials, and polynomials from them.

ghost use Rattle.std.specs.Prelude.{◌≡◌, ◌≤◌, ◌-◌, ◌*◌, ◌++◌, length, replicate, IfOk, OnOk};
ghost use Rattle.ff_poly.specs.Words.{poly_of};
ghost use Rattle.ff_space.specs.Steps.{IsLongest, AreShort};
ghost use Rattle.ff_space.specs.Vectors.{parts_of, vector_of};

use ff_poly::Poly;
use std::alloc::{AllocError, Global};

/// The greatest number of codes of a polynomial of the list; 0 for no polynomial.
pub(crate) fn longest(polys: &[Poly]) -> usize
    ensures { IsLongest polys.now result }
{
    let mut most = 0;
    for p in polys {
        most = most.max(p.len());
    }
    most
}

/// Pushes the codes of the polynomial, with zeros up to the width.
fn push_padded(codes: &mut Vec<u32>, p: &Poly, width: usize) -> Result<(), AllocError>
    requires { length p.now ≤ width }
    ensures { OnOk result (codes.new.items ≡ codes.old.items ++ (p.now ++ replicate (width - length p.now) 0)) }
{
    codes.extend_from_slice(p.codes())?;
    let len = codes.len().checked_add(width - p.len()).ok_or(AllocError)?;
    codes.resize(len, 0)
}

/// The codes of the polynomials one after another, each with zeros up to the width.
pub(crate) fn vector_of(alloc: Global, polys: &[Poly], width: usize) -> Result<Vec<u32>, AllocError>
    requires { AreShort width polys.now }
    ensures { IfOk result (λ v. v.items ≡ vector_of width polys.now) }
{
    let mut codes = Vec::new(alloc);
    for p in polys {
        push_padded(&mut codes, p, width)?;
    }
    Ok(codes)
}

/// The n polynomials whose codes stand one after another, so many for each.
pub(crate) fn parts_of(
    alloc: Global,
    codes: &[u32],
    width: usize,
    n: usize,
) -> Result<Vec<Poly>, AllocError>
    requires { length codes.now ≡ n * width }
    ensures { IfOk result (λ ps. ps.items ≡ parts_of width n codes.now) }
{
    let mut polys = Vec::new(alloc);
    let mut rest = codes;
    for i in 0..n {
        let (first, others) = rest.split_at(width);
        polys.push(Poly::from_codes(first.to_vec(alloc)?))?;
        rest = others;
    }
    Ok(polys)
}
