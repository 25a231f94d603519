//! The order of polynomials.

ghost use Rattle.std.specs.Prelude.{◌↔◌, IsTrue, OnOk};
ghost use Rattle.ff_factor.specs.Factors.{IsBeforePoly, AreAscendingPolys};
ghost use Rattle.ff_factor.specs.Pulls.{IsWith};

use ff_poly::Poly;
use std::alloc::AllocError;

/// Whether a comes before b: by the degree, then by the codes from the top down.
fn is_before(a: &Poly, b: &Poly) -> bool
    ensures { IsTrue result ↔ IsBeforePoly a.now b.now }
{
    let a = a.codes();
    let b = b.codes();
    if a.len() != b.len() {
        return a.len() < b.len();
    }
    for i in (0..a.len()).rev() {
        if a[i] != b[i] {
            return a[i] < b[i];
        }
    }
    false
}

/// Puts p at its position among ascending polynomials, unless it is there.
pub(crate) fn insert(polys: &mut Vec<Poly>, p: Poly) -> Result<(), AllocError>
    requires { AreAscendingPolys polys.old.items }
    ensures { OnOk result (IsWith polys.old.items p polys.new.items) }
{
    for i in 0..polys.len() {
        if is_before(&p, &polys[i]) {
            polys.insert(i, p)?;
            return Ok(());
        }
        if p.equals(&polys[i]) {
            return Ok(());
        }
    }
    polys.push(p)?;
    Ok(())
}
