//! The order k[t][Y].

ghost use Rattle.std.specs.Prelude.{◌↔◌, IfOk};
ghost use Rattle.ff_poly.specs.Polynomials.{x_poly};
ghost use Rattle.function_field.specs.Values.{Functions, equation_of};
ghost use Rattle.trace_theory.specs.Traces.{HasPolynomialCoordinates};
ghost use Rattle.infinite_theory.specs.Supported.{IsSupportedAt};
ghost use Rattle.ff_lattice.specs.Lattices.{Contains};
ghost use Rattle.ff_lattice.specs.Orders.{IsOrderLattice};

use ff_algebra::Curve;
use ff_fields::field::SmallField;
use ff_lattice::Order;
use ff_lattice::unit::unit_lattice;
use std::alloc::{AllocError, Global};

/// The order k[t][Y] of the infinite presentation: the functions that have polynomials in t as coordinates. Its rows
/// are 1, Y, up to Y^(n-1). It takes the time of `unit_lattice`.
pub fn infinite_start<K: SmallField>(alloc: Global, k: &K, c: &Curve) -> Result<Order, AllocError>
    ensures order { IfOk result (IsOrderLattice (K.field k.now) c.now.inf) }
    ensures members { let k = K.field k.now in
        IfOk result (λ o. (z : Functions k c.now.inf)
        → Contains k c.now.inf o z ↔ HasPolynomialCoordinates (equation_of k c.now.inf) z) }
    ensures tame { let k = K.field k.now in
        IfOk result (λ o. IsSupportedAt (equation_of k c.now.inf) (x_poly k) (Contains k c.now.inf o)) }
{
    let p = c.inf();
    let l = unit_lattice(alloc, k, p.n())?;
    Ok(Order::of(k, p, l))
}
