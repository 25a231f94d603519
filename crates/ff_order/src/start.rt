//! The order k[x][y].

ghost use Rattle.std.specs.Prelude.{◌↔◌, IfOk};
ghost use Rattle.function_field.specs.Values.{Functions, equation_of};
ghost use Rattle.trace_theory.specs.Traces.{HasPolynomialCoordinates};
ghost use Rattle.ff_lattice.specs.Lattices.{Contains};
ghost use Rattle.ff_lattice.specs.Orders.{IsOrderLattice};

use ff_algebra::Pres;
use ff_fields::field::SmallField;
use ff_lattice::Order;
use ff_lattice::unit::unit_lattice;
use std::alloc::{AllocError, Global};

/// The order k[x][y] of the functions that have polynomials as coordinates. Its rows are 1, y, up to y^(n-1). It takes
/// the time of `unit_lattice`.
pub fn equation_order<K: SmallField>(alloc: Global, k: &K, p: &Pres) -> Result<Order, AllocError>
    ensures order { IfOk result (IsOrderLattice (K.field k.now) p.now) }
    ensures members { let k = K.field k.now in
        IfOk result (λ o. (z : Functions k p.now)
        → Contains k p.now o z ↔ HasPolynomialCoordinates (equation_of k p.now) z) }
{
    let l = unit_lattice(alloc, k, p.n())?;
    Ok(Order::of(k, p, l))
}
