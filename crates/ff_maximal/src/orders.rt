//! The maximal order of a side of a curve.

ghost use Rattle.std.specs.Prelude.{◌≡◌, [], ◌∷◌, IfOk};
ghost use Rattle.function_field.specs.declared.side.Side.TheVariants.{Finite, Infinite};
ghost use Rattle.function_field.specs.Curves.{IsCurve};
ghost use Rattle.ff_order.specs.Enlargements.{repeated};
ghost use Rattle.value_theory.specs.IntegralLattices.{IsIntegralLattice};

use ff_algebra::Side;
use ff_algebra::curve::Curve;
use ff_factor::factor;
use ff_fields::field::SmallField;
use ff_infinite::infinite_start;
use ff_lattice::Order;
use ff_order::{equation_order, maximal, p_maximal};
use ff_poly::Poly;
use ff_poly::poly::shift;
use std::alloc::{AllocError, Global};

/// The polynomials with an exponent of 2 or more.
fn repeated(alloc: Global, parts: &[(Poly, u32)]) -> Result<Vec<Poly>, AllocError>
    ensures { IfOk result (λ ps. ps.items ≡ repeated parts.now) }
{
    let mut polys = Vec::new(alloc);
    for part in parts {
        if part.1 > 1 {
            polys.push(part.0.copy(alloc)?)?;
        }
    }
    Ok(polys)
}

/// The integral functions of the finite side: k[x][y], enlarged at the irreducible polynomials whose squares divide the
/// discriminant. Over a curve whose discriminant has no such square it takes the time of factoring that, and of a Popov
/// basis of the unit matrix.
fn finite_order<K: SmallField>(alloc: Global, k: &K, curve: &Curve) -> Result<Order, AllocError>
    requires { IsCurve (K.field k.now) curve.now }
    ensures { IfOk result (IsIntegralLattice (K.field k.now) curve.now Finite) }
{
    let p = curve.fin();
    let factors = factor(alloc, k, curve.disc())?;
    let primes = repeated(alloc, factors.parts())?;
    let start = equation_order(alloc, k, p)?;
    maximal(alloc, k, p, &start, &primes)
}

/// The variable of a presentation.
fn variable(alloc: Global) -> Result<Poly, AllocError>
    ensures { IfOk result (λ t. t ≡ 0 ∷ 1 ∷ []) }
{
    shift(alloc, &Poly::one(alloc)?, 1)
}

/// The integral functions of the infinite side that have powers of t = 1/x as denominators: k[t][Y], enlarged at t.
/// Their combinations over the fractions of degree at most 0 are all integral functions of that side. It takes the time
/// of `p_maximal` at t over the infinite presentation.
fn infinite_order<K: SmallField>(alloc: Global, k: &K, curve: &Curve) -> Result<Order, AllocError>
    requires { IsCurve (K.field k.now) curve.now }
    ensures { IfOk result (IsIntegralLattice (K.field k.now) curve.now Infinite) }
{
    let p = curve.inf();
    let t = variable(alloc)?;
    let start = infinite_start(alloc, k, curve)?;
    p_maximal(alloc, k, p, &start, &t)
}

/// The maximal order of a side: the integral functions of the finite side, or those of the infinite side that have
/// powers of t = 1/x as denominators, whose combinations over the fractions of degree at most 0 are all integral
/// functions of that side (Stichtenoth, Algebraic Function Fields and Codes, chapter 3; Hess, 2002). It takes the time
/// of factoring the discriminant and of the turns that enlarge k[x][y], or of those that enlarge k[t][Y] at t.
pub fn maximal_order<K: SmallField>(
    alloc: Global,
    k: &K,
    curve: &Curve,
    side: Side,
) -> Result<Order, AllocError>
    requires { IsCurve (K.field k.now) curve.now }
    ensures { IfOk result (IsIntegralLattice (K.field k.now) curve.now side) }
{
    match side {
        Side::Finite => finite_order(alloc, k, curve),
        Side::Infinite => infinite_order(alloc, k, curve),
    }
}
