//! The places over a polynomial, or over infinity.

ghost use Rattle.std.specs.Prelude.{◌≡◌, [], ◌∷◌, All, IfOk};
ghost use Rattle.function_field.specs.declared.side.Side.TheVariants.{Infinite};
ghost use Rattle.function_field.specs.Curves.{IsCurve};
ghost use Rattle.value_theory.specs.IntegralLattices.{presentation};
ghost use Rattle.value_theory.specs.Primes.{AreAllPrimes};
ghost use Rattle.decomposition_theory.specs.Decompositions.{IsMaximalOrderAt};
ghost use Rattle.place_lists_theory.specs.Lists.{ArePlacesOfPrimes};
ghost use Rattle.ff_places.specs.Numbers.{NumberedFrom, AreInOrder};

use crate::numbers::{numbered, ordered};
use crate::primes::primes_above;
use ff_algebra::curve::Curve;
use ff_algebra::{Pres, Side};
use ff_fields::field::SmallField;
use ff_ideal::Prime;
use ff_lattice::Order;
use ff_poly::Poly;
use std::alloc::{AllocError, Global};

/// The presentation of a side.
fn presentation(c: &Curve, side: Side) -> &Pres
    ensures { result.now ≡ presentation c.now side }
{
    match side {
        Side::Finite => c.fin(),
        Side::Infinite => c.inf(),
    }
}

/// All places of a side over an irreducible monic polynomial, or over infinity, as primes of an order of the side that
/// is maximal there: each has what one place has of the order, with its ramification index and its degree, and each
/// place has a prime. Over infinity the polynomial is the variable t = 1/x. They stand in the order of the texts of
/// their rows, row 1 first, and are numbered from 1. What it costs, the page of the crate says.
pub fn places_above<K: SmallField>(
    alloc: Global,
    k: &K,
    c: &Curve,
    side: Side,
    o: &Order,
    pi: &Poly,
) -> Result<Vec<Prime>, AllocError>
    requires curve { IsCurve (K.field k.now) c.now }
    requires order { IsMaximalOrderAt (K.field k.now) (presentation c.now side) o.now pi.now }
    requires infinite { side ≡ Infinite → pi.now ≡ 0 ∷ 1 ∷ [] }
    ensures primes { IfOk result (λ v.
        AreAllPrimes (K.field k.now) (presentation c.now side) o.now pi.now v.items) }
    ensures sides { IfOk result (λ v. All (λ q. q.side ≡ side) v.items) }
    ensures places { IfOk result (λ v. ArePlacesOfPrimes (K.field k.now) c.now side o.now pi.now v.items) }
    ensures order { IfOk result (λ v. AreInOrder (K.field k.now) c.now side v.items) }
    ensures numbers { IfOk result (λ v. NumberedFrom 1 v.items) }
{
    let primes = primes_above(alloc, k, presentation(c, side), o, side, pi)?;
    let list = ordered(alloc, k, c, side, primes.as_slice())?;
    numbered(alloc, list.as_slice())
}
