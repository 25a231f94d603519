//! Curves, and what is asked of their orders.

ghost use Rattle.function_field.specs.Curves.{IsCurve};

use crate::enlarged::enlarged_text;
use crate::infinite::is_member;
use crate::lattices::lattice_text;
use crate::places::places_text;
use case_values::curves::curve;
use case_values::print::decided;
use case_values::read::parted;
use ff_algebra::{Curve, Side};
use ff_fields::field::SmallField;
use ff_infinite::infinite_start;
use ff_maximal::maximal_order;
use std::alloc::{AllocError, Global};

fn maximal_text<K: SmallField>(
    alloc: Global,
    k: &K,
    c: &Curve,
    side: Side,
) -> Result<String, AllocError>
    requires { IsCurve (K.field k.now) c.now }
{
    lattice_text(alloc, maximal_order(alloc, k, c, side)?.lattice())
}

/// `terms:` and an argument. The maximal order of a side, or k[t][Y], of no argument; whether an element is in k[t][Y]
/// or in its combinations over the fractions of degree at most 0; the places over a polynomial, and values at them; or a
/// radical, its multipliers, or an enlargement, of polynomials.
pub fn curve_line<K: SmallField>(
    alloc: Global,
    k: &K,
    word: &str,
    text: &str,
) -> Result<String, AllocError> {
    let (list, rest) = parted(text)?;
    let c = curve(alloc, k, list)?;
    match word {
        "finite" => maximal_text(alloc, k, &c, Side::Finite),
        "infinite" => maximal_text(alloc, k, &c, Side::Infinite),
        "start" => lattice_text(alloc, infinite_start(alloc, k, &c)?.lattice()),
        "places" | "valuation" => places_text(alloc, k, &c, word, rest),
        "plain" | "local" => decided(alloc, is_member(alloc, k, &c, word, rest)?),
        _ => enlarged_text(alloc, k, &c, word, rest),
    }
}
