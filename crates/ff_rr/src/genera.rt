//! The genus.

ghost use Rattle.std.specs.Prelude.{◌≡◌, ◌*◌, ◌-ℤ◌, ◌≤ℤ◌, length, All};
ghost use Rattle.std.proofs.Common.{pos};
ghost use Rattle.ring_lemmas.specs.Ring.{IsField};
ghost use Rattle.function_field.specs.Divisors.{HasGenus};
ghost use Rattle.function_field.specs.Values.{functions, setting};
ghost use Rattle.linear_theory.specs.Lists.{entry};
ghost use Rattle.reduced_basis_theory.specs.Degree.{size, degree_sum, genus_sum};
ghost use Rattle.ff_rr.specs.Frames.{IsFrame};
ghost use Rattle.ff_rr.specs.Constants.{IsConstantSpace};

use crate::frame::Frame;
use crate::spaces::SpaceBasis;
use ff_fields::field::SmallField;

/// The number max(0, d - 1).
fn less_one(d: i64) -> u32
    requires nonnegative { pos 0 ≤ℤ d }
    requires small { d ≤ℤ pos 112 }
    ensures { result ≡ size (d -ℤ pos 2) }
{
    if d > 1 { (d - 1) as u32 } else { 0 }
}

/// The sum of the numbers max(0, d - 1).
fn excess(degrees: &[i64]) -> u32
    requires nonnegative { All (λ d. pos 0 ≤ℤ d) degrees.now }
    requires small { degree_sum (length degrees.now) (entry (pos 0) degrees.now) ≤ℤ pos 112 }
    ensures { result ≡ genus_sum (length degrees.now) (entry (pos 0) degrees.now) }
{
    let mut sum = 0;
    for d in degrees {
        sum += less_one(*d);
    }
    sum
}

/// The genus of the function field over its constants, which are given: the sum of the numbers max(0, d - 1), for the
/// degrees d of the basis of both orders, over the dimension of the constants over k. No memory.
pub fn genus<K: SmallField>(k: &K, f: &Frame, constants: &SpaceBasis) -> u32
    requires frame { IsFrame (K.field k.now) f.now }
    requires constants { IsConstantSpace (K.field k.now) f.now constants.now }
    requires field { IsField (functions (K.field k.now) f.now.curve.fin).ops }
    ensures genus { HasGenus (setting (K.field k.now) f.now.curve.fin) result }
    ensures sum { result * length constants.now.space.functions
        ≡ genus_sum f.now.curve.fin.n (entry (pos 0) constants.now.split.degrees) }
{
    let dimension = constants.functions().len();
    (excess(constants.split().degrees()) as usize / dimension) as u32
}
