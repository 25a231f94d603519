//! The statement `mul`.

ghost use Rattle.std.specs.Prelude.{IfOk, IfErr};
ghost use Rattle.function_field.specs.Values.{IsPresOver};
ghost use Rattle.ff_text.specs.Printing.{IsWritableElement};
ghost use Rattle.ff_meaning.specs.Refusals.{UnlessMemory, IsProductRow};
ghost use Rattle.function_field.specs.Limits.{max_degree};
ghost use Rattle.ff_meaning.specs.Bindings.{HasSmallElement};
ghost use Rattle.ff_session.specs.Steps.{IsProductRead};

use crate::statements::factor::MAX_DEGREE;
use ff_algebra::elem::{Pres, mul};
use ff_factor::divisors_of_product;
use ff_fields::field::SmallField;
use ff_meaning::{Refusal, element};
use ff_text::{ElemText, Written};
use ff_written::in_lowest_terms_by;
use std::alloc::Global;

/// The product of the elements, in lowest terms. It takes the square of the degrees, and the factors of both
/// denominators.
pub fn product<K: SmallField>(
    alloc: Global,
    k: &K,
    f: &Pres,
    a: &ElemText,
    b: &ElemText,
) -> Result<Written, Refusal>
    requires equation { IsPresOver (K.field k.now).ops f.now }
    requires a_writable { IsWritableElement a.now }
    requires b_writable { IsWritableElement b.now }
    requires a_powers { HasSmallElement a.now }
    requires b_powers { HasSmallElement b.now }
    ensures product { IfOk result (IsProductRead (K.field k.now) f.now a.now b.now) }
    ensures refused { IfErr result (UnlessMemory (IsProductRow (K.field k.now).ops f.now.n max_degree a.now b.now)) }
{
    let left = element(alloc, k, f.n(), MAX_DEGREE, a)?;
    let right = element(alloc, k, f.n(), MAX_DEGREE, b)?;
    let z = mul(alloc, k, f, &left, &right)?;
    let divisors = divisors_of_product(alloc, k, left.den(), right.den())?;
    Ok(in_lowest_terms_by(alloc, k, f, &z, divisors.as_slice())?)
}
