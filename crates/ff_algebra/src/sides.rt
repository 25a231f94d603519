//! The same function in the other presentation.

ghost use Rattle.std.specs.Prelude.{◌≡◌, ◌≢◌, ℕ, ◌+◌, ◌*◌, ◌^◌, ◌<◌, ◌≤◌, [], length, get_or, IfOk};
ghost use Rattle.function_field.specs.declared.side.Side.TheVariants.{Infinite};
ghost use Rattle.function_field.specs.Values.{PresValue, IsElem, IsMonicElem, function_of};
ghost use Rattle.function_field.specs.Infinity.{function_on};
ghost use Rattle.function_field.specs.Curves.{IsCurve};

use crate::curve::Curve;
use crate::curve::infinity::reversed;
use crate::elem::Elem;
use ff_fields::field::SmallField;
use std::alloc::{AllocError, Global};

/// The function of z in the infinite presentation, whose variable is t = 1/x and whose generator is Y = y/x^c. The
/// numerators and the denominator are read at 1/t and multiplied by the least power of t that makes polynomials of
/// them. z has n numerators. It takes the time of writing down the answer.
pub fn to_inf<K: SmallField>(alloc: Global, k: &K, c: &Curve, z: &Elem) -> Result<Elem, AllocError>
    requires curve { IsCurve (K.field k.now) c.now }
    requires z_in { IsElem (K.field k.now).ops c.now.fin.n z.now }
    ensures same_function { let k = K.field k.now in
        IfOk result (λ w. function_on k c.now.fin c.now.c Infinite w ≡ function_of k c.now.fin z.now) }
    ensures in_range { IfOk result (IsElem (K.field k.now).ops c.now.inf.n) }
    ensures monic { IfOk result IsMonicElem }
{
    turned(alloc, k, c.c() as usize, z)
}

/// The function of z, an element of the infinite presentation, in the finite one. z has n numerators. It takes the time
/// of writing down the answer.
pub fn to_fin<K: SmallField>(alloc: Global, k: &K, c: &Curve, z: &Elem) -> Result<Elem, AllocError>
    requires curve { IsCurve (K.field k.now) c.now }
    requires z_in { IsElem (K.field k.now).ops c.now.inf.n z.now }
    ensures same_function { let k = K.field k.now in
        IfOk result (λ w. function_of k c.now.fin w ≡ function_on k c.now.fin c.now.c Infinite z.now) }
    ensures in_range { IfOk result (IsElem (K.field k.now).ops c.now.fin.n) }
    ensures monic { IfOk result IsMonicElem }
{
    turned(alloc, k, c.c() as usize, z)
}

/// The element of either presentation in the other one. One body serves both ways, since the one variable is the
/// inverse of the other, and each generator is the other one divided by the c-th power of its variable.
fn turned<K: SmallField>(alloc: Global, k: &K, c: usize, z: &Elem) -> Result<Elem, AllocError>
    requires small { c < 2 ^ 32 }
    requires short { length z.now.num ≤ 4 }
    requires z_in { IsElem (K.field k.now).ops (length z.now.num) z.now }
    ensures to_infinite { let k = K.field k.now in
        IfOk result (λ w.
        (p : PresValue) →
        1 ≤ p.n →
        p.n ≡ length z.now.num →
        function_on k p c Infinite w ≡ function_of k p z.now) }
    ensures to_finite { let k = K.field k.now in
        IfOk result (λ w.
        (p : PresValue) →
        1 ≤ p.n →
        p.n ≡ length z.now.num →
        function_of k p w ≡ function_on k p c Infinite z.now) }
    ensures in_range { IfOk result (IsElem (K.field k.now).ops (length z.now.num)) }
    ensures monic { IfOk result IsMonicElem }
{
    let m = codes_needed(c, z);
    let mut num = Vec::new(alloc);
    for i in 0..z.len() {
        num.push(reversed(alloc, &z.num()[i], m.saturating_sub(c * i))?)?;
    }
    let den = reversed(alloc, z.den(), m)?;
    Ok(Elem::new(k, num, den))
}

/// The least number of codes that is enough for the denominator, and leaves enough less c·i for each numerator but 0,
/// the one at the i-th power of the generator.
fn codes_needed(c: usize, z: &Elem) -> usize
    requires small { c < 2 ^ 32 }
    requires short { length z.now.num ≤ 4 }
    ensures den { length z.now.den ≤ result }
    ensures num { (i : ℕ) → i < length z.now.num → get_or z.now.num i [] ≢ [] →
        length (get_or z.now.num i []) + c * i ≤ result }
{
    let mut m = z.den().codes().len();
    for i in 0..z.len() {
        let len = z.num()[i].codes().len();
        if len > 0 {
            m = m.max(len + c * i);
        }
    }
    m
}
