//! The least two residues whose product is 0.

ghost use Rattle.std.specs.Prelude.{ℕ, ◌+◌, ◌^◌, ◌<◌, ◌≤◌, IfNone, IfSome};
ghost use Rattle.ff_fields.specs.Modulus.{IsMonicModulus, IsMonicCode, IsFactor, IsLeastZeroProduct, NoFactorBelow, NoZeroProduct};

use crate::digits::{code_of, write_digits};
use crate::reduce::reduce_product;

/// The code c for which d·c is the modulus, where d, of this degree, divides it.
fn cofactor(p: u32, m: u32, modulus: &[u32], degree: u32, d: u32) -> Option<u32>
    requires modulus { IsMonicModulus p m modulus.now }
    requires some { 0 < degree }
    requires half { degree + degree ≤ m }
    requires monic { IsMonicCode p degree d }
    ensures none { IfNone result ((c : ℕ) → c < p ^ m → ¬ IsFactor p m modulus.now d c) }
    ensures some { IfSome result (λ c. (c < p ^ m) × IsFactor p m modulus.now d c) }
{
    let mut divisor = [0; 17];
    let divisor = &mut divisor[..degree as usize + 1];
    write_digits(p, divisor, d);
    let one = [1, 0, 0, 0, 0, 0, 0, 0, 0, 0, 0, 0, 0, 0, 0, 0];
    let one = &one[..degree as usize];
    let mut rest = [1, 0, 0, 0, 0, 0, 0, 0, 0, 0, 0, 0, 0, 0, 0, 0];
    let rest = &mut rest[..degree as usize];
    let mut quotient = [0; 16];
    let quotient = &mut quotient[..m as usize];
    reduce_product(p, rest, quotient, &modulus[..m as usize], one, divisor);
    if code_of(p, rest) == 0 {
        Some(code_of(p, quotient))
    } else {
        None
    }
}

/// The least two residues whose product is 0, where the first has this degree and none of a lower degree has such
/// another.
fn zero_product_of(p: u32, m: u32, modulus: &[u32], degree: u32) -> Option<(u32, u32)>
    requires modulus { IsMonicModulus p m modulus.now }
    requires some { 0 < degree }
    requires half { degree + degree ≤ m }
    requires before { NoFactorBelow p m modulus.now (p ^ degree) }
    ensures none { IfNone result (NoFactorBelow p m modulus.now (p ^ (degree + 1))) }
    ensures some { IfSome result (λ pair. IsLeastZeroProduct p m modulus.now pair.0 pair.1) }
{
    let least = p.pow(degree);
    for d in least..2 * least {
        if let Some(c) = cofactor(p, m, modulus, degree, d) {
            return Some((d, c));
        }
    }
    None
}

/// The least two residues whose product is 0: the first monic divisor of the modulus and its cofactor.
pub(crate) fn zero_product(p: u32, m: u32, modulus: &[u32]) -> Option<(u32, u32)>
    requires { IsMonicModulus p m modulus.now }
    ensures none { IfNone result (NoZeroProduct p m modulus.now) }
    ensures some { IfSome result (λ pair. IsLeastZeroProduct p m modulus.now pair.0 pair.1) }
{
    for degree in 1..m / 2 + 1 {
        if let Some(pair) = zero_product_of(p, m, modulus, degree) {
            return Some(pair);
        }
    }
    None
}
