//! Polynomials as they are written, over a field.

ghost use Rattle.std.specs.Prelude.{◌≡◌, ◌<◌, ◌≤◌, All, IfOk, IfErr};
ghost use Rattle.ff_fields.specs.Over.{IsOver};
ghost use Rattle.ff_algebra.specs.CurveTerms.{IsCoefficient, degree_in_x};
ghost use Rattle.ff_text.specs.Values.{written_codes, HasSmallExponents};
ghost use Rattle.ff_meaning.specs.Meaning.{IsSumOf};
ghost use Rattle.ff_meaning.specs.Refusals.{UnlessMemory, IsCodeRow};

use crate::refusal::Refusal;
use ff_fields::field::SmallField;
use ff_poly::{Poly, Terms};
use ff_text::{TermList, TextFault, collect};
use std::alloc::{AllocError, Global};

/// The sum of the terms, or the first written code that is too great. Time grows with the square of the number of
/// terms.
pub fn sum<K: SmallField>(alloc: Global, k: &K, terms: &TermList) -> Result<Terms, Refusal>
    requires { All HasSmallExponents terms.now }
    ensures sum { IfOk result (IsSumOf (K.field k.now).ops terms.now) }
    ensures refused { IfErr result (UnlessMemory (IsCodeRow (K.field k.now).size (written_codes terms.now))) }
{
    match collect(alloc, k, terms) {
        Ok(sum) => Ok(sum),
        Err(TextFault::CodeRange(c)) => Err(Refusal::CodeRange(c)),
        Err(TextFault::Memory) => Err(Refusal::Memory),
        Err(TextFault::Syntax(_)) => unreachable!(),
    }
}

/// The greatest exponent of x, 0 where there are no terms.
pub fn degree_in_x(terms: &[(u64, u64, u32)]) -> u64
    ensures { result ≡ degree_in_x terms.now }
{
    let mut degree = 0;
    for term in terms {
        degree = term.1.max(degree);
    }
    degree
}

/// The polynomial in x of the terms without y. No exponent of x is above the bound. It takes time in proportion to the
/// terms and the bound.
pub fn polynomial<K: SmallField>(
    alloc: Global,
    k: &K,
    bound: u16,
    terms: &[(u64, u64, u32)],
) -> Result<Poly, AllocError>
    requires codes_in { All (λ t. t.2 < (K.field k.now).size) terms.now }
    requires low { degree_in_x terms.now ≤ bound }
    ensures coefficient { IfOk result (IsCoefficient (K.field k.now).ops terms.now 0) }
    ensures over { IfOk result (IsOver (K.field k.now).ops) }
{
    let mut codes = vec![in alloc; 0; bound as usize + 1]?;
    for j in (0..terms.len()).rev() {
        let (y, x, code) = terms[j];
        if y == 0 {
            codes[x as usize] = k.add(code, codes[x as usize]);
        }
    }
    Ok(Poly::from_codes(codes))
}
