//! The statement `factor`.

ghost use Rattle.std.specs.Prelude.{◌≡◌, false, All, IfOk, IfErr, map};
ghost use Rattle.ff_text.specs.Printing.{IsWritableTerms};
ghost use Rattle.ff_text.specs.Values.{HasSmallExponents};
ghost use Rattle.function_field.specs.Limits.{max_degree};
ghost use Rattle.ff_meaning.specs.Refusals.{UnlessMemory, IsFactorRow};
ghost use Rattle.ff_cert.specs.declared.answer.PowerLine.{PowerLine};
ghost use Rattle.ff_session.specs.Steps.{AreFactorsRead};

use ff_cert::{PowerLine, PowerList};
use ff_factor::factor;
use ff_fields::field::SmallField;
use ff_meaning::{Refusal, degree_in_x, polynomial, sum};
use ff_poly::Poly;
use ff_text::TermList;
use std::alloc::{AllocError, Global};

/// The greatest degree of an element's polynomials, and of a polynomial to factor.
pub const MAX_DEGREE: u16 = 512;

/// A line for each power.
fn lines(alloc: Global, parts: &[(Poly, u32)]) -> Result<PowerList, AllocError>
    ensures { IfOk result (λ l. map (λ (x : PowerLine). (x.poly, x.exponent)) l ≡ parts.now) }
{
    let mut powers = Vec::new(alloc);
    for part in parts {
        let poly = part.0.copy(alloc)?;
        let exponent = part.1;
        powers.push(PowerLine { exponent, poly })?;
    }
    Ok(PowerList { powers })
}

/// The factors of the polynomial in x as it is written, a code and the powers of irreducible polynomials, or why it has
/// none.
pub fn factors_of<K: SmallField>(
    alloc: Global,
    k: &K,
    g: &TermList,
) -> Result<(u32, PowerList), Refusal>
    requires writable { IsWritableTerms false g.now }
    requires powers { All HasSmallExponents g.now }
    ensures factors { IfOk result (λ r. AreFactorsRead (K.field k.now).ops g.now r.0 r.1) }
    ensures refused { IfErr result (UnlessMemory (IsFactorRow (K.field k.now).ops max_degree g.now)) }
{
    let terms = sum(alloc, k, g)?;
    let degree = degree_in_x(terms.list());
    if degree > u64::from(MAX_DEGREE) {
        return Err(Refusal::LimitX(degree));
    }
    let p = polynomial(alloc, k, MAX_DEGREE, terms.list())?;
    if p.is_zero() {
        return Err(Refusal::Zero);
    }
    let factors = factor(alloc, k, &p)?;
    let parts = lines(alloc, factors.parts())?;
    Ok((factors.unit(), parts))
}
