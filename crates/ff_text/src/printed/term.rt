//! Reads terms in x.

ghost use Rattle.std.specs.Prelude.{◌<◌, IfSome};
ghost use Rattle.ff_text.specs.PrintedReading.{Finds, exponent_at, power_at, factor_at, term_at, plus_at, lower_at};

use super::digits::{after, number};

/// The exponent behind x, 1 if none is written.
#[tactic(auto, unfolding(crate::specs::PrintedReading::exponent_at))]
fn exponent(bytes: &[u8]) -> Option<(u32, &[u8])>
    ensures { Finds (λ x. (x.0, x.1.now)) result (exponent_at bytes.now) }
{
    match after(bytes, b"^") {
        Some(rest) => number(rest, 2, 1025),
        None => Some((1, bytes)),
    }
}

/// The exponent of a power of x, from 1 to 1,024.
#[tactic(auto, unfolding(crate::specs::PrintedReading::power_at))]
pub(super) fn power(bytes: &[u8]) -> Option<(u32, &[u8])>
    ensures { Finds (λ x. (x.0, x.1.now)) result (power_at bytes.now) }
{
    exponent(after(bytes, b"x")?)
}

/// The power of x behind a code and `*`, where the code isn't 1.
fn factor(code: u32, bytes: &[u8]) -> Option<((u32, u32), &[u8])>
    ensures { Finds (λ x. (x.0, x.1.now)) result (factor_at code bytes.now) }
{
    if code <= 1 {
        return None;
    }
    let (degree, rest) = power(bytes)?;
    Some(((code, degree), rest))
}

/// The code and the degree of a term.
#[tactic(auto, unfolding(crate::specs::PrintedReading::term_at))]
pub(super) fn term(bytes: &[u8]) -> Option<((u32, u32), &[u8])>
    ensures { Finds (λ x. (x.0, x.1.now)) result (term_at bytes.now) }
{
    match number(bytes, 1, 65_536) {
        Some((code, rest)) => match after(rest, b"*") {
            Some(behind) => factor(code, behind),
            None => Some(((code, 0), rest)),
        },
        None => {
            let (degree, rest) = power(bytes)?;
            Some(((1, degree), rest))
        }
    }
}

/// A term behind ` + `.
#[tactic(auto, unfolding(crate::specs::PrintedReading::plus_at))]
fn plus(bytes: &[u8]) -> Option<((u32, u32), &[u8])>
    ensures { Finds (λ x. (x.0, x.1.now)) result (plus_at bytes.now) }
{
    term(after(bytes, b" + ")?)
}

/// A term behind ` + `, of a degree below the bound.
#[tactic(auto, unfolding(crate::specs::PrintedReading::lower_at))]
pub(super) fn lower(bytes: &[u8], bound: u32) -> Option<((u32, u32), &[u8])>
    ensures found { Finds (λ x. (x.0, x.1.now)) result (lower_at bound bytes.now) }
    ensures below { IfSome result (λ x. x.0.1 < bound) }
{
    let ((code, degree), rest) = plus(bytes)?;
    (degree < bound).then_some(((code, degree), rest))
}
