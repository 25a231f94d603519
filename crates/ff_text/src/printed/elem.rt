//! Reads elements.

ghost use Rattle.std.specs.Prelude.{◌≡◌, IfOk, ◌==◌, ◌&&◌, nat_lt};
ghost use Rattle.ff_poly.specs.Words.{top_of};
ghost use Rattle.ff_text.specs.Printed.{term_count};
ghost use Rattle.ff_text.specs.PrintedReading.{FindsUnless, with_front, polys_at, num_at, inner_at, power_of_x, den_at, over_at, elem_at};

use super::digits::after;
use super::poly::{poly, push_zeros};
use super::term::power;
use super::write::count_terms;
use crate::fault::TextFault;
use ff_poly::Poly;
use std::alloc::{AllocError, Global};

/// The polynomials, and those that follow with `, ` before each.
fn more_polys(
    alloc: Global,
    polys: Vec<Poly>,
    bytes: &[u8],
) -> Result<(Vec<Poly>, &[u8]), TextFault>
    ensures { FindsUnless (λ x. (x.0.items, x.1.now)) result (with_front polys.items (polys_at bytes.now)) }
{
    let mut polys = polys;
    let mut rest = bytes;
    while let Some(start) = after(rest, b", ") {
        let (p, behind) = poly(alloc, start)?;
        polys.push(p)?;
        rest = behind;
    }
    Ok((polys, rest))
}

/// The numerators in brackets.
#[tactic(auto, unfolding(crate::specs::PrintedReading::num_at))]
fn num(alloc: Global, bytes: &[u8]) -> Result<(Vec<Poly>, &[u8]), TextFault>
    ensures { FindsUnless (λ x. (x.0.items, x.1.now)) result (num_at bytes.now) }
{
    let Some(start) = after(bytes, b"[") else {
        return Err(TextFault::Syntax(0));
    };
    let (first, rest) = poly(alloc, start)?;
    let mut polys = Vec::new(alloc);
    polys.push(first)?;
    let (polys, rest) = more_polys(alloc, polys, rest)?;
    match after(rest, b"]") {
        Some(rest) => Ok((polys, rest)),
        None => Err(TextFault::Syntax(0)),
    }
}

/// x to the power j.
fn power_of_x(alloc: Global, j: u32) -> Result<Poly, AllocError>
    ensures { IfOk result (λ p. p ≡ power_of_x j) }
{
    let mut codes = Vec::new(alloc);
    push_zeros(&mut codes, j)?;
    codes.push(1)?;
    Ok(Poly::from_codes(codes))
}

/// Is it monic, with more than one term?
fn is_long(p: &Poly) -> bool
    ensures { result ≡ ((top_of p.now == 1) && nat_lt 1 (term_count p.now)) }
{
    !p.is_zero() && p.top() == 1 && count_terms(p) > 1
}

/// A monic polynomial of more than one term, behind its opening parenthesis.
#[tactic(auto, unfolding(crate::specs::PrintedReading::inner_at))]
fn inner(alloc: Global, bytes: &[u8]) -> Result<(Poly, &[u8]), TextFault>
    ensures { FindsUnless (λ x. (x.0, x.1.now)) result (inner_at bytes.now) }
{
    let (p, rest) = poly(alloc, bytes)?;
    match after(rest, b")") {
        Some(rest) if is_long(&p) => Ok((p, rest)),
        _ => Err(TextFault::Syntax(0)),
    }
}

/// A denominator behind `/`.
#[tactic(auto, unfolding(crate::specs::PrintedReading::den_at))]
fn den(alloc: Global, bytes: &[u8]) -> Result<(Poly, &[u8]), TextFault>
    ensures { FindsUnless (λ x. (x.0, x.1.now)) result (den_at bytes.now) }
{
    if let Some(start) = after(bytes, b"(") {
        return inner(alloc, start);
    }
    match power(bytes) {
        Some((j, rest)) => Ok((power_of_x(alloc, j)?, rest)),
        None => Err(TextFault::Syntax(0)),
    }
}

/// A denominator, 1 if none is written.
#[tactic(auto, unfolding(crate::specs::PrintedReading::over_at))]
fn over(alloc: Global, bytes: &[u8]) -> Result<(Poly, &[u8]), TextFault>
    ensures { FindsUnless (λ x. (x.0, x.1.now)) result (over_at bytes.now) }
{
    match after(bytes, b"/") {
        Some(start) => den(alloc, start),
        None => Ok((Poly::one(alloc)?, bytes)),
    }
}

/// The numerators and the denominator of an element, and the bytes behind it.
#[tactic(auto, unfolding(crate::specs::PrintedReading::elem_at))]
pub(super) fn elem(alloc: Global, bytes: &[u8]) -> Result<((Vec<Poly>, Poly), &[u8]), TextFault>
    ensures { FindsUnless (λ x. ((x.0.0.items, x.0.1), x.1.now)) result (elem_at bytes.now) }
{
    let (num, rest) = num(alloc, bytes)?;
    let (den, rest) = over(alloc, rest)?;
    Ok(((num, den), rest))
}
