//! Reads polynomials.

ghost use Rattle.std.specs.Prelude.{◌≡◌, ◌++◌, replicate, IfOk, OnOk};
ghost use Rattle.ff_text.specs.PrintedReading.{FindsUnless, codes_at, poly_at};

use super::digits::after;
use super::term::{lower, term};
use crate::fault::TextFault;
use ff_poly::Poly;
use std::alloc::{AllocError, Global};

/// Appends zeros.
pub(super) fn push_zeros(codes: &mut Vec<u32>, count: u32) -> Result<(), AllocError>
    ensures { OnOk result (codes.new.items ≡ codes.old.items ++ replicate count 0) }
{
    codes.resize(codes.len() + count as usize, 0)
}

/// Appends the codes of the terms below the degree, from the top down, with zeros where no term is, and answers the
/// bytes behind them.
fn push_codes<'a>(
    codes: &mut Vec<u32>,
    bytes: &'a [u8],
    degree: u32,
) -> Result<&'a [u8], AllocError>
    ensures codes { OnOk result (codes.new.items ≡ codes.old.items ++ (codes_at degree bytes.now).0) }
    ensures rest { IfOk result (λ rest. rest.now ≡ (codes_at degree bytes.now).1) }
{
    let mut bound = degree;
    let mut rest = bytes;
    while let Some(((code, j), behind)) = lower(rest, bound) {
        push_zeros(codes, bound - 1 - j)?;
        codes.push(code)?;
        bound = j;
        rest = behind;
    }
    push_zeros(codes, bound)?;
    Ok(rest)
}

/// A polynomial with codes below 65,536 and a degree of at most 1,024, and the bytes behind it.
#[tactic(auto, unfolding(crate::specs::PrintedReading::poly_at))]
pub(super) fn poly(alloc: Global, bytes: &[u8]) -> Result<(Poly, &[u8]), TextFault>
    ensures { FindsUnless (λ x. (x.0, x.1.now)) result (poly_at bytes.now) }
{
    let mut codes = Vec::new(alloc);
    match term(bytes) {
        Some(((code, degree), rest)) => {
            codes.push(code)?;
            let rest = push_codes(&mut codes, rest, degree)?;
            codes.reverse();
            Ok((Poly::from_codes(codes), rest))
        }
        None => match after(bytes, b"0") {
            Some(rest) => Ok((Poly::from_codes(codes), rest)),
            None => Err(TextFault::Syntax(0)),
        },
    }
}
