//! Printed forms, each written at the end of one buffer. After an error the buffer holds a part of the text.

ghost use Rattle.std.specs.Prelude.{◌≡◌, ◌↔◌, [], ◌∷◌, ◌++◌, IsTrue, OnOk};
ghost use Rattle.ff_text.specs.Printed.{power_text, term_text, poly_text, term_count, den_text, denominator_text, elem_text};
ghost use Rattle.ff_text.specs.PrintedWriting.{commas_text};

use crate::number::push_number;
use ff_poly::Poly;
use std::alloc::AllocError;

/// x to the power j; nothing at exponent 0.
fn push_power(out: &mut Vec<u8>, j: u64) -> Result<(), AllocError>
    ensures { OnOk result (out.new.items ≡ out.old.items ++ power_text j) }
{
    if j == 0 {
        return Ok(());
    }
    out.push(b'x')?;
    if j > 1 {
        out.push(b'^')?;
        push_number(out, j)?;
    }
    Ok(())
}

/// The code c at degree j.
fn push_term(out: &mut Vec<u8>, c: u32, j: u64) -> Result<(), AllocError>
    ensures { OnOk result (out.new.items ≡ out.old.items ++ term_text c j) }
{
    if j == 0 {
        return push_number(out, u64::from(c));
    }
    if c != 1 {
        push_number(out, u64::from(c))?;
        out.push(b'*')?;
    }
    push_power(out, j)
}

/// The text of a polynomial, in time of its degree.
pub fn push_poly(out: &mut Vec<u8>, p: &Poly) -> Result<(), AllocError>
    ensures { OnOk result (out.new.items ≡ out.old.items ++ poly_text p.now) }
{
    let Some(degree) = p.degree() else {
        out.push(b'0')?;
        return Ok(());
    };
    push_term(out, p.top(), degree as u64)?;
    for j in (0..degree).rev() {
        let c = p.coeff(j);
        if c != 0 {
            out.extend_from_slice(b" + ")?;
            push_term(out, c, j as u64)?;
        }
    }
    Ok(())
}

/// The polynomials, each behind `, `.
fn push_commas(out: &mut Vec<u8>, polys: &[Poly]) -> Result<(), AllocError>
    ensures { OnOk result (out.new.items ≡ out.old.items ++ commas_text polys.now) }
{
    for p in polys {
        out.extend_from_slice(b", ")?;
        push_poly(out, p)?;
    }
    Ok(())
}

/// How many codes aren't 0.
pub(super) fn count_terms(p: &Poly) -> usize
    ensures { result ≡ term_count p.now }
{
    p.codes().iter().filter(|c| **c > 0).count()
}

/// The denominator, in parentheses where it has more than one term.
fn push_den(out: &mut Vec<u8>, den: &Poly) -> Result<(), AllocError>
    ensures { OnOk result (out.new.items ≡ out.old.items ++ den_text den.now) }
{
    if count_terms(den) <= 1 {
        return push_poly(out, den);
    }
    out.push(b'(')?;
    push_poly(out, den)?;
    out.push(b')')?;
    Ok(())
}

/// Is it the polynomial 1?
fn is_one(p: &Poly) -> bool
    ensures { IsTrue result ↔ (p.now ≡ 1 ∷ []) }
{
    p.codes() == [1].as_slice()
}

/// The denominator behind `/`, and nothing where it is 1.
fn push_over(out: &mut Vec<u8>, den: &Poly) -> Result<(), AllocError>
    ensures { OnOk result (out.new.items ≡ out.old.items ++ denominator_text den.now) }
{
    if is_one(den) {
        return Ok(());
    }
    out.push(b'/')?;
    push_den(out, den)
}

/// The text of an element, in time of its degrees.
pub fn push_elem(out: &mut Vec<u8>, num: &[Poly], den: &Poly) -> Result<(), AllocError>
    ensures { OnOk result (out.new.items ≡ out.old.items ++ elem_text num.now den.now) }
{
    out.push(b'[')?;
    if let Some((first, others)) = num.split_first() {
        push_poly(out, first)?;
        push_commas(out, others)?;
    }
    out.push(b']')?;
    push_over(out, den)
}
