//! Prints polynomials and elements, in time in proportion to their texts. What appends to a buffer leaves a part of the
//! text there after an error.

ghost use Rattle.std.specs.Prelude.{◌≡◌, ◌++◌, IfOk, OnOk};
ghost use Rattle.ff_text.specs.Printing.{letter_text, factor_text, next_factors_text, factors_text, next_terms_text, terms_text, next_entries_text, entries_text, divisor_text, is_one_term, element_text};

use crate::number::push_number;
use crate::terms::{ElemText, Factor, Term, TermList};
use std::alloc::{AllocError, Global};

/// The text of a polynomial: terms joined by ` + ` and ` - `, and factors by `*`. An exponent 1 isn't printed.
pub fn print_terms(alloc: Global, terms: &TermList) -> Result<Vec<u8>, AllocError>
    ensures { IfOk result (λ v. v.items ≡ terms_text terms.now) }
{
    let mut out = Vec::new(alloc);
    push_terms(&mut out, terms)?;
    Ok(out)
}

/// The text of an element: polynomials in brackets, and behind `/` the denominator, which stands in parentheses unless
/// it is one term without a minus.
pub fn print_element(alloc: Global, element: &ElemText) -> Result<Vec<u8>, AllocError>
    ensures { IfOk result (λ v. v.items ≡ element_text element.now) }
{
    let mut out = Vec::new(alloc);
    push_element(&mut out, element)?;
    Ok(out)
}

fn push_letter(out: &mut Vec<u8>, letter: &[u8], n: u32) -> Result<(), AllocError>
    ensures { OnOk result (out.new.items ≡ out.old.items ++ letter_text letter.now n) }
{
    out.extend_from_slice(letter)?;
    if n != 1 {
        out.push(b'^')?;
        push_number(out, u64::from(n))?;
    }
    Ok(())
}

fn push_factor(out: &mut Vec<u8>, f: Factor) -> Result<(), AllocError>
    ensures { OnOk result (out.new.items ≡ out.old.items ++ factor_text f) }
{
    match f {
        Factor::Code(n) => push_number(out, u64::from(n)),
        Factor::X(n) => push_letter(out, b"x", n),
        Factor::Y(n) => push_letter(out, b"y", n),
    }
}

/// The factors, each behind `*`.
fn push_next_factors(out: &mut Vec<u8>, factors: &[Factor]) -> Result<(), AllocError>
    ensures { OnOk result (out.new.items ≡ out.old.items ++ next_factors_text factors.now) }
{
    for f in factors {
        out.push(b'*')?;
        push_factor(out, *f)?;
    }
    Ok(())
}

fn push_factors(out: &mut Vec<u8>, factors: &[Factor]) -> Result<(), AllocError>
    ensures { OnOk result (out.new.items ≡ out.old.items ++ factors_text factors.now) }
{
    let Some((first, others)) = factors.split_first() else {
        return Ok(());
    };
    push_factor(out, *first)?;
    push_next_factors(out, others)
}

/// The terms, each behind its sign.
fn push_next_terms(out: &mut Vec<u8>, terms: &[Term]) -> Result<(), AllocError>
    ensures { OnOk result (out.new.items ≡ out.old.items ++ next_terms_text terms.now) }
{
    for t in terms {
        out.extend_from_slice(if t.minus { b" - " } else { b" + " })?;
        push_factors(out, t.factors.factors.as_slice())?;
    }
    Ok(())
}

fn push_term_slice(out: &mut Vec<u8>, terms: &[Term]) -> Result<(), AllocError>
    ensures { OnOk result (out.new.items ≡ out.old.items ++ terms_text terms.now) }
{
    let Some((first, others)) = terms.split_first() else {
        return Ok(());
    };
    if first.minus {
        out.push(b'-')?;
    }
    push_factors(out, first.factors.factors.as_slice())?;
    push_next_terms(out, others)
}

/// The text of a polynomial at the end of the buffer.
pub fn push_terms(out: &mut Vec<u8>, terms: &TermList) -> Result<(), AllocError>
    ensures { OnOk result (out.new.items ≡ out.old.items ++ terms_text terms.now) }
{
    push_term_slice(out, terms.terms.as_slice())
}

/// The polynomials, each behind `, `.
fn push_next_entries(out: &mut Vec<u8>, entries: &[TermList]) -> Result<(), AllocError>
    ensures { OnOk result (out.new.items ≡ out.old.items ++ next_entries_text entries.now) }
{
    for e in entries {
        out.extend_from_slice(b", ")?;
        push_terms(out, e)?;
    }
    Ok(())
}

fn push_entries(out: &mut Vec<u8>, entries: &[TermList]) -> Result<(), AllocError>
    ensures { OnOk result (out.new.items ≡ out.old.items ++ entries_text entries.now) }
{
    let Some((first, others)) = entries.split_first() else {
        return Ok(());
    };
    push_terms(out, first)?;
    push_next_entries(out, others)
}

/// One term without a minus.
fn is_simple(den: &[Term]) -> bool
    ensures { result ≡ is_one_term den.now }
{
    match den {
        [t] => !t.minus,
        _ => false,
    }
}

fn push_den(out: &mut Vec<u8>, den: &TermList) -> Result<(), AllocError>
    ensures { OnOk result (out.new.items ≡ out.old.items ++ divisor_text (Some den.now)) }
{
    out.push(b'/')?;
    if is_simple(den.terms.as_slice()) {
        return push_terms(out, den);
    }
    out.push(b'(')?;
    push_terms(out, den)?;
    out.push(b')')?;
    Ok(())
}

/// The text of an element at the end of the buffer.
pub fn push_element(out: &mut Vec<u8>, element: &ElemText) -> Result<(), AllocError>
    ensures { OnOk result (out.new.items ≡ out.old.items ++ element_text element.now) }
{
    out.push(b'[')?;
    push_entries(out, element.entries.entries.as_slice())?;
    out.push(b']')?;
    match &element.den {
        Some(d) => push_den(out, d),
        None => Ok(()),
    }
}
