//! Prints statements. What appends to a buffer leaves a part of the text there after an error.

ghost use Rattle.std.specs.Prelude.{◌≡◌, ◌++◌, codes, IfOk, OnOk};
ghost use Rattle.ff_script.specs.Printing.{numbers_text, tail_text, side_text, over_text, place_text, statement_text};

use crate::script::{Modulus, Name, Over, Statement};
use ff_text::number::push_number;
use ff_text::{push_element, push_terms};
use function_field::Side;
use std::alloc::{AllocError, Global};

/// The text of a statement, without a line feed: one space between tokens, and none within polynomials and elements
/// but around `+` and `-` and behind `,`. A denominator stands in parentheses unless it is one term without `-`. Linear
/// in the text.
pub fn print(alloc: Global, s: &Statement) -> Result<Vec<u8>, AllocError>
    ensures { IfOk result (λ v. v.items ≡ statement_text s.now) }
{
    let mut out = Vec::new(alloc);
    push_statement(&mut out, s)?;
    Ok(out)
}

/// The numbers, each behind a space.
fn push_numbers(out: &mut Vec<u8>, numbers: &[u32]) -> Result<(), AllocError>
    ensures { OnOk result (out.new.items ≡ out.old.items ++ numbers_text numbers.now) }
{
    for n in numbers {
        out.push(b' ')?;
        push_number(out, u64::from(*n))?;
    }
    Ok(())
}

/// The degree and the coefficients of a modulus, each behind a space.
fn push_tail(out: &mut Vec<u8>, tail: &Option<Modulus>) -> Result<(), AllocError>
    ensures { OnOk result (out.new.items ≡ out.old.items ++ tail_text tail.now) }
{
    let Some(modulus) = tail else {
        return Ok(());
    };
    out.push(b' ')?;
    push_number(out, u64::from(modulus.m))?;
    push_numbers(out, modulus.codes.codes.as_slice())
}

/// The word of a side.
fn push_side(out: &mut Vec<u8>, side: Side) -> Result<(), AllocError>
    ensures { OnOk result (out.new.items ≡ out.old.items ++ side_text side) }
{
    match side {
        Side::Finite => out.extend_from_slice(b"finite")?,
        Side::Infinite => out.extend_from_slice(b"infinite")?,
    }
    Ok(())
}

/// What places lie over.
fn push_over(out: &mut Vec<u8>, over: &Over) -> Result<(), AllocError>
    ensures { OnOk result (out.new.items ≡ out.old.items ++ over_text over.now) }
{
    match over {
        Over::At(terms) => push_terms(out, terms),
        Over::Inf => out.extend_from_slice(b"inf"),
    }
}

/// What stands behind the word of `place`.
fn push_place(out: &mut Vec<u8>, name: &Name, over: &Over, index: u32) -> Result<(), AllocError>
    ensures { OnOk result (out.new.items ≡ out.old.items ++ place_text name.now over.now index) }
{
    out.extend_from_slice(name.letters.as_slice())?;
    out.extend_from_slice(b" = ")?;
    push_over(out, over)?;
    out.push(b' ')?;
    push_number(out, u64::from(index))
}

/// The text of a statement at the end of the buffer, without a line feed.
pub fn push_statement(out: &mut Vec<u8>, s: &Statement) -> Result<(), AllocError>
    ensures { OnOk result (out.new.items ≡ out.old.items ++ statement_text s.now) }
{
    match s {
        Statement::FieldOf { p, tail } => {
            out.extend_from_slice(b"field ")?;
            push_number(out, u64::from(*p))?;
            push_tail(out, tail)
        }
        Statement::CurveOf { f } => {
            out.extend_from_slice(b"curve ")?;
            push_terms(out, f)
        }
        Statement::Mul { a, b } => {
            out.extend_from_slice(b"mul ")?;
            push_element(out, a)?;
            out.push(b' ')?;
            push_element(out, b)
        }
        Statement::Factor { g } => {
            out.extend_from_slice(b"factor ")?;
            push_terms(out, g)
        }
        Statement::OrderOf { side } => {
            out.extend_from_slice(b"order ")?;
            push_side(out, *side)
        }
        Statement::Places { over } => {
            out.extend_from_slice(b"places ")?;
            push_over(out, over)
        }
        Statement::Place { name, over, index } => {
            out.extend_from_slice(b"place ")?;
            push_place(out, name, over, *index)
        }
        Statement::Constants => out.extend_from_slice(b"constants"),
        Statement::Genus => out.extend_from_slice(b"genus"),
    }
}
