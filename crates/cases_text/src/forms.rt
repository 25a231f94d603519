//! Printed forms.

ghost use Rattle.std.specs.Prelude.{◌≤◌, length};

use crate::spellings::{fault, found, same, worded};
use ff_poly::Poly;
use ff_text::number::push_number;
use ff_text::printed::{elem_of_text, elem_text, poly_of_text, poly_text, read_elem, read_poly};
use ff_text::{TextFault, Written};
use std::alloc::{AllocError, Global};

/// The codes, lowest first, each behind a blank; of many those that aren't 0, each behind its exponent.
fn push_codes(out: &mut Vec<u8>, codes: &[u32]) -> Result<(), AllocError> {
    let many = codes.len() > 20;
    for (i, code) in codes.iter().enumerate() {
        if many && *code == 0 {
            continue;
        }
        if many {
            out.push(b' ')?;
            push_number(out, i as u64)?;
            out.push(b':')?;
        } else {
            out.push(b' ')?;
        }
        push_number(out, u64::from(*code))?;
    }
    Ok(())
}

/// The codes, and the form printed again.
fn poly_lines(alloc: Global, p: &Poly) -> Result<Vec<u8>, AllocError> {
    let copy = p.copy(alloc)?;
    let original = poly_text(alloc, p)?;
    let mut out = same(original.as_slice(), poly_text(alloc, &copy)?)?;
    out.extend_from_slice(b" ;")?;
    push_codes(&mut out, p.codes())?;
    Ok(out)
}

fn read_whole_poly(alloc: Global, bytes: &[u8]) -> Result<(Poly, usize), TextFault> {
    Ok((poly_of_text(alloc, bytes)?, bytes.len()))
}

/// A polynomial: the whole line, or what stands at the column.
pub fn poly(alloc: Global, bytes: &[u8], at: usize, whole: bool) -> Result<Vec<u8>, AllocError>
    requires { at ≤ length bytes.now }
{
    let read = if whole {
        read_whole_poly(alloc, bytes)
    } else {
        read_poly(alloc, bytes, at)
    };
    match read {
        Ok((p, end)) => {
            let text = poly_lines(alloc, &p)?;
            found(alloc, text.as_slice(), end)
        }
        Err(e) => fault(alloc, e),
    }
}

/// The codes of the numerators, and of the denominator behind a stroke.
fn push_elem_codes(out: &mut Vec<u8>, num: &[Poly], den: &Poly) -> Result<(), AllocError> {
    for p in num {
        out.extend_from_slice(b" ,")?;
        push_codes(out, p.codes())?;
    }
    out.extend_from_slice(b" /")?;
    push_codes(out, den.codes())
}

/// The codes of an element, and the form printed again.
fn elem_lines(alloc: Global, z: &Written) -> Result<Vec<u8>, AllocError> {
    let copy = z.copy(alloc)?;
    let original = elem_text(alloc, z.num(), z.den())?;
    let mut out = same(
        original.as_slice(),
        elem_text(alloc, copy.num(), copy.den())?,
    )?;
    out.extend_from_slice(b" ;")?;
    push_elem_codes(&mut out, z.num(), z.den())?;
    Ok(out)
}

fn read_whole_elem(alloc: Global, bytes: &[u8]) -> Result<(Written, usize), TextFault> {
    let (num, den) = elem_of_text(alloc, bytes)?;
    Ok((Written::new(num, den), bytes.len()))
}

/// An element: the whole line, or what stands at the column.
pub fn elem(alloc: Global, bytes: &[u8], at: usize, whole: bool) -> Result<Vec<u8>, AllocError>
    requires { at ≤ length bytes.now }
{
    let read = if whole {
        read_whole_elem(alloc, bytes)
    } else {
        read_elem(alloc, bytes, at)
    };
    match read {
        Ok((z, end)) => {
            let text = elem_lines(alloc, &z)?;
            found(alloc, text.as_slice(), end)
        }
        Err(e) => fault(alloc, e),
    }
}

/// How many numerators a long element has, and whether it is printed again.
pub fn long_elem(alloc: Global, bytes: &[u8]) -> Result<Vec<u8>, AllocError> {
    let (z, _) = match read_whole_elem(alloc, bytes) {
        Ok(read) => read,
        Err(e) => return fault(alloc, e),
    };
    let again = elem_text(alloc, z.num(), z.den())?;
    let word: &[u8] = if again.as_slice() == bytes {
        b"printed again, of length"
    } else {
        b"printed otherwise, of length"
    };
    worded(alloc, word, z.num().len() as u64)
}
