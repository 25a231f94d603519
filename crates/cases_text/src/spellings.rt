//! What readers of spellings read, printed again.

ghost use Rattle.std.specs.Prelude.{◌≤◌, length};

use ff_fields::prime::PrimeField;
use ff_poly::Terms;
use ff_text::number::push_number;
use ff_text::{
    ElemText, TermList, TextFault, collect, print_element, print_terms, read_element, read_number,
    read_terms, read_terms_in_x,
};
use std::alloc::{AllocError, Global};

/// A word and a number.
pub fn worded(alloc: Global, word: &[u8], n: u64) -> Result<Vec<u8>, AllocError> {
    let mut out = word.to_vec(alloc)?;
    out.push(b' ')?;
    push_number(&mut out, n)?;
    Ok(out)
}

/// The answer where a reader has read nothing.
pub fn fault(alloc: Global, fault: TextFault) -> Result<Vec<u8>, AllocError> {
    match fault {
        TextFault::Syntax(column) => worded(alloc, b"fault", column as u64),
        TextFault::CodeRange(code) => worded(alloc, b"code", u64::from(code)),
        TextFault::Memory => Err(AllocError),
    }
}

/// The column behind a text, and the text.
pub fn found(alloc: Global, text: &[u8], end: usize) -> Result<Vec<u8>, AllocError> {
    let mut out = worded(alloc, b"to", end as u64)?;
    out.extend_from_slice(b": ")?;
    out.extend_from_slice(text)?;
    Ok(out)
}

/// The copy's text, and a word where the original's is another.
pub fn same(original: &[u8], mut copy: Vec<u8>) -> Result<Vec<u8>, AllocError> {
    if original != copy.as_slice() {
        copy.extend_from_slice(b" is another copy")?;
    }
    Ok(copy)
}

pub fn number(alloc: Global, line: &[u8], at: usize) -> Result<Vec<u8>, AllocError>
    requires { at ≤ length line.now }
{
    match read_number(line, at) {
        Ok((n, end)) => {
            let text = worded(alloc, b"number", u64::from(n))?;
            found(alloc, text.as_slice(), end)
        }
        Err(e) => fault(alloc, e),
    }
}

fn terms_text(alloc: Global, t: &TermList) -> Result<Vec<u8>, AllocError> {
    let copy = t.copy(alloc)?;
    let original = print_terms(alloc, t)?;
    same(original.as_slice(), print_terms(alloc, &copy)?)
}

fn read(alloc: Global, y: bool, line: &[u8], at: usize) -> Result<(TermList, usize), TextFault>
    requires { at ≤ length line.now }
{
    if y {
        read_terms(alloc, line, at)
    } else {
        read_terms_in_x(alloc, line, at)
    }
}

pub fn terms(alloc: Global, y: bool, line: &[u8], at: usize) -> Result<Vec<u8>, AllocError>
    requires { at ≤ length line.now }
{
    match read(alloc, y, line, at) {
        Ok((t, end)) => {
            let text = terms_text(alloc, &t)?;
            found(alloc, text.as_slice(), end)
        }
        Err(e) => fault(alloc, e),
    }
}

fn element_text(alloc: Global, e: &ElemText) -> Result<Vec<u8>, AllocError> {
    let copy = e.copy(alloc)?;
    let original = print_element(alloc, e)?;
    same(original.as_slice(), print_element(alloc, &copy)?)
}

pub fn element(alloc: Global, line: &[u8], at: usize) -> Result<Vec<u8>, AllocError>
    requires { at ≤ length line.now }
{
    match read_element(alloc, line, at) {
        Ok((e, end)) => {
            let text = element_text(alloc, &e)?;
            found(alloc, text.as_slice(), end)
        }
        Err(e) => fault(alloc, e),
    }
}

/// The sum of the terms of a short line.
fn sum_of(alloc: Global, k: &PrimeField, line: &[u8]) -> Result<Terms, TextFault> {
    if line.len() > 100 {
        return Err(TextFault::Syntax(100));
    }
    let (terms, _) = read_terms(alloc, line, 0)?;
    collect(alloc, k, &terms)
}

/// The terms, each by the exponents of y and x and its code.
fn triples(alloc: Global, list: &[(u64, u64, u32)]) -> Result<Vec<u8>, AllocError> {
    let mut out = Vec::new(alloc);
    if list.is_empty() {
        out.push(b'0')?;
    }
    for (y, x, code) in list {
        out.push(b'(')?;
        push_number(&mut out, *y)?;
        out.push(b' ')?;
        push_number(&mut out, *x)?;
        out.push(b' ')?;
        push_number(&mut out, u64::from(*code))?;
        out.push(b')')?;
    }
    Ok(out)
}

pub fn sum(alloc: Global, p: u32, line: &[u8]) -> Result<Vec<u8>, AllocError> {
    let Ok(k) = PrimeField::new(p) else {
        return b"no field".to_vec(alloc);
    };
    match sum_of(alloc, &k, line) {
        Ok(sum) => triples(alloc, sum.list()),
        Err(e) => fault(alloc, e),
    }
}
