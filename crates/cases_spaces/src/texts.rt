//! Functions as text, in the form of their case values.

use case_values::print::fraction_text;
use ff_algebra::Elem;
use ff_text::Written;
use std::alloc::{AllocError, Global};

/// The elements, with semicolons between them.
pub fn elements_text(alloc: Global, elements: &[Elem]) -> Result<String, AllocError> {
    let mut out = String::new(alloc);
    for i in 0..elements.len() {
        if i > 0 {
            out.push_str("; ")?;
        }
        let text = fraction_text(alloc, elements[i].num(), elements[i].den())?;
        out.push_str(text.as_str())?;
    }
    Ok(out)
}

/// The written functions, with semicolons between them, or `none`.
pub fn written_text(alloc: Global, list: &[Written]) -> Result<String, AllocError> {
    if list.is_empty() {
        return "none".to_string(alloc);
    }
    let mut out = String::new(alloc);
    for i in 0..list.len() {
        if i > 0 {
            out.push_str("; ")?;
        }
        let text = fraction_text(alloc, list[i].num(), list[i].den())?;
        out.push_str(text.as_str())?;
    }
    Ok(out)
}

/// The numbers, with blanks between them.
pub fn numbers_text(alloc: Global, numbers: &[i64]) -> Result<String, AllocError> {
    let mut out = String::new(alloc);
    for i in 0..numbers.len() {
        if i > 0 {
            out.push_str(" ")?;
        }
        write!(out, "{}", numbers[i])?;
    }
    Ok(out)
}
