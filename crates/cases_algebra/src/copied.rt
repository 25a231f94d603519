//! Copies, printed as the values are.

use crate::curves::accepted;
use crate::elements::element_text;
use case_values::curves::curve;
use case_values::print::{push_polynomial, push_row, row_text};
use case_values::read::{BAD, element, number, parted, presentation};
use ff_algebra::Curve;
use ff_fields::field::SmallField;
use std::alloc::{AllocError, Global};

// `n: z`: a copy of the element.
fn element_copy<K: SmallField>(alloc: Global, k: &K, text: &str) -> Result<String, AllocError> {
    let (n, z) = parted(text)?;
    let z = element(alloc, k, number(n)? as usize, z)?;
    element_text(alloc, &z.copy(alloc)?)
}

// The coefficients of a copy of the presentation.
fn presentation_copy<K: SmallField>(
    alloc: Global,
    k: &K,
    text: &str,
) -> Result<String, AllocError> {
    let p = presentation(alloc, k, text)?;
    row_text(alloc, p.copy(alloc)?.coeffs())
}

// The degree in y and the infinity number, the discriminant, and the coefficients of both presentations.
fn curve_text(alloc: Global, c: &Curve) -> Result<String, AllocError> {
    let mut out = accepted(alloc, c)?;
    out.push_str("; ")?;
    push_polynomial(&mut out, c.disc())?;
    out.push_str("; ")?;
    push_row(&mut out, c.fin().coeffs())?;
    out.push_str("; ")?;
    push_row(&mut out, c.inf().coeffs())?;
    Ok(out)
}

fn curve_copy<K: SmallField>(alloc: Global, k: &K, text: &str) -> Result<String, AllocError> {
    let c = curve(alloc, k, text)?;
    curve_text(alloc, &c.copy(alloc)?)
}

/// `element: n: z`, `presentation: f` or `curve: terms`: a copy of the value.
pub fn copy_line<K: SmallField>(alloc: Global, k: &K, text: &str) -> Result<String, AllocError> {
    let (kind, value) = parted(text)?;
    match kind.trim() {
        "element" => element_copy(alloc, k, value),
        "presentation" => presentation_copy(alloc, k, value),
        "curve" => curve_copy(alloc, k, value),
        _ => Err(BAD),
    }
}
