//! Values as text.

use ff_linalg::Matrix;
use ff_poly::Poly;
use std::alloc::{AllocError, Global};

/// A word and a number.
pub fn worded(alloc: Global, word: &str, n: u64) -> Result<String, AllocError> {
    format!(in alloc; "{word} {n}")
}

/// `yes` or `no`.
pub fn decided(alloc: Global, yes: bool) -> Result<String, AllocError> {
    let word = if yes { "yes" } else { "no" };
    word.to_string(alloc)
}

/// Appends the codes, with blanks between them.
pub fn push_codes(out: &mut String, codes: &[u32]) -> Result<(), AllocError> {
    for i in 0..codes.len() {
        if i > 0 {
            out.push_str(" ")?;
        }
        write!(out, "{}", codes[i])?;
    }
    Ok(())
}

/// The codes, with blanks between them.
pub fn codes_text(alloc: Global, codes: &[u32]) -> Result<String, AllocError> {
    let mut out = String::new(alloc);
    push_codes(&mut out, codes)?;
    Ok(out)
}

/// Lists of codes, with commas between them.
pub fn lists_text(alloc: Global, lists: &[Vec<u32>]) -> Result<String, AllocError> {
    let mut out = String::new(alloc);
    for i in 0..lists.len() {
        if i > 0 {
            out.push_str(", ")?;
        }
        push_codes(&mut out, lists[i].as_slice())?;
    }
    Ok(out)
}

/// Appends the codes of the polynomial, lowest first, and `0` for 0.
pub fn push_polynomial(out: &mut String, p: &Poly) -> Result<(), AllocError> {
    if p.is_zero() {
        return out.push_str("0");
    }
    push_codes(out, p.codes())
}

/// The polynomial's codes, lowest first, and `0` for 0.
pub fn polynomial_text(alloc: Global, p: &Poly) -> Result<String, AllocError> {
    let mut out = String::new(alloc);
    push_polynomial(&mut out, p)?;
    Ok(out)
}

/// Appends the polynomials, with commas between them.
pub fn push_row(out: &mut String, row: &[Poly]) -> Result<(), AllocError> {
    for i in 0..row.len() {
        if i > 0 {
            out.push_str(", ")?;
        }
        push_polynomial(out, &row[i])?;
    }
    Ok(())
}

/// The polynomials, with commas between them.
pub fn row_text(alloc: Global, row: &[Poly]) -> Result<String, AllocError> {
    let mut out = String::new(alloc);
    push_row(&mut out, row)?;
    Ok(out)
}

/// Appends the rows, with semicolons between them.
pub fn push_rows(out: &mut String, rows: &[Vec<Poly>]) -> Result<(), AllocError> {
    for i in 0..rows.len() {
        if i > 0 {
            out.push_str("; ")?;
        }
        push_row(out, rows[i].as_slice())?;
    }
    Ok(())
}

/// The rows, with semicolons between them.
pub fn rows_text(alloc: Global, rows: &[Vec<Poly>]) -> Result<String, AllocError> {
    let mut out = String::new(alloc);
    push_rows(&mut out, rows)?;
    Ok(out)
}

/// The numerators, a stroke, and the denominator.
pub fn fraction_text(alloc: Global, num: &[Poly], den: &Poly) -> Result<String, AllocError> {
    let mut out = String::new(alloc);
    push_row(&mut out, num)?;
    out.push_str(" / ")?;
    push_polynomial(&mut out, den)?;
    Ok(out)
}

/// The numbers of rows and columns, and each row after a comma.
pub fn matrix_text(alloc: Global, m: &Matrix) -> Result<String, AllocError> {
    let mut out = String::new(alloc);
    write!(out, "{} {}", m.rows(), m.cols())?;
    for i in 0..m.rows() {
        out.push_str(", ")?;
        push_codes(&mut out, m.row(i))?;
    }
    Ok(out)
}
