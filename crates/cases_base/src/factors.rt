//! Factors of polynomials, and fractions in lowest terms.

use case_values::print::{decided, fraction_text, push_polynomial, worded};
use case_values::read::{BAD, polynomial, row};
use ff_factor::{Factors, factor, is_irreducible, lowest_terms};
use ff_fields::field::SmallField;
use std::alloc::{AllocError, Global};

/// The unit, and each polynomial with its exponent.
pub fn factors_text(alloc: Global, found: &Factors) -> Result<String, AllocError> {
    let mut out = worded(alloc, "unit", u64::from(found.unit()))?;
    for part in found.parts() {
        out.push_str(", ")?;
        push_polynomial(&mut out, &part.0)?;
        write!(out, " ^ {}", part.1)?;
    }
    Ok(out)
}

/// The factors of the polynomial of the text, which isn't 0.
pub fn factors_of<K: SmallField>(alloc: Global, k: &K, text: &str) -> Result<Factors, AllocError> {
    let g = polynomial(alloc, k, text)?;
    if g.is_zero() {
        return Err(BAD);
    }
    factor(alloc, k, &g)
}

fn factored<K: SmallField>(alloc: Global, k: &K, text: &str) -> Result<String, AllocError> {
    let found = factors_of(alloc, k, text)?;
    factors_text(alloc, &found)
}

fn irreducible<K: SmallField>(alloc: Global, k: &K, text: &str) -> Result<String, AllocError> {
    let g = polynomial(alloc, k, text)?;
    decided(alloc, is_irreducible(alloc, k, &g)?)
}

// Numerators, which may be none, a stroke and the denominator: the same in lowest terms.
fn lowest<K: SmallField>(alloc: Global, k: &K, text: &str) -> Result<String, AllocError> {
    let Some((num, den)) = text.split_once('/') else {
        return Err(BAD);
    };
    let mut den = polynomial(alloc, k, den)?;
    let mut num = row(alloc, k, num)?;
    if den.is_zero() {
        return Err(BAD);
    }
    lowest_terms(alloc, k, &mut num, &mut den)?;
    fraction_text(alloc, num.as_slice(), &den)
}

// No numerators over the denominator: its lowest terms.
fn lowest_alone<K: SmallField>(alloc: Global, k: &K, text: &str) -> Result<String, AllocError> {
    let mut den = polynomial(alloc, k, text)?;
    let mut num = Vec::new(alloc);
    if den.is_zero() {
        return Err(BAD);
    }
    lowest_terms(alloc, k, &mut num, &mut den)?;
    fraction_text(alloc, num.as_slice(), &den)
}

/// The factors, the decision, or the lowest terms; `lowest` without a stroke has no numerators.
pub fn factor_line<K: SmallField>(
    alloc: Global,
    k: &K,
    word: &str,
    text: &str,
) -> Result<String, AllocError> {
    match word {
        "factor" => factored(alloc, k, text),
        "irreducible" => irreducible(alloc, k, text),
        _ => {
            if text.contains('/') {
                lowest(alloc, k, text)
            } else {
                lowest_alone(alloc, k, text)
            }
        }
    }
}
