//! Curves and their faults.

use case_values::curves::curve;
use case_values::print::{polynomial_text, push_polynomial, row_text, worded};
use case_values::terms::terms;
use ff_algebra::{Curve, CurveFault};
use ff_fields::field::SmallField;
use ff_poly::Poly;
use std::alloc::{AllocError, Global};

/// The degree in y and the infinity number.
pub fn accepted(alloc: Global, made: &Curve) -> Result<String, AllocError> {
    let n = made.fin().n();
    let c = made.c();
    format!(in alloc; "n {n} c {c}")
}

fn not_monic(alloc: Global, top: &Poly) -> Result<String, AllocError> {
    let mut out = "NotMonic ".to_string(alloc)?;
    push_polynomial(&mut out, top)?;
    Ok(out)
}

fn refused(alloc: Global, fault: CurveFault) -> Result<String, AllocError> {
    match fault {
        CurveFault::LimitY(n) => worded(alloc, "LimitY", n),
        CurveFault::LimitX(d) => worded(alloc, "LimitX", d),
        CurveFault::NotMonic(top) => not_monic(alloc, &top),
        CurveFault::NotSeparable => "NotSeparable".to_string(alloc),
        CurveFault::LimitDisc(d) => worded(alloc, "LimitDisc", d as u64),
        CurveFault::LimitInf(d) => worded(alloc, "LimitInf", u64::from(d)),
        CurveFault::Memory => "Memory".to_string(alloc),
    }
}

// The degree in y and the infinity number, or the fault.
fn outcome<K: SmallField>(alloc: Global, k: &K, text: &str) -> Result<String, AllocError> {
    let f = terms(alloc, k, text)?;
    match Curve::new(alloc, k, &f) {
        Ok(made) => accepted(alloc, &made),
        Err(fault) => refused(alloc, fault.copy(alloc)?),
    }
}

/// What becomes of the terms, the discriminant, or the coefficients of the infinite presentation.
pub fn curve_line<K: SmallField>(
    alloc: Global,
    k: &K,
    word: &str,
    text: &str,
) -> Result<String, AllocError> {
    match word {
        "curve" => outcome(alloc, k, text),
        "discriminant" => polynomial_text(alloc, curve(alloc, k, text)?.disc()),
        _ => row_text(alloc, curve(alloc, k, text)?.inf().coeffs()),
    }
}
