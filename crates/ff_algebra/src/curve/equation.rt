//! The equation of a curve, out of its terms.

ghost use Rattle.std.specs.Prelude.{◌≡◌, ℕ, ◌<◌, ◌≤◌, [], length, get_or, All, IfOk, IfErr};
ghost use Rattle.ff_fields.specs.Over.{IsOver};
ghost use Rattle.function_field.specs.Values.{IsPresOver};
ghost use Rattle.ff_algebra.specs.CurveTerms.{degree_in_y, degree_in_x, IsCoefficient, IsSmallEquation, IsCurveFault};

use crate::curve::CurveFault;
use crate::elem::Pres;
use ff_fields::field::SmallField;
use ff_poly::{Poly, Terms};
use std::alloc::{AllocError, Global};

/// The greatest degree in x of an equation.
const MAX_X: u64 = 32;

/// How many codes a polynomial of that degree has.
const CODES: usize = 33;

/// The greatest exponent of y.
fn degree_in_y(terms: &[(u64, u64, u32)]) -> u64
    ensures { result ≡ degree_in_y terms.now }
{
    let mut degree = 0;
    for term in terms {
        degree = term.0.max(degree);
    }
    degree
}

/// The greatest exponent of x.
fn degree_in_x(terms: &[(u64, u64, u32)]) -> u64
    ensures { result ≡ degree_in_x terms.now }
{
    let mut degree = 0;
    for term in terms {
        degree = term.1.max(degree);
    }
    degree
}

/// The coefficient of y^i. No exponent of x is above 32.
fn coefficient<K: SmallField>(
    alloc: Global,
    k: &K,
    terms: &[(u64, u64, u32)],
    i: u64,
) -> Result<Poly, AllocError>
    requires codes_in { All (λ t. t.2 < (K.field k.now).size) terms.now }
    requires low { degree_in_x terms.now ≤ 32 }
    ensures coefficient { IfOk result (IsCoefficient (K.field k.now).ops terms.now i) }
    ensures over { IfOk result (IsOver (K.field k.now).ops) }
    ensures short { IfOk result (λ p. length p ≤ 33) }
{
    let mut codes = [0; CODES];
    for j in (0..terms.len()).rev() {
        let (y, x, code) = terms[j];
        if y == i {
            codes[x as usize] = k.add(code, codes[x as usize]);
        }
    }
    Ok(Poly::from_codes(codes.to_vec(alloc)?))
}

/// The coefficients of y^i for i below n. No exponent of x is above 32.
fn coefficients<K: SmallField>(
    alloc: Global,
    k: &K,
    terms: &[(u64, u64, u32)],
    n: u64,
) -> Result<Vec<Poly>, AllocError>
    requires codes_in { All (λ t. t.2 < (K.field k.now).size) terms.now }
    requires low { degree_in_x terms.now ≤ 32 }
    ensures one_each { IfOk result (λ ps. length ps.items ≡ n) }
    ensures coefficients { let ops = (K.field k.now).ops in
        IfOk result (λ ps. (i : ℕ) → i < n → IsCoefficient ops terms.now i (get_or ps.items i [])) }
    ensures over { IfOk result (λ ps. All (IsOver (K.field k.now).ops) ps.items) }
    ensures short { IfOk result (λ ps. All (λ p. length p ≤ 33) ps.items) }
{
    let mut coeffs = Vec::new(alloc);
    for i in 0..n {
        coeffs.push(coefficient(alloc, k, terms, i)?)?;
    }
    Ok(coeffs)
}

/// The presentation by f, or the first of the faults that are seen without the discriminant.
pub(crate) fn equation<K: SmallField>(alloc: Global, k: &K, f: &Terms) -> Result<Pres, CurveFault>
    requires { All (λ t. t.2 < (K.field k.now).size) f.now }
    ensures equation { IfOk result (IsSmallEquation (K.field k.now).ops f.now) }
    ensures over { IfOk result (IsPresOver (K.field k.now).ops) }
    ensures short { IfOk result (λ q. All (λ p. length p ≤ 33) q.coeffs) }
    ensures fault { IfErr result (IsCurveFault (K.field k.now) f.now) }
{
    let terms = f.list();
    let n = degree_in_y(terms);
    if n < 2 || n > 4 {
        return Err(CurveFault::LimitY(n));
    }
    let d = degree_in_x(terms);
    if d > MAX_X {
        return Err(CurveFault::LimitX(d));
    }
    let top = coefficient(alloc, k, terms, n)?;
    if !top.equals(&Poly::one(alloc)?) {
        return Err(CurveFault::NotMonic(top));
    }
    let coeffs = coefficients(alloc, k, terms, n)?;
    Ok(Pres::new(n as usize, coeffs))
}
