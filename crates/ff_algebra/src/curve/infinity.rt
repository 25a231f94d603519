//! The presentation at infinity.

ghost use Rattle.std.specs.Prelude.{◌≡◌, ℕ, ◌+◌, ◌-◌, ◌*◌, ◌^◌, ◌<◌, ◌≤◌, [], length, get_or, All, IfOk};
ghost use Rattle.ff_poly.specs.Words.{IsPoly};
ghost use Rattle.function_field.specs.Infinity.{IsInfinityNumber, IsEnoughAtInfinity};
ghost use Rattle.function_field.specs.Curves.{reversed_of};

use crate::elem::Pres;
use ff_poly::Poly;
use std::alloc::{AllocError, Global};

/// The least number c, 0 or more, such that the coefficient of y^(n-i) has a degree of at most c·i.
pub(crate) fn infinity_number(f: &Pres) -> usize
    ensures { IsInfinityNumber f.now result }
{
    let mut c = 0;
    for i in 1..=f.n() {
        if let Some(d) = f.coeff(f.n() - i).degree() {
            c = c.max(d.div_ceil(i));
        }
    }
    c
}

/// The polynomial t^(m-1)·a(1/t) in t, for at most m codes of a.
pub(crate) fn reversed(alloc: Global, a: &Poly, m: usize) -> Result<Poly, AllocError>
    requires { length a.now ≤ m }
    ensures { IfOk result (λ p. p ≡ reversed_of a.now m) }
{
    let mut codes = Vec::with_capacity(alloc, m)?;
    codes.extend_from_slice(a.codes())?;
    codes.resize(m, 0)?;
    codes.reverse();
    Ok(Poly::from_codes(codes))
}

/// The polynomial of y/x^c over the polynomials in 1/x, for a number c that is enough.
pub(crate) fn infinite_presentation(alloc: Global, f: &Pres, c: usize) -> Result<Pres, AllocError>
    requires enough { IsEnoughAtInfinity f.now c }
    requires fits { c < 2 ^ 32 }
    ensures degree { IfOk result (λ q. q.n ≡ f.now.n) }
    ensures one_each { IfOk result (λ q. length q.coeffs ≡ q.n) }
    ensures coefficients { IfOk result (λ q. (i : ℕ) → i < f.now.n →
        get_or q.coeffs i [] ≡ reversed_of (get_or f.now.coeffs i []) (c * (f.now.n - i) + 1)) }
    ensures poly { IfOk result (λ q. All IsPoly q.coeffs) }
{
    let mut coeffs = Vec::new(alloc);
    for i in 0..f.n() {
        coeffs.push(reversed(alloc, f.coeff(i), c * (f.n() - i) + 1)?)?;
    }
    Ok(Pres::new(f.n(), coeffs))
}
