//! Printed forms: the one text of a polynomial, and of an element.

ghost use Rattle.std.specs.Prelude.{◌≡◌, ◌≢◌, ◌≤◌, ◌++◌, ℕ, List, length, IfOk, IfErr, IsTrue};
ghost use Rattle.ff_text.specs.Printed.{poly_text, elem_text, ends_poly, ends_elem, IsPrintable, IsPrintableElem, IsPolyAt, IsElemAt, IsNoText};

mod digits;
mod elem;
mod follow;
mod poly;
mod term;
mod write;
mod written;

use crate::fault::TextFault;
use elem::elem;
use ff_poly::Poly;
use follow::{ends_elem, ends_poly};
use poly::poly;
use std::alloc::{AllocError, Global};
pub use write::{push_elem, push_poly};
pub use written::Written;

/// The text of a polynomial: its nonzero terms from the greatest degree down, joined by ` + `, and `0` for 0. Time and
/// memory grow with the degree.
pub fn poly_text(alloc: Global, p: &Poly) -> Result<Vec<u8>, AllocError>
    ensures { IfOk result (λ text. text.items ≡ poly_text p.now) }
{
    let mut out = Vec::new(alloc);
    push_poly(&mut out, p)?;
    Ok(out)
}

/// The text of an element, as it is given: its numerators in brackets, joined by `, `, and the denominator behind `/`,
/// in parentheses where it has more than one term. A denominator 1 isn't written. Time and memory grow with the
/// degrees.
pub fn elem_text(alloc: Global, num: &[Poly], den: &Poly) -> Result<Vec<u8>, AllocError>
    ensures { IfOk result (λ text. text.items ≡ elem_text num.now den.now) }
{
    let mut out = Vec::new(alloc);
    push_elem(&mut out, num, den)?;
    Ok(out)
}

/// The polynomial that has this text, with codes below 65,536 and a degree of at most 1,024. `Syntax(0)` exactly where
/// none has it. Time grows with the text and the degree.
pub fn poly_of_text(alloc: Global, b: &[u8]) -> Result<Poly, TextFault>
    ensures found { IfOk result (λ p. IsPrintable p × (poly_text p ≡ b.now)) }
    ensures fault { IfErr result (λ e. IsNoText e ((p : List ℕ) → IsPrintable p → poly_text p ≢ b.now)) }
{
    let (p, rest) = poly(alloc, b)?;
    if !rest.is_empty() {
        return Err(TextFault::Syntax(0));
    }
    Ok(p)
}

/// The numerators and the denominator of the element that has this text: one numerator or more and a monic denominator,
/// with codes below 65,536 and degrees of at most 1,024, not always in lowest terms. `Syntax(0)` exactly where none has
/// it. Time grows with the text and the sum of the degrees.
pub fn elem_of_text(alloc: Global, b: &[u8]) -> Result<(Vec<Poly>, Poly), TextFault>
    ensures found { IfOk result (λ z. IsPrintableElem z.0.items z.1 × (elem_text z.0.items z.1 ≡ b.now)) }
    ensures fault { IfErr result (λ e. IsNoText e
        ((num : List (List ℕ)) (den : List ℕ) → IsPrintableElem num den → elem_text num den ≢ b.now)) }
{
    let (z, rest) = elem(alloc, b)?;
    if !rest.is_empty() {
        return Err(TextFault::Syntax(0));
    }
    Ok(z)
}

/// The printable polynomial whose text stands in the line from column `at` on, and the position after it. Behind it
/// stands nothing that could go on a polynomial: no digit, `^` or `*`, and not ` + `. `Syntax(0)` exactly where none
/// stands so. Time grows with its text and degree.
pub fn read_poly(alloc: Global, line: &[u8], at: usize) -> Result<(Poly, usize), TextFault>
    requires { at ≤ length line.now }
    ensures found { IfOk result (λ x. IsPolyAt line.now at x.0 x.1) }
    ensures fault { IfErr result (λ e. IsNoText e ((p : List ℕ) (end : ℕ) → ¬ IsPolyAt line.now at p end)) }
{
    let (p, rest) = poly(alloc, &line[at..])?;
    if !ends_poly(rest) {
        return Err(TextFault::Syntax(0));
    }
    Ok((p, line.len() - rest.len()))
}

/// The printable element whose text stands in the line from column `at` on, and the position after it. Behind it stands
/// nothing that could go on an element: no digit, `^` or `/`. `Syntax(0)` exactly where none stands so. Time grows with
/// its text and the sum of its degrees.
pub fn read_elem(alloc: Global, line: &[u8], at: usize) -> Result<(Written, usize), TextFault>
    requires { at ≤ length line.now }
    ensures found { IfOk result (λ x. IsElemAt line.now at x.0.num x.0.den x.1) }
    ensures fault { IfErr result (λ e. IsNoText e
        ((num : List (List ℕ)) (den : List ℕ) (end : ℕ) → ¬ IsElemAt line.now at num den end)) }
{
    let ((num, den), rest) = elem(alloc, &line[at..])?;
    if !ends_elem(rest) {
        return Err(TextFault::Syntax(0));
    }
    Ok((Written::new(num, den), line.len() - rest.len()))
}

/// One text belongs to one polynomial, also where something follows that can't go on a polynomial.
pub fn one_poly_text()
    ensures front { (p q r s : List ℕ) → IsPrintable p → IsPrintable q → IsTrue (ends_poly r) → IsTrue (ends_poly s) →
        poly_text p ++ r ≡ poly_text q ++ s → (p ≡ q) × (r ≡ s) }
    ensures whole { (p q : List ℕ) → IsPrintable p → IsPrintable q → poly_text p ≡ poly_text q → p ≡ q }
{}

/// One text belongs to one element, also where something follows that can't go on an element.
pub fn one_elem_text()
    ensures front { (num other : List (List ℕ)) (den over r s : List ℕ) →
        IsPrintableElem num den → IsPrintableElem other over → IsTrue (ends_elem r) → IsTrue (ends_elem s) →
        elem_text num den ++ r ≡ elem_text other over ++ s → (num ≡ other) × (den ≡ over) × (r ≡ s) }
    ensures whole { (num other : List (List ℕ)) (den over : List ℕ) → IsPrintableElem num den
        → IsPrintableElem other over →
        elem_text num den ≡ elem_text other over → (num ≡ other) × (den ≡ over) }
{}
