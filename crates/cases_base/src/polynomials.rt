//! Polynomials.

ghost use Rattle.std.specs.Prelude.{◌<◌};
ghost use Rattle.ff_fields.specs.Over.{IsOver};

use case_values::print::{fraction_text, polynomial_text, worded};
use case_values::read::{BAD, number, parted, polynomial};
use case_values::terms::terms;
use ff_fields::field::SmallField;
use ff_poly::poly::{add, divide, mul, scale, shift, sub};
use ff_poly::powers::{eval, pow_mod};
use ff_poly::{Poly, Terms};
use std::alloc::{AllocError, Global};

// `a: b`: the sum, the difference or the product.
fn of_two<K: SmallField>(alloc: Global, k: &K, word: &str, text: &str) -> Result<Poly, AllocError> {
    let (a, b) = parted(text)?;
    let a = polynomial(alloc, k, a)?;
    let b = polynomial(alloc, k, b)?;
    match word {
        "sum" => add(alloc, k, &a, &b),
        "difference" => sub(alloc, k, &a, &b),
        _ => mul(alloc, k, &a, &b),
    }
}

// `a: b`: the quotient, a stroke, and the rest.
fn quotient<K: SmallField>(alloc: Global, k: &K, text: &str) -> Result<String, AllocError> {
    let (a, b) = parted(text)?;
    let a = polynomial(alloc, k, a)?;
    let b = polynomial(alloc, k, b)?;
    if b.is_zero() {
        return Err(BAD);
    }
    let (quotient, rest) = divide(alloc, k, &a, &b)?;
    fraction_text(alloc, &[quotient], &rest)
}

// `a: c`: the code's multiple.
fn multiple<K: SmallField>(alloc: Global, k: &K, text: &str) -> Result<Poly, AllocError> {
    let (a, c) = parted(text)?;
    let a = polynomial(alloc, k, a)?;
    let c = number(c)?;
    if c >= k.size() {
        return Err(BAD);
    }
    scale(alloc, k, &a, c)
}

// `a: j`: times x to the power j.
fn shifted<K: SmallField>(alloc: Global, k: &K, text: &str) -> Result<Poly, AllocError> {
    let (a, j) = parted(text)?;
    let a = polynomial(alloc, k, a)?;
    shift(alloc, &a, number(j)? as usize)
}

// `a: c`: the value at the code.
fn value<K: SmallField>(alloc: Global, k: &K, text: &str) -> Result<String, AllocError> {
    let (a, c) = parted(text)?;
    let a = polynomial(alloc, k, a)?;
    let c = number(c)?;
    if c >= k.size() {
        return Err(BAD);
    }
    worded(alloc, "value", u64::from(eval(k, &a, c)))
}

// `a: e: m`: the power modulo m.
fn power<K: SmallField>(alloc: Global, k: &K, text: &str) -> Result<Poly, AllocError> {
    let (a, rest) = parted(text)?;
    let (e, m) = parted(rest)?;
    let a = polynomial(alloc, k, a)?;
    let m = polynomial(alloc, k, m)?;
    if m.codes().len() < 2 {
        return Err(BAD);
    }
    pow_mod(alloc, k, &a, u64::from(number(e)?), &m)
}

// Adds c times the product of a and b to the polynomial.
fn add_product<K: SmallField>(
    k: &K,
    mut sum: Poly,
    c: u32,
    a: &Poly,
    b: &Poly,
) -> Result<Poly, AllocError>
    requires sum_in { IsOver (K.field k.now).ops sum }
    requires a_in { IsOver (K.field k.now).ops a.now }
    requires b_in { IsOver (K.field k.now).ops b.now }
{
    if c >= k.size() {
        return Err(BAD);
    }
    sum.add_product(k, c, a, b)?;
    Ok(sum)
}

// `s: c: a: b`: s plus c times the product of a and b.
fn added<K: SmallField>(alloc: Global, k: &K, text: &str) -> Result<Poly, AllocError> {
    let (s, rest) = parted(text)?;
    let (c, rest) = parted(rest)?;
    let (a, b) = parted(rest)?;
    let a = polynomial(alloc, k, a)?;
    let b = polynomial(alloc, k, b)?;
    add_product(k, polynomial(alloc, k, s)?, number(c)?, &a, &b)
}

/// The terms, ascending, with commas between them.
pub fn terms_text(alloc: Global, terms: &Terms) -> Result<String, AllocError> {
    let mut out = String::new(alloc);
    for t in terms.list() {
        if !out.is_empty() {
            out.push_str(", ")?;
        }
        write!(out, "{} {} {}", t.0, t.1, t.2)?;
    }
    Ok(out)
}

fn terms_line<K: SmallField>(alloc: Global, k: &K, text: &str) -> Result<String, AllocError> {
    let found = terms(alloc, k, text)?;
    terms_text(alloc, &found)
}

fn made<K: SmallField>(alloc: Global, k: &K, word: &str, text: &str) -> Result<Poly, AllocError> {
    match word {
        "multiple" => multiple(alloc, k, text),
        "shift" => shifted(alloc, k, text),
        "power" => power(alloc, k, text),
        "added" => added(alloc, k, text),
        _ => of_two(alloc, k, word, text),
    }
}

/// The polynomial that the word makes of the arguments; of `quotient` the rest too, of `value` a code, of `terms`
/// terms.
pub fn polynomial_line<K: SmallField>(
    alloc: Global,
    k: &K,
    word: &str,
    text: &str,
) -> Result<String, AllocError> {
    match word {
        "quotient" => quotient(alloc, k, text),
        "value" => value(alloc, k, text),
        "terms" => terms_line(alloc, k, text),
        _ => polynomial_text(alloc, &made(alloc, k, word, text)?),
    }
}
