//! Functions.

ghost use Rattle.std.specs.Prelude.{length};
ghost use Rattle.function_field.specs.Values.{IsElem, IsPresOver};

use case_values::print::{decided, fraction_text};
use case_values::read::{BAD, element, number, parted, presentation};
use ff_algebra::elem::{Elem, Pres, add, mul, same, trace};
use ff_algebra::inverse::{ZeroDivisor, try_inverse};
use ff_fields::field::SmallField;
use ff_poly::Poly;
use std::alloc::{AllocError, Global};

/// The numerators, a stroke, and the denominator.
pub fn element_text(alloc: Global, z: &Elem) -> Result<String, AllocError> {
    fraction_text(alloc, z.num(), z.den())
}

// `n: z`: the element of n numerators over its monic denominator.
fn monic<K: SmallField>(alloc: Global, k: &K, text: &str) -> Result<String, AllocError> {
    let (n, z) = parted(text)?;
    element_text(alloc, &element(alloc, k, number(n)? as usize, z)?)
}

// The sum, or whether the two are the same.
fn sum_or_same<K: SmallField>(
    alloc: Global,
    k: &K,
    word: &str,
    a: &Elem,
    b: &Elem,
) -> Result<String, AllocError>
    requires a_in { IsElem (K.field k.now).ops (length a.now.num) a.now }
    requires b_in { IsElem (K.field k.now).ops (length a.now.num) b.now }
{
    if word == "same" {
        return decided(alloc, same(alloc, k, a, b)?);
    }
    element_text(alloc, &add(alloc, k, a, b)?)
}

// `n: a: b`: the sum, or whether the two are the same.
fn of_two<K: SmallField>(
    alloc: Global,
    k: &K,
    word: &str,
    text: &str,
) -> Result<String, AllocError> {
    let (n, rest) = parted(text)?;
    let (a, b) = parted(rest)?;
    let n = number(n)? as usize;
    let a = element(alloc, k, n, a)?;
    let b = element(alloc, k, n, b)?;
    sum_or_same(alloc, k, word, &a, &b)
}

fn product_text<K: SmallField>(
    alloc: Global,
    k: &K,
    p: &Pres,
    a: &Elem,
    b: &Elem,
) -> Result<String, AllocError>
    requires p_in { IsPresOver (K.field k.now).ops p.now }
    requires a_in { IsElem (K.field k.now).ops p.now.n a.now }
    requires b_in { IsElem (K.field k.now).ops p.now.n b.now }
{
    element_text(alloc, &mul(alloc, k, p, a, b)?)
}

fn is_zero(z: &Elem) -> bool {
    z.num().iter().all(|v| v.is_zero())
}

// Is the product of the two 1?
fn are_inverse<K: SmallField>(
    alloc: Global,
    k: &K,
    p: &Pres,
    a: &Elem,
    z: &Elem,
) -> Result<bool, AllocError>
    requires p_in { IsPresOver (K.field k.now).ops p.now }
    requires a_in { IsElem (K.field k.now).ops p.now.n a.now }
    requires z_in { IsElem (K.field k.now).ops p.now.n z.now }
{
    let product = mul(alloc, k, p, a, z)?;
    let Some((first, others)) = product.num().split_first() else {
        return Ok(false);
    };
    Ok(first.equals(product.den()) && others.iter().all(|v| v.is_zero()))
}

// Is the inverse of a the other element, and its product with a 1?
fn inverts<K: SmallField>(
    alloc: Global,
    k: &K,
    p: &Pres,
    a: &Elem,
    expected: &Elem,
) -> Result<bool, AllocError>
    requires p_in { IsPresOver (K.field k.now).ops p.now }
    requires a_in { IsElem (K.field k.now).ops p.now.n a.now }
    requires expected_in { IsElem (K.field k.now).ops p.now.n expected.now }
{
    match try_inverse(alloc, k, p, a) {
        Ok(z) => Ok(same(alloc, k, &z, expected)? && are_inverse(alloc, k, p, a, &z)?),
        Err(_) => Ok(false),
    }
}

// Is a killed by an element that isn't 0? The element is read from a copy.
fn is_killed<K: SmallField>(alloc: Global, k: &K, p: &Pres, a: &Elem) -> Result<bool, AllocError>
    requires p_in { IsPresOver (K.field k.now).ops p.now }
    requires a_in { IsElem (K.field k.now).ops p.now.n a.now }
{
    let Err(divisor) = try_inverse(alloc, k, p, a) else {
        return Ok(false);
    };
    match divisor.copy(alloc)? {
        ZeroDivisor::Kills(w) => {
            let product = mul(alloc, k, p, a, &w)?;
            Ok(is_zero(&product) && !is_zero(&w))
        }
        ZeroDivisor::Memory => Err(BAD),
    }
}

// The trace's numerator and denominator.
fn trace_of<K: SmallField>(
    alloc: Global,
    k: &K,
    p: &Pres,
    text: &str,
) -> Result<(Poly, Poly), AllocError>
    requires { IsPresOver (K.field k.now).ops p.now }
{
    let a = element(alloc, k, p.n(), text)?;
    trace(alloc, k, p, &a)
}

fn trace_text<K: SmallField>(
    alloc: Global,
    k: &K,
    p: &Pres,
    text: &str,
) -> Result<String, AllocError>
    requires { IsPresOver (K.field k.now).ops p.now }
{
    let (num, den) = trace_of(alloc, k, p, text)?;
    fraction_text(alloc, &[num], &den)
}

fn killed_text<K: SmallField>(
    alloc: Global,
    k: &K,
    p: &Pres,
    text: &str,
) -> Result<String, AllocError>
    requires { IsPresOver (K.field k.now).ops p.now }
{
    let a = element(alloc, k, p.n(), text)?;
    decided(alloc, is_killed(alloc, k, p, &a)?)
}

// `a: b`: the product, or whether b is the inverse of a.
fn of_pair<K: SmallField>(
    alloc: Global,
    k: &K,
    p: &Pres,
    word: &str,
    text: &str,
) -> Result<String, AllocError>
    requires { IsPresOver (K.field k.now).ops p.now }
{
    let (a, b) = parted(text)?;
    let a = element(alloc, k, p.n(), a)?;
    let b = element(alloc, k, p.n(), b)?;
    if word == "product" {
        return product_text(alloc, k, p, &a, &b);
    }
    decided(alloc, inverts(alloc, k, p, &a, &b)?)
}

// `f: z` or `f: a: b`, modulo f.
fn modulo<K: SmallField>(
    alloc: Global,
    k: &K,
    word: &str,
    text: &str,
) -> Result<String, AllocError> {
    let (f, rest) = parted(text)?;
    let p = presentation(alloc, k, f)?;
    match word {
        "trace" => trace_text(alloc, k, &p, rest),
        "killed" => killed_text(alloc, k, &p, rest),
        "product" | "inverse" => of_pair(alloc, k, &p, word, rest),
        _ => Err(BAD),
    }
}

/// `element` has `n: z`; `sum` and `same` have `n: a: b`; `trace` and `killed` have `f: z`; `product` and `inverse`
/// have `f: a: b`.
pub fn element_line<K: SmallField>(
    alloc: Global,
    k: &K,
    word: &str,
    text: &str,
) -> Result<String, AllocError> {
    match word {
        "element" => monic(alloc, k, text),
        "sum" | "same" => of_two(alloc, k, word, text),
        _ => modulo(alloc, k, word, text),
    }
}
