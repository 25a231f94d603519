//! What places lie over, over a field.

ghost use Rattle.std.specs.Prelude.{◌≡◌, ◌≤◌, [], ◌∷◌, length, false, All, IfOk, IfErr, MatchOption};
ghost use Rattle.ff_fields.specs.Over.{IsOver};
ghost use Rattle.ff_poly.specs.Words.{poly_of, top_of, IsIrreducibleList};
ghost use Rattle.function_field.specs.Limits.{max_degree_of_places};
ghost use Rattle.ff_text.specs.Printing.{IsWritableTerms};
ghost use Rattle.ff_text.specs.Values.{HasSmallExponents};
ghost use Rattle.ff_script.specs.Printing.{IsWritableOver};
ghost use Rattle.ff_meaning.specs.Bindings.{HasSmallOver};
ghost use Rattle.ff_meaning.specs.Refusals.{UnlessMemory, IsReducible, IsPolynomialRow, IsBaseRow};
ghost use Rattle.ff_meaning.specs.Bases.{IsPolynomialRead, IsRefusedPolynomial, IsBaseRead};

use crate::polynomials::{degree_in_x, polynomial, sum};
use crate::refusal::Refusal;
use ff_factor::{factor, is_irreducible};
use ff_fields::field::SmallField;
use ff_poly::Poly;
use ff_script::Over;
use ff_text::TermList;
use function_field::Side;
use std::alloc::{AllocError, Global};

/// The greatest n times the degree of a polynomial over which places are asked for, for the degree n of the curve in y.
const MAX_DEGREE_OF_PLACES: u16 = 512;

/// What places lie over: their side, and an irreducible monic polynomial in its variable, which is 1/x at infinity.
#[derive(Drop)]
pub struct Base {
    pub side: Side,
    pub p: Poly,
}

/// The polynomial in x of the terms, of which n times the degree is at most 512, or the code that is too great, or that
/// product. A product that isn't below 2^64 is want of memory.
fn bounded<K: SmallField>(alloc: Global, k: &K, n: usize, terms: &TermList) -> Result<Poly, Refusal>
    requires some { 1 ≤ n }
    requires writable { IsWritableTerms false terms.now }
    requires powers { All HasSmallExponents terms.now }
    ensures read { IfOk result (IsPolynomialRead (K.field k.now).ops n max_degree_of_places terms.now) }
    ensures refused { IfErr result (UnlessMemory
        (IsRefusedPolynomial (K.field k.now).ops n max_degree_of_places terms.now)) }
{
    let sum = sum(alloc, k, terms)?;
    let Some(degree) = degree_in_x(sum.list()).checked_mul(n as u64) else {
        return Err(Refusal::Memory);
    };
    if degree > u64::from(MAX_DEGREE_OF_PLACES) {
        return Err(Refusal::LimitPlace(degree));
    }
    Ok(polynomial(alloc, k, MAX_DEGREE_OF_PLACES, sum.list())?)
}

/// The constant polynomial of a code.
fn constant(alloc: Global, code: u32) -> Result<Poly, AllocError>
    ensures { IfOk result (λ p. p ≡ poly_of (code ∷ [])) }
{
    let mut codes = Vec::new(alloc);
    codes.push(code)?;
    Ok(Poly::from_codes(codes))
}

/// The first irreducible factor of a monic polynomial that isn't irreducible.
fn first_factor<K: SmallField>(alloc: Global, k: &K, p: &Poly) -> Result<Poly, AllocError>
    requires p_in { IsOver (K.field k.now).ops p.now }
    requires long { 2 ≤ length p.now }
    requires monic { top_of p.now ≡ 1 }
    requires not { ¬ IsIrreducibleList (K.field k.now).ops p.now }
    ensures { IfOk result (IsReducible (K.field k.now).ops p.now) }
{
    let factors = factor(alloc, k, p)?;
    match factors.parts() {
        [first, ..] => first.0.copy(alloc),
        [] => unreachable!(),
    }
}

/// Why the polynomial isn't irreducible and monic, where it isn't. It takes the time of `is_irreducible`, and of
/// `factor` where it has a proper factor.
fn reducible<K: SmallField>(alloc: Global, k: &K, p: &Poly) -> Result<Option<Poly>, AllocError>
    requires p_in { IsOver (K.field k.now).ops p.now }
    ensures { IfOk result (λ o. MatchOption o
        (IsIrreducibleList (K.field k.now).ops p.now)
        (IsReducible (K.field k.now).ops p.now)) }
{
    if p.codes().len() < 2 {
        return Ok(Some(p.copy(alloc)?));
    }
    if p.top() != 1 {
        return Ok(Some(constant(alloc, p.top())?));
    }
    if is_irreducible(alloc, k, p)? {
        return Ok(None);
    }
    Ok(Some(first_factor(alloc, k, p)?))
}

/// The irreducible monic polynomial in x of the terms, or why it may not stand.
fn irreducible<K: SmallField>(
    alloc: Global,
    k: &K,
    n: usize,
    terms: &TermList,
) -> Result<Poly, Refusal>
    requires some { 1 ≤ n }
    requires writable { IsWritableTerms false terms.now }
    requires powers { All HasSmallExponents terms.now }
    ensures read { IfOk result (IsPolynomialRead (K.field k.now).ops n max_degree_of_places terms.now) }
    ensures irreducible { IfOk result (IsIrreducibleList (K.field k.now).ops) }
    ensures refused { IfErr result (UnlessMemory
        (IsPolynomialRow (K.field k.now).ops n max_degree_of_places terms.now)) }
{
    let p = bounded(alloc, k, n, terms)?;
    match reducible(alloc, k, &p)? {
        Some(h) => Err(Refusal::NotIrreducible(h)),
        None => Ok(p),
    }
}

/// What the places lie over as it is written, for a curve of degree n in y, or why none may lie over it: a code that is
/// too great, n times the degree above 512, or a polynomial that isn't irreducible and monic. It takes the time of
/// `is_irreducible`, and of `factor` where there is a proper factor. A product of n and the degree that isn't below
/// 2^64 is want of memory.
pub fn base_of<K: SmallField>(alloc: Global, k: &K, n: usize, over: &Over) -> Result<Base, Refusal>
    requires some { 1 ≤ n }
    requires writable { IsWritableOver over.now }
    requires powers { HasSmallOver over.now }
    ensures base { IfOk result (λ b. IsBaseRead (K.field k.now).ops n over.now b.side b.p) }
    ensures refused { IfErr result (UnlessMemory
        (IsBaseRow (K.field k.now).ops n max_degree_of_places over.now)) }
{
    match over {
        Over::At(terms) => {
            let p = irreducible(alloc, k, n, terms)?;
            Ok(Base {
                side: Side::Finite,
                p,
            })
        }
        Over::Inf => {
            let mut codes = Vec::new(alloc);
            codes.push(0)?;
            codes.push(1)?;
            Ok(Base {
                side: Side::Infinite,
                p: Poly::from_codes(codes),
            })
        }
    }
}
