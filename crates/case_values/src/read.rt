//! Values from text.

ghost use Rattle.std.specs.Prelude.{◌<◌, All, IfOk};
ghost use Rattle.ff_fields.specs.Over.{IsOver};
ghost use Rattle.function_field.specs.Values.{IsElem, IsPresOver};

use ff_algebra::elem::{Elem, Pres};
use ff_fields::field::SmallField;
use ff_poly::Poly;
use std::alloc::{AllocError, Global};

/// What cannot be read counts as no memory.
pub const BAD: AllocError = AllocError;

/// What stands before the first colon, and what stands after it.
pub fn parted(text: &str) -> Result<(&str, &str), AllocError> {
    text.split_once(':').ok_or(BAD)
}

/// The number of the text.
pub fn number(text: &str) -> Result<u32, AllocError> {
    text.trim().parse::<u32>().or(Err(BAD))
}

/// The numbers of the text, between blanks.
pub fn numbers(alloc: Global, text: &str) -> Result<Vec<u32>, AllocError> {
    let mut found = Vec::new(alloc);
    for word in text.split_whitespace() {
        let Ok(n) = word.parse::<u32>() else {
            return Err(BAD);
        };
        found.push(n)?;
    }
    Ok(found)
}

/// The polynomial with these codes, lowest first, which are tested first.
pub fn tested<K: SmallField>(alloc: Global, k: &K, codes: &[u32]) -> Result<Poly, AllocError>
    ensures { IfOk result (IsOver (K.field k.now).ops) }
{
    let size = k.size();
    if !codes.iter().all(|c| *c < size) {
        return Err(BAD);
    }
    Ok(Poly::from_codes(codes.to_vec(alloc)?))
}

/// The polynomial with the codes of the text, lowest first, which are tested first.
pub fn polynomial<K: SmallField>(alloc: Global, k: &K, text: &str) -> Result<Poly, AllocError>
    ensures { IfOk result (IsOver (K.field k.now).ops) }
{
    let codes = numbers(alloc, text)?;
    tested(alloc, k, codes.as_slice())
}

/// The polynomials between commas.
pub fn row<K: SmallField>(alloc: Global, k: &K, text: &str) -> Result<Vec<Poly>, AllocError>
    ensures { IfOk result (λ polys. All (IsOver (K.field k.now).ops) polys.items) }
{
    let mut polys = Vec::new(alloc);
    for part in text.split(',') {
        polys.push(polynomial(alloc, k, part)?)?;
    }
    Ok(polys)
}

/// The element of n numerators and of a denominator after a stroke.
pub fn element<K: SmallField>(
    alloc: Global,
    k: &K,
    n: usize,
    text: &str,
) -> Result<Elem, AllocError>
    ensures { IfOk result (IsElem (K.field k.now).ops n) }
{
    let Some((num, den)) = text.split_once('/') else {
        return Err(BAD);
    };
    let num = row(alloc, k, num)?;
    let den = polynomial(alloc, k, den)?;
    if num.len() != n || den.is_zero() {
        return Err(BAD);
    }
    Ok(Elem::new(k, num, den))
}

/// The presentation by y to the number of coefficients, plus their terms.
pub fn presentation<K: SmallField>(alloc: Global, k: &K, text: &str) -> Result<Pres, AllocError>
    ensures { IfOk result (IsPresOver (K.field k.now).ops) }
{
    let coeffs = row(alloc, k, text)?;
    if coeffs.is_empty() || coeffs.len() > 4 {
        return Err(BAD);
    }
    Ok(Pres::new(coeffs.len(), coeffs))
}
