//! Elements as they are written, over a field.

ghost use Rattle.std.specs.Prelude.{◌≡◌, ◌<◌, ◌≤◌, All, IfOk, IfErr, IfSome};
ghost use Rattle.std.specs.List.{flat_map};
ghost use Rattle.ff_fields.specs.Over.{IsOver};
ghost use Rattle.ff_algebra.specs.CurveTerms.{degree_in_x};
ghost use Rattle.ff_text.specs.Values.{written_codes, HasSmallExponents};
ghost use Rattle.ff_text.specs.Printing.{IsWritableElement};
ghost use Rattle.ff_meaning.specs.Meaning.{codes_of_den, codes_of_element};
ghost use Rattle.ff_meaning.specs.Refusals.{UnlessMemory, IsCodeRow, IsElementRow};
ghost use Rattle.ff_meaning.specs.Bindings.{HasSmallElement};
ghost use Rattle.ff_meaning.specs.Elements.{greatest_in_x, AreSumsOf, IsDenSumOf, AreElementSums, AreCoefficients, IsElementRead};

use crate::polynomials::{degree_in_x, polynomial, sum};
use crate::refusal::Refusal;
use ff_algebra::elem::Elem;
use ff_fields::field::SmallField;
use ff_poly::{Poly, Terms};
use ff_text::{ElemText, TermList};
use std::alloc::{AllocError, Global};

/// The sum of each entry.
fn sums<K: SmallField>(alloc: Global, k: &K, entries: &[TermList]) -> Result<Vec<Terms>, Refusal>
    requires { All (All HasSmallExponents) entries.now }
    ensures sums { IfOk result (λ v. AreSumsOf (K.field k.now).ops entries.now v.items) }
    ensures refused { IfErr result (UnlessMemory
        (IsCodeRow (K.field k.now).size (flat_map written_codes entries.now))) }
{
    let mut sums = Vec::new(alloc);
    for entry in entries {
        sums.push(sum(alloc, k, entry)?)?;
    }
    Ok(sums)
}

/// The sum of the denominator that is written, and 1 where there is none.
fn denominator<K: SmallField>(
    alloc: Global,
    k: &K,
    den: &Option<TermList>,
) -> Result<Terms, Refusal>
    requires { IfSome den.now (All HasSmallExponents) }
    ensures sum { IfOk result (IsDenSumOf (K.field k.now).ops den.now) }
    ensures refused { IfErr result (UnlessMemory (IsCodeRow (K.field k.now).size (codes_of_den den.now))) }
{
    match den {
        Some(terms) => sum(alloc, k, terms),
        None => Ok(Terms::from_list(alloc, k, &[(0, 0, 1)])?),
    }
}

/// The sums of the entries, and that of the denominator.
fn element_sums<K: SmallField>(
    alloc: Global,
    k: &K,
    e: &ElemText,
) -> Result<(Vec<Terms>, Terms), Refusal>
    requires { HasSmallElement e.now }
    ensures sums { IfOk result (λ s. AreElementSums (K.field k.now).ops e.now s.0.items s.1) }
    ensures refused { IfErr result (UnlessMemory (IsCodeRow (K.field k.now).size (codes_of_element e.now))) }
{
    let entries = sums(alloc, k, e.entries.entries.as_slice())?;
    let den = denominator(alloc, k, &e.den)?;
    Ok((entries, den))
}

/// The greatest exponent of x in the sums.
fn greatest_in_x(sums: &[Terms]) -> u64
    ensures { result ≡ greatest_in_x sums.now }
{
    let mut degree = 0;
    for terms in sums {
        degree = degree_in_x(terms.list()).max(degree);
    }
    degree
}

/// The polynomial of each sum.
fn polynomials<K: SmallField>(
    alloc: Global,
    k: &K,
    bound: u16,
    sums: &[Terms],
) -> Result<Vec<Poly>, AllocError>
    requires codes_in { All (All (λ t. t.2 < (K.field k.now).size)) sums.now }
    requires low { greatest_in_x sums.now ≤ bound }
    ensures coefficients { IfOk result (λ ps. AreCoefficients (K.field k.now).ops sums.now ps.items) }
    ensures over { IfOk result (λ ps. All (IsOver (K.field k.now).ops) ps.items) }
{
    let mut polys = Vec::new(alloc);
    for terms in sums {
        polys.push(polynomial(alloc, k, bound, terms.list())?)?;
    }
    Ok(polys)
}

/// The element as it is written, of n entries, or why it may not stand: a code that is too great, another number of
/// entries, a degree in x above the bound, or a denominator 0. It takes time in proportion to the text's terms and the
/// bound.
pub fn element<K: SmallField>(
    alloc: Global,
    k: &K,
    n: usize,
    bound: u16,
    e: &ElemText,
) -> Result<Elem, Refusal>
    requires writable { IsWritableElement e.now }
    requires powers { HasSmallElement e.now }
    ensures read { IfOk result (IsElementRead (K.field k.now) n bound e.now) }
    ensures refused { IfErr result (UnlessMemory (IsElementRow (K.field k.now).ops n bound e.now)) }
{
    let (sums, den) = element_sums(alloc, k, e)?;
    if sums.len() != n {
        return Err(Refusal::Length(sums.len()));
    }
    let degree = greatest_in_x(sums.as_slice()).max(degree_in_x(den.list()));
    let most = u64::from(bound);
    if degree > most {
        return Err(Refusal::LimitX(degree));
    }
    let num = polynomials(alloc, k, bound, sums.as_slice())?;
    let den = polynomial(alloc, k, bound, den.list())?;
    if den.is_zero() {
        return Err(Refusal::Zero);
    }
    Ok(Elem::new(k, num, den))
}
