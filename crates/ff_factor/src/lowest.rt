//! Fractions over one denominator, in lowest terms.

ghost use Rattle.std.specs.Prelude.{◌≡◌, ◌≢◌, ◌<◌, ◌≤◌, ◌∷◌, ℕ, List, [], length, map, All, IfOk, OnOk, OnErr, MatchOption};
ghost use Rattle.ff_fields.specs.Over.{IsOver};
ghost use Rattle.ff_poly.specs.Words.{IsPoly, multiple_of, product_of, top_of};
ghost use Rattle.ff_poly.specs.Value.{value};
ghost use Rattle.ff_factor.specs.LowestTerms.{AreCancelled, AreIrreducible, HasFactorsOf, IsInLowestTermsOf};
ghost use Rattle.ff_factor.specs.Reductions.{AreLowerAt, AreQuotients, AreReduced, DividesAll, IsFree};

use crate::factors::factor;
use ff_fields::field::SmallField;
use ff_poly::Poly;
use ff_poly::poly::divide;
use std::alloc::{AllocError, Global};

/// Equal polynomials, in memory of their own.
fn copy_all(alloc: Global, polys: &[Poly]) -> Result<Vec<Poly>, AllocError>
    ensures { IfOk result (λ copies. copies.items ≡ polys.now) }
{
    let mut copies = Vec::new(alloc);
    for p in polys {
        copies.push(p.copy(alloc)?)?;
    }
    Ok(copies)
}

/// The quotients of the polynomials by p; None where p doesn't divide them all.
fn divide_all<K: SmallField>(
    alloc: Global,
    k: &K,
    polys: &[Poly],
    p: &Poly,
) -> Result<Option<Vec<Poly>>, AllocError>
    requires polys_in { All (IsOver (K.field k.now).ops) polys.now }
    requires p_in { IsOver (K.field k.now).ops p.now }
    requires p_poly { IsPoly p.now }
    requires not_constant { 2 ≤ length p.now }
    ensures { let k = K.field k.now in
        IfOk result (λ r. MatchOption r (¬ DividesAll k p.now polys.now)
        (λ qs. AreQuotients k p.now polys.now qs.items)) }
{
    let mut quotients = Vec::new(alloc);
    for v in polys {
        let (quotient, rest) = divide(alloc, k, v, p)?;
        if !rest.is_zero() {
            return Ok(None);
        }
        quotients.push(quotient)?;
    }
    Ok(Some(quotients))
}

/// The fractions with p cancelled once; None where p doesn't divide all parts.
fn cancel_once<K: SmallField>(
    alloc: Global,
    k: &K,
    num: &[Poly],
    den: &Poly,
    p: &Poly,
) -> Result<Option<(Vec<Poly>, Poly)>, AllocError>
    requires num_in { All (IsOver (K.field k.now).ops) num.now }
    requires den_in { IsOver (K.field k.now).ops den.now }
    requires den_poly { IsPoly den.now }
    requires den_some { den.now ≢ [] }
    requires p_in { IsOver (K.field k.now).ops p.now }
    requires p_poly { IsPoly p.now }
    requires not_constant { 2 ≤ length p.now }
    ensures { let k = K.field k.now in
        IfOk result (λ r. MatchOption r (IsFree k p.now num.now den.now)
        (λ f. AreReduced k (value k p.now) num.now den.now f.0.items f.1)) }
{
    let (quotient, rest) = divide(alloc, k, den, p)?;
    if !rest.is_zero() {
        return Ok(None);
    }
    match divide_all(alloc, k, num, p)? {
        None => Ok(None),
        Some(quotients) => Ok(Some((quotients, quotient))),
    }
}

/// The fractions with p cancelled as often as it divides all parts.
fn cancel_one<K: SmallField>(
    alloc: Global,
    k: &K,
    mut num: Vec<Poly>,
    mut den: Poly,
    p: &Poly,
) -> Result<(Vec<Poly>, Poly), AllocError>
    requires num_in { All (IsOver (K.field k.now).ops) num.items }
    requires den_in { IsOver (K.field k.now).ops den }
    requires den_poly { IsPoly den }
    requires den_some { den ≢ [] }
    requires p_in { IsOver (K.field k.now).ops p.now }
    requires p_poly { IsPoly p.now }
    requires not_constant { 2 ≤ length p.now }
    ensures { IfOk result (λ r. AreLowerAt (K.field k.now) (p.now ∷ []) num.items den r.0.items r.1) }
{
    while let Some((quotients, quotient)) = cancel_once(alloc, k, num.as_slice(), &den, p)? {
        num = quotients;
        den = quotient;
    }
    Ok((num, den))
}

/// The fractions with each of the factors cancelled as often as it divides all parts.
fn cancel_each<K: SmallField>(
    alloc: Global,
    k: &K,
    mut num: Vec<Poly>,
    mut den: Poly,
    factors: &[Poly],
) -> Result<(Vec<Poly>, Poly), AllocError>
    requires num_in { All (IsOver (K.field k.now).ops) num.items }
    requires den_in { IsOver (K.field k.now).ops den }
    requires den_poly { IsPoly den }
    requires den_some { den ≢ [] }
    requires factors { AreIrreducible (K.field k.now).ops factors.now }
    ensures { IfOk result (λ r. AreLowerAt (K.field k.now) factors.now num.items den r.0.items r.1) }
{
    for p in factors {
        let (less, lower) = cancel_one(alloc, k, num, den, p)?;
        num = less;
        den = lower;
    }
    Ok((num, den))
}

/// Multiplies each polynomial by the code c, in place.
fn multiply_all<K: SmallField>(k: &K, polys: &mut [Poly], c: u32)
    requires polys_in { All (IsOver (K.field k.now).ops) polys.old }
    requires c_in { c < (K.field k.now).size }
    ensures { polys.new ≡ map (λ v. multiple_of (K.field k.now).ops v c) polys.old }
{
    for i in 0..polys.len() {
        polys[i].multiply_by(k, c);
    }
}

/// Divides all parts by the top code of the denominator, in place.
fn make_monic<K: SmallField>(k: &K, num: &mut Vec<Poly>, den: &mut Poly)
    requires num_in { All (IsOver (K.field k.now).ops) num.old.items }
    requires den_in { IsOver (K.field k.now).ops den.old }
    requires den_some { den.old ≢ [] }
    ensures top { top_of den.old ≢ 0 }
    ensures num { let ops = (K.field k.now).ops in
        num.new.items ≡ map (λ v. multiple_of ops v (ops.inv (top_of den.old))) num.old.items }
    ensures den { let ops = (K.field k.now).ops in den.new ≡ multiple_of ops den.old (ops.inv (top_of den.old)) }
{
    let inverse = k.inv(den.top());
    multiply_all(k, num.as_mut_slice(), inverse);
    den.multiply_by(k, inverse);
}

/// Cancels each of the irreducible monic factors from the fractions num over den as often as it divides the denominator
/// and all numerators, and makes the denominator monic: the same fractions. They are in lowest terms if each
/// irreducible monic divisor of the denominator is listed; so many fractions over one denominator need its factors
/// once, and those over a product the factors of each part. The denominator isn't 0. After want of memory both are as
/// before.
/// Cost: for each factor one division of each part a turn, with a turn for each time that it is cancelled and one more.
pub fn cancel<K: SmallField>(
    alloc: Global,
    k: &K,
    num: &mut Vec<Poly>,
    den: &mut Poly,
    factors: &[Poly],
) -> Result<(), AllocError>
    requires over { let ops = (K.field k.now).ops in All (IsOver ops) num.old.items × IsOver ops den.old }
    requires not_zero { den.old ≢ [] }
    requires factors { AreIrreducible (K.field k.now).ops factors.now }
    ensures cancelled { OnOk result (AreCancelled (K.field k.now).ops factors.now num.old.items den.old num.new.items
        den.new) }
    ensures lowest { let ops = (K.field k.now).ops in
        OnOk result (HasFactorsOf ops factors.now den.old
        → IsInLowestTermsOf ops num.old.items den.old num.new.items den.new) }
    ensures unchanged { OnErr result ((num.new.items ≡ num.old.items) × (den.new ≡ den.old)) }
{
    let copies = copy_all(alloc, num.as_slice())?;
    let copy = den.copy(alloc)?;
    let (mut less, mut lower) = cancel_each(alloc, k, copies, copy, factors)?;
    make_monic(k, &mut less, &mut lower);
    *num = less;
    *den = lower;
    Ok(())
}

/// The irreducible monic divisors of the product of a and b, which aren't 0: those of a, then those of b. One that
/// divides both stands twice.
/// Cost: that of `factor` for a and for b, which is less than for their product.
pub fn divisors_of_product<K: SmallField>(
    alloc: Global,
    k: &K,
    a: &Poly,
    b: &Poly,
) -> Result<Vec<Poly>, AllocError>
    requires over { let ops = (K.field k.now).ops in IsOver ops a.now × IsOver ops b.now }
    requires not_zero { (a.now ≢ []) × (b.now ≢ []) }
    ensures irreducible { IfOk result (λ ps. AreIrreducible (K.field k.now).ops ps.items) }
    ensures each { let ops = (K.field k.now).ops in IfOk result
        (λ ps. HasFactorsOf ops ps.items (product_of ops a.now b.now)) }
{
    let mut divisors = factor(alloc, k, a)?.polys(alloc)?;
    let mut others = factor(alloc, k, b)?.polys(alloc)?;
    divisors.append(&mut others)?;
    Ok(divisors)
}

/// Brings the fractions num over den into lowest terms: the same fractions, with a monic denominator of least degree.
/// The denominator isn't 0. After want of memory both are as before.
/// Cost: that of `factor` for the denominator, and that of `cancel` with its irreducible factors.
pub fn lowest_terms<K: SmallField>(
    alloc: Global,
    k: &K,
    num: &mut Vec<Poly>,
    den: &mut Poly,
) -> Result<(), AllocError>
    requires over { let ops = (K.field k.now).ops in All (IsOver ops) num.old.items × IsOver ops den.old }
    requires not_zero { den.old ≢ [] }
    ensures lowest { OnOk result (IsInLowestTermsOf (K.field k.now).ops num.old.items den.old num.new.items den.new) }
    ensures unchanged { OnErr result ((num.new.items ≡ num.old.items) × (den.new ≡ den.old)) }
{
    let polys = factor(alloc, k, den)?.polys(alloc)?;
    cancel(alloc, k, num, den, polys.as_slice())
}

/// A law: fractions have one form in lowest terms.
pub fn one_lowest<K: SmallField>(k: &K)
    ensures { let ops = (K.field k.now).ops in
        (num vs ws : List (List ℕ)) (den d e : List ℕ) →
        All (IsOver ops) num → IsOver ops den → IsPoly den → den ≢ [] →
        IsInLowestTermsOf ops num den vs d → IsInLowestTermsOf ops num den ws e → (vs ≡ ws) × (d ≡ e) }
{}
