//! Least multipliers: the monic polynomial whose multiples are the u for which e divides u times each entry of rows.
//!
//! They are found entry by entry, with no common divisor: where h serves for the entries before, h times the
//! annihilator of h·v serves for the entry v too. The codes of an annihilator are those of the first relation among the
//! residues of v, x·v, x²·v, .. modulo e.

ghost use Rattle.std.specs.Prelude.{◌≡◌, ◌≢◌, ◌<◌, ◌≤◌, [], ◌∷◌, ◌++◌, length, All, IfOk};
ghost use Rattle.ff_fields.specs.Code.{raw_ring};
ghost use Rattle.ff_fields.specs.Over.{IsOver};
ghost use Rattle.ring_lemmas.specs.Lists.{neg_list};
ghost use Rattle.ff_poly.specs.Words.{IsPoly, IsMonicList, DividesList, product_of, shifted};
ghost use Rattle.ff_poly.specs.Popov.{rows_of, IsRow};
ghost use Rattle.ff_linalg.specs.Matrix.{HasShape};
ghost use Rattle.ff_lattice.specs.Steps.{IsAnnihilator, IsNext, IsRowMultiplier, IsLeastMultiplier};
ghost use Rattle.ff_lattice.specs.Residues.{with_start, IsRestModulo, AreResidues};

use ff_fields::field::SmallField;
use ff_linalg::{Matrix, min_relation};
use ff_poly::{Poly, poly};
use std::alloc::{AllocError, Global};

/// Writes the codes over the start of row i.
fn write_start(m: &mut Matrix, i: usize, codes: &[u32])
    requires row_in { i < length m.old.rows }
    requires fits { length codes.now ≤ m.old.cols }
    requires shape { HasShape m.old (length m.old.rows) m.old.cols }
    ensures { m.new ≡ with_start m.old i codes.now }
{
    for j in 0..codes.len() {
        m.set(i, j, codes[j]);
    }
}

/// What is left of x·v modulo e, where v is shorter than e: at most one multiple of e is taken away, in time of the
/// degree.
fn times_x<K: SmallField>(alloc: Global, k: &K, e: &Poly, v: &Poly) -> Result<Poly, AllocError>
    requires e_in { IsOver (K.field k.now).ops e.now }
    requires v_in { IsOver (K.field k.now).ops v.now }
    requires short { length v.now < length e.now }
    ensures { IfOk result (IsRestModulo (K.field k.now).ops e.now (shifted v.now 1)) }
{
    let mut rest = poly::shift(alloc, v, 1)?;
    if rest.len() < e.len() {
        return Ok(rest);
    }
    let c = k.mul(rest.top(), k.inv(e.top()));
    rest.sub_multiple(k, c, 0, e)?;
    Ok(rest)
}

/// The residues of v, x·v, x²·v, .. modulo e as rows, as many as e has codes. Time and memory are those of the matrix.
fn residues<K: SmallField>(alloc: Global, k: &K, e: &Poly, v: &Poly) -> Result<Matrix, AllocError>
    requires e_in { IsOver (K.field k.now).ops e.now }
    requires v_in { IsOver (K.field k.now).ops v.now }
    requires v_poly { IsPoly v.now }
    requires short { length v.now < length e.now }
    ensures residues { IfOk result (AreResidues (K.field k.now).ops e.now v.now) }
    ensures poly { IfOk result (λ _. IsPoly e.now) }
{
    let mut rows = Matrix::zero(alloc, e.len(), e.len() - 1)?;
    let mut rest = v.copy(alloc)?;
    for j in 0..e.len() {
        write_start(&mut rows, j, rest.codes());
        rest = times_x(alloc, k, e, &rest)?;
    }
    Ok(rows)
}

/// The monic polynomial that has the negatives of the codes below its top.
fn monic_above<K: SmallField>(alloc: Global, k: &K, codes: &[u32]) -> Result<Poly, AllocError>
    requires { IsOver (K.field k.now).ops codes.now }
    ensures { IfOk result (λ h. h ≡ neg_list (raw_ring (K.field k.now).ops) codes.now ++ 1 ∷ []) }
{
    let mut negatives = Vec::new(alloc);
    for c in codes {
        negatives.push(k.neg(*c))?;
    }
    negatives.push(1)?;
    Ok(Poly::from_codes(negatives))
}

/// The monic polynomial whose multiples are the u for which e divides u·v, where v is shorter than e. There is a
/// relation among as many residues as e has codes: e itself gives one.
/// Cost: about (r + 1)·d² products and sums of codes, where d is the degree of e and r that of the answer.
fn annihilator_by_relation<K: SmallField>(
    alloc: Global,
    k: &K,
    e: &Poly,
    v: &Poly,
) -> Result<Poly, AllocError>
    requires e_in { IsOver (K.field k.now).ops e.now }
    requires v_in { IsOver (K.field k.now).ops v.now }
    requires v_poly { IsPoly v.now }
    requires short { length v.now < length e.now }
    ensures { IfOk result (IsAnnihilator (K.field k.now).ops e.now v.now) }
{
    let rows = residues(alloc, k, e, v)?;
    match min_relation(alloc, k, &rows)? {
        Some(coefficients) => monic_above(alloc, k, coefficients.as_slice()),
        None => unreachable!(),
    }
}

/// The monic polynomial whose multiples are the u for which e divides u·v. Where e divides v it is 1, in the time of
/// the division.
fn annihilator<K: SmallField>(alloc: Global, k: &K, e: &Poly, v: &Poly) -> Result<Poly, AllocError>
    requires e_in { IsOver (K.field k.now).ops e.now }
    requires e_some { e.now ≢ [] }
    requires v_in { IsOver (K.field k.now).ops v.now }
    ensures { IfOk result (IsAnnihilator (K.field k.now).ops e.now v.now) }
{
    let (_, rest) = poly::divide(alloc, k, v, e)?;
    if rest.is_zero() {
        return Poly::one(alloc);
    }
    annihilator_by_relation(alloc, k, e, &rest)
}

/// The monic polynomial whose multiples are the multiples u of h for which e divides u·v.
fn next_multiplier<K: SmallField>(
    alloc: Global,
    k: &K,
    e: &Poly,
    h: &Poly,
    v: &Poly,
) -> Result<Poly, AllocError>
    requires e_in { IsOver (K.field k.now).ops e.now }
    requires e_some { e.now ≢ [] }
    requires h_in { IsOver (K.field k.now).ops h.now }
    requires h_poly { IsPoly h.now }
    requires h_monic { IsMonicList h.now }
    requires v_in { IsOver (K.field k.now).ops v.now }
    ensures { let k = (K.field k.now).ops in
        IfOk result (IsNext k h.now (λ u. DividesList k e.now (product_of k u v.now))) }
{
    let product = poly::mul(alloc, k, h, v)?;
    let more = annihilator(alloc, k, e, &product)?;
    let next = poly::mul(alloc, k, h, &more)?;
    Ok(next)
}

/// The monic polynomial whose multiples are the multiples u of h for which e divides u times each entry of the row.
fn row_multiplier<K: SmallField>(
    alloc: Global,
    k: &K,
    e: &Poly,
    row: &[Poly],
    h: Poly,
) -> Result<Poly, AllocError>
    requires e_in { IsOver (K.field k.now).ops e.now }
    requires e_some { e.now ≢ [] }
    requires row_in { All (IsOver (K.field k.now).ops) row.now }
    requires h_in { IsOver (K.field k.now).ops h }
    requires h_poly { IsPoly h }
    requires h_monic { IsMonicList h }
    ensures { IfOk result (IsNext (K.field k.now).ops h (IsRowMultiplier (K.field k.now).ops e.now row.now)) }
{
    let mut next = h;
    for v in row {
        next = next_multiplier(alloc, k, e, &next, v)?;
    }
    Ok(next)
}

/// The monic polynomial whose multiples are the u for which e divides u times each entry of the rows.
/// Cost: where e is of degree d, about d² products and sums of codes for each entry, and at most d³ more for all of
/// them together: an entry costs r·d² more, where it raises the degree of the answer by r, and the answer divides e.
/// Where e is of degree 0, nothing is eliminated.
pub(crate) fn least_multiplier<K: SmallField>(
    alloc: Global,
    k: &K,
    rows: &[Vec<Poly>],
    n: usize,
    e: &Poly,
) -> Result<Poly, AllocError>
    requires rows_in { All (IsRow (K.field k.now).ops n) (rows_of rows.now) }
    requires e_in { IsOver (K.field k.now).ops e.now }
    requires e_some { e.now ≢ [] }
    ensures { IfOk result (IsLeastMultiplier (K.field k.now).ops (rows_of rows.now) e.now) }
{
    let mut h = Poly::one(alloc)?;
    for row in rows {
        h = row_multiplier(alloc, k, e, row, h)?;
    }
    Ok(h)
}
