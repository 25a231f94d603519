//! The primitive idempotents.

ghost use Rattle.std.specs.Prelude.{◌≡◌, ◌≢◌, ◌<◌, ◌≤◌, ◌++◌, ◌+◌, length, map, All, IfOk, OnOk};
ghost use Rattle.ff_fields.specs.Over.{IsOver};
ghost use Rattle.ff_linalg.specs.Matrix.{IsMatrixOver, HasShape};
ghost use Rattle.ff_falg.specs.Algebras.{IsVector, IsFixedVector, IsIdempotentVector, zero_of};
ghost use Rattle.ff_falg.specs.Idempotents.{elements_of, IsPrimitiveList};
ghost use Rattle.ff_falg.specs.Relations.{IsBounded};
ghost use Rattle.ff_falg.specs.Spaces.{IsEchelonBasisMatrix};
ghost use Rattle.ff_falg.specs.Splits.{part_of, IsSimple, IsSplitOnto, IsSplitting, IsFullSplitting};

use crate::algebra::FiniteAlgebra;
use crate::relations::first_relation;
use crate::roots::{negate_all, quotient, roots, value};
use crate::rows::{row_times, scale_all};
use crate::spaces::fixed;
use ff_fields::field::SmallField;
use ff_linalg::Matrix;
use std::alloc::{AllocError, Global};

/// The value of the quotient by t - c, made 1 at c, at the element whose powers are the rows.
fn part<K: SmallField>(
    alloc: Global,
    k: &K,
    lower: &[u32],
    c: u32,
    powers: &Matrix,
) -> Result<Vec<u32>, AllocError>
    requires lower_in { IsOver (K.field k.now).ops lower.now }
    requires some { 0 < length lower.now }
    requires within { length lower.now ≤ length powers.now.rows }
    requires powers_in { IsMatrixOver (K.field k.now).ops powers.now }
    requires shape { HasShape powers.now (length powers.now.rows) powers.now.cols }
    requires simple { IsSimple (K.field k.now).ops lower.now c }
    ensures { IfOk result (λ v. v.items ≡ part_of (K.field k.now).ops lower.now powers.now c) }
{
    let coefficients = quotient(alloc, k, lower, c)?;
    let weight = value(k, &coefficients[..lower.len() - 1], c);
    let mut sum = row_times(alloc, k, coefficients.as_slice(), powers)?;
    scale_all(k, sum.as_mut_slice(), k.inv(weight));
    Ok(sum)
}

/// Appends the parts at the roots.
fn push_parts<K: SmallField>(
    alloc: Global,
    k: &K,
    lower: &[u32],
    found: &[u32],
    powers: &Matrix,
    out: &mut Vec<Vec<u32>>,
) -> Result<(), AllocError>
    requires lower_in { IsOver (K.field k.now).ops lower.now }
    requires some { 0 < length lower.now }
    requires within { length lower.now ≤ length powers.now.rows }
    requires powers_in { IsMatrixOver (K.field k.now).ops powers.now }
    requires shape { HasShape powers.now (length powers.now.rows) powers.now.cols }
    requires simple { All (IsSimple (K.field k.now).ops lower.now) found.now }
    ensures { OnOk result (elements_of out.new.items
        ≡ elements_of out.old.items ++ map (part_of (K.field k.now).ops lower.now powers.now) found.now) }
{
    for c in found {
        out.push(part(alloc, k, lower, *c, powers)?)?;
    }
    Ok(())
}

/// Appends the idempotents into which x splits e, one for each root of the minimal polynomial of x at e.
fn split<K: SmallField, A: FiniteAlgebra<K>>(
    alloc: Global,
    k: &K,
    a: &A,
    x: &[u32],
    e: &[u32],
    bound: usize,
    out: &mut Vec<Vec<u32>>,
) -> Result<(), AllocError>
    requires over { A.IsOver a.now (K.field k.now) }
    requires x_in { IsVector (K.field k.now).ops (A.algebra a.now).size x.now }
    requires fixed { IsFixedVector (K.field k.now).ops (A.algebra a.now) x.now }
    requires idempotent { IsIdempotentVector (K.field k.now).ops (A.algebra a.now) e.now }
    requires nonzero { e.now ≢ zero_of (A.algebra a.now) }
    requires some { 0 < bound }
    requires bounded { IsBounded (K.field k.now).ops (A.algebra a.now) x.now e.now bound }
    ensures { OnOk result (IsSplitOnto (K.field k.now).ops (A.algebra a.now) x.now e.now (elements_of out.old.items)
        (elements_of out.new.items)) }
{
    let relation = first_relation(alloc, k, a, x, e, bound)?;
    let mut lower = relation.coefficients;
    if lower.len() == 1 {
        out.push(e.to_vec(alloc)?)?;
        return Ok(());
    }
    negate_all(k, lower.as_mut_slice());
    let found = roots(alloc, k, lower.as_slice())?;
    push_parts(
        alloc,
        k,
        lower.as_slice(),
        found.as_slice(),
        &relation.powers,
        out,
    )
}

/// Splits each of the idempotents by row i.
fn refine<K: SmallField, A: FiniteAlgebra<K>>(
    alloc: Global,
    k: &K,
    a: &A,
    basis: &Matrix,
    i: usize,
    parts: &[Vec<u32>],
) -> Result<Vec<Vec<u32>>, AllocError>
    requires over { A.IsOver a.now (K.field k.now) }
    requires basis { IsEchelonBasisMatrix (K.field k.now).ops (A.algebra a.now).size
        (IsFixedVector (K.field k.now).ops (A.algebra a.now)) basis.now }
    requires within { i < length basis.now.rows }
    requires splitting { IsSplitting (K.field k.now).ops (A.algebra a.now) basis.now i (elements_of parts.now) }
    ensures { IfOk result (λ v. IsSplitting (K.field k.now).ops (A.algebra a.now) basis.now (i + 1)
        (elements_of v.items)) }
{
    let mut out = Vec::new(alloc);
    for e in parts {
        split(
            alloc,
            k,
            a,
            basis.row(i),
            e.as_slice(),
            basis.rows(),
            &mut out,
        )?;
    }
    Ok(out)
}

/// Splits 1 by the rows, until there are as many idempotents as rows.
fn split_one<K: SmallField, A: FiniteAlgebra<K>>(
    alloc: Global,
    k: &K,
    a: &A,
    basis: &Matrix,
) -> Result<Vec<Vec<u32>>, AllocError>
    requires over { A.IsOver a.now (K.field k.now) }
    requires basis { IsEchelonBasisMatrix (K.field k.now).ops (A.algebra a.now).size
        (IsFixedVector (K.field k.now).ops (A.algebra a.now)) basis.now }
    requires some { 0 < length basis.now.rows }
    ensures { IfOk result (λ v. IsFullSplitting (K.field k.now).ops (A.algebra a.now) basis.now (elements_of v.items)) }
{
    let mut parts = Vec::new(alloc);
    parts.push(a.one(alloc)?)?;
    for i in 0..basis.rows() {
        if parts.len() == basis.rows() {
            return Ok(parts);
        }
        parts = refine(alloc, k, a, basis, i, parts.as_slice())?;
    }
    Ok(parts)
}

/// All primitive idempotents, ordered by their lists of codes, which are compared from the first entry.
/// Cost: that of `fixed` and of `idempotents_by`.
pub fn idempotents<K: SmallField, A: FiniteAlgebra<K>>(
    alloc: Global,
    k: &K,
    a: &A,
) -> Result<Vec<Vec<u32>>, AllocError>
    requires { A.IsOver a.now (K.field k.now) }
    ensures { IfOk result (λ v. IsPrimitiveList (K.field k.now).ops (A.algebra a.now) (elements_of v.items)) }
{
    let basis = fixed(alloc, k, a)?;
    idempotents_by(alloc, k, a, &basis)
}

/// The same, where a basis of the elements that are their own q-th powers is known.
/// Cost: where there is one idempotent, nothing but its memory; else for each idempotent that a row splits into s, at
/// most 2·s products, the first relation of at most 2·s elements, and values at codes; the values are at most 2·r·q in
/// all, where r is the number of idempotents and q the size of the field.
pub fn idempotents_by<K: SmallField, A: FiniteAlgebra<K>>(
    alloc: Global,
    k: &K,
    a: &A,
    basis: &Matrix,
) -> Result<Vec<Vec<u32>>, AllocError>
    requires over { A.IsOver a.now (K.field k.now) }
    requires basis { let n = (A.algebra a.now).size in
        IsEchelonBasisMatrix (K.field k.now).ops n (IsFixedVector (K.field k.now).ops (A.algebra a.now)) basis.now }
    ensures { IfOk result (λ v. IsPrimitiveList (K.field k.now).ops (A.algebra a.now) (elements_of v.items)) }
{
    if basis.rows() == 0 {
        return Ok(Vec::new(alloc));
    }
    let mut parts = split_one(alloc, k, a, basis)?;
    parts.sort()?;
    Ok(parts)
}
