//! The map that takes an element to its q-th power, where q is the size of the field.

ghost use Rattle.std.specs.Prelude.{◌≡◌, ◌<◌, ℕ, ⊤, true, false, None, Some, length, get_or, IfOk, OnOk, MatchOption};
ghost use Rattle.ff_falg.specs.Algebras.{IsVector, power};
ghost use Rattle.ff_falg.specs.Chains.{AreChains, AreStepsBelow, IsFrobeniusAt, IsChainStep, KeepsFlags};
ghost use Rattle.ff_falg.specs.Spaces.{IsFrobenius};

use crate::algebra::FiniteAlgebra;
use crate::rows::{set_row, unit};
use ff_fields::field::SmallField;
use ff_linalg::Matrix;
use std::alloc::{AllocError, Global};

/// The e-th power of an element, by squaring. At most twice as many products as e has bits.
fn pow<K: SmallField, A: FiniteAlgebra<K>>(
    alloc: Global,
    k: &K,
    a: &A,
    x: &[u32],
    e: u32,
) -> Result<Vec<u32>, AllocError>
    requires over { A.IsOver a.now (K.field k.now) }
    requires x_in { IsVector (K.field k.now).ops (A.algebra a.now).size x.now }
    requires some { 0 < e }
    ensures { IfOk result (λ v. v.items ≡ power (K.field k.now).ops (A.algebra a.now) x.now e) }
{
    if e == 1 {
        return x.to_vec(alloc);
    }
    let half = pow(alloc, k, a, x, e / 2)?;
    let square = a.mul(alloc, k, half.as_slice(), half.as_slice())?;
    if e % 2 == 0 {
        return Ok(square);
    }
    a.mul(alloc, k, x, square.as_slice())
}

/// The position of the first code that isn't 0.
fn first_nonzero(codes: &[u32]) -> Option<usize>
    ensures { MatchOption result ⊤ (λ i. i < length codes.now) }
{
    for i in 0..codes.len() {
        if codes[i] != 0 {
            return Some(i);
        }
    }
    None
}

/// The number of the basis element that z times basis element j is; None where it is none.
fn next_of<K: SmallField, A: FiniteAlgebra<K>>(
    alloc: Global,
    k: &K,
    a: &A,
    z: &[u32],
    j: usize,
) -> Result<Option<usize>, AllocError>
    requires over { A.IsOver a.now (K.field k.now) }
    requires z_in { IsVector (K.field k.now).ops (A.algebra a.now).size z.now }
    requires within { j < (A.algebra a.now).size }
    ensures { IfOk result (λ r. MatchOption r ⊤ (IsChainStep (K.field k.now).ops (A.algebra a.now) z.now j)) }
{
    let element = unit(alloc, a.dim(), j)?;
    let product = a.mul(alloc, k, z, element.as_slice())?;
    let Some(i) = first_nonzero(product.as_slice()) else {
        return Ok(None);
    };
    let other = unit(alloc, product.len(), i)?;
    if product.as_slice() == other.as_slice() {
        return Ok(Some(i));
    }
    Ok(None)
}

/// For each basis element the number of the one that z times it is.
fn next_list<K: SmallField, A: FiniteAlgebra<K>>(
    alloc: Global,
    k: &K,
    a: &A,
    z: &[u32],
) -> Result<Vec<Option<usize>>, AllocError>
    requires over { A.IsOver a.now (K.field k.now) }
    requires z_in { IsVector (K.field k.now).ops (A.algebra a.now).size z.now }
    ensures size { IfOk result (λ v. length v.items ≡ (A.algebra a.now).size) }
    ensures steps { IfOk result (λ v. AreStepsBelow (K.field k.now).ops (A.algebra a.now) z.now v.items) }
{
    let mut next = Vec::new(alloc);
    for j in 0..a.dim() {
        next.push(next_of(alloc, k, a, z, j)?)?;
    }
    Ok(next)
}

/// The q-th power of a generator, where q is the size of the field, and for each basis element the number of the one
/// that the generator times it is.
fn chains<K: SmallField, A: FiniteAlgebra<K>>(
    alloc: Global,
    k: &K,
    a: &A,
) -> Result<(Vec<u32>, Vec<Option<usize>>), AllocError>
    requires { A.IsOver a.now (K.field k.now) }
    ensures { IfOk result (λ r. AreChains (K.field k.now).ops (A.algebra a.now) r.0.items r.1.items) }
{
    let z = a.generator(alloc, k)?;
    let z_power = pow(alloc, k, a, z.as_slice(), k.size())?;
    let next = next_list(alloc, k, a, z.as_slice())?;
    Ok((z_power, next))
}

/// Whether no number of the list leads to a position, for each position.
fn heads(alloc: Global, next: &[Option<usize>]) -> Result<Vec<bool>, AllocError>
    requires { (j i : ℕ) → j < length next.now → get_or next.now j None ≡ Some i → i < length next.now }
    ensures { IfOk result (λ v. length v.items ≡ length next.now) }
{
    let mut heads = vec![in alloc; true; next.len()]?;
    for j in 0..next.len() {
        if let Some(i) = next[j] {
            heads[i] = false;
        }
    }
    Ok(heads)
}

/// Fills the rows to which the numbers lead from row j, which is filled, as far as they aren't: each is that of z times
/// the one before.
fn follow<K: SmallField, A: FiniteAlgebra<K>>(
    alloc: Global,
    k: &K,
    a: &A,
    z_power: &[u32],
    next: &[Option<usize>],
    rows: &mut Matrix,
    done: &mut [bool],
    start: usize,
) -> Result<(), AllocError>
    requires over { A.IsOver a.now (K.field k.now) }
    requires chains { AreChains (K.field k.now).ops (A.algebra a.now) z_power.now next.now }
    requires filled { IsFrobeniusAt (K.field k.now).ops (A.algebra a.now) done.old rows.old }
    requires within { start < (A.algebra a.now).size }
    requires first { get_or done.old start false ≡ true }
    ensures filled { OnOk result (IsFrobeniusAt (K.field k.now).ops (A.algebra a.now) done.new rows.new) }
    ensures kept { OnOk result (KeepsFlags done.old done.new) }
{
    let mut j = start;
    for _ in 1..a.dim() {
        let Some(i) = next[j] else {
            return Ok(());
        };
        if done[i] {
            return Ok(());
        }
        let row = a.mul(alloc, k, z_power, rows.row(j))?;
        set_row(rows, i, row.as_slice());
        done[i] = true;
        j = i;
    }
    Ok(())
}

/// Fills row j by a power, and the rows to which the numbers lead from it.
fn fill_from<K: SmallField, A: FiniteAlgebra<K>>(
    alloc: Global,
    k: &K,
    a: &A,
    z_power: &[u32],
    next: &[Option<usize>],
    rows: &mut Matrix,
    done: &mut [bool],
    j: usize,
) -> Result<(), AllocError>
    requires over { A.IsOver a.now (K.field k.now) }
    requires chains { AreChains (K.field k.now).ops (A.algebra a.now) z_power.now next.now }
    requires filled { IsFrobeniusAt (K.field k.now).ops (A.algebra a.now) done.old rows.old }
    requires within { j < (A.algebra a.now).size }
    ensures filled { OnOk result (IsFrobeniusAt (K.field k.now).ops (A.algebra a.now) done.new rows.new) }
    ensures here { OnOk result (get_or done.new j false ≡ true) }
    ensures kept { OnOk result (KeepsFlags done.old done.new) }
{
    let element = unit(alloc, a.dim(), j)?;
    let row = pow(alloc, k, a, element.as_slice(), k.size())?;
    set_row(rows, j, row.as_slice());
    done[j] = true;
    follow(alloc, k, a, z_power, next, rows, done, j)
}

/// Fills the rows to which the numbers lead from the heads.
fn fill_heads<K: SmallField, A: FiniteAlgebra<K>>(
    alloc: Global,
    k: &K,
    a: &A,
    z_power: &[u32],
    next: &[Option<usize>],
    rows: &mut Matrix,
    done: &mut [bool],
) -> Result<(), AllocError>
    requires over { A.IsOver a.now (K.field k.now) }
    requires chains { AreChains (K.field k.now).ops (A.algebra a.now) z_power.now next.now }
    requires filled { IsFrobeniusAt (K.field k.now).ops (A.algebra a.now) done.old rows.old }
    ensures { OnOk result (IsFrobeniusAt (K.field k.now).ops (A.algebra a.now) done.new rows.new) }
{
    let heads = heads(alloc, next)?;
    for j in 0..heads.len() {
        if heads[j] {
            fill_from(alloc, k, a, z_power, next, rows, done, j)?;
        }
    }
    Ok(())
}

/// Fills the rows that aren't filled.
fn fill_rest<K: SmallField, A: FiniteAlgebra<K>>(
    alloc: Global,
    k: &K,
    a: &A,
    z_power: &[u32],
    next: &[Option<usize>],
    rows: &mut Matrix,
    done: &mut [bool],
) -> Result<(), AllocError>
    requires over { A.IsOver a.now (K.field k.now) }
    requires chains { AreChains (K.field k.now).ops (A.algebra a.now) z_power.now next.now }
    requires filled { IsFrobeniusAt (K.field k.now).ops (A.algebra a.now) done.old rows.old }
    ensures { OnOk result (IsFrobenius (K.field k.now).ops (A.algebra a.now) rows.new) }
{
    for j in 0..done.len() {
        if !done[j] {
            fill_from(alloc, k, a, z_power, next, rows, done, j)?;
        }
    }
    Ok(())
}

/// The matrix of the map that takes an element to its q-th power, where q is the size of the field: row i is the q-th
/// power of basis element i, and v times the matrix is that of v.
/// Cost: two products for each basis element that is a product of the algebra's generator and another one, and for each
/// other one, and for the generator, at most twice as many as q has bits.
pub fn frobenius<K: SmallField, A: FiniteAlgebra<K>>(
    alloc: Global,
    k: &K,
    a: &A,
) -> Result<Matrix, AllocError>
    requires { A.IsOver a.now (K.field k.now) }
    ensures { IfOk result (IsFrobenius (K.field k.now).ops (A.algebra a.now)) }
{
    let n = a.dim();
    let (z_power, next) = chains(alloc, k, a)?;
    let mut rows = Matrix::zero(alloc, n, n)?;
    let mut done = vec![in alloc; false; n]?;
    fill_heads(
        alloc,
        k,
        a,
        z_power.as_slice(),
        next.as_slice(),
        &mut rows,
        done.as_mut_slice(),
    )?;
    fill_rest(
        alloc,
        k,
        a,
        z_power.as_slice(),
        next.as_slice(),
        &mut rows,
        done.as_mut_slice(),
    )?;
    Ok(rows)
}
