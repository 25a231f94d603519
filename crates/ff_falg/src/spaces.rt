//! The nilpotent elements, and those that are their own q-th powers, where q is the size of the field.

ghost use Rattle.std.specs.Prelude.{◌<◌, IfOk};
ghost use Rattle.ff_linalg.specs.Matrix.{IsMatrixOver, HasShape};
ghost use Rattle.ff_falg.specs.Algebras.{IsNilpotentVector, IsFixedVector};
ghost use Rattle.ff_falg.specs.Spaces.{IsEchelonBasisMatrix, IsFrobenius};
ghost use Rattle.ff_falg.specs.Steps.{IsIterate, IsLessUnit};

use crate::algebra::FiniteAlgebra;
use crate::powers::frobenius;
use crate::rows::composed;
use ff_fields::field::SmallField;
use ff_linalg::{Matrix, kernel};
use std::alloc::{AllocError, Global};

/// The matrix of an iterate of the map a to a^q, where q to the number of times is at least the dimension: each matrix
/// is the square of the one before.
fn high_iterate<K: SmallField, A: FiniteAlgebra<K>>(
    alloc: Global,
    k: &K,
    a: &A,
    map: &Matrix,
) -> Result<Matrix, AllocError>
    requires over { A.IsOver a.now (K.field k.now) }
    requires map { IsFrobenius (K.field k.now).ops (A.algebra a.now) map.now }
    ensures { IfOk result (IsIterate (K.field k.now).ops (A.algebra a.now) (A.algebra a.now).size) }
{
    let mut iterate = map.copy(alloc)?;
    let mut reach = k.size() as usize;
    while reach < a.dim() {
        iterate = composed(alloc, k, &iterate, &iterate)?;
        reach = reach.saturating_mul(reach);
    }
    Ok(iterate)
}

/// Takes the unit matrix from a square one.
fn take_unit<K: SmallField>(k: &K, m: &mut Matrix)
    requires over { IsMatrixOver (K.field k.now).ops m.old }
    requires shape { HasShape m.old m.old.cols m.old.cols }
    ensures { IsLessUnit (K.field k.now).ops m.old m.old.cols m.new }
{
    for i in 0..m.cols() {
        let less = k.sub(m.get(i, i), 1);
        m.set(i, i, less);
    }
}

/// The reduced echelon basis, as rows, of the elements of which some power is 0.
/// Cost: that of `frobenius` and of `nilpotents_by`.
pub fn nilpotents<K: SmallField, A: FiniteAlgebra<K>>(
    alloc: Global,
    k: &K,
    a: &A,
) -> Result<Matrix, AllocError>
    requires { A.IsOver a.now (K.field k.now) }
    ensures { let n = (A.algebra a.now).size in
        IfOk result (IsEchelonBasisMatrix (K.field k.now).ops n
        (IsNilpotentVector (K.field k.now).ops (A.algebra a.now))) }
{
    let map = frobenius(alloc, k, a)?;
    nilpotents_by(alloc, k, a, &map)
}

/// The same, where the matrix of the map a to a^q is known.
/// Cost: a product of matrices for each doubling of the number of times until q to this number is at least the
/// dimension, and a kernel.
pub fn nilpotents_by<K: SmallField, A: FiniteAlgebra<K>>(
    alloc: Global,
    k: &K,
    a: &A,
    map: &Matrix,
) -> Result<Matrix, AllocError>
    requires over { A.IsOver a.now (K.field k.now) }
    requires map { IsFrobenius (K.field k.now).ops (A.algebra a.now) map.now }
    ensures { let n = (A.algebra a.now).size in
        IfOk result (IsEchelonBasisMatrix (K.field k.now).ops n
        (IsNilpotentVector (K.field k.now).ops (A.algebra a.now))) }
{
    let iterate = high_iterate(alloc, k, a, map)?;
    kernel(alloc, k, &iterate)
}

/// The reduced echelon basis, as rows, of the elements that are their own q-th powers.
/// Cost: that of `frobenius` and of a kernel.
pub fn fixed<K: SmallField, A: FiniteAlgebra<K>>(
    alloc: Global,
    k: &K,
    a: &A,
) -> Result<Matrix, AllocError>
    requires { A.IsOver a.now (K.field k.now) }
    ensures { let n = (A.algebra a.now).size in
        IfOk result (IsEchelonBasisMatrix (K.field k.now).ops n (IsFixedVector (K.field k.now).ops (A.algebra a.now))) }
{
    let map = frobenius(alloc, k, a)?;
    fixed_by(alloc, k, a, &map)
}

/// The same, where the matrix of the map a to a^q is known.
/// Cost: a kernel.
pub fn fixed_by<K: SmallField, A: FiniteAlgebra<K>>(
    alloc: Global,
    k: &K,
    a: &A,
    map: &Matrix,
) -> Result<Matrix, AllocError>
    requires over { A.IsOver a.now (K.field k.now) }
    requires map { IsFrobenius (K.field k.now).ops (A.algebra a.now) map.now }
    ensures { let n = (A.algebra a.now).size in
        IfOk result (IsEchelonBasisMatrix (K.field k.now).ops n (IsFixedVector (K.field k.now).ops (A.algebra a.now))) }
{
    let mut less = map.copy(alloc)?;
    take_unit(k, &mut less);
    kernel(alloc, k, &less)
}
