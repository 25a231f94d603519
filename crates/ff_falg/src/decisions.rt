//! Whether an algebra is a field.

ghost use Rattle.std.specs.Prelude.{◌↔◌, IsTrue, IfOk};
ghost use Rattle.ff_falg.specs.Algebras.{IsFieldAlgebra, IsFixedVector};
ghost use Rattle.ff_falg.specs.Spaces.{IsEchelonBasisMatrix, IsFrobenius};

use crate::algebra::FiniteAlgebra;
use crate::powers::frobenius;
use crate::spaces::fixed_by;
use ff_fields::field::SmallField;
use ff_linalg::{Matrix, kernel};
use std::alloc::{AllocError, Global};

/// Whether the algebra is a field: the map a to a^q has kernel 0, and fixes a space of dimension 1. False at dimension
/// 0.
/// Cost: that of `frobenius` and of two kernels.
pub fn is_field<K: SmallField, A: FiniteAlgebra<K>>(
    alloc: Global,
    k: &K,
    a: &A,
) -> Result<bool, AllocError>
    requires { A.IsOver a.now (K.field k.now) }
    ensures { IfOk result (λ t. IsTrue t ↔ IsFieldAlgebra (K.field k.now).ops (A.algebra a.now)) }
{
    let map = frobenius(alloc, k, a)?;
    let basis = fixed_by(alloc, k, a, &map)?;
    is_field_by(alloc, k, a, &map, &basis)
}

/// The same, where the matrix of the map a to a^q and a basis of the elements that it fixes are known.
/// Cost: a kernel, where these have dimension 1, and else nothing.
pub fn is_field_by<K: SmallField, A: FiniteAlgebra<K>>(
    alloc: Global,
    k: &K,
    a: &A,
    map: &Matrix,
    basis: &Matrix,
) -> Result<bool, AllocError>
    requires over { A.IsOver a.now (K.field k.now) }
    requires map { IsFrobenius (K.field k.now).ops (A.algebra a.now) map.now }
    requires basis { let n = (A.algebra a.now).size in
        IsEchelonBasisMatrix (K.field k.now).ops n (IsFixedVector (K.field k.now).ops (A.algebra a.now)) basis.now }
    ensures { IfOk result (λ t. IsTrue t ↔ IsFieldAlgebra (K.field k.now).ops (A.algebra a.now)) }
{
    if basis.rows() != 1 {
        return Ok(false);
    }
    Ok(kernel(alloc, k, map)?.rows() == 0)
}
