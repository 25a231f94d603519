//! Solutions of v·a = b.

ghost use Rattle.std.specs.Prelude.{◌≡◌, length, IfOk, MatchOption};
ghost use Rattle.ff_fields.specs.Over.{IsOver};
ghost use Rattle.ring_lemmas.specs.Lists.{neg_list};
ghost use Rattle.ff_fields.specs.Code.{raw_ring};
ghost use Rattle.ff_linalg.specs.Matrix.{HasShape, IsMatrixOver, with_first_row};
ghost use Rattle.ff_linalg.specs.Space.{IsSolution, HasNoSolution};

use crate::kernels::kernel;
use crate::matrix::Matrix;
use ff_fields::field::SmallField;
use std::alloc::{AllocError, Global};

/// The row b above the rows of a. More than `usize::MAX` rows are want of memory.
fn stacked(alloc: Global, b: &[u32], a: &Matrix) -> Result<Matrix, AllocError>
    requires { length b.now ≡ a.now.cols }
    ensures made { IfOk result (λ m. m ≡ with_first_row b.now a.now) }
    ensures shape { IfOk result (λ _. HasShape a.now (length a.now.rows) a.now.cols) }
{
    let rows = a.rows.checked_add(1).ok_or(AllocError)?;
    let mut entries = b.to_vec(alloc)?;
    entries.extend_from_slice(a.entries.as_slice())?;
    Ok(Matrix {
        rows,
        cols: a.cols,
        entries,
    })
}

/// The negative of each code.
pub(crate) fn negatives<K: SmallField>(
    alloc: Global,
    k: &K,
    codes: &[u32],
) -> Result<Vec<u32>, AllocError>
    requires { IsOver (K.field k.now).ops codes.now }
    ensures { IfOk result (λ v. v.items ≡ neg_list (raw_ring (K.field k.now).ops) codes.now) }
{
    let mut out = Vec::new(alloc);
    for c in codes {
        out.push(k.neg(*c))?;
    }
    Ok(out)
}

/// A v with v·a = b; None exactly where there is none. A matrix of `usize::MAX` rows, whose kernel with one row more
/// fits in no memory, is want of memory. Cost: that of a kernel with one row more.
pub fn solve<K: SmallField>(
    alloc: Global,
    k: &K,
    a: &Matrix,
    b: &[u32],
) -> Result<Option<Vec<u32>>, AllocError>
    requires a_in { IsMatrixOver (K.field k.now).ops a.now }
    requires b_in { IsOver (K.field k.now).ops b.now }
    requires width { length b.now ≡ a.now.cols }
    ensures { IfOk result (λ r. MatchOption r (HasNoSolution (K.field k.now).ops a.now b.now)
        (λ v. IsSolution (K.field k.now).ops a.now b.now v.items)) }
{
    let relations = kernel(alloc, k, &stacked(alloc, b, a)?)?;
    if relations.rows() == 0 {
        return Ok(None);
    }
    let first = relations.row(0);
    if first[0] != 1 {
        return Ok(None);
    }
    Ok(Some(negatives(alloc, k, &first[1..])?))
}
