//! Rows of codes and matrices of them.

ghost use Rattle.std.specs.Prelude.{◌≡◌, ◌<◌, ◌≤◌, length, replicate, IfOk};
ghost use Rattle.ff_fields.specs.Code.{raw_ring};
ghost use Rattle.ff_fields.specs.Over.{IsOver};
ghost use Rattle.ring_lemmas.specs.Lists.{add_lists, scale_list};
ghost use Rattle.ff_linalg.specs.Matrix.{IsMatrixOver, HasShape};
ghost use Rattle.ff_linalg.specs.Space.{row_product};
ghost use Rattle.ff_linalg.specs.Steps.{unit_row};
ghost use Rattle.ff_falg.specs.Algebras.{IsVector};
ghost use Rattle.ff_falg.specs.Steps.{with_matrix_row, IsProductBelow};

use ff_fields::field::SmallField;
use ff_linalg::{Matrix, add_multiple};
use std::alloc::{AllocError, Global};

/// Multiplies each code by c.
pub(crate) fn scale_all<K: SmallField>(k: &K, codes: &mut [u32], c: u32)
    requires codes_in { IsOver (K.field k.now).ops codes.old }
    requires c_in { c < (K.field k.now).size }
    ensures { codes.new ≡ scale_list (raw_ring (K.field k.now).ops) c codes.old }
{
    for j in 0..codes.len() {
        codes[j] = k.mul(c, codes[j]);
    }
}

/// n zeros.
pub(crate) fn zeros(alloc: Global, n: usize) -> Result<Vec<u32>, AllocError>
    ensures { IfOk result (λ v. v.items ≡ replicate n 0) }
{
    vec![in alloc; 0; n]
}

/// n codes of which the one at position i is 1 and the others are 0.
pub(crate) fn unit(alloc: Global, n: usize, i: usize) -> Result<Vec<u32>, AllocError>
    requires { i < n }
    ensures { IfOk result (λ v. v.items ≡ unit_row n i) }
{
    let mut row = zeros(alloc, n)?;
    row[i] = 1;
    Ok(row)
}

/// Writes the codes into row i.
pub(crate) fn set_row(m: &mut Matrix, i: usize, row: &[u32])
    requires row_in { i < length m.old.rows }
    requires width { length row.now ≡ m.old.cols }
    requires shape { HasShape m.old (length m.old.rows) m.old.cols }
    ensures { m.new ≡ with_matrix_row m.old i row.now }
{
    for j in 0..row.len() {
        m.set(i, j, row[j]);
    }
}

/// Adds v·m, the sum of v_i times row i over as many rows as v has codes.
fn add_product<K: SmallField>(k: &K, sum: &mut [u32], v: &[u32], m: &Matrix)
    requires within { length v.now ≤ length m.now.rows }
    requires v_in { IsOver (K.field k.now).ops v.now }
    requires m_in { IsMatrixOver (K.field k.now).ops m.now }
    requires shape { HasShape m.now (length m.now.rows) m.now.cols }
    requires sum_in { IsVector (K.field k.now).ops m.now.cols sum.old }
    ensures { sum.new ≡ add_lists (raw_ring (K.field k.now).ops) sum.old (row_product (K.field k.now).ops v.now m.now) }
{
    for i in 0..v.len() {
        add_multiple(k, sum, v[i], m.row(i));
    }
}

/// v·m, the sum of v_i times row i over as many rows as v has codes.
/// Cost: a product and a sum for each entry of these rows.
pub(crate) fn row_times<K: SmallField>(
    alloc: Global,
    k: &K,
    v: &[u32],
    m: &Matrix,
) -> Result<Vec<u32>, AllocError>
    requires within { length v.now ≤ length m.now.rows }
    requires v_in { IsOver (K.field k.now).ops v.now }
    requires m_in { IsMatrixOver (K.field k.now).ops m.now }
    requires shape { HasShape m.now (length m.now.rows) m.now.cols }
    ensures { IfOk result (λ w. w.items ≡ row_product (K.field k.now).ops v.now m.now) }
{
    let mut sum = zeros(alloc, m.cols())?;
    add_product(k, sum.as_mut_slice(), v, m);
    Ok(sum)
}

/// The product of two square matrices.
pub(crate) fn composed<K: SmallField>(
    alloc: Global,
    k: &K,
    a: &Matrix,
    b: &Matrix,
) -> Result<Matrix, AllocError>
    requires a_in { IsMatrixOver (K.field k.now).ops a.now }
    requires b_in { IsMatrixOver (K.field k.now).ops b.now }
    requires a_shape { HasShape a.now (length b.now.rows) (length b.now.rows) }
    requires b_shape { HasShape b.now (length b.now.rows) b.now.cols }
    ensures { IfOk result (IsProductBelow (K.field k.now).ops a.now b.now (length a.now.rows)) }
{
    let mut product = Matrix::zero(alloc, a.rows(), b.cols())?;
    for i in 0..a.rows() {
        let row = row_times(alloc, k, a.row(i), b)?;
        set_row(&mut product, i, row.as_slice());
    }
    Ok(product)
}
