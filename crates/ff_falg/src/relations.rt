//! The powers of an element, times another, and their first relation.

ghost use Rattle.std.specs.Prelude.{◌≡◌, ◌<◌, length, IfOk};
ghost use Rattle.ff_linalg.specs.Matrix.{matrix_row};
ghost use Rattle.ff_falg.specs.Algebras.{IsVector, power};
ghost use Rattle.ff_falg.specs.Relations.{IsBounded, IsFirstRow, IsPowers, IsPowersBelow, IsRelation};

use crate::algebra::FiniteAlgebra;
use crate::rows::set_row;
use ff_fields::field::SmallField;
use ff_linalg::{Matrix, min_relation};
use std::alloc::{AllocError, Global};

/// The elements e, x·e, x·x·e, .. as rows, as far as there is a relation among them, and the coefficients of the first
/// row that is a combination of the rows before it.
#[derive(Drop)]
pub struct Relation {
    pub powers: Matrix,
    pub coefficients: Vec<u32>,
}

impl Relation {
    /// An equal relation, in memory of its own.
    pub fn copy(&self, alloc: Global) -> Result<Relation, AllocError>
        ensures powers { IfOk result (λ c. c.powers ≡ self.now.powers) }
        ensures coefficients { IfOk result (λ c. c.coefficients.items ≡ self.now.coefficients.items) }
    {
        let powers = self.powers.copy(alloc)?;
        let coefficients = self.coefficients.as_slice().to_vec(alloc)?;
        Ok(Relation {
            powers,
            coefficients,
        })
    }
}

/// The row with e alone.
fn first_power(alloc: Global, e: &[u32]) -> Result<Matrix, AllocError>
    ensures { IfOk result (IsFirstRow e.now) }
{
    let mut powers = Matrix::zero(alloc, 1, e.len())?;
    set_row(&mut powers, 0, e);
    Ok(powers)
}

/// Power number l, which is known or x times the one before.
fn next_power<K: SmallField, A: FiniteAlgebra<K>>(
    alloc: Global,
    k: &K,
    a: &A,
    x: &[u32],
    known: &Matrix,
    powers: &Matrix,
    l: usize,
) -> Result<Vec<u32>, AllocError>
    requires over { A.IsOver a.now (K.field k.now) }
    requires x_in { IsVector (K.field k.now).ops (A.algebra a.now).size x.now }
    requires known { IsPowers (K.field k.now).ops (A.algebra a.now) x.now (matrix_row known.now 0) known.now }
    requires some { 0 < length known.now.rows }
    requires within { l < length powers.now.rows }
    requires before { IsPowersBelow (K.field k.now).ops (A.algebra a.now) x.now (matrix_row known.now 0) l powers.now }
    ensures { let A = A.algebra a.now in
        IfOk result (λ v. v.items ≡ A.product (K.field k.now).ops (power (K.field k.now).ops A x.now l)
        (matrix_row known.now 0)) }
{
    if l < known.rows() {
        return known.row(l).to_vec(alloc);
    }
    a.mul(alloc, k, x, powers.row(l - 1))
}

/// As many powers as said, of which the first are known.
fn more_powers<K: SmallField, A: FiniteAlgebra<K>>(
    alloc: Global,
    k: &K,
    a: &A,
    x: &[u32],
    known: &Matrix,
    count: usize,
) -> Result<Matrix, AllocError>
    requires over { A.IsOver a.now (K.field k.now) }
    requires x_in { IsVector (K.field k.now).ops (A.algebra a.now).size x.now }
    requires known { IsPowers (K.field k.now).ops (A.algebra a.now) x.now (matrix_row known.now 0) known.now }
    requires some { 0 < length known.now.rows }
    ensures count { IfOk result (λ m. length m.rows ≡ count) }
    ensures powers { IfOk result (IsPowers (K.field k.now).ops (A.algebra a.now) x.now (matrix_row known.now 0)) }
{
    let mut powers = Matrix::zero(alloc, count, a.dim())?;
    for l in 0..count {
        let row = next_power(alloc, k, a, x, known, &powers, l)?;
        set_row(&mut powers, l, row.as_slice());
    }
    Ok(powers)
}

/// The first relation among e, x·e, x·x·e, .., of which at most `bound` are independent. The number of rows is doubled
/// until there is one; from half of the bound on all are taken at once. More than `usize::MAX` rows, which only a bound
/// of `usize::MAX` asks for, are want of memory. Cost: one elimination for each number of rows, 1, 2, 4, .. and bound +
/// 1.
pub fn first_relation<K: SmallField, A: FiniteAlgebra<K>>(
    alloc: Global,
    k: &K,
    a: &A,
    x: &[u32],
    e: &[u32],
    bound: usize,
) -> Result<Relation, AllocError>
    requires over { A.IsOver a.now (K.field k.now) }
    requires x_in { IsVector (K.field k.now).ops (A.algebra a.now).size x.now }
    requires e_in { IsVector (K.field k.now).ops (A.algebra a.now).size e.now }
    requires some { 0 < bound }
    requires bounded { IsBounded (K.field k.now).ops (A.algebra a.now) x.now e.now bound }
    ensures { IfOk result (λ r. IsRelation (K.field k.now).ops (A.algebra a.now) x.now e.now r.powers
        r.coefficients.items) }
{
    let mut powers = first_power(alloc, e)?;
    'grow: loop {
        let known = powers.rows();
        let rest = bound - known;
        let more = if known < rest { known } else { rest + 1 };
        let count = known.checked_add(more).ok_or(AllocError)?;
        powers = more_powers(alloc, k, a, x, &powers, count)?;
        if let Some(coefficients) = min_relation(alloc, k, &powers)? {
            return Ok(Relation {
                powers,
                coefficients,
            });
        }
    }
}
