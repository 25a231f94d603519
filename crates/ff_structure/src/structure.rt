//! Algebras that are given by the products of their basis elements.

ghost use Rattle.std.specs.Prelude.{◌≡◌, ◌<◌, ◌≤◌, ◌++◌, length, map, replicate, All, IfOk, OnOk};
ghost use Rattle.ff_fields.specs.Code.{raw_ring};
ghost use Rattle.ff_fields.specs.Over.{IsOver};
ghost use Rattle.ring_lemmas.specs.Lists.{add_lists};
ghost use Rattle.linear_theory.specs.Module.{combination};
ghost use Rattle.ff_linalg.specs.Space.{row_ops};
ghost use Rattle.ff_falg.specs.Algebras.{IsVector};
ghost use Rattle.ff_falg.specs.Idempotents.{elements_of};
ghost use Rattle.ff_structure.specs.Structures.{StructureValue, IsStructure, dimension, structure_algebra, entry_products};

use ff_falg::FiniteAlgebra;
use ff_fields::field::SmallField;
use ff_linalg::add_multiple;
use std::alloc::{AllocError, Global};
use std::marker::Model;

/// Structure constants: the coordinates of 1 in a basis, and those of the products of any two basis elements. An element
/// is the list of its coordinates.
#[derive(Debug, Drop)]
pub struct Structure {
    one: Vec<u32>,
    table: Vec<Vec<u32>>,
}

impl Model for Structure {
    ghost use Rattle.ff_falg.specs.Idempotents.{elements_of};
    ghost use Rattle.ff_structure.specs.Structures.{StructureValue};

    ghost Value = { StructureValue };

    ghost view = { λ s. record { one = s.one.items; table = elements_of s.table.items } };
}

impl Structure {
    /// The structure with these coordinates of 1 and of the products: those of the first basis element by each, then
    /// those of the second by each, and so on. No memory.
    pub fn new(one: Vec<u32>, table: Vec<Vec<u32>>) -> Structure
        ensures { result ≡ record { one = one.items; table = elements_of table.items } }
    {
        Structure { one, table }
    }

    /// The coordinates of 1.
    pub fn unit(&self) -> &[u32]
        ensures { result.now ≡ self.now.one }
    {
        self.one.as_slice()
    }

    /// The coordinates of 0.
    pub fn zero(&self, alloc: Global) -> Result<Vec<u32>, AllocError>
        ensures { IfOk result (λ v. v.items ≡ replicate (dimension self.now) 0) }
    {
        zeros(alloc, self.one.len())
    }
}

/// n zeros.
fn zeros(alloc: Global, n: usize) -> Result<Vec<u32>, AllocError>
    ensures { IfOk result (λ v. v.items ≡ replicate n 0) }
{
    vec![in alloc; 0; n]
}

/// Appends the products of c by the codes.
fn push_multiples<K: SmallField>(
    k: &K,
    out: &mut Vec<u32>,
    c: u32,
    codes: &[u32],
) -> Result<(), AllocError>
    requires c_in { c < (K.field k.now).size }
    requires codes_in { IsOver (K.field k.now).ops codes.now }
    ensures { OnOk result (out.new.items ≡ out.old.items ++ map ((K.field k.now).mul c) codes.now) }
{
    for x in codes {
        out.push(k.mul(c, *x))?;
    }
    Ok(())
}

/// The products of each code of a by each of b.
fn products<K: SmallField>(
    alloc: Global,
    k: &K,
    a: &[u32],
    b: &[u32],
) -> Result<Vec<u32>, AllocError>
    requires a_in { IsOver (K.field k.now).ops a.now }
    requires b_in { IsOver (K.field k.now).ops b.now }
    ensures { IfOk result (λ v. v.items ≡ entry_products (K.field k.now).ops a.now b.now) }
{
    let mut out = Vec::new(alloc);
    for x in a {
        push_multiples(k, &mut out, *x, b)?;
    }
    Ok(out)
}

/// Adds the combination of the vectors by the factors.
fn add_combination<K: SmallField>(k: &K, sum: &mut [u32], factors: &[u32], vectors: &[Vec<u32>])
    requires sum_in { IsOver (K.field k.now).ops sum.old }
    requires within { length factors.now ≤ length vectors.now }
    requires factors_in { IsOver (K.field k.now).ops factors.now }
    requires vectors_in { All (IsVector (K.field k.now).ops (length sum.old)) (elements_of vectors.now) }
    ensures { let k = (K.field k.now).ops in
        sum.new ≡ add_lists (raw_ring k) sum.old
        (combination (row_ops k (length sum.old)) factors.now (elements_of vectors.now)) }
{
    for i in 0..factors.len() {
        add_multiple(k, sum, factors[i], vectors[i].as_slice());
    }
}

/// The combination of the vectors of n codes by the factors.
fn combined<K: SmallField>(
    alloc: Global,
    k: &K,
    n: usize,
    factors: &[u32],
    vectors: &[Vec<u32>],
) -> Result<Vec<u32>, AllocError>
    requires within { length factors.now ≤ length vectors.now }
    requires factors_in { IsOver (K.field k.now).ops factors.now }
    requires vectors_in { All (IsVector (K.field k.now).ops n) (elements_of vectors.now) }
    ensures { let k = (K.field k.now).ops in
        IfOk result (λ v. v.items ≡ combination (row_ops k n) factors.now (elements_of vectors.now)) }
{
    let mut sum = zeros(alloc, n)?;
    add_combination(k, sum.as_mut_slice(), factors, vectors);
    Ok(sum)
}

impl<K: SmallField> FiniteAlgebra<K> for Structure {
    ghost algebra = { structure_algebra };

    ghost IsOver = { λ s k. IsStructure k s };

    ghost laws = { λ s k over. over.algebra };

    fn dim(&self) -> usize {
        self.one.len()
    }

    fn one(&self, alloc: Global) -> Result<Vec<u32>, AllocError> {
        let codes = Vec::from_slice(alloc, &self.one)?;
        Ok(codes)
    }

    fn mul(&self, alloc: Global, k: &K, a: &[u32], b: &[u32]) -> Result<Vec<u32>, AllocError> {
        let factors = products(alloc, k, a, b)?;
        combined(alloc, k, self.one.len(), factors.as_slice(), &self.table)
    }
}
