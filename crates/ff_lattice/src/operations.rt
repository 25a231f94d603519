//! Sums, products and multiples of lattices.

ghost use Rattle.std.specs.Prelude.{◌≡◌, ◌↔◌, ℕ, ◌++◌, map, take, All, IfOk, OnOk, OnErr};
ghost use Rattle.ring_theory.specs.Subsets.{Product};
ghost use Rattle.function_field.specs.Values.{IsPresOver, IsElem, Functions, functions, function_of};
ghost use Rattle.ff_lattice.specs.Lattices.{IsLatticeValue, Contains, InSpanOf, IsFullLattice, IsSumOfMembers, row_elems};

use crate::generators::LatticeFault;
use crate::lattice::Lattice;
use ff_algebra::elem::mul;
use ff_algebra::{Elem, Pres};
use ff_fields::field::SmallField;
use std::alloc::{AllocError, Global};

/// The lattice of all combinations of generators of full rank. It takes the time of `Lattice::from_generators`.
pub fn spanned<K: SmallField>(
    alloc: Global,
    k: &K,
    p: &Pres,
    gens: &[Elem],
) -> Result<Lattice, AllocError>
    requires gens_in { All (IsElem (K.field k.now).ops p.now.n) gens.now }
    requires full { IsFullLattice (K.field k.now) p.now (InSpanOf (K.field k.now) p.now gens.now) }
    ensures form { IfOk result (IsLatticeValue (K.field k.now).ops p.now.n) }
    ensures members { let k = K.field k.now in
        IfOk result (λ l. (z : Functions k p.now) → Contains k p.now l z ↔ InSpanOf k p.now gens.now z) }
{
    match Lattice::from_generators(alloc, k, p, gens) {
        Ok(lattice) => Ok(lattice),
        Err(LatticeFault::Memory) => Err(AllocError),
        Err(LatticeFault::NotFull) => unreachable!(),
    }
}

/// Appends the rows of the lattice, as elements. Where memory runs out, the first ones are appended.
pub fn push_rows(alloc: Global, gens: &mut Vec<Elem>, a: &Lattice) -> Result<(), AllocError>
    ensures all { OnOk result (gens.new.items ≡ gens.old.items ++ row_elems a.now) }
    ensures first_ones { OnErr result ((m : ℕ) × (gens.new.items ≡ gens.old.items ++ take m (row_elems a.now))) }
{
    for i in 0..a.len() {
        gens.push(a.row(alloc, i)?)?;
    }
    Ok(())
}

/// The sums of a member of the one lattice and a member of the other.
pub fn sum<K: SmallField>(
    alloc: Global,
    k: &K,
    p: &Pres,
    a: &Lattice,
    b: &Lattice,
) -> Result<Lattice, AllocError>
    requires a_form { IsLatticeValue (K.field k.now).ops p.now.n a.now }
    requires b_form { IsLatticeValue (K.field k.now).ops p.now.n b.now }
    ensures form { IfOk result (IsLatticeValue (K.field k.now).ops p.now.n) }
    ensures members { let k = K.field k.now in
        IfOk result (λ l. (z : Functions k p.now)
        → Contains k p.now l z ↔ IsSumOfMembers k p.now (Contains k p.now a.now) (Contains k p.now b.now) z) }
{
    let mut gens = Vec::with_capacity(alloc, 2 * p.n())?;
    push_rows(alloc, &mut gens, a)?;
    push_rows(alloc, &mut gens, b)?;
    spanned(alloc, k, p, &gens)
}

/// Appends the products of z and the rows of the lattice.
pub(crate) fn push_products<K: SmallField>(
    alloc: Global,
    k: &K,
    p: &Pres,
    gens: &mut Vec<Elem>,
    z: &Elem,
    b: &Lattice,
) -> Result<(), AllocError>
    requires p_in { IsPresOver (K.field k.now).ops p.now }
    requires gens_in { All (IsElem (K.field k.now).ops p.now.n) gens.old.items }
    requires z_in { IsElem (K.field k.now).ops p.now.n z.now }
    requires b_form { IsLatticeValue (K.field k.now).ops p.now.n b.now }
    ensures in_range { OnOk result (All (IsElem (K.field k.now).ops p.now.n) gens.new.items) }
    ensures products { let k = K.field k.now in
        let f = function_of k p.now in
        OnOk result (map f gens.new.items
        ≡ map f gens.old.items ++ map ((functions k p.now).◌⊗◌ (f z.now)) (map f (row_elems b.now))) }
{
    for j in 0..b.len() {
        let row = b.row(alloc, j)?;
        gens.push(mul(alloc, k, p, z, &row)?)?;
    }
    Ok(())
}

/// The finite sums of products of a member of the one lattice and a member of the other.
pub fn product<K: SmallField>(
    alloc: Global,
    k: &K,
    p: &Pres,
    a: &Lattice,
    b: &Lattice,
) -> Result<Lattice, AllocError>
    requires p_in { IsPresOver (K.field k.now).ops p.now }
    requires a_form { IsLatticeValue (K.field k.now).ops p.now.n a.now }
    requires b_form { IsLatticeValue (K.field k.now).ops p.now.n b.now }
    ensures form { IfOk result (IsLatticeValue (K.field k.now).ops p.now.n) }
    ensures members { let k = K.field k.now in
        IfOk result (λ l. (z : Functions k p.now)
        → Contains k p.now l z ↔ Product (functions k p.now).ops (Contains k p.now a.now) (Contains k p.now b.now)
        z) }
{
    let mut gens = Vec::with_capacity(alloc, p.n() * p.n())?;
    for i in 0..a.len() {
        let row = a.row(alloc, i)?;
        push_products(alloc, k, p, &mut gens, &row, b)?;
    }
    spanned(alloc, k, p, &gens)
}
