//! The lattices of the primes of idempotents.

ghost use Rattle.std.specs.Prelude.{◌≡◌, ◌↔◌, [], ◌∷◌, IfOk};
ghost use Rattle.function_field.specs.Values.{Functions};
ghost use Rattle.ff_falg.specs.Algebras.{IsVector};
ghost use Rattle.ff_lattice.specs.Lattices.{IsLatticeValue, Contains, InSpanOf, IsSumOfMembers};
ghost use Rattle.ff_lattice.specs.Quotients.{IsQuotientOver, class_algebra, dimension, lifted};
ghost use Rattle.ff_places.specs.Steps.{IsIdealAbove, IsInComponent, rest_of};

use ff_falg::FiniteAlgebra;
use ff_fields::field::SmallField;
use ff_lattice::operations::{push_rows, spanned};
use ff_lattice::{Lattice, Quotient, product};
use std::alloc::{AllocError, Global};

/// The codes of 1 less those of an element.
fn rest<K: SmallField, A: FiniteAlgebra<K>>(
    alloc: Global,
    k: &K,
    a: &A,
    e: &[u32],
) -> Result<Vec<u32>, AllocError>
    requires over { A.IsOver a.now (K.field k.now) }
    requires e_in { IsVector (K.field k.now).ops (A.algebra a.now).size e.now }
    ensures { IfOk result (λ v. v.items ≡ rest_of (K.field k.now).ops (A.algebra a.now) e.now) }
{
    let mut codes = a.one(alloc)?;
    k.add_multiple(codes.as_mut_slice(), k.neg(1), e);
    Ok(codes)
}

/// The lattice that an ideal above that of the quotient spans with a lift of 1 less an element.
fn with_rest<K: SmallField>(
    alloc: Global,
    k: &K,
    q: &Quotient,
    ideal: &Lattice,
    e: &[u32],
) -> Result<Lattice, AllocError>
    requires over { IsQuotientOver (K.field k.now) q.now }
    requires ideal { IsIdealAbove (K.field k.now) q.now ideal.now }
    requires e_in { IsVector (K.field k.now).ops (dimension q.now) e.now }
    ensures form { IfOk result (IsLatticeValue (K.field k.now).ops q.now.p.n) }
    ensures members { let k = K.field k.now in
        let r = lifted k.ops q.now (rest_of k.ops (class_algebra q.now) e.now) in
        IfOk result (λ l. (z : Functions k q.now.p) → Contains k q.now.p l z
        ↔ IsSumOfMembers k q.now.p (Contains k q.now.p ideal.now) (InSpanOf k q.now.p (r ∷ [])) z) }
{
    let degree = q.p().n();
    prove!(degree > 0);
    let codes = rest(alloc, k, q, e)?;
    let mut gens = Vec::new(alloc);
    push_rows(alloc, &mut gens, ideal)?;
    gens.push(q.lift(alloc, k, codes.as_slice())?)?;
    spanned(alloc, k, q.p(), &gens)
}

/// The sums of a member of an ideal above that of the quotient, and a multiple of 1 less a lifted element by a member
/// of the order. It takes the time of a product of lattices.
pub fn component<K: SmallField>(
    alloc: Global,
    k: &K,
    q: &Quotient,
    ideal: &Lattice,
    e: &[u32],
) -> Result<Lattice, AllocError>
    requires over { IsQuotientOver (K.field k.now) q.now }
    requires ideal { IsIdealAbove (K.field k.now) q.now ideal.now }
    requires e_in { IsVector (K.field k.now).ops (dimension q.now) e.now }
    ensures form { IfOk result (IsLatticeValue (K.field k.now).ops q.now.p.n) }
    ensures members { let k = K.field k.now in
        IfOk result (λ l. (z : Functions k q.now.p)
        → Contains k q.now.p l z ↔ IsInComponent k q.now ideal.now e.now z) }
{
    let degree = q.p().n();
    prove!(degree > 0);
    let l = with_rest(alloc, k, q, ideal, e)?;
    product(alloc, k, q.p(), &l, q.order().lattice())
}
