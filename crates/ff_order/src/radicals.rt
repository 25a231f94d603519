//! The radical of an order at an irreducible polynomial.

ghost use Rattle.std.specs.Prelude.{◌≢◌, ◌↔◌, ℕ, List, [], All, IfOk};
ghost use Rattle.ff_fields.specs.Over.{IsOver};
ghost use Rattle.ff_poly.specs.Words.{IsIrreducibleList};
ghost use Rattle.ff_poly.specs.Value.{value};
ghost use Rattle.function_field.specs.Functions.{of_poly};
ghost use Rattle.function_field.specs.Values.{IsPresOver, Functions, functions, equation_of};
ghost use Rattle.ff_falg.specs.Algebras.{IsVector};
ghost use Rattle.ff_falg.specs.Spaces.{IsFrobenius};
ghost use Rattle.ff_lattice.specs.Lattices.{IsLatticeValue, Contains};
ghost use Rattle.ff_lattice.specs.Orders.{IsOrderLattice};
ghost use Rattle.ff_lattice.specs.Quotients.{IsQuotient, IsQuotientOver, IsIdealLattice, class_algebra, dimension};
ghost use Rattle.prime_theory.specs.Ideals.{Multiple, SameSet};
ghost use Rattle.prime_theory.specs.Orders.{Radical};
ghost use Rattle.ff_order.specs.Steps.{AreLifts, IsNilpotentBasis};

use ff_algebra::{Elem, Pres};
use ff_falg::{frobenius, nilpotents_by};
use ff_fields::field::SmallField;
use ff_lattice::multiples::scale;
use ff_lattice::operations::{push_rows, spanned};
use ff_lattice::{Lattice, Order, Quotient};
use ff_linalg::Matrix;
use ff_poly::Poly;
use std::alloc::{AllocError, Global};

/// The multiples of the members of the order by a polynomial other than 0. It takes the time of `scale`.
pub fn multiples<K: SmallField>(
    alloc: Global,
    k: &K,
    p: &Pres,
    o: &Order,
    a: &Poly,
) -> Result<Lattice, AllocError>
    requires order { IsOrderLattice (K.field k.now) p.now o.now }
    requires a_in { IsOver (K.field k.now).ops a.now }
    requires some { a.now ≢ [] }
    ensures ideal { IfOk result (IsIdealLattice (K.field k.now) p.now o.now) }
    ensures members { let k = K.field k.now in
        IfOk result (λ l. (z : Functions k p.now) →
        Contains k p.now l z ↔ Multiple (functions k p.now).ops (of_poly (equation_of k p.now) (value k a.now))
        (Contains k p.now o.now) z) }
{
    let degree = p.n();
    prove!(degree > 0);
    let one = Poly::one(alloc)?;
    scale(alloc, k, o.lattice(), a, &one)
}

/// What the rows of codes are lifted to.
fn lift_rows<K: SmallField>(
    alloc: Global,
    k: &K,
    q: &Quotient,
    m: &Matrix,
) -> Result<Vec<Elem>, AllocError>
    requires over { IsQuotient (K.field k.now) q.now }
    requires rows_in { All (IsVector (K.field k.now).ops (dimension q.now)) m.now.rows }
    ensures { IfOk result (λ zs. AreLifts (K.field k.now) q.now m.now.rows zs.items) }
{
    let mut lifts = Vec::new(alloc);
    for r in 0..m.rows() {
        lifts.push(q.lift(alloc, k, m.row(r))?)?;
    }
    Ok(lifts)
}

/// Lifts of a basis of the nilpotent classes, by the matrix of the map a to a^q.
fn nilpotent_lifts<K: SmallField>(
    alloc: Global,
    k: &K,
    q: &Quotient,
    map: &Matrix,
) -> Result<Vec<Elem>, AllocError>
    requires over { IsQuotientOver (K.field k.now) q.now }
    requires map { IsFrobenius (K.field k.now).ops (class_algebra q.now) map.now }
    ensures { let k = K.field k.now in IfOk result (λ zs. IsNilpotentBasis k q.now.p q.now.order q.now.ideal zs.items) }
{
    let basis = nilpotents_by(alloc, k, q, map)?;
    lift_rows(alloc, k, q, &basis)
}

/// The radical of the order at the polynomial whose multiples are the ideal of the quotient: the members of which a
/// power is such a multiple. The matrix is that of the map a to a^q. It takes the time of `nilpotents_by`, and of a
/// Popov basis of so many rows.
pub fn radical_by<K: SmallField>(
    alloc: Global,
    k: &K,
    q: &Quotient,
    map: &Matrix,
) -> Result<Lattice, AllocError>
    requires over { IsQuotientOver (K.field k.now) q.now }
    requires map { IsFrobenius (K.field k.now).ops (class_algebra q.now) map.now }
    ensures form { IfOk result (IsLatticeValue (K.field k.now).ops q.now.p.n) }
    ensures members { let k = K.field k.now in
        let F = functions k q.now.p in
        let o = Contains k q.now.p q.now.order in
        IfOk result (λ l. (a : List ℕ) → let x = of_poly (equation_of k q.now.p) (value k a) in
        SameSet (Contains k q.now.p q.now.ideal) (Multiple F.ops x o) →
        (z : Functions k q.now.p) → Contains k q.now.p l z ↔ Radical F.ops o x z) }
{
    let degree = q.p().n();
    prove!(degree > 0);
    let mut gens = nilpotent_lifts(alloc, k, q, map)?;
    push_rows(alloc, &mut gens, q.ideal())?;
    spanned(alloc, k, q.p(), &gens)
}

/// The radical of the order at an irreducible monic polynomial: the members of which a power is a multiple of the
/// polynomial by a member. It takes the time of the nilpotent elements of the order modulo the polynomial, an algebra
/// of n times its degree dimensions, and of a Popov basis of so many rows.
pub fn radical<K: SmallField>(
    alloc: Global,
    k: &K,
    p: &Pres,
    o: &Order,
    pi: &Poly,
) -> Result<Lattice, AllocError>
    requires p_in { IsPresOver (K.field k.now).ops p.now }
    requires order { IsOrderLattice (K.field k.now) p.now o.now }
    requires pi_in { IsOver (K.field k.now).ops pi.now }
    requires irreducible { IsIrreducibleList (K.field k.now).ops pi.now }
    ensures form { IfOk result (IsLatticeValue (K.field k.now).ops p.now.n) }
    ensures ideal { IfOk result (IsIdealLattice (K.field k.now) p.now o.now) }
    ensures members { let k = K.field k.now in
        IfOk result (λ l. (z : Functions k p.now) →
        Contains k p.now l z ↔ Radical (functions k p.now).ops (Contains k p.now o.now)
        (of_poly (equation_of k p.now) (value k pi.now)) z) }
{
    let degree = p.n();
    prove!(degree > 0);
    let ideal = multiples(alloc, k, p, o, pi)?;
    let q = Quotient::new(alloc, k, p, o, &ideal)?;
    let map = frobenius(alloc, k, &q)?;
    radical_by(alloc, k, &q, &map)
}
