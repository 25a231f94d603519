//! k[x][y] of a curve, its radicals and their multipliers, and its enlargements.

ghost use Rattle.std.specs.Prelude.{◌≡◌, All, IfOk};
ghost use Rattle.ff_fields.specs.Over.{IsOver};
ghost use Rattle.ff_poly.specs.Polynomials.{polynomials};
ghost use Rattle.ff_poly.specs.Words.{IsIrreducibleList};
ghost use Rattle.function_field.specs.Discriminant.{discriminant};
ghost use Rattle.function_field.specs.Values.{IsPresOver, equation_of};
ghost use Rattle.function_field.specs.Curves.{IsCurve};
ghost use Rattle.ff_lattice.specs.Orders.{IsOrderLattice};

use crate::lattices::lattice_text;
use case_values::read::{BAD, polynomial};
use ff_algebra::{Curve, Pres};
use ff_factor::is_irreducible;
use ff_fields::field::SmallField;
use ff_lattice::Order;
use ff_order::{equation_order, maximal, multiplier, p_maximal, radical};
use ff_poly::Poly;
use std::alloc::{AllocError, Global};

/// The irreducible polynomial of the text.
pub fn prime<K: SmallField>(alloc: Global, k: &K, text: &str) -> Result<Poly, AllocError>
    ensures over { IfOk result (IsOver (K.field k.now).ops) }
    ensures irreducible { IfOk result (IsIrreducibleList (K.field k.now).ops) }
{
    let g = polynomial(alloc, k, text)?;
    if !is_irreducible(alloc, k, &g)? {
        return Err(BAD);
    }
    Ok(g)
}

// The irreducible polynomials between semicolons; none where the text is blank.
fn primes<K: SmallField>(alloc: Global, k: &K, text: &str) -> Result<Vec<Poly>, AllocError>
    ensures over { IfOk result (λ v. All (IsOver (K.field k.now).ops) v.items) }
    ensures irreducible { IfOk result (λ v. All (IsIrreducibleList (K.field k.now).ops) v.items) }
{
    let mut found = Vec::new(alloc);
    if text.trim().is_empty() {
        return Ok(found);
    }
    for part in text.split(';') {
        let g = prime(alloc, k, part)?;
        found.push(g)?;
    }
    Ok(found)
}

// The radical of the order at the polynomial, or its multipliers.
fn radical_text<K: SmallField>(
    alloc: Global,
    k: &K,
    p: &Pres,
    o: &Order,
    pi: &Poly,
    word: &str,
) -> Result<String, AllocError>
    requires p_in { IsPresOver (K.field k.now).ops p.now }
    requires order { IsOrderLattice (K.field k.now) p.now o.now }
    requires pi_in { IsOver (K.field k.now).ops pi.now }
    requires irreducible { IsIrreducibleList (K.field k.now).ops pi.now }
{
    let r = radical(alloc, k, p, o, pi)?;
    if word == "radical" {
        return lattice_text(alloc, &r);
    }
    lattice_text(alloc, multiplier(alloc, k, p, o, &r)?.lattice())
}

// What the word makes of the order at the polynomial of the text.
fn at_one<K: SmallField>(
    alloc: Global,
    k: &K,
    p: &Pres,
    o: &Order,
    word: &str,
    text: &str,
) -> Result<String, AllocError>
    requires p_in { IsPresOver (K.field k.now).ops p.now }
    requires some { let k = K.field k.now in ¬ (discriminant (equation_of k p.now) ≡ (polynomials k).𝟘) }
    requires order { IsOrderLattice (K.field k.now) p.now o.now }
{
    let pi = prime(alloc, k, text)?;
    if word == "pmaximal" {
        return lattice_text(alloc, p_maximal(alloc, k, p, o, &pi)?.lattice());
    }
    radical_text(alloc, k, p, o, &pi, word)
}

// The order, enlarged at the polynomials of the text.
fn at_several<K: SmallField>(
    alloc: Global,
    k: &K,
    p: &Pres,
    o: &Order,
    text: &str,
) -> Result<String, AllocError>
    requires p_in { IsPresOver (K.field k.now).ops p.now }
    requires some { let k = K.field k.now in ¬ (discriminant (equation_of k p.now) ≡ (polynomials k).𝟘) }
    requires order { IsOrderLattice (K.field k.now) p.now o.now }
{
    let found = primes(alloc, k, text)?;
    lattice_text(alloc, maximal(alloc, k, p, o, found.as_slice())?.lattice())
}

/// Of k[x][y]: the radical at a polynomial, its multipliers, or the enlargement at one polynomial or at several.
pub fn enlarged_text<K: SmallField>(
    alloc: Global,
    k: &K,
    c: &Curve,
    word: &str,
    text: &str,
) -> Result<String, AllocError>
    requires { IsCurve (K.field k.now) c.now }
{
    let p = c.fin();
    let start = equation_order(alloc, k, p)?;
    if word == "maximal" {
        at_several(alloc, k, p, &start, text)
    } else {
        at_one(alloc, k, p, &start, word, text)
    }
}
