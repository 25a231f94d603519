//! Members of lattices, and when two lattices are the same.

ghost use Rattle.std.specs.Prelude.{◌≡◌, ◌↔◌, ◌≤◌, length, IfOk, IsTrue};
ghost use Rattle.ff_poly.specs.Popov.{rows_of};
ghost use Rattle.function_field.specs.Values.{PresValue, Functions, IsElem, function_of};
ghost use Rattle.ff_lattice.specs.Lattices.{IsLatticeValue, Contains};

use crate::lattice::Lattice;
use crate::rows::{multiple_row, multiple_rows};
use ff_algebra::{Elem, Pres};
use ff_fields::field::SmallField;
use ff_poly::Poly;
use ff_popov::coordinates;
use std::alloc::{AllocError, Global};

/// Is z in the lattice? It takes the time of one division by the lattice's rows, times the denominator of z.
pub fn contains<K: SmallField>(
    alloc: Global,
    k: &K,
    a: &Lattice,
    z: &Elem,
) -> Result<bool, AllocError>
    requires a_form { IsLatticeValue (K.field k.now).ops (length a.now.rows) a.now }
    requires z_in { IsElem (K.field k.now).ops (length a.now.rows) z.now }
    ensures { let k = K.field k.now in
        IfOk result (λ r.
        (p : PresValue) →
        1 ≤ p.n →
        p.n ≡ length a.now.rows →
        IsTrue r ↔ Contains k p a.now (function_of k p z.now)) }
{
    let v = multiple_row(alloc, k, a.den(), z.num())?;
    let rows = multiple_rows(alloc, k, z.den(), a.rows(), a.len())?;
    let found = coordinates(alloc, k, &rows, &v)?;
    Ok(found.is_some())
}

/// Are the rows the same?
fn same_row(v: &[Poly], w: &[Poly]) -> bool
    ensures { IsTrue result ↔ (v.now ≡ w.now) }
{
    if v.len() != w.len() {
        return false;
    }
    for j in 0..v.len() {
        if !v[j].equals(&w[j]) {
            return false;
        }
    }
    true
}

/// Are the lists of rows the same?
pub(crate) fn same_rows(vs: &[Vec<Poly>], ws: &[Vec<Poly>]) -> bool
    ensures { IsTrue result ↔ (rows_of vs.now ≡ rows_of ws.now) }
{
    if vs.len() != ws.len() {
        return false;
    }
    for i in 0..vs.len() {
        if !same_row(&vs[i], &ws[i]) {
            return false;
        }
    }
    true
}

/// Are the rows and the denominators the same?
fn same_form(a: &Lattice, b: &Lattice) -> bool
    ensures { IsTrue result ↔ (a.now ≡ b.now) }
{
    a.den().equals(b.den()) && same_rows(a.rows(), b.rows())
}

/// Are the two lattices the same set of functions? That is so exactly where their rows and denominators are the same.
/// It takes time in the size of the rows, and no memory.
pub fn same_lattice<K: SmallField>(
    alloc: Global,
    k: &K,
    a: &Lattice,
    b: &Lattice,
) -> Result<bool, AllocError>
    requires a_form { IsLatticeValue (K.field k.now).ops (length a.now.rows) a.now }
    requires b_form { IsLatticeValue (K.field k.now).ops (length a.now.rows) b.now }
    ensures equal { IfOk result (λ r. IsTrue r ↔ (a.now ≡ b.now)) }
    ensures sets { let k = K.field k.now in
        IfOk result (λ r.
        (p : PresValue) →
        1 ≤ p.n →
        p.n ≡ length a.now.rows →
        IsTrue r ↔ ((z : Functions k p) → Contains k p a.now z ↔ Contains k p b.now z)) }
{
    Ok(same_form(a, b))
}

/// Two lattices that are the same set of functions have the same rows and the same denominator.
pub fn one_lattice<K: SmallField>(k: &K, p: &Pres, a: &Lattice, b: &Lattice)
    requires a_form { IsLatticeValue (K.field k.now).ops p.now.n a.now }
    requires b_form { IsLatticeValue (K.field k.now).ops p.now.n b.now }
    requires positive { 1 ≤ p.now.n }
    ensures { let k = K.field k.now in
        ((z : Functions k p.now) → Contains k p.now a.now z ↔ Contains k p.now b.now z) → a.now ≡ b.now }
{}
