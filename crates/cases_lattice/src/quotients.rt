//! Orders modulo ideals.

ghost use Rattle.std.specs.Prelude.{IfOk};
ghost use Rattle.function_field.specs.Values.{IsElem, IsPresOver};
ghost use Rattle.ff_falg.specs.Algebras.{IsVector};
ghost use Rattle.ff_lattice.specs.Lattices.{IsLatticeValue};
ghost use Rattle.ff_lattice.specs.Orders.{IsOrderLattice};
ghost use Rattle.ff_lattice.specs.Quotients.{IsQuotientOver, dimension};

use crate::lattices::lattice;
use crate::orders::order;
use case_values::matrices::codes;
use case_values::print::codes_text;
use case_values::read::{BAD, element, parted, presentation};
use ff_algebra::{Elem, Pres};
use ff_falg::FiniteAlgebra;
use ff_fields::field::SmallField;
use ff_lattice::ideals::is_ideal;
use ff_lattice::sets::contains;
use ff_lattice::{Lattice, Order, Quotient};
use std::alloc::{AllocError, Global};

// The order modulo the lattice, where that is an ideal.
fn modulo_ideal<K: SmallField>(
    alloc: Global,
    k: &K,
    p: &Pres,
    o: &Order,
    i: &Lattice,
) -> Result<Quotient, AllocError>
    requires p_in { IsPresOver (K.field k.now).ops p.now }
    requires order { IsOrderLattice (K.field k.now) p.now o.now }
    requires form { IsLatticeValue (K.field k.now).ops p.now.n i.now }
    ensures { IfOk result (IsQuotientOver (K.field k.now)) }
{
    if !is_ideal(alloc, k, p, o, i)? {
        return Err(BAD);
    }
    Quotient::new(alloc, k, p, o, i)
}

// The order of the generators modulo an ideal.
fn modulo<K: SmallField>(
    alloc: Global,
    k: &K,
    p: &Pres,
    a: &str,
    i: &str,
) -> Result<Quotient, AllocError>
    requires { IsPresOver (K.field k.now).ops p.now }
    ensures { IfOk result (IsQuotientOver (K.field k.now)) }
{
    let o = order(alloc, k, p, a)?;
    let i = lattice(alloc, k, p, i)?;
    modulo_ideal(alloc, k, p, &o, &i)
}

// The codes of the class of z, which has to be in the order.
fn class<K: SmallField>(
    alloc: Global,
    k: &K,
    q: &Quotient,
    z: &Elem,
) -> Result<Vec<u32>, AllocError>
    requires over { IsQuotientOver (K.field k.now) q.now }
    requires z_in { IsElem (K.field k.now).ops q.now.p.n z.now }
    ensures { IfOk result (λ a. IsVector (K.field k.now).ops (dimension q.now) a.items) }
{
    if !contains(alloc, k, q.order().lattice(), z)? {
        return Err(BAD);
    }
    let codes = q.reduce(alloc, k, z)?;
    Ok(codes)
}

// The codes of the class of the element of the text.
fn class_of<K: SmallField>(
    alloc: Global,
    k: &K,
    q: &Quotient,
    text: &str,
) -> Result<Vec<u32>, AllocError>
    requires { IsQuotientOver (K.field k.now) q.now }
    ensures { IfOk result (λ a. IsVector (K.field k.now).ops (dimension q.now) a.items) }
{
    let z = element(alloc, k, q.p().n(), text)?;
    class(alloc, k, q, &z)
}

// The codes of the class of what the codes are lifted to; as many as the dimension are wanted.
fn class_of_lifted<K: SmallField>(
    alloc: Global,
    k: &K,
    q: &Quotient,
    text: &str,
) -> Result<Vec<u32>, AllocError>
    requires { IsQuotientOver (K.field k.now) q.now }
{
    let a = codes(alloc, k, text)?;
    if a.len() != <Quotient as FiniteAlgebra<K>>::dim(q) {
        return Err(BAD);
    }
    let z = q.lift(alloc, k, a.as_slice())?;
    q.reduce(alloc, k, &z)
}

// `a: b`: the product of the classes.
fn product<K: SmallField>(
    alloc: Global,
    k: &K,
    q: &Quotient,
    text: &str,
) -> Result<Vec<u32>, AllocError>
    requires { IsQuotientOver (K.field k.now) q.now }
{
    let (a, b) = parted(text)?;
    let a = class_of(alloc, k, q, a)?;
    let b = class_of(alloc, k, q, b)?;
    q.mul(alloc, k, a.as_slice(), b.as_slice())
}

// The codes that the word makes of the arguments.
fn codes_of<K: SmallField>(
    alloc: Global,
    k: &K,
    q: &Quotient,
    word: &str,
    text: &str,
) -> Result<Vec<u32>, AllocError>
    requires { IsQuotientOver (K.field k.now) q.now }
{
    match word {
        "one" => <Quotient as FiniteAlgebra<K>>::one(q, alloc),
        "class" => class_of(alloc, k, q, text),
        "lifted" => class_of_lifted(alloc, k, q, text),
        _ => product(alloc, k, q, text),
    }
}

/// Modulo an ideal, `f: A: I:` and arguments: the codes of `one`, of the `class` of an element, of what codes are
/// `lifted` to, or of the classes of two elements, `times` each other. Where all is 0, `none`. The quotient is a copy.
pub fn quotient_line<K: SmallField>(
    alloc: Global,
    k: &K,
    word: &str,
    text: &str,
) -> Result<String, AllocError> {
    let (f, rest) = parted(text)?;
    let (a, rest) = parted(rest)?;
    let (i, rest) = parted(rest)?;
    let p = presentation(alloc, k, f)?;
    let q = modulo(alloc, k, &p, a, i)?;
    let found = codes_of(alloc, k, &q.copy(alloc)?, word, rest)?;
    if found.is_empty() {
        return "none".to_string(alloc);
    }
    codes_text(alloc, found.as_slice())
}
