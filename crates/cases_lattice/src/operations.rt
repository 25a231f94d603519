//! What is made of lattices, and what they contain.

ghost use Rattle.std.specs.Prelude.{length};
ghost use Rattle.function_field.specs.Values.{IsPresOver};
ghost use Rattle.ff_lattice.specs.Lattices.{IsLatticeValue};

use crate::lattices::{elements, lattice, lattice_text};
use case_values::print::{decided, fraction_text};
use case_values::read::{BAD, element, number, parted, polynomial, presentation};
use ff_algebra::{Elem, Pres};
use ff_fields::field::SmallField;
use ff_lattice::colons::colon;
use ff_lattice::multiples::scale;
use ff_lattice::operations::{product, sum};
use ff_lattice::sets::{contains, same_lattice};
use ff_lattice::{Lattice, LatticeFault};
use std::alloc::{AllocError, Global};

// The lattice of the generators, or that they have too small a rank.
fn made<K: SmallField>(alloc: Global, k: &K, p: &Pres, text: &str) -> Result<String, AllocError> {
    let gens = elements(alloc, k, p.n(), text)?;
    match Lattice::from_generators(alloc, k, p, gens.as_slice()) {
        Ok(l) => lattice_text(alloc, &l),
        Err(LatticeFault::NotFull) => "not full".to_string(alloc),
        Err(LatticeFault::Memory) => Err(BAD),
    }
}

// A copy of the lattice of the generators.
fn copied<K: SmallField>(alloc: Global, k: &K, p: &Pres, text: &str) -> Result<String, AllocError> {
    let l = lattice(alloc, k, p, text)?;
    lattice_text(alloc, &l.copy(alloc)?)
}

// `A: B`: the sum, the product, or the functions that take B into A.
fn of_two<K: SmallField>(
    alloc: Global,
    k: &K,
    p: &Pres,
    word: &str,
    text: &str,
) -> Result<Lattice, AllocError>
    requires { IsPresOver (K.field k.now).ops p.now }
{
    let (a, b) = parted(text)?;
    let a = lattice(alloc, k, p, a)?;
    let b = lattice(alloc, k, p, b)?;
    match word {
        "sum" => sum(alloc, k, p, &a, &b),
        "product" => product(alloc, k, p, &a, &b),
        _ => colon(alloc, k, p, &a, &b),
    }
}

// `A: B`: are the two the same?
fn are_same<K: SmallField>(alloc: Global, k: &K, p: &Pres, text: &str) -> Result<bool, AllocError> {
    let (a, b) = parted(text)?;
    let a = lattice(alloc, k, p, a)?;
    let b = lattice(alloc, k, p, b)?;
    same_lattice(alloc, k, &a, &b)
}

// The lattice times the fraction of the text.
fn multiple<K: SmallField>(
    alloc: Global,
    k: &K,
    a: &Lattice,
    text: &str,
) -> Result<Lattice, AllocError>
    requires { IsLatticeValue (K.field k.now).ops (length a.now.rows) a.now }
{
    let Some((num, den)) = text.split_once('/') else {
        return Err(BAD);
    };
    let num = polynomial(alloc, k, num)?;
    let den = polynomial(alloc, k, den)?;
    if num.is_zero() || den.is_zero() || a.len() == 0 {
        return Err(BAD);
    }
    scale(alloc, k, a, &num, &den)
}

// Is the element of the text in the lattice?
fn has<K: SmallField>(alloc: Global, k: &K, a: &Lattice, text: &str) -> Result<bool, AllocError>
    requires { IsLatticeValue (K.field k.now).ops (length a.now.rows) a.now }
{
    let z = element(alloc, k, a.len(), text)?;
    contains(alloc, k, a, &z)
}

// The row with the number of the text.
fn row_at(alloc: Global, a: &Lattice, text: &str) -> Result<Elem, AllocError> {
    let i = number(text)? as usize;
    if i >= a.len() {
        return Err(BAD);
    }
    a.row(alloc, i)
}

fn row_text(alloc: Global, a: &Lattice, text: &str) -> Result<String, AllocError> {
    let row = row_at(alloc, a, text)?;
    fraction_text(alloc, row.num(), row.den())
}

// `A: x`: A times x, whether x is in A, or row x of A.
fn of_one<K: SmallField>(
    alloc: Global,
    k: &K,
    p: &Pres,
    word: &str,
    text: &str,
) -> Result<String, AllocError> {
    let (a, x) = parted(text)?;
    let a = lattice(alloc, k, p, a)?;
    match word {
        "scale" => lattice_text(alloc, &multiple(alloc, k, &a, x)?),
        "contains" => decided(alloc, has(alloc, k, &a, x)?),
        _ => row_text(alloc, &a, x),
    }
}

/// Over the presentation f: `lattice` and `copy` have `f: A`; `sum`, `product`, `colon` and `same` have `f: A: B`;
/// `scale`, `contains` and `row` have `f: A:` and a fraction, an element or a number.
pub fn lattice_line<K: SmallField>(
    alloc: Global,
    k: &K,
    word: &str,
    text: &str,
) -> Result<String, AllocError> {
    let (f, rest) = parted(text)?;
    let p = presentation(alloc, k, f)?;
    match word {
        "lattice" => made(alloc, k, &p, rest),
        "copy" => copied(alloc, k, &p, rest),
        "same" => decided(alloc, are_same(alloc, k, &p, rest)?),
        "sum" | "product" | "colon" => lattice_text(alloc, &of_two(alloc, k, &p, word, rest)?),
        _ => of_one(alloc, k, &p, word, rest),
    }
}
