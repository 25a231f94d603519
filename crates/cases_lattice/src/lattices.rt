//! Lattices from text, and as text.

ghost use Rattle.std.specs.Prelude.{◌≡◌, length, All, IfOk};
ghost use Rattle.function_field.specs.Values.{IsElem};
ghost use Rattle.ff_lattice.specs.Lattices.{IsLatticeValue};

use case_values::print::{push_polynomial, push_rows};
use case_values::read::{BAD, element};
use ff_algebra::{Elem, Pres};
use ff_fields::field::SmallField;
use ff_lattice::Lattice;
use std::alloc::{AllocError, Global};

/// The elements between semicolons, each of n numerators.
pub fn elements<K: SmallField>(
    alloc: Global,
    k: &K,
    n: usize,
    text: &str,
) -> Result<Vec<Elem>, AllocError>
    ensures { IfOk result (λ zs. All (IsElem (K.field k.now).ops n) zs.items) }
{
    let mut found = Vec::new(alloc);
    for part in text.split(';') {
        found.push(element(alloc, k, n, part)?)?;
    }
    Ok(found)
}

/// The lattice of the generators between semicolons, of as many rows as the degree.
pub fn lattice<K: SmallField>(
    alloc: Global,
    k: &K,
    p: &Pres,
    text: &str,
) -> Result<Lattice, AllocError>
    ensures form { IfOk result (IsLatticeValue (K.field k.now).ops p.now.n) }
    ensures size { IfOk result (λ l. length l.rows ≡ p.now.n) }
{
    let gens = elements(alloc, k, p.n(), text)?;
    let Ok(made) = Lattice::from_generators(alloc, k, p, gens.as_slice()) else {
        return Err(BAD);
    };
    if made.len() != p.n() {
        return Err(BAD);
    }
    Ok(made)
}

/// The pivot degree, a colon, the rows, a stroke and the denominator, of a lattice of at most 4 rows.
pub fn lattice_text(alloc: Global, l: &Lattice) -> Result<String, AllocError> {
    if l.len() > 4 {
        return Err(BAD);
    }
    let degree = l.pivot_degree();
    let mut out = format!(in alloc; "{degree}: ")?;
    push_rows(&mut out, l.rows())?;
    out.push_str(" / ")?;
    push_polynomial(&mut out, l.den())?;
    Ok(out)
}
