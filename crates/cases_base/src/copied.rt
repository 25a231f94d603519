//! Copies, printed as the values are.

use crate::algebras::modulo;
use crate::codes::code_line;
use crate::factors::{factors_of, factors_text};
use crate::polynomials::terms_text;
use case_values::matrices::{codes, matrix};
use case_values::print::{matrix_text, polynomial_text, push_codes};
use case_values::read::{BAD, parted, polynomial};
use case_values::terms::terms;
use ff_falg::relations::Relation;
use ff_fields::field::SmallField;
use ff_fields::fields::Field;
use std::alloc::{AllocError, Global};

fn polynomial_copy<K: SmallField>(alloc: Global, k: &K, text: &str) -> Result<String, AllocError> {
    let p = polynomial(alloc, k, text)?;
    polynomial_text(alloc, &p.copy(alloc)?)
}

fn terms_copy<K: SmallField>(alloc: Global, k: &K, text: &str) -> Result<String, AllocError> {
    let t = terms(alloc, k, text)?;
    terms_text(alloc, &t.copy(alloc)?)
}

fn matrix_copy<K: SmallField>(alloc: Global, k: &K, text: &str) -> Result<String, AllocError> {
    let m = matrix(alloc, k, text)?;
    matrix_text(alloc, &m.copy(alloc)?)
}

fn relation_text(alloc: Global, r: &Relation) -> Result<String, AllocError> {
    let mut out = matrix_text(alloc, &r.powers)?;
    out.push_str("; ")?;
    push_codes(&mut out, r.coefficients.as_slice())?;
    Ok(out)
}

// The modulus of a copy of the polynomials modulo g.
fn modulus_copy<K: SmallField>(alloc: Global, k: &K, text: &str) -> Result<String, AllocError> {
    let q = modulo(alloc, k, text)?;
    polynomial_text(alloc, q.copy(alloc)?.modulus())
}

fn factors_copy<K: SmallField>(alloc: Global, k: &K, text: &str) -> Result<String, AllocError> {
    let found = factors_of(alloc, k, text)?;
    factors_text(alloc, &found.copy(alloc)?)
}

// `m: codes`: the powers and the coefficients of a copy of the relation.
fn relation_copy<K: SmallField>(alloc: Global, k: &K, text: &str) -> Result<String, AllocError> {
    let (powers, coefficients) = parted(text)?;
    let relation = Relation {
        powers: matrix(alloc, k, powers)?,
        coefficients: codes(alloc, k, coefficients)?,
    };
    relation_text(alloc, &relation.copy(alloc)?)
}

/// `polynomial: p`, `terms: t`, `matrix: m`, `modulo: g`, `factors: g` or `relation: m: codes`: a copy of the value;
/// `mul: a b`: the product in a copy of the field.
pub fn copy_line(alloc: Global, k: &Field, text: &str) -> Result<String, AllocError> {
    let (kind, value) = parted(text)?;
    match kind.trim() {
        "mul" => code_line(alloc, &k.copy(alloc)?, "mul", value),
        "polynomial" => polynomial_copy(alloc, k, value),
        "terms" => terms_copy(alloc, k, value),
        "matrix" => matrix_copy(alloc, k, value),
        "modulo" => modulus_copy(alloc, k, value),
        "factors" => factors_copy(alloc, k, value),
        "relation" => relation_copy(alloc, k, value),
        _ => Err(BAD),
    }
}
