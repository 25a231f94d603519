//! Finite algebras: polynomials modulo a monic one, and copies of the field.

ghost use Rattle.std.specs.Prelude.{IfOk};
ghost use Rattle.ff_factor.specs.Quotients.{IsModulus};

use crate::copies::Copies;
use case_values::matrices::codes;
use case_values::print::{codes_text, decided, lists_text, matrix_text};
use case_values::read::{BAD, number, parted, polynomial};
use ff_factor::PolyQuotient;
use ff_falg::{FiniteAlgebra, fixed, frobenius, idempotents, is_field, nilpotents};
use ff_fields::field::SmallField;
use std::alloc::{AllocError, Global};

/// The polynomials modulo the one of the text.
pub fn modulo<K: SmallField>(alloc: Global, k: &K, text: &str) -> Result<PolyQuotient, AllocError>
    ensures { IfOk result (IsModulus (K.field k.now).ops) }
{
    let g = polynomial(alloc, k, text)?;
    if g.codes().len() < 2 || g.top() != 1 {
        return Err(BAD);
    }
    PolyQuotient::new(alloc, &g)
}

// What the word says of the algebra.
fn algebra_text<K: SmallField, A: FiniteAlgebra<K>>(
    alloc: Global,
    k: &K,
    a: &A,
    word: &str,
) -> Result<String, AllocError>
    requires { A.IsOver a.now (K.field k.now) }
{
    match word {
        "one" => codes_text(alloc, a.one(alloc)?.as_slice()),
        "frobenius" => matrix_text(alloc, &frobenius(alloc, k, a)?),
        "nilpotents" => matrix_text(alloc, &nilpotents(alloc, k, a)?),
        "fixed" => matrix_text(alloc, &fixed(alloc, k, a)?),
        "idempotents" => lists_text(alloc, idempotents(alloc, k, a)?.as_slice()),
        _ => decided(alloc, is_field(alloc, k, a)?),
    }
}

// `g: a: b`: the product of a and b modulo g.
fn times<K: SmallField>(alloc: Global, k: &K, text: &str) -> Result<String, AllocError> {
    let (g, rest) = parted(text)?;
    let (a, b) = parted(rest)?;
    let q = modulo(alloc, k, g)?;
    let a = codes(alloc, k, a)?;
    let b = codes(alloc, k, b)?;
    let n = q.modulus().codes().len() - 1;
    if a.len() != n || b.len() != n {
        return Err(BAD);
    }
    codes_text(
        alloc,
        q.mul(alloc, k, a.as_slice(), b.as_slice())?.as_slice(),
    )
}

/// `copies n` or `modulo g`: what the word says of the algebra. `times` has `g: a: b`.
pub fn algebra_line<K: SmallField>(
    alloc: Global,
    k: &K,
    word: &str,
    text: &str,
) -> Result<String, AllocError> {
    if word == "times" {
        return times(alloc, k, text);
    }
    let Some((kind, rest)) = text.trim().split_once(' ') else {
        return Err(BAD);
    };
    if kind == "copies" {
        return algebra_text(alloc, k, &Copies(number(rest)? as usize), word);
    }
    algebra_text(alloc, k, &modulo(alloc, k, rest)?, word)
}
