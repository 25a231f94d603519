//! The answer to a line.

use crate::algebras::algebra_line;
use crate::codes::{code_line, field_line};
use crate::copied::copy_line;
use crate::factors::factor_line;
use crate::matrices::matrix_line;
use crate::polynomials::polynomial_line;
use crate::reduced::reduced_line;
use crate::tables::agree_line;
use crate::trials::trial_line;
use case_values::fields::field;
use case_values::read::{BAD, parted};
use std::alloc::{AllocError, Global};

fn answered(alloc: Global, line: &str) -> Result<String, AllocError> {
    let (head, tail) = parted(line)?;
    let Some((word, name)) = head.split_once(' ') else {
        return Err(BAD);
    };
    if word == "field" {
        return field_line(alloc, name);
    }
    if word == "agree" {
        return agree_line(alloc, name, tail);
    }
    let k = field(alloc, name)?;
    match word {
        "add" | "sub" | "mul" | "neg" | "inv" | "pow" => code_line(alloc, &k, word, tail),
        "sum"
        | "difference"
        | "product"
        | "quotient"
        | "multiple"
        | "shift"
        | "value"
        | "power"
        | "added"
        | "terms" => polynomial_line(alloc, &k, word, tail),
        "matrix" | "echelon" | "kernel" | "solve" | "relation" | "onto" => {
            matrix_line(alloc, &k, word, tail)
        }
        "one" | "frobenius" | "nilpotents" | "fixed" | "idempotents" | "isfield" | "times" => {
            algebra_line(alloc, &k, word, tail)
        }
        "factor" | "irreducible" | "lowest" => factor_line(alloc, &k, word, tail),
        "irreducibles" | "simple" | "factored" => trial_line(alloc, &k, word, tail),
        "copy" => copy_line(alloc, &k, tail),
        "weak" | "popov" | "coordinates" => reduced_line(alloc, &k, word, tail),
        _ => Err(BAD),
    }
}

/// The line's answer, `unreadable` where it can't be read. A line that begins with `#` is its own answer.
pub fn answer(alloc: Global, line: &str) -> Result<String, AllocError> {
    if line.starts_with('#') {
        return line.to_string(alloc);
    }
    match answered(alloc, line) {
        Ok(text) => Ok(text),
        Err(_) => "unreadable".to_string(alloc),
    }
}
