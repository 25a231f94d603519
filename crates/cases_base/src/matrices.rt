//! Matrices of codes.

use case_values::matrices::{codes, matrix};
use case_values::print::{codes_text, matrix_text, worded};
use case_values::read::{BAD, number, parted};
use ff_fields::field::SmallField;
use ff_linalg::{add_multiple, echelon, kernel, min_relation, solve};
use std::alloc::{AllocError, Global};

// The rank, and the reduced row echelon form.
fn echelon_text<K: SmallField>(alloc: Global, k: &K, text: &str) -> Result<String, AllocError> {
    let mut a = matrix(alloc, k, text)?;
    let rank = echelon(k, &mut a);
    let mut out = worded(alloc, "rank", rank as u64)?;
    out.push_str(": ")?;
    out.push_str(matrix_text(alloc, &a)?.as_str())?;
    Ok(out)
}

fn kernel_text<K: SmallField>(alloc: Global, k: &K, text: &str) -> Result<String, AllocError> {
    let a = matrix(alloc, k, text)?;
    let basis = kernel(alloc, k, &a)?;
    matrix_text(alloc, &basis)
}

fn list_text(alloc: Global, found: Option<Vec<u32>>) -> Result<String, AllocError> {
    match found {
        Some(list) => codes_text(alloc, list.as_slice()),
        None => "none".to_string(alloc),
    }
}

// `m: b`: a v with v·m = b.
fn solution<K: SmallField>(
    alloc: Global,
    k: &K,
    text: &str,
) -> Result<Option<Vec<u32>>, AllocError> {
    let (m, b) = parted(text)?;
    let m = matrix(alloc, k, m)?;
    let b = codes(alloc, k, b)?;
    if b.len() != m.cols() {
        return Err(BAD);
    }
    solve(alloc, k, &m, b.as_slice())
}

fn relation<K: SmallField>(
    alloc: Global,
    k: &K,
    text: &str,
) -> Result<Option<Vec<u32>>, AllocError> {
    let m = matrix(alloc, k, text)?;
    min_relation(alloc, k, &m)
}

// `s: c: v`: s with c times v added to its first entries.
fn onto<K: SmallField>(alloc: Global, k: &K, text: &str) -> Result<String, AllocError> {
    let (s, rest) = parted(text)?;
    let (c, v) = parted(rest)?;
    let mut sum = codes(alloc, k, s)?;
    let v = codes(alloc, k, v)?;
    let c = number(c)?;
    if c >= k.size() || v.len() > sum.len() {
        return Err(BAD);
    }
    add_multiple(k, sum.as_mut_slice(), c, v.as_slice());
    codes_text(alloc, sum.as_slice())
}

/// The matrix, the vector, or `none`, that the word makes of the arguments.
pub fn matrix_line<K: SmallField>(
    alloc: Global,
    k: &K,
    word: &str,
    text: &str,
) -> Result<String, AllocError> {
    match word {
        "matrix" => matrix_text(alloc, &matrix(alloc, k, text)?),
        "echelon" => echelon_text(alloc, k, text),
        "kernel" => kernel_text(alloc, k, text),
        "solve" => list_text(alloc, solution(alloc, k, text)?),
        "relation" => list_text(alloc, relation(alloc, k, text)?),
        _ => onto(alloc, k, text),
    }
}
