//! Fields and their codes.

use case_values::fields::{field_of, tabled};
use case_values::print::codes_text;
use case_values::read::{BAD, numbers};
use ff_fields::fault::FieldFault;
use ff_fields::field::SmallField;
use std::alloc::{AllocError, Global};

fn made<K: SmallField>(alloc: Global, k: &K) -> Result<String, AllocError> {
    codes_text(alloc, &[k.size(), k.characteristic()])
}

fn fault_text(alloc: Global, fault: FieldFault) -> Result<String, AllocError> {
    format!(in alloc; "{fault:?}")
}

// The field by its definition, or what keeps the numbers from making one.
fn plain_line(alloc: Global, name: &str) -> Result<String, AllocError> {
    let found = numbers(alloc, name)?;
    let Some(answer) = field_of(found.as_slice()) else {
        return Err(BAD);
    };
    match answer {
        Ok(k) => made(alloc, &k),
        Err(fault) => fault_text(alloc, fault),
    }
}

// The field by tables, or that no code has powers enough.
fn tables_line(alloc: Global, name: &str) -> Result<String, AllocError> {
    match tabled(alloc, name)? {
        Some(k) => made(alloc, &k),
        None => "none".to_string(alloc),
    }
}

/// The size and the characteristic of the field, which may be one by `tables`, or why there is none.
pub fn field_line(alloc: Global, name: &str) -> Result<String, AllocError> {
    match name.strip_prefix("tables ") {
        Some(numbers) => tables_line(alloc, numbers),
        None => plain_line(alloc, name),
    }
}

fn of_two<K: SmallField>(k: &K, word: &str, a: u32, b: u32) -> Option<u32> {
    if a >= k.size() || b >= k.size() {
        return None;
    }
    match word {
        "add" => Some(k.add(a, b)),
        "sub" => Some(k.sub(a, b)),
        "mul" => Some(k.mul(a, b)),
        _ => None,
    }
}

fn of_one<K: SmallField>(k: &K, word: &str, a: u32) -> Option<u32> {
    if a >= k.size() {
        return None;
    }
    match word {
        "neg" => Some(k.neg(a)),
        "inv" if a != 0 => Some(k.inv(a)),
        _ => None,
    }
}

fn power<K: SmallField>(k: &K, a: u32, e: u32) -> Option<u32> {
    if a >= k.size() {
        return None;
    }
    Some(k.pow(a, u64::from(e)))
}

// What the word makes of a and each code.
fn of_each<K: SmallField>(
    alloc: Global,
    k: &K,
    word: &str,
    a: u32,
) -> Result<Vec<u32>, AllocError> {
    let mut found = Vec::new(alloc);
    for b in 0..k.size() {
        found.push(of_two(k, word, a, b).ok_or(BAD)?)?;
    }
    Ok(found)
}

// What the word makes of each code but 0.
fn of_all<K: SmallField>(alloc: Global, k: &K, word: &str) -> Result<Vec<u32>, AllocError> {
    let mut found = Vec::new(alloc);
    for a in 1..k.size() {
        found.push(of_one(k, word, a).ok_or(BAD)?)?;
    }
    Ok(found)
}

// The powers of a with exponents below the size.
fn powers<K: SmallField>(alloc: Global, k: &K, a: u32) -> Result<Vec<u32>, AllocError> {
    let mut found = Vec::new(alloc);
    for e in 0..k.size() {
        found.push(power(k, a, e).ok_or(BAD)?)?;
    }
    Ok(found)
}

fn values<K: SmallField>(
    alloc: Global,
    k: &K,
    word: &str,
    codes: &[u32],
) -> Result<Vec<u32>, AllocError> {
    if codes.is_empty() {
        return of_all(alloc, k, word);
    }
    if codes.len() == 2 && word == "pow" {
        return [power(k, codes[0], codes[1]).ok_or(BAD)?].to_vec(alloc);
    }
    if codes.len() == 2 {
        return [of_two(k, word, codes[0], codes[1]).ok_or(BAD)?].to_vec(alloc);
    }
    match word {
        "neg" | "inv" => [of_one(k, word, codes[0]).ok_or(BAD)?].to_vec(alloc),
        "pow" => powers(alloc, k, codes[0]),
        _ => of_each(alloc, k, word, codes[0]),
    }
}

/// `a b`, `a` or nothing: the value at two codes, those at a and each code, or those at all codes but 0; `neg` and
/// `inv` of one code, and `pow` of a code and an exponent, or of a code and all exponents below the size.
pub fn code_line<K: SmallField>(
    alloc: Global,
    k: &K,
    word: &str,
    text: &str,
) -> Result<String, AllocError> {
    let found = numbers(alloc, text)?;
    let answer = values(alloc, k, word, found.as_slice())?;
    codes_text(alloc, answer.as_slice())
}
