//! Terms in x and y from text.

ghost use Rattle.std.specs.Prelude.{◌<◌, All, IfOk};

use crate::read::{BAD, numbers};
use ff_fields::field::SmallField;
use ff_poly::Terms;
use std::alloc::{AllocError, Global};

/// The terms between commas, each an exponent of y, one of x, and a code.
pub fn term_list(alloc: Global, text: &str) -> Result<Vec<(u64, u64, u32)>, AllocError> {
    let mut found = Vec::new(alloc);
    if text.trim().is_empty() {
        return Ok(found);
    }
    for part in text.split(',') {
        let term = numbers(alloc, part)?;
        if term.len() != 3 {
            return Err(BAD);
        }
        found.push((u64::from(term[0]), u64::from(term[1]), term[2]))?;
    }
    Ok(found)
}

/// The sum of the terms, whose codes are tested first.
pub fn terms<K: SmallField>(alloc: Global, k: &K, text: &str) -> Result<Terms, AllocError>
    ensures { IfOk result (All (λ t. t.2 < (K.field k.now).size)) }
{
    let list = term_list(alloc, text)?;
    let size = k.size();
    if !list.iter().all(|t| t.2 < size) {
        return Err(BAD);
    }
    Terms::from_list(alloc, k, list.as_slice())
}
