//! What a line asks for.

use crate::{forms, spellings, statements};
use std::alloc::{AllocError, Global};

/// The number behind the last blank of a word, if it is a number, and what stands before.
fn split_number(word: &str) -> (&str, usize) {
    match word.rsplit_once(' ') {
        Some((kind, n)) => match n.parse::<usize>() {
            Ok(n) => (kind, n),
            Err(_) => (word, 0),
        },
        None => (word, 0),
    }
}

/// The answer to a line: to its words before the colon, and the bytes behind it.
pub fn answer(alloc: Global, word: &str, bytes: &[u8]) -> Result<Vec<u8>, AllocError> {
    let (kind, n) = split_number(word);
    if n > bytes.len() && kind != "sum" {
        return b"no such column".to_vec(alloc);
    }
    match kind {
        "number" => spellings::number(alloc, bytes, n),
        "terms" => spellings::terms(alloc, true, bytes, n),
        "terms in x" => spellings::terms(alloc, false, bytes, n),
        "element" => spellings::element(alloc, bytes, n),
        "sum" => spellings::sum(alloc, u32::try_from(n).unwrap_or(0), bytes),
        "poly" => forms::poly(alloc, bytes, n, kind == word),
        "elem" => forms::elem(alloc, bytes, n, kind == word),
        "long elem" => forms::long_elem(alloc, bytes),
        "statement" => statements::statement(alloc, bytes),
        "script" => statements::script(alloc, bytes),
        _ => b"no such word".to_vec(alloc),
    }
}
