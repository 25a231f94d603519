//! What a header says, in fields between `|`.
//!
//! The first field has the words of the command, between blanks: `""` is the empty word, and words are written with the
//! escapes of `case_bytes`. Further fields, each if it is wanted:
//!
//! - `step N ..`: the most bytes that one call of the source and the sink moves; a run for each number, and one answer
//!   where they agree (16 where there is none).
//! - `reads N ..`, `writes N ..`: the calls that fail, from 1.
//! - `room N`: the most bytes that the sink takes.
//! - `open end`: no line feed behind the last line of the script.
//! - `feeds N`: line feeds behind the script until it has N bytes.
//! - `each read fails`, `each write fails`: a run for each call that fails, up to the first that doesn't, with a line
//!   each.
//! - `first step of field P`: no run, but one step of a session over this statement, with `printed N`, the number of
//!   bytes
//!   that were printed before, and `bare`.
//! - `numbers`: no run, but the name and the number of each status.
//! - what begins with `#` is a remark.

use case_bytes::bytes_of;
use std::alloc::{AllocError, Global};

/// What stands behind the name in the field that begins with it.
fn field<'a>(header: &'a str, name: &str) -> Option<&'a str> {
    for part in header.split('|') {
        if let Some(rest) = part.trim_start().strip_prefix(name) {
            return Some(rest);
        }
    }
    None
}

/// Is there such a field?
pub fn asks(header: &str, name: &str) -> bool {
    field(header, name).is_some()
}

/// The numbers of a field; none where there is no such field.
pub fn numbers(alloc: Global, header: &str, name: &str) -> Result<Vec<u64>, AllocError> {
    let mut numbers = Vec::new(alloc);
    for word in field(header, name).unwrap_or("").split_whitespace() {
        let Ok(n) = word.parse::<u64>() else {
            return Err(AllocError);
        };
        numbers.push(n)?;
    }
    Ok(numbers)
}

/// The number of a field.
pub fn number(header: &str, name: &str) -> Option<u64> {
    field(header, name)?.trim().parse::<u64>().ok()
}

/// A word of a command.
fn word(alloc: Global, text: &str) -> Result<String, AllocError> {
    if text == "\"\"" {
        return Ok(String::new(alloc));
    }
    match String::from_utf8(bytes_of(alloc, text)?) {
        Ok(word) => Ok(word),
        Err(_) => Err(AllocError),
    }
}

/// The words of the command.
pub fn words(alloc: Global, header: &str) -> Result<Vec<String>, AllocError> {
    let mut words = Vec::new(alloc);
    let text = header.split('|').next().unwrap_or("");
    for text in text.split_whitespace() {
        words.push(word(alloc, text)?)?;
    }
    Ok(words)
}
