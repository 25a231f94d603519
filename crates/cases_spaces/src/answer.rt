//! The answer to a line.

use crate::frames::frame;
use crate::spaces::space_line;
use case_values::fields::field;
use case_values::read::{BAD, parted};
use std::alloc::{AllocError, Global};

fn answered(alloc: Global, line: &str) -> Result<String, AllocError> {
    let (head, terms) = parted(line)?;
    let Some((word, name)) = head.split_once(' ') else {
        return Err(BAD);
    };
    let k = field(alloc, name)?;
    let f = frame(alloc, &k, terms)?;
    space_line(alloc, &k, word, &f)
}

/// The line's answer, `unreadable` where it can't be read. A line that begins with `#` is its own answer.
pub fn answer(alloc: Global, line: &str) -> Result<String, AllocError> {
    if line.starts_with('#') {
        return line.to_string(alloc);
    }
    match answered(alloc, line) {
        Ok(text) => Ok(text),
        Err(_) => "unreadable".to_string(alloc),
    }
}
