//! The answer to a line.

use crate::copied::copy_line;
use crate::curves::curve_line;
use crate::elements::element_line;
use crate::sides::side_line;
use case_values::fields::field;
use case_values::read::{BAD, parted};
use std::alloc::{AllocError, Global};

fn answered(alloc: Global, line: &str) -> Result<String, AllocError> {
    let (head, tail) = parted(line)?;
    let Some((word, name)) = head.split_once(' ') else {
        return Err(BAD);
    };
    let k = field(alloc, name)?;
    match word {
        "curve" | "discriminant" | "infinite" => curve_line(alloc, &k, word, tail),
        "element" | "sum" | "same" | "product" | "trace" | "inverse" | "killed" => {
            element_line(alloc, &k, word, tail)
        }
        "copy" => copy_line(alloc, &k, tail),
        "inf" | "fin" | "returned" => side_line(alloc, &k, word, tail),
        _ => Err(BAD),
    }
}

/// The line's answer, `unreadable` where it can't be read. A line that begins with `#` is its own answer.
pub fn answer(alloc: Global, line: &str) -> Result<String, AllocError> {
    if line.starts_with('#') {
        return line.to_string(alloc);
    }
    match answered(alloc, line) {
        Ok(text) => Ok(text),
        Err(_) => "unreadable".to_string(alloc),
    }
}
