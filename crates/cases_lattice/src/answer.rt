//! The answer to a line.

use crate::curves::curve_line;
use crate::operations::lattice_line;
use crate::orders::order_line;
use crate::quotients::quotient_line;
use case_values::fields::field;
use case_values::read::{BAD, parted};
use std::alloc::{AllocError, Global};

fn answered(alloc: Global, line: &str) -> Result<String, AllocError> {
    let (head, tail) = parted(line)?;
    let Some((word, name)) = head.split_once(' ') else {
        return Err(BAD);
    };
    let k = field(alloc, name)?;
    match word {
        "lattice" | "copy" | "sum" | "product" | "colon" | "same" | "scale" | "contains" | "row" =>
            lattice_line(alloc, &k, word, tail),
        "order" | "ideal" => order_line(alloc, &k, word, tail),
        "one" | "class" | "lifted" | "times" => quotient_line(alloc, &k, word, tail),
        "radical"
        | "multiplier"
        | "pmaximal"
        | "maximal"
        | "finite"
        | "infinite"
        | "start"
        | "places"
        | "valuation"
        | "plain"
        | "local" => curve_line(alloc, &k, word, tail),
        _ => Err(BAD),
    }
}

/// The line's answer, `unreadable` where it can't be read. A line that begins with `#` is its own answer.
pub fn answer(alloc: Global, line: &str) -> Result<String, AllocError> {
    if line.starts_with('#') {
        return line.to_string(alloc);
    }
    match answered(alloc, line) {
        Ok(text) => Ok(text),
        Err(_) => "unreadable".to_string(alloc),
    }
}
