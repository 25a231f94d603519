//! Answers lines of a table of cases: texts of numbers, polynomials, elements, statements and scripts.
//!
//! A line is a word, for some words a number, `: ` and a text, which is written with the escapes of `case_bytes`:
//!
//! - `number COL`, `terms COL`, `terms in x COL`, `element COL`: what a reader reads at the column, printed again, and
//!   the
//!   column behind it; or the column of the fault.
//! - `sum P`: the terms of the sum over the field of P elements, as the exponents of y and x and the code.
//! - `poly`, `elem`, `poly COL`, `elem COL`: the codes of a printed form, lowest first, and the form printed again.
//! - `long elem`: how many numerators there are, and whether the form is printed again.
//! - `statement`, `script`: a statement printed again; how many statements there are, or the first bad line.
//!
//! What can be copied is printed from a copy, and a word says so where the original is printed otherwise.
#![tactic(auto)]

mod forms;
mod lines;
mod spellings;
mod statements;

use case_bytes::bytes_of;
use std::alloc::{AllocError, Global};
use std::io;
use std::io::Write;

/// The line, and the line of its answer.
fn answer(alloc: Global, line: &str) -> Result<Vec<u8>, AllocError> {
    let mut out = line.as_bytes().to_vec(alloc)?;
    let (word, text) = line.split_once(": ").unwrap_or((line, ""));
    let bytes = bytes_of(alloc, text)?;
    let answer = lines::answer(alloc, word, bytes.as_slice())?;
    out.extend_from_slice(b"\n    ")?;
    out.extend_from_slice(answer.as_slice())?;
    out.push(b'\n')?;
    Ok(out)
}

fn main(rt: HostRuntime) -> io::Result<()> {
    let mut out = io::writer(&rt);
    for line in rt.lines(rt.alloc()) {
        let line = line?;
        let answer = answer(rt.alloc(), line.as_str())?;
        out.write_all(answer.as_slice())?;
    }
    Ok(())
}
