//! Runs the program over each script of a table of cases, in memory, and prints how each run ended.
//!
//! Standard input is a table: a header line, which begins with `---- `, and the lines of its script up to the next one.
//! `header` says what a header may ask for. Scripts are written with the escapes of `case_bytes`. The answer to a case
//! is its header, the status, the number of bytes that were read, and what was printed.
#![tactic(auto)]

mod answer;
mod header;
mod run;
mod step;
mod turns;

use answer::answer;
use case_bytes::bytes_of;
use std::alloc::{AllocError, Global};
use std::io;
use std::io::Write;

/// The script of a case: its lines, each with a line feed (but for the last one of an open end), and line feeds up to
/// so many bytes, where the header says so.
fn script(alloc: Global, header: &str, lines: Option<&str>) -> Result<Vec<u8>, AllocError> {
    let mut script = Vec::new(alloc);
    if let Some(lines) = lines {
        script = bytes_of(alloc, lines)?;
        if !header::asks(header, "open end") {
            script.push(b'\n')?;
        }
    }
    if let Some(size) = header::number(header, "feeds ") {
        let size = size as usize;
        if script.len() < size {
            script.resize(size, b'\n')?;
        }
    }
    Ok(script)
}

/// The answer to a case, which is written as a header and the lines behind it.
fn case(alloc: Global, text: &str) -> Result<Vec<u8>, AllocError> {
    let (header, lines) = match text.split_once('\n') {
        Some((header, lines)) => (header, Some(lines)),
        None => (text, None),
    };
    let script = script(alloc, header, lines)?;
    answer(alloc, header, script.as_slice())
}

fn main(rt: HostRuntime) -> io::Result<()> {
    let text = io::read_to_string(rt.alloc(), rt.reader())?;
    let table = text.as_str().trim_end().strip_prefix("---- ").unwrap_or("");
    let mut out = io::writer(&rt);
    for part in table.split("\n---- ") {
        let answer = case(rt.alloc(), part)?;
        out.write_all(answer.as_slice())?;
    }
    Ok(())
}
