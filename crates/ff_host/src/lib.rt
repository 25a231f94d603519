//! The program over its process: the words are its arguments, the source is standard input, the sink standard output.
#![tactic(auto)]

use ff_io::adapters::{ReadSource, WriteSink};
use ff_program::{Status, top};
use std::alloc::AllocError;
use std::env::{Env, FillError};
use std::process::ExitCode;

/// The bytes of an argument, or nothing behind the last.
fn argument(rt: &HostRuntime, i: usize) -> Result<Option<Vec<u8>>, AllocError> {
    let mut bytes = Vec::new(rt.alloc());
    bytes.resize(256, 0)?;
    for _ in 0..usize::BITS {
        match rt.arg(i, &mut bytes) {
            Ok(n) => {
                bytes.truncate(n);
                return Ok(Some(bytes));
            }
            Err(FillError::NotPresent) => return Ok(None),
            Err(FillError::TooLong) => bytes.resize(bytes.len().saturating_mul(2), 0)?,
        }
    }
    Err(AllocError)
}

/// The words after the program's own name. One that isn't UTF-8 is no word of a command; the empty word, which is none
/// either, stands for it.
fn words(rt: &HostRuntime) -> Result<Vec<String>, AllocError> {
    let mut words = Vec::new(rt.alloc());
    for i in 1..usize::MAX {
        let Some(bytes) = argument(rt, i)? else {
            break;
        };
        match String::from_utf8(bytes) {
            Ok(word) => words.push(word)?,
            Err(_) => words.push(String::new(rt.alloc()))?,
        }
    }
    Ok(words)
}

/// Does what the arguments ask for, and answers the exit status. `ff_program::top` does the work, and says what is
/// printed.
pub fn answer(rt: &HostRuntime) -> ExitCode {
    let Ok(words) = words(rt) else {
        return ExitCode::from(Status::WantOfMemory.number());
    };
    let mut src = ReadSource::new(rt.stdin());
    let mut out = WriteSink::new(rt.stdout());
    let status = top(rt.alloc(), words.as_slice(), &mut src, &mut out);
    ExitCode::from(status.number())
}
