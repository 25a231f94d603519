//! The answer to a case.

use crate::run::run;
use crate::{header, step, turns};
use ff_program::Status;
use std::alloc::{AllocError, Global};

/// The header, as the first line of an answer.
fn head(alloc: Global, header: &str) -> Result<Vec<u8>, AllocError> {
    let mut text = b"---- ".to_vec(alloc)?;
    text.extend_from_slice(header.as_bytes())?;
    text.push(b'\n')?;
    Ok(text)
}

fn status_line(alloc: Global, status: u8, read: usize) -> Result<String, AllocError> {
    Ok(format!(in alloc; "status {status}, {read} bytes read\n")?)
}

/// The status, how many bytes were read, and what was printed.
fn ended(alloc: Global, header: &str, script: &[u8], step: u64) -> Result<Vec<u8>, AllocError> {
    let reads = header::numbers(alloc, header, "reads ")?;
    let writes = header::numbers(alloc, header, "writes ")?;
    let ended = run(alloc, header, script, (reads, writes), step.max(1) as usize)?;
    let line = status_line(alloc, ended.status, ended.read)?;
    let mut text = line.as_bytes().to_vec(alloc)?;
    text.extend_from_slice(ended.printed.as_slice())?;
    Ok(text)
}

/// How the runs by each step ended: once, where they agree.
fn by_steps(
    alloc: Global,
    header: &str,
    script: &[u8],
    steps: &[u64],
) -> Result<Vec<u8>, AllocError> {
    let mut text = Vec::new(alloc);
    for step in steps {
        let one = ended(alloc, header, script, *step)?;
        if one.as_slice() != text.as_slice() {
            text.extend_from_slice(one.as_slice())?;
        }
    }
    Ok(text)
}

/// The steps that the header asks for.
fn steps(alloc: Global, header: &str) -> Result<Vec<u64>, AllocError> {
    let mut steps = header::numbers(alloc, header, "step ")?;
    if steps.is_empty() {
        steps.push(16)?;
    }
    Ok(steps)
}

/// The name and the number of a status.
fn numbered(alloc: Global, status: Status) -> Result<String, AllocError> {
    let n = status.number();
    Ok(format!(in alloc; "{status:?} {n}\n")?)
}

/// The name and the number of each status.
fn statuses(alloc: Global) -> Result<Vec<u8>, AllocError> {
    let mut text = Vec::new(alloc);
    for status in [
        Status::Done,
        Status::Refused,
        Status::Usage,
        Status::ReadFault,
        Status::WriteFault,
        Status::WantOfMemory,
        Status::CheckNo,
    ] {
        text.extend_from_slice(numbered(alloc, status)?.as_bytes())?;
    }
    Ok(text)
}

/// What stands behind the header in an answer.
fn lines(alloc: Global, header: &str, script: &[u8]) -> Result<Vec<u8>, AllocError> {
    if let Some(p) = header::number(header, "first step of field ") {
        return step::first_step(alloc, header, u32::try_from(p).unwrap_or(0));
    }
    if header::asks(header, "numbers") {
        return statuses(alloc);
    }
    let steps = steps(alloc, header)?;
    if header::asks(header, "each ") {
        turns::by_steps(alloc, header, script, steps.as_slice())
    } else {
        by_steps(alloc, header, script, steps.as_slice())
    }
}

/// The answer to a case.
pub fn answer(alloc: Global, header: &str, script: &[u8]) -> Result<Vec<u8>, AllocError> {
    let rest = lines(alloc, header, script)?;
    let mut text = head(alloc, header)?;
    text.extend_from_slice(rest.as_slice())?;
    Ok(text)
}
