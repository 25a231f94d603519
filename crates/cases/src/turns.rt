//! Runs in which each call fails in turn.

ghost use Rattle.std.specs.Prelude.{◌≤◌};

use crate::header;
use crate::run::{Ended, run};
use std::alloc::{AllocError, Global};

/// The list of one call.
fn one(alloc: Global, call: u64) -> Result<Vec<u64>, AllocError> {
    let mut calls = Vec::new(alloc);
    calls.push(call)?;
    Ok(calls)
}

/// A run in which this call fails: of the source, or of the sink.
fn turn(
    alloc: Global,
    header: &str,
    script: &[u8],
    call: u64,
    step: usize,
) -> Result<Ended, AllocError>
    requires { 1 ≤ step }
{
    let none = Vec::new(alloc);
    let failing = one(alloc, call)?;
    if header::asks(header, "each read ") {
        run(alloc, header, script, (failing, none), step)
    } else {
        run(alloc, header, script, (none, failing), step)
    }
}

fn status_text(alloc: Global, call: u64, status: u8) -> Result<String, AllocError> {
    Ok(format!(in alloc; "call {call}: status {status}, ")?)
}

fn counts_text(alloc: Global, read: usize, reads: u64) -> Result<String, AllocError> {
    Ok(format!(in alloc; "{read} bytes read in {reads} calls, ")?)
}

fn printed_text(alloc: Global, printed: usize, writes: u64) -> Result<String, AllocError> {
    Ok(format!(in alloc; "{printed} bytes printed in {writes} calls\n")?)
}

/// The line of a turn.
fn push_line(alloc: Global, out: &mut Vec<u8>, call: u64, ended: &Ended) -> Result<(), AllocError> {
    let status = status_text(alloc, call, ended.status)?;
    out.extend_from_slice(status.as_bytes())?;
    let counts = counts_text(alloc, ended.read, ended.reads)?;
    out.extend_from_slice(counts.as_bytes())?;
    let printed = printed_text(alloc, ended.printed.len(), ended.writes)?;
    out.extend_from_slice(printed.as_bytes())?;
    Ok(())
}

/// A line for each call, up to the first that fails none: it is behind the last. Where what was printed doesn't begin
/// what a run without a fault prints, a line says so.
fn push_turns(
    alloc: Global,
    out: &mut Vec<u8>,
    header: &str,
    script: &[u8],
    step: usize,
) -> Result<(), AllocError>
    requires { 1 ≤ step }
{
    let whole = turn(alloc, header, script, 0, step)?;
    for call in 1..1000 {
        let ended = turn(alloc, header, script, call, step)?;
        push_line(alloc, out, call, &ended)?;
        if !whole.printed.starts_with(ended.printed.as_slice()) {
            out.extend_from_slice(b"printed another text\n")?;
        }
        if ended.status == whole.status {
            return Ok(());
        }
    }
    Ok(())
}

/// The turns by each step, one after the other.
pub fn by_steps(
    alloc: Global,
    header: &str,
    script: &[u8],
    steps: &[u64],
) -> Result<Vec<u8>, AllocError> {
    let mut text = Vec::new(alloc);
    for step in steps {
        push_turns(alloc, &mut text, header, script, (*step).max(1) as usize)?;
    }
    Ok(text)
}
