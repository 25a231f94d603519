//! A run of the program in memory.

ghost use Rattle.std.specs.Prelude.{◌≤◌};

use crate::header;
use ff_io::memory::{MemSink, MemSource};
use ff_program::top;
use std::alloc::{AllocError, Global};

/// How a run ended: its exit status, the bytes that were read and printed, and in how many calls.
#[derive(Drop)]
pub struct Ended {
    pub status: u8,
    pub read: usize,
    pub reads: u64,
    pub printed: Vec<u8>,
    pub writes: u64,
}

/// A run of the words of the header over the script.
pub fn run(
    alloc: Global,
    header: &str,
    script: &[u8],
    failing: (Vec<u64>, Vec<u64>),
    step: usize,
) -> Result<Ended, AllocError>
    requires { 1 ≤ step }
{
    let words = header::words(alloc, header)?;
    let room = header::number(header, "room ").unwrap_or(1 << 20) as usize;
    let (reads, writes) = failing;
    let mut src = MemSource::new(script.to_vec(alloc)?, reads, step);
    let mut out = MemSink::new(alloc, room, writes, step)?;
    let status = top(alloc, words.as_slice(), &mut src, &mut out);
    Ok(Ended {
        status: status.number(),
        read: src.place(),
        reads: src.calls(),
        printed: out.taken().to_vec(alloc)?,
        writes: out.calls(),
    })
}
