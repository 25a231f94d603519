//! Where bytes come from.

ghost use Rattle.std.specs.Prelude.{◌≡◌, ◌+◌, ◌-◌, ◌^◌, ◌<◌, ◌≤◌, ℕ, List, [], Option, length, drop, IfOk, OnErr, IfSome, IsErrOf};
ghost use Rattle.ff_io.specs.Streams.{Rose, Took};
ghost use Rattle.ff_io.specs.declared.source.ReadEnd.TheVariants.{Fault, Memory};

use crate::Failed;
use std::alloc::{AllocError, Global};

/// Gives bytes piece by piece.
pub trait Source {
    /// The bytes still to come, where it tells them.
    ghost left: { Self → Option (List ℕ) };

    /// How often it has failed.
    ghost faults: { Self → ℕ };

    /// It won't fail.
    ghost steady: { Self → Type 0 };

    /// Puts the next bytes at the front of the buffer and answers how many they are. 0 for a buffer that isn't empty
    /// is the end.
    fn read(&mut self, buf: &mut [u8]) -> Result<usize, Failed>
        ensures fits { IfOk result (λ n. n ≤ length buf.new) }
        ensures bytes { IfOk result (λ n. IfSome (left self.old) (λ xs. Took n buf.new xs (left self.new))) }
        ensures end { IfOk result (λ n. n ≡ 0 → 0 < length buf.new → IfSome (left self.old) (λ xs. xs ≡ [])) }

        // It fails only where a fault is counted.
        ensures count { faults self.old ≤ faults self.new }
        ensures cause { OnErr result (Rose (faults self.old) (faults self.new)) }
        ensures stays_steady { steady self.old → (faults self.new ≡ faults self.old) × steady self.new };

    /// A steady source has room for a fault in its count, so a fault would show.
    ghost below_last: { (s : Self) → steady s → faults s < 2 ^ 64 - 1 };
}

/// Why `read_all` gave no bytes.
#[derive(Clone, Copy, Debug, PartialEq, Eq)]
pub enum ReadEnd {
    /// One byte more than the limit came.
    TooLong,
    /// The source failed.
    Fault,
    /// Memory ran out.
    Memory,
}

impl From<Failed> for ReadEnd {
    ghost from_gives = { λ _ e. e ≡ Fault };

    fn from(_: Failed) -> Self {
        ReadEnd::Fault
    }
}

impl From<AllocError> for ReadEnd {
    ghost from_gives = { λ _ e. e ≡ Memory };

    fn from(_: AllocError) -> Self {
        ReadEnd::Memory
    }
}

/// How many bytes one read asks for at most.
const PIECE: usize = 4096;

/// Reads the source to its end. It never asks for more than limit + 1 bytes in all. After `Err` what was read is gone.
/// Each byte is copied once, and the cost is in proportion to the bytes and the reads.
pub fn read_all<S: Source>(alloc: Global, src: &mut S, limit: usize) -> Result<Vec<u8>, ReadEnd>
    ensures within { IfOk result (λ bytes. length bytes.items ≤ limit) }
    ensures whole { IfOk result (λ bytes. IfSome (S.left src.old)
        (λ xs. (bytes.items ≡ xs) × (S.left src.new ≡ Some []))) }
    ensures too_long { IsErrOf result ReadEnd.TooLong → IfSome (S.left src.old) (λ xs.
        (limit < length xs) × (S.left src.new ≡ Some (drop (limit + 1) xs))) }

    // It fails only where the source does.
    ensures count { S.faults src.old ≤ S.faults src.new }
    ensures cause { IsErrOf result ReadEnd.Fault → Rose (S.faults src.old) (S.faults src.new) }
    ensures stays_steady { S.steady src.old → (S.faults src.new ≡ S.faults src.old) × S.steady src.new }
    ensures no_fault { S.steady src.old → ¬ IsErrOf result ReadEnd.Fault }
{
    let mut bytes = Vec::new(alloc);
    let mut buffer = [0; PIECE];
    loop {
        let room = limit - bytes.len();
        // One byte past the limit shows that there are too many.
        let asked = if room < PIECE { room + 1 } else { PIECE };
        let n = src.read(&mut buffer[..asked])?;
        if n == 0 {
            return Ok(bytes);
        }
        if n > room {
            return Err(ReadEnd::TooLong);
        }
        bytes.extend_from_slice(&buffer[..n])?;
    }
}
