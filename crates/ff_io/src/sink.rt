//! Where bytes go.

ghost use Rattle.std.specs.Prelude.{◌≡◌, ◌-◌, ◌^◌, ◌<◌, ◌≤◌, ℕ, List, [], Option, Some, length, take, IfOk, OnOk, OnErr, IfSome, IsOk, IsOkAnd};
ghost use Rattle.ff_io.specs.Streams.{Rose, Appends, AppendsPart, Fills};

use crate::Failed;

/// Takes bytes piece by piece.
pub trait Sink {
    /// The bytes taken so far, where it tells them.
    ghost taken: { Self → Option (List ℕ) };

    /// How often it has failed.
    ghost faults: { Self → ℕ };

    /// How many more bytes it takes without a fault, where it tells that.
    ghost free: { Self → Option ℕ };

    /// Takes bytes from the front of the piece and answers how many. `Err` takes none.
    fn write(&mut self, piece: &[u8]) -> Result<usize, Failed>
        ensures fits { IfOk result (λ n. n ≤ length piece.now) }
        ensures bytes { IfOk result (λ n. Appends (taken self.old) (taken self.new) (take n piece.now)) }
        ensures failed { OnErr result (Appends (taken self.old) (taken self.new) []) }

        // It fails only where a fault is counted, and so does one that takes nothing of a piece that isn't empty.
        ensures count { faults self.old ≤ faults self.new }
        ensures cause { OnErr result (Rose (faults self.old) (faults self.new)) }
        ensures stall { IfOk result (λ n. n ≡ 0 → 0 < length piece.now → Rose (faults self.old) (faults self.new)) }
        ensures room { IfSome (free self.old) (λ f. length piece.now ≤ f →
            IsOkAnd result (λ n. Fills n f (free self.new) (faults self.old) (faults self.new))) };

    /// A sink that tells its room has room for a fault in its count, so a fault would show.
    ghost below_last: { (s : Self) (f : ℕ) → free s ≡ Some f → faults s < 2 ^ 64 - 1 };
}

/// Writes all the bytes, and goes on after a short write. A write that takes nothing is a fault. Takes no memory.
/// The cost is in proportion to the bytes and the writes.
pub fn write_all<T: Sink>(out: &mut T, bytes: &[u8]) -> Result<(), Failed>
    ensures whole { OnOk result (Appends (T.taken out.old) (T.taken out.new) bytes.now) }
    ensures part { OnErr result (AppendsPart (T.taken out.old) (T.taken out.new) bytes.now) }

    // It fails only where the sink does.
    ensures count { T.faults out.old ≤ T.faults out.new }
    ensures cause { OnErr result (Rose (T.faults out.old) (T.faults out.new)) }
    ensures room { IfSome (T.free out.old) (λ f. length bytes.now ≤ f →
        IsOk result × Fills (length bytes.now) f (T.free out.new) (T.faults out.old) (T.faults out.new)) }
{
    let mut at = 0;
    while at < bytes.len() {
        let n = out.write(&bytes[at..])?;
        if n == 0 {
            return Err(Failed);
        }
        at += n;
    }
    Ok(())
}
