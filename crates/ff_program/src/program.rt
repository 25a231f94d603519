//! The commands of the program.

ghost use Rattle.std.specs.Prelude.{◌≡◌, ℕ, List, ◌≤◌, ◌↔◌, length, map, IsTrue, string_bytes};
ghost use Rattle.std.specs.Option.{ForSome};
ghost use Rattle.ff_io.specs.Streams.{Rose};
ghost use Rattle.ff_program.specs.Commands.{IsRun, IsAnsweredWhole, IsFaultless, RunEnds, usage_line};
ghost use Rattle.ff_program.specs.Output.{IsBegun};
ghost use Rattle.ff_program.specs.Printing.{BreaksOff, EndsWith, Prints};

use crate::run::{close, run};
use crate::status::Status;
use ff_io::sink::Sink;
use ff_io::source::Source;
use std::alloc::Global;

/// Are the words the command `run`?
fn is_run(words: &[String]) -> bool
    ensures { IsTrue result ↔ IsRun (map string_bytes words.now) }
{
    match words {
        [word] => word.as_str() == "run",
        _ => false,
    }
}

/// Does what the words after the program's own name ask for. With the word `run` it reads a script from the source to
/// its end, and prints to the sink a true answer to each statement, up to the first that is refused. Other words print
/// the usage line; then nothing is read, and no memory is taken. Of bytes the clauses speak where the source and the
/// sink tell them. `WantOfMemory` may come at any moment.
///
/// Reading and parsing take time in proportion to the bytes; a product takes the square of the degrees.
pub fn top<S: Source, T: Sink>(alloc: Global, words: &[String], src: &mut S, out: &mut T) -> Status
    // Usage comes exactly where the words are no command.
    ensures usage { result ≡ Status.Usage → ¬ IsRun (map string_bytes words.now) }
    ensures no_command { ¬ IsRun (map string_bytes words.now) →
        (src.new ≡ src.old) × EndsWith T.taken T.faults T.free out.old out.new usage_line Status.Usage result }
    ensures no_check { ¬ (result ≡ Status.CheckNo) }

    // What is printed is the output of the bytes that the source had left, which were read to their end.
    ensures done { result ≡ Status.Done → ForSome (S.left src.old) (λ bytes.
        RunEnds S.left S.faults T.taken T.faults T.free bytes src.new out.old out.new Status.Done) }
    ensures refused { result ≡ Status.Refused → ForSome (S.left src.old) (λ bytes.
        RunEnds S.left S.faults T.taken T.faults T.free bytes src.new out.old out.new Status.Refused) }

    // After Done each statement of the script has its true block.
    ensures truth { result ≡ Status.Done → ForSome (S.left src.old) (λ bytes.
        (text : List ℕ) × IsAnsweredWhole bytes text × Prints T.taken T.faults T.free out.old out.new text) }

    // A fault comes only where the source or the sink counted one; what was printed begins an output of the bytes.
    ensures read_fault { result ≡ Status.ReadFault → Rose (S.faults src.old) (S.faults src.new) × (out.new ≡ out.old) }
    ensures write_fault { result ≡ Status.WriteFault → Rose (T.faults out.old) (T.faults out.new) }
    ensures broken_off { result ≡ Status.WriteFault → IsRun (map string_bytes words.now)
        → ForSome (S.left src.old) (λ bytes.
        (text : List ℕ) × IsBegun bytes text × BreaksOff T.taken T.faults T.free out.old out.new text) }
    ensures stopped { result ≡ Status.WantOfMemory → ForSome (S.left src.old) (λ bytes.
        (text : List ℕ) × IsBegun bytes text × Prints T.taken T.faults T.free out.old out.new text) }

    // A steady source and a sink with room enough give no fault.
    ensures stays_steady { S.steady src.old → (S.faults src.new ≡ S.faults src.old) × S.steady src.new }
    ensures faultless { IsRun (map string_bytes words.now) → S.steady src.old → ForSome (S.left src.old) (λ bytes.
        ForSome (T.free out.old) (λ room. ((text : List ℕ) → IsBegun bytes text → length text ≤ room) →
        IsFaultless S.left S.faults T.taken T.faults T.free bytes room out.old out.new result)) }
{
    if !is_run(words) {
        return close(
            out,
            b"usage: ff run [--bare] | ff check | ff sample N\n",
            Status::Usage,
        );
    }
    run(alloc, src, out)
}
