//! Laws of what a run prints, each stated by a function with an empty body.

ghost use Rattle.std.specs.Prelude.{◌≡◌, ℕ, ◌≤◌, ◌↔◌, List, length, Bool, true, false};
ghost use Rattle.function_field.specs.Limits.{max_script};
ghost use Rattle.ff_io.specs.Streams.{IsPrefix};
ghost use Rattle.ff_program.specs.Commands.{IsAnsweredWhole};
ghost use Rattle.ff_program.specs.declared.status.Status.TheVariants.{Done, Refused};
ghost use Rattle.ff_program.specs.Output.{IsOutput, IsBegun};
ghost use Rattle.ff_program.specs.Printing.{Prints, EndsAs};

use ff_io::sink::Sink;

/// A law: bytes have one output at most, which is finished exactly where each statement of their script has its true
/// block, and what a run over them has printed between two pieces begins it. So where there is room for the output,
/// there is room for all that a run can print.
pub fn one_output()
    ensures one { (bytes text other : List ℕ) (finished over : Bool)
        → IsOutput bytes text finished → IsOutput bytes other over → (text ≡ other) × (finished ≡ over) }
    ensures begins { (bytes text whole : List ℕ) (finished : Bool)
        → IsBegun bytes text → IsOutput bytes whole finished → IsPrefix text whole }
    ensures answered { (bytes text : List ℕ) (finished : Bool) → length bytes ≤ max_script
        → IsOutput bytes text finished → (finished ≡ true) ↔ IsAnsweredWhole bytes text }
    ensures room { (bytes whole : List ℕ) (finished : Bool) (room : ℕ)
        → IsOutput bytes whole finished → length whole ≤ room
        → (text : List ℕ) → IsBegun bytes text → length text ≤ room }
{}

/// A law: a run that ends with `Done` or `Refused` printed the one output; with `Done` it is finished, with
/// `Refused` it isn't. So `Done` comes exactly where each statement is answered, up to `end N`.
pub fn one_end<T: Sink>(old: &T, new: &T)
    ensures done { (bytes text : List ℕ) (finished : Bool) → IsOutput bytes text finished
        → EndsAs T.taken T.faults T.free (IsOutput bytes) (IsBegun bytes) old.now new.now Done
        → (finished ≡ true) × Prints T.taken T.faults T.free old.now new.now text }
    ensures refused { (bytes text : List ℕ) (finished : Bool) → IsOutput bytes text finished
        → EndsAs T.taken T.faults T.free (IsOutput bytes) (IsBegun bytes) old.now new.now Refused
        → (finished ≡ false) × Prints T.taken T.faults T.free old.now new.now text }
{}
