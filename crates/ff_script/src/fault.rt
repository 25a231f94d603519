//! Why bytes are no script.

ghost use Rattle.std.specs.Prelude.{◌≡◌};
ghost use Rattle.ff_script.specs.declared.fault.ScriptFault.TheVariants.{Memory};

use std::alloc::{AllocError, AllocFailed};

/// Why bytes give no statements. Lines are counted from 1.
#[derive(Clone, Copy, Debug, PartialEq, Eq)]
pub enum ScriptFault {
    /// The first line that isn't in the grammar.
    Syntax(u32),
    /// The first line whose statement may not stand there, where every line is in the grammar.
    Misplaced(u32),
    /// Memory ran out.
    Memory,
}

impl From<AllocError> for ScriptFault {
    ghost from_gives = { λ _ e. e ≡ Memory };

    fn from(_e: AllocError) -> ScriptFault {
        ScriptFault::Memory
    }
}

impl<T: Drop> From<AllocFailed<T>> for ScriptFault {
    ghost from_gives = { λ _ e. e ≡ Memory };

    fn from(_e: AllocFailed<T>) -> ScriptFault {
        ScriptFault::Memory
    }
}
