//! Why a text can't be read, or has no value.

ghost use Rattle.std.specs.Prelude.{◌≡◌};
ghost use Rattle.ff_text.specs.declared.fault.TextFault.TheVariants.{Memory};

use std::alloc::{AllocError, AllocFailed};

/// What keeps a text from being read.
#[derive(Clone, Copy, Debug, PartialEq, Eq)]
pub enum TextFault {
    /// No spelling begins there. The bytes before this column are the most that begin one.
    Syntax(usize),
    /// A written code that is the size of the field or more.
    CodeRange(u32),
    /// Memory ran out.
    Memory,
}

impl<T: Drop> From<AllocFailed<T>> for TextFault {
    ghost from_gives = { λ _ e. e ≡ Memory };

    fn from(_e: AllocFailed<T>) -> TextFault {
        TextFault::Memory
    }
}

impl From<AllocError> for TextFault {
    ghost from_gives = { λ _ e. e ≡ Memory };

    fn from(_e: AllocError) -> TextFault {
        TextFault::Memory
    }
}
