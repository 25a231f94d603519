//! How a command ended.

ghost use Rattle.std.specs.Prelude.{◌≡◌};
ghost use Rattle.ff_program.specs.Numbers.{status_number};

/// How a command ended.
#[derive(Clone, Copy, Debug, PartialEq, Eq)]
pub enum Status {
    Done,
    Refused,
    Usage,
    ReadFault,
    WriteFault,
    WantOfMemory,
    /// A transcript isn't valid: the answer of a check, which no command gives yet.
    CheckNo,
}

impl Status {
    /// The exit status of the program, from 0 on in the order of the variants.
    pub fn number(self) -> u8
        ensures { result ≡ status_number self }
    {
        match self {
            Status::Done => 0,
            Status::Refused => 1,
            Status::Usage => 2,
            Status::ReadFault => 3,
            Status::WriteFault => 4,
            Status::WantOfMemory => 5,
            Status::CheckNo => 6,
        }
    }
}
