//! How a run ends.

/// How a run ends.
#[derive(Clone, Copy, Debug, PartialEq, Eq)]
pub enum Status {
    /// All was printed.
    Done,
    /// What a file holds is refused, or a file or the script is too long; `err` has the line that
    /// tells it. Or a command of the script was refused, which `out` tells.
    Refused,
    /// The words aren't in the table of words.
    Usage,
    /// A file is absent, or a file or the script can't be read.
    ReadFault,
    /// A write failed.
    WriteFault,
    /// Want of memory.
    Memory,
}

impl Status {
    ghost use Rattle.std.specs.Prelude.{◌≡◌};
    ghost use Rattle.vimsyn_cli.specs.Statuses.{exit_status};

    /// The exit status of a program that ends so.
    pub fn code(self) -> u8
        ensures { result ≡ exit_status self }
    {
        match self {
            Status::Done => 0,
            Status::Refused => 1,
            Status::Usage => 2,
            Status::ReadFault => 3,
            Status::WriteFault => 4,
            Status::Memory => 5,
        }
    }
}
