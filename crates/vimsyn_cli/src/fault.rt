//! Why a run ends without what it was asked, and the line that tells it.
ghost use Rattle.std.specs.Prelude.{◌≡◌};
ghost use Rattle.vimsyn_cli.specs.Report.{cause_status};

use crate::Status;
use std::alloc::AllocError;
use syn_base::{List, Memory};

/// The cause of a fault, as far as the run's status goes by it.
#[derive(Clone, Copy, Debug, PartialEq, Eq)]
pub(crate) enum FaultKind {
    /// There is no such file.
    Missing,
    /// A file can't be read.
    Unread,
    /// A file is longer than is read of one.
    TooLong,
    /// What a file holds is refused.
    Content,
}

/// A fault: its line, as it goes to `err`, and its cause.
#[derive(Drop)]
pub(crate) struct Fault {
    pub(crate) line: List<u8>,
    pub(crate) cause: FaultKind,
}

/// Why a run ends without what it was asked.
#[derive(Drop)]
pub(crate) enum Stop {
    Fault(Fault),
    Memory,
}

impl From<AllocError> for Stop {
    ghost use Rattle.vimsyn_cli.specs.declared.fault.Stop.TheVariants as stop;

    ghost from_gives = { λ _ e. e ≡ stop.Memory };

    fn from(_: AllocError) -> Stop {
        Stop::Memory
    }
}

impl From<Memory> for Stop {
    ghost use Rattle.vimsyn_cli.specs.declared.fault.Stop.TheVariants as stop;

    ghost from_gives = { λ _ e. e ≡ stop.Memory };

    fn from(_: Memory) -> Stop {
        Stop::Memory
    }
}

impl FaultKind {
    /// The status that goes with it.
    pub(crate) fn status(self) -> Status
        ensures { result ≡ cause_status self }
    {
        match self {
            FaultKind::Missing | FaultKind::Unread => Status::ReadFault,
            FaultKind::TooLong | FaultKind::Content => Status::Refused,
        }
    }
}
