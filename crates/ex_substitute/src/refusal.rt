//! Why a step of a command isn't done.
ghost use Rattle.std.specs.Prelude.{◌≡◌};

use crate::ExError;
use syn_base::Memory;

/// A cause against the command, or want of memory.
#[derive(Drop)]
pub(crate) enum Refusal {
    Cause(ExError),
    Memory,
}

impl From<ExError> for Refusal {
    ghost use Rattle.ex_substitute.specs.declared.refusal.Refusal.TheVariants as refusal;

    ghost from_gives = { λ cause e. e ≡ refusal.Cause cause };

    fn from(cause: ExError) -> Refusal {
        Refusal::Cause(cause)
    }
}

impl From<Memory> for Refusal {
    ghost use Rattle.ex_substitute.specs.declared.refusal.Refusal.TheVariants as refusal;

    ghost from_gives = { λ _ e. e ≡ refusal.Memory };

    fn from(_: Memory) -> Refusal {
        Refusal::Memory
    }
}
