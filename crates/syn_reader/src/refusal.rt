//! Why a command was not carried out.
ghost use Rattle.std.specs.Prelude.{◌≡◌};

use std::alloc::{AllocError, AllocFailed};
use syn_base::Memory;
use syn_words::Cause;
use syntax_set::SetError;

/// Why a command was not carried out.
#[derive(Drop)]
pub(crate) enum Refusal {
    Fault(Cause),
    Memory,
}

impl From<SetError> for Refusal {
    ghost use Rattle.syn_reader.specs.Answers.{refusal_of};

    ghost from_gives = { λ error e. e ≡ refusal_of error };

    fn from(error: SetError) -> Refusal {
        match error {
            SetError::TooManyItems => Refusal::Fault(Cause::TooManyItems),
            SetError::TooManyGroups => Refusal::Fault(Cause::TooManyGroups),
            SetError::Memory => Refusal::Memory,
        }
    }
}

impl From<Memory> for Refusal {
    ghost use Rattle.syn_reader.specs.declared.refusal.Refusal.TheVariants as refusal;

    ghost from_gives = { λ _ e. e ≡ refusal.Memory };

    fn from(_: Memory) -> Refusal {
        Refusal::Memory
    }
}

impl From<AllocError> for Refusal {
    ghost use Rattle.syn_reader.specs.declared.refusal.Refusal.TheVariants as refusal;

    ghost from_gives = { λ _ e. e ≡ refusal.Memory };

    fn from(_: AllocError) -> Refusal {
        Refusal::Memory
    }
}

impl<T: Drop> From<AllocFailed<T>> for Refusal {
    ghost use Rattle.syn_reader.specs.declared.refusal.Refusal.TheVariants as refusal;

    ghost from_gives = { λ _ e. e ≡ refusal.Memory };

    fn from(_: AllocFailed<T>) -> Refusal {
        Refusal::Memory
    }
}
