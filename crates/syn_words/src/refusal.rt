//! Why words were not read.
ghost use Rattle.std.specs.Prelude.{◌≡◌};

use crate::Cause;
use std::alloc::{AllocError, AllocFailed};
use syn_base::Memory;

/// Why words were not read.
#[derive(Drop)]
pub(crate) enum WordRefusal {
    Fault(Cause),
    Memory,
}

impl From<Cause> for WordRefusal {
    ghost use Rattle.syn_words.specs.declared.refusal.WordRefusal.TheVariants as refusal;

    ghost from_gives = { λ cause e. e ≡ refusal.Fault cause };

    fn from(cause: Cause) -> WordRefusal {
        WordRefusal::Fault(cause)
    }
}

impl From<Memory> for WordRefusal {
    ghost use Rattle.syn_words.specs.declared.refusal.WordRefusal.TheVariants as refusal;

    ghost from_gives = { λ _ e. e ≡ refusal.Memory };

    fn from(_: Memory) -> WordRefusal {
        WordRefusal::Memory
    }
}

impl From<AllocError> for WordRefusal {
    ghost use Rattle.syn_words.specs.declared.refusal.WordRefusal.TheVariants as refusal;

    ghost from_gives = { λ _ e. e ≡ refusal.Memory };

    fn from(_: AllocError) -> WordRefusal {
        WordRefusal::Memory
    }
}

impl<T: Drop> From<AllocFailed<T>> for WordRefusal {
    ghost use Rattle.syn_words.specs.declared.refusal.WordRefusal.TheVariants as refusal;

    ghost from_gives = { λ _ e. e ≡ refusal.Memory };

    fn from(_: AllocFailed<T>) -> WordRefusal {
        WordRefusal::Memory
    }
}
