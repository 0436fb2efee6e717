//! Why something was not added to a syntax.

use std::alloc::{AllocError, AllocFailed};
use syn_base::Memory;

/// Why an item or a group was not added.
#[derive(Clone, Copy, Debug, PartialEq, Eq)]
pub enum SetError {
    /// There are as many items as may be.
    TooManyItems,
    /// There are as many groups as may be.
    TooManyGroups,
    /// Want of memory.
    Memory,
}

impl From<Memory> for SetError {
    ghost use Rattle.std.specs.Prelude.{◌≡◌};
    ghost use Rattle.syntax_set.specs.declared.set_error.SetError.TheVariants as cause;

    ghost from_gives = { λ _ e. e ≡ cause.Memory };

    fn from(_: Memory) -> SetError {
        SetError::Memory
    }
}

impl From<AllocError> for SetError {
    ghost use Rattle.std.specs.Prelude.{◌≡◌};
    ghost use Rattle.syntax_set.specs.declared.set_error.SetError.TheVariants as cause;

    ghost from_gives = { λ _ e. e ≡ cause.Memory };

    fn from(_: AllocError) -> SetError {
        SetError::Memory
    }
}

impl<T: Drop> From<AllocFailed<T>> for SetError {
    ghost use Rattle.std.specs.Prelude.{◌≡◌};
    ghost use Rattle.syntax_set.specs.declared.set_error.SetError.TheVariants as cause;

    ghost from_gives = { λ _ e. e ≡ cause.Memory };

    fn from(_: AllocFailed<T>) -> SetError {
        SetError::Memory
    }
}
