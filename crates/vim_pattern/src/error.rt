//! Why a pattern was not read.
ghost use Rattle.std.specs.Prelude.{◌≡◌};

use crate::PatternCause;
use std::alloc::{AllocError, AllocFailed};
use syn_base::Memory;

/// Why a pattern was not read.
#[derive(Drop)]
pub enum PatternError {
    /// The pattern has no tree: the place of the offending character, in characters from 0, and
    /// the cause.
    At { at: usize, cause: PatternCause },
    Memory,
}

impl From<Memory> for PatternError {
    ghost use Rattle.vim_pattern.specs.declared.error.PatternError.TheVariants as error;

    ghost from_gives = { λ _ e. e ≡ error.Memory };

    fn from(_: Memory) -> PatternError {
        PatternError::Memory
    }
}

impl From<AllocError> for PatternError {
    ghost use Rattle.vim_pattern.specs.declared.error.PatternError.TheVariants as error;

    ghost from_gives = { λ _ e. e ≡ error.Memory };

    fn from(_: AllocError) -> PatternError {
        PatternError::Memory
    }
}

impl<T: Drop> From<AllocFailed<T>> for PatternError {
    ghost use Rattle.vim_pattern.specs.declared.error.PatternError.TheVariants as error;

    ghost from_gives = { λ _ e. e ≡ error.Memory };

    fn from(_: AllocFailed<T>) -> PatternError {
        PatternError::Memory
    }
}
