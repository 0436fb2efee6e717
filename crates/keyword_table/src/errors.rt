//! Why a keyword isn't added or expanded.

ghost use Rattle.std.specs.Prelude.{◌≡◌};

use std::alloc::{AllocError, AllocFailed};
use syn_base::Memory;

/// Why a keyword was not added.
#[derive(Clone, Copy, Debug, PartialEq, Eq)]
pub enum KeywordError {
    /// The word has more than 80 characters.
    TooLongWord,
    /// Want of memory.
    Memory,
}

impl From<AllocError> for KeywordError {
    ghost use Rattle.keyword_table.specs.declared.errors.KeywordError.TheVariants as cause;

    ghost from_gives = { λ _ e. e ≡ cause.Memory };

    fn from(_: AllocError) -> KeywordError {
        KeywordError::Memory
    }
}

impl<T: Drop> From<AllocFailed<T>> for KeywordError {
    ghost use Rattle.keyword_table.specs.declared.errors.KeywordError.TheVariants as cause;

    ghost from_gives = { λ _ e. e ≡ cause.Memory };

    fn from(_: AllocFailed<T>) -> KeywordError {
        KeywordError::Memory
    }
}

/// Why a keyword was not expanded.
#[derive(Clone, Copy, Debug, PartialEq, Eq)]
pub enum ExpandError {
    /// The first `[` begins no optional part that ends the text.
    BadBrackets,
    /// Want of memory.
    Memory,
}

impl From<Memory> for ExpandError {
    ghost use Rattle.keyword_table.specs.declared.errors.ExpandError.TheVariants as cause;

    ghost from_gives = { λ _ e. e ≡ cause.Memory };

    fn from(_: Memory) -> ExpandError {
        ExpandError::Memory
    }
}
