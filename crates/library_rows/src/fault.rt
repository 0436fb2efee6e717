//! Why a line has no answer, and what arguments stand for.

use keyword_table::KeywordError;
use std::alloc::{AllocError, AllocFailed};
use syn_base::Memory;
use syntax_set::SetError;
use text_buffer::TextError;
use vim_pattern::PatternError;

/// Why a line has no answer: it is no call, or for want of memory.
#[derive(Clone, Copy, Debug)]
pub(crate) enum Fault {
    BadCase,
    Memory,
}

impl From<Memory> for Fault {
    fn from(_: Memory) -> Fault {
        Fault::Memory
    }
}

impl From<AllocError> for Fault {
    fn from(_: AllocError) -> Fault {
        Fault::Memory
    }
}

impl<T: Drop> From<AllocFailed<T>> for Fault {
    fn from(_: AllocFailed<T>) -> Fault {
        Fault::Memory
    }
}

impl From<SetError> for Fault {
    /// A table that is full is no case of this program.
    fn from(error: SetError) -> Fault {
        match error {
            SetError::Memory => Fault::Memory,
            SetError::TooManyItems | SetError::TooManyGroups => Fault::BadCase,
        }
    }
}

impl From<KeywordError> for Fault {
    fn from(error: KeywordError) -> Fault {
        match error {
            KeywordError::TooLongWord => Fault::BadCase,
            KeywordError::Memory => Fault::Memory,
        }
    }
}

impl From<TextError> for Fault {
    fn from(error: TextError) -> Fault {
        match error {
            TextError::Memory => Fault::Memory,
            _ => Fault::BadCase,
        }
    }
}

impl From<PatternError> for Fault {
    fn from(error: PatternError) -> Fault {
        match error {
            PatternError::At { .. } => Fault::BadCase,
            PatternError::Memory => Fault::Memory,
        }
    }
}

/// A number.
pub(crate) fn number_of(text: &str) -> Result<usize, Fault> {
    text.parse().ok().ok_or(Fault::BadCase)
}

/// A number of 32 bits.
pub(crate) fn short_number_of(text: &str) -> Result<u32, Fault> {
    text.parse().ok().ok_or(Fault::BadCase)
}

/// The one character of a text.
pub(crate) fn character_of(text: &str) -> Result<char, Fault> {
    let mut characters = text.chars();
    match (characters.next(), characters.next()) {
        (Some(c), None) => Ok(c),
        _ => Err(Fault::BadCase),
    }
}

/// The two words of a text with one blank.
pub(crate) fn two_of(text: &str) -> Result<(&str, &str), Fault> {
    text.split_once(' ').ok_or(Fault::BadCase)
}

/// Two numbers with a dash between them, as `1-4`.
pub(crate) fn range_of(text: &str) -> Result<(usize, usize), Fault> {
    let (a, b) = text.split_once('-').ok_or(Fault::BadCase)?;
    Ok((number_of(a)?, number_of(b)?))
}
