//! What is mistaken in a session.

use std::alloc::{AllocError, AllocFailed};
use std::{fmt, io};
use syn_base::Memory;

/// What is mistaken in a line.
#[derive(Clone, Copy, Debug, PartialEq, Eq)]
pub(crate) enum Mistake {
    /// The line begins with none of the words of a session.
    Verb,
    /// It speaks of nothing, or of something of which this isn't said.
    Channel,
    /// A number is missing or none, or there are more than one where one is asked for.
    Number,
    /// A backslash begins no escape.
    Escape,
    /// A repetition has no count, or doesn't end.
    Repetition,
    /// A repetition, or the end of one, stands where none may.
    Nested,
    /// A text is longer than `text::MOST_BYTES`.
    TooLong,
    /// A word or the name of a file isn't UTF-8.
    Utf8,
    /// A further line stands before any file and script.
    Further,
}

impl fmt::Display for Mistake {
    fn fmt<W: fmt::Write>(&self, f: &mut fmt::Formatter<W>) -> fmt::Result {
        let text = match self {
            Mistake::Verb => "no line of a session",
            Mistake::Channel => "not said of this",
            Mistake::Number => "bad number",
            Mistake::Escape => "bad escape",
            Mistake::Repetition => "bad repetition",
            Mistake::Nested => "repetition in a repetition, or the end of none",
            Mistake::TooLong => "text too long",
            Mistake::Utf8 => "word not utf-8",
            Mistake::Further => "further line of nothing",
        };
        write!(f, "{text}")
    }
}

/// Why a line isn't read: what is mistaken in it, or want of memory.
#[derive(Clone, Copy, Debug)]
pub(crate) enum Unread {
    Mistake(Mistake),
    Memory,
}

impl From<Mistake> for Unread {
    fn from(mistake: Mistake) -> Unread {
        Unread::Mistake(mistake)
    }
}

impl From<Memory> for Unread {
    fn from(_: Memory) -> Unread {
        Unread::Memory
    }
}

impl From<AllocError> for Unread {
    fn from(_: AllocError) -> Unread {
        Unread::Memory
    }
}

impl<T: Drop> From<AllocFailed<T>> for Unread {
    fn from(_: AllocFailed<T>) -> Unread {
        Unread::Memory
    }
}

impl From<io::Error> for Unread {
    /// What is written goes into memory, which fails for want of it alone.
    fn from(_: io::Error) -> Unread {
        Unread::Memory
    }
}

/// Want of memory, as a fault of a program.
pub(crate) fn out_of_memory() -> io::Error {
    io::Error::from(io::ErrorKind::OutOfMemory)
}
