//! How files, script and sinks of a session behave.

ghost use Rattle.std.specs.Prelude.{◌<◌};

use crate::mistake::{Mistake, Unread};
use crate::text::number_of;
use std::alloc::Global;

/// The most bytes that one call moves, and how many there is room for, where nothing else is said.
const AMPLE: usize = 1_000_000;

/// How the calls of the files, the script or a sink behave. Files have a use for neither `most` nor
/// `room`, and the script has none for `room`.
#[derive(Drop)]
pub(crate) struct Behaviour {
    /// The most bytes that one call moves.
    pub(crate) most: usize,
    /// How many bytes there is room for.
    pub(crate) room: usize,
    /// The numbers of the calls that fail, from 1.
    pub(crate) failing: Vec<u64>,
    /// Whether the call fails whose number the session gives each of its runs.
    pub(crate) fails_each: bool,
    ghost some: { 0 < most },
}

impl Behaviour {
    /// Calls that move much and never fail.
    pub(crate) fn ample(alloc: Global) -> Behaviour {
        Behaviour {
            most: AMPLE,
            room: AMPLE,
            failing: Vec::new(alloc),
            fails_each: false,
        }
    }

    /// Fails at these calls.
    pub(crate) fn fail_at(&mut self, calls: &[u64]) -> Result<(), Unread> {
        self.failing.extend_from_slice(calls)?;
        Ok(())
    }

    /// Moves at most so many bytes at a call.
    pub(crate) fn set_most(&mut self, most: usize) -> Result<(), Mistake> {
        if most == 0 {
            return Err(Mistake::Number);
        }
        self.most = most;
        Ok(())
    }
}

/// Of which it is said how their calls behave.
#[derive(Clone, Copy)]
pub(crate) struct Channels {
    pub(crate) files: bool,
    pub(crate) script: bool,
    pub(crate) out: bool,
    pub(crate) err: bool,
}

impl Channels {
    /// Whether there is none.
    fn is_empty(&self) -> bool {
        !(self.files || self.script || self.out || self.err)
    }
}

/// What a line says of channels: which they are, and the numbers behind their names.
#[derive(Drop)]
pub(crate) struct Said {
    pub(crate) channels: Channels,
    pub(crate) numbers: Vec<u64>,
}

impl Said {
    /// The names and the numbers of a line, which blanks part.
    pub(crate) fn read(alloc: Global, text: &[u8]) -> Result<Said, Unread> {
        let mut said = Said {
            channels: Channels {
                files: false,
                script: false,
                out: false,
                err: false,
            },
            numbers: Vec::new(alloc),
        };
        for word in text.split(|byte: &u8| *byte == b' ') {
            said.add(word)?;
        }
        if said.channels.is_empty() {
            return Err(Unread::Mistake(Mistake::Channel));
        }
        if said.numbers.is_empty() {
            return Err(Unread::Mistake(Mistake::Number));
        }
        Ok(said)
    }

    /// One more name or number.
    fn add(&mut self, word: &[u8]) -> Result<(), Unread> {
        match word {
            b"" => {}
            b"files" => self.channels.files = true,
            b"script" => self.channels.script = true,
            b"out" => self.channels.out = true,
            b"err" => self.channels.err = true,
            _ => match number_of(word) {
                Some(number) => self.numbers.push(number as u64)?,
                None => return Err(Unread::Mistake(Mistake::Channel)),
            },
        }
        Ok(())
    }

    /// The one number that is said, which is no call's.
    pub(crate) fn amount(&self) -> Result<usize, Mistake> {
        match self.numbers.as_slice() {
            [amount] => usize::try_from(*amount).ok().ok_or(Mistake::Number),
            _ => Err(Mistake::Number),
        }
    }
}
