//! The outside: files that are read whole, a source of bytes and a sink for them.
//!
//! Each answer that isn't success has a count, which rises where that answer comes and nowhere
//! else. So a caller can say 'a read fault only where a read failed' without knowing what is
//! behind the trait. Here a count rises when it is greater after the call or stands at 2^64 - 1.
ghost use Rattle.std.specs.Prelude.{◌≡◌, ◌<◌, ℕ, List, length};
ghost use Rattle.std.specs.declared.option.Option.{Option};
ghost use Rattle.syn_base.specs.Causes.{Counted};
ghost use Rattle.syn_base.specs.Outside.{FileMap, Fetches, Takes, Puts, is_failed, is_missing, is_too_long, is_failed_take, is_failed_put};

use crate::List;
use std::alloc::Global;

/// What a fetch of a file answers.
#[derive(Drop)]
pub enum Fetched {
    Whole(List<u8>),
    Missing,
    TooLong,
    Failed,
    Memory,
}

/// Files by name.
pub trait Files {
    /// The files, where they are told.
    ghost told: { Self → Option FileMap };

    /// How often a file couldn't be read.
    ghost faults: { Self → ℕ };

    /// How often there was no file of the name that was asked for.
    ghost misses: { Self → ℕ };

    /// How often a file was longer than was asked for.
    ghost longs: { Self → ℕ };

    /// The whole file of that name, if it has at most `limit` bytes.
    fn fetch(&mut self, alloc: Global, name: &str, limit: usize) -> Fetched
        ensures kept { told self.new ≡ told self.old }
        ensures answer { Fetches (told self.old) name.now limit result }
        ensures faults { Counted (is_failed result) (faults self.old) (faults self.new) }
        ensures misses { Counted (is_missing result) (misses self.old) (misses self.new) }
        ensures longs { Counted (is_too_long result) (longs self.old) (longs self.new) };
}

/// What a read from a source answers: how many bytes came, none at the end.
#[derive(Clone, Copy, Debug, PartialEq, Eq)]
pub enum Taken {
    Bytes(usize),
    Failed,
}

/// Bytes to come.
pub trait Source {
    /// The bytes still to come, where they are told.
    ghost left: { Self → Option (List ℕ) };

    /// How often a read failed.
    ghost faults: { Self → ℕ };

    /// The next bytes, put into the front of the buffer. A read that fails takes nothing.
    fn take(&mut self, buf: &mut [u8]) -> Taken
        requires { 0 < length buf.old }
        ensures answer { Takes (left self.old) (left self.new) buf.new result }
        ensures faults { Counted (is_failed_take result) (faults self.old) (faults self.new) };
}

/// What a write to a sink answers: how many bytes it took, at least one.
#[derive(Clone, Copy, Debug, PartialEq, Eq)]
pub enum Put {
    Bytes(usize),
    Failed,
}

/// A place to write to.
pub trait Sink {
    /// The bytes so far, where they are told.
    ghost written: { Self → Option (List ℕ) };

    /// How often a write failed.
    ghost faults: { Self → ℕ };

    /// Appends some of the piece, from its front. A write that fails appends nothing.
    fn put(&mut self, piece: &[u8]) -> Put
        requires { 0 < length piece.now }
        ensures answer { Puts (written self.old) (written self.new) piece.now result }
        ensures faults { Counted (is_failed_put result) (faults self.old) (faults self.new) };
}
