//! Scripts in pieces.
ghost use Rattle.std.specs.Prelude.{◌≡◌, ◌++◌, [], IfOk, OnErr, List, ℕ};
ghost use Rattle.edit_script.specs.Entries.{entries_of, entries_at_end, kept_of};

use crate::Entry;
use crate::reader::{Reader, before_line, end_last_line, push_unfinished, read};
use std::alloc::Global;
use std::marker::Model;
use syn_base::{List, Memory};

/// A script that is being read. What is seen of it is the number of lines that were answered or
/// skipped, and the bytes behind them.
#[derive(Drop)]
pub struct Script {
    alloc: Global,
    reader: Reader,
}

impl Model for Script {
    ghost use Rattle.edit_script.specs.Kept.{Kept};

    ghost Value = { Kept };

    ghost use Rattle.edit_script.specs.Reading.{IsReading, seen};

    ghost view = { λ s. seen s.reader };

    ghost invariant = { λ s. IsReading s.reader };
}

impl Script {
    /// A script of which nothing was read. It takes no memory.
    pub fn new(alloc: Global) -> Script
        ensures { result ≡ record { lines = 0; bytes = [] } }
    {
        Script {
            alloc,
            reader: Reader {
                place: before_line(0),
                bytes: Vec::new(alloc),
            },
        }
    }

    /// The entries that become whole with this piece: those whose last line is whole, with its line
    /// break, in what is kept followed by the piece. A command whose text has no dot yet waits.
    /// Lines are counted from 0. For want of memory nothing of the piece was taken, and the same
    /// piece may be fed again.
    pub fn feed(&mut self, piece: &[u8]) -> Result<List<Entry>, Memory>
        ensures entries { IfOk result (λ entries.
            entries ≡ entries_of self.old.lines (self.old.bytes ++ piece.now)) }
        ensures kept { IfOk result (λ _.
            self.new ≡ kept_of self.old.lines (self.old.bytes ++ piece.now)) }
        ensures unchanged { OnErr result (self.new ≡ self.old) }
        // However the bytes before were cut.
        ensures further { IfOk result (λ entries. (before : List ℕ) → self.old ≡ kept_of 0 before →
            entries_of 0 (before ++ piece.now) ≡ entries_of 0 before ++ entries) }
        ensures behind { IfOk result (λ _. (before : List ℕ) → self.old ≡ kept_of 0 before →
            self.new ≡ kept_of 0 (before ++ piece.now)) }
    {
        read(self.alloc, &mut self.reader, piece)
    }

    /// The entries of what is kept, where the script ends behind it.
    pub fn finish(self) -> Result<List<Entry>, Memory>
        ensures entries { IfOk result (λ entries. entries ≡ entries_at_end self.lines self.bytes) }
        // However the bytes before were cut.
        ensures further { IfOk result (λ entries. (before : List ℕ) → self ≡ kept_of 0 before →
            entries_at_end 0 before ≡ entries_of 0 before ++ entries) }
    {
        let Script { alloc, mut reader } = self;
        let mut entries = end_last_line(alloc, &mut reader)?;
        push_unfinished(alloc, reader, &mut entries)?;
        Ok(entries)
    }
}
