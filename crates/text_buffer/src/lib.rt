//! A text in memory: its lines, as lists of characters.
//!
//! Bytes become a text line by line. A line break is found by `memchr` and a line is checked by
//! `simdutf8`, while the definition that both meet splits the whole list of bytes.
#![tactic(auto)]

ghost use Rattle.std.specs.Prelude.{◌≡◌, ◌≢◌, ◌<◌, ◌≤◌, Ok, Err, IfOk, IfErr, OnOk, OnErr, length};
ghost use Rattle.text_buffer.specs.BytesOfText.{bytes_of};
ghost use Rattle.text_buffer.specs.TextOfBytes.{line_of_fault, most_lines, text_of};
ghost use Rattle.text_buffer.specs.TextSeen.{replaced};

mod reading;
mod writing;

use chunk_list::ChunkList;
pub use reading::{line_end, line_of_bytes};
use std::alloc::{AllocFailed, Global};
use std::marker::Model;
use syn_base::{Lines, List, Memory};

/// The most lines that a text has.
pub const MOST_LINES: usize = 2_000_000;

/// The most characters that a line has when it is read.
pub const MOST_CHARS: usize = 1_000_000;

/// LF, which ends a line. CR is a character.
pub const LINE_BREAK: u8 = 10;

/// A line of a text: its characters, without the line break.
pub type Line = List<char>;

/// Why bytes are no line.
#[derive(Clone, Copy, Debug, PartialEq, Eq)]
pub enum LineFault {
    NotUtf8,
    TooLong,
}

/// Why bytes are no text. Lines are counted from 0.
#[derive(Clone, Copy, Debug, PartialEq, Eq)]
pub enum TextError {
    /// The line of the first byte that isn't UTF-8.
    BadUtf8 { line: usize },
    TooManyLines,
    LineTooLong { line: usize },
    Memory,
}

impl From<Memory> for TextError {
    ghost use Rattle.text_buffer.specs.declared.TextError.TheVariants as cause;

    ghost from_gives = { λ _ e. e ≡ cause.Memory };

    fn from(_: Memory) -> TextError {
        TextError::Memory
    }
}

impl<T: Drop> From<AllocFailed<T>> for TextError {
    ghost use Rattle.text_buffer.specs.declared.TextError.TheVariants as cause;

    ghost from_gives = { λ _ e. e ≡ cause.Memory };

    fn from(_: AllocFailed<T>) -> TextError {
        TextError::Memory
    }
}

/// A text: one to 2,000,000 lines. Contracts see its lines, and `spare`, the number of further lines
/// for which room was made.
#[derive(Drop)]
pub struct Text {
    lines: ChunkList<Line>,
}

impl Model for Text {
    ghost use Rattle.std.specs.Prelude.{◌<◌, ◌≤◌, length};
    ghost use Rattle.text_buffer.specs.TextOfBytes.{most_lines};
    ghost use Rattle.text_buffer.specs.TextSeen.{TextSeen};

    ghost Value = { TextSeen };

    ghost view = { λ t. record { lines = t.lines.0; spare = t.lines.1 } };

    ghost invariant = { λ t. (0 < length t.lines.0) × (length t.lines.0 ≤ most_lines) };
}

impl Text {
    /// The text of these bytes. Of its faults that in the least line is answered; in one line a byte
    /// that isn't UTF-8 comes before a line too long, and that before a line too many.
    pub fn from_bytes(alloc: Global, bytes: &[u8]) -> Result<Text, TextError>
        ensures text { IfOk result (λ text. text_of bytes.now ≡ Ok text.lines) }
        ensures fault { IfErr result (λ fault. fault ≢ TextError.Memory
            → text_of bytes.now ≡ Err fault) }
        // The line of a fault is at most the one that is one too many.
        ensures near { IfErr result (λ fault. line_of_fault fault ≤ most_lines) }
    {
        Ok(Text {
            lines: reading::read_lines(alloc, bytes)?,
        })
    }

    /// The bytes of the text: each line, and behind it a line break.
    pub fn to_bytes(&self, alloc: Global) -> Result<List<u8>, Memory>
        ensures { IfOk result (λ bytes. bytes ≡ bytes_of self.now.lines) }
    {
        writing::write_lines(alloc, &self.lines)
    }

    /// A text of the same lines.
    pub fn copy(&self, alloc: Global) -> Result<Text, Memory>
        ensures { IfOk result (λ text. text.lines ≡ self.now.lines) }
    {
        Ok(Text {
            lines: writing::copy_lines(alloc, &self.lines)?,
        })
    }

    /// Makes room for so many further lines, so that `spare` is at least that number.
    pub fn reserve_lines(&mut self, extra: usize) -> Result<(), Memory>
        ensures lines { self.new.lines ≡ self.old.lines }
        ensures spare { OnOk result (extra ≤ self.new.spare) }
        ensures refused { OnErr result (self.new ≡ self.old) }
    {
        self.lines.reserve(extra)
    }

    /// Lines `a` to `b - 1`, from 0, become `new`. For want of memory all is as it was.
    pub fn replace(&mut self, a: usize, b: usize, new: List<Line>) -> Result<(), Memory>
        requires ordered { a ≤ b }
        requires inside { b ≤ length self.old.lines }
        requires some { 0 < length (replaced self.old.lines a b new) }
        requires few { length (replaced self.old.lines a b new) ≤ most_lines }
        ensures lines { OnOk result (self.new.lines ≡ replaced self.old.lines a b new) }
        ensures refused { OnErr result (self.new ≡ self.old) }
    {
        self.reserve_lines(new.len())?;
        self.replace_reserved(a, b, new);
        Ok(())
    }

    /// The same where room was made for the new lines. It takes no memory.
    pub fn replace_reserved(&mut self, a: usize, b: usize, new: List<Line>)
        requires ordered { a ≤ b }
        requires inside { b ≤ length self.old.lines }
        requires room { length new ≤ self.old.spare }
        requires some { 0 < length (replaced self.old.lines a b new) }
        requires few { length (replaced self.old.lines a b new) ≤ most_lines }
        ensures { self.new.lines ≡ replaced self.old.lines a b new }
    {
        self.lines.replace_reserved(a, b, new);
    }
}

impl Lines for Text {
    ghost lines = { λ t. t.lines };

    fn len(&self) -> usize {
        self.lines.len()
    }

    fn line(&self, i: usize) -> &[char] {
        self.lines.get(i).as_slice()
    }
}
