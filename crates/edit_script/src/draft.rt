//! Lines of bytes, and a command with the lines of its text.
ghost use Rattle.std.specs.Prelude.{◌≡◌, ◌++◌, ◌∷◌, [], IfOk, OnOk, OnErr, List, ℕ, Ok, map};
ghost use Rattle.std.specs.Str.{chars};
ghost use Rattle.edit_script.specs.CommandLine as spec;
ghost use Rattle.edit_script.specs.CommandLine.{line_head};
ghost use Rattle.edit_script.specs.Entries.{entry, whole_lines, with_order};
ghost use Rattle.edit_script.specs.Reading.{IsTextOf, with_fault};

use crate::head::{Head, Order, head_of};
use crate::{EditCommand, Entry, ScriptFault};
use memchr::memchr;
use std::alloc::Global;
use syn_base::{List, Memory};
use text_buffer::{LINE_BREAK, Line, LineFault, line_of_bytes};

/// A command with the lines of its text so far.
#[derive(Drop)]
pub(crate) struct Draft {
    pub head: Head,
    /// The lines of the text, while each of them is well.
    pub lines: List<Line>,
    pub has_bad_line: bool,
    pub has_long_line: bool,
}

/// The characters of a line, or what is wrong with it.
pub(crate) fn line_chars(alloc: Global, bytes: &[u8]) -> Result<Result<Line, ScriptFault>, Memory>
    ensures { IfOk result (λ line. line ≡ spec.line_chars bytes.now) }
{
    match line_of_bytes(alloc, bytes)? {
        Ok(line) => Ok(Ok(line)),
        Err(LineFault::NotUtf8) => Ok(Err(ScriptFault::BadUtf8)),
        Err(LineFault::TooLong) => Ok(Err(ScriptFault::LongLine)),
    }
}

/// What the bytes of a line say.
pub(crate) fn line_head(alloc: Global, bytes: &[u8]) -> Result<Result<Head, ScriptFault>, Memory>
    ensures { IfOk result (λ head. head ≡ spec.line_head bytes.now) }
{
    match line_chars(alloc, bytes)? {
        Err(fault) => Ok(Err(fault)),
        Ok(text) => match head_of(alloc, text.as_slice())? {
            None => Ok(Err(ScriptFault::BadCommand)),
            Some(head) => Ok(Ok(head)),
        },
    }
}

/// The command whose line this is, before any line of its text.
pub(crate) fn without_text(alloc: Global, head: Head) -> Draft
    ensures head { result.head ≡ head }
    ensures text { IsTextOf result [] }
{
    Draft {
        head,
        lines: List::new(alloc),
        has_bad_line: false,
        has_long_line: false,
    }
}

/// The command with the lines of these bytes as its text, each with its line break.
pub(crate) fn with_lines(alloc: Global, head: Head, text: &[u8]) -> Result<Draft, Memory>
    ensures head { IfOk result (λ draft. draft.head ≡ head) }
    ensures text { IfOk result (λ draft. IsTextOf draft (whole_lines text.now)) }
{
    let mut draft = without_text(alloc, head);
    let mut rest = text;
    while let Some(end) = memchr(LINE_BREAK, rest) {
        draft.add_line(alloc, &rest[..end])?;
        rest = &rest[end + 1..];
    }
    Ok(draft)
}

fn with_order(
    order: Option<Order>,
    lines: List<Line>,
    ended: bool,
) -> Result<EditCommand, ScriptFault>
    ensures { (text : List (List ℕ)) → lines ≡ map chars text
        → result ≡ with_order order text ended }
{
    let Some(Order { first, last, verb }) = order else {
        return Err(ScriptFault::BadAddress);
    };
    if !ended {
        return Err(ScriptFault::UnfinishedText);
    }
    Ok(EditCommand {
        first,
        last,
        verb,
        lines,
    })
}

impl Draft {
    /// A line of the text has this fault.
    fn add_fault(&mut self, fault: ScriptFault)
        ensures { self.new ≡ with_fault self.old fault }
    {
        match fault {
            ScriptFault::BadUtf8 => self.has_bad_line = true,
            _ => self.has_long_line = true,
        }
    }

    /// One more line of the text comes. For want of memory it stays as it is.
    pub(crate) fn add_line(&mut self, alloc: Global, bytes: &[u8]) -> Result<(), Memory>
        ensures head { self.new.head ≡ self.old.head }
        ensures more { OnOk result ((text : List (List ℕ)) → IsTextOf self.old text
            → IsTextOf self.new (text ++ bytes.now ∷ [])) }
        ensures same { OnErr result (self.new ≡ self.old) }
    {
        match line_chars(alloc, bytes)? {
            Ok(line) => self.lines.push(line)?,
            Err(fault) => self.add_fault(fault),
        }
        Ok(())
    }

    /// Its entry, where the text ends with a dot or where the script ends.
    pub(crate) fn into_entry(self, number: usize, ended: bool) -> Entry
        ensures { (line : List ℕ) (text : List (List ℕ)) → line_head line ≡ Ok self.head
            → IsTextOf self text → result ≡ entry number line text ended }
    {
        let Draft {
            head,
            lines,
            has_bad_line,
            has_long_line,
        } = self;
        let what = if has_bad_line {
            Err(ScriptFault::BadUtf8)
        } else if has_long_line {
            Err(ScriptFault::LongLine)
        } else {
            with_order(head.order, lines, ended)
        };
        Entry { line: number, what }
    }
}
