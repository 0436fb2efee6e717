//! A script's lines, one after the other.
ghost use Rattle.std.specs.Prelude.{◌≡◌, ◌+◌, ◌-◌, ◌≤◌, ◌++◌, ◌∷◌, [], length, take, drop, List, ℕ};
ghost use Rattle.std.specs.Prelude.{IfOk, OnOk, OnErr, Some, None};
ghost use Rattle.text_buffer.specs.TextOfBytes.{line_break};
ghost use Rattle.edit_script.specs.Entries as spec;
ghost use Rattle.edit_script.specs.Entries.{entries_at_end, entries_of, entry, kept_of};
ghost use Rattle.edit_script.specs.Entries.{standing_in, unfinished, whole_lines};
ghost use Rattle.edit_script.specs.Reading.{IsAt, IsReading, Stands, begin_behind, kept_at, meaning_of, seen, stays};

use crate::Entry;
use crate::draft::{line_head, with_lines, without_text};
use memchr::memchr;
use std::alloc::Global;
use syn_base::{List, Memory};
use text_buffer::LINE_BREAK;

/// Where the reading of a script stands in the bytes that are kept of it.
#[derive(Clone, Copy)]
pub(crate) struct Place {
    /// How many lines were answered or skipped.
    pub lines: usize,
    /// The number of the line that has no line break yet, from 0.
    pub at: usize,
    /// Where this line begins.
    pub cut: usize,
    /// Where the text begins of the command that waits for its dot.
    pub text: Option<usize>,
}

/// A script that is being read.
#[derive(Drop)]
pub(crate) struct Reader {
    pub place: Place,
    /// The bytes behind the lines that were answered or skipped. Those of a text stay until its
    /// dot, and are decoded when it comes.
    pub bytes: Vec<u8>,
}

/// What was read of bytes.
#[derive(Drop)]
pub(crate) struct Progress {
    pub entries: List<Entry>,
    pub place: Place,
    /// Where the bytes begin that are kept.
    pub begin: usize,
}

/// What a line means that stands outside of a text.
#[derive(Drop)]
pub(crate) enum Meaning {
    Nothing,
    BeginsText,
    IsWhole(Entry),
}

fn is_dot(line: &[u8]) -> bool
    ensures { result ≡ spec.is_dot line.now }
{
    line == b".".as_slice()
}

fn meaning_of(alloc: Global, number: usize, line: &[u8]) -> Result<Meaning, Memory>
    ensures { IfOk result (λ meaning. meaning ≡ meaning_of number line.now) }
{
    if line.is_empty() {
        return Ok(Meaning::Nothing);
    }
    match line_head(alloc, line)? {
        Err(fault) => Ok(Meaning::IsWhole(Entry {
            line: number,
            what: Err(fault),
        })),
        Ok(head) => {
            if head.takes_text {
                return Ok(Meaning::BeginsText);
            }
            let entry = without_text(alloc, head).into_entry(number, true);
            Ok(Meaning::IsWhole(entry))
        }
    }
}

/// The entry of the command that stands before byte `text`, with the lines from there up to `cut`,
/// each with its line break.
fn text_entry(
    alloc: Global,
    place: Place,
    text: usize,
    kept: &[u8],
    ended: bool,
) -> Result<Entry, Memory>
    requires line { 1 ≤ text }
    requires text { text ≤ place.cut }
    requires within { place.cut ≤ length kept.now }
    ensures { IfOk result (λ made. made ≡ entry place.lines (take (text - 1) kept.now)
        (whole_lines (take (place.cut - text) (drop text kept.now))) ended) }
{
    let line = place.lines;
    match line_head(alloc, &kept[..text - 1])? {
        Err(fault) => Ok(Entry {
            line,
            what: Err(fault),
        }),
        Ok(head) => Ok(with_lines(alloc, head, &kept[text..place.cut])?.into_entry(line, ended)),
    }
}

/// The entry of the command that waits in these bytes, whose text begins at `text`.
fn waiting_entry(
    alloc: Global,
    place: Place,
    text: usize,
    kept: &[u8],
    ended: bool,
) -> Result<Entry, Memory>
    requires { Stands (Some text) place.lines place.at place.cut kept.now }
    ensures { IfOk result (λ made. (line : List ℕ) (lines : List (List ℕ))
        → whole_lines kept.now ≡ line ∷ lines → made ≡ entry place.lines line lines ended) }
{
    text_entry(alloc, place, text, kept, ended)
}

/// The place where everything before line `next` is answered or skipped.
pub(crate) fn before_line(next: usize) -> Place
    ensures { result ≡ record { lines = next; at = next; cut = 0; text = None } }
{
    Place {
        lines: next,
        at: next,
        cut: 0,
        text: None,
    }
}

/// The line break comes behind these bytes, which are a line outside of a text.
fn end_command(
    alloc: Global,
    place: Place,
    next: usize,
    kept: &[u8],
    entries: &mut List<Entry>,
) -> Result<Place, Memory>
    requires stands { IsAt place kept.now }
    requires outside { place.text ≡ None }
    requires next { next ≡ place.at + 1 }
    ensures stands { IfOk result (λ now. IsAt now (stays now.text kept.now)) }
    ensures kept { IfOk result (λ now. kept_at now (stays now.text kept.now)
        ≡ kept_of place.lines (kept.now ++ line_break ∷ [])) }
    ensures entries { OnOk result (entries.new ≡ entries.old
        ++ entries_of place.lines (kept.now ++ line_break ∷ [])) }
{
    match meaning_of(alloc, place.lines, kept)? {
        Meaning::Nothing => Ok(before_line(next)),
        Meaning::IsWhole(entry) => {
            entries.push(entry)?;
            Ok(before_line(next))
        }
        Meaning::BeginsText => {
            let cut = kept.len() + 1;
            Ok(Place {
                lines: place.lines,
                at: next,
                cut,
                text: Some(cut),
            })
        }
    }
}

/// The line break comes behind these bytes.
fn end_line(
    alloc: Global,
    place: Place,
    kept: &[u8],
    entries: &mut List<Entry>,
) -> Result<Place, Memory>
    requires stands { IsAt place kept.now }
    ensures stands { IfOk result (λ now. IsAt now (stays now.text kept.now)) }
    ensures kept { IfOk result (λ now. kept_at now (stays now.text kept.now)
        ≡ kept_of place.lines (kept.now ++ line_break ∷ [])) }
    ensures entries { OnOk result (entries.new ≡ entries.old
        ++ entries_of place.lines (kept.now ++ line_break ∷ [])) }
{
    // A line that has no number is refused as want of memory.
    let Some(next) = place.at.checked_add(1) else {
        return Err(Memory);
    };
    let Some(text) = place.text else {
        return end_command(alloc, place, next, kept, entries);
    };
    if !is_dot(&kept[place.cut..]) {
        return Ok(Place {
            lines: place.lines,
            at: next,
            cut: kept.len() + 1,
            text: Some(text),
        });
    }
    entries.push(waiting_entry(alloc, place, text, kept, true)?)?;
    Ok(before_line(next))
}

/// Where the bytes begin that are kept behind a line break, if they began at `begin` before.
fn begin_behind(place: &Place, begin: usize, next: usize) -> usize
    ensures { result ≡ begin_behind place.now.text begin next }
{
    match place.text {
        None => next,
        Some(_) => begin,
    }
}

/// The entries that these bytes make whole, of which `from` were read. It changes nothing, so that
/// for want of memory all is as before.
fn read_lines(alloc: Global, place: Place, bytes: &[u8], from: usize) -> Result<Progress, Memory>
    requires within { from ≤ length bytes.now }
    requires stands { IsAt place (take from bytes.now) }
    ensures within { IfOk result (λ read. read.begin ≤ length bytes.now) }
    ensures stands { IfOk result (λ read. IsAt read.place (drop read.begin bytes.now)) }
    ensures kept { IfOk result (λ read. kept_at read.place (drop read.begin bytes.now)
        ≡ kept_of place.lines bytes.now) }
    ensures entries { IfOk result (λ read. read.entries ≡ entries_of place.lines bytes.now) }
{
    let mut entries = List::new(alloc);
    let mut now = place;
    let mut begin = 0;
    let mut next = from;
    while let Some(count) = memchr(LINE_BREAK, &bytes[next..]) {
        let end = next + count;
        now = end_line(alloc, now, &bytes[begin..end], &mut entries)?;
        next = end + 1;
        begin = begin_behind(&now, begin, next);
    }
    Ok(Progress {
        entries,
        place: now,
        begin,
    })
}

/// Takes out the bytes before `begin`. It takes no memory.
fn cut_front(bytes: &mut Vec<u8>, begin: usize)
    requires { begin ≤ length bytes.old.items }
    ensures { bytes.new.items ≡ drop begin bytes.old.items }
{
    if begin == 0 {
        return;
    }
    bytes.as_mut_slice().rotate_left(begin);
    let left = bytes.len() - begin;
    bytes.truncate(left);
}

/// The entries that become whole with this piece. For want of memory nothing of it was taken.
pub(crate) fn read(alloc: Global, reader: &mut Reader, piece: &[u8]) -> Result<List<Entry>, Memory>
    requires reading { IsReading reader.old }
    ensures reading { IsReading reader.new }
    ensures entries { IfOk result (λ entries. entries
        ≡ entries_of reader.old.place.lines (reader.old.bytes.items ++ piece.now)) }
    ensures kept { OnOk result (seen reader.new
        ≡ kept_of reader.old.place.lines (reader.old.bytes.items ++ piece.now)) }
    ensures unchanged { OnErr result (seen reader.new ≡ seen reader.old) }
{
    let old = reader.bytes.len();
    reader.bytes.extend_from_slice(piece)?;
    match read_lines(alloc, reader.place, reader.bytes.as_slice(), old) {
        Ok(read) => {
            cut_front(&mut reader.bytes, read.begin);
            reader.place = read.place;
            Ok(read.entries)
        }
        Err(refused) => {
            reader.bytes.truncate(old);
            Err(refused)
        }
    }
}

/// The script ends, and what stands in its last line is a line.
pub(crate) fn end_last_line(alloc: Global, reader: &mut Reader) -> Result<List<Entry>, Memory>
    requires reading { IsReading reader.old }
    ensures reading { IsReading reader.new }
    ensures ends { IfOk result (λ entries. entries
        ++ unfinished (standing_in reader.new.place.lines reader.new.bytes.items)
        ≡ entries_at_end reader.old.place.lines reader.old.bytes.items) }
{
    if reader.place.cut < reader.bytes.len() {
        return read(alloc, reader, [LINE_BREAK].as_slice());
    }
    Ok(List::new(alloc))
}

/// The script ends, and the text that waits lacks its dot.
pub(crate) fn push_unfinished(
    alloc: Global,
    reader: Reader,
    entries: &mut List<Entry>,
) -> Result<(), Memory>
    requires { IsReading reader }
    ensures { OnOk result (entries.new ≡ entries.old
        ++ unfinished (standing_in reader.place.lines reader.bytes.items)) }
{
    match reader.place.text {
        None => Ok(()),
        Some(text) => {
            let kept = reader.bytes.as_slice();
            entries.push(waiting_entry(alloc, reader.place, text, kept, false)?)
        }
    }
}
