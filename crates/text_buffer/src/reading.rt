//! Bytes to lines.
ghost use Rattle.std.specs.Prelude.{◌≡◌, ◌≢◌, ◌<◌, ◌≤◌, ◌+◌, ◌++◌, [], ◌∷◌, Ok, Err, None, Some, IfOk, IfErr, drop, length, slice_range};
ghost use Rattle.std.specs.Str.{IsAscii, chars};
ghost use Rattle.text_buffer.specs.Reading.{lines_after, read_on};
ghost use Rattle.text_buffer.specs.TextOfBytes.{byte_lines, line_fault, line_of, line_of_fault, most_lines, numbered, text_of};

use super::{LINE_BREAK, Line, LineFault, MOST_CHARS, MOST_LINES, TextError};
use chunk_list::ChunkList;
use memchr::memchr;
use std::alloc::Global;
use syn_base::{List, Memory};

/// The lines of the bytes.
pub(super) fn read_lines(alloc: Global, bytes: &[u8]) -> Result<ChunkList<Line>, TextError>
    ensures lines { IfOk result (λ lines. text_of bytes.now ≡ Ok lines.0) }
    ensures some { IfOk result (λ lines. 0 < length lines.0) }
    ensures few { IfOk result (λ lines. length lines.0 ≤ most_lines) }
    ensures fault { IfErr result (λ fault. fault ≢ TextError.Memory
        → text_of bytes.now ≡ Err fault) }
    ensures near { IfErr result (λ fault. line_of_fault fault ≤ most_lines) }
{
    let mut lines = ChunkList::new(alloc);
    let mut at = push_line(alloc, &mut lines, bytes, 0)?;
    while at < bytes.len() {
        at = push_line(alloc, &mut lines, bytes, at)?;
    }
    Ok(lines)
}

/// Where the line that begins at byte `at`, from 0, ends: at its line break, or at the end of the
/// bytes.
pub fn line_end(bytes: &[u8], at: usize) -> usize
    requires { at ≤ length bytes.now }
    ensures from { at ≤ result }
    ensures within { result ≤ length bytes.now }
    ensures lines { byte_lines (drop at bytes.now)
        ≡ slice_range bytes.now at result ∷ lines_after bytes.now (result + 1) }
{
    match memchr(LINE_BREAK, &bytes[at..]) {
        Some(count) => at + count,
        None => bytes.len(),
    }
}

/// Reads the line that begins at `at`, and answers where the next one begins: behind its line
/// break.
fn push_line(
    alloc: Global,
    lines: &mut ChunkList<Line>,
    bytes: &[u8],
    at: usize,
) -> Result<usize, TextError>
    requires within { at ≤ length bytes.now }
    requires few { length lines.old.0 ≤ most_lines }
    ensures further { IfOk result (λ next. at < next) }
    ensures read { IfOk result (λ next. read_on lines.old.0 (byte_lines (drop at bytes.now))
        ≡ read_on lines.new.0 (lines_after bytes.now next)) }
    ensures some { IfOk result (λ _. 0 < length lines.new.0) }
    ensures few { IfOk result (λ _. length lines.new.0 ≤ most_lines) }
    ensures fault { IfErr result (λ fault. fault ≢ TextError.Memory
        → read_on lines.old.0 (byte_lines (drop at bytes.now)) ≡ Err fault) }
    ensures near { IfErr result (λ fault. line_of_fault fault ≤ most_lines) }
{
    let end = line_end(bytes, at);
    let line = read_line(alloc, lines.len(), &bytes[at..end])?;
    lines.push(line)?;
    Ok(end + 1)
}

/// The line of that number, from 0, that these bytes are.
fn read_line(alloc: Global, number: usize, bytes: &[u8]) -> Result<Line, TextError>
    requires { number ≤ most_lines }
    ensures faultless { IfOk result (λ _. line_fault number bytes.now ≡ None) }
    ensures line { IfOk result (λ line. line ≡ chars bytes.now) }
    ensures few { IfOk result (λ _. number < most_lines) }
    ensures fault { IfErr result (λ fault. fault ≢ TextError.Memory
        → line_fault number bytes.now ≡ Some fault) }
    ensures near { IfErr result (λ fault. line_of_fault fault ≤ most_lines) }
{
    match line_of_bytes(alloc, bytes)? {
        Err(fault) => Err(fault.at(number)),
        Ok(_) if number >= MOST_LINES => Err(TextError::TooManyLines),
        Ok(line) => Ok(line),
    }
}

impl LineFault {
    /// The fault of a text whose line of that number, from 0, has this one.
    fn at(self, line: usize) -> TextError
        ensures { result ≡ numbered line self }
    {
        match self {
            LineFault::NotUtf8 => TextError::BadUtf8 { line },
            LineFault::TooLong => TextError::LineTooLong { line },
        }
    }
}

/// The line that these bytes are, or why they are none. A line break among them is a character. For
/// a line too long no memory is taken.
pub fn line_of_bytes(alloc: Global, bytes: &[u8]) -> Result<Result<Line, LineFault>, Memory>
    ensures { IfOk result (λ line. line ≡ line_of bytes.now) }
{
    if bytes.is_ascii() {
        return ascii_line(alloc, bytes);
    }
    let Ok(text) = simdutf8::compat::from_utf8(bytes) else {
        return Ok(Err(LineFault::NotUtf8));
    };
    if char_count(text) > MOST_CHARS {
        return Ok(Err(LineFault::TooLong));
    }
    Ok(Ok(List::from_chars(alloc, text)?))
}

/// The line that bytes of ASCII are, each of which is a character.
fn ascii_line(alloc: Global, bytes: &[u8]) -> Result<Result<Line, LineFault>, Memory>
    requires { IsAscii bytes.now }
    ensures { IfOk result (λ line. line ≡ line_of bytes.now) }
{
    if bytes.len() > MOST_CHARS {
        return Ok(Err(LineFault::TooLong));
    }
    Ok(Ok(List::from_vec(ascii_chars(alloc, bytes)?)))
}

/// The characters that have the codes of these bytes.
fn ascii_chars(alloc: Global, bytes: &[u8]) -> Result<Vec<char>, Memory>
    ensures { IfOk result (λ chars. chars.items ≡ bytes.now) }
{
    let mut chars = Vec::with_capacity(alloc, bytes.len())?;
    for byte in bytes {
        chars.push_reserved(char::from(*byte));
    }
    Ok(chars)
}

fn char_count(text: &str) -> usize
    ensures { result ≡ length (chars text.now) }
{
    text.chars().count()
}
