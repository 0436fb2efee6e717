//! Bytes to logical lines.
ghost use Rattle.std.specs.Prelude.{◌≡◌, IfOk, MatchOption, true, false};
ghost use Rattle.std.specs.Str.{chars, is_utf8};
ghost use Rattle.syn_lines.specs.LogicalLines.{logical_lines_of};

use crate::joined::{Joined, ended, with_line};
use crate::{LogicalLine, LogicalLines};
use std::alloc::Global;
use syn_base::{List, Memory};
use text_buffer::line_end;

/// The characters of a line, where its bytes are UTF-8.
fn line_chars(alloc: Global, bytes: &[u8]) -> Result<Option<List<char>>, Memory>
    ensures { IfOk result (λ line. MatchOption line (is_utf8 bytes.now ≡ false)
        (λ text. (is_utf8 bytes.now ≡ true) × (text ≡ chars bytes.now))) }
{
    match simdutf8::compat::from_utf8(bytes) {
        Err(_) => Ok(None),
        Ok(text) => Ok(Some(List::from_chars(alloc, text)?)),
    }
}

/// The logical lines of a file's bytes.
pub fn logical_lines(alloc: Global, bytes: &[u8]) -> Result<LogicalLines, Memory>
    ensures { IfOk result (λ lines. lines ≡ logical_lines_of bytes.now) }
{
    let end = line_end(bytes, 0);
    let Some(first) = line_chars(alloc, &bytes[..end])? else {
        return Ok(LogicalLines::BadUtf8 { line: 1 });
    };
    let mut joined = Joined {
        done: List::new(alloc),
        current: LogicalLine {
            number: 1,
            text: first,
        },
    };
    let mut number: usize = 2;
    let mut at = end + 1;
    while at < bytes.len() {
        let end = line_end(bytes, at);
        let Some(line) = line_chars(alloc, &bytes[at..end])? else {
            return Ok(LogicalLines::BadUtf8 { line: number });
        };
        joined = with_line(alloc, joined, number, line)?;
        number += 1;
        at = end + 1;
    }
    Ok(LogicalLines::Lines(ended(joined)?))
}
