//! The limits of a changed text.
ghost use Rattle.std.specs.Prelude.{◌≡◌, ◌-◌, length, nat_lt};
ghost use Rattle.std.specs.List.{list_any};
ghost use Rattle.ex_substitute.specs.Changes as spec;

use crate::{Change, ExError};
use syn_base::{Lines, List};

/// The most lines that a text has.
pub(crate) const MOST_LINES: usize = 2_000_000;
/// The most characters that a line has.
pub(crate) const MOST_CHARS: usize = 1_000_000;

fn has_long(new: &[List<char>]) -> bool
    ensures { result ≡ list_any spec.is_long new.now }
{
    new.iter().any(|line| line.len() > MOST_CHARS)
}

/// How many lines of a text stay as they are.
pub(crate) fn kept_lines<T: Lines>(lines: &T, a: usize, b: usize) -> usize
    ensures { result ≡ length (T.lines lines.now) - (b - a) }
{
    lines.len().saturating_sub(b.saturating_sub(a))
}

/// Whether the text has too many lines after a change.
fn has_too_many<T: Lines>(lines: &T, change: &Change) -> bool
    ensures { result ≡ nat_lt 2000000 (spec.lines_after (T.lines lines.now) change.now) }
{
    let kept = kept_lines(lines, change.a, change.b);
    kept > MOST_LINES || change.new.len() > MOST_LINES - kept
}

/// The change, if the text stays within the limits.
pub(crate) fn within_limits<T: Lines>(lines: &T, change: Change) -> Result<Change, ExError>
    ensures { result ≡ spec.within_limits (T.lines lines.now) change }
{
    if has_too_many(lines, &change) {
        return Err(ExError::TooManyLines);
    }
    if has_long(change.new.as_slice()) {
        return Err(ExError::LongLine);
    }
    Ok(change)
}
