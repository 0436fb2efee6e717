//! A line and the one before: what a look behind without a limit looks at.
ghost use Rattle.std.specs.Prelude.{◌≡◌, ◌<◌, ◌^◌, length, IsTrue};
ghost use Rattle.pattern_screens.specs.Common.{two_lines, AreWithin, length_before};

use syn_base::{Lines, Looked};

/// How many characters the line before has.
fn length_before<T: Lines>(lines: &T, line: usize) -> usize
    requires { line < length (T.lines lines.now) }
    ensures { result ≡ length_before (T.lines lines.now) line }
{
    if line == 0 {
        0
    } else {
        lines.line(line - 1).len()
    }
}

/// Whether a present line and the one before have so many characters together, at most.
pub fn are_within<T: Lines>(lines: &T, line: usize, most: u64) -> bool
    requires { line < length (T.lines lines.now) }
    ensures { IsTrue result → AreWithin most (T.lines lines.now) line }
{
    let here = lines.line(line).len() as u64;
    let before = length_before(lines, line) as u64;
    here <= most && before <= most - here
}

/// A line and the one before.
pub fn two_lines(line: usize) -> Looked
    requires { line < 2 ^ 63 }
    ensures { result ≡ two_lines line }
{
    let line = line as i64;
    Looked::one(line).join(Looked::one(line - 1))
}
