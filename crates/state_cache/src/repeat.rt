//! Lines that stand in a text more than once.
ghost use Rattle.std.specs.Prelude.{◌<◌, ◌+◌, ◌-◌, ◌<ℤ◌, pos, length, IsTrue};
ghost use Rattle.state_cache.specs.Repeats.{AreEqualLines, StandsAlso};

use std::alloc::Global;
use syn_base::{Lines, Looked, Memory};

/// The most sums of lines that are told apart.
const MOST_SUMS: usize = 1 << 18;

/// For each sum of a line's characters the last line that had it. It tells where an equal line may
/// stand, and promises nothing.
#[derive(Drop)]
pub(crate) struct LastLines {
    lines: Vec<usize>,
}

impl LastLines {
    /// For a text of so many lines.
    pub(crate) fn new(alloc: Global, lines: usize) -> Result<LastLines, Memory> {
        let mut last = Vec::new(alloc);
        last.resize(lines.saturating_mul(2).min(MOST_SUMS), 0)?;
        Ok(LastLines { lines: last })
    }

    /// A line with these characters is the last one now; the answer is the one before.
    pub(crate) fn replace(&mut self, chars: &[char], line: usize) -> Option<usize> {
        let sums = self.lines.len() as u64;
        let at = sum_of(chars).checked_rem(sums)? as usize;
        let last = self.lines.get_mut(at)?;
        let before = *last;
        *last = line;
        Some(before)
    }
}

/// A sum of characters that differs for most texts.
fn sum_of(chars: &[char]) -> u64 {
    let mut sum = 0u64;
    for c in chars {
        sum = (sum ^ *c as u64).wrapping_mul(0x9E37_79B9_7F4A_7C15);
    }
    sum >> 32
}

/// Whether two lines have the same characters.
fn are_equal<T: Lines>(text: &T, j: usize, k: usize) -> bool
    requires first { j < length (T.lines text.now) }
    requires second { k < length (T.lines text.now) }
    ensures { IsTrue result → AreEqualLines (T.lines text.now) j k }
{
    text.line(j) == text.line(k)
}

/// Whether the lines before them have, if the painting of the first looked at the line before it.
fn are_equal_before<T: Lines>(text: &T, j: usize, k: usize, looked: Looked) -> bool
    requires first { j < length (T.lines text.now) }
    requires second { k < length (T.lines text.now) }
    ensures { IsTrue result → looked.low <ℤ pos 0
        → (0 < j) × ((0 < k) × AreEqualLines (T.lines text.now) (j - 1) (k - 1)) }
{
    if 0 <= looked.low {
        return true;
    }
    0 < j && 0 < k && are_equal(text, j - 1, k - 1)
}

/// Whether the lines behind them have, if the painting of the first looked at the line behind it.
fn are_equal_behind<T: Lines>(text: &T, j: usize, k: usize, looked: Looked) -> bool
    requires first { j < length (T.lines text.now) }
    requires second { k < length (T.lines text.now) }
    ensures { IsTrue result → pos 0 <ℤ looked.high → AreEqualLines (T.lines text.now) (j + 1) (k + 1) }
{
    if looked.high <= 0 {
        return true;
    }
    let lines = text.len();
    j + 1 < lines && k + 1 < lines && are_equal(text, j + 1, k + 1)
}

/// Whether what the painting of line `j` looked at stands about line `k` too. The lines beside them
/// alone are compared: where a painting looked further, or at its number, the answer is no.
#[tactic(auto, using(crate::proofs::RepeatLaws::stands_also))]
pub(crate) fn stands_also<T: Lines>(text: &T, j: usize, k: usize, looked: Looked) -> bool
    requires first { j < length (T.lines text.now) }
    requires second { k < length (T.lines text.now) }
    ensures { IsTrue result → StandsAlso (T.lines text.now) j k looked }
{
    if looked.numbered || looked.low < -1 || 1 < looked.high {
        return false;
    }
    if !are_equal(text, j, k) || !are_equal_before(text, j, k, looked) {
        return false;
    }
    are_equal_behind(text, j, k, looked)
}
