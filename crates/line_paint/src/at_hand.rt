//! A text with one of its lines at hand.
ghost use Rattle.std.specs.Prelude.{◌≡◌, ◌<◌, ◌^◌, length, slice_get, Some};

use std::marker::Model;
use syn_base::Lines;

/// A text with one of its lines at hand: that line isn't looked up in the text each time that a
/// character of it is asked for.
#[derive(Drop)]
pub(crate) struct AtHand<'a, T: Lines> {
    lines: &'a T,
    count: usize,
    number: usize,
    line: &'a [char],
}

impl<'a, T: Lines> Model for AtHand<'a, T> {
    ghost use Rattle.std.specs.Prelude.{◌≡◌, ◌<◌, ◌^◌, List, ℕ, length, slice_get, Some};

    ghost Value = { List (List ℕ) };

    ghost view = { λ a. T.lines a.lines.now };

    ghost invariant = { λ a. (a.count ≡ length (T.lines a.lines.now)) × (0 < a.count)
        × (a.count < 2 ^ 32) × (Some a.line.now ≡ slice_get (T.lines a.lines.now) a.number) };
}

impl<'a, T: Lines> AtHand<'a, T> {
    /// The text, with line `number` at hand, from 0.
    pub(crate) fn new(lines: &'a T, number: usize) -> AtHand<'a, T>
        requires { number < length (T.lines lines.now) }
        ensures { result ≡ T.lines lines.now }
    {
        AtHand {
            lines,
            count: lines.len(),
            number,
            line: lines.line(number),
        }
    }

    /// A line that may be another one than that at hand.
    #[inline(never)]
    fn other_line(&self, i: usize) -> &[char]
        requires { i < length self.now }
        ensures { Some result.now ≡ slice_get self.now i }
    {
        self.lines.line(i)
    }
}

impl<T: Lines> Lines for AtHand<'_, T> {
    ghost lines = { λ a. a };

    fn len(&self) -> usize {
        self.count
    }

    #[inline(always)]
    fn line(&self, i: usize) -> &[char] {
        if i == self.number {
            self.line
        } else {
            self.other_line(i)
        }
    }
}
