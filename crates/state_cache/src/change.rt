//! A text with a replacement of lines in its place.
ghost use Rattle.std.specs.Prelude.{◌≡◌, ◌+◌, ◌<◌, ◌≤◌, ◌^◌, length};
ghost use Rattle.paint_reuse.specs.Change.{replaced};

use paint_reuse::Change;
use syn_base::{Lines, List};
use text_buffer::{Line, Text};

/// A text in which lines `a` to `b - 1` are replaced, with nothing of it copied.
#[derive(Drop)]
pub(crate) struct Changed<'a> {
    pub(crate) text: &'a Text,
    pub(crate) a: usize,
    pub(crate) b: usize,
    pub(crate) new: &'a List<Line>,
    /// How many lines stand behind the replaced ones.
    behind: usize,
    ghost ordered: { a ≤ b },
    ghost whole: { b + behind ≡ length text.now.lines },
    ghost small: { length text.now.lines < 2 ^ 32 },
    ghost some: { 0 < a + length new.now + behind },
    ghost few: { a + length new.now + behind < 2 ^ 32 },
}

impl<'a> Changed<'a> {
    pub(crate) fn new(text: &'a Text, a: usize, b: usize, new: &'a List<Line>) -> Changed<'a>
        requires ordered { a ≤ b }
        requires inside { b ≤ length text.now.lines }
        requires some { 0 < length (replaced text.now.lines a b new.now) }
        requires few { length (replaced text.now.lines a b new.now) < 2 ^ 32 }
        ensures text { result.text.now ≡ text.now }
        ensures first { result.a ≡ a }
        ensures end { result.b ≡ b }
        ensures new { result.new.now ≡ new.now }
    {
        let behind = text.len() - b;
        Changed {
            text,
            a,
            b,
            new,
            behind,
        }
    }

    /// Which lines are replaced by how many.
    pub(crate) fn change(&self) -> Change
        ensures { result ≡ record {
          a = self.now.a;
          b = self.now.b;
          count = length self.now.new.now;
        } }
    {
        Change {
            a: self.a,
            b: self.b,
            count: self.new.len(),
        }
    }
}

impl<'a> Lines for Changed<'a> {
    ghost lines = { λ c. replaced c.text.now.lines c.a c.b c.new.now };

    fn len(&self) -> usize {
        self.a + self.new.len() + self.behind
    }

    fn line(&self, i: usize) -> &[char] {
        if i < self.a {
            return self.text.line(i);
        }
        let below = i - self.a;
        if below < self.new.len() {
            return self.new.get(below).as_slice();
        }
        self.text.line(below - self.new.len() + self.b)
    }
}
