//! A text as its lines, and a painting as its spans.
ghost use Rattle.std.specs.Prelude.{◌≡◌, ◌<◌, ◌^◌, ℕ, List, length, slice_get, Some};
ghost use Rattle.syn_base.specs.declared.places.Span.{Span as SpanOf};

use crate::Span;

/// A text: at least one line, and fewer than 2^32.
pub trait Lines {
    /// Its lines, each a list of characters without its line break.
    ghost lines: { Self → List (List ℕ) };

    /// How many lines there are.
    fn len(&self) -> usize
        ensures count { result ≡ length (lines self.now) }
        ensures some { 0 < result }
        ensures few { result < 2 ^ 32 };

    /// Line `i`, from 0.
    fn line(&self, i: usize) -> &[char]
        requires { i < length (lines self.now) }
        ensures { Some result.now ≡ slice_get (lines self.now) i };
}

/// What is painted: a list of spans for each line.
pub trait Colours {
    /// The spans of each line.
    ghost coloured: { Self → List (List SpanOf) };

    /// The spans of line `line`, from 0.
    fn spans(&self, line: usize) -> &[Span]
        requires { line < length (coloured self.now) }
        ensures { Some result.now ≡ slice_get (coloured self.now) line };
}
