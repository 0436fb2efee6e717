//! A text as it is seen, with its spans.
ghost use Rattle.std.specs.Prelude.{◌≡◌, ◌<◌, ◌^◌, length};
ghost use Rattle.conceal_view.specs.View.{lines_in, spans_in};

use crate::seen_line::SeenLine;
use std::marker::Model;
use syn_base::{Colours, Lines, Span};

/// The view of a text: its lines as they are seen, and their spans, whose columns count in the view.
#[derive(Drop)]
pub struct Viewed {
    lines: Vec<SeenLine>,
}

impl Model for Viewed {
    ghost use Rattle.std.specs.Prelude.{List, length, ◌<◌, ◌^◌};
    ghost use Rattle.conceal_view.specs.Cells as cells;

    ghost Value = { List cells.SeenLine };

    ghost view = { λ a. a.lines.items };

    ghost invariant = { λ a. (0 < length a.lines.items) × (length a.lines.items < 2 ^ 32) };
}

impl Viewed {
    pub(crate) fn of(lines: Vec<SeenLine>) -> Viewed
        requires some { 0 < length lines.items }
        requires few { length lines.items < 2 ^ 32 }
        ensures { result ≡ lines.items }
    {
        Viewed { lines }
    }
}

impl Lines for Viewed {
    ghost lines = { λ v. lines_in v };

    fn len(&self) -> usize {
        self.lines.len()
    }

    fn line(&self, i: usize) -> &[char] {
        self.lines[i].chars()
    }
}

impl Colours for Viewed {
    ghost coloured = { λ v. spans_in v };

    fn spans(&self, line: usize) -> &[Span] {
        self.lines[line].spans()
    }
}
