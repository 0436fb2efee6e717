//! The lines that an attempt, a search or a painting looked at.
ghost use Rattle.std.specs.Prelude.{◌≡◌};
ghost use Rattle.syn_base.specs.Looked.{hull_of, moved_by, numbered_too, one_line, CanMove};

/// The lines from `low` to `high`, both included, among which are all that were looked at. The line
/// before a text's first has the number -1, the one behind its last the number of lines.
/// `numbered` says that a line's own number was looked at too, so that the answer may change where
/// the same lines stand elsewhere (`/\%l`).
///
/// These calls alone make one; no other place writes its fields.
#[derive(Clone, Copy, Debug, PartialEq, Eq)]
pub struct Looked {
    pub low: i64,
    pub high: i64,
    pub numbered: bool,
}

impl Looked {
    /// That line alone, and not its number.
    pub fn one(line: i64) -> Looked
        ensures { result ≡ one_line line }
    {
        Looked {
            low: line,
            high: line,
            numbered: false,
        }
    }

    /// The lines of both, and those between them; a number where one of both looked at one.
    pub fn join(self, other: Looked) -> Looked
        ensures { result ≡ hull_of self other }
    {
        Looked {
            low: if other.low < self.low {
                other.low
            } else {
                self.low
            },
            high: if self.high < other.high {
                other.high
            } else {
                self.high
            },
            numbered: self.numbered || other.numbered,
        }
    }

    /// The same lines, counted from a line that stands `by` lines before.
    pub fn moved(self, by: i64) -> Looked
        requires { CanMove self by }
        ensures { result ≡ moved_by self by }
    {
        Looked {
            low: self.low + by,
            high: self.high + by,
            numbered: self.numbered,
        }
    }

    /// The same lines, and a line's number too.
    pub fn with_number(self) -> Looked
        ensures { result ≡ numbered_too self }
    {
        Looked {
            low: self.low,
            high: self.high,
            numbered: true,
        }
    }
}
