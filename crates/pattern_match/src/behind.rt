//! Where a look behind starts to try its part (`/\@<=`).
ghost use Rattle.std.specs.Prelude.{◌≡◌, [], ◌∷◌, MatchOption, Some, None, false};
ghost use Rattle.match_rules.specs.Ways.{IsPlaceOf};
ghost use Rattle.match_rules.specs.Looks.{within};
ghost use Rattle.pattern_match.specs.Starts.{starts_left, AreStarts, places_before};

use pattern_items::Behind;
use syn_base::{Lines, Place};

/// The places from one backwards, through its line and the one before, the nearest ones within a limit.
#[derive(Clone, Copy)]
pub(crate) struct Starts {
    next: Option<Place>,
    /// Whether they are in the line before already.
    line_before: bool,
    /// How many more characters there may be between them and the place.
    limit: Behind,
}

impl Starts {
    /// The place itself, and those before it.
    pub(crate) fn new(at: Place, limit: Behind) -> Starts
        ensures { result ≡ record { next = Some at; line_before = false; limit = limit } }
    {
        Starts {
            next: Some(at),
            line_before: false,
            limit,
        }
    }

    /// The next one.
    pub(crate) fn next<T: Lines>(&mut self, lines: &T) -> Option<Place>
        requires { AreStarts (T.lines lines.now) self.old }
        ensures places { MatchOption result (starts_left (T.lines lines.now) self.old ≡ [])
            (λ p. (starts_left (T.lines lines.now) self.old ≡ p ∷ starts_left (T.lines lines.now)
            self.new) × IsPlaceOf (T.lines lines.now) p) }
        ensures on_text { AreStarts (T.lines lines.now) self.new }
    {
        let start = self.next?;
        *self = self.behind(lines, start);
        Some(start)
    }

    /// Those behind the next one.
    fn behind<T: Lines>(self, lines: &T, start: Place) -> Starts
        requires next { self.next ≡ Some start }
        requires on_text { IsPlaceOf (T.lines lines.now) start }
        ensures places { starts_left (T.lines lines.now) self ≡ start ∷ starts_left
            (T.lines lines.now) result }
        ensures on_text { AreStarts (T.lines lines.now) result }
    {
        match self.limit {
            Behind::Most(0) => Starts { next: None, ..self },
            Behind::Most(limit) => Starts {
                limit: Behind::Most(limit - 1),
                ..self
            }
            .back(lines, start),
            Behind::Any => self.back(lines, start),
        }
    }

    /// Those before a place.
    fn back<T: Lines>(self, lines: &T, from: Place) -> Starts
        requires { IsPlaceOf (T.lines lines.now) from }
        ensures places { starts_left (T.lines lines.now) result ≡ within self.limit
            (places_before (T.lines lines.now) self.line_before from) }
        ensures on_text { AreStarts (T.lines lines.now) result }
    {
        if from.col > 0 {
            let place = Place {
                line: from.line,
                col: from.col - 1,
            };
            Starts {
                next: Some(place),
                ..self
            }
        } else if from.line > 0 && !self.line_before {
            let line = from.line - 1;
            let place = Place {
                line,
                col: lines.line(line).len(),
            };
            Starts {
                next: Some(place),
                line_before: true,
                ..self
            }
        } else {
            Starts { next: None, ..self }
        }
    }
}
