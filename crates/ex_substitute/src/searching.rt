//! The matches that a substitution replaces.
ghost use Rattle.std.specs.Prelude.{◌≡◌, ◌<◌, ◌≤◌, length, IfOk, IfSome, Some};
ghost use Rattle.std.specs.List.{All};
ghost use Rattle.pattern_match.specs.OnText.{IsFoundOn};
ghost use Rattle.ex_substitute.specs.Answers.{Gives};
ghost use Rattle.ex_substitute.specs.Searching as spec;
ghost use Rattle.ex_substitute.specs.Trials.{trial_in};
ghost use Rattle.ex_substitute.specs.Trying.{first_of};

use crate::refusal::Refusal;
use crate::trying::{Trying, Wanted, takes_nothing};
use pattern_match::{Match, Scratch};
use syn_base::{Lines, List, Place};

/// What a substitution goes over.
#[derive(Clone, Copy)]
pub(crate) struct Scope {
    /// Whether all matches of a line are replaced (`:s_g`).
    pub all: bool,
    /// The line behind the last one.
    pub b: usize,
}

/// The begin of a line, if it is one of the range.
fn line_from(scope: Scope, line: usize) -> Option<Place>
    ensures place { result ≡ spec.line_from scope line }
    ensures present { IfSome result (λ p. p.line < scope.b) }
{
    if line < scope.b {
        Some(Place { line, col: 0 })
    } else {
        None
    }
}

/// A match's end, a column further if the match takes nothing.
fn place_after<T: Lines>(lines: &T, m: &Match) -> Place
    requires present { m.now.to.line < length (T.lines lines.now) }
    requires found { IsFoundOn (T.lines lines.now) m.now }
    ensures { result ≡ spec.place_after m.now }
{
    // The proof needs the bound that this call tells of the line.
    let _length = lines.line(m.to.line).len();
    if takes_nothing(m) {
        Place {
            line: m.to.line,
            col: m.to.col + 1,
        }
    } else {
        m.to
    }
}

/// Where the search goes on behind a match.
fn next_after<T: Lines>(lines: &T, scope: Scope, m: &Match) -> Option<Place>
    requires within { scope.b ≤ length (T.lines lines.now) }
    requires found { IsFoundOn (T.lines lines.now) m.now }
    ensures place { result ≡ spec.next_after (T.lines lines.now) scope m.now }
    ensures present { IfSome result (λ p. p.line < length (T.lines lines.now)) }
{
    let count = lines.len();
    if scope.all {
        return if m.to.line < count {
            Some(place_after(lines, m))
        } else {
            None
        };
    }
    if m.from.line < m.to.line && m.to.line < scope.b {
        return Some(m.to);
    }
    line_from(scope, m.to.line + 1)
}

impl<'a> Trying<'a> {
    /// The next match that is replaced, from a place on, behind the end of the last one.
    fn next<T: Lines>(
        &self,
        scratch: &mut Scratch<'a>,
        lines: &T,
        scope: Scope,
        end: Option<Place>,
        from: Place,
    ) -> Result<Option<Match>, Refusal>
        requires within { scope.b ≤ length (T.lines lines.now) }
        requires present { from.line < length (T.lines lines.now) }
        requires budget { 1 ≤ self.now.budget }
        ensures found { Gives result (first_of (trial_in (T.lines lines.now) self.now)
            (spec.is_taken end) (spec.places_from (T.lines lines.now) scope (Some from))) }
        ensures on_text { IfOk result (λ found.
            IfSome found (IsFoundOn (T.lines lines.now))) }
    {
        // The proof needs the bounds that this call tells of the text.
        let _count = lines.len();
        let wanted = Wanted::Behind(end);
        let found = self.first_in_line(scratch, lines, from.line, from.col, wanted)?;
        if found.is_some() {
            return Ok(found);
        }
        self.first_in_lines(scratch, lines, from.line + 1, scope.b, wanted)
    }

    /// The matches that are replaced, from line `a` on, in their order.
    pub fn replacements<T: Lines>(
        &self,
        lines: &T,
        scope: Scope,
        a: usize,
    ) -> Result<List<Match>, Refusal>
        requires within { scope.b ≤ length (T.lines lines.now) }
        requires budget { 1 ≤ self.now.budget }
        ensures found { Gives result
            (spec.replacements (trial_in (T.lines lines.now) self.now) scope a) }
        ensures on_text { IfOk result (All (IsFoundOn (T.lines lines.now))) }
    {
        let mut scratch = Scratch::new(self.alloc);
        let mut found = List::new(self.alloc);
        let mut end = None;
        let mut at = line_from(scope, a);
        'search: while let Some(from) = at {
            match self.next(&mut scratch, lines, scope, end, from)? {
                None => return Ok(found),
                Some(m) => {
                    end = Some(m.to);
                    at = next_after(lines, scope, &m);
                    found.push(m)?;
                }
            }
        }
        Ok(found)
    }
}
