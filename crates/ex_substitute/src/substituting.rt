//! What a substitution makes of a text.
ghost use Rattle.std.specs.Prelude.{◌≡◌, ◌<◌, ◌≤◌, ◌∷◌, [], length, IfOk, MatchOption};
ghost use Rattle.std.specs.List.{All};
ghost use Rattle.match_rules.specs.Ways.{IsPlaceOf, place};
ghost use Rattle.pattern_match.specs.OnText.{IsFoundOn};
ghost use Rattle.ex_substitute.specs.Answers.{Gives};
ghost use Rattle.ex_substitute.specs.Applying.{substituted};
ghost use Rattle.ex_substitute.specs.Changes as spec;
ghost use Rattle.ex_substitute.specs.Pens.{Makes, blank_pen, with_all};
ghost use Rattle.ex_substitute.specs.Ruling.{HasFewLines};
ghost use Rattle.ex_substitute.specs.Trials.{trial_in};

use crate::limits::{kept_lines, within_limits};
use crate::line_count::{count_lines, tally_of};
use crate::pen::Pen;
use crate::refusal::Refusal;
use crate::searching::Scope;
use crate::string::Piece;
use crate::trying::Trying;
use crate::{Change, ExError};
use pattern_match::Match;
use std::alloc::Global;
use syn_base::{Lines, List, Place};

/// The end of the last of these matches.
fn last_to(first: &Match, rest: &[Match]) -> Place
    ensures { result ≡ spec.last_to first.now rest.now }
{
    if rest.is_empty() {
        return first.to;
    }
    rest[rest.len() - 1].to
}

/// One past the line of the last match's end, and at most one past the last line.
fn line_behind<T: Lines>(lines: &T, first: &Match, rest: &[Match]) -> usize
    ensures line { result ≡ spec.line_behind (T.lines lines.now) first.now rest.now }
    ensures some { 0 < result }
    ensures within { result ≤ length (T.lines lines.now) }
{
    let last = last_to(first, rest).line;
    last.saturating_add(1).min(lines.len())
}

/// The end of the line before one.
fn end_before<T: Lines>(lines: &T, b: usize) -> Place
    requires some { 0 < b }
    requires within { b ≤ length (T.lines lines.now) }
    ensures end { result ≡ spec.end_before (T.lines lines.now) b }
    ensures place { IsPlaceOf (T.lines lines.now) result }
{
    Place {
        line: b - 1,
        col: lines.line(b - 1).len(),
    }
}

/// Whether the text has few enough lines with its matches replaced. Nothing is made.
fn check_lines<T: Lines>(
    alloc: Global,
    lines: &T,
    string: &[Piece],
    first: &Match,
    rest: &[Match],
) -> Result<(), Refusal>
    ensures { HasFewLines result (T.lines lines.now)
        (spec.substitution (T.lines lines.now) string.now first.now rest.now) }
{
    let tally = tally_of(alloc, string)?;
    let b = line_behind(lines, first, rest);
    let kept = kept_lines(lines, first.from.line, b);
    count_lines(lines, &tally, first, rest, end_before(lines, b), kept)?;
    Ok(())
}

/// From the line of the first match on up to a place, with the string in place of each match.
fn made<T: Lines>(
    alloc: Global,
    lines: &T,
    string: &[Piece],
    first: &Match,
    rest: &[Match],
    to: Place,
) -> Result<Pen, Refusal>
    requires first { IsFoundOn (T.lines lines.now) first.now }
    requires rest { All (IsFoundOn (T.lines lines.now)) rest.now }
    requires to { IsPlaceOf (T.lines lines.now) to }
    ensures { Makes result (with_all (T.lines lines.now) string.now
        (place first.now.from.line 0) (first.now ∷ rest.now) to blank_pen) }
{
    let mut pen = Pen::new(alloc);
    let from = Place {
        line: first.from.line,
        col: 0,
    };
    pen.put_match(alloc, lines, string, from, first)?;
    pen.put_replaced(alloc, lines, string, rest, first.to, to)?;
    Ok(pen)
}

/// The change that a substitution makes, within the limits of a text.
fn substitution<T: Lines>(
    alloc: Global,
    lines: &T,
    string: &[Piece],
    first: &Match,
    rest: &[Match],
) -> Result<Change, Refusal>
    requires first { IsFoundOn (T.lines lines.now) first.now }
    requires rest { All (IsFoundOn (T.lines lines.now)) rest.now }
    ensures { Gives result (spec.within_limits (T.lines lines.now)
        (spec.substitution (T.lines lines.now) string.now first.now rest.now)) }
{
    check_lines(alloc, lines, string, first, rest)?;
    let b = line_behind(lines, first, rest);
    let pen = made(alloc, lines, string, first, rest, end_before(lines, b))?;
    let change = Change {
        a: first.from.line,
        b,
        new: pen.into_lines()?,
        count: rest.len() + 1,
    };
    let change = within_limits(lines, change)?;
    Ok(change)
}

/// Matches that are counted alone.
fn counting(alloc: Global, first: &Match, rest: &[Match]) -> Change
    ensures { result ≡ spec.counting first.now rest.now }
{
    Change {
        a: first.from.line,
        b: first.from.line,
        new: List::new(alloc),
        count: rest.len() + 1,
    }
}

/// The first match and the others.
fn parted(found: &[Match]) -> Option<(&Match, &[Match])>
    ensures { MatchOption result (found.now ≡ []) (λ p. found.now ≡ p.0.now ∷ p.1.now) }
{
    found.split_first()
}

/// What is made of a text in which these matches are found.
fn changed<T: Lines>(
    alloc: Global,
    lines: &T,
    string: &[Piece],
    count_only: bool,
    found: &[Match],
) -> Result<Change, Refusal>
    requires { All (IsFoundOn (T.lines lines.now)) found.now }
    ensures { Gives result
        (spec.change_by (T.lines lines.now) string.now count_only found.now) }
{
    match parted(found) {
        None => Err(Refusal::Cause(ExError::NoMatch)),
        Some((first, rest)) => {
            if count_only {
                return Ok(counting(alloc, first, rest));
            }
            substitution(alloc, lines, string, first, rest)
        }
    }
}

impl Trying<'_> {
    /// What a substitution makes of the lines from `a` on.
    pub fn substituted<T: Lines>(
        &self,
        lines: &T,
        string: &[Piece],
        scope: Scope,
        count_only: bool,
        a: usize,
    ) -> Result<Change, Refusal>
        requires within { scope.b ≤ length (T.lines lines.now) }
        requires budget { 1 ≤ self.now.budget }
        ensures { Gives result (substituted (trial_in (T.lines lines.now) self.now) scope
            string.now count_only a) }
    {
        let found = self.replacements(lines, scope, a)?;
        let change = changed(self.alloc, lines, string, count_only, found.as_slice())?;
        Ok(change)
    }
}
