//! How far the text of a reference stands, from a place on.
ghost use Rattle.std.specs.Prelude.{◌≡◌, ◌∷◌, ◌++◌, [], drop, take, ◌-◌};
ghost use Rattle.match_rules.specs.Ways.{IsPlaceOf, line_at};
ghost use Rattle.match_rules.specs.Atoms.{characters, text_between, line_end};
ghost use Rattle.pattern_match.specs.Contexts.{context_in};
ghost use Rattle.pattern_match.specs.Walks.{walked};

use crate::Context;
use crate::standing::{behind_character, behind_line_end};
use syn_base::{Lines, Place};

/// How far a text stands.
#[derive(Clone, Copy)]
pub(crate) struct Walked {
    /// The place behind the text, or that of the first piece of it that doesn't stand.
    pub at: Place,
    /// Whether all of it stands.
    pub whole: bool,
}

/// How far characters stand.
pub(crate) fn walk_characters<T: Lines>(
    lines: &T,
    context: &Context,
    text: &[char],
    at: Place,
) -> Walked
    requires { IsPlaceOf (T.lines lines.now) at }
    ensures value { result ≡ walked (context_in (T.lines lines.now) context.now)
        (characters text.now) at }
    ensures place { IsPlaceOf (T.lines lines.now) result.at }
{
    let mut at = at;
    for c in text {
        match behind_character(lines, at, *c, context.ignore) {
            Some(behind) => at = behind,
            None => return Walked { at, whole: false },
        }
    }
    Walked { at, whole: true }
}

/// A line; one that isn't there is empty.
pub(crate) fn line_at<T: Lines>(lines: &T, line: usize) -> &[char]
    ensures { result.now ≡ line_at (T.lines lines.now) line }
{
    if line < lines.len() {
        lines.line(line)
    } else {
        &[]
    }
}

/// A line from one column up to another; a line that isn't there is empty.
pub(crate) fn part_of_line<T: Lines>(lines: &T, from: Place, stop: usize) -> &[char]
    ensures { result.now ≡ take (stop - from.col)
        (drop from.col (line_at (T.lines lines.now) from.line)) }
{
    if from.line >= lines.len() {
        return &[];
    }
    let line = lines.line(from.line);
    let stop = stop.min(line.len());
    if from.col >= stop {
        return &[];
    }
    &line[from.col..stop]
}

/// A line from a column on; a line that isn't there is empty.
pub(crate) fn rest_of_line<T: Lines>(lines: &T, from: Place) -> &[char]
    ensures { result.now ≡ drop from.col (line_at (T.lines lines.now) from.line) }
{
    if from.line >= lines.len() {
        return &[];
    }
    let line = lines.line(from.line);
    &line[from.col.min(line.len())..]
}

/// How far the rest of a line and its line end stand.
fn walk_line<T: Lines>(lines: &T, context: &Context, from: Place, at: Place) -> Walked
    requires { IsPlaceOf (T.lines lines.now) at }
    ensures value { result ≡ walked (context_in (T.lines lines.now) context.now)
        (characters (drop from.col (line_at (T.lines lines.now) from.line)) ++ line_end ∷ []) at }
    ensures place { IsPlaceOf (T.lines lines.now) result.at }
{
    let walked = walk_characters(lines, context, rest_of_line(lines, from), at);
    if !walked.whole {
        return walked;
    }
    match behind_line_end(lines, walked.at) {
        Some(behind) => Walked {
            at: behind,
            whole: true,
        },
        None => Walked {
            at: walked.at,
            whole: false,
        },
    }
}

/// How far the text between two places stands.
pub(crate) fn walk_between<T: Lines>(
    lines: &T,
    context: &Context,
    from: Place,
    to: Place,
    at: Place,
) -> Walked
    requires { IsPlaceOf (T.lines lines.now) at }
    ensures value { result ≡ walked (context_in (T.lines lines.now) context.now)
        (text_between (T.lines lines.now) from to) at }
    ensures place { IsPlaceOf (T.lines lines.now) result.at }
{
    let mut from = from;
    let mut at = at;
    while from.line < to.line {
        let walked = walk_line(lines, context, from, at);
        if !walked.whole {
            return walked;
        }
        at = walked.at;
        from = Place {
            line: from.line + 1,
            col: 0,
        };
    }
    walk_characters(lines, context, part_of_line(lines, from, to.col), at)
}
