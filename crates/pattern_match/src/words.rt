//! Where words begin and end, by the keyword characters.
ghost use Rattle.std.specs.Prelude.{◌≡◌, ◌&&◌, not};
ghost use Rattle.match_rules.specs.Atoms.{keyword_at, keyword_before};
ghost use Rattle.pattern_match.specs.Contexts.{context_in};

use crate::Context;
use crate::standing::character_at;
use syn_base::{Lines, Place};

/// Whether a word begins at a place (`/\<`).
pub(crate) fn is_word_start<T: Lines>(lines: &T, context: &Context, at: Place) -> bool
    ensures { result ≡ (keyword_at (context_in (T.lines lines.now) context.now) at
        && not (keyword_before (context_in (T.lines lines.now) context.now) at)) }
{
    is_keyword_at(lines, context, at) && !is_keyword_before(lines, context, at)
}

/// Whether a word ends at a place (`/\>`).
pub(crate) fn is_word_stop<T: Lines>(lines: &T, context: &Context, at: Place) -> bool
    ensures { result ≡ (keyword_before (context_in (T.lines lines.now) context.now) at
        && not (keyword_at (context_in (T.lines lines.now) context.now) at)) }
{
    is_keyword_before(lines, context, at) && !is_keyword_at(lines, context, at)
}

/// Whether a keyword character stands at a place.
fn is_keyword_at<T: Lines>(lines: &T, context: &Context, at: Place) -> bool
    ensures { result ≡ keyword_at (context_in (T.lines lines.now) context.now) at }
{
    match character_at(lines, at) {
        Some(c) => context.sets.keyword.has(c),
        None => false,
    }
}

/// Whether a keyword character stands before a place, in its line.
fn is_keyword_before<T: Lines>(lines: &T, context: &Context, at: Place) -> bool
    ensures { result ≡ keyword_before (context_in (T.lines lines.now) context.now) at }
{
    if at.col == 0 {
        return false;
    }
    let before = Place {
        line: at.line,
        col: at.col - 1,
    };
    is_keyword_at(lines, context, before)
}
