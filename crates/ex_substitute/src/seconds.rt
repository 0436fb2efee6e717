//! What may stand second in a match.
ghost use Rattle.std.specs.Prelude.{◌≡◌, slice_get, IsTrue};
ghost use Rattle.ex_substitute.specs.Begins.{AreSeconds, BeginsWithOne, FailsBefore, IsNoSecond, may_follow};

use crate::ExCommand;
use char_class::Codes;
use pattern_match::Context;
use pattern_screens::{Key, Last, Next, fails_after, takes_first};

/// Whether an attempt is known to fail one column before a character below 256, as its second one,
/// behind a keyword character or another.
fn fails_before(command: &ExCommand, context: &Context, budget: u64, code: u8, last: Last) -> bool
    ensures { IsTrue result → FailsBefore
        (record { tree = command.now.tree; context = context.now; budget = budget }) last code }
{
    let key = Key {
        next: Next::Code(code),
        last,
    };
    let number = key.number();
    fails_after(&command.tree, context.sets, context.ignore, number, budget)
}

/// Whether a match begins with one character, at a line's first column and behind it.
fn begins_with_one(command: &ExCommand) -> bool
    ensures { IsTrue result → BeginsWithOne command.now.tree }
{
    takes_first(&command.tree, false) && takes_first(&command.tree, true)
}

/// Whether it is known that no match has a character below 256 as its second one.
fn is_no_second(command: &ExCommand, context: &Context, budget: u64, code: u8) -> bool
    ensures { IsTrue result → IsNoSecond
        (record { tree = command.now.tree; context = context.now; budget = budget }) code }
{
    begins_with_one(command)
        && fails_before(command, context, budget, code, Last::Keyword)
        && fails_before(command, context, budget, code, Last::Other)
}

/// The characters below 256 that may stand second in a match of a command's pattern, as far as is
/// known.
pub(crate) fn seconds_of(command: &ExCommand, context: &Context, budget: u64) -> Codes
    ensures { AreSeconds
        (record { tree = command.now.tree; context = context.now; budget = budget }) result }
{
    let mut codes = Codes::none();
    for code in 0..=u8::MAX {
        codes.set(code, !is_no_second(command, context, budget, code));
    }
    codes
}

/// Whether a match may have this as its second character, or none, by the table of those below 256.
fn may_follow(seconds: &Codes, next: Option<char>) -> bool
    ensures { result ≡ may_follow seconds.now next }
{
    match next {
        Some(c) => match u8::try_from(c) {
            Ok(code) => seconds.have(code),
            Err(_) => true,
        },
        None => true,
    }
}

/// Whether a match may have as its second character what stands at a column of a line.
pub(crate) fn may_follow_at(seconds: &Codes, line: &[char], col: usize) -> bool
    ensures { result ≡ may_follow seconds.now (slice_get line.now col) }
{
    may_follow(seconds, line.get(col).copied())
}
