//! What a match may begin with.
ghost use Rattle.std.specs.Prelude.{◌≡◌, ◌<◌, ◌||◌, ℕ, not, Some};
ghost use Rattle.char_class.specs.Bits.{has_code};
ghost use Rattle.ex_substitute.specs.Begins.{AreBegins, screen_passes};

use crate::ExCommand;
use crate::seconds::seconds_of;
use char_class::Codes;
use pattern_match::Context;

/// What a match may begin with, as far as the screen of a pattern tells. It is asked for each character
/// below 256 once, so that a text is gone over without it.
#[derive(Clone, Copy)]
pub(crate) struct Begins {
    /// The characters below 256.
    pub codes: Codes,
    /// Those that may stand second.
    pub seconds: Codes,
    /// Whether a line's end.
    pub at_end: bool,
    /// Whether the screen tells anything: the budget allows for it.
    pub is_screened: bool,
}

impl Begins {
    /// What a match of a command's pattern may begin with.
    pub fn of(command: &ExCommand, context: &Context, budget: u64) -> Begins
        ensures { AreBegins
            (record { tree = command.now.tree; context = context.now; budget = budget }) result }
    {
        let is_screened = command.is_screened(budget);
        Begins {
            codes: codes_of(command, context, is_screened),
            seconds: seconds_of(command, context, budget),
            at_end: may_begin(command, context, is_screened, None),
            is_screened,
        }
    }
}

/// Whether a match may begin where this stands.
fn may_begin(command: &ExCommand, context: &Context, is_screened: bool, next: Option<char>) -> bool
    ensures { result ≡ (not is_screened || screen_passes command.now.tree context.now next) }
{
    !is_screened || command.screen_passes(next, context)
}

/// The characters below 256 with which a match may begin.
fn codes_of(command: &ExCommand, context: &Context, is_screened: bool) -> Codes
    ensures { (c : ℕ) → c < 256 →
        has_code result c ≡ (not is_screened || screen_passes command.now.tree context.now (Some c)) }
{
    let mut codes = Codes::none();
    for code in 0..=u8::MAX {
        let next = Some(char::from(code));
        codes.set(code, may_begin(command, context, is_screened, next));
    }
    codes
}
