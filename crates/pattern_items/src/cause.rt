//! Why a pattern has no tree, and how that is told.
ghost use Rattle.std.specs.Prelude.{◌≡◌, encode_utf8_all};
ghost use Rattle.std.specs.Fmt.{WritesOnOk};

use std::fmt;
use syn_base::List;
use text_scan::front;

/// Why a pattern has no tree.
#[derive(Drop)]
pub enum PatternCause {
    Unclosed,
    UnopenedClose,
    DoubleCount,
    NothingToRepeat,
    BadCount,
    BadCode,
    BadRange,
    BadUnderscore,
    /// A number above the groups that have opened so far.
    BadReference,
    EmptyOptional,
    TooManyGroups,
    ExternalHere,
    /// An item that this profile leaves out, by its characters.
    LeftOut(List<char>),
    TooNested,
    TooLong,
}

impl PatternCause {
    ghost use Rattle.pattern_items.specs.CauseText as spec;

    /// The text without the item that is left out.
    fn label(&self) -> &'static str
        ensures { result.now ≡ spec.label self.now }
    {
        match self {
            PatternCause::Unclosed => "unclosed",
            PatternCause::UnopenedClose => "close without open",
            PatternCause::DoubleCount => "count on a count",
            PatternCause::NothingToRepeat => "nothing to repeat",
            PatternCause::BadCount => "bad count",
            PatternCause::BadCode => "bad code",
            PatternCause::BadRange => "reversed range",
            PatternCause::BadUnderscore => "bad class after \\_",
            PatternCause::BadReference => "no such group",
            PatternCause::EmptyOptional => "empty optional list",
            PatternCause::TooManyGroups => "more than nine groups",
            PatternCause::ExternalHere => "external not allowed here",
            PatternCause::LeftOut(_) => "left out: ",
            PatternCause::TooNested => "nested too deep",
            PatternCause::TooLong => "pattern too long",
        }
    }
}

fn write_chars<W: fmt::Write>(f: &mut fmt::Formatter<W>, chars: &[char]) -> fmt::Result
    ensures { WritesOnOk W.write_str_gives f.old result (encode_utf8_all chars.now) f.new }
{
    let mut rest = chars;
    while let Some((c, more)) = front(rest) {
        f.write_char(c)?;
        rest = more;
    }
    Ok(())
}

impl fmt::Display for PatternCause {
    ghost use Rattle.std.specs.Prelude.{Some};
    ghost use Rattle.pattern_items.specs.CauseText.{cause_text};

    ghost output = { λ cause. Some (cause_text cause) };

    fn fmt<W: fmt::Write>(&self, f: &mut fmt::Formatter<W>) -> fmt::Result {
        f.write_str(self.label())?;
        match self {
            PatternCause::LeftOut(item) => write_chars(f, item.as_slice()),
            _ => Ok(()),
        }
    }
}
