//! The value of an option such as 'iskeyword' (`'isfname'`), read a character at a time.
//!
//! A reader looks at each character once and keeps no text: what was read of a part is at most two
//! codes.
ghost use Rattle.std.specs.Prelude.{◌≡◌, ◌+◌, ◌-◌, ◌<◌, ◌^◌, ℕ, List, [], ◌∷◌, if◌then◌else◌, Some, Err, OnOk, IfErr};
ghost use Rattle.char_class.specs.Classes.{is_digit};
ghost use Rattle.char_class.specs.OptionValue.{codes_between, ends_part, is_named, set_of, valid_code};
ghost use Rattle.char_class.specs.SoFar.{bounds_of, code_with, is_nothing, is_untouched, longer_code, longer_part, members_with, nothing_read, part_with, place_in, resumed};

use crate::CharSet;
use unicode::properties::is_alphabetic;

/// The value of an option has a part with no reading.
#[derive(Clone, Copy, Debug, PartialEq, Eq)]
pub struct BadOption {
    /// The place of the part's first character in the value, in characters from 0; of an empty part
    /// at the end, the value's length.
    pub at: usize,
}

/// What a part of a value names.
#[derive(Clone, Copy)]
pub(crate) enum Members {
    /// `@`.
    Letters,
    /// The codes from the first to the last one.
    Codes(u8, u8),
}

impl Members {
    /// The least and the greatest code that may be one of these.
    pub(crate) fn bounds(self) -> (u8, u8)
        ensures { result ≡ bounds_of self }
    {
        match self {
            Members::Letters => (0, u8::MAX),
            Members::Codes(first, last) => (first, last),
        }
    }

    /// Whether the code is one of these.
    pub(crate) fn have(self, code: u8) -> bool
        ensures { result ≡ is_named self code }
    {
        match self {
            Members::Letters => is_alphabetic(char::from(code)),
            Members::Codes(first, last) => first <= code && code <= last,
        }
    }
}

/// A part of a value.
#[derive(Clone, Copy)]
pub(crate) struct Part {
    pub taken_out: bool,
    pub members: Members,
}

/// What was read of a code.
#[derive(Clone, Copy)]
enum CodeSoFar {
    Nothing,
    /// Digits. The number stops at the greatest one of 16 bits, which is no code.
    Number(u16),
    Character(char),
}

impl CodeSoFar {
    fn is_nothing(self) -> bool
        ensures { result ≡ is_nothing self }
    {
        matches!(self, CodeSoFar::Nothing)
    }

    /// With one more character, where a code can go on so.
    fn with(self, c: char) -> Option<CodeSoFar>
        ensures { result ≡ longer_code self c }
    {
        match (self, digit(c)) {
            (CodeSoFar::Nothing, Some(digit)) => Some(CodeSoFar::Number(digit)),
            (CodeSoFar::Nothing, None) => Some(CodeSoFar::Character(c)),
            (CodeSoFar::Number(n), Some(digit)) => {
                Some(CodeSoFar::Number(n.saturating_mul(10).saturating_add(digit)))
            }
            _ => None,
        }
    }

    /// What a part names that has this alone.
    fn alone(self) -> Option<Members>
        ensures { result ≡ members_with self None [] }
    {
        match self {
            CodeSoFar::Character('@') => Some(Members::Letters),
            CodeSoFar::Character(',') => Some(Members::Codes(b',', b',')),
            _ => {
                let code = self.code()?;
                codes_between(code, code)
            }
        }
    }

    /// The code, where what was read is one.
    fn code(self) -> Option<u8>
        ensures { result ≡ code_with self [] }
    {
        match self {
            CodeSoFar::Nothing | CodeSoFar::Character(',') => None,
            CodeSoFar::Number(n) => valid(u32::from(n)),
            CodeSoFar::Character(c) => valid(u32::from(c)),
        }
    }
}

fn digit(c: char) -> Option<u16>
    ensures { result ≡ (if is_digit c then Some (c - 48) else None) }
{
    if c.is_ascii_digit() {
        Some(c as u16 - '0' as u16)
    } else {
        None
    }
}

/// A number that is a code.
fn valid(n: u32) -> Option<u8>
    ensures { result ≡ valid_code n }
{
    match u8::try_from(n) {
        Ok(code) if code > 0 => Some(code),
        _ => None,
    }
}

/// What was read of a part: whether its `^`, the code before its dash, and the one behind it.
#[derive(Clone, Copy)]
struct PartSoFar {
    taken_out: bool,
    first: CodeSoFar,
    last: Option<CodeSoFar>,
}

impl PartSoFar {
    fn new() -> PartSoFar
        ensures { result ≡ nothing_read }
    {
        PartSoFar {
            taken_out: false,
            first: CodeSoFar::Nothing,
            last: None,
        }
    }

    /// Whether nothing of what the part names was read.
    fn is_untouched(self) -> bool
        ensures { result ≡ is_untouched self.first self.last }
    {
        self.last.is_none() && self.first.is_nothing()
    }

    /// Whether `c`, where it comes next, is a comma that ends the part.
    fn ends_at(self, c: char) -> bool
        ensures { result ≡ ends_part (place_in self) c }
    {
        c == ',' && !self.is_untouched()
    }

    /// With one more character, where a part can go on so.
    fn with(self, c: char) -> Option<PartSoFar>
        ensures { result ≡ longer_part self c }
    {
        if let Some(last) = self.last {
            let last = last.with(c)?;
            return Some(PartSoFar {
                last: Some(last),
                ..self
            });
        }
        if self.first.is_nothing() && c == '^' && !self.taken_out {
            return Some(PartSoFar {
                taken_out: true,
                ..self
            });
        }
        if !self.first.is_nothing() && c == '-' {
            return Some(PartSoFar {
                last: Some(CodeSoFar::Nothing),
                ..self
            });
        }
        let first = self.first.with(c)?;
        Some(PartSoFar { first, ..self })
    }

    /// The part, where what was read is one.
    fn part(self) -> Option<Part>
        ensures { result ≡ part_with self [] }
    {
        if self.is_untouched() && self.taken_out {
            return Some(Part {
                taken_out: false,
                members: Members::Codes(b'^', b'^'),
            });
        }
        let members = self.members()?;
        Some(Part {
            taken_out: self.taken_out,
            members,
        })
    }

    fn members(self) -> Option<Members>
        ensures { result ≡ members_with self.first self.last [] }
    {
        match self.last {
            Some(last) => codes_between(self.first.code()?, last.code()?),
            None => self.first.alone(),
        }
    }
}

fn codes_between(first: u8, last: u8) -> Option<Members>
    ensures { result ≡ codes_between (Some first) (Some last) }
{
    if first <= last {
        Some(Members::Codes(first, last))
    } else {
        None
    }
}

/// What was read of a value: the set of the parts before, and the part that began at `start`, of
/// which the character at `at` comes next.
#[derive(Drop)]
pub(crate) struct Reader {
    set: CharSet,
    part: PartSoFar,
    start: usize,
    at: usize,
}

impl Reader {
    pub(crate) fn new() -> Reader
        ensures fresh { (cs : List ℕ) → resumed result cs ≡ set_of cs }
        ensures front { result.at ≡ 0 }
    {
        Reader {
            set: CharSet::new(),
            part: PartSoFar::new(),
            start: 0,
            at: 0,
        }
    }

    /// Reads one more character.
    pub(crate) fn take(&mut self, c: char) -> Result<(), BadOption>
        requires { self.old.at + 1 < 2 ^ 64 }
        ensures ok { OnOk result ((cs : List ℕ) → resumed self.new cs ≡ resumed self.old (c ∷ cs)) }
        ensures next { OnOk result (self.new.at ≡ self.old.at + 1) }
        ensures bad { IfErr result (λ bad. (cs : List ℕ) → resumed self.old (c ∷ cs) ≡ Err bad) }
    {
        if self.part.ends_at(c) {
            let part = self.part.part().ok_or(BadOption { at: self.start })?;
            self.set.apply(part);
            self.part = PartSoFar::new();
            self.start = self.at + 1;
        } else {
            self.part = self.part.with(c).ok_or(BadOption { at: self.start })?;
        }
        self.at += 1;
        Ok(())
    }

    /// The set, where nothing follows.
    pub(crate) fn end(self) -> Result<CharSet, BadOption>
        ensures { result ≡ resumed self [] }
    {
        let part = self.part.part().ok_or(BadOption { at: self.start })?;
        let mut set = self.set;
        set.apply(part);
        Ok(set)
    }
}
