//! Changes of case in a string.
ghost use Rattle.std.specs.Prelude.{◌≡◌};
ghost use Rattle.ex_substitute.specs.Casings as spec;

use crate::string::{Case, Piece};

/// The changes of case that are asked for: of the next character, and of all that follow.
#[derive(Clone, Copy)]
pub(crate) struct Casing {
    pub once: Option<Case>,
    pub lasting: Option<Case>,
}

/// A letter of ASCII in a case, and any other character as it is.
fn in_case(case: Case, c: char) -> char
    ensures { result ≡ spec.in_case case c }
{
    match case {
        Case::Upper => c.to_ascii_uppercase(),
        Case::Lower => c.to_ascii_lowercase(),
    }
}

impl Casing {
    /// Nothing changes.
    pub fn none() -> Casing
        ensures { result ≡ spec.no_change }
    {
        Casing {
            once: None,
            lasting: None,
        }
    }

    /// Whether nothing changes.
    pub fn is_none(self) -> bool
        ensures { result ≡ spec.changes_nothing self }
    {
        self.once.is_none() && self.lasting.is_none()
    }

    /// A character as it is put.
    pub fn changed(self, c: char) -> char
        ensures { result ≡ spec.changed_by (spec.next_change self) c }
    {
        match self.once {
            Some(case) => in_case(case, c),
            None => match self.lasting {
                Some(case) => in_case(case, c),
                None => c,
            },
        }
    }

    /// The changes behind a character.
    pub fn used(self) -> Casing
        ensures { result ≡ spec.used self }
    {
        Casing { once: None, ..self }
    }

    /// The changes behind a piece that asks for one.
    pub fn asked_by(self, piece: Piece) -> Casing
        ensures { result ≡ spec.asked_by piece self }
    {
        match piece {
            Piece::Once(case) => Casing {
                once: Some(case),
                ..self
            },
            Piece::Lasting(case) => Casing {
                lasting: Some(case),
                ..self
            },
            Piece::Plain => Casing {
                lasting: None,
                ..self
            },
            Piece::Char(_) | Piece::Break | Piece::Group(_) => self,
        }
    }
}
