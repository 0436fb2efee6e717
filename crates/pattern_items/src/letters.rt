//! Class letters.
ghost use Rattle.std.specs.Prelude.{◌≡◌};
ghost use Rattle.pattern_items.specs.Letters as spec;

use crate::Atom;
use syn_base::Class;

/// The class of a letter that stands for its characters.
fn class_of(c: char) -> Option<Class>
    ensures { result ≡ spec.class_of c }
{
    match c {
        's' => Some(Class::White),
        'd' => Some(Class::Digit),
        'x' => Some(Class::Hex),
        'o' => Some(Class::Octal),
        'w' => Some(Class::Word),
        'h' => Some(Class::Head),
        'a' => Some(Class::Alpha),
        'l' => Some(Class::Lower),
        'u' => Some(Class::Upper),
        'i' => Some(Class::Ident),
        'k' => Some(Class::Keyword),
        'f' => Some(Class::File),
        'p' => Some(Class::Print),
        'I' => Some(Class::IdentNoDigit),
        'K' => Some(Class::KeywordNoDigit),
        'F' => Some(Class::FileNoDigit),
        'P' => Some(Class::PrintNoDigit),
        _ => None,
    }
}

/// The class of a letter that stands for all other characters.
fn opposite_of(c: char) -> Option<Class>
    ensures { result ≡ spec.opposite_of c }
{
    match c {
        'S' => Some(Class::White),
        'D' => Some(Class::Digit),
        'X' => Some(Class::Hex),
        'O' => Some(Class::Octal),
        'W' => Some(Class::Word),
        'H' => Some(Class::Head),
        'A' => Some(Class::Alpha),
        'L' => Some(Class::Lower),
        'U' => Some(Class::Upper),
        _ => None,
    }
}

/// The atom of a class letter.
pub fn class_atom(line_end: bool, c: char) -> Option<Atom>
    ensures { result ≡ spec.class_atom line_end c }
{
    match class_of(c) {
        Some(class) => Some(Atom::Is {
            class,
            not: false,
            line_end,
        }),
        None => match opposite_of(c) {
            Some(class) => Some(Atom::Is {
                class,
                not: true,
                line_end,
            }),
            None => None,
        },
    }
}
