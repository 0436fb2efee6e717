//! The classes of characters.
ghost use Rattle.std.specs.Prelude.{◌≡◌};
ghost use Rattle.char_class.specs.Classes.{class_holds, is_printable};

use crate::Sets;
use syn_base::Class;

/// Whether the class has `c` (`/character-classes`), where the sets are those of 'isident',
/// 'iskeyword' and 'isfname'. No class follows case. Which characters are printable is this
/// profile's.
pub fn class_has(class: Class, c: char, sets: &Sets) -> bool
    ensures { result ≡ class_holds class c sets.now }
{
    match class {
        Class::White => c == ' ' || c == '\t',
        Class::Digit => c.is_ascii_digit(),
        Class::Hex => c.is_ascii_hexdigit(),
        Class::Octal => ('0'..='7').contains(&c),
        Class::Word => c.is_ascii_alphanumeric() || c == '_',
        Class::Head => c.is_ascii_alphabetic() || c == '_',
        Class::Alpha => c.is_ascii_alphabetic(),
        Class::Lower => c.is_ascii_lowercase(),
        Class::Upper => c.is_ascii_uppercase(),
        Class::Ident => sets.ident.has(c),
        Class::Keyword => sets.keyword.has(c),
        Class::File => sets.file.has(c),
        Class::Print => is_print(c),
        Class::IdentNoDigit => !c.is_ascii_digit() && sets.ident.has(c),
        Class::KeywordNoDigit => !c.is_ascii_digit() && sets.keyword.has(c),
        Class::FileNoDigit => !c.is_ascii_digit() && sets.file.has(c),
        Class::PrintNoDigit => !c.is_ascii_digit() && is_print(c),
    }
}

fn is_print(c: char) -> bool
    ensures { result ≡ is_printable c }
{
    (' '..='~').contains(&c) || c >= '\u{A1}'
}
