//! Class names in collections.
ghost use Rattle.std.specs.Prelude.{◌≡◌, ◌≤◌, ◌<◌, [], ◌∷◌, ◌++◌, length, IsTrue, OnOk, OnErr, IfSome};
ghost use Rattle.std.specs.List.{starts_with, find};
ghost use Rattle.std.specs.Prelude.{nat_eq};
ghost use Rattle.pattern_items.specs.ClassNames as spec;

use crate::SetPart;
use syn_base::{Class, List, Memory};
use text_scan::front;

/// A name that may stand between `[:` and `:]` (`/[:alpha:]`).
#[derive(Clone, Copy)]
pub enum ClassName {
    Alnum,
    Alpha,
    Blank,
    Cntrl,
    Digit,
    Graph,
    Lower,
    Print,
    Punct,
    Space,
    Upper,
    Xdigit,
    Return,
    Tab,
    Escape,
    Backspace,
    Ident,
    Keyword,
    Fname,
}

const CLASS_NAMES: [ClassName; 19] = [
    ClassName::Alnum,
    ClassName::Alpha,
    ClassName::Blank,
    ClassName::Cntrl,
    ClassName::Digit,
    ClassName::Graph,
    ClassName::Lower,
    ClassName::Print,
    ClassName::Punct,
    ClassName::Space,
    ClassName::Upper,
    ClassName::Xdigit,
    ClassName::Return,
    ClassName::Tab,
    ClassName::Escape,
    ClassName::Backspace,
    ClassName::Ident,
    ClassName::Keyword,
    ClassName::Fname,
];

/// What stands behind the bracket of a name.
fn word(name: ClassName) -> &'static str
    ensures value { result.now ≡ spec.word name }
    ensures some { 0 < length result.now }
    ensures few { length result.now ≤ 16 }
{
    match name {
        ClassName::Alnum => ":alnum:]",
        ClassName::Alpha => ":alpha:]",
        ClassName::Blank => ":blank:]",
        ClassName::Cntrl => ":cntrl:]",
        ClassName::Digit => ":digit:]",
        ClassName::Graph => ":graph:]",
        ClassName::Lower => ":lower:]",
        ClassName::Print => ":print:]",
        ClassName::Punct => ":punct:]",
        ClassName::Space => ":space:]",
        ClassName::Upper => ":upper:]",
        ClassName::Xdigit => ":xdigit:]",
        ClassName::Return => ":return:]",
        ClassName::Tab => ":tab:]",
        ClassName::Escape => ":escape:]",
        ClassName::Backspace => ":backspace:]",
        ClassName::Ident => ":ident:]",
        ClassName::Keyword => ":keyword:]",
        ClassName::Fname => ":fname:]",
    }
}

/// How many characters a name takes behind its bracket.
pub fn name_len(name: ClassName) -> usize
    ensures { result ≡ length (spec.word name) }
{
    word(name).len()
}

fn begins_with(text: &[char], word: &[u8]) -> bool
    ensures value { result ≡ starts_with nat_eq text.now word.now }
    ensures within { IsTrue result → length word.now ≤ length text.now }
{
    let mut rest = text;
    for byte in word {
        match front(rest) {
            None => return false,
            Some((c, more)) => {
                if c as u32 != *byte as u32 {
                    return false;
                }
                rest = more;
            }
        }
    }
    true
}

/// The first of these names that is at a text.
fn first_named(names: &[ClassName], text: &[char]) -> Option<ClassName>
    ensures value { result ≡ find (λ name. starts_with nat_eq text.now (spec.word name)) names.now }
    ensures within { IfSome result (λ name. length (spec.word name) ≤ length text.now) }
{
    for name in names {
        if begins_with(text, word(*name).as_bytes()) {
            return Some(*name);
        }
    }
    None
}

/// The name at a text that stands behind a bracket.
pub fn name_at(text: &[char]) -> Option<ClassName>
    ensures value { result ≡ spec.name_at text.now }
    ensures within { IfSome result (λ name. length (spec.word name) ≤ length text.now) }
{
    first_named(&CLASS_NAMES, text)
}

/// The part that a name stands for; `alnum` stands for two, and this is the first.
fn first_part(name: ClassName) -> SetPart
    ensures { result ≡ spec.first_part name }
{
    match name {
        ClassName::Alnum | ClassName::Alpha => SetPart::Of(Class::Alpha),
        ClassName::Blank => SetPart::Of(Class::White),
        ClassName::Cntrl => SetPart::Cntrl,
        ClassName::Digit => SetPart::Of(Class::Digit),
        ClassName::Graph => SetPart::Graph,
        ClassName::Lower => SetPart::Of(Class::Lower),
        ClassName::Print => SetPart::Of(Class::Print),
        ClassName::Punct => SetPart::Punct,
        ClassName::Space => SetPart::Space,
        ClassName::Upper => SetPart::Of(Class::Upper),
        ClassName::Xdigit => SetPart::Of(Class::Hex),
        ClassName::Return => SetPart::Range('\r', '\r'),
        ClassName::Tab => SetPart::Range('\t', '\t'),
        ClassName::Escape => SetPart::Range('\u{1b}', '\u{1b}'),
        ClassName::Backspace => SetPart::Range('\u{8}', '\u{8}'),
        ClassName::Ident => SetPart::Of(Class::Ident),
        ClassName::Keyword => SetPart::Of(Class::Keyword),
        ClassName::Fname => SetPart::Of(Class::File),
    }
}

fn is_alnum(name: ClassName) -> bool
    ensures { result ≡ spec.is_alnum name }
{
    matches!(name, ClassName::Alnum)
}

/// Puts the parts of a name behind the others.
pub fn push_name(parts: &mut List<SetPart>, name: ClassName) -> Result<(), Memory>
    ensures { OnOk result (parts.new ≡ parts.old ++ spec.parts_of name) }
{
    parts.push(first_part(name))?;
    if is_alnum(name) {
        parts.push(SetPart::Of(Class::Digit))?;
    }
    Ok(())
}
