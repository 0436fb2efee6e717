//! The spelling of an item.
ghost use Rattle.std.specs.Prelude.{◌≡◌, ◌^◌, [], ◌∷◌, ◌<◌, ◌≤◌, ◌+◌, ◌-◌, length, Some, None, true, IfSome};
ghost use Rattle.std.specs.List.{list_all};
ghost use Rattle.pattern_items.specs.Spelling as spec;
ghost use Rattle.pattern_items.specs.Letters as letters;
ghost use Rattle.pattern_items.specs.Numbers as numbers;
ghost use Rattle.pattern_items.specs.Vain.{Known};

use crate::codes::{Notation, char_of, code_at, notation_of};
use crate::item::{Level, Raw, Spelled};
use crate::letters::class_atom;
use crate::multis::{braces, count, look};
use crate::numbers::{digit_count, number_of_digits};
use crate::scan::{behind, first_of};
use crate::vain::known_len;
use crate::{Atom, Compare, PatternCause};
use text_scan::front;

fn rank(level: Level) -> u8
    ensures { result ≡ spec.rank level }
{
    match level {
        Level::VeryNo => 0,
        Level::No => 1,
        Level::Usual => 2,
        Level::Very => 3,
    }
}

fn bare_from(c: char) -> u8
    ensures { result ≡ spec.bare_from c }
{
    match c {
        '^' | '$' => 1,
        '.' | '[' | '*' | '~' => 2,
        '(' | ')' | '|' | '&' | '+' | '=' | '?' | '{' | '@' | '%' | '<' | '>' => 3,
        _ => 4,
    }
}

fn is_bare_item(level: Level, c: char) -> bool
    ensures { result ≡ spec.is_bare_item level c }
{
    bare_from(c) <= rank(level)
}

fn spelled(raw: Raw, len: usize) -> Spelled
    ensures value { result ≡ spec.spelled raw len }
    ensures len { result.len ≡ len }
{
    Spelled { raw, len }
}

fn atom(atom: Atom, len: usize) -> Spelled
    ensures value { result ≡ spec.atom atom len }
    ensures len { result.len ≡ len }
{
    spelled(Raw::Atom(atom), len)
}

fn wrong(cause: PatternCause, len: usize) -> Spelled
    ensures value { result ≡ spec.wrong cause len }
    ensures len { result.len ≡ len }
{
    spelled(Raw::Wrong(cause), len)
}

fn is_number(c: char) -> bool
    ensures { result ≡ spec.is_number c }
{
    '1' <= c && c <= '9'
}

/// The number of a digit from 1 on.
fn number_of(c: char) -> u8
    requires { spec.is_number c ≡ true }
    ensures { result ≡ c - 48 }
{
    (c as u32 - 48) as u8
}

/// The line of a number (`/\%l`).
fn line_number(len: usize, how: Compare, digits: &[char]) -> Spelled
    requires room { len + length digits.now < 2 ^ 62 }
    requires digits { list_all numbers.is_digit digits.now ≡ true }
    ensures value { result ≡ spec.line_number len how digits.now }
    ensures within { (len ≤ result.len) × (result.len ≤ len + length digits.now + 1) }
{
    let count = digits.len();
    if count <= 9 {
        let number = number_of_digits(digits);
        atom(Atom::LineNumber { how, number }, len + count + 1)
    } else {
        wrong(PatternCause::BadCode, len)
    }
}

/// A position by its number.
fn positioned(len: usize, how: Compare, text: &[char]) -> Spelled
    requires { len + length text.now < 2 ^ 62 }
    ensures value { result ≡ spec.positioned len how text.now }
    ensures within { (len ≤ result.len) × (result.len ≤ len + length text.now) }
{
    let count = digit_count(text);
    if count == 0 {
        return wrong(PatternCause::BadCode, len);
    }
    match front(behind(text, count)) {
        Some(('l', _)) => line_number(len, how, first_of(text, count)),
        Some(('c', _)) | Some(('v', _)) => spelled(Raw::LeftOut, len + count + 1),
        _ => wrong(PatternCause::BadCode, len),
    }
}

/// A mark.
fn mark(len: usize, text: &[char]) -> Spelled
    requires { len + length text.now < 2 ^ 62 }
    ensures value { result ≡ spec.mark len text.now }
    ensures within { (len ≤ result.len) × (result.len ≤ len + length text.now) }
{
    match front(text) {
        None => wrong(PatternCause::BadCode, len),
        Some(_) => spelled(Raw::LeftOut, len + 1),
    }
}

/// A position before or after another.
fn compared(len: usize, how: Compare, text: &[char]) -> Spelled
    requires { len + length text.now < 2 ^ 62 }
    ensures value { result ≡ spec.compared len how text.now }
    ensures within { (len ≤ result.len) × (result.len ≤ len + length text.now) }
{
    match front(text) {
        Some(('\'', more)) => mark(len + 1, more),
        _ => positioned(len, how, text),
    }
}

fn coded(len: usize, notation: Notation, text: &[char]) -> Spelled
    requires { len + length text.now < 2 ^ 62 }
    ensures value { result ≡ spec.coded len notation text.now }
    ensures within { (len ≤ result.len) × (result.len ≤ len + length text.now) }
{
    let code = code_at(notation, text);
    if code.count == 0 {
        return wrong(PatternCause::BadCode, len);
    }
    match char_of(code.value) {
        None => wrong(PatternCause::BadCode, len),
        Some(c) => atom(Atom::Char(c), len + code.count),
    }
}

/// The choice of an engine, which stands at a pattern's front alone.
fn engine(first: bool, len: usize, text: &[char]) -> Spelled
    requires { len + length text.now < 2 ^ 62 }
    ensures value { result ≡ spec.engine first len text.now }
    ensures within { (len ≤ result.len) × (result.len ≤ len + length text.now) }
{
    if !first {
        return spelled(Raw::LeftOut, len);
    }
    match front(text) {
        Some(('=', more)) => match front(more) {
            Some(('0', _)) | Some(('1', _)) | Some(('2', _)) => spelled(Raw::Engine, len + 2),
            _ => spelled(Raw::LeftOut, len),
        },
        _ => spelled(Raw::LeftOut, len),
    }
}

/// A code or a position, by the character behind the percent sign and what follows it.
fn code_or_position(len: usize, c: char, text: &[char], whole: &[char]) -> Spelled
    requires room { len + length whole.now < 2 ^ 62 }
    requires whole { whole.now ≡ c ∷ text.now }
    ensures value { result ≡ spec.code_or_position len c text.now }
    ensures within { (len ≤ result.len) × (result.len ≤ len + length whole.now) }
{
    match notation_of(c) {
        Some(notation) => coded(len + 1, notation, text),
        None => positioned(len, Compare::At, whole),
    }
}

/// An item behind a percent sign.
fn percent(first: bool, len: usize, text: &[char]) -> Spelled
    requires { len + length text.now < 2 ^ 62 }
    ensures value { result ≡ spec.percent first len text.now }
    ensures within { (len ≤ result.len) × (result.len ≤ len + length text.now) }
{
    match front(text) {
        None => wrong(PatternCause::BadCode, len),
        Some(('(', _)) => spelled(Raw::Plain, len + 1),
        Some(('[', _)) => spelled(Raw::Optional, len + 1),
        Some(('^', _)) => atom(Atom::FileStart, len + 1),
        Some(('$', _)) => atom(Atom::FileStop, len + 1),
        Some(('V', _)) | Some(('C', _)) => spelled(Raw::LeftOut, len + 1),
        Some(('#', more)) => engine(first, len + 1, more),
        Some(('\'', more)) => mark(len + 1, more),
        Some(('<', more)) => compared(len + 1, Compare::Before, more),
        Some(('>', more)) => compared(len + 1, Compare::After, more),
        Some((c, more)) => code_or_position(len, c, more, text),
    }
}

/// An item behind `\z`.
fn external(len: usize, text: &[char]) -> Spelled
    requires { len + length text.now < 2 ^ 62 }
    ensures value { result ≡ spec.external len text.now }
    ensures within { (len ≤ result.len) × (result.len ≤ len + length text.now) }
{
    match front(text) {
        Some(('(', _)) => spelled(Raw::External, len + 1),
        Some(('s', _)) => atom(Atom::MatchStart, len + 1),
        Some(('e', _)) => atom(Atom::MatchStop, len + 1),
        Some((c, _)) if is_number(c) => spelled(Raw::ExternalReference(number_of(c)), len + 1),
        _ => wrong(PatternCause::BadCode, len),
    }
}

/// A collection whose bracket is the last of `len` characters, or the bracket as a character.
fn collected(line_end: bool, before: u8, in_vain: bool, text: &[char]) -> Spelled
    requires few { before ≤ 2 }
    requires room { length text.now < 2 ^ 61 }
    requires known { Known in_vain (91 ∷ text.now) }
    ensures value { result ≡ spec.collected line_end before text.now }
    ensures within { (before + 1 ≤ result.len) × (result.len ≤ before + 1 + length text.now) }
{
    let len = before as usize + 1;
    match known_len(in_vain, text) {
        None => spelled(Raw::LoneBracket, len),
        Some(more) => spelled(Raw::Collection { line_end, before }, len + more),
    }
}

/// An item behind `\_`.
fn underscore(in_vain: bool, text: &[char]) -> Spelled
    requires short { length text.now < 2 ^ 61 }
    requires known { Known in_vain text.now }
    ensures value { result ≡ spec.underscore text.now }
    ensures within { (2 ≤ result.len) × (result.len ≤ 2 + length text.now) }
{
    match front(text) {
        None => wrong(PatternCause::BadUnderscore, 2),
        Some(('^', _)) => atom(Atom::LineStart, 3),
        Some(('$', _)) => atom(Atom::LineStop, 3),
        Some(('.', _)) => atom(Atom::Any { line_end: true }, 3),
        Some(('[', more)) => collected(true, 2, in_vain, more),
        Some((c, _)) => match class_atom(true, c) {
            Some(class) => atom(class, 3),
            None => wrong(PatternCause::BadUnderscore, 2),
        },
    }
}

/// The character that a backslash and a letter write.
fn control(c: char) -> Option<char>
    ensures { result ≡ spec.control c }
{
    match c {
        'e' => Some('\u{1b}'),
        't' => Some('\t'),
        'r' => Some('\r'),
        'b' => Some('\u{8}'),
        _ => None,
    }
}

/// A character, or what it stands for as a class letter.
fn class_or_character(c: char) -> Spelled
    ensures value { result ≡ spec.class_or_character c }
    ensures len { result.len ≡ 2 }
{
    match class_atom(false, c) {
        Some(class) => atom(class, 2),
        None => match control(c) {
            Some(written) => atom(Atom::Char(written), 2),
            None => atom(Atom::Char(c), 2),
        },
    }
}

/// An item of a backslash and a letter, a digit or a character without a meaning.
fn letter(c: char, in_vain: bool, text: &[char]) -> Spelled
    requires short { length text.now < 2 ^ 61 }
    requires known { Known in_vain text.now }
    ensures value { result ≡ spec.letter c text.now }
    ensures within { (2 ≤ result.len) × (result.len ≤ 2 + length text.now) }
{
    match c {
        'v' => spelled(Raw::Magic(Level::Very), 2),
        'm' => spelled(Raw::Magic(Level::Usual), 2),
        'M' => spelled(Raw::Magic(Level::No), 2),
        'V' => spelled(Raw::Magic(Level::VeryNo), 2),
        'c' => spelled(Raw::Case { ignore: true }, 2),
        'C' => spelled(Raw::Case { ignore: false }, 2),
        'n' => atom(Atom::LineEnd, 2),
        'Z' => spelled(Raw::LeftOut, 2),
        'z' => external(2, text),
        '_' => underscore(in_vain, text),
        _ => {
            if is_number(c) {
                spelled(Raw::Reference(number_of(c)), 2)
            } else {
                class_or_character(c)
            }
        }
    }
}

/// A multi, or an item that joins, opens or closes.
fn operator(len: usize, c: char, text: &[char]) -> Option<Spelled>
    requires { len + length text.now < 2 ^ 62 }
    ensures value { result ≡ spec.operator len c text.now }
    ensures within { IfSome result (λ s. (len ≤ s.len) × (s.len ≤ len + length text.now)) }
{
    match c {
        '*' => Some(spelled(Raw::Star, len)),
        '+' => Some(spelled(Raw::Multi(count(1, None, false)), len)),
        '=' | '?' => Some(spelled(Raw::Multi(count(0, Some(1), false)), len)),
        '{' => Some(braces(len, text)),
        '@' => Some(look(len, text)),
        '(' => Some(spelled(Raw::Group, len)),
        ')' => Some(spelled(Raw::Close, len)),
        '|' => Some(spelled(Raw::Bar, len)),
        '&' => Some(spelled(Raw::Also, len)),
        _ => None,
    }
}

/// An atom that may stand bare.
fn plain_atom(first: bool, len: usize, c: char, in_vain: bool, text: &[char]) -> Option<Spelled>
    requires few { (1 ≤ len) × (len ≤ 2) }
    requires room { length text.now < 2 ^ 61 }
    requires known { Known in_vain (c ∷ text.now) }
    ensures value { result ≡ spec.plain_atom first len c text.now }
    ensures within { IfSome result (λ s. (len ≤ s.len) × (s.len ≤ len + length text.now)) }
{
    match c {
        '.' => Some(atom(Atom::Any { line_end: false }, len)),
        '^' => Some(spelled(Raw::Caret, len)),
        '$' => Some(spelled(Raw::Dollar, len)),
        '[' => Some(collected(false, len as u8 - 1, in_vain, text)),
        '<' => Some(atom(Atom::WordStart, len)),
        '>' => Some(atom(Atom::WordStop, len)),
        '~' => Some(spelled(Raw::LeftOut, len)),
        '%' => Some(percent(first, len, text)),
        _ => None,
    }
}

/// An item whose character may stand bare at some level of magic.
fn magic_item(first: bool, len: usize, c: char, in_vain: bool, text: &[char]) -> Option<Spelled>
    requires few { (1 ≤ len) × (len ≤ 2) }
    requires room { length text.now < 2 ^ 61 }
    requires known { Known in_vain (c ∷ text.now) }
    ensures value { result ≡ spec.magic_item first len c text.now }
    ensures within { IfSome result (λ s. (len ≤ s.len) × (s.len ≤ len + length text.now)) }
{
    match plain_atom(first, len, c, in_vain, text) {
        Some(s) => Some(s),
        None => operator(len, c, text),
    }
}

fn bare_spelling(first: bool, level: Level, c: char, in_vain: bool, text: &[char]) -> Spelled
    requires short { length text.now < 2 ^ 61 }
    requires known { Known in_vain (c ∷ text.now) }
    ensures value { result ≡ spec.bare_spelling first level c text.now }
    ensures within { (1 ≤ result.len) × (result.len ≤ 1 + length text.now) }
{
    if c == ']' {
        return spelled(Raw::Square, 1);
    }
    if !is_bare_item(level, c) {
        return atom(Atom::Char(c), 1);
    }
    match magic_item(first, 1, c, in_vain, text) {
        Some(s) => s,
        None => atom(Atom::Char(c), 1),
    }
}

#[tactic(auto, using(crate::proofs::VainLaws::known_behind))]
fn escaped_spelling(first: bool, level: Level, in_vain: bool, text: &[char]) -> Spelled
    requires short { length text.now < 2 ^ 61 }
    requires known { Known in_vain text.now }
    ensures value { result ≡ spec.escaped_spelling first level text.now }
    ensures within { (1 ≤ result.len) × (result.len ≤ 1 + length text.now) }
{
    match front(text) {
        None => atom(Atom::Char('\\'), 1),
        Some((c, more)) => {
            if is_bare_item(level, c) {
                return atom(Atom::Char(c), 2);
            }
            match magic_item(first, 2, c, in_vain, more) {
                Some(s) => s,
                None => letter(c, in_vain, more),
            }
        }
    }
}

/// The item at the front of a text that isn't empty; `first` says that no character of the pattern
/// stands before it, and `in_vain` that a search for a closing bracket was in vain before.
#[tactic(auto, using(crate::proofs::VainLaws::known_behind))]
pub fn spelling(first: bool, level: Level, in_vain: bool, text: &[char]) -> Spelled
    requires short { length text.now < 2 ^ 61 }
    requires known { Known in_vain text.now }
    ensures value { result ≡ spec.spelling first level text.now }
    ensures some { 1 ≤ result.len }
    ensures within { 0 < length text.now → result.len ≤ length text.now }
{
    match front(text) {
        None => atom(Atom::Char('\\'), 1),
        Some(('\\', more)) => escaped_spelling(first, level, in_vain, more),
        Some((c, more)) => bare_spelling(first, level, c, in_vain, more),
    }
}
