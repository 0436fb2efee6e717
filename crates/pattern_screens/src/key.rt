//! What a screen sees of a column.
ghost use Rattle.std.specs.Prelude.{◌≡◌, ◌≤◌, ◌<◌, ◌+◌, ℕ, length, slice_get, slice_index, IfOk};
ghost use Rattle.pattern_screens.specs.Common.{has_keyword, AreNumbers, is_after_keyword, is_end, is_first, is_keyword, key_numbered, key_of, last_in, last_numbered, last_of, next_numbered, next_of};

use char_class::Sets;
use syn_base::Memory;

/// What stands at a column.
#[derive(Clone, Copy, Debug, PartialEq, Eq)]
pub enum Next {
    /// A character below 256, as its code.
    Code(u8),
    /// Another keyword character (`'iskeyword'`).
    OtherKeyword,
    /// Another character.
    OtherCharacter,
    /// The line's end.
    LineEnd,
}

/// What stands before a column.
#[derive(Clone, Copy, Debug, PartialEq, Eq)]
pub enum Last {
    /// Nothing: it is the first column.
    Nothing,
    /// A keyword character (`'iskeyword'`).
    Keyword,
    /// Another character.
    Other,
}

/// What a screen sees of a column.
#[derive(Clone, Copy, Debug, PartialEq, Eq)]
pub struct Key {
    pub next: Next,
    pub last: Last,
}

/// How many keys there are.
pub const KEYS: u16 = 777;

/// How many values the first part of a key has.
const NEXTS: u16 = 259;

impl Key {
    /// The key of a column of a line, that of its end too.
    pub fn of(sets: &Sets, line: &[char], col: usize) -> Key
        requires { col ≤ length line.now }
        ensures { result ≡ key_of sets.now line.now col }
    {
        Key {
            next: next_at(sets, line, col),
            last: last_in(sets, line, col),
        }
    }

    /// The key's number, by which a table can be kept.
    #[tactic(auto, using(crate::proofs::KeyLaws::numbers))]
    pub fn number(self) -> u16
        ensures below { result < 777 }
        ensures is { key_numbered result ≡ self }
    {
        last_number(self.last) * NEXTS + next_number(self.next)
    }

    /// The key of a number.
    pub fn numbered(number: u16) -> Key
        requires { number < 777 }
        ensures { result ≡ key_numbered number }
    {
        Key {
            next: next_numbered(number % NEXTS),
            last: last_numbered(number / NEXTS),
        }
    }
}

fn next_number(next: Next) -> u16
    ensures below { result < 259 }
    ensures is { next_numbered result ≡ next }
{
    match next {
        Next::Code(code) => u16::from(code),
        Next::OtherKeyword => 256,
        Next::OtherCharacter => 257,
        Next::LineEnd => 258,
    }
}

fn last_number(last: Last) -> u16
    ensures below { result < 3 }
    ensures is { last_numbered result ≡ last }
{
    match last {
        Last::Nothing => 0,
        Last::Keyword => 1,
        Last::Other => 2,
    }
}

fn next_numbered(number: u16) -> Next
    ensures { result ≡ next_numbered number }
{
    match u8::try_from(number) {
        Ok(code) => Next::Code(code),
        Err(_) => match number {
            256 => Next::OtherKeyword,
            257 => Next::OtherCharacter,
            _ => Next::LineEnd,
        },
    }
}

fn last_numbered(number: u16) -> Last
    ensures { result ≡ last_numbered number }
{
    match number {
        0 => Last::Nothing,
        1 => Last::Keyword,
        _ => Last::Other,
    }
}

/// Puts the numbers of the keys of a line's columns, that of its end included, in place of what
/// `numbers` held.
pub fn number_line(sets: &Sets, line: &[char], numbers: &mut Vec<u16>) -> Result<(), Memory>
    ensures { IfOk result
        (λ _. AreNumbers sets.now line.now (length line.now + 1) numbers.new.items) }
{
    numbers.clear();
    numbers.reserve(line.len() + 1)?;
    let mut last = Last::Nothing;
    for col in 0..line.len() {
        let next = next_at(sets, line, col);
        let key = Key { next, last };
        numbers.push_reserved(key.number());
        last = last_of(is_keyword(sets, next));
    }
    let end = Key {
        next: Next::LineEnd,
        last,
    };
    numbers.push_reserved(end.number());
    Ok(())
}

/// What stands at a column of a line.
fn next_at(sets: &Sets, line: &[char], col: usize) -> Next
    ensures { result ≡ next_of sets.now (slice_get line.now col) }
{
    next_of(sets, line.get(col).copied())
}

/// What stands at a column, by its character.
fn next_of(sets: &Sets, next: Option<char>) -> Next
    ensures { result ≡ next_of sets.now next }
{
    match next {
        Some(c) => match u8::try_from(c) {
            Ok(code) => Next::Code(code),
            Err(_) => {
                if sets.keyword.has(c) {
                    Next::OtherKeyword
                } else {
                    Next::OtherCharacter
                }
            }
        },
        None => Next::LineEnd,
    }
}

/// What stands before a column.
fn last_in(sets: &Sets, line: &[char], col: usize) -> Last
    requires { col ≤ length line.now }
    ensures { result ≡ last_in sets.now line.now col }
{
    if col == 0 {
        Last::Nothing
    } else {
        last_of(sets.keyword.has(line[col - 1]))
    }
}

/// What a character is to the column behind it.
fn last_of(keyword: bool) -> Last
    ensures { result ≡ last_of keyword }
{
    if keyword { Last::Keyword } else { Last::Other }
}

/// Whether a keyword character stands there.
pub(crate) fn is_keyword(sets: &Sets, next: Next) -> bool
    ensures { result ≡ is_keyword sets.now next }
{
    match next {
        Next::Code(code) => sets.keyword.has(char::from(code)),
        Next::OtherKeyword => true,
        Next::OtherCharacter | Next::LineEnd => false,
    }
}

/// Whether the line ends there.
pub(crate) fn is_end(next: Next) -> bool
    ensures { result ≡ is_end next }
{
    matches!(next, Next::LineEnd)
}

/// Whether nothing stands before.
pub(crate) fn is_first(last: Last) -> bool
    ensures { result ≡ is_first last }
{
    matches!(last, Last::Nothing)
}

/// Whether a keyword character stands before.
pub(crate) fn is_after_keyword(last: Last) -> bool
    ensures { result ≡ is_after_keyword last }
{
    matches!(last, Last::Keyword)
}
