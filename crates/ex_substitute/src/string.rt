//! The string of a substitution, read to its pieces.
ghost use Rattle.std.specs.Prelude.{◌≡◌};
ghost use Rattle.ex_substitute.specs.Strings as spec;
ghost use Rattle.ex_substitute.specs.StringsRead.{ReadsString};

use crate::ExError;
use crate::refusal::Refusal;
use std::alloc::Global;
use syn_base::List;
use text_scan::{front, is_digit};

/// What the letters of a change of case become.
#[derive(Clone, Copy)]
pub(crate) enum Case {
    Upper,
    Lower,
}

/// A piece of a string (`sub-replace-special`).
#[derive(Clone, Copy)]
pub(crate) enum Piece {
    Char(char),
    /// A line break, `\r`.
    Break,
    /// The text of a group, `\1`; 0 is the whole match, `&`.
    Group(u8),
    /// The next character is changed, `\u`, `\l`.
    Once(Case),
    /// All that follows is changed, `\U`, `\L`.
    Lasting(Case),
    /// Nothing is changed any more but the next character, `\E`.
    Plain,
}

/// The pieces of a string, and what is left behind its slash.
#[derive(Drop)]
pub(crate) struct Spelled<'a> {
    pub pieces: List<Piece>,
    pub rest: &'a [char],
}

fn case_piece(c: char) -> Option<Piece>
    ensures { result ≡ spec.case_piece c }
{
    match c {
        'u' => Some(Piece::Once(Case::Upper)),
        'l' => Some(Piece::Once(Case::Lower)),
        'U' => Some(Piece::Lasting(Case::Upper)),
        'L' => Some(Piece::Lasting(Case::Lower)),
        'E' | 'e' => Some(Piece::Plain),
        _ => None,
    }
}

/// What a character stands for behind a backslash.
fn pair_piece(c: char) -> Option<Piece>
    ensures { result ≡ spec.pair_piece c }
{
    if is_digit(c) {
        return Some(Piece::Group((c as u32 - 48) as u8));
    }
    match c {
        'r' => Some(Piece::Break),
        't' => Some(Piece::Char('\t')),
        '\\' | '/' | '&' | '~' => Some(Piece::Char(c)),
        _ => case_piece(c),
    }
}

/// What a character stands for where no backslash stands before it.
fn plain_piece(c: char) -> Piece
    ensures { result ≡ spec.plain_piece c }
{
    if c == '&' {
        Piece::Group(0)
    } else {
        Piece::Char(c)
    }
}

fn pair_at(at: usize, c: char) -> Result<Piece, ExError>
    ensures { result ≡ spec.pair_at at c }
{
    match pair_piece(c) {
        Some(piece) => Ok(piece),
        None => Err(ExError::BadReplacement { at }),
    }
}

fn bare_at(at: usize, c: char) -> Result<Piece, ExError>
    ensures { result ≡ spec.bare_at at c }
{
    if c == '~' {
        return Err(ExError::BadReplacement { at });
    }
    Ok(plain_piece(c))
}

/// Reads a string up to its slash, or to the end of the text.
pub(crate) fn read_string(alloc: Global, text: &[char]) -> Result<Spelled<'_>, Refusal>
    ensures { ReadsString result (spec.string_of text.now) }
{
    let mut pieces = List::new(alloc);
    let mut at: usize = 0;
    let mut rest = text;
    let mut escaped = false;
    while let Some((c, more)) = front(rest) {
        if escaped {
            pieces.push(pair_at(at - 1, c)?)?;
            escaped = false;
        } else if c == '/' {
            return Ok(Spelled { pieces, rest: more });
        } else if c == '\\' {
            escaped = true;
        } else {
            pieces.push(bare_at(at, c)?)?;
        }
        at += 1;
        rest = more;
    }
    if escaped {
        return Err(Refusal::Cause(ExError::BadReplacement { at: at - 1 }));
    }
    Ok(Spelled { pieces, rest })
}
