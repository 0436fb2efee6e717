//! Offsets of a pattern.
ghost use Rattle.std.specs.Prelude.{◌≡◌, ◌≤◌, ◌<◌, ◌+◌, Some, None, IfSome, MatchOption, pos, neg_ℤ};
ghost use Rattle.word_reader.specs.Offsets as spec;
ghost use Rattle.word_reader.specs.Vain.{Keeps};

use crate::words::{begins, behind_first, ends_word, strip};
use syntax_set::Offset;
use text_scan::{digits, front};

/// Which place an offset moves (`:syn-pattern-offset`).
#[derive(Clone, Copy)]
pub(crate) enum Edge {
    MatchStart,
    MatchEnd,
    HighlightStart,
    HighlightEnd,
    RegionStart,
    RegionEnd,
}

/// What one offset says.
#[derive(Clone, Copy)]
pub(crate) enum Adjust {
    Moves(Edge, Offset),
    /// `lc`.
    Leads(u32),
}

/// What all offsets of a pattern say; none for an edge that no offset moves.
#[derive(Clone, Copy, Debug, PartialEq, Eq)]
pub struct Adjusts {
    pub ms: Option<Offset>,
    pub me: Option<Offset>,
    pub hs: Option<Offset>,
    pub he: Option<Offset>,
    pub rs: Option<Offset>,
    pub re: Option<Offset>,
    /// `lc`, or 0.
    pub lc: u32,
}

/// The number at the front, up to 65,535, and what follows.
#[tactic(auto, using(crate::proofs::VainLaws::keeps_dropped))]
fn number(text: &[char]) -> Option<(u32, &[char])>
    ensures value { MatchOption result
        (spec.number text.now ≡ None)
        (λ p. spec.number text.now ≡ Some (p.0, p.1.now)) }
    ensures small { IfSome result (λ p. p.0 ≤ 65535) }
    ensures keeps { IfSome result (λ p. Keeps text.now p.1.now) }
{
    let (number, rest) = digits(text);
    if number.count == 0 {
        return None;
    }
    Some((number.value?, rest))
}

fn offset(from_end: bool, by: i32) -> Offset
    ensures { result ≡ spec.offset from_end by }
{
    Offset { from_end, by }
}

fn forwards(n: u32) -> i32
    requires { n ≤ 65535 }
    ensures { result ≡ pos n }
{
    n as i32
}

fn backwards(n: u32) -> i32
    requires { n ≤ 65535 }
    ensures { result ≡ neg_ℤ (pos n) }
{
    -(n as i32)
}

/// An offset behind its `s` or `e`.
fn signed(from_end: bool, text: &[char]) -> Option<(Offset, &[char])>
    ensures value { MatchOption result
        (spec.signed from_end text.now ≡ None)
        (λ p. spec.signed from_end text.now ≡ Some (p.0, p.1.now)) }
    ensures keeps { IfSome result (λ p. Keeps text.now p.1.now) }
{
    match front(text) {
        Some(('+', more)) => {
            let (n, rest) = number(more)?;
            Some((offset(from_end, forwards(n)), rest))
        }
        Some(('-', more)) => {
            let (n, rest) = number(more)?;
            Some((offset(from_end, backwards(n)), rest))
        }
        _ => Some((offset(from_end, 0), text)),
    }
}

fn place(text: &[char]) -> Option<(Offset, &[char])>
    ensures value { MatchOption result
        (spec.place text.now ≡ None)
        (λ p. spec.place text.now ≡ Some (p.0, p.1.now)) }
    ensures keeps { IfSome result (λ p. Keeps text.now p.1.now) }
{
    match front(text) {
        Some(('s', more)) => signed(false, more),
        Some(('e', more)) => signed(true, more),
        _ => None,
    }
}

/// The edge that is moved, and what follows its equals sign.
fn edge_at(text: &[char]) -> Option<(Edge, &[char])>
    ensures value { MatchOption result
        (spec.edge_at text.now ≡ None)
        (λ p. spec.edge_at text.now ≡ Some (p.0, p.1.now)) }
    ensures keeps { IfSome result (λ p. Keeps text.now p.1.now) }
{
    if let Some(rest) = strip("ms=", text) {
        return Some((Edge::MatchStart, rest));
    }
    if let Some(rest) = strip("me=", text) {
        return Some((Edge::MatchEnd, rest));
    }
    if let Some(rest) = strip("hs=", text) {
        return Some((Edge::HighlightStart, rest));
    }
    if let Some(rest) = strip("he=", text) {
        return Some((Edge::HighlightEnd, rest));
    }
    if let Some(rest) = strip("rs=", text) {
        return Some((Edge::RegionStart, rest));
    }
    if let Some(rest) = strip("re=", text) {
        return Some((Edge::RegionEnd, rest));
    }
    None
}

/// An edge with its place.
fn moved(text: &[char]) -> Option<(Adjust, &[char])>
    ensures value { MatchOption result
        (spec.moved (spec.edge_at text.now) ≡ None)
        (λ p. spec.moved (spec.edge_at text.now) ≡ Some (p.0, p.1.now)) }
    ensures keeps { IfSome result (λ p. Keeps text.now p.1.now) }
{
    let (edge, rest) = edge_at(text)?;
    let (offset, left) = place(rest)?;
    Some((Adjust::Moves(edge, offset), left))
}

/// The offset at the front, and what follows.
fn adjust_at(text: &[char]) -> Option<(Adjust, &[char])>
    ensures value { MatchOption result
        (spec.adjust_at text.now ≡ None)
        (λ p. spec.adjust_at text.now ≡ Some (p.0, p.1.now)) }
    ensures keeps { IfSome result (λ p. Keeps text.now p.1.now) }
{
    let Some(rest) = strip("lc=", text) else {
        return moved(text);
    };
    let (n, left) = number(rest)?;
    Some((Adjust::Leads(n), left))
}

const NO_ADJUSTS: Adjusts = Adjusts {
    ms: None,
    me: None,
    hs: None,
    he: None,
    rs: None,
    re: None,
    lc: 0,
};

fn with_move(adjusts: Adjusts, edge: Edge, offset: Offset) -> Adjusts
    ensures { result ≡ spec.with_move adjusts edge offset }
{
    let moved = Some(offset);
    match edge {
        Edge::MatchStart => Adjusts {
            ms: moved,
            ..adjusts
        },
        Edge::MatchEnd => Adjusts {
            me: moved,
            ..adjusts
        },
        Edge::HighlightStart => Adjusts {
            hs: moved,
            ..adjusts
        },
        Edge::HighlightEnd => Adjusts {
            he: moved,
            ..adjusts
        },
        Edge::RegionStart => Adjusts {
            rs: moved,
            ..adjusts
        },
        Edge::RegionEnd => Adjusts {
            re: moved,
            ..adjusts
        },
    }
}

fn with_adjust(adjusts: Adjusts, adjust: Adjust) -> Adjusts
    ensures { result ≡ spec.with_adjust adjusts adjust }
{
    match adjust {
        Adjust::Moves(edge, offset) => with_move(adjusts, edge, offset),
        Adjust::Leads(lc) => Adjusts { lc, ..adjusts },
    }
}

/// The offsets behind a delimiter, and what follows.
pub(crate) fn offsets(text: &[char]) -> Option<(Adjusts, &[char])>
    ensures value { MatchOption result
        (spec.offsets text.now ≡ None)
        (λ p. spec.offsets text.now ≡ Some (p.0, p.1.now)) }
    ensures keeps { IfSome result (λ p. Keeps text.now p.1.now) }
{
    let mut adjusts = NO_ADJUSTS;
    if ends_word(text) {
        return Some((adjusts, text));
    }
    let mut turns = text;
    let mut rest = text;
    while let Some((_, fewer)) = front(turns) {
        let (found, left) = adjust_at(rest)?;
        adjusts = with_adjust(adjusts, found);
        if ends_word(left) {
            return Some((adjusts, left));
        }
        if !begins(',', left) {
            return None;
        }
        rest = behind_first(left);
        turns = fewer;
    }
    None
}
