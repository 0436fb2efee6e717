//! Collections.
ghost use Rattle.std.specs.Prelude.{◌≡◌, ◌^◌, [], ◌∷◌, ◌<◌, ◌≤◌, ◌+◌, length, drop, take, MatchOption, IfOk, Some, None, IfSome};
ghost use Rattle.pattern_items.specs.Collection as spec;
ghost use Rattle.pattern_items.specs.ClosingBracket.{Ends, HasNoEnd};

use crate::class_names::{ClassName, name_at, name_len, push_name};
use crate::codes::{char_of, code_at, notation_of};
use crate::scan::behind;
use crate::{Atom, CharRanges, PatternCause, SetPart, Sign};
use std::alloc::Global;
use syn_base::{List, Memory};
use text_scan::front;

/// What a collection is written with.
#[derive(Clone, Copy)]
pub enum Member {
    /// A character as it stands, which may be a hyphen.
    Bare(char),
    /// A character by an escape or a code.
    Escaped(char),
    Named(ClassName),
    LineEnd,
    /// A code of no character.
    NoCharacter,
    /// `[=a=]` or `[.a.]`.
    LeftOut { mark: char, inside: char },
}

/// A member in its place: how many characters it takes behind its first one, and whether the next
/// character is one as it stands.
#[derive(Clone, Copy)]
pub struct Found {
    pub member: Member,
    pub more: usize,
    pub plain_next: bool,
}

/// A range or a member that is in none.
#[derive(Clone, Copy)]
pub enum Piece {
    Range(char, char),
    Other(Member),
}

/// How many characters this one takes with it, where a closing bracket is looked for.
fn taken_along(c: char, text: &[char]) -> usize
    ensures value { result ≡ spec.taken_along c text.now }
    ensures within { result ≤ length text.now }
{
    if c == '\\' {
        return match front(text) {
            None => 0,
            Some(_) => 1,
        };
    }
    if c == '[' {
        return match name_at(text) {
            None => 0,
            Some(name) => name_len(name),
        };
    }
    0
}

/// How many characters there are up to the closing bracket, with it.
#[tactic(auto, using(crate::proofs::CollectionLaws::closing_step))]
fn closing(before: usize, text: &[char]) -> Option<usize>
    requires few { before < 3 }
    requires short { length text.now < 2 ^ 61 }
    ensures value { result ≡ spec.closing 0 before text.now }
    ensures within { IfSome result (λ n. (before < n) × (n ≤ before + length text.now)) }
{
    let mut len = before;
    let mut rest = text;
    while let Some((c, more)) = front(rest) {
        if c == ']' {
            return Some(len + 1);
        }
        let taken = taken_along(c, more);
        len += 1 + taken;
        rest = behind(more, taken);
    }
    None
}

fn past_bracket(before: usize, text: &[char]) -> Option<usize>
    requires few { before < 2 }
    requires short { length text.now < 2 ^ 61 }
    ensures value { result ≡ spec.past_bracket before text.now }
    ensures within { IfSome result (λ n. (before < n) × (n ≤ before + length text.now)) }
{
    match front(text) {
        None => None,
        Some((']', more)) => closing(before + 1, more),
        Some(_) => closing(before, text),
    }
}

/// How many characters there are behind a collection's bracket up to the closing one, with it.
pub fn collection_len(text: &[char]) -> Option<usize>
    requires { length text.now < 2 ^ 61 }
    ensures value { result ≡ spec.collection_len text.now }
    ensures within { IfSome result (λ n. (0 < n) × (n ≤ length text.now)) }
{
    match front(text) {
        None => None,
        Some(('^', more)) => past_bracket(1, more),
        Some(_) => past_bracket(0, text),
    }
}

/// The place of the bracket that closes the collection whose bracket stands at `at`, both from 0
/// (`/[]`). There is none where no bracket stands at `at`.
pub fn collection_end(text: &[char], at: usize) -> Option<usize>
    ensures value { result ≡ spec.collection_end text.now at }
    ensures first { MatchOption result (HasNoEnd text.now at) (λ place. Ends text.now at place) }
{
    if at >= text.len() {
        return None;
    }
    match front(behind(text, at)) {
        Some(('[', more)) => match collection_len(more) {
            None => None,
            Some(len) => Some(at + len),
        },
        _ => None,
    }
}

fn found_as(member: Member, more: usize) -> Found
    ensures { result ≡ spec.found member more }
{
    Found {
        member,
        more,
        plain_next: false,
    }
}

/// A backslash that is a member.
fn backslash() -> Found
    ensures { result ≡ spec.backslash }
{
    Found {
        member: Member::Bare('\\'),
        more: 0,
        plain_next: true,
    }
}

/// The code behind a backslash and this letter.
fn coded(c: char, text: &[char]) -> Found
    requires { length text.now < 2 ^ 61 }
    ensures value { result ≡ spec.coded c text.now }
    ensures within { result.more ≤ 1 + length text.now }
{
    let Some(notation) = notation_of(c) else {
        return backslash();
    };
    let code = code_at(notation, text);
    if code.count == 0 {
        return backslash();
    }
    match char_of(code.value) {
        None => found_as(Member::NoCharacter, 1 + code.count),
        Some(c) => found_as(Member::Escaped(c), 1 + code.count),
    }
}

/// What a backslash begins.
fn escaped(text: &[char]) -> Found
    requires { length text.now < 2 ^ 61 }
    ensures value { result ≡ spec.escaped text.now }
    ensures within { result.more ≤ length text.now }
{
    match front(text) {
        None => backslash(),
        Some(('e', _)) => found_as(Member::Escaped('\u{1b}'), 1),
        Some(('t', _)) => found_as(Member::Escaped('\t'), 1),
        Some(('r', _)) => found_as(Member::Escaped('\r'), 1),
        Some(('b', _)) => found_as(Member::Escaped('\u{8}'), 1),
        Some(('n', _)) => found_as(Member::LineEnd, 1),
        Some((c, more)) => {
            if c == '\\' || c == ']' || c == '^' || c == '-' {
                found_as(Member::Escaped(c), 1)
            } else {
                coded(c, more)
            }
        }
    }
}

/// The marked character behind a bracket, where nothing follows it.
fn left_out_at(text: &[char]) -> Option<Member>
    ensures value { result ≡ spec.left_out_at text.now }
    ensures within { IfSome result (λ _. length text.now ≡ 3) }
{
    if text.len() != 3 {
        return None;
    }
    let (mark, inside, end) = (text[0], text[1], text[2]);
    if (mark == '=' || mark == '.') && end == mark {
        Some(Member::LeftOut { mark, inside })
    } else {
        None
    }
}

/// What a bracket begins.
fn bracketed(text: &[char]) -> Found
    ensures value { result ≡ spec.bracketed text.now }
    ensures within { result.more ≤ length text.now }
{
    match name_at(text) {
        Some(name) => found_as(Member::Named(name), name_len(name)),
        None => match left_out_at(text) {
            Some(member) => found_as(member, 3),
            None => found_as(Member::Bare('['), 0),
        },
    }
}

fn member_at(plain: bool, c: char, text: &[char]) -> Found
    requires { length text.now < 2 ^ 61 }
    ensures value { result ≡ spec.member_at plain c text.now }
    ensures within { result.more ≤ length text.now }
{
    if plain {
        return found_as(Member::Bare(c), 0);
    }
    match c {
        '\\' => escaped(text),
        '[' => bracketed(text),
        _ => found_as(Member::Bare(c), 0),
    }
}

/// The members between a collection's brackets.
#[tactic(auto, using(crate::proofs::CollectionLaws::members_step))]
fn members(alloc: Global, text: &[char]) -> Result<Vec<Member>, Memory>
    requires { length text.now < 2 ^ 61 }
    ensures { IfOk result (λ v. v.items ≡ spec.members text.now) }
{
    let mut all = Vec::new(alloc);
    let mut plain = false;
    let mut rest = text;
    while let Some((c, more)) = front(rest) {
        let here = member_at(plain, c, more);
        all.push(here.member)?;
        plain = here.plain_next;
        rest = behind(more, here.more);
    }
    Ok(all)
}

/// The character of a member that is one.
fn character_of(member: Member) -> Option<char>
    ensures { result ≡ spec.character_of member }
{
    match member {
        Member::Bare(c) | Member::Escaped(c) => Some(c),
        _ => None,
    }
}

fn is_hyphen(member: Member) -> bool
    ensures { result ≡ spec.is_hyphen member }
{
    matches!(member, Member::Bare('-'))
}

fn range(low: Member, high: Member) -> Option<Piece>
    ensures { result ≡ spec.range low high }
{
    match character_of(low) {
        None => None,
        Some(from) => match character_of(high) {
            None => None,
            Some(to) => Some(Piece::Range(from, to)),
        },
    }
}

/// The range that a member begins, and what follows it.
fn range_at(member: Member, rest: &[Member]) -> Option<(Piece, &[Member])>
    ensures value { MatchOption result
        (spec.range_at member rest.now ≡ None)
        (λ p. spec.range_at member rest.now ≡ Some (p.0, p.1.now)) }
    ensures within { IfSome result (λ p. length p.1.now < length rest.now) }
{
    match front(rest) {
        None => None,
        Some((hyphen, more)) => match front(more) {
            None => None,
            Some((high, others)) => {
                if !is_hyphen(hyphen) {
                    return None;
                }
                match range(member, high) {
                    None => None,
                    Some(piece) => Some((piece, others)),
                }
            }
        },
    }
}

/// The ranges, and the members that are in none.
#[tactic(auto, using(crate::proofs::CollectionLaws::pieces_step))]
fn pieces(alloc: Global, members: &[Member]) -> Result<Vec<Piece>, Memory>
    ensures { IfOk result (λ v. v.items ≡ spec.pieces members.now) }
{
    let mut all = Vec::new(alloc);
    let mut rest = members;
    while let Some((member, more)) = front(rest) {
        match range_at(member, more) {
            None => {
                all.push(Piece::Other(member))?;
                rest = more;
            }
            Some((piece, others)) => {
                all.push(piece)?;
                rest = others;
            }
        }
    }
    Ok(all)
}

fn fault_of(piece: Piece) -> Option<PatternCause>
    ensures { result ≡ spec.fault_of piece }
{
    match piece {
        Piece::Range(low, high) => {
            if high < low {
                Some(PatternCause::BadRange)
            } else {
                None
            }
        }
        Piece::Other(Member::NoCharacter) => Some(PatternCause::BadCode),
        Piece::Other(_) => None,
    }
}

/// The first fault of spelling.
fn first_fault(pieces: &[Piece]) -> Option<PatternCause>
    ensures { result ≡ spec.first_fault pieces.now }
{
    for piece in pieces {
        match fault_of(*piece) {
            Some(cause) => return Some(cause),
            None => {}
        }
    }
    None
}

fn marked_of(piece: Piece) -> Option<(char, char)>
    ensures { result ≡ spec.marked_of piece }
{
    match piece {
        Piece::Other(Member::LeftOut { mark, inside }) => Some((mark, inside)),
        _ => None,
    }
}

/// The first item that is left out: its mark and its character.
fn first_marked(pieces: &[Piece]) -> Option<(char, char)>
    ensures { result ≡ spec.first_marked pieces.now }
{
    for piece in pieces {
        match marked_of(*piece) {
            Some(marked) => return Some(marked),
            None => {}
        }
    }
    None
}

fn is_line_end(piece: Piece) -> bool
    ensures { result ≡ spec.is_line_end piece }
{
    matches!(piece, Piece::Other(Member::LineEnd))
}

fn has_line_end(pieces: &[Piece]) -> bool
    ensures { result ≡ spec.has_line_end pieces.now }
{
    for piece in pieces {
        if is_line_end(*piece) {
            return true;
        }
    }
    false
}

fn push_piece(parts: &mut List<SetPart>, piece: Piece) -> Result<(), Memory>
    ensures { IfOk result (λ _. parts.new ≡ spec.with_piece parts.old piece) }
{
    match piece {
        Piece::Range(low, high) => parts.push(SetPart::Range(low, high)),
        Piece::Other(Member::Named(name)) => push_name(parts, name),
        Piece::Other(Member::Bare(c)) => parts.push(SetPart::Range(c, c)),
        Piece::Other(Member::Escaped(c)) => parts.push(SetPart::Range(c, c)),
        Piece::Other(_) => Ok(()),
    }
}

#[tactic(auto)]
fn set_parts(alloc: Global, pieces: &[Piece]) -> Result<List<SetPart>, Memory>
    ensures { IfOk result (λ parts. parts ≡ spec.set_parts pieces.now) }
{
    let mut parts = List::new(alloc);
    for piece in pieces {
        push_piece(&mut parts, *piece)?;
    }
    Ok(parts)
}

/// The characters of `[=a=]` or `[.a.]`.
fn marked_item(alloc: Global, mark: char, inside: char) -> Result<List<char>, Memory>
    ensures { IfOk result (λ l. l ≡ spec.marked_item mark inside) }
{
    let mut item = List::new(alloc);
    item.push('[')?;
    item.push(mark)?;
    item.push(inside)?;
    item.push(mark)?;
    item.push(']')?;
    Ok(item)
}

fn is_turned(text: &[char]) -> bool
    ensures { result ≡ spec.is_turned text.now }
{
    matches!(front(text), Some(('^', _)))
}

/// What is between the brackets, without a caret.
fn body_of(text: &[char]) -> &[char]
    ensures value { result.now ≡ spec.body_of text.now }
    ensures within { length result.now ≤ length text.now }
{
    match front(text) {
        Some(('^', more)) => more,
        _ => text,
    }
}

fn wrong(before: u8, cause: PatternCause) -> Sign
    ensures { result ≡ Sign.Wrong before cause }
{
    Sign::Wrong { before, cause }
}

/// The item of the collection with this between its brackets, of which the first one has so many
/// characters of the item before it.
pub fn collection_sign(
    alloc: Global,
    line_end: bool,
    before: u8,
    inner: &[char],
) -> Result<Sign, Memory>
    requires { length inner.now < 2 ^ 61 }
    ensures { IfOk result (λ sign. sign ≡ spec.collection_sign line_end before inner.now) }
{
    let members = members(alloc, body_of(inner))?;
    let pieces = pieces(alloc, &members)?;
    if let Some(cause) = first_fault(&pieces) {
        return Ok(wrong(before, cause));
    }
    if let Some((mark, inside)) = first_marked(&pieces) {
        let item = marked_item(alloc, mark, inside)?;
        return Ok(wrong(before, PatternCause::LeftOut(item)));
    }
    let line_end = line_end || has_line_end(&pieces);
    let parts = set_parts(alloc, &pieces)?;
    Ok(Sign::Atom(Atom::Set(CharRanges {
        not: is_turned(inner),
        line_end,
        parts,
    })))
}
