//! The line of a command.
ghost use Rattle.std.specs.Prelude.{◌≡◌, false, [], Some, None, IfOk, MatchOption};
ghost use Rattle.edit_script.specs.CommandLine as spec;

use crate::addresses::{Range, address_at, range_at};
use crate::{Last, Verb};
use std::alloc::Global;
use syn_base::{List, Memory};
use text_scan::front;

/// A command beside its text.
#[derive(Drop)]
pub(crate) struct Order {
    pub first: Last,
    pub last: Last,
    pub verb: Verb,
}

/// What the line of a command says.
#[derive(Drop)]
pub(crate) struct Head {
    /// Whether lines of text follow, up to a dot.
    pub takes_text: bool,
    /// Nothing where an address has too many digits.
    pub order: Option<Order>,
}

fn order_of(first: Option<Last>, last: Option<Last>, verb: Option<Verb>) -> Option<Order>
    ensures { result ≡ spec.order_of first last verb }
{
    let first = first?;
    let last = last?;
    let verb = verb?;
    Some(Order { first, last, verb })
}

fn ended(range: Range, takes_text: bool, verb: Verb, rest: &[char]) -> Option<Head>
    ensures { result ≡ spec.ended range takes_text verb rest.now }
{
    if !rest.is_empty() {
        return None;
    }
    let order = order_of(range.first, range.last, Some(verb));
    Some(Head { takes_text, order })
}

fn ended_single(range: Range, verb: Verb, rest: &[char]) -> Option<Head>
    ensures { result ≡ spec.ended_single range verb rest.now }
{
    if !range.single {
        return None;
    }
    ended(range, true, verb, rest)
}

/// The destination at the end of the line, and nothing else behind it.
fn destination(text: &[char]) -> Option<Option<Last>>
    ensures { result ≡ spec.destination text.now }
{
    let (line, rest) = address_at(text)?;
    if rest.is_empty() { Some(line) } else { None }
}

fn moved(range: Range, text: &[char]) -> Option<Head>
    ensures { result ≡ spec.at_destination range spec.does.Move (spec.destination text.now) }
{
    let verb = match destination(text)? {
        Some(line) => Some(Verb::Move(line)),
        None => None,
    };
    let order = order_of(range.first, range.last, verb);
    Some(Head {
        takes_text: false,
        order,
    })
}

fn copied(range: Range, text: &[char]) -> Option<Head>
    ensures { result ≡ spec.at_destination range spec.does.CopyTo (spec.destination text.now) }
{
    let verb = match destination(text)? {
        Some(line) => Some(Verb::CopyTo(line)),
        None => None,
    };
    let order = order_of(range.first, range.last, verb);
    Some(Head {
        takes_text: false,
        order,
    })
}

/// The verb behind a range, up to the end of the line.
fn verb_behind(range: Range, text: &[char]) -> Option<Head>
    ensures { result ≡ spec.verb_behind range text.now }
{
    let (c, rest) = front(text)?;
    match c {
        'a' => ended_single(range, Verb::Append, rest),
        'i' => ended_single(range, Verb::Insert, rest),
        'c' => ended(range, true, Verb::Change, rest),
        'd' => ended(range, false, Verb::Delete, rest),
        'p' => ended(range, false, Verb::Print, rest),
        'm' => moved(range, rest),
        't' => copied(range, rest),
        _ => None,
    }
}

/// A verb that is the whole line.
fn alone(verb: Verb) -> Head
    ensures { result ≡ spec.alone verb }
{
    Head {
        takes_text: false,
        order: order_of(Some(Last::End), Some(Last::End), Some(verb)),
    }
}

/// Whether a command by pattern (`:s`, `:g`, `:v`) stands there, as in a script: its letter and a slash
/// come first, and nothing is asked of what follows.
pub fn is_by_pattern(text: &[char]) -> bool
    ensures { result ≡ spec.is_by_pattern text.now }
{
    matches!(text, ['s' | 'g' | 'v', '/', ..])
}

/// The command by pattern with these characters.
fn by_pattern(alloc: Global, range: Range, text: &[char]) -> Result<Option<Head>, Memory>
    ensures { IfOk result (λ head. head ≡ spec.ended range false (spec.does.Ex text.now) []) }
{
    let verb = Verb::Ex(List::from_slice(alloc, text)?);
    Ok(ended(range, false, verb, &[]))
}

/// What stands behind a range, up to the end of the line.
fn pattern_or_verb(alloc: Global, range: Range, text: &[char]) -> Result<Option<Head>, Memory>
    ensures { IfOk result (λ head. head ≡ spec.pattern_or_verb range text.now) }
{
    if is_by_pattern(text) {
        by_pattern(alloc, range, text)
    } else {
        Ok(verb_behind(range, text))
    }
}

/// A range and its command, up to the end of the line.
fn ranged(alloc: Global, text: &[char]) -> Result<Option<Head>, Memory>
    ensures { IfOk result (λ head. head ≡ spec.ranged text.now) }
{
    match range_at(text) {
        Some((range, rest)) => pattern_or_verb(alloc, range, rest),
        None => Ok(None),
    }
}

/// The name of a syntax file behind `S` and one space. It isn't empty.
fn syntax_name(text: &[char]) -> Option<&[char]>
    ensures { MatchOption result (spec.syntax_name text.now ≡ None)
        (λ name. spec.syntax_name text.now ≡ Some name.now) }
{
    match text {
        ['S', ' ', name @ ..] if !name.is_empty() => Some(name),
        _ => None,
    }
}

/// The command that puts the syntax of this file in force.
fn with_syntax(alloc: Global, name: &[char]) -> Result<Head, Memory>
    ensures { IfOk result (λ head. head ≡ spec.alone (spec.does.Syntax name.now)) }
{
    Ok(alone(Verb::Syntax(List::from_slice(alloc, name)?)))
}

/// What the characters of a line say, if they are the line of a command.
pub(crate) fn head_of(alloc: Global, text: &[char]) -> Result<Option<Head>, Memory>
    ensures { IfOk result (λ head. head ≡ spec.head_of text.now) }
{
    match text {
        ['H'] => Ok(Some(alone(Verb::Page))),
        ['F'] => Ok(Some(alone(Verb::Folds))),
        _ => match syntax_name(text) {
            Some(name) => Ok(Some(with_syntax(alloc, name)?)),
            None => ranged(alloc, text),
        },
    }
}
