//! The reader: what has been read, what is open, and one item more.
ghost use Rattle.std.specs.Prelude.{◌≡◌, ◌^◌, [], ◌<◌, length, IfOk, true, false, MatchOption, IfErr, option_map};
ghost use Rattle.vim_pattern.specs.Shape.{bare};
ghost use Rattle.vim_pattern.specs.Shape as shape;
ghost use Rattle.vim_pattern.specs.Pattern.{IsTreeOf};
ghost use Rattle.vim_pattern.specs.GroupNumbers.{HasNumbers};
ghost use Rattle.vim_pattern.specs.Answer.{TellsFault, HasNoTree};
ghost use Rattle.vim_pattern.specs.Built.{GivesTree, part_of, state_of, under_of, outer_of, Gives};
ghost use Rattle.vim_pattern.specs.Built.{group_of as group_shape, last_of};
ghost use Rattle.vim_pattern.specs.Read as read;
ghost use Rattle.vim_pattern.specs.Fault as fault;
ghost use Rattle.pattern_items.specs.Place.{items_of};

use crate::build::{
    Built, LastNode, OpenItem, ended, group_of, list_of, new_part, pattern_of, put, repeated,
    with_also, with_bar,
};
use crate::notes::{Noted, noted_next, tree_of};
use crate::{Atom, Node, PatternCause, PatternError, PatternUse, Tree};
use pattern_items::{Before, Kind, Level, Multi, Placed, Sign, Surroundings, behind, next_item};
use std::alloc::Global;
use std::mem;

/// The most characters of a pattern.
const MOST_CHARACTERS: usize = 4000;

/// The most levels of a pattern: groups of every kind and optional lists that are open at a place.
const MOST_LEVELS: usize = 100;

/// What has been read, and what is open, the innermost last.
#[derive(Drop)]
pub struct Reading {
    pub here: Built,
    pub under: Vec<OpenItem>,
}

fn at<T>(at: usize, cause: PatternCause) -> Result<T, PatternError>
    ensures { result ≡ Err (PatternError.At at cause) }
{
    Err(PatternError::At { at, cause })
}

/// Lets go of what has been read, which this cause ends.
fn refused(reading: Reading, place: usize, cause: PatternCause) -> Result<Reading, PatternError>
    ensures { result ≡ Err (PatternError.At place cause) }
{
    drop(reading);
    at(place, cause)
}

fn is_optional(kind: Kind) -> bool
    ensures { result ≡ fault.is_optional kind }
{
    matches!(kind, Kind::Optional)
}

/// Whether the innermost open item is an optional list, and its place.
#[tactic(auto, using(crate::proofs::Under::under_push))]
fn top(under: &[OpenItem]) -> (bool, usize)
    ensures list { result.0 ≡ read.in_list (under_of under.now) }
    ensures at { result.1 ≡ read.top_at (under_of under.now) }
{
    match under.split_last() {
        None => (false, 0),
        Some((o, _)) => (is_optional(o.kind), o.at),
    }
}

/// Why a multi can't stand here.
fn multi_fault(last: &LastNode, list: bool) -> Option<PatternCause>
    ensures { result ≡ read.multi_fault list (last_of last.now) }
{
    match last {
        LastNode::Nothing => Some(PatternCause::NothingToRepeat),
        LastNode::Fixed(_) => Some(PatternCause::DoubleCount),
        LastNode::Loose(_) if list => Some(PatternCause::NothingToRepeat),
        LastNode::Loose(_) => None,
    }
}

/// With a multi at what stands last.
fn multiplied(alloc: Global, reading: Reading, found: Multi) -> Result<Reading, PatternError>
    ensures { Gives state_of result
        (Ok (read.on_part (read.with_repeated found) (state_of reading))) }
{
    Ok(Reading {
        here: repeated(alloc, reading.here, found)?,
        under: reading.under,
    })
}

#[tactic(auto, using(crate::proofs::MultiLaws::refused_multi, crate::proofs::MultiLaws::put_multi))]
fn multi(
    alloc: Global,
    reading: Reading,
    place: usize,
    found: Multi,
) -> Result<Reading, PatternError>
    ensures { Gives state_of result (read.multi_step place found
        (read.in_list (under_of reading.under.items)) (state_of reading)
        (part_of reading.here).last) }
{
    let (list, _) = top(&reading.under);
    match multi_fault(&reading.here.last, list) {
        Some(cause) => refused(reading, place, cause),
        None => multiplied(alloc, reading, found),
    }
}

/// With an item open, which fits in the levels.
#[tactic(auto, using(crate::proofs::Under::under_push))]
fn opened(
    alloc: Global,
    reading: Reading,
    place: usize,
    kind: Kind,
) -> Result<Reading, PatternError>
    ensures { Gives state_of result (Ok (read.opened place kind (state_of reading))) }
{
    let mut reading = reading;
    let part = mem::replace(&mut reading.here, new_part(alloc));
    reading.under.push(OpenItem {
        at: place,
        kind,
        part,
    })?;
    Ok(reading)
}

#[tactic(auto, using(crate::proofs::Under::length_under))]
fn open_item(
    alloc: Global,
    reading: Reading,
    place: usize,
    kind: Kind,
) -> Result<Reading, PatternError>
    ensures { Gives state_of result (read.open_step place kind (state_of reading)) }
{
    if reading.under.len() < MOST_LEVELS {
        opened(alloc, reading, place, kind)
    } else {
        refused(reading, place, PatternCause::TooNested)
    }
}

fn back(part: Built, under: Vec<OpenItem>, node: Node) -> Result<Reading, PatternError>
    ensures { Gives state_of result
        (Ok (record { here = read.put (bare node) (part_of part); under = under_of under.items })) }
{
    Ok(Reading {
        here: put(part, node)?,
        under,
    })
}

/// Back to what had been read before this open item, with the group that it opened.
fn closed(
    alloc: Global,
    kind: Kind,
    here: Built,
    outer: Built,
    under: Vec<OpenItem>,
) -> Result<Reading, PatternError>
    ensures { Gives state_of result (Ok (record {
      here = read.put (group_shape kind (read.pattern_of (part_of here))) (part_of outer);
      under = under_of under.items;
    })) }
{
    let node = group_of(alloc, kind, here)?;
    back(outer, under, node)
}

#[tactic(auto, using(crate::proofs::Under::under_push, crate::proofs::Under::close_group))]
fn close_group(alloc: Global, reading: Reading, place: usize) -> Result<Reading, PatternError>
    requires { read.in_list (under_of reading.under.items) ≡ false }
    ensures { Gives state_of result
        (read.close_step place (part_of reading.here) (under_of reading.under.items)) }
{
    let Reading { here, mut under } = reading;
    match under.pop() {
        None => refused(Reading { here, under }, place, PatternCause::UnopenedClose),
        Some(outer) => closed(alloc, outer.kind, here, outer.part, under),
    }
}

#[tactic(auto, using(crate::proofs::Under::close_list))]
fn close(alloc: Global, reading: Reading, place: usize) -> Result<Reading, PatternError>
    ensures { Gives state_of result
        (read.close_step place (part_of reading.here) (under_of reading.under.items)) }
{
    let (list, _) = top(&reading.under);
    if list {
        refused(reading, place, PatternCause::UnopenedClose)
    } else {
        close_group(alloc, reading, place)
    }
}

fn put_here(reading: Reading, atom: Atom) -> Result<Reading, PatternError>
    ensures { Gives state_of result
        (Ok (read.on_part (read.put (shape.one atom)) (state_of reading))) }
{
    Ok(Reading {
        here: put(reading.here, Node::One(atom))?,
        under: reading.under,
    })
}

/// Back to what had been read before this open item, with the optional list that it opened.
fn with_list(
    alloc: Global,
    here: Built,
    outer: OpenItem,
    under: Vec<OpenItem>,
    place: usize,
) -> Result<Reading, PatternError>
    ensures { Gives state_of result (read.list_step place (outer_of outer)
        (under_of under.items) (read.settled (part_of here))) }
{
    let list = list_of(alloc, here)?;
    back_with_list(list, outer.part, under, place)
}

/// Back to what had been read before, with this optional list.
fn back_with_list(
    list: Option<Node>,
    here: Built,
    under: Vec<OpenItem>,
    place: usize,
) -> Result<Reading, PatternError>
    ensures { Gives state_of result (read.back_with_list place
        (option_map bare list) (part_of here) (under_of under.items)) }
{
    match list {
        None => refused(Reading { here, under }, place, PatternCause::EmptyOptional),
        Some(node) => back(here, under, node),
    }
}

#[tactic(auto, using(crate::proofs::Under::under_push))]
fn end_list(alloc: Global, reading: Reading, place: usize) -> Result<Reading, PatternError>
    requires { read.in_list (under_of reading.under.items) ≡ true }
    ensures { Gives state_of result
        (read.square_step place (state_of reading) (under_of reading.under.items)) }
{
    let Reading { here, mut under } = reading;
    match under.pop() {
        None => refused(Reading { here, under }, place, PatternCause::UnopenedClose),
        Some(outer) => with_list(alloc, here, outer, under, place),
    }
}

#[tactic(auto, using(crate::proofs::Under::square_char))]
fn square(alloc: Global, reading: Reading, place: usize) -> Result<Reading, PatternError>
    ensures { Gives state_of result
        (read.square_step place (state_of reading) (under_of reading.under.items)) }
{
    let (list, _) = top(&reading.under);
    if list {
        end_list(alloc, reading, place)
    } else {
        put_here(reading, Atom::Char(']'))
    }
}

fn bar(alloc: Global, reading: Reading) -> Result<Reading, PatternError>
    ensures { Gives state_of result (read.step (state_of reading) 0 Sign.Bar) }
{
    let (list, open) = top(&reading.under);
    if list {
        return refused(reading, open, PatternCause::Unclosed);
    }
    Ok(Reading {
        here: with_bar(alloc, reading.here)?,
        under: reading.under,
    })
}

fn also(alloc: Global, reading: Reading) -> Result<Reading, PatternError>
    ensures { Gives state_of result (read.step (state_of reading) 0 Sign.Also) }
{
    let (list, open) = top(&reading.under);
    if list {
        return refused(reading, open, PatternCause::Unclosed);
    }
    Ok(Reading {
        here: with_also(alloc, reading.here)?,
        under: reading.under,
    })
}

fn quiet(reading: Reading) -> Result<Reading, PatternError>
    ensures { Gives state_of result (Ok (read.on_part read.ended (state_of reading))) }
{
    Ok(Reading {
        here: ended(reading.here)?,
        under: reading.under,
    })
}

/// One item more.
fn step(alloc: Global, reading: Reading, place: usize, sign: Sign) -> Result<Reading, PatternError>
    requires { place < 2 ^ 61 }
    ensures { Gives state_of result (read.step (state_of reading) place sign) }
{
    match sign {
        Sign::Atom(atom) => put_here(reading, atom),
        Sign::Multi(found) => multi(alloc, reading, place, found),
        Sign::Open(kind) => open_item(alloc, reading, place, kind),
        Sign::Close => close(alloc, reading, place),
        Sign::Square => square(alloc, reading, place),
        Sign::Bar => bar(alloc, reading),
        Sign::Also => also(alloc, reading),
        Sign::Quiet { ignore: _ } => quiet(reading),
        Sign::Wrong { before, cause } => refused(reading, place + before as usize, cause),
    }
}

/// The place of the first item that is still open.
#[tactic(auto, using(crate::proofs::Under::finish_open))]
fn first_open(under: &[OpenItem]) -> Option<usize>
    ensures { MatchOption result
        (under_of under.now ≡ [])
        (λ at. (p : read.Part) →
        read.finish p (under_of under.now) ≡ Err (fault.fault_at at PatternCause.Unclosed)) }
{
    match under.split_first() {
        None => None,
        Some((open, _)) => Some(open.at),
    }
}

fn whole(alloc: Global, part: Built) -> Result<Node, PatternError>
    ensures { Gives bare result (Ok (read.pattern_of (part_of part))) }
{
    Ok(pattern_of(alloc, part)?)
}

/// The tree, where nothing is open.
fn finish(alloc: Global, reading: Reading) -> Result<Node, PatternError>
    ensures { Gives bare result
        (read.finish (part_of reading.here) (under_of reading.under.items)) }
{
    match first_open(&reading.under) {
        None => whole(alloc, reading.here),
        Some(open) => at(open, PatternCause::Unclosed),
    }
}

/// The tree of a text's items, or their fault.
fn read_items(alloc: Global, text: &[char], usage: PatternUse) -> Result<Tree, PatternError>
    requires { length text.now < 2 ^ 61 }
    ensures { GivesTree (items_of usage text.now) result
        (read.read (items_of usage text.now) read.start) }
{
    let mut around = Surroundings {
        usage,
        level: Level::Usual,
        before: Before::Begin,
        groups: 0,
        externals: 0,
        first: true,
    };
    let mut reading = Reading {
        here: new_part(alloc),
        under: Vec::new(alloc),
    };
    let mut noted = Noted {
        ignores_case: false,
        heeds_case: false,
        moves_start: false,
        line_end: false,
    };
    let mut place: usize = 0;
    let mut in_vain = false;
    let mut rest = text;
    while rest.len() > 0 {
        let Placed { sign, len, next } = next_item(alloc, around, &mut in_vain, rest)?;
        noted = noted_next(noted, &sign);
        reading = step(alloc, reading, place, sign)?;
        around = next;
        place += len;
        rest = behind(rest, len);
    }
    let node = finish(alloc, reading)?;
    Ok(tree_of(node, noted, around.groups, around.externals))
}

/// The one tree of a text for this use, or its first fault, with the place of the offending
/// character, in characters from 0 (`pattern.txt`).
pub fn read_pattern(alloc: Global, text: &[char], usage: PatternUse) -> Result<Tree, PatternError>
    ensures tree { IfOk result (λ t. IsTreeOf text.now usage t) }
    ensures numbers { IfOk result (λ t. HasNumbers t.node) }
    ensures fault { IfErr result (λ e. TellsFault text.now usage e) }
    ensures no_tree { IfErr result (λ e. HasNoTree text.now usage e) }
{
    if text.len() > MOST_CHARACTERS {
        return at(MOST_CHARACTERS, PatternCause::TooLong);
    }
    read_items(alloc, text, usage)
}
