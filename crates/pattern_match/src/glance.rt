//! A short look from a place: where a node and what follows it lead is told with no list of ways, as
//! long as few nodes are visited.
ghost use Rattle.std.specs.Prelude.{◌≡◌, List, [], ◌++◌, ◌≤◌, ◌+◌, ◌<◌, ◌^◌, None, IfSome, IsTrue, IsFalse, false, length, true};
ghost use Rattle.match_rules.specs.Attempt.{answer_from};
ghost use Rattle.match_rules.specs.Counts.{is_spent};
ghost use Rattle.match_rules.specs.Marks.{followed};
ghost use Rattle.match_rules.specs.Visits.{visits};
ghost use Rattle.match_rules.specs.Ways.{IsPlaceOf, Way, line_at};
ghost use Rattle.pattern_match.specs.Beyond.{IsKept};
ghost use Rattle.pattern_match.specs.Contexts.{context_in};
ghost use Rattle.pattern_match.specs.Glance.{GoesOn, IsFirst, IsSeen, Stands, marks_behind, stops_of, turn_of, turns_behind, turns_of};
ghost use Rattle.pattern_match.specs.declared.sight.Sight.{Sight as AnySight};
ghost use Rattle.pattern_match.specs.Others.{AreOthers};
ghost use Rattle.pattern_match.specs.Search.{wanted_marks};
ghost use Rattle.pattern_match.specs.Steps.{atom_of, shape_of};
ghost use Rattle.pattern_match.specs.Ways.{columns_on, with_all, with_note};
ghost use Rattle.vim_pattern.specs.Shape.{ahead, empty, one, or, seq};

use crate::beyond::{Refusal, vain_beyond};
use crate::context::Context;
use crate::others::{Others, other_refuses};
use crate::runs::less_by;
use crate::sight::{
    Rest, Saw, Sight, columns_on, go_further, look_at_atom, note_of, take_note, try_in_vain,
    turns_at_once,
};
use crate::spent::Spent;
use crate::step::{Step, Test};
use crate::task::Turns;
use crate::to_end::is_vain_to_end;
use crate::turns::{is_after, next_turns, one_less};
use crate::vain::{Vain, is_refused, vain_at};
use crate::ways::Note;
use pattern_screens::is_spent;
use std::alloc::Global;
use syn_base::{Lines, Place};

/// How many nodes a short look visits.
const NODES: u32 = 1000;

/// Whether a short look tells that a node has no way from a place that ends where one is wanted, if at
/// one place. Then its ticks are spent.
pub(crate) fn is_in_vain<T: Lines>(
    alloc: Global,
    lines: &T,
    context: &Context<'_>,
    step: &Step,
    others: Option<Others>,
    start: Place,
    wanted: Option<Place>,
    spent: &mut Spent,
) -> bool
    requires on_text { IsPlaceOf (T.lines lines.now) start }
    requires others { AreOthers (λ x. visits x (shape_of step.now)) others }
    requires within { spent.old.cost ≤ spent.old.budget }
    ensures seen { IsTrue result → (w : Way) → w.at ≡ start →
        let x = context_in (T.lines lines.now) context.now in
        answer_from spent.old.cost spent.old.looked
        (wanted_marks wanted (visits x (shape_of step.now) w))
        ≡ record { way = None; cost = spent.new.cost; looked = spent.new.looked } }
    ensures budget { spent.new.budget ≡ spent.old.budget }
    ensures within { spent.new.cost ≤ spent.new.budget }
    ensures unchanged { IsFalse result → spent.new ≡ spent.old }
{
    if other_refuses(lines, context, step, others, start, spent) {
        return true;
    }
    if is_refused(lines, context, step, start, spent) {
        return true;
    }
    let mut sight = Sight::new(alloc, start, *spent);
    sight.left = NODES;
    let rest = match wanted {
        None => Rest::End,
        Some(place) => Rest::EndAt(place),
    };
    match look_at(lines, context, step, &rest, &mut sight) {
        Saw::InVain => {
            *spent = sight.spent;
            true
        }
        _ => false,
    }
}

/// A short look at a node from a place. Where it has seen the first way, it stands there, with what that
/// way noted.
pub(crate) fn first_way<T: Lines>(
    lines: &T,
    context: &Context<'_>,
    step: &Step,
    start: Place,
    budget: u64,
    sight: &mut Sight,
) -> Saw
    requires on_text { IsPlaceOf (T.lines lines.now) start }
    ensures seen { (w : Way) → w.at ≡ start →
        IsFirst w (visits (context_in (T.lines lines.now) context.now) (shape_of step.now) w)
        (record { cost = 0; budget = budget; looked = None }) sight.new result }
    ensures within { sight.new.spent.cost ≤ budget }
{
    sight.at = start;
    sight.left = NODES;
    sight.spent = Spent::nothing(budget);
    sight.notes.clear();
    look_at(lines, context, step, &Rest::End, sight)
}

/// A short look at a node and what follows it.
#[cycle(look)]
fn look_at<T: Lines>(
    lines: &T,
    context: &Context<'_>,
    step: &Step,
    rest: &Rest<'_>,
    sight: &mut Sight,
) -> Saw
    requires { Stands (T.lines lines.now) sight.old }
    ensures seen { (w : Way) → w.at ≡ sight.old.at →
        let x = context_in (T.lines lines.now) context.now in
        IsSeen w (followed (visits x (shape_of step.now) w) (marks_behind x rest.now))
        sight.old sight.new result }
    ensures goes { GoesOn (T.lines lines.now) sight.old sight.new }
{
    if sight.left == 0 {
        return Saw::TooFar;
    }
    sight.left -= 1;
    match step {
        Step::Empty => go_on(lines, context, rest, sight),
        Step::Never => Saw::InVain,
        Step::One(test) => look_at_one(lines, context, test, rest, sight),
        Step::Seq(first, second) => look_at_both(lines, context, first, second, rest, sight),
        Step::Or(first, second) => look_at_either(lines, context, first, second, rest, sight),
        step => look_at_other(lines, context, step, rest, sight),
    }
}

/// The same, at a node that is no atom, no two parts and no choice of two.
#[cycle(look)]
#[inline(never)]
fn look_at_other<T: Lines>(
    lines: &T,
    context: &Context<'_>,
    step: &Step,
    rest: &Rest<'_>,
    sight: &mut Sight,
) -> Saw
    requires { Stands (T.lines lines.now) sight.old }
    ensures seen { (w : Way) → w.at ≡ sight.old.at →
        let x = context_in (T.lines lines.now) context.now in
        IsSeen w (followed (visits x (shape_of step.now) w) (marks_behind x rest.now))
        sight.old sight.new result }
    ensures goes { GoesOn (T.lines lines.now) sight.old sight.new }
{
    match step {
        Step::Optional(part) => look_at_optional(lines, context, part, rest, sight),
        Step::Group(part, number) => {
            let rest = Rest::Close(*number, sight.at, &*rest);
            look_at(lines, context, part, &rest, sight)
        }
        Step::External(part, number) => {
            let rest = Rest::CloseExternal(*number, sight.at, &*rest);
            look_at(lines, context, part, &rest, sight)
        }
        Step::Repeat {
            part,
            least,
            most,
            lazy,
        } => {
            let turns = Turns::new(part, *least, *most, *lazy);
            look_at_count(lines, context, &turns, rest, sight)
        }
        Step::Ahead { part, not } => look_ahead(lines, context, part, *not, rest, sight),
        _ => Saw::TooFar,
    }
}

/// A short look at an atom and what follows it.
#[cycle(look)]
fn look_at_one<T: Lines>(
    lines: &T,
    context: &Context<'_>,
    test: &Test,
    rest: &Rest<'_>,
    sight: &mut Sight,
) -> Saw
    requires { Stands (T.lines lines.now) sight.old }
    ensures seen { (w : Way) → w.at ≡ sight.old.at →
        let x = context_in (T.lines lines.now) context.now in
        IsSeen w (followed (visits x (one (atom_of test.now)) w) (marks_behind x rest.now))
        sight.old sight.new result }
    ensures goes { GoesOn (T.lines lines.now) sight.old sight.new }
{
    match look_at_atom(lines, context, test, sight) {
        Saw::Reached => go_on(lines, context, rest, sight),
        Saw::InVain => Saw::InVain,
        Saw::TooFar => look_at_noting(lines, context, test, rest, sight),
    }
}

/// The same, of an atom that notes its place. Of any other it tells nothing.
#[cycle(look)]
#[inline(never)]
fn look_at_noting<T: Lines>(
    lines: &T,
    context: &Context<'_>,
    test: &Test,
    rest: &Rest<'_>,
    sight: &mut Sight,
) -> Saw
    requires { Stands (T.lines lines.now) sight.old }
    ensures seen { (w : Way) → w.at ≡ sight.old.at →
        let x = context_in (T.lines lines.now) context.now in
        IsSeen w (followed (visits x (one (atom_of test.now)) w) (marks_behind x rest.now))
        sight.old sight.new result }
    ensures goes { GoesOn (T.lines lines.now) sight.old sight.new }
{
    let Some(note) = note_of(test, sight.at) else {
        return Saw::TooFar;
    };
    if !try_in_vain(lines, 1, sight) {
        return Saw::TooFar;
    }
    go_on_noting(lines, context, note, rest, sight)
}

/// A short look at two parts, the one behind the other.
#[cycle(look)]
fn look_at_both<T: Lines>(
    lines: &T,
    context: &Context<'_>,
    first: &Step,
    second: &Step,
    rest: &Rest<'_>,
    sight: &mut Sight,
) -> Saw
    requires { Stands (T.lines lines.now) sight.old }
    ensures seen { (w : Way) → w.at ≡ sight.old.at →
        let x = context_in (T.lines lines.now) context.now in
        IsSeen w (followed (visits x (seq (shape_of first.now) (shape_of second.now)) w)
        (marks_behind x rest.now))
        sight.old sight.new result }
    ensures goes { GoesOn (T.lines lines.now) sight.old sight.new }
{
    match first {
        Step::One(test) => match look_at_atom(lines, context, test, sight) {
            Saw::Reached => look_at(lines, context, second, rest, sight),
            Saw::InVain => Saw::InVain,
            Saw::TooFar => look_at_noting_first(lines, context, test, second, rest, sight),
        },
        first => look_at_first(lines, context, first, second, rest, sight),
    }
}

/// The same, where the first part is an atom that notes its place. Of any other it tells nothing.
#[cycle(look)]
#[inline(never)]
fn look_at_noting_first<T: Lines>(
    lines: &T,
    context: &Context<'_>,
    test: &Test,
    second: &Step,
    rest: &Rest<'_>,
    sight: &mut Sight,
) -> Saw
    requires { Stands (T.lines lines.now) sight.old }
    ensures seen { (w : Way) → w.at ≡ sight.old.at →
        let x = context_in (T.lines lines.now) context.now in
        IsSeen w (followed (visits x (seq (one (atom_of test.now)) (shape_of second.now)) w)
        (marks_behind x rest.now))
        sight.old sight.new result }
    ensures goes { GoesOn (T.lines lines.now) sight.old sight.new }
{
    let rest = Rest::Then(&*second, &*rest);
    look_at_noting(lines, context, test, &rest, sight)
}

/// The same, where the first part is no atom.
#[cycle(look)]
#[inline(never)]
fn look_at_first<T: Lines>(
    lines: &T,
    context: &Context<'_>,
    first: &Step,
    second: &Step,
    rest: &Rest<'_>,
    sight: &mut Sight,
) -> Saw
    requires { Stands (T.lines lines.now) sight.old }
    ensures seen { (w : Way) → w.at ≡ sight.old.at →
        let x = context_in (T.lines lines.now) context.now in
        IsSeen w (followed (visits x (seq (shape_of first.now) (shape_of second.now)) w)
        (marks_behind x rest.now))
        sight.old sight.new result }
    ensures goes { GoesOn (T.lines lines.now) sight.old sight.new }
{
    match vain_at(lines, context, first, sight.at) {
        Vain::LeftOut(ticks) => {
            return if try_in_vain(lines, ticks, sight) {
                look_at(lines, context, second, rest, sight)
            } else {
                Saw::TooFar
            };
        }
        Vain::Refused(ticks) => {
            return if try_in_vain(lines, ticks, sight) {
                Saw::InVain
            } else {
                Saw::TooFar
            };
        }
        Vain::Noted(_) | Vain::Unsure => {}
    }
    let rest = Rest::Then(&*second, &*rest);
    look_at(lines, context, first, &rest, sight)
}

/// A short look at a branch, and what follows. Mostly it is an atom.
#[cycle(look)]
fn look_at_branch<T: Lines>(
    lines: &T,
    context: &Context<'_>,
    step: &Step,
    rest: &Rest<'_>,
    sight: &mut Sight,
) -> Saw
    requires { Stands (T.lines lines.now) sight.old }
    ensures seen { (w : Way) → w.at ≡ sight.old.at →
        let x = context_in (T.lines lines.now) context.now in
        IsSeen w (followed (visits x (shape_of step.now) w) (marks_behind x rest.now))
        sight.old sight.new result }
    ensures goes { GoesOn (T.lines lines.now) sight.old sight.new }
{
    match step {
        Step::One(test) => look_at_one(lines, context, test, rest, sight),
        step => look_at(lines, context, step, rest, sight),
    }
}

/// A short look at one part or the other.
#[cycle(look)]
fn look_at_either<T: Lines>(
    lines: &T,
    context: &Context<'_>,
    first: &Step,
    second: &Step,
    rest: &Rest<'_>,
    sight: &mut Sight,
) -> Saw
    requires { Stands (T.lines lines.now) sight.old }
    ensures seen { (w : Way) → w.at ≡ sight.old.at →
        let x = context_in (T.lines lines.now) context.now in
        IsSeen w (followed (visits x (or (shape_of first.now) (shape_of second.now)) w)
        (marks_behind x rest.now))
        sight.old sight.new result }
    ensures goes { GoesOn (T.lines lines.now) sight.old sight.new }
{
    let from = sight.at;
    match look_at_branch(lines, context, first, rest, sight) {
        Saw::InVain => {
            sight.at = from;
            look_at(lines, context, second, rest, sight)
        }
        saw => saw,
    }
}

/// A short look at a part or nothing.
#[cycle(look)]
fn look_at_optional<T: Lines>(
    lines: &T,
    context: &Context<'_>,
    part: &Step,
    rest: &Rest<'_>,
    sight: &mut Sight,
) -> Saw
    requires { Stands (T.lines lines.now) sight.old }
    ensures seen { (w : Way) → w.at ≡ sight.old.at →
        let x = context_in (T.lines lines.now) context.now in
        IsSeen w (followed (visits x (or (shape_of part.now) empty) w) (marks_behind x rest.now))
        sight.old sight.new result }
    ensures goes { GoesOn (T.lines lines.now) sight.old sight.new }
{
    let from = sight.at;
    match look_at(lines, context, part, rest, sight) {
        Saw::InVain => {
            sight.at = from;
            go_on(lines, context, rest, sight)
        }
        saw => saw,
    }
}

/// Goes on with what follows.
#[cycle(look)]
fn go_on<T: Lines>(lines: &T, context: &Context<'_>, rest: &Rest<'_>, sight: &mut Sight) -> Saw
    requires { Stands (T.lines lines.now) sight.old }
    ensures seen { (w : Way) → w.at ≡ sight.old.at →
        let x = context_in (T.lines lines.now) context.now in
        IsSeen w (marks_behind x rest.now w)
        sight.old sight.new result }
    ensures goes { GoesOn (T.lines lines.now) sight.old sight.new }
{
    if sight.left == 0 {
        return Saw::TooFar;
    }
    sight.left -= 1;
    match *rest {
        Rest::End => Saw::Reached,
        Rest::EndAt(place) => if sight.at == place {
            Saw::Reached
        } else {
            Saw::InVain
        },
        Rest::Then(step, others) => look_at(lines, context, step, others, sight),
        Rest::AfterTurn(turns, from, others) => {
            look_after_turn(lines, context, turns, from, others, sight)
        }
        Rest::Close(number, from, others) => {
            let to = sight.at;
            let note = Note::Captured { number, from, to };
            go_on_noting(lines, context, note, others, sight)
        }
        Rest::CloseExternal(number, from, others) => {
            let to = sight.at;
            let note = Note::External { number, from, to };
            go_on_noting(lines, context, note, others, sight)
        }
    }
}

/// Goes on with what follows on a way that takes a note here.
#[cycle(look)]
#[inline(never)]
fn go_on_noting<T: Lines>(
    lines: &T,
    context: &Context<'_>,
    note: Note,
    rest: &Rest<'_>,
    sight: &mut Sight,
) -> Saw
    requires { Stands (T.lines lines.now) sight.old }
    ensures seen { (w : Way) → w.at ≡ sight.old.at →
        let x = context_in (T.lines lines.now) context.now in
        IsSeen w (marks_behind x rest.now (with_note w note))
        sight.old sight.new result }
    ensures goes { GoesOn (T.lines lines.now) sight.old sight.new }
{
    match go_on(lines, context, rest, sight) {
        Saw::Reached => if take_note(note, sight) {
            Saw::Reached
        } else {
            Saw::TooFar
        },
        saw => saw,
    }
}

/// The same, if the characters here don't tell that what follows fails.
#[cycle(look)]
fn go_on_beyond<T: Lines>(
    lines: &T,
    context: &Context<'_>,
    rest: &Rest<'_>,
    kept: &mut Option<Refusal>,
    sight: &mut Sight,
) -> Saw
    requires stands { Stands (T.lines lines.now) sight.old }
    requires kept { IsKept context.now rest.now kept.old }
    ensures seen { (w : Way) → w.at ≡ sight.old.at →
        let x = context_in (T.lines lines.now) context.now in
        IsSeen w (marks_behind x rest.now w)
        sight.old sight.new result }
    ensures goes { GoesOn (T.lines lines.now) sight.old sight.new }
    ensures kept { IsKept context.now rest.now kept.new }
{
    if let Vain::Refused(ticks) = vain_beyond(lines, context, rest, sight.at, kept) {
        return if try_in_vain(lines, ticks, sight) {
            Saw::InVain
        } else {
            Saw::TooFar
        };
    }
    go_on(lines, context, rest, sight)
}

/// A short look at the turns of a count that are left behind one that began at a place.
#[cycle(look)]
fn look_after_turn<T: Lines>(
    lines: &T,
    context: &Context<'_>,
    turns: &Turns<'_>,
    from: Place,
    rest: &Rest<'_>,
    sight: &mut Sight,
) -> Saw
    requires { Stands (T.lines lines.now) sight.old }
    ensures seen { (w : Way) → w.at ≡ sight.old.at →
        let x = context_in (T.lines lines.now) context.now in
        IsSeen w (followed (turns_behind x turns.now from w) (marks_behind x rest.now))
        sight.old sight.new result }
    ensures goes { GoesOn (T.lines lines.now) sight.old sight.new }
{
    if sight.left == 0 {
        return Saw::TooFar;
    }
    sight.left -= 1;
    match next_turns(sight.at, *turns, from) {
        None => Saw::InVain,
        Some(turns) => look_at_count(lines, context, &turns, rest, sight),
    }
}

/// A short look at the turns of a count that are left.
#[cycle(look)]
fn look_at_count<T: Lines>(
    lines: &T,
    context: &Context<'_>,
    turns: &Turns<'_>,
    rest: &Rest<'_>,
    sight: &mut Sight,
) -> Saw
    requires { Stands (T.lines lines.now) sight.old }
    ensures seen { (w : Way) → w.at ≡ sight.old.at →
        let x = context_in (T.lines lines.now) context.now in
        IsSeen w (followed (turns_of x turns.now w) (marks_behind x rest.now))
        sight.old sight.new result }
    ensures goes { GoesOn (T.lines lines.now) sight.old sight.new }
{
    if is_spent(turns.most) {
        return go_on(lines, context, rest, sight);
    }
    if turns.least > 0 {
        return look_at_turn(lines, context, turns, rest, sight);
    }
    if turns.lazy {
        look_at_lazy(lines, context, turns, rest, sight)
    } else {
        look_at_greedy(lines, context, turns, rest, sight)
    }
}

/// A short look at the turns of a greedy count that need not be taken.
#[cycle(look)]
fn look_at_greedy<T: Lines>(
    lines: &T,
    context: &Context<'_>,
    turns: &Turns<'_>,
    rest: &Rest<'_>,
    sight: &mut Sight,
) -> Saw
    requires stands { Stands (T.lines lines.now) sight.old }
    requires free { turns.now.least ≡ 0 }
    requires greedy { turns.now.lazy ≡ false }
    ensures seen { (w : Way) → w.at ≡ sight.old.at →
        let x = context_in (T.lines lines.now) context.now in
        IsSeen w (followed (turns_of x turns.now w) (marks_behind x rest.now))
        sight.old sight.new result }
    ensures goes { GoesOn (T.lines lines.now) sight.old sight.new }
{
    if is_vain_to_end(lines, context, turns, rest, sight) {
        return Saw::InVain;
    }
    look_at_runs(lines, context, turns, rest, sight)
}

/// The same, where not all of them are in vain. Those that take a character of
/// the line each are made at once.
#[cycle(look)]
fn look_at_runs<T: Lines>(
    lines: &T,
    context: &Context<'_>,
    turns: &Turns<'_>,
    rest: &Rest<'_>,
    sight: &mut Sight,
) -> Saw
    requires stands { Stands (T.lines lines.now) sight.old }
    requires free { turns.now.least ≡ 0 }
    requires greedy { turns.now.lazy ≡ false }
    ensures seen { (w : Way) → w.at ≡ sight.old.at →
        let x = context_in (T.lines lines.now) context.now in
        IsSeen w (followed (turns_of x turns.now w) (marks_behind x rest.now))
        sight.old sight.new result }
    ensures goes { GoesOn (T.lines lines.now) sight.old sight.new }
{
    let from = sight.at;
    let count = turns_at_once(lines, context, turns, &*sight);
    if count == 0 {
        return look_at_more(lines, context, turns, rest, sight);
    }
    go_further(lines, count, sight);
    let left = Turns {
        most: less_by(turns.most, count),
        ..*turns
    };
    match look_at_more(lines, context, &left, rest, sight) {
        Saw::InVain => look_at_stops(lines, context, rest, from, count, sight),
        saw => saw,
    }
}

/// A short look at the turns of a greedy count behind those: another one, or the stop.
#[cycle(look)]
fn look_at_more<T: Lines>(
    lines: &T,
    context: &Context<'_>,
    turns: &Turns<'_>,
    rest: &Rest<'_>,
    sight: &mut Sight,
) -> Saw
    requires stands { Stands (T.lines lines.now) sight.old }
    requires free { turns.now.least ≡ 0 }
    requires greedy { turns.now.lazy ≡ false }
    ensures seen { (w : Way) → w.at ≡ sight.old.at →
        let x = context_in (T.lines lines.now) context.now in
        IsSeen w (followed (turns_of x turns.now w) (marks_behind x rest.now))
        sight.old sight.new result }
    ensures goes { GoesOn (T.lines lines.now) sight.old sight.new }
{
    if is_spent(turns.most) {
        return go_on(lines, context, rest, sight);
    }
    let from = sight.at;
    match look_at_turn(lines, context, turns, rest, sight) {
        Saw::InVain => {
            sight.at = from;
            go_on(lines, context, rest, sight)
        }
        saw => saw,
    }
}

/// A short look at the stops before so many turns that take a character of the line each, the last one
/// first.
#[cycle(look)]
fn look_at_stops<T: Lines>(
    lines: &T,
    context: &Context<'_>,
    rest: &Rest<'_>,
    from: Place,
    count: usize,
    sight: &mut Sight,
) -> Saw
    requires stands { Stands (T.lines lines.now) sight.old }
    requires from { IsPlaceOf (T.lines lines.now) from }
    requires columns { from.col + count ≤ length (line_at (T.lines lines.now) from.line) }
    requires fits { from.col + count < 2 ^ 64 }
    ensures seen { (w : Way) → w.at ≡ from →
        let x = context_in (T.lines lines.now) context.now in
        IsSeen w (stops_of (marks_behind x rest.now) w count) sight.old sight.new result }
    ensures goes { GoesOn (T.lines lines.now) sight.old sight.new }
{
    let mut left = count;
    let mut kept = None;
    'stops: while left > 0 {
        left -= 1;
        sight.at = columns_on(from, left);
        match go_on_beyond(lines, context, rest, &mut kept, sight) {
            Saw::InVain => {}
            saw => return saw,
        }
    }
    Saw::InVain
}

/// A short look at the turns of a lazy count that need not be taken: the stop, or another one.
#[cycle(look)]
fn look_at_lazy<T: Lines>(
    lines: &T,
    context: &Context<'_>,
    turns: &Turns<'_>,
    rest: &Rest<'_>,
    sight: &mut Sight,
) -> Saw
    requires stands { Stands (T.lines lines.now) sight.old }
    requires allowed { is_spent turns.now.most ≡ false }
    requires free { turns.now.least ≡ 0 }
    requires lazy { turns.now.lazy ≡ true }
    ensures seen { (w : Way) → w.at ≡ sight.old.at →
        let x = context_in (T.lines lines.now) context.now in
        IsSeen w (followed (turns_of x turns.now w) (marks_behind x rest.now))
        sight.old sight.new result }
    ensures goes { GoesOn (T.lines lines.now) sight.old sight.new }
{
    if let Step::One(test) = turns.part {
        return look_at_lazy_atoms(lines, context, test, turns, rest, sight);
    }
    let from = sight.at;
    match go_on(lines, context, rest, sight) {
        Saw::InVain => {
            sight.at = from;
            look_at_turn(lines, context, turns, rest, sight)
        }
        saw => saw,
    }
}

/// The same, of a count of an atom.
#[cycle(look)]
fn look_at_lazy_atoms<T: Lines>(
    lines: &T,
    context: &Context<'_>,
    test: &Test,
    turns: &Turns<'_>,
    rest: &Rest<'_>,
    sight: &mut Sight,
) -> Saw
    requires stands { Stands (T.lines lines.now) sight.old }
    requires atom { shape_of turns.now.part.now ≡ one (atom_of test.now) }
    requires free { turns.now.least ≡ 0 }
    requires lazy { turns.now.lazy ≡ true }
    ensures seen { (w : Way) → w.at ≡ sight.old.at →
        let x = context_in (T.lines lines.now) context.now in
        IsSeen w (followed (turns_of x turns.now w) (marks_behind x rest.now))
        sight.old sight.new result }
    ensures goes { GoesOn (T.lines lines.now) sight.old sight.new }
{
    let mut most = turns.most;
    let mut kept = None;
    for _ in 0..NODES {
        let from = sight.at;
        match go_on_beyond(lines, context, rest, &mut kept, sight) {
            Saw::InVain => {}
            saw => return saw,
        }
        if is_spent(most) {
            return Saw::InVain;
        }
        sight.at = from;
        match look_at_atom(lines, context, test, sight) {
            Saw::Reached => {}
            saw => return saw,
        }
        if !is_after(sight.at, from) {
            return Saw::InVain;
        }
        most = one_less(most);
    }
    Saw::TooFar
}

/// A short look at the next turn of a count, and those that are left behind it.
#[cycle(look)]
fn look_at_turn<T: Lines>(
    lines: &T,
    context: &Context<'_>,
    turns: &Turns<'_>,
    rest: &Rest<'_>,
    sight: &mut Sight,
) -> Saw
    requires { Stands (T.lines lines.now) sight.old }
    ensures seen { (w : Way) → w.at ≡ sight.old.at →
        let x = context_in (T.lines lines.now) context.now in
        IsSeen w (followed (turn_of x turns.now w) (marks_behind x rest.now))
        sight.old sight.new result }
    ensures goes { GoesOn (T.lines lines.now) sight.old sight.new }
{
    match turns.part {
        Step::One(test) => {
            let from = sight.at;
            match look_at_atom(lines, context, test, sight) {
                Saw::Reached => look_after_turn(lines, context, turns, from, rest, sight),
                saw => saw,
            }
        }
        part => {
            let rest = Rest::AfterTurn(&*turns, sight.at, &*rest);
            look_at(lines, context, part, &rest, sight)
        }
    }
}

/// A short look at a look ahead.
#[cycle(look)]
fn look_ahead<T: Lines>(
    lines: &T,
    context: &Context<'_>,
    part: &Step,
    not: bool,
    rest: &Rest<'_>,
    sight: &mut Sight,
) -> Saw
    requires { Stands (T.lines lines.now) sight.old }
    ensures seen { (w : Way) → w.at ≡ sight.old.at →
        let x = context_in (T.lines lines.now) context.now in
        IsSeen w (followed (visits x (ahead (shape_of part.now) not) w) (marks_behind x rest.now))
        sight.old sight.new result }
    ensures goes { GoesOn (T.lines lines.now) sight.old sight.new }
{
    let from = sight.at;
    let before = sight.notes.len();
    match look_at(lines, context, part, &Rest::End, sight) {
        Saw::Reached => if not {
            sight.notes.truncate(before);
            Saw::InVain
        } else {
            sight.at = from;
            go_on_behind(lines, context, rest, before, sight)
        },
        Saw::InVain => if not {
            sight.at = from;
            go_on(lines, context, rest, sight)
        } else {
            Saw::InVain
        },
        Saw::TooFar => Saw::TooFar,
    }
}

/// Goes on behind a look, before which so many notes were taken.
#[cycle(look)]
fn go_on_behind<T: Lines>(
    lines: &T,
    context: &Context<'_>,
    rest: &Rest<'_>,
    before: usize,
    sight: &mut Sight,
) -> Saw
    requires { Stands (T.lines lines.now) sight.old }
    ensures seen { (base : AnySight) (w : Way) (inner : List Note) → w.at ≡ sight.old.at →
        base.spent ≡ sight.old.spent → before ≡ length base.notes.items →
        sight.old.notes.items ≡ base.notes.items ++ inner →
        let x = context_in (T.lines lines.now) context.now in
        IsSeen w (marks_behind x rest.now (with_all inner w)) base sight.new result }
    ensures goes { GoesOn (T.lines lines.now) sight.old sight.new }
{
    if sight.notes.len() == before {
        go_on(lines, context, rest, sight)
    } else if before == 0 {
        go_on_later(lines, context, rest, sight)
    } else {
        Saw::TooFar
    }
}

/// Goes on with what follows on a way that has all notes so far, which come before those taken now.
#[cycle(look)]
#[inline(never)]
fn go_on_later<T: Lines>(
    lines: &T,
    context: &Context<'_>,
    rest: &Rest<'_>,
    sight: &mut Sight,
) -> Saw
    requires { Stands (T.lines lines.now) sight.old }
    ensures seen { (base : AnySight) (w : Way) → w.at ≡ sight.old.at → base.spent ≡ sight.old.spent →
        base.notes.items ≡ [] →
        let x = context_in (T.lines lines.now) context.now in
        IsSeen w (marks_behind x rest.now (with_all sight.old.notes.items w)) base sight.new result }
    ensures goes { GoesOn (T.lines lines.now) sight.old sight.new }
{
    let noted = sight.notes.len();
    match go_on(lines, context, rest, sight) {
        Saw::Reached => {
            sight.notes.rotate_left(noted);
            Saw::Reached
        }
        Saw::InVain => {
            sight.notes.clear();
            Saw::InVain
        }
        Saw::TooFar => Saw::TooFar,
    }
}
