//! Where a short look stands: what it has told, what follows, and the steps of it that go no deeper.
ghost use Rattle.std.specs.Prelude.{◌≡◌, [], ◌∷◌, ◌++◌, IfSome, ◌≤◌, ◌+◌, ◌<◌, ◌^◌, IsTrue, IsFalse, length, pos};
ghost use Rattle.syn_base.specs.Looked.{one_line};
ghost use Rattle.match_rules.specs.Ways.{Way, line_at};
ghost use Rattle.pattern_match.specs.Contexts.{context_in};
ghost use Rattle.pattern_match.specs.Glance.{AreTaken, GoesOn, IsAtomSeen, IsNoteOf, Stands, asks_for_group};
ghost use Rattle.pattern_match.specs.Spending.{spent_times};
ghost use Rattle.pattern_match.specs.Steps.{atom_of};
ghost use Rattle.pattern_match.specs.Ways.{columns_on};

use crate::atoms::{numbered, try_plain};
use crate::context::Context;
use crate::runs::run_length;
use crate::spent::Spent;
use crate::standing::{Standing, standing_at};
use crate::step::{Step, Test, notes_place};
use crate::task::Turns;
use crate::told::{Fit, fit_of};
use crate::ways::Note;
use std::alloc::Global;
use syn_base::{Lines, Looked, Place};

/// What a short look has told of a node and what follows it.
#[derive(Clone, Copy, PartialEq, Eq)]
pub(crate) enum Saw {
    /// There is a way, and the look stands where the first one does.
    Reached,
    /// There is none.
    InVain,
    /// Nothing: that is too far, or can't be seen so.
    TooFar,
}

/// What follows a node.
#[derive(Clone, Copy)]
pub(crate) enum Rest<'a> {
    /// Nothing: here is a way.
    End,
    /// Nothing, but a way that ends at another place isn't wanted.
    EndAt(Place),
    /// A node.
    Then(&'a Step, &'a Rest<'a>),
    /// The turns of a count that are left behind one that began at a place.
    AfterTurn(&'a Turns<'a>, Place, &'a Rest<'a>),
    /// The note where a counted group matched.
    Close(u8, Place, &'a Rest<'a>),
    /// The note where an external group matched.
    CloseExternal(u8, Place, &'a Rest<'a>),
}

/// Where a short look stands, what it has spent, how many nodes it may still visit, and what the way that
/// it has seen noted, the last note first. Notes are taken on the way back, so one in vain takes none.
#[derive(Drop)]
pub(crate) struct Sight {
    pub at: Place,
    pub left: u32,
    pub spent: Spent,
    pub notes: Vec<Note>,
}

impl Sight {
    /// A look that begins at a place, and may visit no node.
    pub(crate) fn new(alloc: Global, at: Place, spent: Spent) -> Sight
        ensures at { result.at ≡ at }
        ensures spent { result.spent ≡ spent }
        ensures notes { result.notes.items ≡ [] }
    {
        Sight {
            at,
            left: 0,
            spent,
            notes: Vec::new(alloc),
        }
    }
}

/// Takes a note that came before those that a look has taken, if there is memory.
#[inline(never)]
pub(crate) fn take_note(note: Note, sight: &mut Sight) -> bool
    ensures at { sight.new.at ≡ sight.old.at }
    ensures left { sight.new.left ≡ sight.old.left }
    ensures spent { sight.new.spent ≡ sight.old.spent }
    ensures taken { IsTrue result → sight.new.notes.items ≡ sight.old.notes.items ++ note ∷ [] }
{
    sight.notes.push(note).is_ok()
}

/// The note of an atom that notes its place.
pub(crate) fn note_of(test: &Test, at: Place) -> Option<Note>
    ensures { IfSome result (IsNoteOf (atom_of test.now) at) }
{
    match test {
        Test::MatchStart => Some(Note::Start(at)),
        Test::MatchStop => Some(Note::Stop(at)),
        _ => None,
    }
}

/// Tries so many atoms of the line in vain, if the budget allows it.
pub(crate) fn try_in_vain<T: Lines>(lines: &T, ticks: u64, sight: &mut Sight) -> bool
    requires { Stands (T.lines lines.now) sight.old }
    ensures tried { IsTrue result → sight.new ≡ record sight.old {
      spent = spent_times sight.old.spent ticks (one_line (pos sight.old.at.line));
    } }
    ensures unchanged { IsFalse result → sight.new ≡ sight.old }
    ensures goes { GoesOn (T.lines lines.now) sight.old sight.new }
{
    if ticks > sight.spent.budget - sight.spent.cost {
        return false;
    }
    sight
        .spent
        .tick_times(ticks, Looked::one(numbered(lines, sight.at.line)));
    true
}

/// Whether an atom asks for the text of a group.
fn asks_for_group(test: &Test) -> bool
    ensures { result ≡ asks_for_group (atom_of test.now) }
{
    match test {
        Test::Ref(_) | Test::ExternalRef(_) => true,
        _ => false,
    }
}

/// A short look at an atom. Mostly the character here tells of it.
#[inline(always)]
pub(crate) fn look_at_atom<T: Lines>(
    lines: &T,
    context: &Context<'_>,
    test: &Test,
    sight: &mut Sight,
) -> Saw
    requires { Stands (T.lines lines.now) sight.old }
    ensures seen { (w : Way) → w.at ≡ sight.old.at →
        IsAtomSeen (context_in (T.lines lines.now) context.now) (atom_of test.now) w sight.old
        sight.new result }
    ensures goes { GoesOn (T.lines lines.now) sight.old sight.new }
{
    if sight.spent.cost >= sight.spent.budget {
        return Saw::TooFar;
    }
    let Standing::Character(c, behind) = standing_at(lines, sight.at) else {
        return look_at_any_atom(lines, context, test, sight);
    };
    match fit_of(test, c, sight.at.col == 0, context) {
        Fit::Takes => {
            sight
                .spent
                .tick(Looked::one(numbered(lines, sight.at.line)));
            sight.at = behind;
            Saw::Reached
        }
        Fit::Stays => {
            if notes_place(test) {
                return Saw::TooFar;
            }
            sight
                .spent
                .tick(Looked::one(numbered(lines, sight.at.line)));
            Saw::Reached
        }
        Fit::Refuses => {
            sight
                .spent
                .tick(Looked::one(numbered(lines, sight.at.line)));
            Saw::InVain
        }
        Fit::Unsure => look_at_any_atom(lines, context, test, sight),
    }
}

/// A short look at an atom, which is tried.
#[inline(never)]
fn look_at_any_atom<T: Lines>(
    lines: &T,
    context: &Context<'_>,
    test: &Test,
    sight: &mut Sight,
) -> Saw
    requires { Stands (T.lines lines.now) sight.old }
    ensures seen { (w : Way) → w.at ≡ sight.old.at →
        IsAtomSeen (context_in (T.lines lines.now) context.now) (atom_of test.now) w sight.old
        sight.new result }
    ensures goes { GoesOn (T.lines lines.now) sight.old sight.new }
{
    if asks_for_group(test) || notes_place(test) || sight.spent.cost >= sight.spent.budget {
        return Saw::TooFar;
    }
    let tried = try_plain(lines, context, sight.at, test);
    sight.spent.tick(tried.looked);
    match tried.place {
        None => Saw::InVain,
        Some(place) => {
            sight.at = place;
            Saw::Reached
        }
    }
}

/// How many turns of a greedy count a short look makes at once: those of an atom that take a character
/// of the line each.
pub(crate) fn turns_at_once<T: Lines>(
    lines: &T,
    context: &Context<'_>,
    turns: &Turns<'_>,
    sight: &Sight,
) -> usize
    requires { Stands (T.lines lines.now) sight.now }
    ensures taken { AreTaken (context_in (T.lines lines.now) context.now) turns.now sight.now.at
        result }
    ensures fits { 0 < result → sight.now.at.col + result < 2 ^ 64 }
    ensures within { sight.now.spent.cost + result ≤ sight.now.spent.budget }
{
    let left = sight.spent.budget - sight.spent.cost;
    match turns.part {
        Step::One(test) => run_length(lines, context, test, turns.most, sight.at, left),
        _ => 0,
    }
}

/// A place some columns further on in its line.
pub(crate) fn columns_on(from: Place, count: usize) -> Place
    requires { from.col + count < 2 ^ 64 }
    ensures { result ≡ columns_on from count }
{
    Place {
        line: from.line,
        col: from.col + count,
    }
}

/// Goes on by so many characters of the line, with a tick for each.
pub(crate) fn go_further<T: Lines>(lines: &T, count: usize, sight: &mut Sight)
    requires stands { Stands (T.lines lines.now) sight.old }
    requires columns { sight.old.at.col + count
        ≤ length (line_at (T.lines lines.now) sight.old.at.line) }
    requires fits { sight.old.at.col + count < 2 ^ 64 }
    requires within { sight.old.spent.cost + count ≤ sight.old.spent.budget }
    ensures is { sight.new ≡ record sight.old {
      at = columns_on sight.old.at count;
      spent = spent_times sight.old.spent count (one_line (pos sight.old.at.line));
    } }
    ensures goes { GoesOn (T.lines lines.now) sight.old sight.new }
{
    sight
        .spent
        .tick_times(count as u64, Looked::one(numbered(lines, sight.at.line)));
    sight.at = columns_on(sight.at, count);
}
