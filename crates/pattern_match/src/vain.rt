//! Parts that are tried in vain: the character here fits none of the atoms that they begin with, and so
//! they come to a number of ticks.
ghost use Rattle.std.specs.Prelude.{◌≡◌, ◌≤◌, ◌+◌, IsFalse, IsTrue, List, false};
ghost use Rattle.match_rules.specs.Counts.{is_spent};
ghost use Rattle.match_rules.specs.Marks.{Mark, followed};
ghost use Rattle.match_rules.specs.Visits.{tried, visits};
ghost use Rattle.match_rules.specs.Ways.{Context as AnyContext, IsPlaceOf, Way};
ghost use Rattle.pattern_match.specs.Contexts.{context_in};
ghost use Rattle.pattern_match.specs.Steps.{atom_of, shape_of};
ghost use Rattle.pattern_match.specs.declared.vain.Vain.{Vain as AnyVain};
ghost use Rattle.pattern_match.specs.declared.vain.Vain.TheVariants.{Noted};
ghost use Rattle.pattern_match.specs.Vain.{IsBehindOne, IsEither, IsRefused, IsThen, IsVain, IsVainBy, is_refused, left_out};

use crate::atoms::numbered;
use crate::context::Context;
use crate::spent::Spent;
use crate::standing::{Standing, standing_at};
use crate::step::{Step, Test, notes_place};
use crate::told::{Fit, fit_of};
use pattern_screens::is_spent;
use syn_base::{Lines, Looked, Place};

/// What the character at a place tells of a part.
#[derive(Clone, Copy)]
pub(crate) enum Vain {
    /// It tries so many atoms in vain, and has no way.
    Refused(u64),
    /// It tries so many atoms in vain, and its one way stays here and notes nothing.
    LeftOut(u64),
    /// The same, but that way notes its place.
    Noted(u64),
    /// Nothing.
    Unsure,
}

impl Vain {
    /// What is told of a part and one behind it.
    pub(crate) fn then(self, next: Vain) -> Vain
        ensures { IsThen self next result }
    {
        match (self, next) {
            (Vain::LeftOut(ticks), Vain::Refused(more)) => match ticks.checked_add(more) {
                Some(all) => Vain::Refused(all),
                None => Vain::Unsure,
            },
            (Vain::LeftOut(ticks), Vain::LeftOut(more)) => match ticks.checked_add(more) {
                Some(all) => Vain::LeftOut(all),
                None => Vain::Unsure,
            },
            (Vain::LeftOut(ticks), Vain::Noted(more)) => Vain::noted(ticks, more),
            (Vain::Noted(ticks), Vain::Refused(more)) => match ticks.checked_add(more) {
                Some(all) => Vain::Refused(all),
                None => Vain::Unsure,
            },
            (Vain::Noted(ticks), Vain::LeftOut(more)) => Vain::noted(ticks, more),
            (Vain::Noted(ticks), Vain::Noted(more)) => Vain::noted(ticks, more),
            (Vain::Refused(ticks), _) => Vain::Refused(ticks),
            _ => Vain::Unsure,
        }
    }

    /// What is told where so many atoms and more are tried in vain, and the one way notes its place.
    fn noted(ticks: u64, more: u64) -> Vain
        ensures { (w : Way) (marks : List Mark) → IsVain marks w (Noted (ticks + more)) →
            IsVain marks w result }
    {
        match ticks.checked_add(more) {
            Some(all) => Vain::Noted(all),
            None => Vain::Unsure,
        }
    }

    /// Whether nothing is decided yet, so that what stands behind is asked.
    pub(crate) fn is_left_out(&self) -> bool
        ensures { IsFalse result → (next : AnyVain) → IsThen self.now next self.now }
    {
        match self {
            Vain::LeftOut(_) | Vain::Noted(_) => true,
            _ => false,
        }
    }

    /// Whether there is no way.
    pub(crate) fn is_refused(&self) -> bool
        ensures { result ≡ is_refused self.now }
    {
        match self {
            Vain::Refused(_) => true,
            _ => false,
        }
    }

    /// What is told of one part or another.
    pub(crate) fn or(self, second: Vain) -> Vain
        ensures { IsEither self second result }
    {
        match (self, second) {
            (Vain::Refused(ticks), Vain::Refused(more)) => match ticks.checked_add(more) {
                Some(all) => Vain::Refused(all),
                None => Vain::Unsure,
            },
            _ => Vain::Unsure,
        }
    }

    /// What is told behind an atom that takes a character of the line, of both.
    pub(crate) fn one_more(self) -> Vain
        ensures { IsBehindOne self result }
    {
        match self {
            Vain::Refused(ticks) => match ticks.checked_add(1) {
                Some(all) => Vain::Refused(all),
                None => Vain::Unsure,
            },
            _ => Vain::Unsure,
        }
    }

    /// What is told of a part that need not be there.
    pub(crate) fn left_out(self) -> Vain
        ensures { result ≡ left_out self }
    {
        match self {
            Vain::Refused(ticks) => Vain::LeftOut(ticks),
            _ => Vain::Unsure,
        }
    }
}

/// What a character tells of an atom, by whether it is the first of its line.
#[inline(always)]
fn vain_atom(context: &Context<'_>, test: &Test, c: char, at_start: bool) -> Vain
    ensures { IsVainBy context.now (λ x w. tried x w (atom_of test.now)) c at_start result }
{
    match fit_of(test, c, at_start, context) {
        Fit::Refuses => Vain::Refused(1),
        Fit::Stays => if notes_place(test) {
            Vain::Noted(1)
        } else {
            Vain::LeftOut(1)
        },
        _ => Vain::Unsure,
    }
}

/// Whether a count takes as many turns as it can, and none where it can't.
pub(crate) fn is_free(least: u32, most: Option<u32>, lazy: bool) -> bool
    ensures { IsTrue result → (least ≡ 0) × ((lazy ≡ false) × (is_spent most ≡ false)) }
{
    least == 0 && !lazy && !is_spent(most)
}

/// What a character tells of a node, by whether it is the first of its line. Mostly it is an atom.
#[cycle(vain)]
#[inline(always)]
pub(crate) fn vain_by(context: &Context<'_>, step: &Step, c: char, at_start: bool) -> Vain
    ensures { IsVainBy context.now (λ x. visits x (shape_of step.now)) c at_start result }
{
    match step {
        Step::One(test) => vain_atom(context, test, c, at_start),
        step => vain_by_parts(context, step, c, at_start),
    }
}

/// The same of a node that is no atom.
#[cycle(vain)]
fn vain_by_parts(context: &Context<'_>, step: &Step, c: char, at_start: bool) -> Vain
    ensures { IsVainBy context.now (λ x. visits x (shape_of step.now)) c at_start result }
{
    match step {
        Step::Seq(first, second) => {
            let known = vain_by(context, first, c, at_start);
            vain_pieces(context, known, second, c, at_start)
        }
        Step::Or(first, second) => {
            let known = vain_by(context, first, c, at_start);
            if known.is_refused() {
                known.or(vain_by(context, second, c, at_start))
            } else {
                Vain::Unsure
            }
        }
        Step::Optional(part) => vain_by(context, part, c, at_start).left_out(),
        Step::Repeat {
            part,
            least,
            most,
            lazy,
        } => if is_free(*least, *most, *lazy) {
            vain_by(context, part, c, at_start).left_out()
        } else {
            Vain::Unsure
        },
        _ => Vain::Unsure,
    }
}

/// The same of a part, of which this is known, and a node behind it, piece by piece.
#[cycle(vain)]
fn vain_pieces(context: &Context<'_>, first: Vain, node: &Step, c: char, at_start: bool) -> Vain
    ensures { (part : AnyContext → Way → List Mark) → IsVainBy context.now part c at_start first →
        IsVainBy context.now (λ x w. followed (part x w) (visits x (shape_of node.now))) c at_start
        result }
{
    let mut known = first;
    let mut rest = node;
    while let Step::Seq(a, b) = rest {
        if !known.is_left_out() {
            return known;
        }
        known = known.then(vain_by(context, a, c, at_start));
        rest = b;
    }
    if !known.is_left_out() {
        return known;
    }
    known.then(vain_by(context, rest, c, at_start))
}

/// What the character at a place tells of a node.
#[inline(always)]
pub(crate) fn vain_at<T: Lines>(lines: &T, context: &Context<'_>, step: &Step, at: Place) -> Vain
    requires { IsPlaceOf (T.lines lines.now) at }
    ensures { (w : Way) → w.at ≡ at → IsVain (visits (context_in (T.lines lines.now) context.now)
        (shape_of step.now) w) w result }
{
    match standing_at(lines, at) {
        Standing::Character(c, _) => vain_by(context, step, c, at.col == 0),
        _ => Vain::Unsure,
    }
}

/// Whether the character at a place tells that a node has no way from there. Then its ticks are spent.
pub(crate) fn is_refused<T: Lines>(
    lines: &T,
    context: &Context<'_>,
    step: &Step,
    start: Place,
    spent: &mut Spent,
) -> bool
    requires on_text { IsPlaceOf (T.lines lines.now) start }
    requires within { spent.old.cost ≤ spent.old.budget }
    ensures refused { IsTrue result → IsRefused
        (visits (context_in (T.lines lines.now) context.now) (shape_of step.now)) start spent.old
        spent.new }
    ensures budget { spent.new.budget ≡ spent.old.budget }
    ensures within { spent.new.cost ≤ spent.new.budget }
    ensures unchanged { IsFalse result → spent.new ≡ spent.old }
{
    match vain_at(lines, context, step, start) {
        Vain::Refused(ticks) if ticks <= spent.budget - spent.cost => {
            spent.tick_times(ticks, Looked::one(numbered(lines, start.line)));
            true
        }
        _ => false,
    }
}
