//! What follows a stop of a count: the character there, and the one behind it, tell that it is tried in
//! vain, and with how many ticks.
ghost use Rattle.std.specs.Prelude.{◌≡◌, IfSome};
ghost use Rattle.match_rules.specs.Marks.{followed};
ghost use Rattle.match_rules.specs.Visits.{visits};
ghost use Rattle.match_rules.specs.Ways.{IsPlaceOf, Way};
ghost use Rattle.pattern_match.specs.Contexts.{context_in};
ghost use Rattle.pattern_match.specs.Glance.{marks_behind};
ghost use Rattle.pattern_match.specs.Steps.{atom_of, shape_of};
ghost use Rattle.pattern_match.specs.Beyond.{IsKept};
ghost use Rattle.pattern_match.specs.Vain.{IsVain, IsVainBy};
ghost use Rattle.pattern_match.specs.declared.context.Context.{Context as ContextOf};
ghost use Rattle.pattern_match.specs.declared.sight.Rest.{Rest as AnyRest};
ghost use Rattle.pattern_match.specs.declared.vain.Vain.TheVariants.{Refused};
ghost use Rattle.vim_pattern.specs.Shape.{one};

use crate::context::Context;
use crate::sight::Rest;
use crate::standing::{Standing, standing_at};
use crate::step::{Step, Test};
use crate::told::{Fit, fit_of};
use crate::vain::{Vain, vain_by};
use syn_base::{Lines, Place};

/// What a character tells of what follows, by whether it is the first of its line.
#[cycle(vain_rest)]
fn vain_rest(context: &Context<'_>, rest: &Rest<'_>, c: char, at_start: bool) -> Vain
    ensures { IsVainBy context.now (λ x. marks_behind x rest.now) c at_start result }
{
    match *rest {
        Rest::Then(step, others) => {
            let known = vain_by(context, step, c, at_start);
            if known.is_left_out() {
                known.then(vain_rest(context, others, c, at_start))
            } else {
                known
            }
        }
        _ => Vain::Unsure,
    }
}

/// What the character at a place and the one behind it tell of an atom and what follows.
fn vain_behind<T: Lines>(
    lines: &T,
    context: &Context<'_>,
    test: &Test,
    rest: &Rest<'_>,
    at: Place,
) -> Vain
    requires { IsPlaceOf (T.lines lines.now) at }
    ensures { (w : Way) → w.at ≡ at → let x = context_in (T.lines lines.now) context.now in
        IsVain (followed (visits x (one (atom_of test.now)) w) (marks_behind x rest.now)) w result }
{
    let Standing::Character(c, behind) = standing_at(lines, at) else {
        return Vain::Unsure;
    };
    match fit_of(test, c, at.col == 0, context) {
        Fit::Refuses => Vain::Refused(1),
        Fit::Takes => match standing_at(lines, behind) {
            Standing::Character(d, _) => vain_rest(context, rest, d, behind.col == 0).one_more(),
            _ => Vain::Unsure,
        },
        _ => Vain::Unsure,
    }
}

/// The same of a node that begins with such atoms.
#[cycle(vain_branch)]
fn vain_branch<T: Lines>(
    lines: &T,
    context: &Context<'_>,
    step: &Step,
    rest: &Rest<'_>,
    at: Place,
) -> Vain
    requires { IsPlaceOf (T.lines lines.now) at }
    ensures { (w : Way) → w.at ≡ at → let x = context_in (T.lines lines.now) context.now in
        IsVain (followed (visits x (shape_of step.now) w) (marks_behind x rest.now)) w result }
{
    match step {
        Step::One(test) => vain_behind(lines, context, test, rest, at),
        Step::Or(first, second) => {
            let known = vain_branch(lines, context, first, rest, at);
            if known.is_refused() {
                known.or(vain_branch(lines, context, second, rest, at))
            } else {
                Vain::Unsure
            }
        }
        Step::Seq(first, second) => {
            let rest = Rest::Then(&*second, &*rest);
            vain_branch(lines, context, first, &rest, at)
        }
        _ => Vain::Unsure,
    }
}

/// A character, not the first of its line, that refuses what follows, and the ticks of that.
#[derive(Clone, Copy)]
pub(crate) struct Refusal {
    c: char,
    ticks: u64,
}

/// What the characters at a place tell of what follows there. A character that refuses it is kept, for
/// it does so again elsewhere.
pub(crate) fn vain_beyond<T: Lines>(
    lines: &T,
    context: &Context<'_>,
    rest: &Rest<'_>,
    at: Place,
    kept: &mut Option<Refusal>,
) -> Vain
    requires on_text { IsPlaceOf (T.lines lines.now) at }
    requires kept { IsKept context.now rest.now kept.old }
    ensures told { (w : Way) → w.at ≡ at →
        IsVain (marks_behind (context_in (T.lines lines.now) context.now) rest.now w) w result }
    ensures kept { IsKept context.now rest.now kept.new }
{
    let Standing::Character(c, _) = standing_at(lines, at) else {
        return Vain::Unsure;
    };
    if let Some(ticks) = refused_before(*kept, c, at.col == 0) {
        return Vain::Refused(ticks);
    }
    let known = vain_rest(context, rest, c, at.col == 0);
    if let Vain::Refused(ticks) = known {
        keep(kept, c, at.col == 0, ticks);
        return known;
    }
    match *rest {
        Rest::Then(step, others) => vain_branch(lines, context, step, others, at),
        _ => Vain::Unsure,
    }
}

/// The ticks of what follows, if a character is the kept one that refuses it.
#[inline(always)]
fn refused_before(kept: Option<Refusal>, c: char, at_start: bool) -> Option<u64>
    ensures { (context : ContextOf) (rest : AnyRest) → IsKept context rest kept →
        IfSome result (λ ticks. IsVainBy context (λ x. marks_behind x rest) c at_start
        (Refused ticks)) }
{
    match kept {
        Some(refusal) if refusal.c == c && !at_start => Some(refusal.ticks),
        _ => None,
    }
}

/// Keeps a character that refuses what follows, if it isn't the first of its line.
#[inline(always)]
fn keep(kept: &mut Option<Refusal>, c: char, at_start: bool, ticks: u64)
    ensures { (context : ContextOf) (rest : AnyRest) → IsKept context rest kept.old →
        IsVainBy context (λ x. marks_behind x rest) c at_start (Refused ticks) →
        IsKept context rest kept.new }
{
    if !at_start {
        *kept = Some(Refusal { c, ticks });
    }
}
