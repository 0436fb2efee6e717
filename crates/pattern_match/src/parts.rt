//! Two parts: the one behind the other, or in its place, and a part or nothing.
ghost use Rattle.std.specs.Prelude.{◌≡◌, ◌≤◌, ◌∷◌, [], IfOk, IfSome};
ghost use Rattle.vim_pattern.specs.GroupNumbers.{HasNumbers};
ghost use Rattle.vim_pattern.specs.Shape.{empty, seq, or};
ghost use Rattle.match_rules.specs.Ways.{IsPlaceOf};
ghost use Rattle.match_rules.specs.Marks.{Tick, followed};
ghost use Rattle.match_rules.specs.Visits.{visits};
ghost use Rattle.pattern_match.specs.Contexts.{context_in};
ghost use Rattle.pattern_match.specs.Steps.{shape_of};
ghost use Rattle.pattern_match.specs.Machine.{marks_with};
ghost use Rattle.pattern_match.specs.Heights.{height};
ghost use Rattle.pattern_match.specs.Search.{IsStep};

use crate::atoms::try_atom;
use crate::context::Context;
use crate::spent::Spent;
use crate::step::{Step, first_test};
use crate::task::{Next, Task, Went};
use crate::tick::tick;
use crate::turns::put_aside_with;
use crate::ways::Ways;
use syn_base::{Lines, Looked, Memory};

/// The lines looked at where the first atom that every way tries doesn't fit: that is the one tick then.
pub(crate) fn fails_at_once<T: Lines>(
    lines: &T,
    context: &Context,
    ways: &Ways<Task>,
    step: &Step,
) -> Option<Looked>
    requires place { IsPlaceOf (T.lines lines.now) ways.now.here.way.at }
    requires numbers { HasNumbers (shape_of step.now) }
    ensures { let x = context_in (T.lines lines.now) context.now in
        IfSome result (λ looked. visits x (shape_of step.now) ways.now.here.way ≡ Tick looked
        ∷ []) }
{
    let test = first_test(step)?;
    let tried = try_atom(lines, context, ways, test);
    match tried.place {
        None => Some(tried.looked),
        Some(_) => None,
    }
}

/// Follows two parts, the one behind the other. An atom is tried at once.
pub(crate) fn follow_both<'p, T: Lines>(
    lines: &T,
    context: &Context<'_>,
    ways: &mut Ways<Task<'p>>,
    first: &'p Step,
    second: &'p Step,
    spent: &mut Spent,
) -> Result<Went<'p>, Memory>
    requires on_text { IsPlaceOf (T.lines lines.now) ways.old.here.way.at }
    requires numbers { HasNumbers (shape_of first.now) × HasNumbers (shape_of second.now) }
    requires within { spent.old.cost ≤ spent.old.budget }
    ensures { let x = context_in (T.lines lines.now) context.now in
        let node = seq (shape_of first.now) (shape_of second.now) in
        IfOk result (IsStep x (height node)
        (followed (visits x node ways.old.here.way) (marks_with x ways.old.here.todo)) ways.old
        ways.new spent.old spent.new) }
{
    match first {
        Step::One(test) => match tick(lines, context, ways, test, spent)? {
            Went::GoesOn => Ok(Went::Does(Next::Visit(second))),
            went => Ok(went),
        },
        _ => {
            ways.put_first(Task::Visit(second))?;
            Ok(Went::Does(Next::Visit(first)))
        }
    }
}

/// Follows the one part or the other (`/\|`). Where the first atom of the one doesn't fit, that is its
/// one tick, and no way is put aside.
#[inline(always)]
pub(crate) fn follow_either<'p, T: Lines>(
    lines: &T,
    context: &Context<'_>,
    ways: &mut Ways<Task<'p>>,
    first: &'p Step,
    second: &'p Step,
    spent: &mut Spent,
) -> Result<Went<'p>, Memory>
    requires on_text { IsPlaceOf (T.lines lines.now) ways.old.here.way.at }
    requires numbers { HasNumbers (shape_of first.now) × HasNumbers (shape_of second.now) }
    requires within { spent.old.cost ≤ spent.old.budget }
    ensures { let x = context_in (T.lines lines.now) context.now in
        let node = or (shape_of first.now) (shape_of second.now) in
        IfOk result (IsStep x (height node)
        (followed (visits x node ways.old.here.way) (marks_with x ways.old.here.todo)) ways.old
        ways.new spent.old spent.new) }
{
    let Some(looked) = fails_at_once(lines, context, ways, first) else {
        put_aside_with(ways, Task::Visit(second))?;
        return Ok(Went::Does(Next::Visit(first)));
    };
    if spent.cost >= spent.budget {
        return Ok(Went::TooCostly);
    }
    spent.tick(looked);
    Ok(Went::Does(Next::Visit(second)))
}

/// Follows a part, or else nothing. Where the first atom of the part doesn't fit, that is its one tick,
/// and no way is put aside.
pub(crate) fn follow_optional<'p, T: Lines>(
    lines: &T,
    context: &Context<'_>,
    ways: &mut Ways<Task<'p>>,
    part: &'p Step,
    spent: &mut Spent,
) -> Result<Went<'p>, Memory>
    requires on_text { IsPlaceOf (T.lines lines.now) ways.old.here.way.at }
    requires numbers { HasNumbers (shape_of part.now) }
    requires within { spent.old.cost ≤ spent.old.budget }
    ensures { let x = context_in (T.lines lines.now) context.now in
        let node = or (shape_of part.now) empty in
        IfOk result (IsStep x (height node)
        (followed (visits x node ways.old.here.way) (marks_with x ways.old.here.todo)) ways.old
        ways.new spent.old spent.new) }
{
    let Some(looked) = fails_at_once(lines, context, ways, part) else {
        ways.put_aside()?;
        return Ok(Went::Does(Next::Visit(part)));
    };
    if spent.cost >= spent.budget {
        return Ok(Went::TooCostly);
    }
    spent.tick(looked);
    Ok(Went::GoesOn)
}
