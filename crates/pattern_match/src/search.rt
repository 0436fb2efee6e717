//! The search for the first way of a part of a pattern.
ghost use Rattle.std.specs.Prelude.{◌≡◌, ◌≤◌, ◌<◌, ◌^◌, ◌-◌, IfOk, IfSome, OnOk, List, ◌∷◌, [], drop, length, pos, ◌-ℤ◌};
ghost use Rattle.syn_base.specs.Looked.{one_line};
ghost use Rattle.vim_pattern.specs.GroupNumbers.{HasNumbers};
ghost use Rattle.match_rules.specs.Ways.{IsPlaceOf};
ghost use Rattle.match_rules.specs.Visits.{visits};
ghost use Rattle.match_rules.specs.Looks.{tried_behind};
ghost use Rattle.pattern_match.specs.Contexts.{context_in};
ghost use Rattle.pattern_match.specs.Steps.{shape_of};
ghost use Rattle.pattern_match.specs.Ways.{Thread};
ghost use Rattle.pattern_match.specs.declared.task.Task.{Task as AnyTask};
ghost use Rattle.pattern_match.specs.Heights.{height, height_of, IsNumbered};
ghost use Rattle.pattern_match.specs.Spending.{looking_too};
ghost use Rattle.pattern_match.specs.Search.{IsStep, marks_first, task_of, IsSearch, going_again, IsChoice, wanted_marks, is_wanted, going, behind_look, IsLed};

use crate::behind::Starts;
use crate::context::Context;
use crate::glance::is_in_vain;
use crate::look::{Ending, Look};
use crate::others::others_of;
use crate::parts::{follow_both, follow_either, follow_optional};
use crate::spent::Spent;
use crate::step::Step;
use crate::task::{Next, Task, Turns, Went};
use crate::tick::tick;
use crate::turns::{after_turn, count, put_aside_with, turn};
use crate::ways::Ways;
use pattern_items::Behind;
use syn_base::{Lines, Looked, Memory, Place};

/// How a search ended.
#[derive(Clone, Copy)]
pub(crate) enum Sought {
    /// With a way, which is the present one.
    Found,
    /// With none.
    Absent,
    /// Before its end: the budget is spent.
    TooCostly,
}

/// Whether a way that stands at a place is wanted: at that one, or at any.
fn is_wanted(wanted: Option<Place>, at: Place) -> bool
    ensures { result ≡ is_wanted wanted at }
{
    match wanted {
        None => true,
        Some(place) => at == place,
    }
}

/// Searches for the first way of a part, from the present way on, at a place or at any. Nothing else
/// is done on the present way. The pending ways stay as they are.
#[cycle(search)]
pub(crate) fn search<'p, T: Lines>(
    lines: &T,
    context: &Context<'_>,
    ways: &mut Ways<Task<'p>>,
    part: &'p Step,
    wanted: Option<Place>,
    spent: &mut Spent,
) -> Result<Sought, Memory>
    requires on_text { IsPlaceOf (T.lines lines.now) ways.old.here.way.at }
    requires numbers { HasNumbers (shape_of part.now) }
    requires within { spent.old.cost ≤ spent.old.budget }
    ensures { let x = context_in (T.lines lines.now) context.now in
        IfOk result (IsSearch (wanted_marks wanted (visits x (shape_of part.now) ways.old.here.way))
        ways.old ways.new spent.old spent.new) }
{
    let floor = ways.pending();
    ways.drop_all();
    let mut went = Went::Does(Next::Visit(part));
    // The budget ends it long before; counted turns need no measure.
    for _ in 0..u64::MAX {
        went = match went {
            Went::Does(next) => match choice_of(next) {
                Some((first, second)) => {
                    put_aside_again(ways, second, spent)?;
                    Went::Does(Next::Visit(first))
                }
                None => follow(lines, context, ways, next, spent)?,
            },
            Went::GoesOn => match ways.take_first() {
                Some(item) => match item {
                    Task::Again { second, cost } => again(second, cost, spent),
                    item => step(lines, context, ways, item, spent)?,
                },
                None if is_wanted(wanted, ways.place()) => {
                    ways.forget_to(floor);
                    return Ok(Sought::Found);
                }
                None => Went::Ends,
            },
            Went::Ends => {
                if ways.pending() == floor {
                    return Ok(Sought::Absent);
                }
                ways.take_up();
                Went::GoesOn
            }
            Went::TooCostly => return Ok(Sought::TooCostly),
        };
    }
    Err(Memory)
}

/// The two parts of a choice, where that is what is done.
fn choice_of<'p>(next: Next<'p>) -> Option<(&'p Step, &'p Step)>
    ensures { IfSome result (λ parts. IsChoice next.entry parts.0 parts.1) }
{
    match next {
        Next::Visit(Step::Choice(first, second)) => Some((first, second)),
        _ => None,
    }
}

/// Puts a copy of the present way aside, on which the second part of a choice is followed, if need be.
fn put_aside_again<'p>(
    ways: &mut Ways<Task<'p>>,
    second: &'p Step,
    spent: &Spent,
) -> Result<(), Memory>
    ensures { OnOk result (ways.new ≡ record ways.old {
      pending = record ways.old.here {
        todo = Task.Again second.entry spent.now.cost
            ∷ ways.old.here.todo;
      } ∷ ways.old.pending;
    }) }
{
    put_aside_with(
        ways,
        Task::Again {
            second,
            cost: spent.cost,
        },
    )
}

/// Takes up a way with the second part of a choice. What is to be done behind the choice was done at
/// its place behind the first part already. If that made no tick, nothing has come of it, and nothing
/// will again.
fn again<'p>(second: &'p Step, cost: u64, spent: &Spent) -> Went<'p>
    ensures { result ≡ going_again second.entry cost spent.now.cost }
{
    if spent.cost == cost {
        Went::Ends
    } else {
        Went::Does(Next::Visit(second))
    }
}

/// Does one thing on the present way.
fn step<'p, T: Lines>(
    lines: &T,
    context: &Context<'_>,
    ways: &mut Ways<Task<'p>>,
    item: Task<'p>,
    spent: &mut Spent,
) -> Result<Went<'p>, Memory>
    requires on_text { IsPlaceOf (T.lines lines.now) ways.old.here.way.at }
    requires numbers { IsNumbered item }
    requires within { spent.old.cost ≤ spent.old.budget }
    ensures { let x = context_in (T.lines lines.now) context.now in
        IfOk result (IsStep x (height_of item.entry) (marks_first x item.entry ways.old) ways.old
        ways.new spent.old spent.new) }
{
    match item {
        Task::Visit(node) => Ok(Went::Does(Next::Visit(node))),
        Task::Count(turns) => Ok(Went::Does(Next::Count(turns))),
        Task::Turn(turns) => turn(lines, context, ways, turns, spent),
        Task::AfterTurn { turns, from } => Ok(after_turn(ways, turns, from)),
        Task::Look(look) => Ok(Went::Does(Next::Look(look))),
        Task::Close { number, from } => {
            ways.note_capture(number, from)?;
            Ok(Went::GoesOn)
        }
        Task::CloseExternal { number, from } => {
            ways.note_external(number, from)?;
            Ok(Went::GoesOn)
        }
        // The search sees to it itself.
        Task::Again { second, .. } => Ok(Went::Does(Next::Visit(second))),
    }
}

/// Does what is done at once on the present way.
#[cycle(search)]
fn follow<'p, T: Lines>(
    lines: &T,
    context: &Context<'_>,
    ways: &mut Ways<Task<'p>>,
    next: Next<'p>,
    spent: &mut Spent,
) -> Result<Went<'p>, Memory>
    requires on_text { IsPlaceOf (T.lines lines.now) ways.old.here.way.at }
    requires numbers { IsNumbered (task_of next) }
    requires within { spent.old.cost ≤ spent.old.budget }
    ensures { let x = context_in (T.lines lines.now) context.now in
        IfOk result (IsStep x (height_of (task_of next.entry))
        (marks_first x (task_of next.entry) ways.old) ways.old ways.new spent.old spent.new) }
{
    match next {
        Next::Visit(node) => visit(lines, context, ways, node, spent),
        Next::Count(turns) => count(lines, context, ways, turns, spent),
        Next::Look(look) => follow_look(lines, context, ways, look, spent),
    }
}

/// Follows a node from the present way.
fn visit<'p, T: Lines>(
    lines: &T,
    context: &Context<'_>,
    ways: &mut Ways<Task<'p>>,
    node: &'p Step,
    spent: &mut Spent,
) -> Result<Went<'p>, Memory>
    requires on_text { IsPlaceOf (T.lines lines.now) ways.old.here.way.at }
    requires numbers { HasNumbers (shape_of node.now) }
    requires within { spent.old.cost ≤ spent.old.budget }
    ensures { let x = context_in (T.lines lines.now) context.now in
        IfOk result (IsStep x (height (shape_of node.now))
        (marks_first x (Task.Visit node.entry) ways.old) ways.old ways.new spent.old spent.new) }
{
    match node {
        Step::Empty => Ok(Went::GoesOn),
        Step::One(test) => tick(lines, context, ways, test, spent),
        Step::Seq(a, b) => follow_both(lines, context, ways, a, b, spent),
        Step::Or(a, b) => follow_either(lines, context, ways, a, b, spent),
        // The search sees to it itself, and drops what comes to nothing.
        Step::Choice(a, b) => follow_either(lines, context, ways, a, b, spent),
        Step::Optional(part) => follow_optional(lines, context, ways, part, spent),
        Step::And(a, b) => {
            ways.put_first(Task::Visit(b))?;
            Ok(Went::Does(Next::Look(Look::ahead(a, false))))
        }
        Step::Group(part, number) => {
            open_group(ways, *number)?;
            Ok(Went::Does(Next::Visit(part)))
        }
        Step::External(part, number) => {
            open_external(ways, *number)?;
            Ok(Went::Does(Next::Visit(part)))
        }
        Step::Repeat {
            part,
            least,
            most,
            lazy,
        } => Ok(Went::Does(Next::Count(Turns::new(part, *least, *most, *lazy)))),
        Step::Ahead { part, not } => Ok(Went::Does(Next::Look(Look::ahead(part, *not)))),
        Step::Before { part, not, limit } => {
            Ok(Went::Does(Next::Look(Look::behind(part, *not, *limit))))
        }
        Step::Whole(part) => Ok(Went::Does(Next::Look(Look::whole(part)))),
        Step::Never => Ok(Went::Ends),
    }
}

/// A counted group begins on the present way: it closes behind its part.
fn open_group<'p>(ways: &mut Ways<Task<'p>>, number: u8) -> Result<(), Memory>
    ensures { OnOk result (ways.new ≡ record ways.old {
      here = record ways.old.here {
        todo = Task.Close number ways.old.here.way.at
            ∷ ways.old.here.todo;
      };
    }) }
{
    let from = ways.place();
    ways.put_first(Task::Close { number, from })
}

/// An external group begins on the present way.
fn open_external<'p>(ways: &mut Ways<Task<'p>>, number: u8) -> Result<(), Memory>
    ensures { OnOk result (ways.new ≡ record ways.old {
      here = record ways.old.here {
        todo = Task.CloseExternal number ways.old.here.way.at
            ∷ ways.old.here.todo;
      };
    }) }
{
    let from = ways.place();
    ways.put_first(Task::CloseExternal { number, from })
}

/// Searches for the first way of a part, and goes on behind it.
#[cycle(search)]
fn follow_look<'p, T: Lines>(
    lines: &T,
    context: &Context<'_>,
    ways: &mut Ways<Task<'p>>,
    look: Look<'p>,
    spent: &mut Spent,
) -> Result<Went<'p>, Memory>
    requires on_text { IsPlaceOf (T.lines lines.now) ways.old.here.way.at }
    requires numbers { HasNumbers (shape_of look.part.now) }
    requires within { spent.old.cost ≤ spent.old.budget }
    ensures { let x = context_in (T.lines lines.now) context.now in
        IfOk result (IsStep x (height_of (Task.Look look.entry))
        (marks_first x (Task.Look look.entry) ways.old) ways.old ways.new spent.old spent.new) }
{
    ways.put_aside()?;
    let sought = match look.behind {
        None => search(lines, context, ways, look.part, None, spent)?,
        Some(limit) => search_behind(lines, context, ways, look.part, limit, spent)?,
    };
    Ok(match sought {
        Sought::Found => behind_look(ways, look.ending, true),
        Sought::Absent => behind_look(ways, look.ending, false),
        Sought::TooCostly => Went::TooCostly,
    })
}

/// Searches for the first way of a part that ends at the place of the present way and starts there
/// or before it.
#[cycle(search)]
fn search_behind<'p, T: Lines>(
    lines: &T,
    context: &Context<'_>,
    ways: &mut Ways<Task<'p>>,
    part: &'p Step,
    limit: Behind,
    spent: &mut Spent,
) -> Result<Sought, Memory>
    requires on_text { IsPlaceOf (T.lines lines.now) ways.old.here.way.at }
    requires numbers { HasNumbers (shape_of part.now) }
    requires within { spent.old.cost ≤ spent.old.budget }
    ensures { let x = context_in (T.lines lines.now) context.now in
        IfOk result (IsSearch (tried_behind x.text (visits x (shape_of part.now)) limit
        ways.old.here.way) ways.old ways.new spent.old spent.new) }
{
    let at = ways.place();
    let begun = Begun {
        line_before: line_before(lines, at),
        cost: spent.cost,
        pending: ways.pending(),
    };
    ways.put_aside()?;
    let alloc = ways.allocator();
    let others = others_of(part);
    let mut starts = Starts::new(at, limit);
    while let Some(start) = starts.next(lines) {
        if is_in_vain(alloc, lines, context, part, others, start, Some(at), spent) {
            continue;
        }
        ways.move_to(start);
        match search(lines, context, ways, part, Some(at), spent)? {
            Sought::Absent => take_up_copy(ways)?,
            Sought::Found => return Ok(begun.end(ways, spent, Sought::Found)),
            Sought::TooCostly => return Ok(Sought::TooCostly),
        }
    }
    Ok(begun.end(ways, spent, Sought::Absent))
}

/// What was when a search behind a place began.
#[derive(Clone, Copy)]
struct Begun {
    /// The line before that of the place.
    line_before: Looked,
    /// The ticks up to then.
    cost: u64,
    /// How many ways were pending.
    pending: usize,
}

impl Begun {
    /// Ends the search so: the ways that it put aside are forgotten, and its ticks, if it made any,
    /// looked at the line before too, be it that it found a way or none.
    fn end<'p>(&self, ways: &mut Ways<Task<'p>>, spent: &mut Spent, sought: Sought) -> Sought
        requires { self.now.pending ≤ length ways.old.pending }
        ensures sought { result ≡ sought }
        ensures ways { ways.new ≡ record ways.old {
          pending =
              drop (length ways.old.pending - self.now.pending) ways.old.pending;
        } }
        ensures spent { spent.new ≡ looking_too self.now.cost self.now.line_before spent.old }
    {
        ways.forget_to(self.pending);
        spent.look_too(self.cost, self.line_before);
        sought
    }
}

/// The line before a place.
fn line_before<T: Lines>(lines: &T, at: Place) -> Looked
    requires { IsPlaceOf (T.lines lines.now) at }
    ensures { result ≡ one_line (pos at.line -ℤ pos 1) }
{
    // The proof needs the bounds that this call tells of the text.
    let _count = lines.len();
    Looked::one(at.line as i64 - 1)
}

/// Takes up a copy of the next pending way.
fn take_up_copy<'p>(ways: &mut Ways<Task<'p>>) -> Result<(), Memory>
    ensures { (t : Thread AnyTask) (others : List (Thread AnyTask)) →
        ways.old.pending ≡ t ∷ others → OnOk result
        (ways.new ≡ record { here = t; pending = ways.old.pending }) }
{
    if ways.take_up() {
        ways.put_aside()?;
    }
    Ok(())
}

/// Goes on behind a look that has found a way, which is the present one, or none. The way that it
/// began with is the next pending one.
fn behind_look<'p>(ways: &mut Ways<Task<'p>>, ending: Ending, found: bool) -> Went<'p>
    ensures led { IsLed result }
    ensures leads { (t : Thread AnyTask) (others : List (Thread AnyTask)) →
        ways.old.pending ≡ t ∷ others →
        (ways.new.pending ≡ others) × (going result ways.new.here [] ≡ behind_look ending found t
        ways.old.here.way) }
{
    let goes_on = match (ending, found) {
        (Ending::Look { not: false }, true) => ways.go_on_with_pending(false),
        (Ending::Whole, true) => ways.go_on_with_pending(true),
        (Ending::Look { not: true }, false) => ways.take_up(),
        _ => {
            ways.take_up();
            false
        }
    };
    if goes_on { Went::GoesOn } else { Went::Ends }
}
