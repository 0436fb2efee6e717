//! Patterns that are ready, by number.
ghost use Rattle.std.specs.Prelude.{◌≡◌, ◌<◌, ◌≤◌, ◌^◌, ◌-◌, [], ◌∷◌, ◌++◌, List, length, false, Some, slice_get, IfOk, OnOk, OnErr, IfSome};
ghost use Rattle.vim_pattern.specs.GroupNumbers.{HasNumbers};
ghost use Rattle.vim_pattern.specs.Tree.{PatternTree};
ghost use Rattle.match_rules.specs.Ways.{IsPlaceOf, way_from};
ghost use Rattle.match_rules.specs.Marks.{Tick};
ghost use Rattle.match_rules.specs.Visits.{visits};
ghost use Rattle.match_rules.specs.Attempt.{answer_of};
ghost use Rattle.pattern_screens.specs.FirstAtoms.{first_cost};
ghost use Rattle.pattern_match.specs.Contexts.{context_in};
ghost use Rattle.pattern_match.specs.Programs.{IsReady};
ghost use Rattle.pattern_match.specs.Screens.{IsVainAt, passes_at};
ghost use Rattle.pattern_match.specs.StandsFor.{StandsFor};
ghost use Rattle.pattern_match.specs.Steps.{shape_of};
ghost use Rattle.pattern_match.specs.Answers.{answered, lines_or_start, match_of, IsAttempt};
ghost use Rattle.pattern_match.specs.Ways.{way_noted};
ghost use Rattle.pattern_match.specs.declared.answer.Attempt.TheVariants.{Found};
ghost use Rattle.pattern_match.specs.OnText.{AnswersStayOnText};

use crate::answer::Attempt;
use crate::context::Context;
use crate::found::{found_match, seen_match};
use crate::glance::first_way;
use crate::parts::fails_at_once;
use crate::ready::ready;
use crate::screens::some_first_fits;
use crate::search::{Sought, search};
use crate::sight::{Saw, Sight};
use crate::spent::Spent;
use crate::step::Step;
use crate::task::Task;
use crate::ways::Ways;
use pattern_screens::screen_cost;
use std::alloc::Global;
use std::marker::Model;
use std::snapshot::Snapshot;
use syn_base::{Lines, Looked, Memory, PatternId, Place};
use vim_pattern::Tree;

/// A pattern that is ready: its tree, of which contracts alone speak, whether it says of case itself,
/// and the node that stands for that of the tree.
#[derive(Drop)]
struct Program {
    tree: Snapshot<Tree>,
    case: Option<bool>,
    step: Step,
    screen_cost: u64,
}

impl Program {
    /// Makes a pattern ready.
    fn new(alloc: Global, tree: &Tree) -> Result<Program, Memory>
        requires { HasNumbers tree.now.node }
        ensures ready { IfOk result IsReady }
        ensures tree { IfOk result (λ program. program.tree.value ≡ tree.now) }
    {
        Ok(Program {
            tree: Snapshot::of(tree),
            case: tree.case,
            step: ready(alloc, &tree.node)?,
            screen_cost: screen_cost(tree)?,
        })
    }

    /// Tries the pattern at a place, with no regard to what it says of case.
    fn attempt<'p, T: Lines>(
        &'p self,
        alloc: Global,
        scratch: &mut Scratch<'p>,
        lines: &T,
        context: &Context,
        start: Place,
        budget: u64,
    ) -> Result<Attempt, Memory>
        requires place { IsPlaceOf (T.lines lines.now) start }
        requires numbers { HasNumbers self.now.tree.value.node }
        requires stands { StandsFor (shape_of self.now.step) self.now.tree.value.node }
        requires budget { 1 ≤ budget }
        ensures { let x = context_in (T.lines lines.now) context.now in
            IfOk result (λ told. told ≡ answered budget (T.lines lines.now) start
            (answer_of (visits x self.now.tree.value.node (way_from start)))) }
    {
        let sight = &mut scratch.sight;
        match first_way(lines, context, &self.step, start, budget, sight) {
            Saw::InVain => {
                let looked = looked_or_start(lines, sight.spent.looked, start);
                Ok(Attempt::Absent(looked))
            }
            Saw::Reached => seen(alloc, lines, start, sight),
            Saw::TooFar => searched(
                alloc,
                &mut scratch.ways,
                &self.step,
                lines,
                context,
                start,
                budget,
            ),
        }
    }
}

/// The memory of attempts, kept from one to the next. What an attempt answers doesn't depend on it.
#[derive(Drop)]
pub struct Scratch<'p> {
    ways: Ways<Task<'p>>,
    sight: Sight,
}

impl<'p> Scratch<'p> {
    /// No memory yet.
    pub fn new(alloc: Global) -> Scratch<'p> {
        let nowhere = Place { line: 0, col: 0 };
        Scratch {
            ways: Ways::new(alloc, nowhere),
            sight: Sight::new(alloc, nowhere, Spent::nothing(0)),
        }
    }
}

/// Patterns that are ready, by number. Contracts see their trees.
#[derive(Drop)]
pub struct Programs {
    programs: Vec<Program>,
}

impl Model for Programs {
    ghost use Rattle.std.specs.Prelude.{List, map};
    ghost use Rattle.std.specs.List.{All};
    ghost use Rattle.vim_pattern.specs.Tree.{PatternTree};
    ghost use Rattle.pattern_match.specs.Programs.{IsReady};
    ghost use Rattle.vim_pattern.specs.ShapeCode.{coded_tree};
    ghost use Rattle.std.specs.Coded.{coded_list};

    ghost Value = { List PatternTree };

    ghost coded = { coded_list coded_tree };

    ghost view = { λ p. map (λ program. program.tree.value) p.programs.items };

    ghost invariant = { λ p. All IsReady p.programs.items };
}

impl Programs {
    /// No patterns. It takes no memory.
    pub fn new(alloc: Global) -> Programs
        ensures { result ≡ [] }
    {
        Programs {
            programs: Vec::new(alloc),
        }
    }

    /// Makes a pattern ready. Its number is how many were added before.
    pub fn add(&mut self, tree: &Tree) -> Result<PatternId, Memory>
        requires count { length self.now < 2 ^ 32 - 1 }
        requires numbers { HasNumbers tree.now.node }
        ensures number { IfOk result (λ id. id.0 ≡ length self.old) }
        ensures added { OnOk result (self.new ≡ self.old ++ tree.now ∷ []) }
        ensures unchanged { OnErr result (self.new ≡ self.old) }
    {
        let alloc = *self.programs.allocator();
        let number = self.programs.len() as u32;
        self.programs.push(Program::new(alloc, tree)?)?;
        Ok(PatternId(number))
    }

    /// Tries a pattern at a place. Its cost is the number of ticks before the first way, or of all ticks
    /// where there is none; a tick is one atom tried at one place (this profile).
    pub fn attempt<T: Lines>(
        &self,
        alloc: Global,
        id: PatternId,
        lines: &T,
        context: &Context,
        start: Place,
        budget: u64,
    ) -> Result<Attempt, Memory>
        requires added { id.0 < length self.now }
        requires present { start.line < length (T.lines lines.now) }
        requires place { IsPlaceOf (T.lines lines.now) start }
        requires budget { 1 ≤ budget }
        ensures { IfOk result (IsAttempt budget self.now id.0
            (context_in (T.lines lines.now) context.now) start) }
    {
        let mut scratch = Scratch::new(alloc);
        self.attempt_in(&mut scratch, alloc, id, lines, context, start, budget)
    }

    /// Tries a pattern at a place, as `attempt` does, in the memory of earlier attempts. It takes none
    /// where that is enough, but for the texts of external groups that it has found.
    pub fn attempt_in<'p, T: Lines>(
        &'p self,
        scratch: &mut Scratch<'p>,
        alloc: Global,
        id: PatternId,
        lines: &T,
        context: &Context,
        start: Place,
        budget: u64,
    ) -> Result<Attempt, Memory>
        requires added { id.0 < length self.now }
        requires present { start.line < length (T.lines lines.now) }
        requires place { IsPlaceOf (T.lines lines.now) start }
        requires budget { 1 ≤ budget }
        ensures { IfOk result (IsAttempt budget self.now id.0
            (context_in (T.lines lines.now) context.now) start) }
    {
        let program = &self.programs[id.0 as usize];
        let context = Context {
            ignore: program.case.unwrap_or(context.ignore),
            sets: context.sets,
            externals: context.externals,
        };
        program.attempt(alloc, scratch, lines, &context, start, budget)
    }

    /// Whether the screen of a pattern lets an attempt at a column through: one of its first atoms
    /// fits there, or they aren't all of single characters. It takes no memory. The clause `vain` is
    /// the law `first_screens_are_sound` of `pattern_screens`, said of this line.
    pub fn screen_passes(&self, id: PatternId, line: &[char], col: usize, context: &Context) -> bool
        requires added { id.0 < length self.now }
        requires col { col ≤ length line.now }
        ensures passes { (tree : PatternTree) → slice_get self.now id.0 ≡ Some tree →
            result ≡ passes_at tree context.now.sets.now context.now.ignore line.now col }
        ensures vain { (tree : PatternTree) → slice_get self.now id.0 ≡ Some tree →
            result ≡ false → IsVainAt tree context.now line.now col }
    {
        self.lets_through(id, line, col, context)
    }

    /// Whether the screen of a pattern lets an attempt at a column through.
    fn lets_through(&self, id: PatternId, line: &[char], col: usize, context: &Context) -> bool
        requires { id.0 < length self.now }
        ensures { (tree : PatternTree) → slice_get self.now id.0 ≡ Some tree →
            result ≡ passes_at tree context.now.sets.now context.now.ignore line.now col }
    {
        let program = &self.programs[id.0 as usize];
        let ignore = program.case.unwrap_or(context.ignore);
        some_first_fits(&program.step, context.sets, ignore, line.get(col).copied())
    }

    /// What an attempt costs at most where the screen of its pattern fails: how many first atoms
    /// the pattern has, or 1 where the screen always passes. It takes no memory.
    pub fn screen_cost(&self, id: PatternId) -> u64
        requires added { id.0 < length self.now }
        ensures { (tree : PatternTree) → slice_get self.now id.0 ≡ Some tree →
            result ≡ first_cost tree.node }
    {
        self.programs[id.0 as usize].screen_cost
    }
}

/// What `Programs::attempt` answers stays on the text: the match and its groups go from place to place
/// of it, and the lines looked at are its lines, or beside them.
pub fn answers_stay_on_the_text()
    ensures { (trees : List PatternTree) → AnswersStayOnText trees }
{}

/// What is answered where a short look from a place has seen the first way.
#[inline(never)]
fn seen<T: Lines>(alloc: Global, lines: &T, start: Place, sight: &Sight) -> Result<Attempt, Memory>
    requires place { IsPlaceOf (T.lines lines.now) start }
    ensures { IfOk result (λ told. told ≡ Found
        (match_of (T.lines lines.now) start (way_noted (way_from start) sight.now.notes.items
        sight.now.at)) (lines_or_start start sight.now.spent.looked)) }
{
    let looked = looked_or_start(lines, sight.spent.looked, start);
    let found = seen_match(alloc, lines, start, sight.at, &sight.notes)?;
    Ok(Attempt::Found(found, looked))
}

/// Tries a node at a place, way by way.
#[inline(never)]
fn searched<'p, T: Lines>(
    alloc: Global,
    ways: &mut Ways<Task<'p>>,
    step: &'p Step,
    lines: &T,
    context: &Context,
    start: Place,
    budget: u64,
) -> Result<Attempt, Memory>
    requires place { IsPlaceOf (T.lines lines.now) start }
    requires numbers { HasNumbers (shape_of step.now) }
    requires budget { 1 ≤ budget }
    ensures { let x = context_in (T.lines lines.now) context.now in
        IfOk result (λ told. told ≡ answered budget (T.lines lines.now) start
        (answer_of (visits x (shape_of step.now) (way_from start)))) }
{
    let mut spent = Spent::nothing(budget);
    ways.begin(start);
    if let Some(looked) = fails_at_once(lines, context, ways, step) {
        return Ok(Attempt::Absent(looked));
    }
    let sought = search(lines, context, ways, step, None, &mut spent)?;
    let looked = looked_or_start(lines, spent.looked, start);
    Ok(match sought {
        Sought::Found => {
            let found = found_match(alloc, lines, start, ways)?;
            Attempt::Found(found, looked)
        }
        Sought::Absent => Attempt::Absent(looked),
        Sought::TooCostly => Attempt::TooCostly,
    })
}

/// The lines looked at, or that of the start where there was no tick.
fn looked_or_start<T: Lines>(lines: &T, looked: Option<Looked>, start: Place) -> Looked
    requires { IsPlaceOf (T.lines lines.now) start }
    ensures { result ≡ lines_or_start start looked }
{
    // The proof needs the bounds that this call tells of the text.
    let _count = lines.len();
    looked.unwrap_or(Looked::one(start.line as i64))
}
