//! Patterns of names.
ghost use Rattle.std.specs.Prelude.{◌≡◌, ◌∷◌, [], chars, replicate, IfOk, OnOk};
ghost use Rattle.syntax_set.specs.Groups.{group_numbered, name_of};
ghost use Rattle.vim_pattern.specs.GroupNumbers.{HasNumbers};
ghost use Rattle.syn_reader.specs.Answers.{Gives};
ghost use Rattle.syn_reader.specs.PatternsOfNames as spec;
ghost use Rattle.syn_reader.specs.UsualSets.{usual_sets};

use crate::patterns::tree_at;
use crate::refusal::Refusal;
use char_class::Sets;
use pattern_match::{Attempt, Context, Programs};
use std::alloc::Global;
use syn_base::{Externals, GroupId, Lines, List, Memory, PatternId, Place};
use syn_words::Cause;
use syntax_set::Groups;
use vim_pattern::{Atom, Node, PatternUse, Tree};

/// The most ticks that a pattern of names may cost at one name.
pub(crate) const NAMES_BUDGET: u64 = 1_000_000;

/// A text of one line.
#[derive(Drop)]
struct OneLine {
    line: Vec<char>,
}

impl Lines for OneLine {
    ghost lines = { λ text. text.line.items ∷ [] };

    fn len(&self) -> usize {
        1
    }

    fn line(&self, _i: usize) -> &[char] {
        self.line.as_slice()
    }
}

impl OneLine {
    /// Puts the characters of a name in place of those before.
    fn set(&mut self, name: &str) -> Result<(), Memory>
        ensures { OnOk result (self.new.line.items ≡ chars name.now) }
    {
        self.line.clear();
        self.line.extend(name.chars())?;
        Ok(())
    }
}

/// The pattern that matches up to the end of the text.
fn to_the_end(alloc: Global, tree: Tree) -> Result<Tree, Memory>
    requires { HasNumbers tree.node }
    ensures tree { IfOk result (λ whole. whole ≡ spec.to_the_end tree) }
    ensures numbers { IfOk result (λ whole. HasNumbers whole.node) }
{
    let Tree {
        node,
        case,
        groups,
        externals,
        moves_start,
        line_end,
    } = tree;
    let end = Node::One(Atom::FileStop);
    Ok(Tree {
        node: Node::Seq(Box::new(alloc, node)?, Box::new(alloc, end)?),
        case,
        groups,
        externals,
        moves_start,
        line_end,
    })
}

/// What names are tried with.
#[derive(Drop)]
struct Trial {
    /// The pattern, up to the end of the text.
    whole: Tree,
    programs: Programs,
    sets: Sets,
    externals: Externals,
    ghost pattern: { programs ≡ whole ∷ [] },
    ghost usual: { sets ≡ usual_sets },
    ghost none: { externals ≡ replicate 9 [] },
}

pub(crate) fn usual_sets() -> Sets
    ensures { result ≡ usual_sets }
{
    Sets::usual()
}

/// The programs of one pattern.
fn programs_of(alloc: Global, whole: &Tree) -> Result<Programs, Memory>
    requires { HasNumbers whole.now.node }
    ensures { IfOk result (λ programs. programs ≡ whole.now ∷ []) }
{
    let mut programs = Programs::new(alloc);
    programs.add(whole)?;
    Ok(programs)
}

fn trial_of(alloc: Global, tree: Tree) -> Result<Trial, Memory>
    requires { HasNumbers tree.node }
    ensures { IfOk result (λ trial. trial.whole ≡ spec.to_the_end tree) }
{
    let whole = to_the_end(alloc, tree)?;
    let programs = programs_of(alloc, &whole)?;
    Ok(Trial {
        whole,
        programs,
        sets: usual_sets(),
        externals: Externals::none(alloc)?,
    })
}

/// Whether an attempt found a match.
fn is_found(attempt: &Attempt) -> Result<bool, Refusal>
    ensures { Gives result (spec.is_found attempt.now) }
{
    match attempt {
        Attempt::Found(_, _) => Ok(true),
        Attempt::Absent(_) => Ok(false),
        Attempt::TooCostly => Err(Refusal::Fault(Cause::CostlyNames)),
    }
}

/// Whether the pattern matches a whole name.
fn has_name(alloc: Global, trial: &Trial, text: &mut OneLine, name: &str) -> Result<bool, Refusal>
    ensures { Gives result (spec.has_name trial.now.whole (chars name.now)) }
{
    text.set(name)?;
    let context = Context {
        ignore: true,
        sets: &trial.sets,
        externals: &trial.externals,
    };
    let start = Place { line: 0, col: 0 };
    let attempt = trial
        .programs
        .attempt(alloc, PatternId(0), text, &context, start, NAMES_BUDGET)?;
    is_found(&attempt)
}

/// The group of a number, which fits in every group's number.
fn group_at(number: usize) -> Result<GroupId, Memory>
    ensures { IfOk result (λ group. group ≡ group_numbered number) }
{
    match u32::try_from(number) {
        Ok(number) => Ok(GroupId(number)),
        Err(_) => Err(Memory),
    }
}

/// The groups with this one, if the pattern stands for it.
fn with_tried(
    alloc: Global,
    trial: &Trial,
    text: &mut OneLine,
    groups: &Groups,
    found: List<GroupId>,
    number: usize,
) -> Result<List<GroupId>, Refusal>
    ensures { Gives result
        (spec.with_tried trial.now.whole found number
        (name_of groups.now (group_numbered number))) }
{
    let mut found = found;
    let group = group_at(number)?;
    if has_name(alloc, trial, text, groups.name(group))? {
        found.push(group)?;
    }
    Ok(found)
}

/// The groups that a whole pattern stands for.
fn matching_whole(alloc: Global, groups: &Groups, trial: &Trial) -> Result<List<GroupId>, Refusal>
    ensures { Gives result (spec.matching_after trial.now.whole [] 0 groups.now) }
{
    let mut found = List::new(alloc);
    let mut text = OneLine {
        line: Vec::new(alloc),
    };
    for number in 0..groups.len() {
        found = with_tried(alloc, trial, &mut text, groups, found, number)?;
    }
    Ok(found)
}

/// The groups that a pattern of names stands for.
#[tactic(auto, using(crate::proofs::MatchingLaws::matched_by))]
pub(crate) fn matching(
    alloc: Global,
    groups: &Groups,
    text: &[char],
) -> Result<List<GroupId>, Refusal>
    ensures { Gives result (spec.matching groups.now text.now) }
{
    let tree = tree_at(alloc, text, PatternUse::Names)?;
    let trial = trial_of(alloc, tree)?;
    matching_whole(alloc, groups, &trial)
}
