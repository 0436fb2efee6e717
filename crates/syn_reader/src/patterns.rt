//! The patterns that were added, with their count.
ghost use Rattle.std.specs.Prelude.{◌≡◌, ◌++◌, ◌∷◌, [], length, IfOk, OnOk, Some};
ghost use Rattle.vim_pattern.specs.GroupNumbers.{HasNumbers};
ghost use Rattle.syn_reader.specs.Answers.{Gives, Makes};
ghost use Rattle.syn_reader.specs.Patterns as spec;

use crate::refusal::Refusal;
use pattern_match::Programs;
use std::alloc::Global;
use std::marker::Model;
use syn_base::{Memory, PatternId};
use syn_words::{Cause, Quoted, Role};
use syntax_set::{Offset, Pattern};
use vim_pattern::{PatternError, PatternUse, Tree, read_pattern};

/// The most patterns that are added; more find no memory.
const MOST_PATTERNS: u32 = u32::MAX - 1;

/// The patterns that were added, by number. Contracts see their trees.
#[derive(Drop)]
pub(crate) struct Patterns {
    programs: Programs,
    count: u32,
}

impl Model for Patterns {
    ghost use Rattle.std.specs.Prelude.{◌≡◌, List, length};
    ghost use Rattle.vim_pattern.specs.Tree.{PatternTree};
    ghost use Rattle.vim_pattern.specs.ShapeCode.{coded_tree};
    ghost use Rattle.std.specs.Coded.{coded_list};

    ghost Value = { List PatternTree };

    ghost coded = { coded_list coded_tree };

    ghost view = { λ p. p.programs };

    ghost invariant = { λ p. p.count ≡ length p.programs };
}

impl Patterns {
    /// No patterns. It takes no memory.
    pub(crate) fn new(alloc: Global) -> Patterns
        ensures { result ≡ [] }
    {
        Patterns {
            programs: Programs::new(alloc),
            count: 0,
        }
    }

    /// Puts a pattern behind the others.
    fn add(&mut self, tree: &Tree) -> Result<PatternId, Memory>
        requires { HasNumbers tree.now.node }
        ensures number { IfOk result (λ id. id.0 ≡ length self.old) }
        ensures added { OnOk result (self.new ≡ self.old ++ tree.now ∷ []) }
    {
        if self.count >= MOST_PATTERNS {
            return Err(Memory);
        }
        let id = self.programs.add(tree)?;
        self.count += 1;
        Ok(id)
    }

    /// The programs that attempts are made with.
    pub(crate) fn into_programs(self) -> Programs
        ensures { result ≡ self }
    {
        self.programs
    }

    /// Reads a pattern and puts it behind the others.
    pub(crate) fn read(
        &mut self,
        alloc: Global,
        role: Role,
        quoted: Quoted,
    ) -> Result<Pattern, Refusal>
        ensures { Makes result self.new (spec.pattern_read self.old role quoted) }
    {
        let tree = tree_at(alloc, quoted.text.as_slice(), use_of(role))?;
        let id = self.add(&tree)?;
        Ok(pattern_of(id, tree, quoted))
    }
}

/// The tree of a text.
#[tactic(auto, using(crate::proofs::TreeLaws::tree_is_read, crate::proofs::TreeLaws::fault_is_read))]
pub(crate) fn tree_at(alloc: Global, text: &[char], usage: PatternUse) -> Result<Tree, Refusal>
    ensures tree { Gives result (spec.tree_at text.now usage) }
    ensures numbers { IfOk result (λ tree. HasNumbers tree.node) }
{
    match read_pattern(alloc, text, usage) {
        Ok(tree) => Ok(tree),
        Err(PatternError::At { at, cause }) => Err(Refusal::Fault(Cause::Pattern { at, cause })),
        Err(PatternError::Memory) => Err(Refusal::Memory),
    }
}

fn use_of(role: Role) -> PatternUse
    ensures { result ≡ spec.use_of role }
{
    match role {
        Role::Match => PatternUse::Match,
        Role::Start => PatternUse::Start,
        Role::Skip => PatternUse::SkipOrEnd,
        Role::End => PatternUse::SkipOrEnd,
    }
}

/// So many characters behind the start.
fn behind_start(lc: u32) -> Option<Offset>
    ensures { result ≡ spec.behind_start lc }
{
    if lc == 0 {
        return None;
    }
    Some(Offset {
        from_end: false,
        by: lc.min(65_535) as i32,
    })
}

fn match_start(ms: Option<Offset>, lc: u32) -> Option<Offset>
    ensures { result ≡ spec.match_start ms lc }
{
    match ms {
        Some(ms) => Some(ms),
        None => behind_start(lc),
    }
}

fn pattern_of(id: PatternId, tree: Tree, quoted: Quoted) -> Pattern
    ensures { result ≡ spec.pattern_of id.0 tree quoted }
{
    Pattern {
        id,
        tree,
        ms: match_start(quoted.ms, quoted.lc),
        me: quoted.me,
        hs: quoted.hs,
        he: quoted.he,
        rs: quoted.rs,
        re: quoted.re,
        lc: quoted.lc,
        matchgroup: None,
        excludenl: false,
    }
}
