//! What a line must hold so that some patterns have a way in it.
ghost use Rattle.std.specs.Prelude.{◌≡◌, ◌≤◌, ℕ, Bool, List, IfSome, IsTrue, Some, true, false};
ghost use Rattle.char_class.specs.declared.sets.Sets.{Sets as SetsOf};
ghost use Rattle.vim_pattern.specs.Tree.{PatternTree};
ghost use Rattle.pattern_needs.specs.LineNeeds.{AreHeld, IsLastNeeded, IsLineNeedOf, IsOneNeeded, IsSecondNeeded, IsSomeWider, IsVainIn};
ghost use Rattle.pattern_needs.specs.Characters.{holds};
ghost use Rattle.pattern_needs.specs.declared.one_of.OneOf.{OneOf as OneOfThem};

use crate::asked::ask;
use crate::by::By;
use crate::ending::told_last;
use crate::held::Held;
use crate::longest::longest_front;
use crate::nonblanks::told_second;
use crate::one_of::OneOf;
use crate::piece::telling_front;
use crate::spreading::longest_stop;
use crate::taken::taken_by;
use char_class::Sets;
use vim_pattern::Tree;

/// What a line must hold so that some patterns have a way in it: one of some characters, where that is
/// known, and one of some as the second and as the last of its characters that aren't blanks.
#[derive(Clone, Copy)]
pub struct LineNeed {
    pub(crate) any: Option<OneOf>,
    pub(crate) second: OneOf,
    pub(crate) last: OneOf,
}

impl LineNeed {
    /// What one pattern needs, where that is known: it is sought in the first pieces of the pattern, since
    /// the fewer pieces are tried, the longer are the lines in which an attempt in vain is within the
    /// budget. `ignore` says that case is ignored unless the pattern says otherwise.
    pub fn of(tree: &Tree, sets: &Sets, ignore: bool, budget: u64) -> Option<LineNeed>
        ensures { IfSome result (IsLineNeedOf sets.now ignore budget tree.now) }
    {
        let need = LineNeed {
            any: any_needed(tree, sets, ignore, budget),
            second: second_needed(tree, sets, ignore, budget),
            last: last_needed(tree, sets, ignore, budget),
        };
        if need.is_known() { Some(need) } else { None }
    }

    /// Whether some line may lack it.
    fn is_known(&self) -> bool {
        self.any.is_some() || self.second.most != 0 || self.last.most != 0
    }

    /// What each of the patterns of both needs.
    pub fn either(&self, other: &LineNeed) -> LineNeed
        ensures first { (sets : SetsOf) (ignore : Bool) (budget : ℕ) (tree : PatternTree) →
            IsLineNeedOf sets ignore budget tree self.now → IsLineNeedOf sets ignore budget tree result }
        ensures second { (sets : SetsOf) (ignore : Bool) (budget : ℕ) (tree : PatternTree) →
            IsLineNeedOf sets ignore budget tree other.now → IsLineNeedOf sets ignore budget tree result }
    {
        LineNeed {
            any: any_of(&self.any, &other.any),
            second: self.second.or(&other.second),
            last: self.last.or(&other.last),
        }
    }

    /// Whether it is lacked by a line of at most so many characters, of which this is held.
    pub fn is_lacked(&self, held: &Held, many: usize) -> bool
        ensures { IsTrue result → (line : List ℕ) → AreHeld held.now many line →
            (sets : SetsOf) (ignore : Bool) (budget : ℕ) (tree : PatternTree) →
            IsLineNeedOf sets ignore budget tree self.now → IsVainIn sets ignore budget tree line }
    {
        are_missed(&self.any, held, many)
            || self.second.is_missed(held.second, many)
            || self.last.is_missed(held.last, many)
    }
}

/// What is needed by each of two, where it is known of both.
fn any_of(one: &Option<OneOf>, other: &Option<OneOf>) -> Option<OneOf>
    ensures { IfSome result (λ more. IsSomeWider one.now more × IsSomeWider other.now more) }
{
    match (one, other) {
        (Some(one), Some(other)) => Some(one.or(other)),
        _ => None,
    }
}

/// Whether a line of at most so many characters, of which this is held, has none of some, where these are
/// known.
fn are_missed(need: &Option<OneOf>, held: &Held, many: usize) -> bool
    ensures { IsTrue result → (one : OneOfThem) × ((need.now ≡ Some one) × ((many ≤ one.most) × ((c : ℕ) →
        holds held.now.characters c ≡ true → holds one.characters c ≡ false))) }
{
    match need {
        Some(one) => one.are_missed(&held.characters, many),
        None => false,
    }
}

/// The characters of which a line must have one.
fn any_needed(tree: &Tree, sets: &Sets, ignore: bool, budget: u64) -> Option<OneOf>
    ensures { IfSome result (IsOneNeeded sets.now ignore budget tree.now) }
{
    let by = By::of(tree, sets, ignore);
    let telling = telling_front(&tree.node, &by);
    ask(telling.part, &by, ' ')?;
    Some(OneOf {
        characters: taken_by(telling.part, &by),
        most: longest_front(tree, budget, telling.upto)?,
    })
}

/// Those of which the second must be one that isn't a blank; all where nothing is known.
fn second_needed(tree: &Tree, sets: &Sets, ignore: bool, budget: u64) -> OneOf
    ensures { IsSecondNeeded sets.now ignore budget tree.now result }
{
    match known_second(tree, sets, ignore, budget) {
        Some(known) => known,
        None => OneOf::untold(),
    }
}

/// The same, where something is known.
fn known_second(tree: &Tree, sets: &Sets, ignore: bool, budget: u64) -> Option<OneOf>
    ensures { IfSome result (IsSecondNeeded sets.now ignore budget tree.now) }
{
    let by = By::of(tree, sets, ignore);
    let told = told_second(&tree.node, &by)?;
    Some(OneOf {
        characters: told.characters,
        most: longest_front(tree, budget, told.upto)?,
    })
}

/// Those of which the last must be one that isn't a blank; all where nothing is known.
fn last_needed(tree: &Tree, sets: &Sets, ignore: bool, budget: u64) -> OneOf
    ensures { IsLastNeeded sets.now ignore budget tree.now result }
{
    match known_last(tree, sets, ignore, budget) {
        Some(known) => known,
        None => OneOf::untold(),
    }
}

/// The same, where something is known.
fn known_last(tree: &Tree, sets: &Sets, ignore: bool, budget: u64) -> Option<OneOf>
    ensures { IfSome result (IsLastNeeded sets.now ignore budget tree.now) }
{
    let by = By::of(tree, sets, ignore);
    let told = told_last(&tree.node, &by)?;
    if told.characters.are_all() {
        return None;
    }
    Some(OneOf {
        characters: told.characters,
        most: longest_stop(&tree.node, budget, told.number, &by)?,
    })
}
