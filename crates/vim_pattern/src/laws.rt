//! Laws of the grammar: a text has one tree or one fault for a use, and never both.
ghost use Rattle.std.specs.Prelude.{◌≡◌, List, ℕ, ◌⊎◌};
ghost use Rattle.pattern_items.specs.declared.item.PatternUse.{PatternUse};
ghost use Rattle.vim_pattern.specs.Tree.{PatternTree};
ghost use Rattle.vim_pattern.specs.Fault.{Fault};
ghost use Rattle.vim_pattern.specs.GroupNumbers.{HasNumbers};
ghost use Rattle.vim_pattern.specs.Pattern.{IsTreeOf, HasFault};
ghost use Rattle.vim_pattern.specs.TreeOf.{TreesAreRead, FaultsAreRead};

/// A text has at most one tree.
pub fn at_most_one_tree()
    ensures { (text : List ℕ) (usage : PatternUse) (t u : PatternTree) →
        IsTreeOf text usage t → IsTreeOf text usage u → t ≡ u }
{}

/// A text has at most one fault.
pub fn at_most_one_fault()
    ensures { (text : List ℕ) (usage : PatternUse) (f g : Fault) →
        HasFault text usage f → HasFault text usage g → f ≡ g }
{}

/// A text with a tree has no fault.
pub fn tree_and_fault_exclude()
    ensures { (text : List ℕ) (usage : PatternUse) (t : PatternTree) (f : Fault) →
        IsTreeOf text usage t → HasFault text usage f → ⊥ }
{}

/// A text has a tree or a fault.
pub fn tree_or_fault()
    ensures { (text : List ℕ) (usage : PatternUse) →
        ((t : PatternTree) × IsTreeOf text usage t) ⊎ ((f : Fault) × HasFault text usage f) }
{}

/// The groups, externals and references of a text's tree have numbers from 1 to 9.
pub fn numbers_are_small()
    ensures { (text : List ℕ) (usage : PatternUse) (t : PatternTree) →
        IsTreeOf text usage t → HasNumbers t.node }
{}

/// The fold over a text's items gives the tree of the grammar, or the fault.
pub fn reading_is_the_grammar()
    ensures trees { TreesAreRead }
    ensures faults { FaultsAreRead }
{}
