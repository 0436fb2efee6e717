//! Laws of the definitions: the contracts of functions that have no code.
ghost use Rattle.syn_folds.specs.Laws.{FoldsAreTheStretches, FoldsStandInOrder};
ghost use Rattle.syn_folds.specs.Laws.{LongRunsAreClosed, RowsCoverTheLines};

/// The folds of lines are exactly the longest stretches of lines that reach a level, in the order
/// of their first lines, then of their levels, each once.
pub fn folds_are_the_longest_stretches()
    ensures stretches { FoldsAreTheStretches }
    ensures order { FoldsStandInOrder }
{}

/// The rows of a view have each line once, in order, and the closed ones are exactly the folds of
/// the first level that is closed that have two lines or more.
pub fn rows_cover_the_lines()
    ensures cover { RowsCoverTheLines }
    ensures closed { LongRunsAreClosed }
{}
