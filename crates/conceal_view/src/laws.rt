//! Laws of the definitions: the contracts of functions that have no code.
ghost use Rattle.conceal_view.specs.Laws.{SpansAreTheLongestRuns};
ghost use Rattle.conceal_view.specs.MarkedPaintings.{MarkedPaintingsAreTheOldOnes, MarkedRulesAreMarked};

/// The spans of a line in a view fit it, are the longest runs of one same group, and give each
/// character its group.
pub fn spans_are_the_longest_runs()
    ensures { SpansAreTheLongestRuns }
{}

/// With each mark replaced by its old group and equal neighbours joined, the spans of a text by the
/// marked syntax are those by the syntax itself, and the refusals are the same, with the same line,
/// column and item.
pub fn marked_paintings_are_the_old_ones()
    ensures marked { MarkedRulesAreMarked }
    ensures paintings { MarkedPaintingsAreTheOldOnes }
{}
