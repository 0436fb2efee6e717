//! Laws over the definitions of this crate.
ghost use Rattle.std.specs.Prelude.{List};
ghost use Rattle.syn_base.specs.declared.places.Span.{Span};
ghost use Rattle.paint_reuse.specs.declared.change.Change.{Change};
ghost use Rattle.paint_reuse.specs.Kept.{KeptNotesAreThePainting};
ghost use Rattle.paint_reuse.specs.Report.{IsReport, report};
ghost use Rattle.paint_reuse.specs.Reusable.{FourConditionsMakeALineReusable, ReusableLinesKeepTheirPainting};
ghost use Rattle.paint_reuse.specs.SameState.{EqualStatesAreTheSame};

/// The test of two states that decides whether a line is reusable passes exactly for equal ones.
pub fn equal_states_are_the_same()
    ensures { EqualStatesAreTheSame }
{}

/// The test of a line passes exactly where it had an old line, nothing that this one's painting looked
/// at was replaced, it has its old number if that painting looked at one, and the same state stands
/// before it.
pub fn four_conditions_make_a_line_reusable()
    ensures { FourConditionsMakeALineReusable }
{}

/// A reusable line has the spans, the states and the looked lines of its old line, the latter moved
/// with it.
pub fn reusable_lines_keep_their_painting()
    ensures { ReusableLinesKeepTheirPainting }
{}

/// The notes of a text's lines, each counted from its line and painted from the state that the line
/// before it leaves, are the painting of the text; and the first line that has none refuses it.
pub fn kept_notes_are_the_painting()
    ensures { KeptNotesAreThePainting }
{}

/// What is told of a change are exactly the lines that are new or show other spans than before, in
/// ascending order.
pub fn reports_tell_what_changed()
    ensures { (old new : List (List Span)) (change : Change)
        → IsReport old new change (report old new change) }
{}
