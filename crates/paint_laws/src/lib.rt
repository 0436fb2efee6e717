//! Laws over the rules of painting, each in the words of the subject.
//!
//! The rules of `paint_rules` compute what a text shows, column by column. What stands here is said
//! of all syntaxes, texts and states in words of its own, and proved from the rules: what starts at
//! a place, what the spans of a line are, and how the painting of a text is made of its lines. The
//! functions make nothing; each one's contract is a law.
#![tactic(auto)]

ghost use Rattle.paint_laws.specs.Accepted.{RefusedLinesHaveCauses, RefusedTextsHaveCauses};
ghost use Rattle.paint_laws.specs.Accepted.{TextsWithinLimitsAreAccepted};
ghost use Rattle.paint_laws.specs.Closings.{ClosingEnds};
ghost use Rattle.paint_laws.specs.LineByLine.{RefusedPaintings, WholePaintings};
ghost use Rattle.paint_laws.specs.NothingStarts.{NothingIsPainted};
ghost use Rattle.paint_laws.specs.Picks.{PicksComeFirst};
ghost use Rattle.paint_laws.specs.Reached.{KeptEndsAreEarliest, LinesStartAtReached, PopsSearchReached};
ghost use Rattle.paint_laws.specs.Refusals.{RefusalsChangeNothing};
ghost use Rattle.paint_laws.specs.RegionEnds.{ColumnsEndRegions, EndsStandAtColumns, SearchesGoRight};
ghost use Rattle.paint_laws.specs.Shown.{NoOtherSpansDo, OneStandsAtAColumn, SpansShowTheStack};
ghost use Rattle.paint_laws.specs.Starts.{ColumnsRunToTheirEnd, ItemsStartOnce, KnownItemsStart};

/// At a place an item starts at most once, and it is one of the syntax. What closes and starts at a
/// column goes on until nothing more starts, and doesn't stop before (`:syn-priority`).
pub fn an_item_starts_at_most_once()
    ensures once { ItemsStartOnce }
    ensures known { KnownItemsStart }
    ensures whole { ColumnsRunToTheirEnd }
{}

/// What starts at a place, of the items that may start there: a keyword whose word begins there; else
/// the match or region that was defined last of those that have a match there. Where an item's
/// `nextgroup` waits, the items of that list come first, and those that are allowed come after it,
/// unless the wait goes on (`:syn-priority`, `:syn-nextgroup`).
pub fn the_last_defined_item_starts()
    ensures { PicksComeFirst }
{}

/// A region ends in a line at the first column that has an end, of those that its search visits: the
/// one where it begins, and behind each the one that a skip leads to, or else the next one
/// (`:syn-pattern`). Behind an end it visits none.
pub fn a_region_ends_at_the_first_end()
    ensures right { SearchesGoRight }
    ensures stands { EndsStandAtColumns }
    ensures found { ColumnsEndRegions }
{}

/// A kept end, and the searches where a line begins and behind the pop of a frame with `extend`, reach
/// the frames from the last one with `extend` on, and none below it. A frame ends at the earliest of
/// its own end and of the ends that those below it keep. Where a line begins those with `keepend`
/// search, and the top frame. Behind a pop those with `keepend` do and those above such a one, or else
/// the exposed frame (`:syn-keepend`, `:syn-extend`).
pub fn extend_sets_frames_apart()
    ensures ends { KeptEndsAreEarliest }
    ensures starts { LinesStartAtReached }
    ensures pops { PopsSearchReached }
{}

/// Closing at a place goes on until nothing more closes there, and doesn't stop before.
pub fn closing_comes_to_its_end()
    ensures { ClosingEnds }
{}

/// The spans of a painted line fit it, are as long as they can be, and give each character the
/// group that the stack shows there; no other spans do. The state after the line is what stands at
/// its end.
pub fn spans_show_the_stack()
    ensures spans { SpansShowTheStack }
    ensures one { OneStandsAtAColumn }
    ensures no_others { NoOtherSpansDo }
{}

/// A syntax in which no item is live, as the empty one, paints nothing: no text is refused by it,
/// no line has a span, nothing stays open, and no other line is looked at.
pub fn without_live_items_nothing_is_painted()
    ensures { NothingIsPainted }
{}

/// To paint a text is to paint its lines one after the other, each from the state that the line
/// before it leaves; the painting is refused exactly where one of them is, as that one is.
pub fn a_text_is_painted_line_by_line()
    ensures whole { WholePaintings }
    ensures refused { RefusedPaintings }
{}

/// A line that is refused changes nothing: those before it are painted as they are without it, and
/// those behind it don't matter.
pub fn a_refusal_changes_nothing()
    ensures { RefusalsChangeNothing }
{}

/// A line, or a text, that is refused has the cause that is told: an attempt for the item that is
/// told, at the column that is told, which costs more than the budget; or a start there with which
/// more than 1,000 frames would stand. There is no other cause.
pub fn refusals_have_causes()
    ensures lines { RefusedLinesHaveCauses }
    ensures texts { RefusedTextsHaveCauses }
{}

/// A text is accepted where no attempt that its painting may make costs more than the budget, and
/// at most 1,000 frames stand wherever something starts.
///
/// What it may make is asked for along its own way: at the lines and columns that it comes to, for
/// what stands there. An attempt that it leaves out there, since an earlier one has given what was
/// looked for, has to be within the budget too; so this says when a text is accepted, and not when
/// alone.
pub fn texts_within_limits_are_accepted()
    ensures { TextsWithinLimitsAreAccepted }
{}
