//! Marks change the groups that are shown, and nothing else.
//!
//! A marked syntax is one in which some items show other groups, the marks, each of which stands
//! for an old group. Where the same items are allowed in each container and the same ones are in
//! each `nextgroup`, a text is painted as before: what opens and closes, where it does, which lines
//! are looked at, and what is refused. It is proved through all rules of painting: what a rule gives
//! by the marked syntax is, in the old groups, what it gives by the syntax itself.
#![tactic(auto)]

ghost use Rattle.paint_marks.specs.Alike.{LinesAreAlike, SpansAreAlike, TextsAreAlike};
ghost use Rattle.paint_marks.specs.Besides.{ClustersWithMarks, ListsWithMarks};
ghost use Rattle.paint_marks.specs.Named.{ListsAreEnough, MembersAreTheSame};
ghost use Rattle.paint_marks.specs.Runs.{CharactersShowOldGroups, UnmarkedSpansStandForThem};

/// A marked syntax paints a line as the syntax itself does, from the state in the old groups: the
/// spans and the state after it are the same in the old groups, with equal neighbours joined; the
/// lines looked at are the same, and so are refusals, with their column and item.
pub fn marks_change_groups_alone()
    ensures lines { LinesAreAlike }
    ensures texts { TextsAreAlike }
{}

/// The spans of a text by the marked syntax are those by the syntax itself, with each mark replaced
/// by its old group and equal neighbours joined. The refusals are the same, with the same line,
/// column and item.
pub fn marked_spans_stand_for_the_old_ones()
    ensures { SpansAreAlike }
{}

/// Where each list and each cluster names the group of a marked item just where it names its old
/// one, the same items are allowed in each container and are in each `nextgroup`, and so they are in
/// any two lists that name them alike. A list or a cluster does so that names, behind each group,
/// the marks that stand for it.
pub fn lists_that_name_the_marks_are_enough()
    ensures rules { ListsAreEnough }
    ensures members { MembersAreTheSame }
    ensures lists { ListsWithMarks }
    ensures clusters { ClustersWithMarks }
{}

/// Spans in the old groups, with equal neighbours joined, fit the line, are as long as they can be,
/// and give each character the old group of what it had. So each character of a line shows by the
/// syntax itself the old group of what it shows by the marked syntax.
pub fn characters_show_their_old_groups()
    ensures spans { UnmarkedSpansStandForThem }
    ensures lines { CharactersShowOldGroups }
{}
