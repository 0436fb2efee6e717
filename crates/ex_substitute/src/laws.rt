//! Laws of the definitions: the contracts of functions that have no code.
ghost use Rattle.ex_substitute.specs.Laws.{NoMatchKeepsText, OthersAreLeft, ReplacementsAreInOrder, WholeTextIsReplaced};

/// The matches that a substitution replaces lie on the text and begin in its lines, each behind the end
/// of the one before.
pub fn replacements_are_in_order()
    ensures { ReplacementsAreInOrder }
{}

/// A substitution leaves the whole text, read as its characters with a break between lines, with each
/// match replaced by its string. With none replaced that is the text.
pub fn whole_text_is_replaced()
    ensures replaced { WholeTextIsReplaced }
    ensures kept { NoMatchKeepsText }
{}

/// A deletion leaves the lines that aren't chosen, in their order, or one empty line if there are none.
pub fn others_are_left()
    ensures { OthersAreLeft }
{}
