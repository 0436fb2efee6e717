//! Laws of the items: what a reader of a pattern may hold them to, in words of their own.
ghost use Rattle.pattern_items.specs.Counts.{EachCountIsRead, EachLargeCountIsRefused};
ghost use Rattle.pattern_items.specs.LineNumbers.{EachLineNumberIsRead, EachLongLineNumberIsRefused};
ghost use Rattle.pattern_items.specs.LevelTable.{LettersAreSpelled, MagicItemsAreSpelled};
ghost use Rattle.pattern_items.specs.LevelTable.{OthersAreSpelled};

/// What a character is at each level of magic, bare and behind a backslash (`/magic`).
pub fn levels_of_magic()
    ensures items { MagicItemsAreSpelled }
    ensures letters { LettersAreSpelled }
    ensures others { OthersAreSpelled }
{}

/// Each form of a count in braces is read to what it stands for (`/\{`).
pub fn counts_are_read()
    ensures read { EachCountIsRead }
    ensures refused { EachLargeCountIsRefused }
{}

/// Each line number is read to the lines that it names (`/\%l`).
pub fn line_numbers_are_read()
    ensures read { EachLineNumberIsRead }
    ensures refused { EachLongLineNumberIsRefused }
{}
