//! Laws of the definitions: the contracts of functions that have no code.
ghost use Rattle.syn_words.specs.Laws.{SpelledCommandsAreRead};
ghost use Rattle.syn_words.specs.Turns.{MoreTurnsReadTheSameChanges, MoreTurnsReadTheSameCleared};
ghost use Rattle.syn_words.specs.Turns.{MoreTurnsReadTheSameCommands, MoreTurnsReadTheSameList};
ghost use Rattle.syn_words.specs.Turns.{MoreTurnsReadTheSameNames, MoreTurnsReadTheSameOffsets};
ghost use Rattle.syn_words.specs.Turns.{MoreTurnsReadTheSameParts, MoreTurnsReadTheSamePieces};

/// A file that spells plain commands, a line each, is read as these commands.
pub fn spelled_commands_are_read()
    ensures { SpelledCommandsAreRead }
{}

/// The turns that a definition takes along a line never run out before the line does: with more of
/// them it reads the same.
pub fn turns_never_run_out()
    ensures commands { MoreTurnsReadTheSameCommands }
    ensures pieces { MoreTurnsReadTheSamePieces }
    ensures offsets { MoreTurnsReadTheSameOffsets }
    ensures clusters { MoreTurnsReadTheSameChanges }
    ensures cleared { MoreTurnsReadTheSameCleared }
    ensures styles { MoreTurnsReadTheSameParts }
    ensures names { MoreTurnsReadTheSameNames }
    ensures lists { MoreTurnsReadTheSameList }
{}
