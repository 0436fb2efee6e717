//! The rules of matching, and laws over them.
//!
//! The rules are definitions alone: `specs/Atoms.antt` says where an atom leads and which lines it
//! looks at, `specs/Visits.antt` lists all that a pattern tries and reaches from a place, in order, and
//! `specs/Attempt.antt` makes the answer of an attempt of that list: its first way, its cost, and the
//! lines looked at. The functions here make nothing; what they ensure are laws of these rules.
#![tactic(auto)]

ghost use Rattle.vim_pattern.specs.Tree.{PatternTree};
ghost use Rattle.match_rules.specs.Ways.{Context};
ghost use Rattle.match_rules.specs.CountLaw.{CountsByTurns};
ghost use Rattle.match_rules.specs.Locality.{IsLocal};
ghost use Rattle.match_rules.specs.OnText.{StaysOnText};

/// From a place of the text, a count is its next turn, with what follows each way of it, and its stop.
pub fn a_count_is_its_next_turn()
    ensures { (x : Context) → CountsByTurns x }
{}

/// Where two texts agree on the lines that an attempt looked at, the attempt has the same answer in
/// both, moved.
pub fn attempts_are_local()
    ensures { (tree : PatternTree) → IsLocal tree }
{}

/// From a place of the text, that of the line behind the last one too, the match of an attempt and its
/// groups go from place to place of the text, and the lines looked at are its lines, or beside them.
pub fn attempts_stay_on_the_text()
    ensures { (tree : PatternTree) → StaysOnText tree }
{}
