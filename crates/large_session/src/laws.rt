//! Laws of the definitions: the contracts of functions that have no code.
ghost use Rattle.large_session.specs.Laws.{EachEditIsCounted, PaintedEditsAreCarriedOut, TextsAreReadBack, TextsHaveTheirLines};

/// The text of a seed has as many lines as were wanted, and they are read back from its bytes.
#[tactic(auto, using(crate::proofs::TextLaws::text_count, crate::proofs::TextLaws::text_read_back))]
pub fn generated_texts_are_texts()
    ensures count { TextsHaveTheirLines }
    ensures lines { TextsAreReadBack }
{}

/// Each edit is either carried out or refused.
#[tactic(auto, using(crate::proofs::CountLaws::each_counted))]
pub fn each_edit_is_counted()
    ensures { EachEditIsCounted }
{}

/// Where the painting of each text that they change is accepted, all edits are carried out.
#[tactic(auto, using(crate::proofs::CountLaws::all_carried_out))]
pub fn painted_edits_are_carried_out()
    ensures { PaintedEditsAreCarriedOut }
{}
