//! Laws of the definitions: the contracts of functions that have no code.
ghost use Rattle.edit_session.specs.Laws.{ScriptsRefuseNone, SessionsRefuseNone};

/// Where each entry of a script is a command that fits the text as it is then, and the painting of
/// each text that they change is accepted, no command is refused.
#[tactic(auto, using(crate::proofs::CarriedOutLaws::none_refused, crate::proofs::CarriedOutLaws::none_of_script))]
pub fn accepted_commands_are_carried_out()
    ensures session { SessionsRefuseNone }
    ensures script { ScriptsRefuseNone }
{}
