//! The words for a command that is refused.
ghost use Rattle.std.specs.Prelude.{◌≡◌, IfOk};
ghost use Rattle.edit_session.specs.Causes as spec;

use byte_text::{push_bytes, push_number};
use edit_script::{ResolveError, ScriptFault};
use std::alloc::Global;
use syn_base::{List, Memory};

/// The words for what is no command.
pub(crate) fn fault_label(fault: ScriptFault) -> &'static str
    ensures { result.now ≡ spec.fault_label fault }
{
    match fault {
        ScriptFault::BadUtf8 => "bad utf-8",
        ScriptFault::LongLine => "line too long",
        ScriptFault::BadCommand => "bad command",
        ScriptFault::BadAddress => "bad address",
        ScriptFault::UnfinishedText => "unfinished text",
    }
}

/// The words for a command that doesn't fit the text. A line is told by its number in the script.
pub(crate) fn misfit_text(alloc: Global, misfit: ResolveError) -> Result<List<u8>, Memory>
    ensures { IfOk result (λ bytes. bytes ≡ spec.misfit_text misfit) }
{
    let mut out = Vec::from_slice(alloc, misfit_label(misfit).as_bytes())?;
    if let ResolveError::NoLine(number) = misfit {
        push_number(&mut out, number as usize)?;
    }
    Ok(List::from_vec(out))
}

/// The words for it, but for the number of a line.
fn misfit_label(misfit: ResolveError) -> &'static str
    ensures { result.now ≡ spec.misfit_label misfit }
{
    match misfit {
        ResolveError::NoLine(_) => "no line ",
        ResolveError::Backwards => "backwards range",
        ResolveError::MoveIntoSelf => "move into itself",
        ResolveError::TooManyLines => "too many lines",
    }
}
