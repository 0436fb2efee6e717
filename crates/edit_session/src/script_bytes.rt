//! The bytes of a script, from its source.
ghost use Rattle.std.specs.Prelude.{◌<◌, length};
ghost use Rattle.edit_session.specs.Steps.{ReachesEnd, TakesBytes};

use crate::reading::End;
use syn_base::{Source, Taken};

/// Takes bytes into the buffer, and answers how many; none at the end.
pub(crate) fn take_bytes<I: Source>(script: &mut I, buffer: &mut [u8]) -> Result<usize, End>
    requires { 0 < length buffer.old }
    ensures { TakesBytes (I.left script.old) (I.left script.new) (I.faults script.old)
        (I.faults script.new) buffer.new result }
{
    match script.take(buffer) {
        Taken::Bytes(count) => Ok(count),
        Taken::Failed => Err(End::Unread),
    }
}

/// Behind as many bytes as are read of a script: whether it ends there.
pub(crate) fn reach_end<I: Source>(ended: bool, script: &mut I) -> Result<(), End>
    ensures { ReachesEnd ended (I.left script.old) (I.left script.new) (I.faults script.old)
        (I.faults script.new) result }
{
    if ended {
        return Ok(());
    }
    let mut byte = [0u8; 1];
    match take_bytes(script, &mut byte) {
        Err(end) => Err(end),
        Ok(0) => Ok(()),
        Ok(_) => Err(End::TooLong),
    }
}
