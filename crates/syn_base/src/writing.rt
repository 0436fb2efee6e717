//! All bytes into a sink, in as many writes as it takes.
ghost use Rattle.std.specs.Prelude.{◌≡◌};
ghost use Rattle.std.specs.Bool.{OnFalse, OnTrue};
ghost use Rattle.syn_base.specs.Causes.{Rose};
ghost use Rattle.syn_base.specs.Outside.{appended, AppendsPrefix};

use crate::{Put, Sink};

/// Appends all the bytes, and says whether it did. At the first write that fails it ends, and then
/// a part of them, from their front, was appended. It takes no memory.
pub fn put_all<O: Sink>(sink: &mut O, bytes: &[u8]) -> bool
    ensures whole { OnTrue result (O.written sink.new ≡ appended (O.written sink.old) bytes.now) }
    ensures unfailed { OnTrue result (O.faults sink.new ≡ O.faults sink.old) }
    ensures part { OnFalse result
        (AppendsPrefix (O.written sink.old) (O.written sink.new) bytes.now) }
    ensures failed { OnFalse result (Rose (O.faults sink.old) (O.faults sink.new)) }
{
    let mut done = 0;
    while done < bytes.len() {
        match sink.put(&bytes[done..]) {
            Put::Bytes(count) => done += count,
            Put::Failed => return false,
        }
    }
    true
}
