//! What is printed of the commands of a script: the head of one that was carried out, and the
//! line of one that was refused.
//!
//! A command's number is printed as it is handed in. Lines of the script are counted from 0 in the
//! program and printed from 1.
#![tactic(auto)]

ghost use Rattle.std.specs.Prelude.{◌≡◌, ◌<◌, ◌++◌, IfOk, OnOk};
ghost use Rattle.command_print.specs.CommandText.{head_text, mark_text, refusal_text};

use byte_text::{push_bytes, push_number, push_number_from_one};
use std::alloc::{AllocError, Global};
use syn_base::{List, Memory};

/// The head of a command that was carried out.
pub fn head_text(alloc: Global, k: usize) -> Result<List<u8>, Memory>
    ensures { IfOk result (λ bytes. bytes ≡ head_text k) }
{
    let mut out = Vec::new(alloc);
    print_mark(&mut out, k)?;
    push_bytes(&mut out, b"\n")?;
    Ok(List::from_vec(out))
}

/// The line of a command that was refused.
pub fn refusal_text(alloc: Global, k: usize, line: usize, cause: &[u8]) -> Result<List<u8>, Memory>
    requires { line < usize.MAX }
    ensures { IfOk result (λ bytes. bytes ≡ refusal_text k line cause.now) }
{
    let mut out = Vec::new(alloc);
    print_mark(&mut out, k)?;
    push_bytes(&mut out, b" ? ")?;
    push_number_from_one(&mut out, line)?;
    push_bytes(&mut out, b" ")?;
    push_bytes(&mut out, cause)?;
    push_bytes(&mut out, b"\n")?;
    Ok(List::from_vec(out))
}

/// Appends the mark of command `k`.
fn print_mark(out: &mut Vec<u8>, k: usize) -> Result<(), AllocError>
    ensures { OnOk result (out.new.items ≡ out.old.items ++ mark_text k) }
{
    push_bytes(out, b"@")?;
    push_number(out, k)
}
