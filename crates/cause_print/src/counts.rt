//! What a syntax file defines, in numbers.
ghost use Rattle.std.specs.Prelude.{◌≡◌, ◌++◌, IfOk, OnOk};
ghost use Rattle.cause_print.specs.CountText as spec;

use byte_text::{push_bytes, push_number};
use std::alloc::{AllocError, Global};
use syn_base::{List, Memory};

/// How many items, keywords and clusters a syntax has, a line each.
pub fn counts_text(
    alloc: Global,
    items: usize,
    keywords: usize,
    clusters: usize,
) -> Result<List<u8>, Memory>
    ensures { IfOk result (λ bytes. bytes ≡ spec.counts_text items keywords clusters) }
{
    let mut out = Vec::new(alloc);
    print_count(&mut out, b"items ", items)?;
    print_count(&mut out, b"keywords ", keywords)?;
    print_count(&mut out, b"clusters ", clusters)?;
    Ok(List::from_vec(out))
}

/// Appends the line of one number.
fn print_count(out: &mut Vec<u8>, name: &[u8], number: usize) -> Result<(), AllocError>
    ensures { OnOk result (out.new.items ≡ out.old.items ++ spec.count_line name.now number) }
{
    push_bytes(out, name)?;
    push_number(out, number)?;
    push_bytes(out, b"\n")?;
    Ok(())
}
