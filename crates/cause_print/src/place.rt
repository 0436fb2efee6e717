//! A place of a text, in words.
ghost use Rattle.std.specs.Prelude.{◌≡◌, ◌++◌, OnOk};
ghost use Rattle.cause_print.specs.PlaceWords.{place_words};

use byte_text::{push_bytes, push_number_from_one};
use std::alloc::AllocError;

/// Appends the words for a line and a column, which are counted from 0 and printed from 1.
pub fn push_place(out: &mut Vec<u8>, line: usize, col: usize) -> Result<(), AllocError>
    ensures { OnOk result (out.new.items ≡ out.old.items ++ place_words line col) }
{
    push_bytes(out, b"at line ")?;
    push_number_from_one(out, line)?;
    push_bytes(out, b", column ")?;
    push_number_from_one(out, col)
}
