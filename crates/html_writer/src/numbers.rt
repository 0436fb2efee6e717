//! Line numbers.
ghost use Rattle.std.specs.Prelude.{◌≡◌, ◌++◌, ◌-◌, codes, decimal, length, OnOk, replicate};
ghost use Rattle.html_writer.specs.Page.{line_text, number_text, part_if};
ghost use Rattle.text_scan.specs.Characters.{space};

use crate::PageOptions;
use crate::characters::{push_bytes, push_spaces};
use itoa::Buffer;
use std::alloc::AllocError;

/// Appends a line's number, if the page has numbers.
pub(crate) fn push_number_if(
    page: &mut Vec<u8>,
    options: PageOptions,
    width: usize,
    number: usize,
) -> Result<(), AllocError>
    ensures { OnOk result (page.new.items ≡ page.old.items
        ++ part_if options.number (number_text options.pre width number)) }
{
    if options.number {
        push_number(page, options.pre, width, number)?;
    }
    Ok(())
}

/// Appends a line's number, right in this width, and a space.
fn push_number(page: &mut Vec<u8>, pre: bool, width: usize, number: usize) -> Result<(), AllocError>
    ensures { OnOk result (page.new.items ≡ page.old.items ++ number_text pre width number) }
{
    let mut buffer = Buffer::new();
    page.extend_from_slice(b"<span class=\"LineNr\">")?;
    push_right(page, pre, width, buffer.format(number).as_bytes())?;
    page.extend_from_slice(b"</span>")?;
    Ok(())
}

/// Appends digits right in this width, and a space.
fn push_right(page: &mut Vec<u8>, pre: bool, width: usize, digits: &[u8]) -> Result<(), AllocError>
    ensures { OnOk result (page.new.items ≡ page.old.items
        ++ line_text pre (replicate (width - length digits.now) space ++ digits.now ++ codes " ")) }
{
    push_spaces(page, pre, width.saturating_sub(digits.len()))?;
    push_bytes(page, pre, digits)?;
    push_bytes(page, pre, b" ")?;
    Ok(())
}
