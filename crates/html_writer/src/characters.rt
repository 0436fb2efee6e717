//! Characters that mean something in a page.
ghost use Rattle.std.specs.Prelude.{◌≡◌, ◌<◌, ◌++◌, OnOk, encode_utf8, replicate};
ghost use Rattle.std.specs.List.{flat_map};
ghost use Rattle.html_writer.specs.Page.{character_text, entity_of_byte, line_text, title_text};
ghost use Rattle.text_scan.specs.Characters.{space};

use byte_text::push_char;
use std::alloc::AllocError;
use text_scan::is_blank;

/// Appends the text of a title.
pub(crate) fn push_title(page: &mut Vec<u8>, title: &str) -> Result<(), AllocError>
    ensures { OnOk result (page.new.items ≡ page.old.items ++ title_text title.now) }
{
    for byte in title.as_bytes() {
        push_byte(page, *byte)?;
    }
    Ok(())
}

/// Appends a byte of a text.
fn push_byte(page: &mut Vec<u8>, byte: u8) -> Result<(), AllocError>
    ensures { OnOk result (page.new.items ≡ page.old.items ++ entity_of_byte byte) }
{
    match byte {
        b'&' => page.extend_from_slice(b"&amp;"),
        b'<' => page.extend_from_slice(b"&lt;"),
        b'>' => page.extend_from_slice(b"&gt;"),
        b'"' => page.extend_from_slice(b"&quot;"),
        _ => page.extend_from_slice(&[byte]),
    }
}

/// Appends characters of a line.
pub(crate) fn push_line(page: &mut Vec<u8>, pre: bool, line: &[char]) -> Result<(), AllocError>
    ensures { OnOk result (page.new.items ≡ page.old.items ++ line_text pre line.now) }
{
    for c in line {
        push_character(page, pre, *c)?;
    }
    Ok(())
}

/// Appends the characters of these numbers.
pub(crate) fn push_bytes(page: &mut Vec<u8>, pre: bool, bytes: &[u8]) -> Result<(), AllocError>
    ensures { OnOk result (page.new.items ≡ page.old.items ++ line_text pre bytes.now) }
{
    for byte in bytes {
        push_character(page, pre, char::from(*byte))?;
    }
    Ok(())
}

/// Appends so many spaces.
pub(crate) fn push_spaces(page: &mut Vec<u8>, pre: bool, count: usize) -> Result<(), AllocError>
    ensures { OnOk result (page.new.items ≡ page.old.items
        ++ line_text pre (replicate count space)) }
{
    for _space in 0..count {
        push_character(page, pre, ' ')?;
    }
    Ok(())
}

/// Appends a character of a line.
fn push_character(page: &mut Vec<u8>, pre: bool, c: char) -> Result<(), AllocError>
    ensures { OnOk result (page.new.items ≡ page.old.items ++ character_text pre c) }
{
    if !pre && is_blank(c) {
        return page.extend_from_slice(b"&nbsp;");
    }
    match c {
        '&' => page.extend_from_slice(b"&amp;"),
        '<' => page.extend_from_slice(b"&lt;"),
        '>' => page.extend_from_slice(b"&gt;"),
        '"' => page.extend_from_slice(b"&quot;"),
        _ if c.is_ascii() => push_ascii(page, c),
        _ => push_char(page, c),
    }
}

/// Appends a character of ASCII, which is a byte.
fn push_ascii(page: &mut Vec<u8>, c: char) -> Result<(), AllocError>
    requires { c < 128 }
    ensures { OnOk result (page.new.items ≡ page.old.items ++ encode_utf8 c) }
{
    page.push(c as u8)?;
    Ok(())
}
