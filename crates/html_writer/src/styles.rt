//! Styles as the page's style lines have them.
ghost use Rattle.std.specs.Prelude.{◌≡◌, ◌++◌, ◌<◌, OnOk};
ghost use Rattle.std.specs.List.{flat_map};
ghost use Rattle.html_writer.specs.Page.{colour_part, colour_text, hex_digit, part_if, selector_byte, selector_text, style_line, style_text};

use hi_links::{Links, Style};
use std::alloc::AllocError;
use syn_base::GroupId;
use syntax_set::Groups;

/// Appends the style lines of these groups.
pub(crate) fn push_style_lines(
    page: &mut Vec<u8>,
    groups: &Groups,
    links: &Links,
    shown: &[GroupId],
) -> Result<(), AllocError>
    ensures { OnOk result (page.new.items ≡ page.old.items
        ++ flat_map (style_line groups.now links.now) shown.now) }
{
    for g in shown {
        push_style_line(page, groups, links, *g)?;
    }
    Ok(())
}

/// Appends the style line of a group, if it has a style.
fn push_style_line(
    page: &mut Vec<u8>,
    groups: &Groups,
    links: &Links,
    g: GroupId,
) -> Result<(), AllocError>
    ensures { OnOk result (page.new.items ≡ page.old.items ++ style_line groups.now links.now g) }
{
    let style = links.style(g);
    if !style.is_styled() {
        return Ok(());
    }
    page.extend_from_slice(b".")?;
    push_selector(page, groups.name(g))?;
    page.extend_from_slice(b" { ")?;
    push_style(page, style)?;
    page.extend_from_slice(b"}\n")
}

/// Appends a class name as a style line has it.
fn push_selector(page: &mut Vec<u8>, name: &str) -> Result<(), AllocError>
    ensures { OnOk result (page.new.items ≡ page.old.items ++ selector_text name.now) }
{
    for byte in name.as_bytes() {
        push_selector_byte(page, *byte)?;
    }
    Ok(())
}

/// Appends a byte of a class name.
fn push_selector_byte(page: &mut Vec<u8>, byte: u8) -> Result<(), AllocError>
    ensures { OnOk result (page.new.items ≡ page.old.items ++ selector_byte byte) }
{
    if byte == b'.' {
        page.extend_from_slice(b"\\.")
    } else {
        page.extend_from_slice(&[byte])
    }
}

/// Appends the parts of a style.
fn push_style(page: &mut Vec<u8>, style: Style) -> Result<(), AllocError>
    ensures { OnOk result (page.new.items ≡ page.old.items ++ style_text style) }
{
    push_colour(page, b"color: ", style.front)?;
    push_colour(page, b"background-color: ", style.back)?;
    push_if(page, style.bold, b"font-weight: bold; ")?;
    push_if(page, style.italic, b"font-style: italic; ")?;
    push_if(page, style.underline, b"text-decoration: underline; ")?;
    Ok(())
}

/// Appends a part that applies or not.
pub(crate) fn push_if(page: &mut Vec<u8>, applies: bool, part: &[u8]) -> Result<(), AllocError>
    ensures { OnOk result (page.new.items ≡ page.old.items ++ part_if applies part.now) }
{
    if applies {
        page.extend_from_slice(part)?;
    }
    Ok(())
}

/// Appends a colour of a style, if it has one.
fn push_colour(page: &mut Vec<u8>, key: &[u8], colour: Option<u32>) -> Result<(), AllocError>
    ensures { OnOk result (page.new.items ≡ page.old.items ++ colour_part key.now colour) }
{
    if let Some(colour) = colour {
        page.extend_from_slice(key)?;
        page.extend_from_slice(&hex_colour(colour))?;
        page.extend_from_slice(b"; ")?;
    }
    Ok(())
}

/// A colour as `#rrggbb`.
fn hex_colour(colour: u32) -> [u8; 7]
    ensures { result ≡ colour_text colour }
{
    [
        b'#',
        hex(colour / 0x100000 % 16),
        hex(colour / 0x10000 % 16),
        hex(colour / 0x1000 % 16),
        hex(colour / 0x100 % 16),
        hex(colour / 0x10 % 16),
        hex(colour % 16),
    ]
}

/// A digit of a number in base 16, in small letters.
fn hex(digit: u32) -> u8
    requires { digit < 16 }
    ensures { result ≡ hex_digit digit }
{
    if digit < 10 {
        b'0' + digit as u8
    } else {
        b'a' + (digit as u8 - 10)
    }
}
