//! The page as a whole.
ghost use Rattle.std.specs.Prelude.{◌≡◌, ◌++◌, [], length, IfOk, OnOk};
ghost use Rattle.std.specs.List.{flat_map};
ghost use Rattle.html_writer.specs.Page.{body_end, body_start, element, head_text, page_text, shown_groups, start_text, style_line};
ghost use Rattle.syn_base.specs.SpansFit.{FitLines};

use crate::PageOptions;
use crate::characters::push_title;
use crate::lines::push_lines;
use crate::shown::shown_groups;
use crate::styles::{push_if, push_style_lines};
use hi_links::Links;
use std::alloc::{AllocError, Global};
use syn_base::{Colours, Lines, List, Memory};
use syntax_set::Groups;

/// The page of a painting (`:TOhtml`), as bytes.
pub fn page<P: Lines + Colours>(
    alloc: Global,
    title: &str,
    painting: &P,
    groups: &Groups,
    links: &Links,
    options: PageOptions,
) -> Result<List<u8>, Memory>
    requires as_many { length (P.coloured painting.now) ≡ length (P.lines painting.now) }
    requires fit { FitLines (P.lines painting.now) (P.coloured painting.now) }
    ensures { IfOk result (λ bytes. bytes
        ≡ page_text title.now (P.lines painting.now) (P.coloured painting.now)
        groups.now links.now options) }
{
    let mut page = Vec::new(alloc);
    push_page(alloc, &mut page, title, painting, groups, links, options)?;
    Ok(List::from_vec(page))
}

/// Appends the page of a painting.
fn push_page<P: Lines + Colours>(
    alloc: Global,
    page: &mut Vec<u8>,
    title: &str,
    painting: &P,
    groups: &Groups,
    links: &Links,
    options: PageOptions,
) -> Result<(), Memory>
    requires as_many { length (P.coloured painting.now) ≡ length (P.lines painting.now) }
    requires fit { FitLines (P.lines painting.now) (P.coloured painting.now) }
    requires empty { page.old.items ≡ [] }
    ensures { OnOk result (page.new.items
        ≡ page_text title.now (P.lines painting.now) (P.coloured painting.now)
        groups.now links.now options) }
{
    push_head(page, title, options.number)?;
    push_styles(alloc, page, painting, groups, links)?;
    push_body_start(page, options.pre)?;
    push_lines(page, painting, groups, links, options)?;
    push_body_end(page, options.pre)?;
    Ok(())
}

/// Appends the style lines of the groups that are shown.
fn push_styles<P: Lines + Colours>(
    alloc: Global,
    page: &mut Vec<u8>,
    painting: &P,
    groups: &Groups,
    links: &Links,
) -> Result<(), Memory>
    requires { length (P.coloured painting.now) ≡ length (P.lines painting.now) }
    ensures { OnOk result (page.new.items ≡ page.old.items
        ++ flat_map (style_line groups.now links.now)
        (shown_groups links.now (P.coloured painting.now))) }
{
    let shown = shown_groups(alloc, painting, links)?;
    push_style_lines(page, groups, links, shown.as_slice())?;
    Ok(())
}

/// Appends the page up to the style lines of groups.
fn push_head(page: &mut Vec<u8>, title: &str, number: bool) -> Result<(), AllocError>
    ensures { OnOk result (page.new.items ≡ page.old.items ++ head_text title.now number) }
{
    push_start(page, title)?;
    push_if(page, number, b".LineNr { color: #a52a2a; }\n")?;
    Ok(())
}

/// Appends the page up to the style line of its body.
fn push_start(page: &mut Vec<u8>, title: &str) -> Result<(), AllocError>
    ensures { OnOk result (page.new.items ≡ page.old.items ++ start_text title.now) }
{
    page.extend_from_slice(b"<!DOCTYPE html>\n<html>\n<head>\n<meta charset=\"UTF-8\">\n<title>")?;
    push_title(page, title)?;
    page.extend_from_slice(
        b"</title>\n<style>\nbody { color: #000000; background-color: #ffffff; }\n",
    )?;
    Ok(())
}

/// Appends what stands between the style lines and the lines of the text.
fn push_body_start(page: &mut Vec<u8>, pre: bool) -> Result<(), AllocError>
    ensures { OnOk result (page.new.items ≡ page.old.items ++ body_start pre) }
{
    page.extend_from_slice(b"</style>\n</head>\n<body>\n<")?;
    page.extend_from_slice(element(pre).as_bytes())?;
    page.extend_from_slice(b">\n")?;
    Ok(())
}

/// Appends what stands behind the lines of the text.
fn push_body_end(page: &mut Vec<u8>, pre: bool) -> Result<(), AllocError>
    ensures { OnOk result (page.new.items ≡ page.old.items ++ body_end pre) }
{
    page.extend_from_slice(b"</")?;
    page.extend_from_slice(element(pre).as_bytes())?;
    page.extend_from_slice(b">\n</body>\n</html>\n")?;
    Ok(())
}

/// The element in which the lines of the text stand.
fn element(pre: bool) -> &'static str
    ensures { result.now ≡ element pre }
{
    if pre { "pre" } else { "div" }
}
