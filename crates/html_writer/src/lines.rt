//! Lines of a page: their spans, and the text between them.
ghost use Rattle.std.specs.Prelude.{◌≡◌, ◌<◌, ◌≤◌, ◌++◌, decimal, length, OnOk};
ghost use Rattle.html_writer.specs.Page.{line_end, lines_text, span_text, spanned_text};
ghost use Rattle.syn_base.specs.SpansFit.{FitLines, IsFromColumn};

use crate::PageOptions;
use crate::characters::push_line;
use crate::numbers::push_number_if;
use crate::styles::push_if;
use byte_text::width_of;
use hi_links::Links;
use std::alloc::AllocError;
use syn_base::{Colours, Lines, Span};
use syntax_set::Groups;

/// Appends the lines of a painting.
pub(crate) fn push_lines<P: Lines + Colours>(
    page: &mut Vec<u8>,
    painting: &P,
    groups: &Groups,
    links: &Links,
    options: PageOptions,
) -> Result<(), AllocError>
    requires as_many { length (P.coloured painting.now) ≡ length (P.lines painting.now) }
    requires fit { FitLines (P.lines painting.now) (P.coloured painting.now) }
    ensures { let lines = P.lines painting.now in
        OnOk result (page.new.items ≡ page.old.items
        ++ lines_text groups.now links.now options
        (length (decimal (length lines))) 1 lines (P.coloured painting.now)) }
{
    let width = width_of(painting.len());
    for line in 0..painting.len() {
        push_number_if(page, options, width, line + 1)?;
        let characters = painting.line(line);
        push_spanned(
            page,
            groups,
            links,
            options.pre,
            characters,
            painting.spans(line),
        )?;
        push_line_end(page, options.pre)?;
    }
    Ok(())
}

/// Appends the end of a line.
fn push_line_end(page: &mut Vec<u8>, pre: bool) -> Result<(), AllocError>
    ensures { OnOk result (page.new.items ≡ page.old.items ++ line_end pre) }
{
    push_if(page, !pre, b"<br>")?;
    page.extend_from_slice(b"\n")?;
    Ok(())
}

/// Appends a line with its spans.
fn push_spanned(
    page: &mut Vec<u8>,
    groups: &Groups,
    links: &Links,
    pre: bool,
    line: &[char],
    spans: &[Span],
) -> Result<(), AllocError>
    requires fit { IsFromColumn 0 (length line.now) spans.now }
    ensures { OnOk result (page.new.items ≡ page.old.items
        ++ spanned_text groups.now links.now pre line.now 0 spans.now) }
{
    let mut column = 0;
    for span in spans {
        push_line(page, pre, &line[column..span.first])?;
        push_span(page, groups, links, pre, line, span)?;
        column = span.last + 1;
    }
    push_line(page, pre, &line[column..])
}

/// Appends one span of a line.
fn push_span(
    page: &mut Vec<u8>,
    groups: &Groups,
    links: &Links,
    pre: bool,
    line: &[char],
    span: &Span,
) -> Result<(), AllocError>
    requires from { span.now.first ≤ span.now.last }
    requires to { span.now.last < length line.now }
    ensures { OnOk result (page.new.items ≡ page.old.items
        ++ span_text groups.now links.now pre line.now span.now) }
{
    page.extend_from_slice(b"<span class=\"")?;
    page.extend_from_slice(groups.name(links.final_group(span.group)).as_bytes())?;
    page.extend_from_slice(b"\">")?;
    push_line(page, pre, &line[span.first..span.last + 1])?;
    page.extend_from_slice(b"</span>")
}
