//! The span lines.
ghost use Rattle.std.specs.Prelude.{◌≡◌, ◌<◌, ◌++◌, All, IfOk, OnOk};
ghost use Rattle.span_print.specs.SpanText.{line_text, span_text, spans_text};

use byte_text::{push_bytes, push_number};
use hi_links::Links;
use std::alloc::{AllocError, Global};
use syn_base::{List, Memory, Span};
use syntax_set::Groups;

/// The lines of a text line's spans: each with the line, the columns, its group and the group that
/// it shows in the end. With `dash` a line without spans is told too.
pub fn span_text(
    alloc: Global,
    number: usize,
    spans: &[Span],
    groups: &Groups,
    links: &Links,
    dash: bool,
) -> Result<List<u8>, Memory>
    requires number { number < usize.MAX }
    requires columns { All (λ span. (span.first < usize.MAX) × (span.last < usize.MAX)) spans.now }
    ensures { IfOk result (λ bytes. bytes ≡ line_text groups.now links.now number spans.now dash) }
{
    let mut out = Vec::new(alloc);
    push_span_text(&mut out, number, spans, groups, links, dash)?;
    Ok(List::from_vec(out))
}

/// Appends the same.
pub fn push_span_text(
    out: &mut Vec<u8>,
    number: usize,
    spans: &[Span],
    groups: &Groups,
    links: &Links,
    dash: bool,
) -> Result<(), AllocError>
    requires number { number < usize.MAX }
    requires columns { All (λ span. (span.first < usize.MAX) × (span.last < usize.MAX)) spans.now }
    ensures { OnOk result (out.new.items ≡ out.old.items
        ++ line_text groups.now links.now number spans.now dash) }
{
    if spans.is_empty() && dash {
        push_number(out, number + 1)?;
        push_bytes(out, b":-\n")?;
    }
    for span in spans {
        print_span(out, number, span, groups, links)?;
    }
    Ok(())
}

/// Appends the line of one span.
fn print_span(
    out: &mut Vec<u8>,
    number: usize,
    span: &Span,
    groups: &Groups,
    links: &Links,
) -> Result<(), AllocError>
    requires number { number < usize.MAX }
    requires columns { (span.now.first < usize.MAX) × (span.now.last < usize.MAX) }
    ensures { OnOk result (out.new.items ≡ out.old.items
        ++ span_text groups.now links.now number span.now) }
{
    push_number(out, number + 1)?;
    out.push(b':')?;
    push_number(out, span.first + 1)?;
    out.push(b'-')?;
    push_number(out, span.last + 1)?;
    out.push(b' ')?;
    push_bytes(out, groups.name(span.group).as_bytes())?;
    out.push(b' ')?;
    push_bytes(out, groups.name(links.final_group(span.group)).as_bytes())?;
    out.push(b'\n')?;
    Ok(())
}
