//! Calls of `span_print` and of `html_writer`.
//!
//!     spans 0 dash A>B 1-11 A       the lines of the spans of a line, from 0, with links and spans as they
//!                                   come; another word than `dash` where a line without spans isn't told
//!     head 2                        the head of a command
//!     refusal 1 0 CAUSE             the line of a command that was refused
//!     page TEXT A>B pre             the page of a line, titled `t`, in one span of the linked group, or in none
//!                                   for a dash; other options are none and `number`

ghost use Rattle.std.specs.Prelude.{◌<◌, [], ◌∷◌, length, All, IsTrue};
ghost use Rattle.syn_base.specs.SpansFit.{IsFromColumn};

use crate::answer::print_bytes;
use crate::fault::{Fault, number_of, range_of, two_of};
use crate::links::Shown;
use html_writer::{PageOptions, page};
use span_print::{head_text, refusal_text, span_text};
use std::alloc::Global;
use syn_base::{Colours, Lines, List, Span};

pub(crate) fn spans(alloc: Global, arguments: &[&str], answer: &mut String) -> Result<(), Fault> {
    let [number, dash, more @ ..] = arguments else {
        return Err(Fault::BadCase);
    };
    let number = number_of(number)?;
    let mut shown = Shown::none(alloc);
    let mut spans = Vec::new(alloc);
    for argument in more {
        link_or_add(&mut shown, &mut spans, argument)?;
    }
    write_lines(
        alloc,
        number,
        spans.as_slice(),
        &shown,
        *dash == "dash",
        answer,
    )
}

/// Makes a link, or adds a span.
fn link_or_add(shown: &mut Shown, spans: &mut Vec<Span>, argument: &str) -> Result<(), Fault> {
    match argument.split_once('>') {
        Some((from, to)) => shown.link(from, to, false),
        None => Ok(spans.push(span_of(shown, argument)?)?),
    }
}

/// The span of columns, from 0, and the name of a group, as `1-11 A`.
fn span_of(shown: &mut Shown, text: &str) -> Result<Span, Fault> {
    let (columns, name) = two_of(text)?;
    let (first, last) = range_of(columns)?;
    Ok(Span {
        first,
        last,
        group: shown.groups.number(name)?,
    })
}

/// Whether a line and the columns of its spans have successors.
fn are_countable(number: usize, spans: &[Span]) -> bool
    ensures number { IsTrue result → number < usize.MAX }
    ensures columns { IsTrue result
        → All (λ span. (span.first < usize.MAX) × (span.last < usize.MAX)) spans.now }
{
    number < usize::MAX
        && spans
            .iter()
            .all(|span| span.first < usize::MAX && span.last < usize::MAX)
}

fn write_lines(
    alloc: Global,
    number: usize,
    spans: &[Span],
    shown: &Shown,
    dash: bool,
    answer: &mut String,
) -> Result<(), Fault> {
    if !are_countable(number, spans) {
        return Err(Fault::BadCase);
    }
    let lines = span_text(alloc, number, spans, &shown.groups, &shown.links, dash)?;
    print_bytes(answer, lines.as_slice())
}

pub(crate) fn head(alloc: Global, arguments: &[&str], answer: &mut String) -> Result<(), Fault> {
    let [number] = arguments else {
        return Err(Fault::BadCase);
    };
    let text = head_text(alloc, number_of(number)?)?;
    print_bytes(answer, text.as_slice())
}

pub(crate) fn refusal(alloc: Global, arguments: &[&str], answer: &mut String) -> Result<(), Fault> {
    let [number, line, cause] = arguments else {
        return Err(Fault::BadCase);
    };
    let (number, line) = (number_of(number)?, number_of(line)?);
    if line == usize::MAX {
        return Err(Fault::BadCase);
    }
    let text = refusal_text(alloc, number, line, cause.as_bytes())?;
    print_bytes(answer, text.as_slice())
}

/// A text of one line, painted.
#[derive(Clone, Copy)]
pub(crate) struct OneLine<'a> {
    pub(crate) characters: &'a [char],
    pub(crate) spans: &'a [Span],
}

impl Lines for OneLine<'_> {
    ghost lines = { λ text. text.characters.now ∷ [] };

    fn len(&self) -> usize {
        1
    }

    fn line(&self, _i: usize) -> &[char] {
        self.characters
    }
}

impl Colours for OneLine<'_> {
    ghost coloured = { λ text. text.spans.now ∷ [] };

    fn spans(&self, _line: usize) -> &[Span] {
        self.spans
    }
}

/// Writes the page of a line.
fn write_page(
    alloc: Global,
    painting: OneLine,
    shown: &Shown,
    options: PageOptions,
    answer: &mut String,
) -> Result<(), Fault>
    requires fit { IsFromColumn 0 (length painting.characters.now) painting.spans.now }
{
    let text = page(alloc, "t", &painting, &shown.groups, &shown.links, options)?;
    print_bytes(answer, text.as_slice())
}

pub(crate) fn page_of_line(
    alloc: Global,
    arguments: &[&str],
    answer: &mut String,
) -> Result<(), Fault> {
    let [line, link, option] = arguments else {
        return Err(Fault::BadCase);
    };
    let options = PageOptions {
        number: *option == "number",
        pre: *option == "pre",
    };
    let line = List::from_chars(alloc, line)?;
    let mut shown = Shown::usual(alloc)?;
    write_linked_page(alloc, line.as_slice(), link, &mut shown, options, answer)
}

/// Writes the page of a line in one span of the group of a link, or in none.
fn write_linked_page(
    alloc: Global,
    characters: &[char],
    link: &str,
    shown: &mut Shown,
    options: PageOptions,
    answer: &mut String,
) -> Result<(), Fault> {
    let Some((from, to)) = link.split_once('>') else {
        let plain = OneLine {
            characters,
            spans: &[],
        };
        return write_page(alloc, plain, shown, options, answer);
    };
    if characters.is_empty() {
        return Err(Fault::BadCase);
    }
    shown.link(from, to, true)?;
    let span = Span {
        first: 0,
        last: characters.len() - 1,
        group: shown.groups.number(from)?,
    };
    let painted = OneLine {
        characters,
        spans: &[span],
    };
    write_page(alloc, painted, shown, options, answer)
}
