//! What `spans` prints: a line for each span of the text (this profile).
ghost use Rattle.std.specs.Prelude.{◌≡◌, ◌<◌, All, get_or, length, IfOk, []};
ghost use Rattle.syn_base.specs.SpansFit.{FitLines};
ghost use Rattle.vimsyn_cli.specs.Changes.{files_between, steps_change};
ghost use Rattle.vimsyn_cli.specs.Concealing.{IsUnreadView, IsViewFault};
ghost use Rattle.vimsyn_cli.specs.Printing.{picture_bytes, seen_bytes, spans_bytes, spans_from, spans_told};
ghost use Rattle.vimsyn_cli.specs.Reads.{Paints};
ghost use Rattle.vimsyn_cli.specs.Session.{text_lines};

use crate::concealing::Concealed;
use crate::fault::Stop;
use crate::picture::{Picture, read_picture};
use hi_links::Links;
use program_words::PaintWords;
use span_print::push_span_text;
use state_cache::Painted;
use std::alloc::Global;
use std::mem::forget;
use syn_base::{Colours, Files, Ledger, Lines, List, Memory, Span, Steps};
use syntax_set::Groups;

/// The span lines of the text.
pub(crate) fn print_spans<F: Files, L: Ledger>(
    alloc: Global,
    files: &mut F,
    words: &PaintWords<'_>,
    steps: &mut Steps<L>,
) -> Result<List<u8>, Stop>
    ensures { Paints (spans_told words.now) (IsUnreadView words.now) (IsViewFault words.now) (text_lines words.now)
        (files_between F.told F.faults F.misses F.longs files.old files.new)
        (steps_change steps.old steps.new) result }
{
    let picture = read_picture(alloc, files, words, steps)?;
    Ok(print_picture(alloc, picture)?)
}

/// The span lines of a text, which isn't needed behind them. The program ends then, and so what was
/// painted isn't taken apart.
fn print_picture(alloc: Global, picture: Picture) -> Result<List<u8>, Memory>
    ensures { IfOk result (λ bytes. bytes ≡ picture_bytes picture) }
{
    match picture {
        Picture::Shown(painted) => {
            let bytes = shown_bytes(alloc, &painted);
            forget(painted);
            bytes
        }
        Picture::Concealed(text) => seen_bytes(alloc, &text),
    }
}

/// The span lines of a painted text.
fn shown_bytes(alloc: Global, painted: &Painted) -> Result<List<u8>, Memory>
    ensures { IfOk result (λ bytes. bytes ≡ spans_bytes painted.now) }
{
    let syntax = painted.syntax();
    spans_bytes(alloc, painted, &syntax.groups, &syntax.links)
}

/// The span lines of the view of a text.
fn seen_bytes(alloc: Global, text: &Concealed) -> Result<List<u8>, Memory>
    ensures { IfOk result (λ bytes. bytes ≡ seen_bytes text.now) }
{
    let view = text.view(alloc)?;
    let syntax = text.syntax();
    spans_bytes(alloc, &view, &syntax.groups, &syntax.links)
}

/// The span lines of what is painted.
fn spans_bytes<P: Lines + Colours>(
    alloc: Global,
    painting: &P,
    groups: &Groups,
    links: &Links,
) -> Result<List<u8>, Memory>
    requires as_many { length (P.coloured painting.now) ≡ length (P.lines painting.now) }
    requires fit { FitLines (P.lines painting.now) (P.coloured painting.now) }
    ensures { IfOk result (λ bytes. bytes
        ≡ spans_from groups.now links.now 0 (P.coloured painting.now)) }
{
    let mut out = Vec::new(alloc);
    for number in 0..painting.len() {
        let spans = spans_at(painting, number);
        push_span_text(&mut out, number, spans, groups, links, false)?;
    }
    Ok(List::from_vec(out))
}

/// The spans of the line of this number. It and its columns have numbers from 1, as the text is in
/// memory.
pub(crate) fn spans_at<P: Lines + Colours>(painting: &P, number: usize) -> &[Span]
    requires within { number < length (P.lines painting.now) }
    requires as_many { length (P.coloured painting.now) ≡ length (P.lines painting.now) }
    requires fit { FitLines (P.lines painting.now) (P.coloured painting.now) }
    ensures is { result.now ≡ get_or (P.coloured painting.now) number [] }
    ensures columns { All (λ span. (span.first < usize.MAX) × (span.last < usize.MAX)) result.now }
    ensures number { number < usize.MAX }
{
    let _columns = columns_of(painting.line(number));
    let _count = painting.len();
    painting.spans(number)
}

/// How many columns a line in memory has.
fn columns_of(line: &[char]) -> usize
    ensures is { result ≡ length line.now }
    ensures few { result < usize.MAX }
{
    line.len()
}
