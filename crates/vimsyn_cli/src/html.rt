//! What `html` prints: the text as a page (`:TOhtml`).
ghost use Rattle.std.specs.Prelude.{◌≡◌, IfOk};
ghost use Rattle.vimsyn_cli.specs.Changes.{files_between, steps_change};
ghost use Rattle.vimsyn_cli.specs.Concealing.{IsUnreadView, IsViewFault};
ghost use Rattle.vimsyn_cli.specs.Printing.{html_told, page_bytes, page_options, picture_page, seen_page};
ghost use Rattle.vimsyn_cli.specs.Reads.{Paints};
ghost use Rattle.vimsyn_cli.specs.Session.{text_lines};

use crate::concealing::Concealed;
use crate::fault::Stop;
use crate::picture::{Picture, read_picture};
use html_writer::{PageOptions, page};
use program_words::PageWords;
use state_cache::Painted;
use std::alloc::Global;
use std::mem::forget;
use syn_base::{Files, Ledger, List, Memory, Steps};

/// The page of the text.
pub(crate) fn print_page<F: Files, L: Ledger>(
    alloc: Global,
    files: &mut F,
    words: &PageWords<'_>,
    steps: &mut Steps<L>,
) -> Result<List<u8>, Stop>
    ensures { Paints (html_told words.now) (IsUnreadView words.now.painting) (IsViewFault words.now.painting) (text_lines words.now.painting)
        (files_between F.told F.faults F.misses F.longs files.old files.new)
        (steps_change steps.old steps.new) result }
{
    let picture = read_picture(alloc, files, words.painting(), steps)?;
    Ok(print_picture(alloc, words, picture)?)
}

/// The page of a text, which isn't needed behind it. The program ends then, and so what was painted isn't
/// taken apart.
fn print_picture(alloc: Global, words: &PageWords<'_>, picture: Picture) -> Result<List<u8>, Memory>
    ensures { IfOk result (λ bytes. bytes ≡ picture_page words.now picture) }
{
    match picture {
        Picture::Shown(painted) => {
            let bytes = page_bytes(alloc, words, &painted);
            forget(painted);
            bytes
        }
        Picture::Concealed(text) => seen_page(alloc, words, &text),
    }
}

/// The page of a painted text.
pub(crate) fn page_bytes(
    alloc: Global,
    words: &PageWords<'_>,
    painted: &Painted,
) -> Result<List<u8>, Memory>
    ensures { IfOk result (λ bytes. bytes ≡ page_bytes words.now painted.now) }
{
    let syntax = painted.syntax();
    page(
        alloc,
        words.painting().text(),
        painted,
        &syntax.groups,
        &syntax.links,
        page_options(words),
    )
}

/// The page of the view of a text.
fn seen_page(alloc: Global, words: &PageWords<'_>, text: &Concealed) -> Result<List<u8>, Memory>
    ensures { IfOk result (λ bytes. bytes ≡ seen_page words.now text.now) }
{
    let view = text.view(alloc)?;
    let syntax = text.syntax();
    page(
        alloc,
        words.painting().text(),
        &view,
        &syntax.groups,
        &syntax.links,
        page_options(words),
    )
}

/// How the page is made.
fn page_options(words: &PageWords<'_>) -> PageOptions
    ensures { result ≡ page_options words.now }
{
    PageOptions {
        number: words.number(),
        pre: words.pre(),
    }
}
