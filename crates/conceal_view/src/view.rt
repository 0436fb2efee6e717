//! The view of a painting.
ghost use Rattle.std.specs.Prelude.{◌≡◌, ◌<◌, ◌≤◌, All, length, map, IfOk};
ghost use Rattle.conceal_view.specs.Seeing.{blocks_by};
ghost use Rattle.conceal_view.specs.View.{AreNumbered, block_at, lines_in, put_at, seen_lines, spans_in, view_of};
ghost use Rattle.syn_base.specs.SpansFit.{FitLines};

use crate::Mark;
use crate::seen_line::SeenLine;
use crate::sight::{Blocks, seen_line};
use crate::viewed::Viewed;
use std::alloc::Global;
use syn_base::{Colours, GroupId, Lines, List, Memory};
use syntax_set::ItemSet;

/// The view of a painting in which marked characters are concealed, at a level from 1 to 3 (Vim's
/// `'conceallevel'`). The characters that are put show the group `cover`. Spans are those of the
/// view, and so are their columns. Want of memory alone is refused.
pub fn conceal<P: Lines + Colours>(
    alloc: Global,
    painting: &P,
    items: &ItemSet,
    marks: &List<Mark>,
    cover: GroupId,
    level: u8,
) -> Result<Viewed, Memory>
    requires level { (1 ≤ level) × (level ≤ 3) }
    requires numbered { AreNumbered 20000 marks.now }
    requires items { All (λ mark. mark.item.0 < length items.now) marks.now }
    requires as_many { length (P.coloured painting.now) ≡ length (P.lines painting.now) }
    requires fit { FitLines (P.lines painting.now) (P.coloured painting.now) }
    ensures view { IfOk result (λ viewed. viewed
        ≡ view_of items.now marks.now cover level (P.lines painting.now) (P.coloured painting.now)) }
    ensures as_many { IfOk result (λ viewed. length (spans_in viewed) ≡ length (lines_in viewed)) }
    ensures fit { IfOk result (λ viewed. FitLines (lines_in viewed) (spans_in viewed)) }
{
    // one at least, and fewer than 2^32
    let _count = painting.len();
    let puts = puts_of(alloc, items, marks.as_slice(), level)?;
    let blocks = Blocks {
        puts: puts.as_slice(),
        cover,
    };
    let lines = seen_lines(alloc, painting, &blocks)?;
    Ok(Viewed::of(lines))
}

/// What stands in place of the blocks of each mark.
fn puts_of(
    alloc: Global,
    items: &ItemSet,
    marks: &[Mark],
    level: u8,
) -> Result<Vec<Option<char>>, Memory>
    requires { All (λ mark. mark.item.0 < length items.now) marks.now }
    ensures { IfOk result (λ puts. puts.items ≡ map (block_at items.now level) marks.now) }
{
    let mut puts = Vec::with_capacity(alloc, marks.len())?;
    for mark in marks {
        puts.push(put_at(level, items.item(mark.item).cchar))?;
    }
    Ok(puts)
}

/// What stands in place of a block whose item has this character, or none.
fn put_at(level: u8, cchar: Option<char>) -> Option<char>
    ensures { result ≡ put_at level cchar }
{
    match level {
        1 => Some(cchar.unwrap_or(' ')),
        2 => cchar,
        _ => None,
    }
}

/// The views of all lines.
fn seen_lines<P: Lines + Colours>(
    alloc: Global,
    painting: &P,
    blocks: &Blocks<'_>,
) -> Result<Vec<SeenLine>, Memory>
    requires as_many { length (P.coloured painting.now) ≡ length (P.lines painting.now) }
    requires fit { FitLines (P.lines painting.now) (P.coloured painting.now) }
    ensures { IfOk result (λ lines. lines.items
        ≡ seen_lines (blocks_by blocks.now.puts.now) blocks.now.cover
        (P.lines painting.now) (P.coloured painting.now)) }
{
    let mut lines = Vec::with_capacity(alloc, painting.len())?;
    for line in 0..painting.len() {
        let seen = seen_line(alloc, blocks, painting.line(line), painting.spans(line))?;
        lines.push(seen)?;
    }
    Ok(lines)
}
