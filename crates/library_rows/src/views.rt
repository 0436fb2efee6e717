//! Calls of `conceal` of `conceal_view`; those of `mark` stand beside the items.
//!
//!     view 1 abcdef 2 4    a line that is seen at this level of concealing, and its spans. In front of column 2 it
//!                          shows the mark of an item with the character `*`, from there on that of one without,
//!                          and from column 4 on group 2. What is put shows group 3

ghost use Rattle.std.specs.Prelude.{◌≡◌, ◌<◌, ◌≤◌, length, IfOk, All};
ghost use Rattle.conceal_view.specs.View.{AreNumbered, lines_in, spans_in};
ghost use Rattle.syn_base.specs.SpansFit.{IsFromColumn};

use crate::answer::{begin_answer, write_characters};
use crate::fault::{Fault, number_of};
use crate::printed::OneLine;
use conceal_view::{Marked, Viewed, conceal, mark};
use std::alloc::Global;
use syn_base::{Colours, GroupId, Lines, List, Span};
use syntax_set::{Clusters, Item, ItemSet};

/// The group of what isn't concealed.
const PLAIN: GroupId = GroupId(2);
/// The group of the characters that are put.
const COVER: GroupId = GroupId(3);

/// The columns where the second and the third part of a line begin.
#[derive(Clone, Copy)]
struct Parts {
    first: usize,
    second: usize,
}

pub(crate) fn view(alloc: Global, arguments: &[&str], answer: &mut String) -> Result<(), Fault> {
    let [level, line, first, second] = arguments else {
        return Err(Fault::BadCase);
    };
    let level = level_of(level)?;
    let parts = Parts {
        first: number_of(first)?,
        second: number_of(second)?,
    };
    let line = List::from_chars(alloc, line)?;
    let marked = marked_pair(alloc)?;
    write_view(alloc, &marked, level, line.as_slice(), parts, answer)
}

/// A level at which something is concealed.
fn level_of(text: &str) -> Result<u8, Fault>
    ensures { IfOk result (λ level. (1 ≤ level) × (level ≤ 3)) }
{
    match text {
        "1" => Ok(1),
        "2" => Ok(2),
        "3" => Ok(3),
        _ => Err(Fault::BadCase),
    }
}

/// Two marked items that are concealed, the first one with a character.
fn marked_pair(alloc: Global) -> Result<Marked, Fault>
    ensures numbered { IfOk result (λ marked. AreNumbered 20000 marked.marks) }
    ensures of_items { IfOk result (λ marked.
        All (λ mark. mark.item.0 < length marked.items) marked.marks) }
{
    let mut items = ItemSet::new(alloc);
    items.add_item(concealed(GroupId(0), Some('*')))?;
    items.add_item(concealed(GroupId(1), None))?;
    let clusters = Clusters::new(alloc);
    Ok(mark(alloc, &items, &clusters)?)
}

/// A concealed item of a group, with the character that stands for it.
fn concealed(group: GroupId, character: Option<char>) -> Item {
    let mut item = Item::plain(group);
    item.conceal = true;
    item.cchar = character;
    item
}

/// Writes what is seen of a line of three parts.
fn write_view(
    alloc: Global,
    marked: &Marked,
    level: u8,
    line: &[char],
    parts: Parts,
    answer: &mut String,
) -> Result<(), Fault>
    requires level { (1 ≤ level) × (level ≤ 3) }
    requires numbered { AreNumbered 20000 marked.now.marks }
    requires of_items { All (λ mark. mark.item.0 < length marked.now.items) marked.now.marks }
{
    let [front, middle] = marked.marks.as_slice() else {
        return Err(Fault::BadCase);
    };
    let spans = spans_of(line, parts, front.number, middle.number)?;
    let painting = OneLine {
        characters: line,
        spans: &spans,
    };
    let viewed = conceal(alloc, &painting, &marked.items, &marked.marks, COVER, level)?;
    write_seen(answer, &viewed)
}

/// The spans of the three parts of a line.
fn spans_of(
    line: &[char],
    parts: Parts,
    front: GroupId,
    middle: GroupId,
) -> Result<[Span; 3], Fault>
    ensures { IfOk result (λ spans. IsFromColumn 0 (length line.now) spans) }
{
    let Parts { first, second } = parts;
    if first == 0 || second <= first || line.len() <= second {
        return Err(Fault::BadCase);
    }
    Ok([
        Span {
            first: 0,
            last: first - 1,
            group: front,
        },
        Span {
            first,
            last: second - 1,
            group: middle,
        },
        Span {
            first: second,
            last: line.len() - 1,
            group: PLAIN,
        },
    ])
}

/// Writes the lines of a view, each with its spans.
fn write_seen(answer: &mut String, viewed: &Viewed) -> Result<(), Fault>
    requires { length (lines_in viewed.now) ≡ length (spans_in viewed.now) }
{
    for i in 0..viewed.len() {
        write_characters(answer, viewed.line(i))?;
        add_spans(answer, viewed.spans(i))?;
    }
    Ok(())
}

fn add_spans(answer: &mut String, spans: &[Span]) -> Result<(), Fault> {
    for span in spans {
        let (first, last) = (span.first, span.last);
        let group = span.group.0;
        begin_answer(answer)?;
        write!(answer, "{first}-{last}={group}")?;
    }
    Ok(())
}
