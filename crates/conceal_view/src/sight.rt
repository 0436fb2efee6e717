//! What is seen of a line, from left to right.
ghost use Rattle.std.specs.Prelude.{◌≡◌, ◌<◌, ◌≤◌, All, length, IfOk, OnOk};
ghost use Rattle.conceal_view.specs.Seeing.{blocks_by, put_behind, run_of, with_cells, HasSeen};
ghost use Rattle.conceal_view.specs.View.{block_of, put_cells, seen_line, shows_same};
ghost use Rattle.syn_base.specs.SpansFit.{IsFromColumn};

use crate::marks::FIRST_MARK;
use crate::seen_line::SeenLine;
use std::alloc::Global;
use syn_base::{GroupId, Memory, Span};

/// What stands in place of concealed blocks.
#[derive(Clone, Copy)]
pub(crate) struct Blocks<'a> {
    /// For each mark in order a character, or nothing.
    pub(crate) puts: &'a [Option<char>],
    /// The group of the characters that are put.
    pub(crate) cover: GroupId,
}

impl<'a> Blocks<'a> {
    /// What stands in place of a block that shows this, if it is one.
    fn of(&self, group: Option<GroupId>) -> Option<Option<char>>
        ensures { result ≡ block_of (blocks_by self.now.puts.now) group }
    {
        let group = group?;
        if group.0 < FIRST_MARK {
            return None;
        }
        let place = (group.0 - FIRST_MARK) as usize;
        self.puts.get(place).copied()
    }
}

/// A line as far as it is seen.
#[derive(Drop)]
struct Sight {
    line: SeenLine,
    /// What the last character showed, none before the first one.
    before: Option<GroupId>,
}

impl Sight {
    /// Sees characters that all show one group, or none.
    fn see(
        &mut self,
        blocks: &Blocks<'_>,
        chars: &[char],
        group: Option<GroupId>,
    ) -> Result<(), Memory>
        ensures { OnOk result (HasSeen (blocks_by blocks.now.puts.now) blocks.now.cover
            group chars.now self.old self.new) }
    {
        if chars.is_empty() {
            return Ok(());
        }
        match blocks.of(group) {
            None => self.see_plain(chars, group),
            Some(put) => self.see_block(put, blocks.cover, group),
        }
    }

    /// Sees characters as they are.
    fn see_plain(&mut self, chars: &[char], group: Option<GroupId>) -> Result<(), Memory>
        ensures { OnOk result (self.new ≡ record {
          line = with_cells self.old.line (run_of group chars.now);
          before = group;
        }) }
    {
        self.line.push_run(chars, group)?;
        self.before = group;
        Ok(())
    }

    /// Sees what stands in place of a block, where it begins.
    fn see_block(
        &mut self,
        put: Option<char>,
        cover: GroupId,
        group: Option<GroupId>,
    ) -> Result<(), Memory>
        ensures { OnOk result (self.new ≡ record {
          line = with_cells self.old.line
              (put_cells cover (put_behind (shows_same self.old.before group) put));
          before = group;
        }) }
    {
        let put = put_behind(shows_same(self.before, group), put);
        self.put(put, cover)?;
        self.before = group;
        Ok(())
    }

    /// Sees a put character, if there is one.
    fn put(&mut self, put: Option<char>, cover: GroupId) -> Result<(), Memory>
        ensures line { OnOk result (self.new.line ≡ with_cells self.old.line (put_cells cover put)) }
        ensures before { self.new.before ≡ self.old.before }
    {
        match put {
            Some(x) => self.line.push(x, cover),
            None => Ok(()),
        }
    }
}

/// What is put where a block begins, or nothing where it goes on.
fn put_behind(goes_on: bool, put: Option<char>) -> Option<char>
    ensures { result ≡ put_behind goes_on put }
{
    if goes_on { None } else { put }
}

/// Whether two characters show the same.
fn shows_same(before: Option<GroupId>, group: Option<GroupId>) -> bool
    ensures { result ≡ shows_same before group }
{
    match (before, group) {
        (Some(before), Some(group)) => before.0 == group.0,
        (None, None) => true,
        _ => false,
    }
}

/// The view of a line with its spans.
pub(crate) fn seen_line(
    alloc: Global,
    blocks: &Blocks<'_>,
    line: &[char],
    spans: &[Span],
) -> Result<SeenLine, Memory>
    requires fit { IsFromColumn 0 (length line.now) spans.now }
    ensures { IfOk result (λ seen. seen
        ≡ seen_line (blocks_by blocks.now.puts.now) blocks.now.cover line.now spans.now) }
{
    let mut sight = Sight {
        line: SeenLine::new(alloc),
        before: None,
    };
    let mut column = 0;
    for span in spans {
        sight.see(blocks, &line[column..span.first], None)?;
        sight.see(blocks, &line[span.first..span.last + 1], Some(span.group))?;
        column = span.last + 1;
    }
    sight.see(blocks, &line[column..], None)?;
    Ok(sight.line)
}
