//! Which lines show otherwise by another syntax.
ghost use Rattle.std.specs.Prelude.{◌≡◌, length, IfOk};
ghost use Rattle.paint_reuse.specs.Work.{kept_spans};
ghost use Rattle.state_cache.specs.Shown.{line_shown, lines_shown_otherwise, same_shown, show_same, shown_by, text_shown};

use crate::kept::Kept;
use chunk_list::ChunkList;
use std::alloc::Global;
use syn_base::{List, Memory, Span};
use syn_reader::Syntax;

/// A syntax, and the one that comes in its place. Groups are compared by name, since the two may
/// number them otherwise.
#[derive(Drop)]
pub(crate) struct Exchange<'a> {
    pub(crate) old: &'a Syntax,
    pub(crate) new: &'a Syntax,
}

impl Exchange<'_> {
    /// Whether a span shows by the old syntax what another one shows by the new syntax.
    fn is_same(&self, old: &Span, new: &Span) -> bool
        ensures { result ≡ same_shown (shown_by self.now.old.now old.now) (shown_by self.now.new.now new.now) }
    {
        let before = self.old;
        let after = self.new;
        old.first == new.first
            && old.last == new.last
            && before.groups.name(old.group) == after.groups.name(new.group)
            && before.groups.name(before.links.final_group(old.group))
                == after.groups.name(after.links.final_group(new.group))
    }

    /// Whether spans show by the old syntax what others show by the new syntax.
    fn are_same(&self, old: &[Span], new: &[Span]) -> bool
        ensures { result ≡ show_same (line_shown self.now.old.now old.now) (line_shown self.now.new.now new.now) }
    {
        if old.len() != new.len() {
            return false;
        }
        for (one, other) in old.iter().zip(new) {
            if !self.is_same(one, other) {
                return false;
            }
        }
        true
    }

    /// The lines of a text that show otherwise, least first.
    pub(crate) fn lines(
        &self,
        alloc: Global,
        old: &ChunkList<Kept>,
        new: &ChunkList<Kept>,
    ) -> Result<List<usize>, Memory>
        requires { length old.now.0 ≡ length new.now.0 }
        ensures { IfOk result (λ lines. lines ≡ lines_shown_otherwise
            (text_shown self.now.old.now (kept_spans old.now.0))
            (text_shown self.now.new.now (kept_spans new.now.0))) }
    {
        let mut lines = List::new(alloc);
        for line in 0..new.len() {
            if !self.are_same(old.get(line).spans(), new.get(line).spans()) {
                lines.push(line)?;
            }
        }
        Ok(lines)
    }
}
