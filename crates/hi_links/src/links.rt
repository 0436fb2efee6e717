//! The links and styles of all groups.
ghost use Rattle.std.specs.Prelude.{◌≡◌, [], OnOk, OnErr};
ghost use Rattle.hi_links.specs.Highlights.{highlight_of, linked, styled, with_highlight};
ghost use Rattle.hi_links.specs.FinalGroup.{final_group};

use crate::Style;
use crate::highlight::{Highlight, NOTHING};
use std::alloc::Global;
use std::marker::Model;
use syn_base::{GroupId, Memory};

/// The most links that are followed from a group.
pub const MOST_LINKS: usize = 100;

/// What each group has, by its number. Groups behind the end of the list have nothing.
#[derive(Drop)]
pub struct Links {
    groups: Vec<Highlight>,
}

impl Model for Links {
    ghost use Rattle.std.specs.Prelude.{List};
    ghost use Rattle.hi_links.specs.declared.highlight.Highlight.{Highlight};

    ghost Value = { List Highlight };

    ghost view = { λ a. a.groups.items };
}

impl Links {
    /// No links and no styles. It takes no memory.
    pub fn new(alloc: Global) -> Links
        ensures { result ≡ [] }
    {
        Links {
            groups: Vec::new(alloc),
        }
    }

    /// What a group has.
    fn highlight(&self, g: GroupId) -> Highlight
        ensures { result ≡ highlight_of self.now g }
    {
        match self.groups.get(g.0 as usize) {
            Some(highlight) => *highlight,
            None => NOTHING,
        }
    }

    /// Gives a group what it has from now on.
    fn put(&mut self, g: GroupId, highlight: Highlight) -> Result<(), Memory>
        ensures put { OnOk result (self.new ≡ with_highlight self.old g highlight) }
        ensures unchanged { OnErr result (self.new ≡ self.old) }
    {
        let at = g.0 as usize;
        if self.groups.len() <= at {
            self.groups.resize(at + 1, NOTHING)?;
        }
        self.groups[at] = highlight;
        Ok(())
    }

    /// What a link command does (`:hi-link`): `to` is none for `NONE`, `only_if_unset` says that the
    /// command has `default`, and `force` that it has `!`.
    pub fn link(
        &mut self,
        from: GroupId,
        to: Option<GroupId>,
        only_if_unset: bool,
        force: bool,
    ) -> Result<(), Memory>
        ensures linked { OnOk result (self.new ≡ linked self.old from to only_if_unset force) }
        ensures unchanged { OnErr result (self.new ≡ self.old) }
    {
        let found = self.highlight(from);
        if found.is_kept(only_if_unset, force) {
            return Ok(());
        }
        self.put(from, found.linked(to))
    }

    /// Gives a group this style as a whole and takes its link away (`:hi-default` where
    /// `only_if_unset`).
    pub fn set_style(
        &mut self,
        group: GroupId,
        style: Style,
        only_if_unset: bool,
    ) -> Result<(), Memory>
        ensures styled { OnOk result (self.new ≡ styled self.old group style only_if_unset) }
        ensures unchanged { OnErr result (self.new ≡ self.old) }
    {
        let found = self.highlight(group);
        if only_if_unset && found.is_set() {
            return Ok(());
        }
        self.put(group, found.styled(style))
    }

    /// The group that a group's links lead to.
    pub fn final_group(&self, g: GroupId) -> GroupId
        ensures { result ≡ final_group self.now g }
    {
        let mut shown = g;
        'links: for _followed in 0..MOST_LINKS {
            match self.highlight(shown).link {
                Some(next) => shown = next,
                None => return shown,
            }
        }
        shown
    }

    /// A group's own style.
    pub fn style(&self, g: GroupId) -> Style
        ensures { result ≡ (highlight_of self.now g).style }
    {
        self.highlight(g).style
    }
}
