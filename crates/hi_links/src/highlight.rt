//! What one group has: a link, a style.
ghost use Rattle.std.specs.Prelude.{◌≡◌};
ghost use Rattle.hi_links.specs.Highlights.{has_style, is_kept, is_set, linked_highlight, styled_highlight};

use syn_base::GroupId;

/// How a group is shown (`:highlight-args`). Colours are 0xRRGGBB.
#[derive(Clone, Copy, Debug, PartialEq, Eq)]
pub struct Style {
    /// The colour of the letters.
    pub front: Option<u32>,
    /// The colour behind them.
    pub back: Option<u32>,
    pub bold: bool,
    pub italic: bool,
    pub underline: bool,
}

/// No style.
pub const PLAIN: Style = Style {
    front: None,
    back: None,
    bold: false,
    italic: false,
    underline: false,
};

impl Style {
    /// Whether it says anything.
    pub fn is_styled(&self) -> bool
        ensures { result ≡ has_style self.now }
    {
        self.front.is_some() || self.back.is_some() || self.bold || self.italic || self.underline
    }
}

/// What a group has.
#[derive(Clone, Copy, Debug, PartialEq, Eq)]
pub struct Highlight {
    /// The group that it is linked to.
    pub link: Option<GroupId>,
    /// Its own style.
    pub style: Style,
    /// Whether it had a link that was taken away.
    pub unlinked: bool,
}

/// What a group has of which nothing was said.
pub(crate) const NOTHING: Highlight = Highlight {
    link: None,
    style: PLAIN,
    unlinked: false,
};

impl Highlight {
    /// Whether a command with `default` does nothing (`:hi-default`).
    pub(crate) fn is_set(&self) -> bool
        ensures { result ≡ is_set self.now }
    {
        self.style.is_styled() || self.link.is_some() || self.unlinked
    }

    /// Whether a link command does nothing.
    pub(crate) fn is_kept(&self, only_if_unset: bool, force: bool) -> bool
        ensures { result ≡ is_kept self.now only_if_unset force }
    {
        (only_if_unset && self.is_set()) || (self.style.is_styled() && !force)
    }

    /// With another link, or with its link taken away.
    pub(crate) fn linked(&self, to: Option<GroupId>) -> Highlight
        ensures { result ≡ linked_highlight self.now to }
    {
        Highlight {
            link: to,
            style: self.style,
            unlinked: self.unlinked || (self.link.is_some() && to.is_none()),
        }
    }

    /// With another style, and its link taken away.
    pub(crate) fn styled(&self, style: Style) -> Highlight
        ensures { result ≡ styled_highlight self.now style }
    {
        Highlight {
            link: None,
            style,
            unlinked: self.unlinked || self.link.is_some(),
        }
    }
}
