//! Links and styles (`:hi-link`, `:highlight-args`).
ghost use Rattle.std.specs.Prelude.{◌≡◌};
ghost use Rattle.syn_reader.specs.Answers.{Leaves, Makes};
ghost use Rattle.syn_reader.specs.Highlight as spec;

use crate::names::Names;
use crate::reading::Reading;
use crate::refusal::Refusal;
use hi_links::Style;
use std::alloc::Global;
use syn_base::{GroupId, List};
use syn_words::StylePart;

/// The group that a link leads to, none for `NONE`.
fn target(
    alloc: Global,
    names: &mut Names,
    to: &Option<List<char>>,
) -> Result<Option<GroupId>, Refusal>
    ensures { Makes result names.new (spec.target_made names.old to.now) }
{
    match to {
        None => Ok(None),
        Some(name) => Ok(Some(names.group(alloc, name.as_slice())?)),
    }
}

fn with_part(style: Style, part: StylePart) -> Style
    ensures { result ≡ spec.with_part style part }
{
    let mut style = style;
    match part {
        StylePart::Front(colour) => style.front = colour,
        StylePart::Back(colour) => style.back = colour,
        StylePart::Shape {
            bold,
            italic,
            underline,
        } => {
            style.bold = bold;
            style.italic = italic;
            style.underline = underline;
        }
    }
    style
}

fn with_parts(style: Style, parts: &[StylePart]) -> Style
    ensures { result ≡ spec.with_parts style parts.now }
{
    let mut style = style;
    for part in parts {
        style = with_part(style, *part);
    }
    style
}

impl Reading {
    /// `:hi-link`; `to` is none for `NONE`.
    pub(crate) fn link(
        &mut self,
        alloc: Global,
        from: &[char],
        to: &Option<List<char>>,
        unset: bool,
        force: bool,
    ) -> Result<(), Refusal>
        ensures { Leaves result self.new (spec.link_command self.old from.now to.now unset force) }
    {
        let group = self.names.group(alloc, from)?;
        let to = target(alloc, &mut self.names, to)?;
        self.links.link(group, to, unset, force)?;
        Ok(())
    }

    /// `:highlight`.
    pub(crate) fn style(
        &mut self,
        alloc: Global,
        name: &[char],
        parts: &[StylePart],
        unset: bool,
    ) -> Result<(), Refusal>
        ensures { Leaves result self.new (spec.style_command self.old name.now parts.now unset) }
    {
        let group = self.names.group(alloc, name)?;
        let style = with_parts(self.links.style(group), parts);
        self.links.set_style(group, style, unset)?;
        Ok(())
    }
}
