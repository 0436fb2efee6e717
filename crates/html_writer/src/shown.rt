//! The final groups that a page shows.
ghost use Rattle.std.specs.Prelude.{◌≡◌, length, IfOk, OnOk};
ghost use Rattle.std.specs.List.{fold};
ghost use Rattle.html_writer.specs.Page.{final_groups, shown_groups, with_used};

use hi_links::Links;
use indexmap::IndexSet;
use std::alloc::Global;
use syn_base::{Colours, GroupId, Lines, Memory, Span};

/// The final groups that a painting shows, in order of first use, each once.
pub(crate) fn shown_groups<P: Lines + Colours>(
    alloc: Global,
    painting: &P,
    links: &Links,
) -> Result<IndexSet<GroupId>, Memory>
    requires { length (P.coloured painting.now) ≡ length (P.lines painting.now) }
    ensures { IfOk result (λ shown. shown.keys ≡ shown_groups links.now (P.coloured painting.now)) }
{
    let mut shown = IndexSet::new(alloc);
    for line in 0..painting.len() {
        add_shown(&mut shown, links, painting.spans(line))?;
    }
    Ok(shown)
}

/// Adds the final groups of a line's spans.
fn add_shown(shown: &mut IndexSet<GroupId>, links: &Links, spans: &[Span]) -> Result<(), Memory>
    ensures { OnOk result (shown.new.keys
        ≡ fold with_used shown.old.keys (final_groups links.now spans.now)) }
{
    for span in spans {
        shown.insert(links.final_group(span.group))?;
    }
    Ok(())
}
