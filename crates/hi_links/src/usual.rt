//! The groups that exist from the start, with their links and styles.
ghost use Rattle.std.specs.Prelude.{◌≡◌, ◌<◌, ◌≤◌, [], length, IfOk, IfErr, OnOk, OnErr, ◌⊎◌};
ghost use Rattle.syntax_set.specs.Groups.{IsRefusedGroup, with_group};
ghost use Rattle.hi_links.specs.UsualGroups.{groups_and_links, HasSomeUsual, IsRefusedUsual, usual_groups, with_all_usual, with_usual_links};
ghost use Rattle.hi_links.specs.UsualRows.{usual_group, usual_rows};

use crate::highlight::PLAIN;
use crate::{Links, Style};
use std::alloc::Global;
use syntax_set::{Groups, SetError};

/// What a group has from the start.
pub(crate) enum UsualHighlight {
    Shown(Style),
    LinkedTo(&'static str),
}

/// A group that exists from the start.
pub(crate) struct UsualRow {
    name: &'static str,
    usual: UsualHighlight,
}

static USUAL_ROWS: [UsualRow; 35] = [
    UsualRow {
        name: "Comment",
        usual: UsualHighlight::Shown(Style {
            front: Some(0x0000ff),
            ..PLAIN
        }),
    },
    UsualRow {
        name: "Constant",
        usual: UsualHighlight::Shown(Style {
            front: Some(0xff00ff),
            ..PLAIN
        }),
    },
    UsualRow {
        name: "String",
        usual: UsualHighlight::LinkedTo("Constant"),
    },
    UsualRow {
        name: "Character",
        usual: UsualHighlight::LinkedTo("Constant"),
    },
    UsualRow {
        name: "Number",
        usual: UsualHighlight::LinkedTo("Constant"),
    },
    UsualRow {
        name: "Boolean",
        usual: UsualHighlight::LinkedTo("Constant"),
    },
    UsualRow {
        name: "Float",
        usual: UsualHighlight::LinkedTo("Number"),
    },
    UsualRow {
        name: "Identifier",
        usual: UsualHighlight::Shown(Style {
            front: Some(0x008b8b),
            ..PLAIN
        }),
    },
    UsualRow {
        name: "Function",
        usual: UsualHighlight::LinkedTo("Identifier"),
    },
    UsualRow {
        name: "Statement",
        usual: UsualHighlight::Shown(Style {
            front: Some(0xa52a2a),
            bold: true,
            ..PLAIN
        }),
    },
    UsualRow {
        name: "Conditional",
        usual: UsualHighlight::LinkedTo("Statement"),
    },
    UsualRow {
        name: "Repeat",
        usual: UsualHighlight::LinkedTo("Statement"),
    },
    UsualRow {
        name: "Label",
        usual: UsualHighlight::LinkedTo("Statement"),
    },
    UsualRow {
        name: "Operator",
        usual: UsualHighlight::LinkedTo("Statement"),
    },
    UsualRow {
        name: "Keyword",
        usual: UsualHighlight::LinkedTo("Statement"),
    },
    UsualRow {
        name: "Exception",
        usual: UsualHighlight::LinkedTo("Statement"),
    },
    UsualRow {
        name: "PreProc",
        usual: UsualHighlight::Shown(Style {
            front: Some(0xa020f0),
            ..PLAIN
        }),
    },
    UsualRow {
        name: "Include",
        usual: UsualHighlight::LinkedTo("PreProc"),
    },
    UsualRow {
        name: "Define",
        usual: UsualHighlight::LinkedTo("PreProc"),
    },
    UsualRow {
        name: "Macro",
        usual: UsualHighlight::LinkedTo("PreProc"),
    },
    UsualRow {
        name: "PreCondit",
        usual: UsualHighlight::LinkedTo("PreProc"),
    },
    UsualRow {
        name: "Type",
        usual: UsualHighlight::Shown(Style {
            front: Some(0x2e8b57),
            bold: true,
            ..PLAIN
        }),
    },
    UsualRow {
        name: "StorageClass",
        usual: UsualHighlight::LinkedTo("Type"),
    },
    UsualRow {
        name: "Structure",
        usual: UsualHighlight::LinkedTo("Type"),
    },
    UsualRow {
        name: "Typedef",
        usual: UsualHighlight::LinkedTo("Type"),
    },
    UsualRow {
        name: "Special",
        usual: UsualHighlight::Shown(Style {
            front: Some(0x6a5acd),
            ..PLAIN
        }),
    },
    UsualRow {
        name: "SpecialChar",
        usual: UsualHighlight::LinkedTo("Special"),
    },
    UsualRow {
        name: "Tag",
        usual: UsualHighlight::LinkedTo("Special"),
    },
    UsualRow {
        name: "Delimiter",
        usual: UsualHighlight::LinkedTo("Special"),
    },
    UsualRow {
        name: "SpecialComment",
        usual: UsualHighlight::LinkedTo("Special"),
    },
    UsualRow {
        name: "Debug",
        usual: UsualHighlight::LinkedTo("Special"),
    },
    UsualRow {
        name: "Underlined",
        usual: UsualHighlight::Shown(Style {
            front: Some(0x6a5acd),
            underline: true,
            ..PLAIN
        }),
    },
    UsualRow {
        name: "Ignore",
        usual: UsualHighlight::Shown(Style {
            front: Some(0xffffff),
            ..PLAIN
        }),
    },
    UsualRow {
        name: "Error",
        usual: UsualHighlight::Shown(Style {
            front: Some(0xffffff),
            back: Some(0xff0000),
            ..PLAIN
        }),
    },
    UsualRow {
        name: "Todo",
        usual: UsualHighlight::Shown(Style {
            front: Some(0x0000ff),
            back: Some(0xffff00),
            ..PLAIN
        }),
    },
];

/// The rows of all groups that exist from the start.
fn all_rows() -> &'static [UsualRow]
    ensures rows { usual_rows result.now ≡ usual_groups }
    ensures some { 0 < length result.now }
{
    &USUAL_ROWS
}

impl Links {
    /// The groups that exist from the start (`group-name`), with their links and styles. Where it is
    /// refused, some of these groups may have been made.
    pub fn usual(alloc: Global, groups: &mut Groups) -> Result<Links, SetError>
        ensures links { IfOk result (λ links. links
            ≡ (with_all_usual (groups_and_links groups.old []) usual_groups).links) }
        ensures names { OnOk result (groups.new
            ≡ (with_all_usual (groups_and_links groups.old []) usual_groups).names) }
        ensures most { OnOk result (length groups.new ≤ 20000) }
        ensures refused { IfErr result (IsRefusedUsual usual_groups groups.new) }
        ensures some { OnErr result (HasSomeUsual usual_groups groups.old groups.new) }
    {
        let mut links = Links::new(alloc);
        add_all(all_rows(), groups, &mut links)?;
        Ok(links)
    }
}

/// Makes these groups.
fn add_all(rows: &[UsualRow], groups: &mut Groups, links: &mut Links) -> Result<(), SetError>
    requires none { links.old ≡ [] }
    ensures made { OnOk result (groups_and_links groups.new links.new
        ≡ with_all_usual (groups_and_links groups.old []) (usual_rows rows.now)) }
    ensures most { OnOk result (0 < length rows.now → length groups.new ≤ 20000) }
    ensures refused { IfErr result (IsRefusedUsual (usual_rows rows.now) groups.new) }
    ensures some { OnErr result (HasSomeUsual (usual_rows rows.now) groups.old groups.new) }
{
    for row in rows {
        add(row, groups, links)?;
    }
    Ok(())
}

/// Makes one of these groups.
fn add(row: &UsualRow, groups: &mut Groups, links: &mut Links) -> Result<(), SetError>
    ensures names { OnOk result (groups.new ≡ with_group groups.old row.now.name.now) }
    ensures links { OnOk result (links.new
        ≡ with_usual_links groups.new links.old (usual_group row.now)) }
    ensures most { OnOk result (length groups.new ≤ 20000) }
    ensures refused { IfErr result (IsRefusedGroup groups.new row.now.name.now) }
    ensures some { OnErr result ((groups.new ≡ groups.old)
        ⊎ (groups.new ≡ with_group groups.old row.now.name.now)) }
{
    let group = groups.number(row.name)?;
    match row.usual {
        UsualHighlight::Shown(style) => links.set_style(group, style, false)?,
        UsualHighlight::LinkedTo(other) => links.link(group, groups.find(other)?, true, false)?,
    }
    Ok(())
}
