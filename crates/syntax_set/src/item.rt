//! Syntax items and what they consist of.
ghost use Rattle.std.specs.Prelude.{◌≡◌};
ghost use Rattle.syntax_set.specs.Items.{plain_item};

use syn_base::{GroupId, List, PatternId};
use vim_pattern::Tree;

/// How far a place lies from the first or the last character of a match (`:syn-pattern-offset`).
#[derive(Clone, Copy, Debug, PartialEq, Eq)]
pub struct Offset {
    /// From the end of the match, and not from its start.
    pub from_end: bool,
    /// In characters, to the right.
    pub by: i32,
}

/// A pattern of an item, with what stands beside it in its command.
#[derive(Drop)]
pub struct Pattern {
    pub id: PatternId,
    pub tree: Tree,
    /// Where the match starts (`:syn-ms`).
    pub ms: Option<Offset>,
    /// Where the match ends (`:syn-me`).
    pub me: Option<Offset>,
    /// Where the highlight starts (`:syn-hs`).
    pub hs: Option<Offset>,
    /// Where the highlight ends (`:syn-he`).
    pub he: Option<Offset>,
    /// Where the body of a region starts (`:syn-rs`).
    pub rs: Option<Offset>,
    /// Where the body of a region ends (`:syn-re`).
    pub re: Option<Offset>,
    /// How many characters in front belong to the context alone (`:syn-lc`).
    pub lc: u32,
    /// The group of the matched text, where it has one of its own (`:syn-matchgroup`).
    pub matchgroup: Option<GroupId>,
    /// `excludenl` stands before the pattern in its command (`:syn-excludenl`).
    pub excludenl: bool,
}

/// What an item is, with its patterns.
#[derive(Drop)]
pub enum ItemKind {
    /// `:syn-keyword`.
    Keyword,
    /// `:syn-match`.
    Match(Pattern),
    /// `:syn-region`.
    Region {
        starts: List<Pattern>,
        skip: Option<Pattern>,
        ends: List<Pattern>,
    },
}

/// One name of a list.
#[derive(Clone, Copy, Debug, PartialEq, Eq)]
pub enum Entry {
    Group(GroupId),
    /// A cluster by its number, which may be that of none.
    Cluster(u32),
}

/// What a list says besides its names (`:syn-contains`).
#[derive(Clone, Copy, Debug, PartialEq, Eq)]
pub enum Special {
    /// It has what it names.
    Plain,
    All,
    AllBut,
    Top,
    Contained,
    /// `NONE`.
    Nothing,
}

/// A list of groups and clusters, as options of items have it.
#[derive(Drop)]
pub struct GroupList {
    pub special: Special,
    pub entries: List<Entry>,
}

/// A syntax item (`:syn-define`).
#[derive(Drop)]
pub struct Item {
    pub group: GroupId,
    pub kind: ItemKind,
    /// What the command says: an item of an included file counts as contained at the top level
    /// even without it.
    pub contained: bool,
    /// The number of the include that the item was read in, 0 outside all includes.
    pub include: u32,
    /// Case is ignored (`:syn-case`).
    pub ignore: bool,
    pub contains: Option<GroupList>,
    pub containedin: Option<GroupList>,
    pub nextgroup: Option<GroupList>,
    pub skipwhite: bool,
    pub skipnl: bool,
    pub skipempty: bool,
    pub transparent: bool,
    pub oneline: bool,
    pub keepend: bool,
    pub extend: bool,
    pub fold: bool,
    pub conceal: bool,
    pub concealends: bool,
    pub cchar: Option<char>,
}

impl Item {
    /// A keyword item of which nothing is said but its group: no option holds, case matters, and it
    /// was read outside all includes.
    pub fn plain(group: GroupId) -> Item
        ensures { result ≡ plain_item group }
    {
        Item {
            group,
            kind: ItemKind::Keyword,
            contained: false,
            include: 0,
            ignore: false,
            contains: None,
            containedin: None,
            nextgroup: None,
            skipwhite: false,
            skipnl: false,
            skipempty: false,
            transparent: false,
            oneline: false,
            keepend: false,
            extend: false,
            fold: false,
            conceal: false,
            concealends: false,
            cchar: None,
        }
    }
}
