//! What commands say.
use crate::{BoxedQuoted, Cause};
use syn_base::List;
use syntax_set::{Change, Offset, Special};

/// Which command defines an item.
#[derive(Clone, Copy, Debug, PartialEq, Eq)]
pub enum ItemCommand {
    /// `:syn-keyword`.
    Keyword,
    /// `:syn-match`.
    Match,
    /// `:syn-region`.
    Region,
}

/// What a pattern is in its item.
#[derive(Clone, Copy, Debug, PartialEq, Eq)]
pub enum Role {
    Match,
    /// `:syn-start`.
    Start,
    /// `:syn-skip`.
    Skip,
    /// `:syn-end`.
    End,
}

/// An option that has a list.
#[derive(Clone, Copy, Debug, PartialEq, Eq)]
pub enum Field {
    /// `:syn-contains`.
    Contains,
    /// `:syn-containedin`.
    Containedin,
    /// `:syn-nextgroup`.
    Nextgroup,
}

/// An option without a value (`:syn-arguments`).
#[derive(Clone, Copy, Debug, PartialEq, Eq)]
pub enum Flag {
    Contained,
    Oneline,
    Keepend,
    Extend,
    Excludenl,
    Transparent,
    Skipwhite,
    Skipnl,
    Skipempty,
    Display,
    Fold,
    Conceal,
    Concealends,
}

/// A name of a list.
#[derive(Drop)]
pub enum Named {
    Group(List<char>),
    /// Without its `@`.
    Cluster(List<char>),
    /// A pattern of group names.
    Names(List<char>),
}

/// A list of groups as written (`:syn-contains`).
#[derive(Drop)]
pub struct NamedList {
    pub special: Special,
    pub names: List<Named>,
}

/// A pattern as written between its delimiters, with its offsets (`:syn-pattern`).
#[derive(Drop)]
pub struct Quoted {
    pub text: List<char>,
    pub ms: Option<Offset>,
    pub me: Option<Offset>,
    pub hs: Option<Offset>,
    pub he: Option<Offset>,
    pub rs: Option<Offset>,
    pub re: Option<Offset>,
    pub lc: u32,
}

/// A word of an item with what belongs to it.
#[derive(Drop)]
pub enum Piece {
    Has(Flag),
    /// `:syn-cchar`.
    Cchar(char),
    Names(Field, NamedList),
    /// `:syn-matchgroup`, as written; `NONE` in any case ends the one before.
    Matchgroup(List<char>),
    Quote(Role, BoxedQuoted),
    /// A keyword as written, maybe with brackets.
    Word(List<char>),
}

/// What a key of a style says (`highlight-args`). Colours are 0xRRGGBB, and none for `NONE`.
#[derive(Clone, Copy, Debug, PartialEq, Eq)]
pub enum StylePart {
    Front(Option<u32>),
    Back(Option<u32>),
    Shape {
        bold: bool,
        italic: bool,
        underline: bool,
    },
}

/// What a command says.
#[derive(Drop)]
pub enum What {
    /// A command without effect.
    Nothing,
    /// `:runtime`, with the file's name.
    Runtime(List<char>),
    /// `:syn-case`.
    CaseIgnore(bool),
    /// `:syn-iskeyword`; none for `clear`.
    Iskeyword(Option<List<char>>),
    /// The pieces stand in the order written.
    Item {
        kind: ItemCommand,
        group: List<char>,
        pieces: List<Piece>,
    },
    /// `:syn-cluster`; the changes stand in the order written.
    Cluster {
        name: List<char>,
        changes: List<(Change, NamedList)>,
    },
    /// `:syn-include`.
    Include {
        cluster: Option<List<char>>,
        name: List<char>,
    },
    /// `:syn-sync`.
    Sync {
        fromstart: bool,
    },
    /// `:syn-clear` without names.
    ClearAll,
    Clear(List<Named>),
    /// `:highlight-link`; `to` is none for `NONE`, `unset` says that `default` stands there, and
    /// `force` that `!` does.
    Link {
        from: List<char>,
        to: Option<List<char>>,
        unset: bool,
        force: bool,
    },
    /// `:highlight`.
    Style {
        group: List<char>,
        parts: List<StylePart>,
        unset: bool,
    },
}

/// A command, and the first physical line of its logical line, from 1.
#[derive(Drop)]
pub struct Command {
    pub line: usize,
    pub what: What,
}

/// Why a command is refused as words, and its line, from 1.
#[derive(Drop)]
pub struct WordFault {
    pub line: usize,
    pub cause: Cause,
}

/// The commands up to the first that is refused as words.
#[derive(Drop)]
pub struct Commands {
    pub list: List<Command>,
    pub fault: Option<WordFault>,
}
