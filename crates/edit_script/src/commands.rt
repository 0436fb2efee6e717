//! The commands of a script, their faults, and what a command does to a text of so many lines.
use syn_base::List;
use text_buffer::Line;

/// An address: a line by its number, from 1, where 0 stands before the first one; or the last line.
#[derive(Clone, Copy, Debug, PartialEq, Eq)]
pub enum Last {
    Number(u64),
    End,
}

/// What a command does (`:append`, `:insert`, `:change`, `:delete`, `:move`, `:copy`, `:s`, `:g`,
/// `:v`). In a script these are `a`, `i`, `c`, `d`, `m`, `t`, `p`, `s`, `g`, `v`, `H`, `F` and `S`.
#[derive(Drop)]
pub enum Verb {
    /// Puts the text behind the line.
    Append,
    /// Puts the text before the line; before line 0 is before line 1.
    Insert,
    /// Puts the text in place of the lines.
    Change,
    Delete,
    /// Moves the lines behind this one.
    Move(Last),
    /// Copies the lines behind this one.
    CopyTo(Last),
    /// Prints the spans of the lines.
    Print,
    /// A command by pattern (`:s`, `:g`, `:v`), from its letter on; it begins with `s/`, `g/` or `v/`.
    Ex(List<char>),
    /// Prints the page.
    Page,
    /// Prints the folds of the text (`:syn-fold`).
    Folds,
    /// Puts the syntax of the file with this name in force. The name isn't empty.
    Syntax(List<char>),
}

/// A command of a script.
#[derive(Drop)]
pub struct EditCommand {
    /// The first line. A command with one address has it as `first` and `last`; `Page`, `Folds` and
    /// `Syntax` have `End`.
    pub first: Last,
    pub last: Last,
    pub verb: Verb,
    /// The text of `Append`, `Insert` and `Change`; empty for the others.
    pub lines: List<Line>,
}

/// Why what stands in a script is no command. Of several that meet the first is told, in the order
/// `BadUtf8`, `LongLine`, `BadCommand`, `BadAddress`, `UnfinishedText`.
#[derive(Clone, Copy, Debug, PartialEq, Eq)]
pub enum ScriptFault {
    /// The line has none of the forms of a command.
    BadCommand,
    /// An address has more than 18 digits.
    BadAddress,
    /// The script ends before the dot that ends the text.
    UnfinishedText,
    /// The line, or one of its text, isn't UTF-8.
    BadUtf8,
    /// The line, or one of its text, has more than 1,000,000 characters.
    LongLine,
}

/// One command of a script, or what is wrong with it.
#[derive(Drop)]
pub struct Entry {
    /// The line of the script in which the command stands, from 0.
    pub line: usize,
    pub what: Result<EditCommand, ScriptFault>,
}

/// What a command does to a text of so many lines. Lines `a` to `b - 1`, from 0, are meant.
#[derive(Clone, Copy, Debug, PartialEq, Eq)]
pub enum Resolved {
    /// The text of the command comes in place of the lines.
    Replace { a: usize, b: usize },
    /// The lines come before line `dest`, and go where they stood.
    Move { a: usize, b: usize, dest: usize },
    /// The lines come before line `dest` once more.
    CopyTo { a: usize, b: usize, dest: usize },
    Print { a: usize, b: usize },
    /// The command by pattern is applied to the lines.
    Ex { a: usize, b: usize },
    Page,
    Folds,
    /// The syntax of the file that the command names is put in force.
    Syntax,
}

/// Why a command can't be carried out on a text of so many lines. Of several that meet the first is
/// told, in this order.
#[derive(Clone, Copy, Debug, PartialEq, Eq)]
pub enum ResolveError {
    /// The first address, from the left, that lies outside the text.
    NoLine(u64),
    /// The first line is behind the last.
    Backwards,
    /// The lines would come between two of their own.
    MoveIntoSelf,
    /// The text would have more than 2,000,000 lines.
    TooManyLines,
}
