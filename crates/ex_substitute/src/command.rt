//! Commands, read from their text.
ghost use Rattle.std.specs.Prelude.{◌≡◌, IfOk};
ghost use Rattle.vim_pattern.specs.GroupNumbers.{HasNumbers};
ghost use Rattle.ex_substitute.specs.Answers.{Answers, Gives};
ghost use Rattle.ex_substitute.specs.Counting.{is_counted};
ghost use Rattle.ex_substitute.specs.CommandsRead.{OrderGives, seen};
ghost use Rattle.ex_substitute.specs.Flags.{flags_of};
ghost use Rattle.ex_substitute.specs.Commands as spec;

use crate::ExError;
use crate::flags::{Flags, read_flags};
use crate::refusal::Refusal;
use crate::string::{Piece, read_string};
use pattern_match::Programs;
use std::alloc::Global;
use std::marker::Model;
use syn_base::{List, Memory};
use text_scan::front;
use vim_pattern::{PatternError, PatternUse, Tree, read_pattern, reading_is_the_grammar};
use word_reader::Reader;

/// What a command does with the lines of its range.
#[derive(Drop)]
pub(crate) enum Action {
    /// Puts a string in place of matches (`:s`): of all of a line, or of the first.
    Substitute {
        string: List<Piece>,
        all: bool,
        count_only: bool,
    },
    /// Deletes the lines with a match (`:g`), or the others (`:v`).
    Delete {
        others: bool,
    },
}

/// A command that was read: `s/PATTERN/STRING/FLAGS`, `g/PATTERN/d` or `v/PATTERN/d`. Contracts see
/// its pattern's tree, whether case is ignored where the pattern says nothing of it, and what is done.
#[derive(Drop)]
pub struct ExCommand {
    pub(crate) tree: Tree,
    /// The pattern alone, ready.
    pub(crate) programs: Programs,
    pub(crate) ignore: bool,
    pub(crate) action: Action,
}

impl Model for ExCommand {
    ghost use Rattle.std.specs.Prelude.{◌≡◌, [], ◌∷◌};
    ghost use Rattle.ex_substitute.specs.Commands.{Command};
    ghost use Rattle.ex_substitute.specs.CommandCode.{command_code};

    ghost Value = { Command };

    ghost coded = { command_code };

    ghost view = { λ c. record { tree = c.tree; ignore = c.ignore; action = c.action } };

    ghost invariant = { λ c. c.programs ≡ c.tree ∷ [] };
}

impl ExCommand {
    /// Reads a command from its letter on. Of several causes that of the pattern comes first, then
    /// that of the string, then that of the rest (this profile).
    pub fn read(alloc: Global, text: &[char]) -> Result<ExCommand, ExError>
        requires { spec.BeginsCommand text.now }
        ensures { Answers result (spec.command_of text.now) }
    {
        match read_command(alloc, text[0], &text[2..]) {
            Ok(command) => Ok(command),
            Err(Refusal::Cause(cause)) => Err(cause),
            Err(Refusal::Memory) => Err(ExError::Memory),
        }
    }

    /// Whether flag `n` is given: matches are counted, and nothing changes (`:s_n`). It takes no memory.
    pub fn count_only(&self) -> bool
        ensures { result ≡ is_counted self.now.action }
    {
        match &self.action {
            Action::Substitute { count_only, .. } => *count_only,
            Action::Delete { .. } => false,
        }
    }
}

/// A pattern's characters, whether a slash ends it, and what is left behind that.
#[derive(Drop)]
struct Halves<'a> {
    pattern: List<char>,
    is_closed: bool,
    rest: &'a [char],
}

/// Whether case is ignored, and what is done.
#[derive(Drop)]
struct Order {
    ignore: bool,
    action: Action,
}

/// The command of a letter and the text behind its slash.
fn read_command(alloc: Global, letter: char, text: &[char]) -> Result<ExCommand, Refusal>
    ensures { Gives result (spec.command_by letter text.now) }
{
    let halves = parted(alloc, text)?;
    let tree = tree_of(alloc, halves.pattern.as_slice())?;
    let order = order_of(alloc, letter, halves.is_closed, halves.rest)?;
    let command = command_with(alloc, tree, order)?;
    Ok(command)
}

/// The pattern and what is left behind it.
fn parted(alloc: Global, text: &[char]) -> Result<Halves<'_>, Memory>
    ensures { IfOk result (λ halves. spec.parted text.now ≡ seen halves) }
{
    let mut reader = Reader::new(text);
    match reader.delimited(alloc, '/')? {
        Some(pattern) => Ok(Halves {
            pattern,
            is_closed: true,
            rest: reader.rest(),
        }),
        None => Ok(Halves {
            pattern: List::from_slice(alloc, text)?,
            is_closed: false,
            rest: &[],
        }),
    }
}

/// The tree of a pattern's text.
fn tree_of(alloc: Global, pattern: &[char]) -> Result<Tree, Refusal>
    ensures tree { Gives result (spec.pattern_of pattern.now) }
    ensures numbers { IfOk result (λ tree. HasNumbers tree.node) }
{
    if pattern.is_empty() {
        return Err(Refusal::Cause(ExError::EmptyPattern));
    }
    // The proof needs the law that this call tells.
    reading_is_the_grammar();
    match read_pattern(alloc, pattern, PatternUse::Match) {
        Ok(tree) => Ok(tree),
        Err(PatternError::At { at, cause }) => {
            Err(Refusal::Cause(ExError::Pattern { at, cause }))
        }
        Err(PatternError::Memory) => Err(Refusal::Memory),
    }
}

fn flags_or_bad(text: &[char]) -> Result<Flags, ExError>
    ensures { result ≡ spec.or_bad (flags_of text.now) }
{
    match read_flags(text) {
        None => Err(ExError::BadFlags),
        Some(flags) => Ok(flags),
    }
}

/// The string and the flags of a substitution.
fn substitution(alloc: Global, text: &[char]) -> Result<Order, Refusal>
    ensures { OrderGives result (spec.substitution text.now) }
{
    let string = read_string(alloc, text)?;
    let flags = flags_or_bad(string.rest)?;
    Ok(Order {
        ignore: flags.ignore,
        action: Action::Substitute {
            string: string.pieces,
            all: flags.all,
            count_only: flags.count_only,
        },
    })
}

/// Whether a text is the letter `d` alone.
fn is_d(text: &[char]) -> bool
    ensures { result ≡ spec.is_d text.now }
{
    match front(text) {
        None => false,
        Some((c, rest)) => c == 'd' && rest.is_empty(),
    }
}

/// What a deletion asks for.
fn deletion(others: bool, text: &[char]) -> Result<Order, Refusal>
    ensures { OrderGives result (spec.deletion others text.now) }
{
    if !is_d(text) {
        return Err(Refusal::Cause(ExError::BadFlags));
    }
    Ok(Order {
        ignore: false,
        action: Action::Delete { others },
    })
}

/// What the letter asks for.
fn order_of(alloc: Global, letter: char, is_closed: bool, text: &[char]) -> Result<Order, Refusal>
    ensures { OrderGives result (spec.order_of letter is_closed text.now) }
{
    if !is_closed {
        return Err(Refusal::Cause(ExError::BadFlags));
    }
    if letter == 's' {
        return substitution(alloc, text);
    }
    deletion(letter == 'v', text)
}

/// The command of these parts.
fn command_with(alloc: Global, tree: Tree, order: Order) -> Result<ExCommand, Memory>
    requires { HasNumbers tree.node }
    ensures { IfOk result
        (λ c. c ≡ record { tree = tree; ignore = order.ignore; action = order.action }) }
{
    let mut programs = Programs::new(alloc);
    programs.add(&tree)?;
    Ok(ExCommand {
        tree,
        programs,
        ignore: order.ignore,
        action: order.action,
    })
}
