//! First words of commands.
ghost use Rattle.std.specs.Prelude.{◌≡◌, IfOk, Some, None};
ghost use Rattle.word_reader.specs.Words.{abbreviates};
ghost use Rattle.word_values.specs.CommandNames as spec;

use std::alloc::Global;
use syn_base::Memory;
use text_scan::is_letter;
use word_reader::{Until, abbreviates, is_word, run};

/// A command by its first word.
#[derive(Clone, Copy, Debug, PartialEq, Eq)]
pub enum CommandName {
    Syntax,
    Let,
    Unlet,
    Set,
    Scriptencoding,
    Runtime,
    If,
    /// `force` says that a `!` stands behind it.
    Highlight { force: bool },
}

/// A word that may be cut down to so many letters, without a `!`.
fn is_cut(word: &[char], least: usize, full: &str) -> bool
    ensures { result ≡ spec.is_plain (abbreviates least full.now word.now) }
{
    matches!(abbreviates(least, full, word), Some(false))
}

/// The same, with a `!` or without.
fn is_cut_or_banged(word: &[char], least: usize, full: &str) -> bool
    ensures { result ≡ spec.is_some_way (abbreviates least full.now word.now) }
{
    abbreviates(least, full, word).is_some()
}

fn highlight_name(word: &[char]) -> Option<CommandName>
    ensures { result ≡ spec.highlight_name word.now }
{
    let force = abbreviates(2, "highlight", word)?;
    Some(CommandName::Highlight { force })
}

/// The command that a word names.
pub fn command_name(word: &[char]) -> Option<CommandName>
    ensures { result ≡ spec.command_name word.now }
{
    if is_cut(word, 2, "syntax") {
        Some(CommandName::Syntax)
    } else if is_word(word, "let") {
        Some(CommandName::Let)
    } else if is_cut_or_banged(word, 3, "unlet") {
        Some(CommandName::Unlet)
    } else if is_cut(word, 2, "set") {
        Some(CommandName::Set)
    } else if is_cut(word, 7, "scriptencoding") {
        Some(CommandName::Scriptencoding)
    } else if is_cut_or_banged(word, 2, "runtime") {
        Some(CommandName::Runtime)
    } else if is_word(word, "if") {
        Some(CommandName::If)
    } else {
        highlight_name(word)
    }
}

/// Whether a text begins with the name of Vim's option 'cpoptions', whole or short.
pub fn begins_cpo(alloc: Global, text: &[char]) -> Result<bool, Memory>
    ensures { IfOk result (λ answer. answer ≡ spec.begins_cpo text.now) }
{
    let option = run(alloc, Until::OptionName, text)?;
    Ok(is_word(option.as_slice(), "cpo") || is_word(option.as_slice(), "cpoptions"))
}

/// Whether a variable's name may begin so.
pub fn begins_variable(c: char) -> bool
    ensures { result ≡ spec.begins_variable c }
{
    is_letter(c) || c == '_'
}

/// Whether the word is the condition of the guard, quoted either way.
pub fn is_guard(word: &[char]) -> bool
    ensures { result ≡ spec.is_guard word.now }
{
    is_word(word, "exists(\"b:current_syntax\")") || is_word(word, "exists('b:current_syntax')")
}
