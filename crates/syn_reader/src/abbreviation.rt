//! The words that a keyword stands for.
ghost use Rattle.std.specs.Prelude.{◌≡◌, ◌==◌, ◌<◌, ◌∷◌, ◌++◌, [], length, option_map, Some, IfSome, OnOk};
ghost use Rattle.std.specs.List.{position_from};
ghost use Rattle.keyword_table.specs.Abbreviation.{bracketed, expansions};
ghost use Rattle.syn_reader.specs.Answers.{Gives};
ghost use Rattle.syn_reader.specs.Abbreviations as spec;

use crate::refusal::Refusal;
use keyword_table::{ExpandError, MOST_WORD_CHARS, expand};
use std::alloc::Global;
use std::marker::Model;
use syn_base::{List, Memory};
use syn_words::Cause;

/// The words of a keyword. Contracts see them as a list. One word alone takes no memory but its own.
#[derive(Drop)]
pub(crate) struct Words {
    alone: Option<List<char>>,
    several: List<List<char>>,
}

impl Model for Words {
    ghost use Rattle.std.specs.Prelude.{List, ℕ, ◌++◌, option_to_list};

    ghost Value = { List (List ℕ) };

    ghost view = { λ w. option_to_list w.alone ++ w.several };
}

impl Words {
    fn of_one(alloc: Global, word: List<char>) -> Words
        ensures { result ≡ word ∷ [] }
    {
        Words {
            alone: Some(word),
            several: List::new(alloc),
        }
    }

    fn of_all(words: List<List<char>>) -> Words
        ensures { result ≡ words }
    {
        Words {
            alone: None,
            several: words,
        }
    }

    /// Puts them behind others.
    pub(crate) fn put_behind(self, words: &mut List<List<char>>) -> Result<(), Memory>
        ensures { OnOk result (words.new ≡ words.old ++ self) }
    {
        let Words { alone, several } = self;
        if let Some(word) = alone {
            words.push(word)?;
        }
        push_all(words, several)
    }
}

/// Puts words behind others.
fn push_all(words: &mut List<List<char>>, more: List<List<char>>) -> Result<(), Memory>
    ensures { OnOk result (words.new ≡ words.old ++ more) }
{
    for word in more.into_vec() {
        words.push(word)?;
    }
    Ok(())
}

/// The first place of a character.
fn place_of(c: char, text: &[char]) -> Option<usize>
    ensures place { result ≡ position_from (λ d. d == c) 0 text.now }
    ensures within { IfSome result (λ place. place < length text.now) }
{
    text.iter().position(|d| *d == c)
}

/// How many characters the longest word has, by what stands before and behind the first `[`.
fn longest_bracketed(stem: &[char], behind: &[char]) -> Option<usize>
    ensures { result ≡ option_map spec.longest (bracketed stem.now behind.now) }
{
    match place_of(']', behind) {
        Some(close) if !stem.is_empty() && close + 1 == behind.len() => Some(stem.len() + close),
        _ => None,
    }
}

/// The words of a keyword with brackets, however long.
fn any_words(alloc: Global, text: &[char]) -> Result<List<List<char>>, Refusal>
    ensures { Gives result (spec.any_words (expansions text.now)) }
{
    match expand(alloc, text) {
        Ok(words) => Ok(words),
        Err(ExpandError::BadBrackets) => Err(Refusal::Fault(Cause::BadBrackets)),
        Err(ExpandError::Memory) => Err(Refusal::Memory),
    }
}

/// The words of a keyword whose first `[` stands there.
fn bracketed_words(alloc: Global, text: &[char], bracket: usize) -> Result<Words, Refusal>
    requires place { position_from (λ d. d == 91) 0 text.now ≡ Some bracket }
    requires within { bracket < length text.now }
    ensures { Gives result (spec.words_of text.now) }
{
    match longest_bracketed(&text[..bracket], &text[bracket + 1..]) {
        None => Err(Refusal::Fault(Cause::BadBrackets)),
        Some(most) => {
            if most > MOST_WORD_CHARS {
                return Err(Refusal::Fault(Cause::TooLongWord));
            }
            Ok(Words::of_all(any_words(alloc, text)?))
        }
    }
}

/// The only word of a keyword without brackets.
fn plain_word(alloc: Global, text: List<char>) -> Result<Words, Refusal>
    ensures { Gives result (spec.short_words (text ∷ [])) }
{
    if text.len() > MOST_WORD_CHARS {
        return Err(Refusal::Fault(Cause::TooLongWord));
    }
    Ok(Words::of_one(alloc, text))
}

/// The words that a keyword stands for. Its faults are found before any word is made.
pub(crate) fn words_of(alloc: Global, text: List<char>) -> Result<Words, Refusal>
    ensures { Gives result (spec.words_of text) }
{
    match place_of('[', text.as_slice()) {
        None => plain_word(alloc, text),
        Some(open) => bracketed_words(alloc, text.as_slice(), open),
    }
}
