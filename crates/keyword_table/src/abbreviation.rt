//! Keywords with an optional part, as `ab[breviate]` (`:syn-keyword`).
ghost use Rattle.std.specs.Prelude.{◌≡◌, ◌==◌, ◌++◌, ◌↔◌, ◌<◌, length, None, Some, Err, IfOk, IfSome};
ghost use Rattle.std.specs.List.{position_from};
ghost use Rattle.keyword_table.specs.Abbreviation.{bracketed, expansions, words};

use crate::ExpandError;
use std::alloc::Global;
use syn_base::{List, Memory};

/// The words that a keyword of a syntax file stands for, the shortest first: the stem alone, then
/// with more and more of the optional part in brackets. A text without `[` is one word.
pub fn expand(alloc: Global, text: &[char]) -> Result<List<List<char>>, ExpandError>
    ensures words { IfOk result (λ words. expansions text.now ≡ Some words) }
    ensures bad_brackets { (result ≡ Err ExpandError.BadBrackets) ↔ (expansions text.now ≡ None) }
{
    match place_of('[', text) {
        Some(open) => expand_bracketed(alloc, &text[..open], &text[open + 1..]),
        None => Ok(words(alloc, text, &[])?),
    }
}

/// The words of a text by what stands before and behind its first `[`.
fn expand_bracketed(
    alloc: Global,
    stem: &[char],
    behind: &[char],
) -> Result<List<List<char>>, ExpandError>
    ensures words { IfOk result (λ words. bracketed stem.now behind.now ≡ Some words) }
    ensures bad_brackets { (result ≡ Err ExpandError.BadBrackets)
        ↔ (bracketed stem.now behind.now ≡ None) }
{
    match place_of(']', behind) {
        Some(close) if !stem.is_empty() && close + 1 == behind.len() => {
            Ok(words(alloc, stem, &behind[..close])?)
        }
        _ => Err(ExpandError::BadBrackets),
    }
}

/// The first place of the character.
fn place_of(c: char, text: &[char]) -> Option<usize>
    ensures place { result ≡ position_from (λ d. d == c) 0 text.now }
    ensures within { IfSome result (λ k. k < length text.now) }
{
    text.iter().position(|d| *d == c)
}

/// The stem, and then the words with more and more of the optional part.
fn words(alloc: Global, stem: &[char], optional: &[char]) -> Result<List<List<char>>, Memory>
    ensures { IfOk result (λ all. all ≡ words stem.now optional.now) }
{
    let mut words = List::new(alloc);
    words.push(List::from_slice(alloc, stem)?)?;
    let mut word = Vec::from_slice(alloc, stem)?;
    for c in optional {
        word.push(*c)?;
        words.push(List::from_slice(alloc, word.as_slice())?)?;
    }
    Ok(words)
}
