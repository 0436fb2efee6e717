//! Calls of `keyword_table`.
//!
//!     keywords WORD ~WORD ?WORD    words that are added in this order, each for the next item, from 0: as they
//!                                  stand, or with case ignored; and words whose candidates are asked for then
//!     expand WORD                  the words of an abbreviation
//!     word_end LINE COLUMN         the column behind the word at this one, from 0

ghost use Rattle.std.specs.Prelude.{◌≤◌};

use crate::answer::{add_found, begin_answer, write_characters};
use crate::fault::{Fault, number_of};
use char_class::Sets;
use keyword_table::{ExpandError, Keywords, expand, word_end};
use std::alloc::Global;
use syn_base::{ItemId, List};

pub(crate) fn candidates(
    alloc: Global,
    arguments: &[&str],
    answers: &mut String,
) -> Result<(), Fault> {
    let mut keywords = Keywords::new(alloc);
    for argument in arguments {
        define_or_ask(alloc, &mut keywords, argument, answers)?;
    }
    write_count(answers, keywords.len())
}

/// Writes how many words there are.
fn write_count(answers: &mut String, count: usize) -> Result<(), Fault> {
    begin_answer(answers)?;
    write!(answers, "words={count}")?;
    Ok(())
}

/// Adds a word, or asks for the candidates of one.
fn define_or_ask(
    alloc: Global,
    keywords: &mut Keywords,
    argument: &str,
    answers: &mut String,
) -> Result<(), Fault> {
    if let Some(word) = argument.strip_prefix('?') {
        return ask(alloc, keywords, word, answers);
    }
    match argument.strip_prefix('~') {
        Some(word) => define(alloc, keywords, word, true),
        None => define(alloc, keywords, argument, false),
    }
}

/// Adds a word for the next item.
fn define(alloc: Global, keywords: &mut Keywords, word: &str, ignore: bool) -> Result<(), Fault> {
    let Ok(item) = u32::try_from(keywords.len()) else {
        return Err(Fault::BadCase);
    };
    let word = List::from_chars(alloc, word)?;
    keywords.add(word, ItemId(item), ignore)?;
    Ok(())
}

/// Tells a word, and the numbers of the items that it starts.
fn ask(alloc: Global, keywords: &Keywords, word: &str, answers: &mut String) -> Result<(), Fault> {
    let characters = List::from_chars(alloc, word)?;
    let items = keywords.candidates(alloc, characters.as_slice())?;
    write_items(answers, word, items.as_slice())
}

fn write_items(answers: &mut String, word: &str, items: &[ItemId]) -> Result<(), Fault> {
    begin_answer(answers)?;
    write!(answers, "{word}=")?;
    let mut between = "";
    for item in items {
        let number = item.0;
        write!(answers, "{between}{number}")?;
        between = ",";
    }
    Ok(())
}

pub(crate) fn expansions(
    alloc: Global,
    arguments: &[&str],
    answer: &mut String,
) -> Result<(), Fault> {
    let [text] = arguments else {
        return Err(Fault::BadCase);
    };
    let text = List::from_chars(alloc, text)?;
    let words = expand(alloc, text.as_slice());
    write_words(answer, &words)
}

/// Writes words with a blank between any two, or that there are none.
fn write_words(
    answer: &mut String,
    words: &Result<List<List<char>>, ExpandError>,
) -> Result<(), Fault> {
    match words {
        Ok(words) => {
            for word in words.as_slice() {
                begin_answer(answer)?;
                write_characters(answer, word.as_slice())?;
            }
        }
        Err(ExpandError::BadBrackets) => answer.push_str("bad brackets")?,
        Err(ExpandError::Memory) => return Err(Fault::Memory),
    }
    Ok(())
}

pub(crate) fn end_of_word(
    alloc: Global,
    arguments: &[&str],
    answer: &mut String,
) -> Result<(), Fault> {
    let [line, column] = arguments else {
        return Err(Fault::BadCase);
    };
    let column = number_of(column)?;
    let line = List::from_chars(alloc, line)?;
    if column > line.len() {
        return Err(Fault::BadCase);
    }
    let end = word_end(line.as_slice(), column, &Sets::usual().keyword);
    add_found(answer, end)
}
