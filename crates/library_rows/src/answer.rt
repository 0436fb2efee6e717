//! How answers are written: a blank stands between any two of a line.

use crate::fault::Fault;

/// Writes the blank in front of an answer that isn't the first.
pub(crate) fn begin_answer(answers: &mut String) -> Result<(), Fault> {
    if !answers.is_empty() {
        answers.push(' ')?;
    }
    Ok(())
}

/// Adds a word, or a dash for an empty one.
pub(crate) fn add_word(answers: &mut String, word: &str) -> Result<(), Fault> {
    begin_answer(answers)?;
    answers.push_str(if word.is_empty() { "-" } else { word })?;
    Ok(())
}

/// Adds `yes` or `no`.
pub(crate) fn add_whether(answers: &mut String, holds: bool) -> Result<(), Fault> {
    add_word(answers, if holds { "yes" } else { "no" })
}

/// Adds a number.
pub(crate) fn add_number(answers: &mut String, number: usize) -> Result<(), Fault> {
    begin_answer(answers)?;
    write!(answers, "{number}")?;
    Ok(())
}

/// Adds the number that was found, or `none`.
pub(crate) fn add_found(answers: &mut String, found: Option<usize>) -> Result<(), Fault> {
    match found {
        Some(number) => add_number(answers, number),
        None => add_word(answers, "none"),
    }
}

/// Adds bytes as they are printed, or a dash for none.
pub(crate) fn add_bytes(answers: &mut String, bytes: &[u8]) -> Result<(), Fault> {
    if bytes.is_empty() {
        return add_word(answers, "-");
    }
    begin_answer(answers)?;
    print_bytes(answers, bytes)
}

/// Writes bytes as they are printed.
pub(crate) fn print_bytes(answer: &mut String, bytes: &[u8]) -> Result<(), Fault> {
    let escaped = bytes.escape_ascii();
    write!(answer, "{escaped}")?;
    Ok(())
}

/// Writes characters as they are.
pub(crate) fn write_characters(answer: &mut String, characters: &[char]) -> Result<(), Fault> {
    for c in characters {
        answer.push(*c)?;
    }
    Ok(())
}
