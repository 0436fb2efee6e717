//! What an attempt is made with, as a case tells it.
//!
//! Behind the pattern stand a text, whose lines are parted by `/`, the place of the start as
//! `line:column`, and the budget. Then options may stand: `ignore`, where case is ignored, and texts of
//! external groups, as `1=text`. There is a tab between any two. Lines and columns count from 0.

ghost use Rattle.std.specs.Prelude.{◌<◌, ◌≤◌, IsTrue, length};
ghost use Rattle.match_rules.specs.Ways.{IsPlaceOf};

use std::alloc::Global;
use syn_base::{Externals, Lines, List, Memory, Place};
use text_buffer::{Text, TextError};

/// How many external groups a pattern has at most.
const EXTERNALS: usize = 9;

/// The option that case is ignored.
const IGNORE: &str = "ignore";

/// What an attempt is made with.
#[derive(Drop)]
pub(crate) struct Trial {
    pub text: Text,
    pub start: Place,
    pub budget: u64,
    pub ignore: bool,
    pub externals: Externals,
}

/// The fields that tell it.
#[derive(Clone, Copy)]
struct Fields<'a> {
    text: &'a str,
    start: &'a str,
    budget: &'a str,
    /// What stands behind the budget, if something does.
    options: Option<&'a str>,
}

impl<'a> Fields<'a> {
    fn read(fields: &'a str) -> Option<Fields<'a>> {
        let (text, fields) = fields.split_once('\t')?;
        let (start, fields) = fields.split_once('\t')?;
        let (budget, options) = match fields.split_once('\t') {
            Some((budget, options)) => (budget, Some(options)),
            None => (fields, None),
        };
        Some(Fields {
            text,
            start,
            budget,
            options,
        })
    }
}

impl Trial {
    /// What these fields tell, if they are in form.
    pub(crate) fn read(alloc: Global, fields: &str) -> Result<Option<Trial>, Memory> {
        let Some(fields) = Fields::read(fields) else {
            return Ok(None);
        };
        let (Some(start), Ok(budget)) = (read_place(fields.start), fields.budget.parse()) else {
            return Ok(None);
        };
        if !are_options(fields.options) {
            return Ok(None);
        }
        let Some(text) = read_text(alloc, fields.text)? else {
            return Ok(None);
        };
        Ok(Some(Trial {
            text,
            start,
            budget,
            ignore: has_ignore(fields.options),
            externals: read_externals(alloc, fields.options)?,
        }))
    }

    /// Whether an attempt can be made: the start is a place of the text, and there is a budget.
    pub(crate) fn is_possible(&self) -> bool
        ensures { IsTrue result → (1 ≤ self.now.budget)
            × (self.now.start.line < length self.now.text.lines)
            × IsPlaceOf self.now.text.lines self.now.start }
    {
        self.budget > 0
            && self.start.line < self.text.len()
            && self.start.col <= self.text.line(self.start.line).len()
    }
}

/// A place, as `line:column`.
fn read_place(text: &str) -> Option<Place> {
    let (line, col) = text.split_once(':')?;
    Some(Place {
        line: line.parse().ok()?,
        col: col.parse().ok()?,
    })
}

/// The text of lines that are parted by `/`.
fn read_text(alloc: Global, lines: &str) -> Result<Option<Text>, Memory> {
    let mut bytes = Vec::new(alloc);
    for byte in lines.bytes() {
        bytes.push(if byte == b'/' { b'\n' } else { byte })?;
    }
    match Text::from_bytes(alloc, &bytes) {
        Ok(text) => Ok(Some(text)),
        Err(TextError::Memory) => Err(Memory),
        Err(_) => Ok(None),
    }
}

/// Whether each option is `ignore`, or a text of an external group.
fn are_options(options: Option<&str>) -> bool {
    match options {
        Some(options) => options.split('\t').all(|option| option == IGNORE
            || read_external(option).is_some()),
        None => true,
    }
}

/// Whether `ignore` is among the options.
fn has_ignore(options: Option<&str>) -> bool {
    match options {
        Some(options) => options.split('\t').any(|option| option == IGNORE),
        None => false,
    }
}

/// The number and the text of an external group, as `1=text`.
fn read_external(option: &str) -> Option<(usize, &str)> {
    let (number, text) = option.split_once('=')?;
    let number = number.parse().ok()?;
    if 1 <= number && number <= EXTERNALS {
        Some((number, text))
    } else {
        None
    }
}

/// The texts of the external groups that the options give; the others are empty.
fn read_externals(alloc: Global, options: Option<&str>) -> Result<Externals, Memory> {
    let mut texts = List::new(alloc);
    for index in 0..EXTERNALS {
        let text = external_of(options, index + 1);
        texts.push(List::from_chars(alloc, text)?)?;
    }
    Ok(Externals::from_parts(texts))
}

/// The text that the first such option gives for the external group of that number, or an empty one.
fn external_of(options: Option<&str>, number: usize) -> &str {
    if let Some(options) = options {
        for option in options.split('\t') {
            if let Some((told, text)) = read_external(option) {
                if told == number {
                    return text;
                }
            }
        }
    }
    ""
}
