//! The parts of a style command.
ghost use Rattle.std.specs.Prelude.{◌≡◌, ◌∷◌, ◌++◌, [], OnOk, Ok};
ghost use Rattle.std.specs.Option.{option_to_list};
ghost use Rattle.syn_words.specs.Answers.{AnswersAs, TakesAs};
ghost use Rattle.syn_words.specs.Styles as spec;

use crate::arguments::{front_run, value_start};
use crate::refusal::WordRefusal;
use crate::{Cause, StylePart};
use std::alloc::Global;
use syn_base::{List, Memory};
use text_scan::front;
use word_reader::{Reader, Until, begins, behind_first, is_word};
use word_values::{StyleKey, has_part, rgb, style_key};

/// What the value of a colour says; the name of a colour says nothing.
fn colour(value: &[char]) -> Result<Option<Option<u32>>, Cause>
    ensures { result ≡ spec.colour value.now }
{
    if begins('#', value) {
        return match rgb(behind_first(value)) {
            None => Err(Cause::BadStyle),
            Some(n) => Ok(Some(Some(n))),
        };
    }
    if is_word(value, "NONE") {
        return Ok(Some(None));
    }
    Ok(None)
}

fn shape(value: &[char]) -> StylePart
    ensures { result ≡ spec.shape value.now }
{
    StylePart::Shape {
        bold: has_part(',', "bold", value),
        italic: has_part(',', "italic", value),
        underline: has_part(',', "underline", value),
    }
}

fn front_part(colour: Option<Option<u32>>) -> Option<StylePart>
    ensures { result ≡ spec.front_part colour }
{
    Some(StylePart::Front(colour?))
}

fn back_part(colour: Option<Option<u32>>) -> Option<StylePart>
    ensures { result ≡ spec.back_part colour }
{
    Some(StylePart::Back(colour?))
}

fn style_part(key: StyleKey, value: &[char]) -> Result<Option<StylePart>, Cause>
    ensures { result ≡ spec.style_part key value.now }
{
    match key {
        StyleKey::FrontColour => match colour(value) {
            Ok(found) => Ok(front_part(found)),
            Err(cause) => Err(cause),
        },
        StyleKey::BackColour => match colour(value) {
            Ok(found) => Ok(back_part(found)),
            Err(cause) => Err(cause),
        },
        StyleKey::Shapes => Ok(Some(shape(value))),
        StyleKey::NoEffect => Ok(None),
    }
}

/// The part of a key, whose value begins here.
fn keyed(key: StyleKey, reader: &mut Reader<'_>) -> Result<Option<StylePart>, WordRefusal>
    ensures { TakesAs result reader.new (spec.keyed key reader.old) }
{
    value_start(reader)?;
    let part = style_part(key, front_run(Until::Word, reader.rest()))?;
    reader.skip_run(Until::Word);
    Ok(part)
}

/// Takes one key with its value.
fn style_piece(reader: &mut Reader<'_>) -> Result<Option<StylePart>, WordRefusal>
    ensures { TakesAs result reader.new (spec.style_piece reader.old) }
{
    let Some(key) = style_key(front_run(Until::Key, reader.rest())) else {
        return Err(WordRefusal::Fault(Cause::UnknownOption));
    };
    reader.skip_run(Until::Key);
    if !reader.has_equals() {
        return Err(WordRefusal::Fault(Cause::UnknownOption));
    }
    reader.skip_equals();
    keyed(key, reader)
}

fn push_some(parts: &mut List<StylePart>, part: Option<StylePart>) -> Result<(), Memory>
    ensures { OnOk result (parts.new ≡ parts.old ++ option_to_list part) }
{
    if let Some(part) = part {
        parts.push(part)?;
    }
    Ok(())
}

/// All parts, where there was a key.
fn parts_whole(some: bool, parts: List<StylePart>) -> Result<List<StylePart>, WordRefusal>
    ensures { AnswersAs result (spec.parts_whole some parts) }
{
    if some {
        Ok(parts)
    } else {
        Err(WordRefusal::Fault(Cause::MissingArgument))
    }
}

/// Takes the parts of a style.
pub(crate) fn style_parts(
    alloc: Global,
    reader: &mut Reader<'_>,
) -> Result<List<StylePart>, WordRefusal>
    ensures { TakesAs result reader.new (spec.style_parts reader.old) }
{
    let mut some = false;
    let mut so_far = List::new(alloc);
    let mut turns = reader.rest();
    while let Some((_, fewer)) = front(turns) {
        reader.skip_blanks();
        if reader.is_over() {
            break;
        }
        let part = style_piece(reader)?;
        push_some(&mut so_far, part)?;
        some = true;
        turns = fewer;
    }
    parts_whole(some, so_far)
}
