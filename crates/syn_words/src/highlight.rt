//! Highlight commands.
ghost use Rattle.std.specs.Prelude.{◌≡◌, true, false};
ghost use Rattle.syn_words.specs.Answers.{TakesAs};
ghost use Rattle.syn_words.specs.Highlight as spec;

use crate::arguments::{argument, no_more};
use crate::names::{group_argument, group_name};
use crate::refusal::WordRefusal;
use crate::styles::style_parts;
use crate::{Cause, What};
use std::alloc::Global;
use syn_base::List;
use word_reader::{Reader, is_word};
use word_values::is_none;

/// The group that a link leads to, or none.
fn link_target(word: List<char>) -> Result<Option<List<char>>, Cause>
    ensures { result ≡ spec.link_target word }
{
    if is_none(word.as_slice()) {
        return Ok(None);
    }
    match group_name(word) {
        Ok(name) => Ok(Some(name)),
        Err(cause) => Err(cause),
    }
}

fn link_command(
    alloc: Global,
    unset: bool,
    force: bool,
    reader: &mut Reader<'_>,
) -> Result<What, WordRefusal>
    ensures { TakesAs result reader.new (spec.link_command unset force reader.old) }
{
    let from = group_argument(alloc, reader)?;
    let word = argument(alloc, reader)?;
    let to = link_target(word)?;
    no_more(reader)?;
    Ok(What::Link {
        from,
        to,
        unset,
        force,
    })
}

fn style_command(
    alloc: Global,
    unset: bool,
    word: List<char>,
    reader: &mut Reader<'_>,
) -> Result<What, WordRefusal>
    ensures { TakesAs result reader.new (spec.style_command unset word reader.old) }
{
    let group = group_name(word)?;
    let parts = style_parts(alloc, reader)?;
    Ok(What::Style {
        group,
        parts,
        unset,
    })
}

/// By the word that is `link` or the group of a style.
fn link_or_style(
    alloc: Global,
    unset: bool,
    force: bool,
    word: List<char>,
    reader: &mut Reader<'_>,
) -> Result<What, WordRefusal>
    ensures { TakesAs result reader.new (spec.link_or_style unset force word reader.old) }
{
    if is_word(word.as_slice(), "link") {
        return link_command(alloc, unset, force, reader);
    }
    style_command(alloc, unset, word, reader)
}

fn is_default(word: &[char]) -> bool
    ensures { result ≡ spec.is_default word.now }
{
    is_word(word, "default") || is_word(word, "def")
}

/// Behind `default`.
fn unset_command(alloc: Global, force: bool, reader: &mut Reader<'_>) -> Result<What, WordRefusal>
    ensures { TakesAs result reader.new (spec.unset_command force reader.old) }
{
    let word = argument(alloc, reader)?;
    link_or_style(alloc, true, force, word, reader)
}

/// Takes a command behind its word `highlight`; `force` says that `!` stands there.
pub(crate) fn highlight_command(
    alloc: Global,
    force: bool,
    reader: &mut Reader<'_>,
) -> Result<What, WordRefusal>
    ensures { TakesAs result reader.new (spec.highlight_command force reader.old) }
{
    let word = argument(alloc, reader)?;
    if is_default(word.as_slice()) {
        return unset_command(alloc, force, reader);
    }
    link_or_style(alloc, false, force, word, reader)
}
