//! Words that a command needs, and where it may take none.
ghost use Rattle.std.specs.Prelude.{◌≡◌};
ghost use Rattle.word_reader.specs.Words as words;
ghost use Rattle.syn_words.specs.Answers.{LeavesAs, TakesAs};
ghost use Rattle.syn_words.specs.Arguments as spec;

use crate::Cause;
use crate::refusal::WordRefusal;
use std::alloc::Global;
use syn_base::List;
use word_reader::{Reader, Until, past};

/// The run of characters at the front of a text.
#[tactic(auto, using(crate::proofs::WordLaws::run_first, crate::proofs::WordLaws::past_shorter))]
pub(crate) fn front_run(until: Until, text: &[char]) -> &[char]
    ensures { result.now ≡ words.run until text.now }
{
    let rest = past(until, text);
    &text[..text.len() - rest.len()]
}

/// Goes to where the next word begins.
pub(crate) fn word_start(reader: &mut Reader<'_>) -> Result<(), WordRefusal>
    ensures { LeavesAs result reader.new (spec.word_start reader.old) }
{
    reader.skip_blanks();
    if reader.is_over() {
        return Err(WordRefusal::Fault(Cause::MissingArgument));
    }
    Ok(())
}

/// Goes to where the value behind an equals sign begins.
pub(crate) fn value_start(reader: &mut Reader<'_>) -> Result<(), WordRefusal>
    ensures { LeavesAs result reader.new (spec.value_start reader.old) }
{
    if reader.rest().is_empty() || reader.begins('|') {
        return Err(WordRefusal::Fault(Cause::MissingArgument));
    }
    if reader.begins(' ') || reader.begins('\t') {
        return word_start(reader);
    }
    Ok(())
}

/// Takes the next word.
pub(crate) fn argument(alloc: Global, reader: &mut Reader<'_>) -> Result<List<char>, WordRefusal>
    ensures { TakesAs result reader.new (spec.argument reader.old) }
{
    word_start(reader)?;
    Ok(reader.run(alloc, Until::Word)?)
}

/// Goes to the end of a command that takes no more words.
pub(crate) fn no_more(reader: &mut Reader<'_>) -> Result<(), WordRefusal>
    ensures { LeavesAs result reader.new (spec.no_more reader.old) }
{
    reader.skip_blanks();
    if reader.is_over() {
        return Ok(());
    }
    Err(WordRefusal::Fault(Cause::ExtraText))
}
