//! Names of files.
ghost use Rattle.std.specs.Prelude.{◌≡◌};
ghost use Rattle.syn_words.specs.Answers.{AnswersAs, TakesAs};
ghost use Rattle.syn_words.specs.FileNames as spec;

use crate::Cause;
use crate::arguments::argument;
use crate::refusal::WordRefusal;
use std::alloc::Global;
use syn_base::List;
use word_reader::Reader;
use word_values::{in_folder, is_file_name};

fn file_name(alloc: Global, word: List<char>) -> Result<List<char>, WordRefusal>
    ensures { AnswersAs result (spec.file_name word) }
{
    if !is_file_name(word.as_slice()) {
        return Err(WordRefusal::Fault(Cause::BadFileName));
    }
    let name = in_folder(alloc, word)?;
    Ok(name)
}

/// Takes the next word as a file's name.
pub(crate) fn file_argument(
    alloc: Global,
    reader: &mut Reader<'_>,
) -> Result<List<char>, WordRefusal>
    ensures { TakesAs result reader.new (spec.file_argument reader.old) }
{
    let word = argument(alloc, reader)?;
    let name = file_name(alloc, word)?;
    Ok(name)
}
