//! Names of groups and clusters.
ghost use Rattle.std.specs.Prelude.{◌≡◌};
ghost use Rattle.syn_words.specs.Answers.{TakesAs};
ghost use Rattle.syn_words.specs.Names as spec;

use crate::arguments::argument;
use crate::refusal::WordRefusal;
use crate::{Cause, Named};
use std::alloc::Global;
use syn_base::List;
use word_reader::Reader;
use word_values::{is_group_name, is_listed, is_pattern, is_reserved};

/// The word as a name outside a list.
pub(crate) fn group_name(word: List<char>) -> Result<List<char>, Cause>
    ensures { result ≡ spec.group_name word }
{
    if !is_group_name(word.as_slice()) {
        return Err(Cause::BadGroupName);
    }
    if is_reserved(word.as_slice()) {
        return Err(Cause::ReservedName);
    }
    Ok(word)
}

/// Takes the next word as a name.
pub(crate) fn group_argument(
    alloc: Global,
    reader: &mut Reader<'_>,
) -> Result<List<char>, WordRefusal>
    ensures { TakesAs result reader.new (spec.group_argument reader.old) }
{
    let word = argument(alloc, reader)?;
    let name = group_name(word)?;
    Ok(name)
}

/// A name of a list.
pub(crate) fn group_in_list(word: List<char>) -> Result<Named, Cause>
    ensures { result ≡ spec.group_in_list word }
{
    if is_pattern(word.as_slice()) {
        return Ok(Named::Names(word));
    }
    if is_listed(word.as_slice()) {
        return Ok(Named::Group(word));
    }
    Err(Cause::BadList)
}

/// A name of a list that has an at sign before it.
pub(crate) fn cluster_in_list(word: List<char>) -> Result<Named, Cause>
    ensures { result ≡ spec.cluster_in_list word }
{
    if is_listed(word.as_slice()) {
        return Ok(Named::Cluster(word));
    }
    Err(Cause::BadList)
}
