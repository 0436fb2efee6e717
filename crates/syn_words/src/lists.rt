//! Lists of groups.
ghost use Rattle.std.specs.Prelude.{◌≡◌, ◌∷◌, ◌++◌, [], OnOk};
ghost use Rattle.syn_words.specs.Answers.{TakesAs};
ghost use Rattle.syn_words.specs.Lists as spec;

use crate::NamedList;
use crate::arguments::value_start;
use crate::names::{cluster_in_list, group_in_list};
use crate::refusal::WordRefusal;
use std::alloc::Global;
use syn_base::List;
use syntax_set::Special;
use text_scan::front;
use word_reader::{Reader, Until};
use word_values::special_of;

fn no_names(alloc: Global) -> NamedList
    ensures { result ≡ spec.no_names }
{
    NamedList {
        special: Special::Plain,
        names: List::new(alloc),
    }
}

/// Puts the cluster behind an at sign into a list.
fn with_cluster(
    alloc: Global,
    list: NamedList,
    reader: &mut Reader<'_>,
) -> Result<NamedList, WordRefusal>
    ensures { TakesAs result reader.new (spec.with_cluster list reader.old) }
{
    let NamedList { special, mut names } = list;
    let word = reader.run(alloc, Until::ListName)?;
    let named = cluster_in_list(word)?;
    names.push(named)?;
    Ok(NamedList { special, names })
}

/// One name more, which may be a special word.
fn with_word(
    alloc: Global,
    may_be_special: bool,
    list: NamedList,
    reader: &mut Reader<'_>,
) -> Result<NamedList, WordRefusal>
    ensures { TakesAs result reader.new (spec.with_word_here may_be_special list reader.old) }
{
    let NamedList { special, mut names } = list;
    let word = reader.run(alloc, Until::ListName)?;
    match special_here(may_be_special, word.as_slice()) {
        Special::Plain => {
            let named = group_in_list(word)?;
            names.push(named)?;
            Ok(NamedList { special, names })
        }
        found => Ok(NamedList {
            special: found,
            names,
        }),
    }
}

fn special_here(may_be_special: bool, word: &[char]) -> Special
    ensures { result ≡ spec.special_here may_be_special word.now }
{
    if may_be_special {
        special_of(word)
    } else {
        Special::Plain
    }
}

/// One name more.
fn with_name(
    alloc: Global,
    may_be_special: bool,
    list: NamedList,
    reader: &mut Reader<'_>,
) -> Result<NamedList, WordRefusal>
    ensures { TakesAs result reader.new (spec.with_name may_be_special list reader.old) }
{
    if reader.begins('@') {
        reader.skip_one();
        with_cluster(alloc, list, reader)
    } else {
        with_word(alloc, may_be_special, list, reader)
    }
}

/// The list that begins here.
fn names_from(
    alloc: Global,
    may_be_special: bool,
    reader: &mut Reader<'_>,
) -> Result<NamedList, WordRefusal>
    ensures { TakesAs result reader.new (spec.names_from may_be_special reader.old) }
{
    let mut list = no_names(alloc);
    let mut may_be_special = may_be_special;
    let mut turns = reader.rest();
    while let Some((_, fewer)) = front(turns) {
        list = with_name(alloc, may_be_special, list, reader)?;
        reader.skip_blanks();
        if !reader.begins(',') {
            return Ok(list);
        }
        reader.skip_one();
        reader.skip_blanks();
        may_be_special = false;
        turns = fewer;
    }
    Ok(list)
}

/// The list behind an equals sign; the first name may be a special word where items are asked for.
pub(crate) fn list_value(
    alloc: Global,
    may_be_special: bool,
    reader: &mut Reader<'_>,
) -> Result<NamedList, WordRefusal>
    ensures { TakesAs result reader.new (spec.list_value may_be_special reader.old) }
{
    value_start(reader)?;
    names_from(alloc, may_be_special, reader)
}
