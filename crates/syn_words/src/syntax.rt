//! Syntax commands.
ghost use Rattle.std.specs.Prelude.{◌≡◌, ◌∷◌, ◌++◌, [], Some, None};
ghost use Rattle.syn_words.specs.Answers.{TakesAs};
ghost use Rattle.syn_words.specs.Commands as spec;

use crate::arguments::{argument, front_run, no_more, word_start};
use crate::clusters::changes;
use crate::file_names::file_argument;
use crate::names::{group_argument, group_name};
use crate::pieces::pieces;
use crate::refusal::WordRefusal;
use crate::{Cause, ItemCommand, Named, What};
use std::alloc::Global;
use syn_base::List;
use text_scan::{front, past_blanks};
use word_reader::{Reader, Until, is_over, is_word, past};

/// The word behind `syntax`.
#[derive(Clone, Copy)]
pub(crate) enum Subcommand {
    Item(ItemCommand),
    Cluster,
    Case,
    Iskeyword,
    Include,
    Sync,
    Clear,
    /// One of whose words nothing is asked.
    Quiet,
    /// One that this profile leaves out.
    LeftOut,
}

fn ignored_case(word: &[char]) -> Result<bool, Cause>
    ensures { result ≡ spec.ignored_case word.now }
{
    if is_word(word, "match") {
        Ok(false)
    } else if is_word(word, "ignore") {
        Ok(true)
    } else {
        Err(Cause::UnknownOption)
    }
}

fn case_command(reader: &mut Reader<'_>) -> Result<What, WordRefusal>
    ensures { TakesAs result reader.new (spec.case_command reader.old) }
{
    word_start(reader)?;
    let ignore = ignored_case(front_run(Until::Word, reader.rest()))?;
    reader.skip_run(Until::Word);
    no_more(reader)?;
    Ok(What::CaseIgnore(ignore))
}

fn keyword_set(word: List<char>) -> Option<List<char>>
    ensures { result ≡ spec.keyword_set word }
{
    if is_word(word.as_slice(), "clear") {
        return None;
    }
    Some(word)
}

fn iskeyword_command(alloc: Global, reader: &mut Reader<'_>) -> Result<What, WordRefusal>
    ensures { TakesAs result reader.new (spec.iskeyword_command reader.old) }
{
    let word = argument(alloc, reader)?;
    no_more(reader)?;
    Ok(What::Iskeyword(keyword_set(word)))
}

fn item_command(
    alloc: Global,
    kind: ItemCommand,
    reader: &mut Reader<'_>,
) -> Result<What, WordRefusal>
    ensures { TakesAs result reader.new (spec.item_command kind reader.old) }
{
    let group = group_argument(alloc, reader)?;
    let pieces = pieces(alloc, kind, reader)?;
    Ok(What::Item {
        kind,
        group,
        pieces,
    })
}

fn cluster_command(alloc: Global, reader: &mut Reader<'_>) -> Result<What, WordRefusal>
    ensures { TakesAs result reader.new (spec.cluster_command reader.old) }
{
    let name = group_argument(alloc, reader)?;
    let changes = changes(alloc, reader)?;
    Ok(What::Cluster { name, changes })
}

fn included(
    alloc: Global,
    cluster: Option<List<char>>,
    reader: &mut Reader<'_>,
) -> Result<What, WordRefusal>
    ensures { TakesAs result reader.new (spec.included cluster reader.old) }
{
    let name = file_argument(alloc, reader)?;
    no_more(reader)?;
    Ok(What::Include { cluster, name })
}

/// Behind the at sign of the cluster.
fn include_in(alloc: Global, reader: &mut Reader<'_>) -> Result<What, WordRefusal>
    ensures { TakesAs result reader.new (spec.include_in reader.old) }
{
    let word = reader.run(alloc, Until::Word)?;
    let cluster = group_name(word)?;
    included(alloc, Some(cluster), reader)
}

fn include_command(alloc: Global, reader: &mut Reader<'_>) -> Result<What, WordRefusal>
    ensures { TakesAs result reader.new (spec.include_command reader.old) }
{
    word_start(reader)?;
    if reader.begins('@') {
        reader.skip_one();
        return include_in(alloc, reader);
    }
    included(alloc, None, reader)
}

/// Whether the only word is `fromstart`.
fn is_fromstart(text: &[char]) -> bool
    ensures { result ≡ spec.is_fromstart text.now }
{
    is_word(front_run(Until::Word, text), "fromstart")
        && is_over(past_blanks(past(Until::Word, text)))
}

fn sync_command(reader: &mut Reader<'_>) -> Result<What, WordRefusal>
    ensures { TakesAs result reader.new (spec.sync_command reader.old) }
{
    word_start(reader)?;
    let fromstart = is_fromstart(reader.rest());
    reader.skip_command();
    Ok(What::Sync { fromstart })
}

fn cleared_cluster(alloc: Global, reader: &mut Reader<'_>) -> Result<Named, WordRefusal>
    ensures { TakesAs result reader.new (spec.cleared_cluster reader.old) }
{
    let word = reader.run(alloc, Until::Word)?;
    let name = group_name(word)?;
    Ok(Named::Cluster(name))
}

fn cleared_group(alloc: Global, reader: &mut Reader<'_>) -> Result<Named, WordRefusal>
    ensures { TakesAs result reader.new (spec.cleared_group reader.old) }
{
    let word = reader.run(alloc, Until::Word)?;
    let name = group_name(word)?;
    Ok(Named::Group(name))
}

/// Takes a group or a cluster to be cleared.
fn cleared(alloc: Global, reader: &mut Reader<'_>) -> Result<Named, WordRefusal>
    ensures { TakesAs result reader.new (spec.cleared reader.old) }
{
    if reader.begins('@') {
        reader.skip_one();
        return cleared_cluster(alloc, reader);
    }
    cleared_group(alloc, reader)
}

fn clear_whole(names: List<Named>) -> What
    ensures { result ≡ spec.clear_whole names }
{
    if names.is_empty() {
        return What::ClearAll;
    }
    What::Clear(names)
}

fn clear_command(alloc: Global, reader: &mut Reader<'_>) -> Result<What, WordRefusal>
    ensures { TakesAs result reader.new (spec.clear_command reader.old) }
{
    let mut so_far = List::new(alloc);
    let mut turns = reader.rest();
    while let Some((_, fewer)) = front(turns) {
        reader.skip_blanks();
        if reader.is_over() {
            break;
        }
        let name = cleared(alloc, reader)?;
        so_far.push(name)?;
        turns = fewer;
    }
    Ok(clear_whole(so_far))
}

/// A command of whose words nothing is asked.
pub(crate) fn quiet(reader: &mut Reader<'_>) -> What
    ensures value { result ≡ What.Nothing }
    ensures rest { reader.new ≡ spec.behind_quiet reader.old }
{
    reader.skip_command();
    What::Nothing
}

fn is_quiet_subcommand(word: &[char]) -> bool
    ensures { result ≡ spec.is_quiet_subcommand word.now }
{
    is_word(word, "spell") || is_word(word, "foldlevel") || is_word(word, "conceal")
}

fn is_left_out(word: &[char]) -> bool
    ensures { result ≡ spec.is_left_out word.now }
{
    is_word(word, "on")
        || is_word(word, "off")
        || is_word(word, "enable")
        || is_word(word, "list")
        || is_word(word, "manual")
        || is_word(word, "reset")
}

fn other_subcommand(word: &[char]) -> Option<Subcommand>
    ensures { result ≡ spec.other_subcommand word.now }
{
    if is_word(word, "case") {
        Some(Subcommand::Case)
    } else if is_word(word, "iskeyword") {
        Some(Subcommand::Iskeyword)
    } else if is_word(word, "include") {
        Some(Subcommand::Include)
    } else if is_word(word, "sync") {
        Some(Subcommand::Sync)
    } else if is_word(word, "clear") {
        Some(Subcommand::Clear)
    } else if is_quiet_subcommand(word) {
        Some(Subcommand::Quiet)
    } else if is_left_out(word) {
        Some(Subcommand::LeftOut)
    } else {
        None
    }
}

fn subcommand_of(word: &[char]) -> Option<Subcommand>
    ensures { result ≡ spec.subcommand_of word.now }
{
    if is_word(word, "keyword") {
        Some(Subcommand::Item(ItemCommand::Keyword))
    } else if is_word(word, "match") {
        Some(Subcommand::Item(ItemCommand::Match))
    } else if is_word(word, "region") {
        Some(Subcommand::Item(ItemCommand::Region))
    } else if is_word(word, "cluster") {
        Some(Subcommand::Cluster)
    } else {
        other_subcommand(word)
    }
}

/// Takes a command behind its word `syntax`.
pub(crate) fn syntax_command(alloc: Global, reader: &mut Reader<'_>) -> Result<What, WordRefusal>
    ensures { TakesAs result reader.new (spec.syntax_command reader.old) }
{
    word_start(reader)?;
    let word = front_run(Until::Word, reader.rest());
    reader.skip_run(Until::Word);
    match subcommand_of(word) {
        None => Err(WordRefusal::Fault(Cause::UnknownSubcommand)),
        Some(Subcommand::Item(kind)) => item_command(alloc, kind, reader),
        Some(Subcommand::Cluster) => cluster_command(alloc, reader),
        Some(Subcommand::Case) => case_command(reader),
        Some(Subcommand::Iskeyword) => iskeyword_command(alloc, reader),
        Some(Subcommand::Include) => include_command(alloc, reader),
        Some(Subcommand::Sync) => sync_command(reader),
        Some(Subcommand::Clear) => clear_command(alloc, reader),
        Some(Subcommand::Quiet) => Ok(quiet(reader)),
        Some(Subcommand::LeftOut) => {
            let word = List::from_slice(alloc, word)?;
            Err(WordRefusal::Fault(Cause::NotInProfile { word }))
        }
    }
}
