//! The parts of a cluster command.
ghost use Rattle.std.specs.Prelude.{◌≡◌, ◌∷◌, ◌++◌, []};
ghost use Rattle.syn_words.specs.Answers.{AnswersAs, TakesAs};
ghost use Rattle.syn_words.specs.Clusters as spec;

use crate::arguments::front_run;
use crate::lists::list_value;
use crate::refusal::WordRefusal;
use crate::{Cause, NamedList};
use std::alloc::Global;
use syn_base::List;
use syntax_set::Change;
use text_scan::front;
use word_reader::{Reader, Until, is_word_in_any_case};

fn change_of(key: &[char]) -> Option<Change>
    ensures { result ≡ spec.change_of key.now }
{
    if is_word_in_any_case(key, "contains") {
        Some(Change::Set)
    } else if is_word_in_any_case(key, "add") {
        Some(Change::Add)
    } else if is_word_in_any_case(key, "remove") {
        Some(Change::Remove)
    } else {
        None
    }
}

/// Takes one key with its list.
fn change_piece(alloc: Global, reader: &mut Reader<'_>) -> Result<(Change, NamedList), WordRefusal>
    ensures { TakesAs result reader.new (spec.change_piece reader.old) }
{
    let Some(how) = change_of(front_run(Until::Key, reader.rest())) else {
        return Err(WordRefusal::Fault(Cause::UnknownOption));
    };
    reader.skip_run(Until::Key);
    if !reader.has_equals() {
        return Err(WordRefusal::Fault(Cause::UnknownOption));
    }
    reader.skip_equals();
    let list = list_value(alloc, false, reader)?;
    Ok((how, list))
}

/// All changes, where there is one.
fn changes_whole(
    changes: List<(Change, NamedList)>,
) -> Result<List<(Change, NamedList)>, WordRefusal>
    ensures { AnswersAs result (spec.changes_whole changes) }
{
    if changes.is_empty() {
        return Err(WordRefusal::Fault(Cause::MissingArgument));
    }
    Ok(changes)
}

/// Takes the changes of a cluster.
pub(crate) fn changes(
    alloc: Global,
    reader: &mut Reader<'_>,
) -> Result<List<(Change, NamedList)>, WordRefusal>
    ensures { TakesAs result reader.new (spec.changes reader.old) }
{
    let mut so_far = List::new(alloc);
    let mut turns = reader.rest();
    while let Some((_, fewer)) = front(turns) {
        reader.skip_blanks();
        if reader.is_over() {
            break;
        }
        let change = change_piece(alloc, reader)?;
        so_far.push(change)?;
        turns = fewer;
    }
    changes_whole(so_far)
}
