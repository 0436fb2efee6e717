//! What the words of a command hold, before anything is made of it.
ghost use Rattle.std.specs.Prelude.{◌≡◌};
ghost use Rattle.syn_reader.specs.Answers.{Gives, Makes};
ghost use Rattle.syn_reader.specs.Clusters as clusters;
ghost use Rattle.syn_reader.specs.Contents as spec;

use crate::abbreviation::{Words, words_of};
use crate::boxed_pattern::BoxedPattern;
use crate::patterns::Patterns;
use crate::read_list::{ReadList, list_read};
use crate::refusal::Refusal;
use std::alloc::Global;
use syn_base::List;
use syn_words::{Field, Flag, NamedList, Piece, Role};
use syntax_set::{Change, Groups};

/// A part of a cluster command, read.
#[derive(Drop)]
pub(crate) struct ReadChange {
    pub how: Change,
    pub list: ReadList,
}

/// A piece of an item, read.
#[derive(Drop)]
pub(crate) enum Content {
    Has(Flag),
    Cchar(char),
    Names(Field, ReadList),
    Matchgroup(List<char>),
    /// Not yet with its matchgroup and `excludenl`.
    Quote(Role, BoxedPattern),
    /// The words that a keyword stands for.
    Words(Words),
}

/// A piece, read.
fn content_of(
    alloc: Global,
    groups: &Groups,
    patterns: &mut Patterns,
    piece: Piece,
) -> Result<Content, Refusal>
    ensures { Makes result patterns.new (spec.content_of groups.now patterns.old piece) }
{
    match piece {
        Piece::Has(flag) => Ok(Content::Has(flag)),
        Piece::Cchar(c) => Ok(Content::Cchar(c)),
        Piece::Names(field, list) => Ok(Content::Names(field, list_read(alloc, groups, list)?)),
        Piece::Matchgroup(name) => Ok(Content::Matchgroup(name)),
        Piece::Quote(role, quoted) => {
            let pattern = patterns.read(alloc, role, quoted.into_quoted())?;
            Ok(Content::Quote(role, BoxedPattern::new(alloc, pattern)?))
        }
        Piece::Word(text) => Ok(Content::Words(words_of(alloc, text)?)),
    }
}

/// All pieces, read by the groups that are named before the command.
pub(crate) fn contents_of(
    alloc: Global,
    groups: &Groups,
    patterns: &mut Patterns,
    pieces: List<Piece>,
) -> Result<List<Content>, Refusal>
    ensures { Makes result patterns.new (spec.contents_of groups.now patterns.old pieces) }
{
    let mut contents = List::from_vec(Vec::with_capacity(alloc, pieces.len())?);
    for piece in pieces.into_vec() {
        contents.push(content_of(alloc, groups, patterns, piece)?)?;
    }
    Ok(contents)
}

/// The parts of a cluster command, read by the groups that are named before it.
pub(crate) fn changes_read(
    alloc: Global,
    groups: &Groups,
    changes: List<(Change, NamedList)>,
) -> Result<List<ReadChange>, Refusal>
    ensures { Gives result (clusters.changes_read groups.now changes) }
{
    let mut read = List::new(alloc);
    for (how, list) in changes.into_vec() {
        let list = list_read(alloc, groups, list)?;
        read.push(ReadChange { how, list })?;
    }
    Ok(read)
}
