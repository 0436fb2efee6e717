//! The pieces of an item's command.
ghost use Rattle.std.specs.Prelude.{◌≡◌, ◌∷◌, ◌++◌, [], None, Some};
ghost use Rattle.syn_words.specs.Answers.{AnswersAs, LeavesAs, TakesAs};
ghost use Rattle.syn_words.specs.Pieces as spec;

use crate::arguments::{front_run, value_start};
use crate::lists::list_value;
use crate::names::group_name;
use crate::options::{OptionWord, option_of};
use crate::quoted::quote;
use crate::refusal::WordRefusal;
use crate::{BoxedQuoted, Cause, Field, Flag, ItemCommand, Piece, Role};
use std::alloc::Global;
use syn_base::List;
use text_scan::front;
use word_reader::{Reader, Until, begins, can_delimit, past};
use word_values::is_none;

/// Which patterns an item has so far.
#[derive(Clone, Copy)]
pub(crate) struct Seen {
    pub pattern: bool,
    pub start: bool,
    pub skip: bool,
    pub end_: bool,
}

const NOTHING_SEEN: Seen = Seen {
    pattern: false,
    start: false,
    skip: false,
    end_: false,
};

fn with_role(seen: Seen, role: Role) -> Seen
    ensures { result ≡ spec.with_role seen role }
{
    match role {
        Role::Match => Seen {
            pattern: true,
            ..seen
        },
        Role::Start => Seen {
            start: true,
            ..seen
        },
        Role::Skip => Seen { skip: true, ..seen },
        Role::End => Seen { end_: true, ..seen },
    }
}

fn with_piece(seen: Seen, piece: &Piece) -> Seen
    ensures { result ≡ spec.with_piece seen piece.now }
{
    match piece {
        Piece::Quote(role, _) => with_role(seen, *role),
        _ => seen,
    }
}

/// The part that an item lacks.
fn missing(kind: ItemCommand, seen: Seen) -> Option<Cause>
    ensures { result ≡ spec.missing kind seen }
{
    match kind {
        ItemCommand::Keyword => None,
        ItemCommand::Match => {
            if seen.pattern {
                None
            } else {
                Some(Cause::NoPattern)
            }
        }
        ItemCommand::Region => {
            if !seen.start {
                Some(Cause::NoStart)
            } else if !seen.end_ {
                Some(Cause::NoEnd)
            } else {
                None
            }
        }
    }
}

/// A character and no more.
fn only_character(word: &[char]) -> Result<char, Cause>
    ensures { result ≡ spec.only_character word.now }
{
    match front(word) {
        None => Err(Cause::UnknownOption),
        Some((c, more)) => match front(more) {
            None => Ok(c),
            Some(_) => Err(Cause::UnknownOption),
        },
    }
}

fn cchar(reader: &mut Reader<'_>) -> Result<Piece, WordRefusal>
    ensures { TakesAs result reader.new (spec.cchar reader.old) }
{
    value_start(reader)?;
    let c = only_character(front_run(Until::Word, reader.rest()))?;
    reader.skip_run(Until::Word);
    Ok(Piece::Cchar(c))
}

fn may_be_special(field: Field) -> bool
    ensures { result ≡ spec.may_be_special field }
{
    match field {
        Field::Contains | Field::Containedin => true,
        Field::Nextgroup => false,
    }
}

fn names(alloc: Global, field: Field, reader: &mut Reader<'_>) -> Result<Piece, WordRefusal>
    ensures { TakesAs result reader.new (spec.names field reader.old) }
{
    let list = list_value(alloc, may_be_special(field), reader)?;
    Ok(Piece::Names(field, list))
}

fn group_or_none(word: List<char>) -> Result<List<char>, Cause>
    ensures { result ≡ spec.group_or_none word }
{
    if is_none(word.as_slice()) {
        return Ok(word);
    }
    group_name(word)
}

fn matchgroup(alloc: Global, reader: &mut Reader<'_>) -> Result<Piece, WordRefusal>
    ensures { TakesAs result reader.new (spec.matchgroup reader.old) }
{
    value_start(reader)?;
    let word = reader.run(alloc, Until::Word)?;
    let name = group_or_none(word)?;
    Ok(Piece::Matchgroup(name))
}

fn quote_as(alloc: Global, role: Role, reader: &mut Reader<'_>) -> Result<Piece, WordRefusal>
    ensures { TakesAs result reader.new (spec.quote_as role reader.old) }
{
    let quoted = quote(alloc, reader)?;
    Ok(Piece::Quote(role, BoxedQuoted::new(alloc, quoted)?))
}

fn is_skip(role: Role) -> bool
    ensures { result ≡ spec.is_skip role }
{
    match role {
        Role::Skip => true,
        _ => false,
    }
}

/// A pattern of a region, behind its equals sign.
fn region_quote(
    alloc: Global,
    seen: Seen,
    role: Role,
    reader: &mut Reader<'_>,
) -> Result<Piece, WordRefusal>
    ensures { TakesAs result reader.new (spec.region_quote seen role reader.old) }
{
    if is_skip(role) && seen.skip {
        return Err(WordRefusal::Fault(Cause::TwoSkips));
    }
    reader.skip_blanks();
    quote_as(alloc, role, reader)
}

fn begins_pattern(text: &[char]) -> bool
    ensures { result ≡ spec.begins_pattern text.now }
{
    match front(text) {
        None => false,
        Some((c, _)) => can_delimit(c),
    }
}

/// A word that is no option of its command.
fn plain_piece(
    alloc: Global,
    kind: ItemCommand,
    seen: Seen,
    reader: &mut Reader<'_>,
) -> Result<Piece, WordRefusal>
    ensures { TakesAs result reader.new (spec.plain_piece kind seen reader.old) }
{
    match kind {
        ItemCommand::Keyword => {
            let word = reader.run(alloc, Until::Word)?;
            Ok(Piece::Word(word))
        }
        ItemCommand::Match => {
            if begins_pattern(reader.rest()) && !seen.pattern {
                quote_as(alloc, Role::Match, reader)
            } else {
                Err(WordRefusal::Fault(Cause::UnknownOption))
            }
        }
        ItemCommand::Region => Err(WordRefusal::Fault(Cause::UnknownOption)),
    }
}

/// An option without a value.
fn flag_piece(
    alloc: Global,
    kind: ItemCommand,
    seen: Seen,
    flag: Flag,
    reader: &mut Reader<'_>,
) -> Result<Piece, WordRefusal>
    ensures { TakesAs result reader.new (spec.flag_piece kind seen flag reader.old) }
{
    if begins('=', past(Until::Key, reader.rest())) {
        return plain_piece(alloc, kind, seen, reader);
    }
    reader.skip_run(Until::Key);
    Ok(Piece::Has(flag))
}

fn is_contains(field: Field) -> bool
    ensures { result ≡ spec.is_contains field }
{
    match field {
        Field::Contains => true,
        _ => false,
    }
}

fn is_keyword(kind: ItemCommand) -> bool
    ensures { result ≡ spec.is_keyword kind }
{
    match kind {
        ItemCommand::Keyword => true,
        _ => false,
    }
}

fn is_region(kind: ItemCommand) -> bool
    ensures { result ≡ spec.is_region kind }
{
    match kind {
        ItemCommand::Region => true,
        _ => false,
    }
}

fn is_match(kind: ItemCommand) -> bool
    ensures { result ≡ spec.is_match kind }
{
    match kind {
        ItemCommand::Match => true,
        _ => false,
    }
}

/// Passes a key and the equals sign behind it.
fn skip_key(reader: &mut Reader<'_>) -> Result<(), WordRefusal>
    ensures { LeavesAs result reader.new (spec.behind_key reader.old) }
{
    reader.skip_run(Until::Key);
    if !reader.has_equals() {
        return Err(WordRefusal::Fault(Cause::UnknownOption));
    }
    reader.skip_equals();
    Ok(())
}

fn names_piece(
    alloc: Global,
    kind: ItemCommand,
    field: Field,
    reader: &mut Reader<'_>,
) -> Result<Piece, WordRefusal>
    ensures { TakesAs result reader.new (spec.names_piece kind field reader.old) }
{
    if is_keyword(kind) && is_contains(field) {
        return Err(WordRefusal::Fault(Cause::OptionHere));
    }
    skip_key(reader)?;
    names(alloc, field, reader)
}

fn cchar_piece(reader: &mut Reader<'_>) -> Result<Piece, WordRefusal>
    ensures { TakesAs result reader.new (spec.cchar_piece reader.old) }
{
    skip_key(reader)?;
    cchar(reader)
}

fn matchgroup_piece(
    alloc: Global,
    kind: ItemCommand,
    seen: Seen,
    reader: &mut Reader<'_>,
) -> Result<Piece, WordRefusal>
    ensures { TakesAs result reader.new (spec.matchgroup_piece kind seen reader.old) }
{
    if !is_region(kind) {
        return plain_piece(alloc, kind, seen, reader);
    }
    skip_key(reader)?;
    matchgroup(alloc, reader)
}

fn quote_piece(
    alloc: Global,
    kind: ItemCommand,
    seen: Seen,
    role: Role,
    reader: &mut Reader<'_>,
) -> Result<Piece, WordRefusal>
    ensures { TakesAs result reader.new (spec.quote_piece kind seen role reader.old) }
{
    if !is_region(kind) {
        return plain_piece(alloc, kind, seen, reader);
    }
    skip_key(reader)?;
    region_quote(alloc, seen, role, reader)
}

/// The piece that begins here.
fn piece_at(
    alloc: Global,
    kind: ItemCommand,
    seen: Seen,
    reader: &mut Reader<'_>,
) -> Result<Piece, WordRefusal>
    ensures { TakesAs result reader.new (spec.piece_at kind seen reader.old) }
{
    match option_of(front_run(Until::Key, reader.rest())) {
        None => plain_piece(alloc, kind, seen, reader),
        Some(OptionWord::Has(flag)) => flag_piece(alloc, kind, seen, flag, reader),
        Some(OptionWord::Cchar) => cchar_piece(reader),
        Some(OptionWord::Names(field)) => names_piece(alloc, kind, field, reader),
        Some(OptionWord::Matchgroup) => matchgroup_piece(alloc, kind, seen, reader),
        Some(OptionWord::Quote(role)) => quote_piece(alloc, kind, seen, role, reader),
    }
}

/// Whether no piece begins here.
fn pieces_end(kind: ItemCommand, seen: Seen, text: &[char]) -> bool
    ensures { result ≡ spec.pieces_end kind seen text.now }
{
    match front(text) {
        None => true,
        Some((c, _)) => c == '|' || (c == '"' && !(is_match(kind) && !seen.pattern)),
    }
}

/// All pieces, where no part is missing.
fn pieces_whole(
    kind: ItemCommand,
    seen: Seen,
    pieces: List<Piece>,
) -> Result<List<Piece>, WordRefusal>
    ensures { AnswersAs result (spec.pieces_whole (spec.missing kind seen) pieces) }
{
    match missing(kind, seen) {
        None => Ok(pieces),
        Some(cause) => Err(WordRefusal::Fault(cause)),
    }
}

/// Takes the pieces of an item.
pub(crate) fn pieces(
    alloc: Global,
    kind: ItemCommand,
    reader: &mut Reader<'_>,
) -> Result<List<Piece>, WordRefusal>
    ensures { TakesAs result reader.new (spec.pieces kind reader.old) }
{
    let mut seen = NOTHING_SEEN;
    let mut so_far = List::new(alloc);
    let mut turns = reader.rest();
    while let Some((_, fewer)) = front(turns) {
        reader.skip_blanks();
        if pieces_end(kind, seen, reader.rest()) {
            break;
        }
        let piece = piece_at(alloc, kind, seen, reader)?;
        seen = with_piece(seen, &piece);
        so_far.push(piece)?;
        turns = fewer;
    }
    pieces_whole(kind, seen, so_far)
}
