//! Words that stand for options.
ghost use Rattle.std.specs.Prelude.{◌≡◌};
ghost use Rattle.syn_words.specs.Options as spec;

use crate::{Field, Flag, Role};
use word_reader::is_word_in_any_case;

/// What a key of an item's command stands for.
#[derive(Clone, Copy)]
pub(crate) enum OptionWord {
    Has(Flag),
    Cchar,
    Names(Field),
    Matchgroup,
    /// `start`, `skip` or `end`.
    Quote(Role),
}

fn first_flags(key: &[char]) -> Option<Flag>
    ensures { result ≡ spec.first_flags key.now }
{
    if is_word_in_any_case(key, "contained") {
        Some(Flag::Contained)
    } else if is_word_in_any_case(key, "oneline") {
        Some(Flag::Oneline)
    } else if is_word_in_any_case(key, "keepend") {
        Some(Flag::Keepend)
    } else if is_word_in_any_case(key, "extend") {
        Some(Flag::Extend)
    } else if is_word_in_any_case(key, "excludenl") {
        Some(Flag::Excludenl)
    } else if is_word_in_any_case(key, "transparent") {
        Some(Flag::Transparent)
    } else {
        None
    }
}

fn later_flags(key: &[char]) -> Option<Flag>
    ensures { result ≡ spec.later_flags key.now }
{
    if is_word_in_any_case(key, "skipwhite") {
        Some(Flag::Skipwhite)
    } else if is_word_in_any_case(key, "skipnl") {
        Some(Flag::Skipnl)
    } else if is_word_in_any_case(key, "skipempty") {
        Some(Flag::Skipempty)
    } else if is_word_in_any_case(key, "display") {
        Some(Flag::Display)
    } else if is_word_in_any_case(key, "fold") {
        Some(Flag::Fold)
    } else if is_word_in_any_case(key, "conceal") {
        Some(Flag::Conceal)
    } else if is_word_in_any_case(key, "concealends") {
        Some(Flag::Concealends)
    } else {
        None
    }
}

/// The option without a value that a key spells.
fn flag_of(key: &[char]) -> Option<Flag>
    ensures { result ≡ spec.flag_of key.now }
{
    match first_flags(key) {
        Some(flag) => Some(flag),
        None => later_flags(key),
    }
}

/// The option with a value that a key spells.
fn valued(key: &[char]) -> Option<OptionWord>
    ensures { result ≡ spec.valued key.now }
{
    if is_word_in_any_case(key, "cchar") {
        Some(OptionWord::Cchar)
    } else if is_word_in_any_case(key, "contains") {
        Some(OptionWord::Names(Field::Contains))
    } else if is_word_in_any_case(key, "containedin") {
        Some(OptionWord::Names(Field::Containedin))
    } else if is_word_in_any_case(key, "nextgroup") {
        Some(OptionWord::Names(Field::Nextgroup))
    } else if is_word_in_any_case(key, "matchgroup") {
        Some(OptionWord::Matchgroup)
    } else {
        quote_word(key)
    }
}

fn quote_word(key: &[char]) -> Option<OptionWord>
    ensures { result ≡ spec.quote_word key.now }
{
    if is_word_in_any_case(key, "start") {
        Some(OptionWord::Quote(Role::Start))
    } else if is_word_in_any_case(key, "skip") {
        Some(OptionWord::Quote(Role::Skip))
    } else if is_word_in_any_case(key, "end") {
        Some(OptionWord::Quote(Role::End))
    } else {
        None
    }
}

/// The option that a key spells, in any case.
pub(crate) fn option_of(key: &[char]) -> Option<OptionWord>
    ensures { result ≡ spec.option_of key.now }
{
    match flag_of(key) {
        Some(flag) => Some(OptionWord::Has(flag)),
        None => valued(key),
    }
}
