//! What a word is as a name of a group.
ghost use Rattle.std.specs.Prelude.{◌≡◌};
ghost use Rattle.word_values.specs.GroupNames as spec;

use syntax_set::Special;
use text_scan::{is_digit, is_letter};
use word_reader::is_word_in_any_case;

/// The most characters of a group's name.
const MOST_CHARACTERS: usize = 200;

fn is_name_character(c: char) -> bool
    ensures { result ≡ spec.is_name_character c }
{
    is_letter(c) || is_digit(c) || c == '_' || c == '.' || c == '-'
}

fn has_name_characters(word: &[char]) -> bool
    ensures { result ≡ spec.has_name_characters word.now }
{
    word.iter().all(|c| is_name_character(*c))
}

/// Whether the word is a group's name: 1 to 200 ASCII letters, ASCII digits, `_`, `.` and `-`
/// (`group-name`).
pub fn is_group_name(word: &[char]) -> bool
    ensures { result ≡ spec.is_group_name word.now }
{
    1 <= word.len() && word.len() <= MOST_CHARACTERS && has_name_characters(word)
}

/// Whether the word is `NONE`, case ignored, which stands for no group (`:syn-matchgroup`,
/// `:hi-link`).
pub fn is_none(word: &[char]) -> bool
    ensures { result ≡ spec.is_none word.now }
{
    is_word_in_any_case(word, "none")
}

/// Whether the word is a name that groups may not have, case ignored.
pub fn is_reserved(word: &[char]) -> bool
    ensures { result ≡ spec.is_reserved word.now }
{
    is_none(word)
        || is_word_in_any_case(word, "all")
        || is_word_in_any_case(word, "allbut")
        || is_word_in_any_case(word, "top")
        || is_word_in_any_case(word, "contained")
        || is_word_in_any_case(word, "contains")
}

/// Whether the word is a name of a list that isn't reserved.
pub fn is_listed(word: &[char]) -> bool
    ensures { result ≡ spec.is_listed word.now }
{
    is_group_name(word) && !is_reserved(word)
}

fn is_pattern_character(c: char) -> bool
    ensures { result ≡ spec.is_pattern_character c }
{
    c == '\\' || c == '.' || c == '*' || c == '^' || c == '$' || c == '~' || c == '['
}

/// Whether the word is a pattern of names where a list has it.
pub fn is_pattern(word: &[char]) -> bool
    ensures { result ≡ spec.is_pattern word.now }
{
    word.iter().any(|c| is_pattern_character(*c))
}

/// What a word says of a list besides its names, case ignored (`:syn-contains`).
pub fn special_of(word: &[char]) -> Special
    ensures { result ≡ spec.special_of word.now }
{
    if is_word_in_any_case(word, "all") {
        Special::All
    } else if is_word_in_any_case(word, "allbut") {
        Special::AllBut
    } else if is_word_in_any_case(word, "top") {
        Special::Top
    } else if is_word_in_any_case(word, "contained") {
        Special::Contained
    } else if is_none(word) {
        Special::Nothing
    } else {
        Special::Plain
    }
}
