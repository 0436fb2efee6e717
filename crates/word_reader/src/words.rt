//! Runs of characters, and comparing words.
ghost use Rattle.std.specs.Prelude.{◌≡◌, ◌≤◌, length, [], ◌∷◌, Some, None, IfOk, IfSome, MatchOption};
ghost use Rattle.word_reader.specs.Vain.{Keeps};
ghost use Rattle.word_reader.specs.Words as spec;

use std::alloc::Global;
use syn_base::{List, Memory};
use text_scan::{front, is_blank, is_digit, is_letter};

/// Where a run of characters ends.
#[derive(Clone, Copy, Debug, PartialEq, Eq)]
pub enum Until {
    /// At a blank or a bar.
    Word,
    /// Also at an equals sign.
    Key,
    /// Also at a comma.
    ListName,
    /// At what isn't a letter, a digit or an underscore.
    OptionName,
}

pub(crate) fn stops(until: Until, c: char) -> bool
    ensures { result ≡ spec.stops until c }
{
    match until {
        Until::Word => is_blank(c) || c == '|',
        Until::Key => is_blank(c) || c == '|' || c == '=',
        Until::ListName => is_blank(c) || c == '|' || c == ',',
        Until::OptionName => !(is_letter(c) || is_digit(c) || c == '_'),
    }
}

/// The run at the front of a text.
pub fn run(alloc: Global, until: Until, text: &[char]) -> Result<List<char>, Memory>
    ensures { IfOk result (λ word. word ≡ spec.run until text.now) }
{
    let (front, _) = split_run(until, text);
    List::from_slice(alloc, front)
}

/// The run at the front of a text, and what follows it.
#[tactic(auto, using(crate::proofs::RunLaws::front_is_run, crate::proofs::RunLaws::rest_is_past))]
pub(crate) fn split_run(until: Until, text: &[char]) -> (&[char], &[char])
    ensures run { result.0.now ≡ spec.run until text.now }
    ensures past { result.1.now ≡ spec.past until text.now }
{
    let length = run_length(until, text);
    (&text[..length], &text[length..])
}

/// How many characters the run at the front of a text has.
fn run_length(until: Until, text: &[char]) -> usize
    ensures length { result ≡ length (spec.run until text.now) }
    ensures within { result ≤ length text.now }
{
    let mut count = 0;
    for c in text {
        if stops(until, *c) {
            break;
        }
        count += 1;
    }
    count
}

/// What follows that run.
pub fn past(until: Until, text: &[char]) -> &[char]
    ensures { result.now ≡ spec.past until text.now }
{
    let mut rest = text;
    while let Some((c, more)) = front(rest) {
        if stops(until, c) {
            break;
        }
        rest = more;
    }
    rest
}

/// What is left behind a command of whose words nothing is asked.
pub(crate) fn past_command(may_begin: bool, text: &[char]) -> &[char]
    ensures { result.now ≡ spec.past_command may_begin text.now }
{
    let mut may_begin = may_begin;
    let mut rest = text;
    while let Some((c, more)) = front(rest) {
        if c == '|' || (may_begin && c == '"') {
            break;
        }
        may_begin = is_blank(c);
        rest = more;
    }
    rest
}

/// Whether a text begins with this character.
pub fn begins(d: char, text: &[char]) -> bool
    ensures { result ≡ spec.begins d text.now }
{
    match front(text) {
        None => false,
        Some((c, _)) => c == d,
    }
}

/// What follows the first character.
pub fn behind_first(text: &[char]) -> &[char]
    ensures { result.now ≡ spec.behind_first text.now }
{
    match front(text) {
        None => text,
        Some((_, rest)) => rest,
    }
}

/// Whether a word ends here.
pub(crate) fn ends_word(text: &[char]) -> bool
    ensures { result ≡ spec.ends_word text.now }
{
    match front(text) {
        None => true,
        Some((c, _)) => stops(Until::Word, c),
    }
}

/// Whether no word begins here.
pub fn is_over(text: &[char]) -> bool
    ensures { result ≡ spec.is_over text.now }
{
    match front(text) {
        None => true,
        Some((c, _)) => c == '|' || c == '"',
    }
}

fn alike(ignore: bool, c: char, d: u8) -> bool
    ensures { result ≡ spec.alike ignore c d }
{
    let d = char::from(d);
    if ignore {
        c.eq_ignore_ascii_case(&d)
    } else {
        c == d
    }
}

fn same(ignore: bool, text: &[char], word: &[u8]) -> bool
    ensures { result ≡ spec.same ignore text.now word.now }
{
    let mut rest = text;
    let mut left = word;
    while let Some((d, fewer)) = front(left) {
        match front(rest) {
            None => return false,
            Some((c, more)) => {
                if !alike(ignore, c, d) {
                    return false;
                }
                rest = more;
                left = fewer;
            }
        }
    }
    match front(rest) {
        None => true,
        Some(_) => false,
    }
}

/// The same; words of other lengths aren't compared.
#[tactic(auto, using(crate::proofs::LengthLaws::other_length))]
fn same_length(ignore: bool, text: &[char], word: &[u8]) -> bool
    ensures { result ≡ spec.same ignore text.now word.now }
{
    text.len() == word.len() && same(ignore, text, word)
}

/// Whether a text is this ASCII word.
pub fn is_word(text: &[char], word: &str) -> bool
    ensures { result ≡ spec.is_word text.now word.now }
{
    same_length(false, text, word.as_bytes())
}

/// Whether a text is this ASCII word, case ignored.
pub fn is_word_in_any_case(text: &[char], word: &str) -> bool
    ensures { result ≡ spec.is_word_in_any_case text.now word.now }
{
    same_length(true, text, word.as_bytes())
}

fn bang(least: usize, c: char, rest: &[char]) -> Option<bool>
    ensures { result ≡ spec.bang least c rest.now }
{
    if least == 0 && c == '!' && rest.is_empty() {
        Some(true)
    } else {
        None
    }
}

fn abbreviates_bytes(least: usize, full: &[u8], text: &[char]) -> Option<bool>
    ensures { result ≡ spec.abbreviates least full.now text.now }
{
    let mut least = least;
    let mut full = full;
    let mut rest = text;
    while let Some((c, more)) = front(rest) {
        match front(full) {
            None => return bang(least, c, more),
            Some((f, fuller)) => {
                if c as u32 != f as u32 {
                    return bang(least, c, more);
                }
                least = least.saturating_sub(1);
                full = fuller;
                rest = more;
            }
        }
    }
    if least == 0 { Some(false) } else { None }
}

/// Whether a text is this ASCII word, cut down to no fewer than `least` letters; if so, whether a
/// `!` follows.
pub fn abbreviates(least: usize, full: &str, text: &[char]) -> Option<bool>
    ensures { result ≡ spec.abbreviates least full.now text.now }
{
    abbreviates_bytes(least, full.as_bytes(), text)
}

fn strip_bytes<'a>(word: &[u8], text: &'a [char]) -> Option<&'a [char]>
    ensures rest { MatchOption result
        (spec.strip word.now text.now ≡ None)
        (λ rest. spec.strip word.now text.now ≡ Some rest.now) }
    ensures keeps { IfSome result (λ rest. Keeps text.now rest.now) }
{
    let mut rest = text;
    let mut left = word;
    while let Some((w, fewer)) = front(left) {
        match front(rest) {
            None => return None,
            Some((c, more)) => {
                if c as u32 != w as u32 {
                    return None;
                }
                rest = more;
                left = fewer;
            }
        }
    }
    Some(rest)
}

/// What follows this ASCII word at the front of a text.
pub fn strip<'a>(word: &str, text: &'a [char]) -> Option<&'a [char]>
    ensures rest { MatchOption result
        (spec.strip word.now text.now ≡ None)
        (λ rest. spec.strip word.now text.now ≡ Some rest.now) }
    ensures keeps { IfSome result (λ rest. Keeps text.now rest.now) }
{
    strip_bytes(word.as_bytes(), text)
}
