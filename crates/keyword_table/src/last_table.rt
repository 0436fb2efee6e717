//! The keys of a table of keywords, and the last definition that each key finds.
ghost use Rattle.std.specs.Prelude.{◌≡◌, ◌<◌, ℕ, List, nat_eq, IsTrue, Some, OnOk, OnErr, IfOk, if◌then◌else◌};
ghost use Rattle.std.specs.Cmp.Lexicographic.{pointwise};
ghost use Rattle.unicode.specs.CaseFolding.{simple_fold};
ghost use Rattle.keyword_table.specs.Candidates.{folded};
ghost use Rattle.keyword_table.specs.Chains.{last_at};

use char_class::fold;
use std::alloc::{AllocError, AllocFailed, Global};
use std::collections::HashMap;

/// The place of the last definition that each key finds.
pub(crate) type LastTable = HashMap<Vec<char>, usize>;

/// The place of the last definition that the key finds.
pub(crate) fn last_at(table: &LastTable, key: &[char]) -> Option<usize>
    ensures { result ≡ last_at table.now key.now }
{
    table.get(key).copied()
}

/// Puts a later place at the key, and answers the one that stood there.
pub(crate) fn put_last(
    table: &mut LastTable,
    key: Vec<char>,
    place: usize,
) -> Result<Option<usize>, AllocFailed<(Vec<char>, usize)>>
    ensures earlier { IfOk result (λ earlier. earlier ≡ last_at table.old key.items) }
    ensures put { OnOk result ((other : List ℕ) → last_at table.new other
        ≡ (if pointwise nat_eq key.items other then Some place else last_at table.old other)) }
    ensures err { OnErr result ((other : List ℕ)
        → last_at table.new other ≡ last_at table.old other) }
{
    table.insert(key, place)
}

/// The place of the last definition that the word's fold finds. A word that is its own fold is looked
/// up as it stands.
pub(crate) fn last_at_fold(
    table: &LastTable,
    alloc: Global,
    word: &[char],
) -> Result<Option<usize>, AllocError>
    ensures { IfOk result (λ place. place ≡ last_at table.now (folded word.now)) }
{
    if is_folded(word) {
        return Ok(last_at(table, word));
    }
    let key = fold_word(alloc, word)?;
    Ok(last_at(table, key.as_slice()))
}

/// Whether each character is its own fold.
fn is_folded(word: &[char]) -> bool
    ensures { IsTrue result → folded word.now ≡ word.now }
{
    word.iter().all(|c| fold_one(*c) == *c)
}

/// The word with each character folded, in its own place.
pub(crate) fn folded(word: Vec<char>) -> Vec<char>
    ensures { result.items ≡ folded word.items }
{
    let mut key = word;
    fold_all(key.as_mut_slice());
    key
}

/// Folds each character of a word.
fn fold_all(word: &mut [char])
    ensures { word.new ≡ folded word.old }
{
    for one in word.iter_mut() {
        *one = fold_one(*one);
    }
}

/// The word with each character folded.
fn fold_word(alloc: Global, word: &[char]) -> Result<Vec<char>, AllocError>
    ensures { IfOk result (λ key. key.items ≡ folded word.now) }
{
    word.iter().map(|c| fold_one(*c)).collect(alloc)
}

/// The fold of a character, with a short way for those of ASCII.
fn fold_one(c: char) -> char
    ensures { result ≡ simple_fold c }
{
    if c.is_ascii() { fold_ascii(c) } else { fold(c) }
}

/// The fold of a character of ASCII.
fn fold_ascii(c: char) -> char
    requires { c < 128 }
    ensures { result ≡ simple_fold c }
{
    c.to_ascii_lowercase()
}
