//! What a word is as a name of a file.
ghost use Rattle.std.specs.Prelude.{◌≡◌, IfOk};
ghost use Rattle.word_values.specs.Paths as spec;

use crate::parts::has_part;
use std::alloc::Global;
use syn_base::{List, Memory};
use word_reader::{begins, strip};

fn is_wild(c: char) -> bool
    ensures { result ≡ spec.is_wild c }
{
    c == '*' || c == '?' || c == '['
}

fn has_wild(word: &[char]) -> bool
    ensures { result ≡ spec.has_wild word.now }
{
    word.iter().any(|c| is_wild(*c))
}

/// Whether the word is a name of a file that may be asked for: relative, without a part `..` and
/// without `*`, `?` and `[`.
pub fn is_file_name(word: &[char]) -> bool
    ensures { result ≡ spec.is_file_name word.now }
{
    !begins('/', word) && !has_part('/', "..", word) && !has_wild(word)
}

/// A name with `syntax/` in place of `<sfile>:p:h/` at its front.
#[tactic(auto, using(crate::proofs::FolderLaws::syntax_folder))]
pub fn in_folder(alloc: Global, word: List<char>) -> Result<List<char>, Memory>
    ensures { IfOk result (λ name. name ≡ spec.in_folder_of word) }
{
    if let Some(rest) = strip("<sfile>:p:h/", word.as_slice()) {
        let mut name = List::from_chars(alloc, "syntax/")?;
        name.extend_from_slice(rest)?;
        return Ok(name);
    }
    Ok(word)
}
