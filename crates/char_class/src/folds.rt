//! Characters with case ignored: simple folds, and the ranges of collections.
ghost use Rattle.std.specs.Prelude.{◌≡◌};
ghost use Rattle.unicode.specs.CaseFolding.{simple_fold};
ghost use Rattle.char_class.specs.Folds.{is_same, lies_in, range_holds};

use unicode::case;

/// The simple case folding of `c`, without the Turkic ones.
pub fn fold(c: char) -> char
    ensures { result ≡ simple_fold c }
{
    case::simple_fold(c)
}

/// Whether `c` and `d` are one character, where `ignore` says that case is ignored
/// (`/ignorecase`).
#[tactic(auto, unfolding(crate::specs::Folds::is_same))]
pub fn same(c: char, d: char, ignore: bool) -> bool
    ensures { result ≡ is_same c d ignore }
{
    if ignore { fold(c) == fold(d) } else { c == d }
}

/// Whether the range of a collection (`/[]`) from `low` to `high`, both included, holds `c`, where
/// `ignore` says that case is ignored. That a range holds a character by the capital of its fold
/// too is this profile's.
#[tactic(auto, unfolding(crate::specs::Folds::range_holds))]
pub fn range_has(low: char, high: char, c: char, ignore: bool) -> bool
    ensures { result ≡ range_holds low high c ignore }
{
    if !ignore {
        return lies_between(low, high, c);
    }
    let folded = fold(c);
    lies_between(low, high, c)
        || lies_between(low, high, folded)
        || folded.is_ascii_lowercase() && lies_between(low, high, folded.to_ascii_uppercase())
}

fn lies_between(low: char, high: char, c: char) -> bool
    ensures { result ≡ lies_in low high c }
{
    low <= c && c <= high
}
