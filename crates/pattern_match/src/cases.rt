//! Characters compared, case ignored or not.
ghost use Rattle.std.specs.Prelude.{◌≡◌, ◌<◌};
ghost use Rattle.char_class.specs.Folds.{is_same};
ghost use Rattle.unicode.specs.CaseFolding.{simple_fold};

use char_class::same;

/// Whether `c` and `d` are one character (`/ignorecase`), with a short way for equal and for ASCII
/// characters.
#[inline(always)]
pub(crate) fn is_one(c: char, d: char, ignore: bool) -> bool
    ensures { result ≡ is_same c d ignore }
{
    if !ignore {
        c == d
    } else if c.is_ascii() && d.is_ascii() {
        ascii_fold(c) == ascii_fold(d)
    } else {
        same(c, d, ignore)
    }
}

/// The fold of an ASCII character.
fn ascii_fold(c: char) -> char
    requires { c < 128 }
    ensures { result ≡ simple_fold c }
{
    c.to_ascii_lowercase()
}
