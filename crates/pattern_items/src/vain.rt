//! Searches for a closing bracket that were in vain.
ghost use Rattle.std.specs.Prelude.{◌≡◌, ◌^◌, ◌∷◌, ◌<◌, ◌≤◌, ◌+◌, drop, length, IfSome};
ghost use Rattle.pattern_items.specs.Collection.{collection_end, collection_len};
ghost use Rattle.pattern_items.specs.Vain as spec;
ghost use Rattle.pattern_items.specs.Vain.{Known};

use crate::collection::collection_len;
use crate::item::Raw;
use text_scan::front;

/// How many characters there are up to a `]`, with it, where neither a backslash nor an opening
/// bracket stands before it.
fn plain_close(text: &[char]) -> Option<usize>
    ensures value { result ≡ spec.plain_close text.now }
    ensures within { IfSome result (λ n. (0 < n) × (n ≤ length text.now)) }
{
    let mut count: usize = 0;
    let mut rest = text;
    while let Some((c, more)) = front(rest) {
        if c == ']' {
            return Some(count + 1);
        }
        if c == '\\' || c == '[' {
            return None;
        }
        count += 1;
        rest = more;
    }
    None
}

/// How many characters there are behind a collection's bracket up to the closing one, with it.
/// Where a search was in vain before, the text isn't walked to its end again.
#[tactic(auto, using(crate::proofs::VainLaws::len_known))]
pub fn known_len(in_vain: bool, text: &[char]) -> Option<usize>
    requires short { length text.now < 2 ^ 61 }
    requires known { Known in_vain (91 ∷ text.now) }
    ensures value { result ≡ collection_len text.now }
    ensures within { IfSome result (λ n. (0 < n) × (n ≤ length text.now)) }
{
    if in_vain {
        plain_close(text)
    } else {
        collection_len(text)
    }
}

/// Whether a search was in vain behind this item, which `more` follows. A bracket that nothing
/// closes is sought once more here, and never again.
#[tactic(auto, using(crate::proofs::VainLaws::known_found))]
pub fn vain_behind(in_vain: bool, raw: &Raw, more: &[char]) -> bool
    requires short { length more.now < 2 ^ 61 }
    requires known { Known in_vain more.now }
    ensures { Known result more.now }
{
    in_vain || (matches!(raw, Raw::LoneBracket) && collection_len(more).is_none())
}

/// The place of the bracket that closes the collection whose bracket is a text's first character.
/// `in_vain` remembers whether a search for it was in vain, as for `next_item`.
#[tactic(auto, using(crate::proofs::VainLaws::end_here, crate::proofs::VainLaws::known_in_drop))]
pub fn first_collection_end(in_vain: &mut bool, text: &[char]) -> Option<usize>
    requires known { Known in_vain.old text.now }
    ensures value { result ≡ collection_end text.now 0 }
    ensures known { Known in_vain.new (drop 1 text.now) }
{
    match front(text) {
        Some(('[', more)) => match known_len(*in_vain, more) {
            None => {
                *in_vain = true;
                None
            }
            Some(len) => Some(len),
        },
        _ => None,
    }
}
