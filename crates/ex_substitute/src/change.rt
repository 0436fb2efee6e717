//! What a command makes of a text.

use syn_base::List;

/// What a command makes of a text: new lines in place of those from `a` up to, and without, `b`, each
/// from 0. Where matches are only counted, the range is empty and nothing is new.
#[derive(Drop)]
pub struct Change {
    pub a: usize,
    pub b: usize,
    pub new: List<List<char>>,
    /// How many matches were replaced or counted, or how many lines were chosen.
    pub count: usize,
}
