//! The words of a line: whole runs of the characters of a set.
ghost use Rattle.std.specs.Prelude.{◌≡◌, ◌≤◌, ◌<◌, ◌+◌, ◌-◌, ◌==◌, ◌&&◌, not, length, drop, true, IfSome, IsTrue};
ghost use Rattle.keyword_table.specs.Words.{begins_word, has_at, run_length, word_end};

use char_class::CharSet;

/// The column behind the word that begins at the column `col`, both from 0, where `set` has the
/// characters of words (`'iskeyword'`). None where no word begins there: behind the line, at a
/// character that the set hasn't, and within a word. It takes no memory.
#[tactic(auto, unfolding(crate::specs::Words::word_end))]
pub fn word_end(line: &[char], col: usize, set: &CharSet) -> Option<usize>
    requires { col ≤ length line.now }
    ensures end { result ≡ word_end line.now col set.now }
    ensures ahead { IfSome result (λ end. col < end) }
    ensures within { IfSome result (λ end. end ≤ length line.now) }
{
    if begins_word(line, col, set) {
        Some(run_end(line, col, set))
    } else {
        None
    }
}

/// Whether a word begins at the column.
fn begins_word(line: &[char], col: usize, set: &CharSet) -> bool
    ensures { result ≡ begins_word set.now line.now col }
{
    has_at(line, col, set) && (col == 0 || !has_at(line, col - 1, set))
}

/// Whether a character of the set stands at the column.
fn has_at(line: &[char], col: usize, set: &CharSet) -> bool
    ensures has { result ≡ has_at set.now line.now col }
    ensures within { IsTrue result → col < length line.now }
{
    match line.get(col) {
        Some(c) => set.has(*c),
        None => false,
    }
}

/// The column behind the run of characters of the set that stands from `col` on.
fn run_end(line: &[char], col: usize, set: &CharSet) -> usize
    requires { has_at set.now line.now col ≡ true }
    ensures end { result ≡ col + run_length set.now (drop col line.now) }
    ensures ahead { col < result }
    ensures within { result ≤ length line.now }
{
    let mut end = col + 1;
    while has_at(line, end, set) {
        end += 1;
    }
    end
}
