//! What of a line is looked at to tell what it lacks.
ghost use Rattle.std.specs.Prelude.{◌≡◌, ◌<◌, ◌≤◌, ℕ, IfSome, None, Some, slice_get, true, false};
ghost use Rattle.pattern_needs.specs.Characters.{holds};
ghost use Rattle.pattern_needs.specs.Endings.{IsLastOf};
ghost use Rattle.pattern_needs.specs.LineNeeds.{IsHeldOf};
ghost use Rattle.pattern_needs.specs.Nonblanks.{IsSecondOf, is_blank};

use crate::characters::Characters;

/// Which characters a line holds, and the second and the last of those that aren't blanks.
#[derive(Clone, Copy)]
pub struct Held {
    pub(crate) characters: Characters,
    pub(crate) second: Option<char>,
    pub(crate) last: Option<char>,
}

impl Held {
    /// That of no line.
    pub fn none() -> Held
        ensures characters { (c : ℕ) → holds result.characters c ≡ false }
        ensures second { result.second ≡ None }
        ensures last { result.last ≡ None }
    {
        Held {
            characters: Characters::none(),
            second: None,
            last: None,
        }
    }

    /// That of a line.
    pub fn of(line: &[char]) -> Held
        ensures { IsHeldOf result line.now }
    {
        Held {
            characters: Characters::of(line),
            second: second_nonblank(line),
            last: last_nonblank(line),
        }
    }
}

/// The second of a line's characters that aren't blanks.
fn second_nonblank(line: &[char]) -> Option<char>
    ensures { IfSome result (IsSecondOf line.now) }
{
    let first = past_blanks(line, 0);
    let behind = first.checked_add(1)?;
    line.get(past_blanks(line, behind)).copied()
}

/// The last of a line's characters that aren't blanks.
fn last_nonblank(line: &[char]) -> Option<char>
    ensures { IfSome result (IsLastOf line.now) }
{
    let mut end = line.len();
    while end > 0 {
        end -= 1;
        let c = line[end];
        if !is_blank(c) {
            return Some(c);
        }
    }
    None
}

/// The first column from one on at which no blank stands.
fn past_blanks(line: &[char], from: usize) -> usize
    ensures from { from ≤ result }
    ensures blanks { (i c : ℕ) → from ≤ i → i < result → slice_get line.now i ≡ Some c →
        is_blank c ≡ true }
    ensures nonblank { (c : ℕ) → slice_get line.now result ≡ Some c → is_blank c ≡ false }
{
    for col in from..line.len() {
        if !is_blank(line[col]) {
            return col;
        }
    }
    from.max(line.len())
}

/// Whether it is a blank: a space or a tab (`/\s`).
fn is_blank(c: char) -> bool
    ensures { result ≡ is_blank c }
{
    c == ' ' || c == '\t'
}
