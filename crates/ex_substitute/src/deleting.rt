//! Deletions by pattern: which lines are chosen, and what is left between them.
ghost use Rattle.std.specs.Prelude.{◌≡◌, ◌<◌, ◌≤◌, ◌+◌, ◌-◌, ◌++◌, length, take, drop, IfOk, OnOk};
ghost use Rattle.std.specs.List.{All};
ghost use Rattle.ex_substitute.specs.Answers.{Gives};
ghost use Rattle.ex_substitute.specs.Trials.{trial_in};
ghost use Rattle.ex_substitute.specs.Deleting as spec;

use crate::limits::within_limits;
use crate::refusal::Refusal;
use crate::trying::{Trying, Wanted};
use crate::{Change, ExError};
use pattern_match::Scratch;
use std::alloc::Global;
use syn_base::{Lines, List, Memory};
use text_scan::front;

impl<'a> Trying<'a> {
    /// Whether a line is chosen: one with a match, or, of the others, one without.
    fn is_chosen<T: Lines>(
        &self,
        scratch: &mut Scratch<'a>,
        lines: &T,
        others: bool,
        line: usize,
    ) -> Result<bool, Refusal>
        requires present { line < length (T.lines lines.now) }
        requires budget { 1 ≤ self.now.budget }
        ensures { Gives result
            (spec.is_chosen (trial_in (T.lines lines.now) self.now) others line) }
    {
        let found = self.first_in_line(scratch, lines, line, 0, Wanted::Any)?;
        let matches = found.is_some();
        Ok(if others { !matches } else { matches })
    }

    /// The numbers of the chosen lines from `a` up to, and without, `b`.
    pub fn chosen<T: Lines>(
        &self,
        lines: &T,
        others: bool,
        a: usize,
        b: usize,
    ) -> Result<List<usize>, Refusal>
        requires within { b ≤ length (T.lines lines.now) }
        requires budget { 1 ≤ self.now.budget }
        ensures chosen { Gives result
            (spec.chosen_from (trial_in (T.lines lines.now) self.now) others a (b - a)) }
        ensures within { IfOk result (λ chosen. All (λ line. line < b) chosen) }
    {
        let mut scratch = Scratch::new(self.alloc);
        let mut chosen = List::new(self.alloc);
        for line in a..b {
            if self.is_chosen(&mut scratch, lines, others, line)? {
                chosen.push(line)?;
            }
        }
        Ok(chosen)
    }
}

/// Puts copies of the lines from `from` up to, and without, `to` at the end.
fn push_lines<T: Lines>(
    alloc: Global,
    lines: &T,
    from: usize,
    to: usize,
    new: &mut List<List<char>>,
) -> Result<(), Memory>
    requires { to ≤ length (T.lines lines.now) }
    ensures { OnOk result
        (new.new ≡ new.old ++ take (to - from) (drop from (T.lines lines.now))) }
{
    for line in from..to {
        let copy = List::from_slice(alloc, lines.line(line))?;
        new.push(copy)?;
    }
    Ok(())
}

/// The lines that stand between chosen ones.
fn kept<T: Lines>(
    alloc: Global,
    lines: &T,
    first: usize,
    rest: &[usize],
) -> Result<List<List<char>>, Memory>
    requires first { first < length (T.lines lines.now) }
    requires rest { All (λ line. line < length (T.lines lines.now)) rest.now }
    ensures { IfOk result
        (λ new. new ≡ spec.kept_from (T.lines lines.now) (first + 1) rest.now) }
{
    // The proof needs the bounds that this call tells of the text.
    let _count = lines.len();
    let mut new = List::new(alloc);
    let mut line = first + 1;
    for chosen in rest {
        push_lines(alloc, lines, line, *chosen, &mut new)?;
        line = *chosen + 1;
    }
    Ok(new)
}

/// What is left between the first chosen line and the last: one empty line, if the text would have none.
fn left_over<T: Lines>(
    alloc: Global,
    lines: &T,
    first: usize,
    rest: &[usize],
) -> Result<List<List<char>>, Memory>
    requires first { first < length (T.lines lines.now) }
    requires rest { All (λ line. line < length (T.lines lines.now)) rest.now }
    ensures { IfOk result
        (λ new. new ≡ spec.left_over (T.lines lines.now) first rest.now) }
{
    if lines.len() - 1 == rest.len() {
        let mut new = List::new(alloc);
        new.push(List::new(alloc))?;
        return Ok(new);
    }
    kept(alloc, lines, first, rest)
}

/// The last of these lines.
#[tactic(auto, using(crate::proofs::DeleteLaws::last_of_some))]
fn last_of(first: usize, rest: &[usize]) -> usize
    ensures { result ≡ spec.last_of first rest.now }
{
    if rest.is_empty() {
        return first;
    }
    rest[rest.len() - 1]
}

/// The change that deletes these lines.
fn deletion<T: Lines>(
    alloc: Global,
    lines: &T,
    first: usize,
    rest: &[usize],
) -> Result<Change, Memory>
    requires first { first < length (T.lines lines.now) }
    requires rest { All (λ line. line < length (T.lines lines.now)) rest.now }
    ensures { IfOk result
        (λ change. change ≡ spec.deletion (T.lines lines.now) first rest.now) }
{
    // The proof needs the bounds that this call tells of the text.
    let _count = lines.len();
    let new = left_over(alloc, lines, first, rest)?;
    Ok(Change {
        a: first,
        b: last_of(first, rest) + 1,
        new,
        count: rest.len() + 1,
    })
}

/// What is made of a text in which these lines are chosen.
pub(crate) fn deleted<T: Lines>(
    alloc: Global,
    lines: &T,
    chosen: &[usize],
) -> Result<Change, Refusal>
    requires { All (λ line. line < length (T.lines lines.now)) chosen.now }
    ensures { Gives result (spec.deleted (T.lines lines.now) chosen.now) }
{
    let Some((first, rest)) = front(chosen) else {
        return Err(Refusal::Cause(ExError::NoMatch));
    };
    let change = deletion(alloc, lines, first, rest)?;
    let change = within_limits(lines, change)?;
    Ok(change)
}
