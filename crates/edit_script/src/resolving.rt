//! What a command does to a text of so many lines.
ghost use Rattle.std.specs.Prelude.{◌≡◌, ◌≤◌, ◌-◌, Some, None, Ok, IfOk, IfErr, IsTrue, length};
ghost use Rattle.edit_script.specs.Edits as spec;
ghost use Rattle.edit_script.specs.Resolving.{destination_line, has_too_many, is_into_self, resolved_at, told};

use crate::{EditCommand, Last, ResolveError, Resolved, Verb};
use text_buffer::MOST_LINES;

/// The least line that the verb takes.
fn least_line(verb: &Verb) -> u64
    ensures { result ≡ spec.least_line verb.now }
{
    match verb {
        Verb::Append | Verb::Insert => 0,
        _ => 1,
    }
}

/// The line that an address names in a text of so many lines, if it doesn't lie outside.
fn line_at(least: u64, address: Last, count: usize) -> Result<usize, ResolveError>
    ensures line { IfOk result (λ n. (spec.outside least address count ≡ None)
        × (n ≡ spec.line_named address count)) }
    ensures from { IfOk result (λ n. least ≤ n) }
    ensures within { IfOk result (λ n. n ≤ count) }
    ensures outside { IfErr result (λ cause. spec.outside least address count ≡ Some cause) }
{
    let number = match address {
        Last::Number(n) => n,
        Last::End => count as u64,
    };
    if number < least || (count as u64) < number {
        return Err(ResolveError::NoLine(number));
    }
    Ok(number as usize)
}

/// The line behind which a verb puts lines of the text; 0 where it puts none.
fn destination(verb: &Verb, count: usize) -> Result<usize, ResolveError>
    ensures line { IfOk result (λ n. (spec.destination_outside verb.now count ≡ None)
        × (n ≡ destination_line verb.now count)) }
    ensures within { IfOk result (λ n. n ≤ count) }
    ensures outside { IfErr result (λ cause. spec.destination_outside verb.now count ≡ Some cause) }
{
    match verb {
        Verb::Move(to) => line_at(0, *to, count),
        Verb::CopyTo(to) => line_at(0, *to, count),
        _ => Ok(0),
    }
}

/// Whether lines would be moved between two of their own.
fn is_into_self(verb: &Verb, first: usize, last: usize, dest: usize) -> bool
    ensures { result ≡ is_into_self verb.now first last dest }
{
    match verb {
        Verb::Move(_) => first <= dest && dest < last,
        _ => false,
    }
}

/// What the verb does to lines `first` to `last`, from 1.
fn does_of(verb: &Verb, first: usize, last: usize, dest: usize) -> Resolved
    ensures { result ≡ resolved_at verb.now first last dest }
{
    let a = first.saturating_sub(1);
    match verb {
        Verb::Append => Resolved::Replace { a: last, b: last },
        Verb::Insert => Resolved::Replace { a, b: a },
        Verb::Change | Verb::Delete => Resolved::Replace { a, b: last },
        Verb::Move(_) => Resolved::Move { a, b: last, dest },
        Verb::CopyTo(_) => Resolved::CopyTo { a, b: last, dest },
        Verb::Print => Resolved::Print { a, b: last },
        Verb::Ex(_) => Resolved::Ex { a, b: last },
        Verb::Page => Resolved::Page,
        Verb::Folds => Resolved::Folds,
        Verb::Syntax(_) => Resolved::Syntax,
    }
}

/// Whether so many lines are more than a text has.
fn is_over(kept: usize, new: usize) -> bool
    ensures { result ≡ has_too_many kept new }
{
    kept > MOST_LINES || new > MOST_LINES - kept
}

/// Whether the text would have too many lines afterwards.
fn has_too_many_lines(resolved: Resolved, new: usize, count: usize) -> bool
    ensures { spec.too_many_lines resolved new count ≡ told result }
{
    match resolved {
        Resolved::Replace { a, b } => is_over(count.saturating_sub(b.saturating_sub(a)), new),
        Resolved::Move { .. } => is_over(count, 0),
        Resolved::CopyTo { a, b, .. } => is_over(count, b.saturating_sub(a)),
        Resolved::Print { .. }
        | Resolved::Ex { .. }
        | Resolved::Page
        | Resolved::Folds
        | Resolved::Syntax => false,
    }
}

/// What the command does to a text of `count` lines, or the first cause against it. It takes no
/// memory.
pub fn resolve(command: &EditCommand, count: usize) -> Result<Resolved, ResolveError>
    requires { 1 ≤ count }
    ensures resolved { result ≡ spec.resolved_of command.now count }
    ensures within { IfOk result (λ resolved. spec.IsWithin resolved count) }
    ensures few { IfOk result (λ resolved.
        spec.too_many_lines resolved (length command.now.lines) count ≡ None) }
{
    let least = least_line(&command.verb);
    let first = line_at(least, command.first, count)?;
    let last = line_at(least, command.last, count)?;
    let dest = destination(&command.verb, count)?;
    if last < first {
        return Err(ResolveError::Backwards);
    }
    if is_into_self(&command.verb, first, last, dest) {
        return Err(ResolveError::MoveIntoSelf);
    }
    let resolved = does_of(&command.verb, first, last, dest);
    if has_too_many_lines(resolved, command.lines.len(), count) {
        return Err(ResolveError::TooManyLines);
    }
    Ok(resolved)
}
