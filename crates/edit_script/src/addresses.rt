//! Addresses and ranges at the front of a command's line.
ghost use Rattle.std.specs.Prelude.{◌≡◌, ◌≤◌, Some, None, MatchOption, length, true};
ghost use Rattle.std.specs.List.{list_all, prefix_len};
ghost use Rattle.text_scan.specs.Characters as scan;
ghost use Rattle.edit_script.specs.Addresses as spec;

use crate::Last;
use text_scan::{front, is_digit};

/// The most digits of an address.
const MOST_DIGITS: usize = 18;

/// The addresses of a range; one with too many digits names no line.
#[derive(Clone, Copy)]
pub(crate) struct Range {
    pub first: Option<Last>,
    pub last: Option<Last>,
    /// Whether it is one address.
    pub single: bool,
}

/// How many digits stand at the front of a text.
fn digit_count(text: &[char]) -> usize
    ensures count { result ≡ prefix_len scan.is_digit text.now }
    ensures within { result ≤ length text.now }
{
    text.iter().take_while(|c| is_digit(**c)).count()
}

/// The number of these digits.
fn number_of(digits: &[char]) -> u64
    requires digits { list_all scan.is_digit digits.now ≡ true }
    requires few { length digits.now ≤ spec.most_digits }
    ensures { result ≡ spec.number_behind 0 digits.now }
{
    let mut number: u64 = 0;
    for digit in digits {
        number = number * 10 + (*digit as u64 - 48);
    }
    number
}

fn line_of(digits: &[char]) -> Option<Last>
    requires { list_all scan.is_digit digits.now ≡ true }
    ensures { result ≡ spec.line_of digits.now }
{
    if digits.len() <= MOST_DIGITS {
        Some(Last::Number(number_of(digits)))
    } else {
        None
    }
}

/// The address at the front of a text, and what follows it.
pub(crate) fn address_at(text: &[char]) -> Option<(Option<Last>, &[char])>
    ensures { MatchOption result (spec.address_at text.now ≡ None)
        (λ p. spec.address_at text.now ≡ Some (p.0, p.1.now)) }
{
    let (c, more) = front(text)?;
    if c == '$' {
        return Some((Some(Last::End), more));
    }
    if !is_digit(c) {
        return None;
    }
    let count = digit_count(text);
    Some((line_of(&text[..count]), &text[count..]))
}

fn range_from(first: Option<Last>, text: &[char]) -> Option<(Range, &[char])>
    ensures { MatchOption result (spec.range_from first text.now ≡ None)
        (λ p. spec.range_from first text.now ≡ Some (p.0, p.1.now)) }
{
    if let Some((',', more)) = front(text) {
        let (last, rest) = address_at(more)?;
        let single = false;
        return Some((
            Range {
                first,
                last,
                single,
            },
            rest,
        ));
    }
    let last = first;
    let single = true;
    Some((
        Range {
            first,
            last,
            single,
        },
        text,
    ))
}

/// The range at the front of a text, and what follows it.
pub(crate) fn range_at(text: &[char]) -> Option<(Range, &[char])>
    ensures { MatchOption result (spec.range_at text.now ≡ None)
        (λ p. spec.range_at text.now ≡ Some (p.0, p.1.now)) }
{
    if let Some(('%', more)) = front(text) {
        let all = Range {
            first: Some(Last::Number(1)),
            last: Some(Last::End),
            single: false,
        };
        return Some((all, more));
    }
    let (first, more) = address_at(text)?;
    range_from(first, more)
}
