//! Counts in braces, and looks.
ghost use Rattle.std.specs.Prelude.{◌≡◌, ◌^◌, [], ◌∷◌, ◌<◌, ◌≤◌, ◌+◌, length, MatchOption, IfSome};
ghost use Rattle.pattern_items.specs.Multis as spec;
ghost use Rattle.pattern_items.specs.Numbers as numbers;

use crate::PatternCause;
use crate::item::{Behind, Multi, Raw, Spelled, Times};
use text_scan::{digits, front};

fn bad_count(len: usize) -> Spelled
    ensures value { result ≡ spec.bad_count len }
    ensures len { result.len ≡ len }
{
    Spelled {
        raw: Raw::Wrong(PatternCause::BadCount),
        len,
    }
}

fn multi(multi: Multi, len: usize) -> Spelled
    ensures value { result ≡ spec.multi multi len }
    ensures len { result.len ≡ len }
{
    Spelled {
        raw: Raw::Multi(multi),
        len,
    }
}

/// A count, in which the greater number is the most.
pub fn count(least: u32, most: Option<u32>, lazy: bool) -> Multi
    ensures { result ≡ spec.count least most lazy }
{
    let times = match most {
        Some(most) if most < least => Times {
            least: most,
            most: Some(least),
            lazy,
        },
        _ => Times { least, most, lazy },
    };
    Multi::Count(times)
}

/// How many characters close the braces here.
fn brace_end(text: &[char]) -> Option<usize>
    ensures value { result ≡ spec.brace_end text.now }
    ensures within { IfSome result (λ n. n ≤ length text.now) }
{
    match front(text) {
        Some(('}', _)) => Some(1),
        Some(('\\', more)) => match front(more) {
            Some(('}', _)) => Some(2),
            _ => None,
        },
        _ => None,
    }
}

fn closed(len: usize, found: Multi, end: Option<usize>) -> Spelled
    requires { IfSome end (λ n. len + n < 2 ^ 62) }
    ensures value { result ≡ spec.closed len found end }
    ensures within { MatchOption end (result.len ≡ len) (λ n. result.len ≡ len + n) }
{
    match end {
        None => bad_count(len),
        Some(more) => multi(found, len + more),
    }
}

/// The braces from behind the comma.
fn with_most(len: usize, least: Option<u32>, lazy: bool, text: &[char]) -> Spelled
    requires { len + length text.now < 2 ^ 62 }
    ensures value { result ≡ spec.with_most len least lazy (numbers.digits text.now) }
    ensures within { (len ≤ result.len) × (result.len ≤ len + length text.now) }
{
    let (number, rest) = digits(text);
    let end = brace_end(rest);
    if number.count == 0 {
        return match least {
            None => bad_count(len),
            Some(least) => closed(len, count(least, None, lazy), end),
        };
    }
    match number.value {
        None => bad_count(len),
        Some(most) => {
            let least = least.unwrap_or(0);
            closed(len + number.count, count(least, Some(most), lazy), end)
        }
    }
}

/// The braces from behind the first number, if there is one.
fn with_comma(len: usize, least: Option<u32>, lazy: bool, text: &[char]) -> Spelled
    requires { len + length text.now < 2 ^ 62 }
    ensures value { result ≡ spec.with_comma len least lazy text.now }
    ensures within { (len ≤ result.len) × (result.len ≤ len + length text.now) }
{
    match front(text) {
        None => bad_count(len),
        Some((',', more)) => with_most(len + 1, least, lazy, more),
        Some(_) => {
            let end = brace_end(text);
            match least {
                None => closed(len, count(0, None, lazy), end),
                Some(least) => closed(len, count(least, Some(least), lazy), end),
            }
        }
    }
}

fn with_least(len: usize, lazy: bool, text: &[char]) -> Spelled
    requires { len + length text.now < 2 ^ 62 }
    ensures value { result ≡ spec.with_least len lazy (numbers.digits text.now) }
    ensures within { (len ≤ result.len) × (result.len ≤ len + length text.now) }
{
    let (number, rest) = digits(text);
    if number.count == 0 {
        return with_comma(len, None, lazy, rest);
    }
    match number.value {
        None => bad_count(len),
        Some(least) => with_comma(len + number.count, Some(least), lazy, rest),
    }
}

/// A count in braces, from behind the opening one.
pub fn braces(len: usize, text: &[char]) -> Spelled
    requires { len + length text.now < 2 ^ 62 }
    ensures value { result ≡ spec.braces len text.now }
    ensures within { (len ≤ result.len) × (result.len ≤ len + length text.now) }
{
    match front(text) {
        None => bad_count(len),
        Some(('-', more)) => with_least(len + 1, true, more),
        Some(_) => with_least(len, false, text),
    }
}

/// The look-behind with this limit, from behind the `<`.
fn look_behind(len: usize, limit: Behind, text: &[char]) -> Spelled
    requires { len + length text.now < 2 ^ 62 }
    ensures value { result ≡ spec.look_behind len limit text.now }
    ensures within { (len ≤ result.len) × (result.len ≤ len + length text.now) }
{
    match front(text) {
        Some(('=', _)) => multi(Multi::Before { not: false, limit }, len + 1),
        Some(('!', _)) => multi(Multi::Before { not: true, limit }, len + 1),
        _ => bad_count(len),
    }
}

/// The look-behind with a limit, from behind its number.
fn limited(len: usize, most: Option<u32>, text: &[char]) -> Spelled
    requires { len + length text.now < 2 ^ 62 }
    ensures value { result ≡ spec.limited len most text.now }
    ensures within { (len ≤ result.len) × (result.len ≤ len + length text.now) }
{
    match most {
        None => bad_count(len),
        Some(most) => match front(text) {
            Some(('<', more)) => look_behind(len + 1, Behind::Most(most), more),
            _ => bad_count(len),
        },
    }
}

fn numbered(len: usize, text: &[char]) -> Spelled
    requires { len + length text.now < 2 ^ 62 }
    ensures value { result ≡ spec.numbered len (numbers.digits text.now) }
    ensures within { (len ≤ result.len) × (result.len ≤ len + length text.now) }
{
    let (number, rest) = digits(text);
    if number.count == 0 {
        return bad_count(len);
    }
    limited(len + number.count, number.value, rest)
}

/// A look, from behind the `@`.
pub fn look(len: usize, text: &[char]) -> Spelled
    requires { len + length text.now < 2 ^ 62 }
    ensures value { result ≡ spec.look len text.now }
    ensures within { (len ≤ result.len) × (result.len ≤ len + length text.now) }
{
    match front(text) {
        None => bad_count(len),
        Some(('=', _)) => multi(Multi::Ahead { not: false }, len + 1),
        Some(('!', _)) => multi(Multi::Ahead { not: true }, len + 1),
        Some(('>', _)) => multi(Multi::Whole, len + 1),
        Some(('<', more)) => look_behind(len + 1, Behind::Any, more),
        Some(_) => numbered(len, text),
    }
}
