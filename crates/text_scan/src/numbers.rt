//! Numbers in digits.
ghost use Rattle.std.specs.Prelude.{◌≡◌, ◌<◌, ◌≤◌, ◌+◌, IfSome, drop, length};
ghost use Rattle.text_scan.specs.Numbers as spec;

use crate::{front, is_digit};

/// The digits at the front of a text.
#[derive(Clone, Copy, Debug, PartialEq, Eq)]
pub struct Number {
    /// Their number, none above 65,535.
    pub value: Option<u32>,
    /// How many they are.
    pub count: usize,
}

fn with_digit(value: Option<u32>, digit: u32) -> Option<u32>
    requires digit { digit < 10 }
    requires small { IfSome value (λ n. n ≤ 65535) }
    ensures value { result ≡ spec.with_digit value digit }
    ensures small { IfSome result (λ n. n ≤ 65535) }
{
    let number = value? * 10 + digit;
    if number <= 65535 { Some(number) } else { None }
}

/// The digits at the front of a text, and what follows them. A text without any has the number 0
/// of no digits.
pub fn digits(text: &[char]) -> (Number, &[char])
    ensures value { result.0.value ≡ (spec.digits text.now).value }
    ensures small { IfSome result.0.value (λ n. n ≤ 65535) }
    ensures count { result.0.count ≡ (spec.digits text.now).count }
    ensures rest { result.1.now ≡ (spec.digits text.now).rest }
    ensures behind { result.1.now ≡ drop result.0.count text.now }
    ensures within { result.0.count + length result.1.now ≡ length text.now }
{
    let mut value = Some(0);
    let mut count: usize = 0;
    let mut rest = text;
    while let Some((c, more)) = front(rest) {
        if !is_digit(c) {
            break;
        }
        value = with_digit(value, c as u32 - 48);
        count += 1;
        rest = more;
    }
    (Number { value, count }, rest)
}
