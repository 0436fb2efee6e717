//! Numbers of positions, whose digits count.
ghost use Rattle.std.specs.Prelude.{◌≡◌, ◌≤◌, length, true};
ghost use Rattle.std.specs.List.{list_all, prefix_len};
ghost use Rattle.pattern_items.specs.Numbers as spec;

use text_scan::is_digit;

/// How many digits stand at the front of a text.
pub fn digit_count(text: &[char]) -> usize
    ensures count { result ≡ prefix_len spec.is_digit text.now }
    ensures within { result ≤ length text.now }
{
    text.iter().take_while(|c| is_digit(**c)).count()
}

/// The number of these digits.
pub fn number_of_digits(digits: &[char]) -> u32
    requires digits { list_all spec.is_digit digits.now ≡ true }
    requires few { length digits.now ≤ 9 }
    ensures { result ≡ spec.number_of_digits digits.now }
{
    let mut number: u32 = 0;
    for digit in digits {
        number = number * 10 + (*digit as u32 - 48);
    }
    number
}
