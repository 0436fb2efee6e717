//! Characters by their code.
ghost use Rattle.std.specs.Prelude.{◌≡◌, [], ◌∷◌, ◌<◌, ◌≤◌, ◌+◌, length, IfSome};
ghost use Rattle.pattern_items.specs.Codes as spec;

use text_scan::front;

/// How a code is written (`/\%d`, `/\%o`, `/\%x`, `/\%u`, `/\%U`).
#[derive(Clone, Copy)]
pub enum Notation {
    Decimal,
    Octal,
    /// Up to two hexadecimal digits.
    Hex2,
    Hex4,
    Hex8,
}

/// The code that some digits write, and how many they are.
#[derive(Clone, Copy)]
pub struct Code {
    pub value: u64,
    pub count: usize,
}

/// The notation that a letter names.
pub fn notation_of(c: char) -> Option<Notation>
    ensures { result ≡ spec.notation_of c }
{
    match c {
        'd' => Some(Notation::Decimal),
        'o' => Some(Notation::Octal),
        'x' => Some(Notation::Hex2),
        'u' => Some(Notation::Hex4),
        'U' => Some(Notation::Hex8),
        _ => None,
    }
}

fn base_of(notation: Notation) -> u32
    ensures value { result ≡ spec.base_of notation }
    ensures least { 8 ≤ result }
    ensures most { result ≤ 16 }
{
    match notation {
        Notation::Decimal => 10,
        Notation::Octal => 8,
        _ => 16,
    }
}

fn most_digits(notation: Notation) -> usize
    ensures value { result ≡ spec.most_digits notation }
    ensures most { result ≤ 10 }
{
    match notation {
        Notation::Decimal => 10,
        Notation::Octal => 4,
        Notation::Hex2 => 2,
        Notation::Hex4 => 4,
        Notation::Hex8 => 8,
    }
}

fn greatest_of(notation: Notation) -> u64
    ensures value { result ≡ spec.greatest_of notation }
    ensures most { result ≤ 9999999999 }
{
    match notation {
        Notation::Octal => 255,
        _ => 9999999999,
    }
}

/// The code with one digit more, and none where the character is none of its digits.
fn with_digit(notation: Notation, code: Code, c: char) -> Option<Code>
    requires { code.value ≤ 9999999999 }
    ensures value { result ≡ spec.with_digit notation code c }
    ensures most { IfSome result (λ k. (k.value ≤ 9999999999) × (k.count ≡ code.count + 1)) }
{
    if code.count >= most_digits(notation) {
        return None;
    }
    let base = base_of(notation);
    match c.to_digit(base) {
        None => None,
        Some(digit) => {
            let value = code.value * base as u64 + digit as u64;
            if value > greatest_of(notation) {
                return None;
            }
            let count = code.count + 1;
            Some(Code { value, count })
        }
    }
}

/// The code at the front of a text.
pub fn code_at(notation: Notation, text: &[char]) -> Code
    ensures value { result ≡ spec.code notation text.now }
    ensures within { result.count ≤ length text.now }
{
    let mut code = Code { value: 0, count: 0 };
    let mut rest = text;
    while let Some((c, more)) = front(rest) {
        match with_digit(notation, code, c) {
            None => break,
            Some(next) => {
                code = next;
                rest = more;
            }
        }
    }
    code
}

/// The character of a code.
pub fn char_of(value: u64) -> Option<char>
    ensures { result ≡ spec.char_of value }
{
    if value > 0x10FFFF {
        return None;
    }
    char::from_u32(value as u32)
}
