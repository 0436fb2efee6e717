//! Printing into one buffer of bytes: bytes as they are, numbers in digits, characters as UTF-8.
//!
//! What prints lines, pages or causes appends its pieces by these to a buffer that grows, so a text
//! costs what it writes.
#![tactic(auto)]

ghost use Rattle.std.specs.Prelude.{◌≡◌, ◌<◌, ◌+◌, ◌++◌, decimal, encode_utf8, encode_utf8_all, length, OnOk};

use itoa::Buffer;
use std::alloc::AllocError;

/// Appends bytes.
pub fn push_bytes(out: &mut Vec<u8>, bytes: &[u8]) -> Result<(), AllocError>
    ensures { OnOk result (out.new.items ≡ out.old.items ++ bytes.now) }
{
    out.extend_from_slice(bytes)
}

/// Appends a number in decimal digits.
pub fn push_number(out: &mut Vec<u8>, number: usize) -> Result<(), AllocError>
    ensures { OnOk result (out.new.items ≡ out.old.items ++ decimal number) }
{
    if number < 100 {
        push_short(out, number)
    } else {
        push_long(out, number)
    }
}

/// Appends a number of one digit or two.
fn push_short(out: &mut Vec<u8>, number: usize) -> Result<(), AllocError>
    requires { number < 100 }
    ensures { OnOk result (out.new.items ≡ out.old.items ++ decimal number) }
{
    let last = b'0' + (number % 10) as u8;
    if number < 10 {
        return out.extend_from_slice(&[last]);
    }
    out.extend_from_slice(&[b'0' + (number / 10) as u8, last])
}

/// Appends any number.
#[inline(never)]
fn push_long(out: &mut Vec<u8>, number: usize) -> Result<(), AllocError>
    ensures { OnOk result (out.new.items ≡ out.old.items ++ decimal number) }
{
    out.extend_from_slice(Buffer::new().format(number).as_bytes())
}

/// Appends the number, counted from 1, of what has this number counted from 0. The greatest `usize`
/// has one too.
pub fn push_number_from_one(out: &mut Vec<u8>, number: usize) -> Result<(), AllocError>
    ensures { OnOk result (out.new.items ≡ out.old.items ++ decimal (number + 1)) }
{
    out.extend_from_slice(Buffer::new().format(number as u128 + 1).as_bytes())
}

/// How many digits a number has.
pub fn width_of(number: usize) -> usize
    ensures { result ≡ length (decimal number) }
{
    Buffer::new().format(number).len()
}

/// Appends characters as UTF-8.
pub fn push_chars(out: &mut Vec<u8>, characters: &[char]) -> Result<(), AllocError>
    ensures { OnOk result (out.new.items ≡ out.old.items ++ encode_utf8_all characters.now) }
{
    for c in characters {
        push_char(out, *c)?;
    }
    Ok(())
}

/// Appends a character as UTF-8.
pub fn push_char(out: &mut Vec<u8>, c: char) -> Result<(), AllocError>
    ensures { OnOk result (out.new.items ≡ out.old.items ++ encode_utf8 c) }
{
    out.extend_from_slice(c.encode_utf8(&mut [0; 4]).as_bytes())
}
