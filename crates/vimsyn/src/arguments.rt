//! The words behind the program's name.
ghost use Rattle.std.specs.Prelude.{◌≤◌, IfOk, IfSome, vec_len};

use std::alloc::{AllocError, Global};
use std::env::{Env, FillError};

/// The words behind the program's name. Those that aren't UTF-8 are left out.
pub(crate) fn read_words<R: Env>(alloc: Global, rt: &R) -> Result<Vec<String>, AllocError> {
    let mut words = Vec::new(alloc);
    let mut buffer = vec![in alloc; 0u8; 4096]?;
    for i in 1..usize::MAX {
        let Some(length) = read_argument(rt, i, &mut buffer)? else {
            break;
        };
        if let Ok(word) = std::str::from_utf8(&buffer[..length]) {
            words.push(String::from_str(alloc, word)?)?;
        }
    }
    Ok(words)
}

/// Puts argument `i` into the front of the buffer, which grows until it fits, and answers its length.
/// None stands behind the last argument.
fn read_argument<R: Env>(
    rt: &R,
    i: usize,
    buffer: &mut Vec<u8>,
) -> Result<Option<usize>, AllocError>
    ensures { IfOk result (λ argument. IfSome argument (λ length. length ≤ vec_len buffer.new)) }
{
    // The buffer fits after some turns; counted turns need no measure.
    for _ in 0..u64::MAX {
        match rt.arg(i, buffer.as_mut_slice()) {
            Ok(length) => return Ok(Some(length)),
            Err(FillError::NotPresent) => return Ok(None),
            Err(FillError::TooLong) => buffer.resize(buffer.len().saturating_mul(2), 0)?,
        }
    }
    Ok(None)
}
