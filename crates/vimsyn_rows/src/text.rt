//! Words, names and texts of a session: bytes, escapes and repetitions.

use crate::mistake::{Mistake, Unread};
use byte_text::{push_number, push_number_from_one};
use std::alloc::Global;

/// The most bytes of a text, and the most pieces of all turns of a repetition.
const MOST_BYTES: usize = 100_000_000;

/// A piece of a text.
#[derive(Clone, Copy)]
enum Piece {
    Byte(u8),
    Nothing,
    /// The number of the turn, from 0.
    Turn,
    /// That number and one.
    NextTurn,
    /// The front of a repetition with so many turns, and its end.
    Opening(usize),
    Closing,
}

/// Appends the bytes for which a text stands.
pub(crate) fn push_text(alloc: Global, bytes: &mut Vec<u8>, text: &[u8]) -> Result<(), Unread> {
    let pieces = pieces_of(alloc, text)?;
    push_pieces(bytes, pieces.as_slice())
}

fn push_pieces(bytes: &mut Vec<u8>, pieces: &[Piece]) -> Result<(), Unread> {
    let mut rest = pieces;
    // Each turn takes a piece or more, so nothing is left in the end.
    for _ in 0..pieces.len() {
        rest = push_front(bytes, rest)?;
    }
    Ok(())
}

/// Appends the first piece, or the repetition that it begins, and answers what stands behind that.
fn push_front<'p>(bytes: &mut Vec<u8>, pieces: &'p [Piece]) -> Result<&'p [Piece], Unread> {
    match pieces.split_first() {
        None => Ok(pieces),
        Some((Piece::Opening(count), behind)) => push_repetition(bytes, *count, behind),
        Some((piece, behind)) => {
            push_piece(bytes, *piece, None)?;
            Ok(behind)
        }
    }
}

/// Appends a repetition, and answers what stands behind its end.
fn push_repetition<'p>(
    bytes: &mut Vec<u8>,
    count: usize,
    pieces: &'p [Piece],
) -> Result<&'p [Piece], Unread> {
    let Some((repeated, behind)) = split_at_closing(pieces) else {
        return Err(Unread::Mistake(Mistake::Repetition));
    };
    if repeated.len().saturating_mul(count) > MOST_BYTES {
        return Err(Unread::Mistake(Mistake::TooLong));
    }
    for turn in 0..count {
        for piece in repeated {
            push_piece(bytes, *piece, Some(turn))?;
        }
    }
    Ok(behind)
}

/// The pieces before the first end of a repetition, and those behind it.
fn split_at_closing(pieces: &[Piece]) -> Option<(&[Piece], &[Piece])> {
    let mut parts = pieces.splitn(2, |piece: &Piece| matches!(piece, Piece::Closing));
    Some((parts.next()?, parts.next()?))
}

/// Appends the bytes of a piece that is no bound of a repetition; `turn` is that of the repetition in which
/// it stands, if it stands in one.
fn push_piece(bytes: &mut Vec<u8>, piece: Piece, turn: Option<usize>) -> Result<(), Unread> {
    match piece {
        Piece::Byte(byte) => bytes.push(byte)?,
        Piece::Nothing => {}
        Piece::Turn => push_number(bytes, turn.ok_or(Mistake::Nested)?)?,
        Piece::NextTurn => push_number_from_one(bytes, turn.ok_or(Mistake::Nested)?)?,
        Piece::Opening(_) | Piece::Closing => return Err(Unread::Mistake(Mistake::Nested)),
    }
    if bytes.len() > MOST_BYTES {
        return Err(Unread::Mistake(Mistake::TooLong));
    }
    Ok(())
}

/// The pieces of a text in order.
fn pieces_of(alloc: Global, text: &[u8]) -> Result<Vec<Piece>, Unread> {
    let mut pieces = Vec::new(alloc);
    let mut rest = text;
    // Each turn takes a byte or more, so nothing is left in the end.
    for _ in 0..text.len() {
        let Some((byte, behind)) = rest.split_first() else {
            break;
        };
        let (piece, behind) = piece_of(*byte, behind)?;
        pieces.push(piece)?;
        rest = behind;
    }
    Ok(pieces)
}

/// The piece that begins with a byte, and what stands behind it.
fn piece_of(byte: u8, behind: &[u8]) -> Result<(Piece, &[u8]), Mistake> {
    if byte == b'\\' {
        escaped(behind)
    } else {
        Ok((Piece::Byte(byte), behind))
    }
}

/// The piece of an escape whose letter stands first, and what stands behind it.
fn escaped(escape: &[u8]) -> Result<(Piece, &[u8]), Mistake> {
    let (letter, behind) = escape.split_first().ok_or(Mistake::Escape)?;
    let piece = match *letter {
        b'n' => Piece::Byte(b'\n'),
        b't' => Piece::Byte(b'\t'),
        b'r' => Piece::Byte(b'\r'),
        b'\\' | b'\'' | b'"' => Piece::Byte(*letter),
        b'e' => Piece::Nothing,
        b'#' => Piece::Turn,
        b'+' => Piece::NextTurn,
        b')' => Piece::Closing,
        b'x' => return hexadecimal(behind),
        b'(' => return opening(behind),
        _ => return Err(Mistake::Escape),
    };
    Ok((piece, behind))
}

/// The byte of two hexadecimal digits, and what stands behind them.
fn hexadecimal(text: &[u8]) -> Result<(Piece, &[u8]), Mistake> {
    let [high, low, behind @ ..] = text else {
        return Err(Mistake::Escape);
    };
    let high = digit_of(*high).ok_or(Mistake::Escape)?;
    let low = digit_of(*low).ok_or(Mistake::Escape)?;
    Ok((Piece::Byte((high << 4) | low), behind))
}

/// The number of a hexadecimal digit.
fn digit_of(byte: u8) -> Option<u8> {
    match byte {
        b'0'..=b'9' => Some(byte - b'0'),
        b'a'..=b'f' => Some(byte - b'a' + 10),
        b'A'..=b'F' => Some(byte - b'A' + 10),
        _ => None,
    }
}

/// The front of a repetition, behind its bracket, and what stands behind the colon.
fn opening(text: &[u8]) -> Result<(Piece, &[u8]), Mistake> {
    let mut parts = text.splitn(2, |byte: &u8| *byte == b':');
    let (Some(count), Some(behind)) = (parts.next(), parts.next()) else {
        return Err(Mistake::Repetition);
    };
    match number_of(count) {
        Some(count) if count <= MOST_BYTES => Ok((Piece::Opening(count), behind)),
        Some(_) => Err(Mistake::TooLong),
        None => Err(Mistake::Repetition),
    }
}

/// The number that decimal digits stand for.
pub(crate) fn number_of(digits: &[u8]) -> Option<usize> {
    std::str::from_utf8(digits).ok()?.parse().ok()
}

/// The words of a text, which blanks part.
pub(crate) fn push_words(
    alloc: Global,
    words: &mut Vec<String>,
    text: &[u8],
) -> Result<(), Unread> {
    for word in text.split(|byte: &u8| *byte == b' ') {
        if !word.is_empty() {
            words.push(word_of(alloc, word)?)?;
        }
    }
    Ok(())
}

/// The word for which a text stands.
fn word_of(alloc: Global, text: &[u8]) -> Result<String, Unread> {
    let mut bytes = Vec::new(alloc);
    push_text(alloc, &mut bytes, text)?;
    match std::str::from_utf8(bytes.as_slice()) {
        Ok(word) => Ok(String::from_str(alloc, word)?),
        Err(_) => Err(Unread::Mistake(Mistake::Utf8)),
    }
}
