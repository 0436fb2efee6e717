//! Generated lines: words that are drawn, with one space between two of them.
ghost use Rattle.std.specs.Prelude.{◌≡◌, ◌<◌, ◌∷◌, ◌++◌, [], get_or, IfOk, OnOk};
ghost use Rattle.text_buffer.specs.BytesOfText.{bytes_of};
ghost use Rattle.large_session.specs.Draws.{draw};
ghost use Rattle.large_session.specs.GeneratedText.{drawn_word, further_words, generated_line, generated_lines, words};

use crate::draws::Draws;
use byte_text::push_chars;
use std::alloc::Global;
use syn_base::{List, Memory};
use text_buffer::Line;

/// The bytes of a text of so many generated lines, each with a line break behind it.
pub fn generated_bytes(alloc: Global, draws: &mut Draws, count: usize) -> Result<List<u8>, Memory>
    ensures bytes { IfOk result (λ bytes.
        bytes ≡ bytes_of (generated_lines count draws.old).value) }
    ensures draws { OnOk result (draws.new ≡ (generated_lines count draws.old).next) }
{
    let mut out = Vec::new(alloc);
    for _ in 0..count {
        push_generated(alloc, draws, &mut out)?;
    }
    Ok(List::from_vec(out))
}

/// Appends a generated line and its line break.
fn push_generated(alloc: Global, draws: &mut Draws, out: &mut Vec<u8>) -> Result<(), Memory>
    ensures bytes { OnOk result (out.new.items ≡ out.old.items
        ++ bytes_of ((generated_line draws.old).value ∷ [])) }
    ensures draws { OnOk result (draws.new ≡ (generated_line draws.old).next) }
{
    let line = generated_line(alloc, draws)?;
    push_chars(out, line.as_slice())?;
    out.push(b'\n')?;
    Ok(())
}

/// A generated line.
pub(crate) fn generated_line(alloc: Global, draws: &mut Draws) -> Result<Line, Memory>
    ensures line { IfOk result (λ line. line ≡ (generated_line draws.old).value) }
    ensures draws { OnOk result (draws.new ≡ (generated_line draws.old).next) }
{
    let count = draws.draw(6);
    let mut line = List::new(alloc);
    push_word(draws, &mut line)?;
    push_further(draws, &mut line, count)?;
    Ok(line)
}

/// Appends so many drawn words, each behind a space.
fn push_further(draws: &mut Draws, line: &mut Line, count: usize) -> Result<(), Memory>
    ensures line { OnOk result (line.new ≡ line.old ++ (further_words count draws.old).value) }
    ensures draws { OnOk result (draws.new ≡ (further_words count draws.old).next) }
{
    for _ in 0..count {
        line.push(' ')?;
        push_word(draws, line)?;
    }
    Ok(())
}

/// Appends a drawn word.
fn push_word(draws: &mut Draws, line: &mut Line) -> Result<(), Memory>
    ensures line { OnOk result (line.new ≡ line.old ++ (drawn_word draws.old).value) }
    ensures draws { OnOk result (draws.new ≡ (drawn_word draws.old).next) }
{
    push_ascii(line, word(draws.draw(12)).as_bytes())
}

/// Appends characters that are given by their codes.
fn push_ascii(line: &mut Line, codes: &[u8]) -> Result<(), Memory>
    ensures { OnOk result (line.new ≡ line.old ++ codes.now) }
{
    for code in codes {
        line.push(char::from(*code))?;
    }
    Ok(())
}

/// The word of this number.
fn word(number: usize) -> &'static str
    requires { number < 12 }
    ensures { result.now ≡ get_or words number [] }
{
    match number {
        0 => "int",
        1 => "if",
        2 => "name",
        3 => "42",
        4 => "\"a b\"",
        5 => "/*",
        6 => "*/",
        7 => "(",
        8 => ")",
        9 => "// TODO",
        10 => "#x",
        _ => "\\",
    }
}
