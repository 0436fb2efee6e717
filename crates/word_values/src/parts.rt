//! Parts of a word.
ghost use Rattle.std.specs.Prelude.{◌≡◌};
ghost use Rattle.word_values.specs.Parts as spec;

use text_scan::front;

/// Whether this part stands at the front of a text, up to a separator or the end.
fn part_here(separator: char, part: &[u8], text: &[char]) -> bool
    ensures { result ≡ spec.part_here separator part.now text.now }
{
    let mut left = part;
    let mut rest = text;
    while let Some((w, fewer)) = front(left) {
        match front(rest) {
            None => return false,
            Some((c, more)) => {
                if c as u32 != w as u32 {
                    return false;
                }
                rest = more;
                left = fewer;
            }
        }
    }
    match front(rest) {
        None => true,
        Some((c, _)) => c == separator,
    }
}

fn has_part_bytes(separator: char, part: &[u8], word: &[char]) -> bool
    ensures { result ≡ spec.has_part separator part.now word.now }
{
    let mut begins_here = true;
    let mut rest = word;
    while let Some((c, more)) = front(rest) {
        if begins_here && part_here(separator, part, rest) {
            return true;
        }
        begins_here = c == separator;
        rest = more;
    }
    begins_here && part_here(separator, part, &[])
}

/// Whether one of a word's parts, which stand between separators, is this ASCII word.
pub fn has_part(separator: char, part: &str, word: &[char]) -> bool
    ensures { result ≡ spec.has_part separator part.now word.now }
{
    has_part_bytes(separator, part.as_bytes(), word)
}
