//! Between which characters below 256 the parts of a collection lie.
ghost use Rattle.std.specs.Prelude.{◌≡◌, ℕ, Bool};
ghost use Rattle.char_class.specs.Folds.{lies_in, range_holds};
ghost use Rattle.pattern_items.specs.declared.atom.SetPart.TheVariants.{Of};
ghost use Rattle.pattern_match.specs.Bounds.{LieIn, PartLiesIn, first_alike, last_alike};

use pattern_items::SetPart;
use syn_base::Class;

/// The lowest and the highest of some codes, both included. There are none where the first is above
/// the second.
#[derive(Clone, Copy)]
pub(crate) struct CodeRange {
    pub low: u8,
    pub high: u8,
}

/// Bounds of the characters below 256 that a part holds.
pub(crate) fn bounds(part: SetPart, ignore: bool) -> CodeRange
    ensures { PartLiesIn part ignore result.low result.high }
{
    match part {
        SetPart::Range(low, high) => range_bounds(low, high, ignore),
        SetPart::Of(class) => class_bounds(class),
        SetPart::Punct | SetPart::Graph => between(b'!', b'~'),
        SetPart::Cntrl => between(0, 127),
        SetPart::Space => between(b'\t', b' '),
    }
}

fn between(low: u8, high: u8) -> CodeRange
    ensures low { result.low ≡ low }
    ensures high { result.high ≡ high }
{
    CodeRange { low, high }
}

/// Bounds of the characters of a class.
fn class_bounds(class: Class) -> CodeRange
    ensures { (ignore : Bool) → PartLiesIn (Of class) ignore result.low result.high }
{
    match class {
        Class::White => between(b'\t', b' '),
        Class::Digit | Class::Octal => between(b'0', b'9'),
        Class::Hex | Class::Word => between(b'0', b'z'),
        Class::Head | Class::Alpha | Class::Lower | Class::Upper => between(b'A', b'z'),
        _ => between(0, u8::MAX),
    }
}

/// Bounds of the characters of a range. With case ignored, the letters of ASCII and what stands
/// between them hold together.
fn range_bounds(low: char, high: char, ignore: bool) -> CodeRange
    ensures { LieIn (λ c. range_holds low high c ignore) result.low result.high }
{
    if ignore {
        between(first_alike(low), last_alike(high))
    } else {
        exact_bounds(low, high)
    }
}

fn exact_bounds(low: char, high: char) -> CodeRange
    ensures { LieIn (lies_in low high) result.low result.high }
{
    match u8::try_from(low) {
        Ok(first) => between(first, u8::try_from(high).unwrap_or(u8::MAX)),
        Err(_) => between(1, 0),
    }
}

/// The first code whose fold may stand at this character or behind it.
fn first_alike(low: char) -> u8
    ensures { result ≡ first_alike low }
{
    if low < 'A' {
        low as u8
    } else if low <= 'z' {
        b'A'
    } else {
        b'{'
    }
}

/// The last code whose fold may stand at this character or before it.
fn last_alike(high: char) -> u8
    ensures { result ≡ last_alike high }
{
    if high < 'A' {
        high as u8
    } else if high <= 'z' {
        b'z'
    } else {
        u8::MAX
    }
}
