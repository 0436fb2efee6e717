//! Items in their places.
ghost use Rattle.std.specs.Prelude.{◌≡◌, ◌^◌, [], ◌∷◌, ◌<◌, ◌≤◌, ◌+◌, ◌-◌, length, MatchOption, IfOk, Some, None, drop, take, false};
ghost use Rattle.pattern_items.specs.Place as spec;
ghost use Rattle.pattern_items.specs.Vain.{Known};

use crate::collection::collection_sign;
use crate::item::{Before, Kind, Level, PatternUse, Placed, Raw, Sign, Spelled, Surroundings};
use crate::multis::count;
use crate::scan::{behind, first_of};
use crate::spelling::spelling;
use crate::vain::vain_behind;
use crate::{Atom, PatternCause};
use std::alloc::Global;
use syn_base::{List, Memory};

fn is_very(level: Level) -> bool
    ensures { result ≡ spec.is_very level }
{
    matches!(level, Level::Very)
}

/// Whether a dollar before this item is the line stop.
fn is_stop(raw: &Raw) -> bool
    ensures { result ≡ spec.is_stop raw.now }
{
    matches!(
        raw,
        Raw::Bar | Raw::Close | Raw::Also | Raw::Atom(Atom::LineEnd)
    )
}

/// The level behind an item that takes no room.
fn level_past(level: Level, raw: &Raw) -> Option<Level>
    ensures { result ≡ spec.level_past level raw.now }
{
    match raw {
        Raw::Magic(next) => Some(*next),
        Raw::Case { ignore: _ } => Some(level),
        Raw::Engine => Some(level),
        _ => None,
    }
}

/// Whether a dollar before this text is the line stop.
#[tactic(auto, using(crate::proofs::PlaceLaws::stops_step, crate::proofs::VainLaws::known_drop))]
fn stops(level: Level, in_vain: bool, text: &[char]) -> bool
    requires short { length text.now < 2 ^ 61 }
    requires known { Known in_vain text.now }
    ensures { result ≡ spec.stops 0 level text.now }
{
    let mut level = level;
    let mut rest = text;
    while rest.len() > 0 {
        let s = spelling(false, level, in_vain, rest);
        match level_past(level, &s.raw) {
            None => return is_stop(&s.raw),
            Some(next) => {
                level = next;
                rest = behind(rest, s.len);
            }
        }
    }
    true
}

fn begins(before: Before) -> bool
    ensures { result ≡ spec.begins before }
{
    matches!(before, Before::Begin | Before::LineEnd)
}

fn star_is_char(before: Before) -> bool
    ensures { result ≡ spec.star_is_char before }
{
    matches!(before, Before::Begin | Before::LineStart)
}

fn before_next(before: Before, sign: &Sign) -> Before
    ensures { result ≡ spec.before_next before sign.now }
{
    match sign {
        Sign::Atom(Atom::LineStart) => Before::LineStart,
        Sign::Atom(Atom::LineEnd) => Before::LineEnd,
        Sign::Open(Kind::Counted(_)) | Sign::Open(Kind::Plain) | Sign::Open(Kind::External(_)) => {
            Before::Begin
        },
        Sign::Bar | Sign::Also => Before::Begin,
        Sign::Quiet { ignore: _ } => before,
        _ => Before::Within,
    }
}

fn level_next(level: Level, raw: &Raw) -> Level
    ensures { result ≡ spec.level_next level raw.now }
{
    match raw {
        Raw::Magic(next) => *next,
        _ => level,
    }
}

fn groups_next(groups: u8, sign: &Sign) -> u8
    ensures { result ≡ spec.groups_next groups sign.now }
{
    match sign {
        Sign::Open(Kind::Counted(number)) => *number,
        _ => groups,
    }
}

fn externals_next(externals: u8, sign: &Sign) -> u8
    ensures { result ≡ spec.externals_next externals sign.now }
{
    match sign {
        Sign::Open(Kind::External(number)) => *number,
        _ => externals,
    }
}

fn surroundings_next(around: Surroundings, level: Level, sign: &Sign) -> Surroundings
    ensures { result ≡ spec.surroundings_next around level sign.now }
{
    Surroundings {
        usage: around.usage,
        level,
        before: before_next(around.before, sign),
        groups: groups_next(around.groups, sign),
        externals: externals_next(around.externals, sign),
        first: false,
    }
}

fn wrong(cause: PatternCause) -> Sign
    ensures { result ≡ Sign.Wrong 0 cause }
{
    Sign::Wrong { before: 0, cause }
}

fn caret(around: Surroundings) -> Sign
    ensures { result ≡ spec.caret around }
{
    if is_very(around.level) || begins(around.before) {
        Sign::Atom(Atom::LineStart)
    } else {
        Sign::Atom(Atom::Char('^'))
    }
}

/// A dollar with this behind it.
fn dollar(around: Surroundings, in_vain: bool, rest: &[char]) -> Sign
    requires short { length rest.now < 2 ^ 61 }
    requires known { Known in_vain rest.now }
    ensures { result ≡ spec.dollar around rest.now }
{
    if is_very(around.level) || stops(around.level, in_vain, rest) {
        Sign::Atom(Atom::LineStop)
    } else {
        Sign::Atom(Atom::Char('$'))
    }
}

fn star(around: Surroundings) -> Sign
    ensures { result ≡ spec.star around }
{
    if star_is_char(around.before) {
        Sign::Atom(Atom::Char('*'))
    } else {
        Sign::Multi(count(0, None, false))
    }
}

fn group(around: Surroundings) -> Sign
    ensures { result ≡ spec.group around }
{
    if around.groups < 9 {
        Sign::Open(Kind::Counted(around.groups + 1))
    } else {
        wrong(PatternCause::TooManyGroups)
    }
}

fn external(around: Surroundings) -> Sign
    ensures { result ≡ spec.external around }
{
    match around.usage {
        PatternUse::Start => {
            if around.externals < 9 {
                Sign::Open(Kind::External(around.externals + 1))
            } else {
                wrong(PatternCause::TooManyGroups)
            }
        }
        _ => wrong(PatternCause::ExternalHere),
    }
}

fn reference(around: Surroundings, number: u8) -> Sign
    ensures { result ≡ spec.reference around number }
{
    if number <= around.groups {
        Sign::Atom(Atom::Ref(number))
    } else {
        wrong(PatternCause::BadReference)
    }
}

fn external_reference(around: Surroundings, number: u8) -> Sign
    ensures { result ≡ spec.external_reference around number }
{
    match around.usage {
        PatternUse::SkipOrEnd => Sign::Atom(Atom::ExternalRef(number)),
        _ => wrong(PatternCause::ExternalHere),
    }
}

/// What is between a collection's brackets.
fn inner_of(text: &[char], before: u8) -> &[char]
    ensures { result.now ≡ spec.inner_of text.now before }
{
    let skipped = before as usize + 1;
    if skipped <= text.len() {
        behind(text, skipped)
    } else {
        &[]
    }
}

/// The item that is spelled at the front of a text.
#[tactic(auto, using(crate::proofs::VainLaws::known_drop))]
fn in_place(
    alloc: Global,
    around: Surroundings,
    in_vain: bool,
    text: &[char],
    spelled: Spelled,
) -> Result<Sign, Memory>
    requires few { length text.now < 2 ^ 61 }
    requires some { 1 ≤ spelled.len }
    requires within { spelled.len ≤ length text.now }
    requires known { Known in_vain text.now }
    ensures { IfOk result (λ g. g ≡ spec.in_place around text.now spelled.len spelled.raw) }
{
    let Spelled { raw, len } = spelled;
    match raw {
        Raw::Atom(atom) => Ok(Sign::Atom(atom)),
        Raw::Caret => Ok(caret(around)),
        Raw::Dollar => Ok(dollar(around, in_vain, behind(text, len))),
        Raw::Star => Ok(star(around)),
        Raw::Collection { line_end, before } => {
            collection_sign(
                alloc,
                line_end,
                before,
                inner_of(first_of(text, len - 1), before),
            )
        }
        Raw::LoneBracket => Ok(Sign::Atom(Atom::Char('['))),
        Raw::Multi(multi) => Ok(Sign::Multi(multi)),
        Raw::Group => Ok(group(around)),
        Raw::Plain => Ok(Sign::Open(Kind::Plain)),
        Raw::External => Ok(external(around)),
        Raw::Optional => Ok(Sign::Open(Kind::Optional)),
        Raw::Close => Ok(Sign::Close),
        Raw::Square => Ok(Sign::Square),
        Raw::Bar => Ok(Sign::Bar),
        Raw::Also => Ok(Sign::Also),
        Raw::Magic(_) => Ok(Sign::Quiet { ignore: None }),
        Raw::Case { ignore } => Ok(Sign::Quiet {
            ignore: Some(ignore),
        }),
        Raw::Engine => Ok(Sign::Quiet { ignore: None }),
        Raw::Reference(number) => Ok(reference(around, number)),
        Raw::ExternalReference(number) => Ok(external_reference(around, number)),
        Raw::LeftOut => {
            let item = List::from_slice(alloc, first_of(text, len))?;
            Ok(wrong(PatternCause::LeftOut(item)))
        }
        Raw::Wrong(cause) => Ok(wrong(cause)),
    }
}

/// The item at the front of a text, in its place. `in_vain` remembers whether a search for a
/// closing bracket was in vain, so that none is made again: it begins as `false`.
#[tactic(auto, using(crate::proofs::VainLaws::known_drop))]
pub fn next_item(
    alloc: Global,
    around: Surroundings,
    in_vain: &mut bool,
    text: &[char],
) -> Result<Placed, Memory>
    requires few { length text.now < 2 ^ 61 }
    requires some { 0 < length text.now }
    requires known { Known in_vain.old text.now }
    ensures value { IfOk result (λ p. p ≡ spec.placed around text.now) }
    ensures some { IfOk result (λ p. 1 ≤ p.len) }
    ensures within { IfOk result (λ p. p.len ≤ length text.now) }
    ensures known { IfOk result (λ p. Known in_vain.new (drop p.len text.now)) }
{
    let before = *in_vain;
    let spelled = spelling(around.first, around.level, before, text);
    let len = spelled.len;
    let level = level_next(around.level, &spelled.raw);
    *in_vain = vain_behind(before, &spelled.raw, behind(text, len));
    let sign = in_place(alloc, around, before, text, spelled)?;
    let next = surroundings_next(around, level, &sign);
    Ok(Placed { sign, len, next })
}
