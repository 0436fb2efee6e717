//! Where a pattern ends.
ghost use Rattle.std.specs.Prelude.{◌≡◌, ◌∷◌, [], ◌++◌, Some, None, IfOk, IfSome, MatchOption};
ghost use Rattle.pattern_items.specs.Vain.{Known};
ghost use Rattle.word_reader.specs.Delimited as spec;

use pattern_items::{Level, first_collection_end};
use std::alloc::Global;
use syn_base::{List, Memory};
use text_scan::{front, is_blank, is_digit, is_letter};

/// How the next character of a pattern is read.
#[derive(Clone, Copy)]
pub(crate) enum Next {
    Free,
    /// A backslash stands before it.
    Escaped,
    /// `\_` stands before it: a bracket opens a collection at every level.
    ClassLetter,
    /// A percent sign stands before it, perhaps with a sign of comparison: a bracket opens no collection
    /// (`/\%[]`), and a quote begins a mark (`/\%'m`).
    Percent,
    /// The quote of a mark stands before it: a bracket is its name.
    Mark,
    /// It is one of so many characters up to the end of a collection, with its closing bracket.
    Inside(usize),
}

/// What the characters of a pattern so far leave.
#[derive(Clone, Copy)]
pub(crate) struct Scan {
    pub level: Level,
    pub next: Next,
}

/// The scan, and whether a search for a closing bracket was in vain.
#[derive(Clone, Copy)]
struct Search {
    scan: Scan,
    in_vain: bool,
}

/// Whether a pattern may stand between two of this character.
pub fn can_delimit(c: char) -> bool
    ensures { result ≡ spec.can_delimit c }
{
    !(is_blank(c) || is_letter(c) || is_digit(c) || c == '\\')
}

fn is_very(level: Level) -> bool
    ensures { result ≡ spec.is_very level }
{
    match level {
        Level::Very => true,
        _ => false,
    }
}

fn opens_escaped(level: Level) -> bool
    ensures { result ≡ spec.opens_escaped level }
{
    match level {
        Level::VeryNo | Level::No => true,
        Level::Usual | Level::Very => false,
    }
}

fn level_after(level: Level, c: char) -> Level
    ensures { result ≡ spec.level_after level c }
{
    match c {
        'v' => Level::Very,
        'm' => Level::Usual,
        'M' => Level::No,
        'V' => Level::VeryNo,
        _ => level,
    }
}

/// Whether a bracket opens a collection.
fn bracket_opens(level: Level, next: Next) -> bool
    ensures { result ≡ spec.bracket_opens level next }
{
    match next {
        Next::Escaped => opens_escaped(level),
        Next::ClassLetter => true,
        Next::Percent | Next::Mark => false,
        Next::Inside(_) => false,
        Next::Free => !opens_escaped(level),
    }
}

fn opens(scan: Scan, c: char) -> bool
    ensures { result ≡ spec.opens scan c }
{
    c == '[' && bracket_opens(scan.level, scan.next)
}

fn inside(end: Option<usize>) -> Next
    ensures { result ≡ spec.inside end }
{
    match end {
        None => Next::Free,
        Some(more) => Next::Inside(more),
    }
}

fn behind_inside(more: usize) -> Next
    ensures { result ≡ spec.behind_inside more }
{
    if more <= 1 {
        Next::Free
    } else {
        Next::Inside(more - 1)
    }
}

/// How the next character is read where nothing before this one changes what it is.
fn plainly_next(level: Level, c: char) -> Next
    ensures { result ≡ spec.plainly_next level c }
{
    match c {
        '\\' => Next::Escaped,
        '%' if is_very(level) => Next::Percent,
        _ => Next::Free,
    }
}

/// The same behind a percent sign.
fn behind_percent(level: Level, c: char) -> Next
    ensures { result ≡ spec.behind_percent level c }
{
    match c {
        '\'' => Next::Mark,
        '<' | '>' => Next::Percent,
        _ => plainly_next(level, c),
    }
}

/// The same behind a backslash.
fn behind_backslash(level: Level, c: char) -> Next
    ensures { result ≡ spec.behind_backslash level c }
{
    match c {
        '_' => Next::ClassLetter,
        '%' if !is_very(level) => Next::Percent,
        _ => Next::Free,
    }
}

fn next_by(level: Level, next: Next, c: char) -> Next
    ensures { result ≡ spec.next_by level next c }
{
    match next {
        Next::Escaped => behind_backslash(level, c),
        Next::Percent => behind_percent(level, c),
        Next::Inside(more) => behind_inside(more),
        Next::Free | Next::ClassLetter | Next::Mark => plainly_next(level, c),
    }
}

fn level_by(level: Level, next: Next, c: char) -> Level
    ensures { result ≡ spec.level_by level next c }
{
    match next {
        Next::Escaped => level_after(level, c),
        _ => level,
    }
}

/// What a character leaves that opens no collection.
fn plain_next(scan: Scan, c: char) -> Scan
    ensures { result ≡ spec.plain_next scan c }
{
    Scan {
        level: level_by(scan.level, scan.next, c),
        next: next_by(scan.level, scan.next, c),
    }
}

/// What one character more leaves; the text begins with it, and `more` follows it.
#[tactic(auto, using(crate::proofs::VainLaws::known_behind, crate::proofs::VainLaws::known_more))]
fn searched_next(search: Search, c: char, text: &[char], more: &[char]) -> Search
    requires front { text.now ≡ c ∷ more.now }
    requires known { Known search.in_vain text.now }
    ensures scan { result.scan ≡ spec.scan_next search.scan c text.now }
    ensures known { Known result.in_vain more.now }
{
    if opens(search.scan, c) {
        let mut in_vain = search.in_vain;
        let end = first_collection_end(&mut in_vain, text);
        return Search {
            scan: Scan {
                level: search.scan.level,
                next: inside(end),
            },
            in_vain,
        };
    }
    Search {
        scan: plain_next(search.scan, c),
        in_vain: search.in_vain,
    }
}

fn may_close(next: Next) -> bool
    ensures { result ≡ spec.may_close next }
{
    match next {
        Next::Escaped => false,
        Next::Inside(_) => false,
        _ => true,
    }
}

/// A pattern's characters, and what is left behind its delimiter.
#[derive(Drop)]
pub(crate) struct Enclosed<'a> {
    pub pattern: List<char>,
    /// None where no delimiter ends the pattern.
    pub rest: Option<&'a [char]>,
    /// Whether a search for a closing bracket was in vain.
    pub in_vain: bool,
}

/// The characters up to the delimiter, and what is left behind it; `in_vain` says whether a search
/// for a closing bracket was in vain before.
#[tactic(auto, using(crate::proofs::VainLaws::known_behind))]
pub(crate) fn delimited(
    alloc: Global,
    delimiter: char,
    in_vain: bool,
    text: &[char],
) -> Result<Enclosed<'_>, Memory>
    requires known { Known in_vain text.now }
    ensures found { IfOk result (λ found. MatchOption found.rest
        (spec.delimited delimiter text.now ≡ None)
        (λ rest. spec.delimited delimiter text.now ≡ Some (found.pattern, rest.now))) }
    ensures known { IfOk result
        (λ found. IfSome found.rest (λ rest. Known found.in_vain rest.now)) }
{
    let mut pattern = List::new(alloc);
    let mut search = Search {
        scan: Scan {
            level: Level::Usual,
            next: Next::Free,
        },
        in_vain,
    };
    let mut rest = text;
    while let Some((c, more)) = front(rest) {
        if may_close(search.scan.next) && c == delimiter {
            return Ok(Enclosed {
                pattern,
                rest: Some(more),
                in_vain: search.in_vain,
            });
        }
        search = searched_next(search, c, rest, more);
        pattern.push(c)?;
        rest = more;
    }
    Ok(Enclosed {
        pattern,
        rest: None,
        in_vain: search.in_vain,
    })
}
