//! Lines that are being made.
ghost use Rattle.std.specs.Prelude.{◌≡◌, ◌∷◌, [], ◌<◌, ◌≤◌, ◌+◌, ◌-◌, length, map, take, drop, IfOk, OnOk, IfSome};
ghost use Rattle.match_rules.specs.Ways.{IsPlaceOf, line_at};
ghost use Rattle.std.specs.List.{All};
ghost use Rattle.pattern_match.specs.OnText.{IsFoundOn};
ghost use Rattle.ex_substitute.specs.Glyphs as glyphs;
ghost use Rattle.ex_substitute.specs.Pens as spec;
ghost use Rattle.ex_substitute.specs.Putting as putting;
ghost use Rattle.ex_substitute.specs.Ruling.{IsTooLong};

use crate::ExError;
use crate::casing::Casing;
use crate::limits::MOST_CHARS;
use crate::refusal::Refusal;
use crate::string::Piece;
use pattern_match::Match;
use std::alloc::Global;
use std::mem;
use syn_base::{Lines, List, Memory, Place};

/// Lines that are being made: those that are finished, the one that is written on, and the changes of
/// case that are asked for.
#[derive(Drop)]
pub(crate) struct Pen {
    pub lines: List<List<char>>,
    pub last: List<char>,
    pub casing: Casing,
}

/// The part of a line from a column up to, and without, another; nothing if they aren't in order.
fn part_of(line: &[char], from: usize, to: usize) -> &[char]
    ensures { result.now ≡ take (to - from) (drop from line.now) }
{
    let end = to.min(line.len());
    if from < end { &line[from..end] } else { &[] }
}

/// What stands in a line from a place on up to a column.
fn part_at<T: Lines>(lines: &T, from: Place, to: usize) -> &[char]
    ensures { result.now ≡ take (to - from.col)
        (drop from.col (line_at (T.lines lines.now) from.line)) }
{
    if from.line < lines.len() {
        part_of(lines.line(from.line), from.col, to)
    } else {
        &[]
    }
}

/// What stands in a line from a place on.
fn rest_at<T: Lines>(lines: &T, from: Place) -> &[char]
    requires present { from.line < length (T.lines lines.now) }
    requires place { IsPlaceOf (T.lines lines.now) from }
    ensures { result.now ≡ drop from.col (line_at (T.lines lines.now) from.line) }
{
    &lines.line(from.line)[from.col..]
}

/// The places of a group: 0 is the whole match.
pub(crate) fn group_of(m: &Match, number: u8) -> Option<(Place, Place)>
    ensures { result ≡ putting.group_of m.now number }
{
    if number == 0 {
        return Some((m.from, m.to));
    }
    let i = number as usize - 1;
    if i < 9 { m.caps.part(i) } else { None }
}

impl Pen {
    /// No lines yet but an empty one. It takes no memory.
    pub fn new(alloc: Global) -> Pen
        ensures { result ≡ spec.blank_pen }
    {
        Pen {
            lines: List::new(alloc),
            last: List::new(alloc),
            casing: Casing::none(),
        }
    }

    /// The lines.
    pub fn into_lines(self) -> Result<List<List<char>>, Memory>
        ensures { IfOk result (λ lines. lines ≡ glyphs.lines_on (spec.page_of self)) }
    {
        let Pen { lines, last, .. } = self;
        let mut lines = lines;
        lines.push(last)?;
        Ok(lines)
    }

    /// Whether so many characters more make a line that is too long.
    fn has_room(&self, count: usize) -> Result<(), ExError>
        ensures { IsTooLong result (length self.now.last + count) }
    {
        let length = self.last.len();
        if length > MOST_CHARS || count > MOST_CHARS - length {
            return Err(ExError::LongLine);
        }
        Ok(())
    }

    /// Puts characters.
    fn put_chars(&mut self, chars: &[char]) -> Result<(), Refusal>
        ensures { spec.Draws result self.new
            (spec.drawn self.old (map glyphs.sign chars.now)) }
    {
        self.has_room(chars.len())?;
        if self.casing.is_none() {
            self.last.extend_from_slice(chars)?;
            return Ok(());
        }
        self.put_changed(chars)?;
        Ok(())
    }

    /// Puts characters for which there is room, by the changes that are asked for.
    fn put_changed(&mut self, chars: &[char]) -> Result<(), Memory>
        ensures { OnOk result
            (self.new ≡ spec.drawn self.old (map glyphs.sign chars.now)) }
    {
        for c in chars {
            self.last.push(self.casing.changed(*c))?;
            self.casing = self.casing.used();
        }
        Ok(())
    }

    /// Puts a line break.
    fn put_break(&mut self, alloc: Global) -> Result<(), Memory>
        ensures { OnOk result
            (self.new ≡ spec.drawn self.old (glyphs.line_break ∷ [])) }
    {
        let line = mem::replace(&mut self.last, List::new(alloc));
        self.lines.push(line)?;
        Ok(())
    }

    /// Puts the break behind a line, if it isn't the last.
    fn put_line_end<T: Lines>(
        &mut self,
        alloc: Global,
        lines: &T,
        line: usize,
    ) -> Result<(), Memory>
        requires { line < length (T.lines lines.now) }
        ensures { OnOk result (self.new ≡ spec.drawn self.old
            (glyphs.line_end (T.lines lines.now) line)) }
    {
        let count = lines.len();
        if line + 1 < count {
            self.put_break(alloc)?;
        }
        Ok(())
    }

    /// Puts the rest of a line from a place on, with the break behind it.
    fn put_rest<T: Lines>(&mut self, alloc: Global, lines: &T, from: Place) -> Result<(), Refusal>
        requires present { from.line < length (T.lines lines.now) }
        requires place { IsPlaceOf (T.lines lines.now) from }
        ensures { spec.Draws result self.new (spec.drawn self.old
            (spec.rest_of (T.lines lines.now) from)) }
    {
        self.put_chars(rest_at(lines, from))?;
        self.put_line_end(alloc, lines, from.line)?;
        Ok(())
    }

    /// Puts what stands between two places.
    fn put_between<T: Lines>(
        &mut self,
        alloc: Global,
        lines: &T,
        from: Place,
        to: Place,
    ) -> Result<(), Refusal>
        requires from { IsPlaceOf (T.lines lines.now) from }
        requires to { IsPlaceOf (T.lines lines.now) to }
        ensures { spec.Draws result self.new (spec.drawn self.old
            (glyphs.between (T.lines lines.now) from to)) }
    {
        // The proof needs the bounds that this call tells of the text.
        let _count = lines.len();
        let mut at = from;
        'lines: while at.line < to.line {
            self.put_rest(alloc, lines, at)?;
            at = Place {
                line: at.line + 1,
                col: 0,
            };
        }
        self.put_chars(part_at(lines, at, to.col))
    }

    /// Puts the text of a group.
    fn put_group<T: Lines>(
        &mut self,
        alloc: Global,
        lines: &T,
        m: &Match,
        number: u8,
    ) -> Result<(), Refusal>
        requires { IsFoundOn (T.lines lines.now) m.now }
        ensures { spec.Draws result self.new (spec.drawn self.old
            (putting.text_of (T.lines lines.now) (putting.group_of m.now number))) }
    {
        match group_of(m, number) {
            None => Ok(()),
            Some((from, to)) => self.put_between(alloc, lines, from, to),
        }
    }

    /// Puts the run of a piece.
    fn put_run<T: Lines>(
        &mut self,
        alloc: Global,
        lines: &T,
        m: &Match,
        piece: Piece,
    ) -> Result<(), Refusal>
        requires { IsFoundOn (T.lines lines.now) m.now }
        ensures { spec.Draws result self.new (spec.drawn self.old
            (putting.run_of (T.lines lines.now) m.now piece)) }
    {
        match piece {
            Piece::Char(c) => self.put_chars(&[c]),
            Piece::Break => Ok(self.put_break(alloc)?),
            Piece::Group(number) => self.put_group(alloc, lines, m, number),
            Piece::Once(_) | Piece::Lasting(_) | Piece::Plain => Ok(()),
        }
    }

    /// Puts a piece.
    fn put_piece<T: Lines>(
        &mut self,
        alloc: Global,
        lines: &T,
        m: &Match,
        piece: Piece,
    ) -> Result<(), Refusal>
        requires { IsFoundOn (T.lines lines.now) m.now }
        ensures { spec.Draws result self.new
            (spec.with_piece (T.lines lines.now) m.now piece self.old) }
    {
        self.put_run(alloc, lines, m, piece)?;
        self.casing = self.casing.asked_by(piece);
        Ok(())
    }

    /// Puts a string for a match.
    fn put_string<T: Lines>(
        &mut self,
        alloc: Global,
        lines: &T,
        string: &[Piece],
        m: &Match,
    ) -> Result<(), Refusal>
        requires { IsFoundOn (T.lines lines.now) m.now }
        ensures { spec.Draws result self.new
            (spec.with_pieces (T.lines lines.now) m.now string.now self.old) }
    {
        for piece in string {
            self.put_piece(alloc, lines, m, *piece)?;
        }
        Ok(())
    }

    /// Puts what stands before a match from a place on, and the string in place of the match.
    pub fn put_match<T: Lines>(
        &mut self,
        alloc: Global,
        lines: &T,
        string: &[Piece],
        at: Place,
        m: &Match,
    ) -> Result<(), Refusal>
        requires at { IsPlaceOf (T.lines lines.now) at }
        requires found { IsFoundOn (T.lines lines.now) m.now }
        ensures { spec.Draws result self.new
            (spec.with_match (T.lines lines.now) string.now at m.now self.old) }
    {
        self.put_between(alloc, lines, at, m.from)?;
        self.put_string(alloc, lines, string, m)?;
        self.casing = Casing::none();
        Ok(())
    }

    /// Puts what stands between two places, with a string in place of each match.
    pub fn put_replaced<T: Lines>(
        &mut self,
        alloc: Global,
        lines: &T,
        string: &[Piece],
        found: &[Match],
        from: Place,
        to: Place,
    ) -> Result<(), Refusal>
        requires from { IsPlaceOf (T.lines lines.now) from }
        requires found { All (IsFoundOn (T.lines lines.now)) found.now }
        requires to { IsPlaceOf (T.lines lines.now) to }
        ensures { spec.Draws result self.new
            (spec.with_all (T.lines lines.now) string.now from found.now to self.old) }
    {
        let mut at = from;
        for m in found {
            self.put_match(alloc, lines, string, at, m)?;
            at = m.to;
        }
        self.put_between(alloc, lines, at, to)
    }
}
