//! The match of an item at a place.
ghost use Rattle.std.specs.Prelude.{◌≡◌, ◌<◌, ◌≤◌, ◌^◌, length, IfOk, Some, pos};
ghost use Rattle.item_pick.specs.Common.{hull_of, one_line, line_at, attempted, no_externals, place_at, item_match, match_from, starts_at, IsToldAfter, IsToldAs, EndsBefore, HasNoStart, IsNotFrom, IsSeen, IsBeside, match_in, IsOwn, IsPlace, IsStartOf, rules_by, IsSound, MayAsk, MayPick};

use crate::columns::{Columns, columns_of, may_start};
use crate::memory::PickMemory;
use crate::picking::{Picking, StartBy};
use crate::stop::Stop;
use paint_rules::Which;
use pattern_match::{Attempt, Match};
use region_ends::offset_place;
use syn_base::{Lines, Looked, Place};
use syntax_set::Pattern;

/// What an attempt gave, and the lines that it looked at.
#[derive(Drop)]
pub(crate) struct Seen {
    pub(crate) found: Option<Match>,
    pub(crate) looked: Looked,
}

/// What a column gave.
#[derive(Drop)]
pub(crate) enum Tried {
    /// A match with its item start at the place.
    Here(Match),
    /// A match from the column has its item start at none of these columns of the line, which these
    /// lines tell.
    Not(Columns, Looked),
}

/// No column.
const NO_COLUMNS: Columns = Columns { first: 0, end: 0 };

/// The lines looked at, and one more.
pub(crate) fn look_at(looked: &mut Looked, line: usize)
    requires { line < 2 ^ 63 }
    ensures { looked.new ≡ hull_of looked.old (one_line (pos line)) }
{
    *looked = looked.join(Looked::one(line as i64));
}

impl<T: Lines> Picking<'_, T> {
    /// The line that is painted.
    pub(crate) fn line(&self) -> &[char]
        requires { IsPlace (T.lines self.now.lines.now) self.now.at }
        ensures { result.now ≡ line_at (T.lines self.now.lines.now) self.now.at.line }
    {
        self.lines.line(self.at.line)
    }

    /// The length of that line, which is its last column.
    pub(crate) fn last(&self) -> usize
        requires { IsPlace (T.lines self.now.lines.now) self.now.at }
        ensures is { result ≡ length (line_at (T.lines self.now.lines.now) self.now.at.line) }
        ensures short { result < 2 ^ 62 }
    {
        self.line().len()
    }

    /// One attempt of an item's pattern, from a column of the line.
    fn attempted(&self, by: &StartBy<'_>, col: usize) -> Result<Seen, Stop>
        requires valid { IsSound self.now.asked.now }
        requires own { IsOwn (rules_by self.now.asked.now) by.now.item by.now.pattern.now }
        requires place { IsPlace (T.lines self.now.lines.now) self.now.at }
        requires column { col ≤ length (line_at (T.lines self.now.lines.now) self.now.at.line) }
        ensures told { IsSeen result (attempted (rules_by self.now.asked.now)
            (T.lines self.now.lines.now) by.now.item no_externals by.now.pattern.now
            (place_at self.now.at.line col)) }
        ensures ends { IfOk result (λ seen. EndsBefore (2 ^ 33) seen.found) }
    {
        let start = Place {
            line: self.at.line,
            col,
        };
        let told = self.asked.attempt(self.lines, by, start)?;
        match told {
            Attempt::Found(m, looked) => Ok(Seen {
                found: Some(m),
                looked,
            }),
            Attempt::Absent(looked) => Ok(Seen {
                found: None,
                looked,
            }),
            Attempt::TooCostly => Err(Stop::TooCostly(by.item)),
        }
    }

    /// The columns of the line beside a place, around the one that is painted.
    fn beside(&self, start: Place) -> Columns
        ensures { IsBeside self.now.at.line start result }
    {
        if start.line != self.at.line {
            return Columns {
                first: 0,
                end: usize::MAX,
            };
        }
        if start.col < self.at.col {
            Columns {
                first: start.col + 1,
                end: usize::MAX,
            }
        } else {
            Columns {
                first: 0,
                end: start.col,
            }
        }
    }

    /// Columns of the line at which what an attempt gave hasn't its item start.
    fn without(&self, pattern: &Pattern, found: &Option<Match>) -> Columns
        ensures { HasNoStart (T.lines self.now.lines.now) self.now.at.line pattern.now found.now
            result }
    {
        match found {
            Some(m) => self.beside(offset_place(self.lines, m, pattern, Which::Ms)),
            None => Columns {
                first: 0,
                end: usize::MAX,
            },
        }
    }

    /// Whether a match has its item start at the place.
    fn starts_here(&self, pattern: &Pattern, m: &Match) -> bool
        ensures { result ≡ starts_at (T.lines self.now.lines.now) pattern.now self.now.at
            (Some m.now) }
    {
        offset_place(self.lines, m, pattern, Which::Ms) == self.at
    }

    #[tactic(auto, using(crate::proofs::MatchLaws::match_here))]
    /// The match from a column, if its item start is the place.
    fn match_from(&self, by: &StartBy<'_>, col: usize, looked: &mut Looked) -> Result<Tried, Stop>
        requires valid { IsSound self.now.asked.now }
        requires own { IsOwn (rules_by self.now.asked.now) by.now.item by.now.pattern.now }
        requires place { IsPlace (T.lines self.now.lines.now) self.now.at }
        requires column { col ≤ length (line_at (T.lines self.now.lines.now) self.now.at.line) }
        ensures told { IsToldAs match_in looked.old result looked.new (match_from
            (rules_by self.now.asked.now) (T.lines self.now.lines.now) by.now.item
            by.now.pattern.now self.now.at col) }
        ensures ends { IfOk result (λ tried. EndsBefore (2 ^ 33) (match_in tried)) }
        ensures settled { IfOk result (IsNotFrom (rules_by self.now.asked.now)
            (T.lines self.now.lines.now) self.now.at.line by.now.item by.now.pattern.now col) }
    {
        if !may_start(by.pattern, col, self.at.col, self.last()) {
            return Ok(Tried::Not(NO_COLUMNS, *looked));
        }
        let Seen {
            found,
            looked: lines,
        } = self.attempted(by, col)?;
        *looked = looked.join(lines);
        let places = self.without(by.pattern, &found);
        match found {
            Some(m) => {
                if self.starts_here(by.pattern, &m) {
                    look_at(looked, m.to.line);
                    Ok(Tried::Here(m))
                } else {
                    Ok(Tried::Not(places, lines))
                }
            }
            None => Ok(Tried::Not(places, lines)),
        }
    }

    /// The same. No attempt is made where it is known that it finds nothing.
    fn tried_from(
        &self,
        by: &StartBy<'_>,
        col: usize,
        looked: &mut Looked,
        memory: &mut PickMemory,
    ) -> Result<Tried, Stop>
        requires start { IsStartOf (rules_by self.now.asked.now) by.now }
        requires column { col ≤ length (line_at (T.lines self.now.lines.now) self.now.at.line) }
        requires may { MayAsk T.lines self.now memory.old }
        ensures told { IsToldAs match_in looked.old result looked.new (match_from
            (rules_by self.now.asked.now) (T.lines self.now.lines.now) by.now.item by.now.pattern.now self.now.at
            col) }
        ensures ends { IfOk result (λ tried. EndsBefore (2 ^ 33) (match_in tried)) }
        ensures settled { IfOk result (IsNotFrom (rules_by self.now.asked.now)
            (T.lines self.now.lines.now) self.now.at.line by.now.item by.now.pattern.now col) }
        ensures may { MayAsk T.lines self.now memory.new }
    {
        match memory.vain(self, by, col)? {
            Some(lines) => {
                *looked = looked.join(lines);
                Ok(Tried::Not(NO_COLUMNS, lines))
            }
            None => self.match_from(by, col, looked),
        }
    }

    /// The match of an item at the place, by its start pattern of a number: from the first column that
    /// gives one.
    pub(crate) fn item_match(
        &self,
        by: &StartBy<'_>,
        looked: &mut Looked,
        memory: &mut PickMemory,
    ) -> Result<Option<Match>, Stop>
        requires start { IsStartOf (rules_by self.now.asked.now) by.now }
        requires may { MayPick T.lines self.now looked.old memory.old }
        ensures told { IsToldAfter looked.old result looked.new (item_match
            (rules_by self.now.asked.now) (T.lines self.now.lines.now) by.now.item by.now.pattern.now self.now.at
            self.now.floor) }
        ensures ends { IfOk result (EndsBefore (2 ^ 33)) }
        ensures may { MayAsk T.lines self.now memory.new }
    {
        let last = self.last();
        let columns = columns_of(by.pattern, self.at.col, last);
        let least = self.floor.saturating_sub(by.pattern.lc as usize);
        let first = least.max(columns.first);
        let end = columns.end.min(last + 1);
        let mut col = memory.next_column(self, by, first, *looked)?;
        'columns: while col < end {
            let tried = self.tried_from(by, col, looked, memory)?;
            match tried {
                Tried::Here(m) => return Ok(Some(m)),
                Tried::Not(places, lines) => {
                    memory.note(by, self, col, places, lines)?;
                    col += 1;
                    if col < end {
                        col = memory.next_column(self, by, col, *looked)?;
                    }
                }
            }
        }
        Ok(None)
    }
}
