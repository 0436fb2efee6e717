//! A command's pattern, tried at the places of a line.
ghost use Rattle.std.specs.Prelude.{◌≡◌, ◌<◌, ◌≤◌, ◌+◌, ◌-◌, length, slice_get, true, false, IfOk, IfSome};
ghost use Rattle.match_rules.specs.Ways.{IsPlaceOf, is_after, is_same_place};
ghost use Rattle.pattern_match.specs.OnText.{IsFoundOn};
ghost use Rattle.ex_substitute.specs.Answers.{Gives};
ghost use Rattle.ex_substitute.specs.Begins.{AreCodes, AreSeconds, may_begin};
ghost use Rattle.ex_substitute.specs.Searching as searching;
ghost use Rattle.ex_substitute.specs.Trials.{AreVain, IsVain, counts_of, trial_in};
ghost use Rattle.ex_substitute.specs.Trying as spec;

use crate::begins::Begins;
use crate::refusal::Refusal;
use crate::seconds::may_follow_at;
use crate::{ExCommand, ExError};
use char_class::Codes;
use pattern_match::{Attempt, Context, Match, Scratch};
use pattern_needs::{Needs, needs_are_sound};
use pattern_screens::{failures_are_sound, first_screens_are_sound};
use std::alloc::Global;
use std::marker::Model;
use syn_base::{Lines, Place};

/// Which matches count.
#[derive(Clone, Copy)]
pub(crate) enum Wanted {
    /// Each.
    Any,
    /// One that begins in the line of its attempt, and behind the last replacement, whose end this is.
    Behind(Option<Place>),
}

impl Wanted {
    /// Whether what was found at a place is a match that counts.
    fn counts(self, p: Place, found: &Option<Match>) -> bool
        ensures { result ≡ spec.is_counted_by (counts_of self) p found.now }
    {
        match found {
            None => false,
            Some(m) => match self {
                Wanted::Any => true,
                Wanted::Behind(end) => m.from.line == p.line && is_behind(end, m),
            },
        }
    }
}

/// Whether a match begins at or after the end of the last replacement, and after it if it takes nothing.
fn is_behind(end: Option<Place>, m: &Match) -> bool
    ensures { result ≡ searching.is_behind end m.now }
{
    match end {
        None => true,
        Some(end) => !is_after(end, m.from) && !(takes_nothing(m) && is_same_place(m.from, end)),
    }
}

fn is_after(p: Place, q: Place) -> bool
    ensures { result ≡ is_after p q }
{
    q.line < p.line || (q.line == p.line && q.col < p.col)
}

/// Whether a match ends where it begins.
pub(crate) fn takes_nothing(m: &Match) -> bool
    ensures { result ≡ searching.is_empty m.now }
{
    is_same_place(m.from, m.to)
}

fn is_same_place(p: Place, q: Place) -> bool
    ensures { result ≡ is_same_place p q }
{
    p.line == q.line && p.col == q.col
}

/// What an attempt at a place tells.
fn told_at(p: Place, told: Attempt) -> Result<Option<Match>, ExError>
    ensures { result ≡ spec.told_at p told }
{
    match told {
        Attempt::Found(m, _) => Ok(Some(m)),
        Attempt::Absent(_) => Ok(None),
        Attempt::TooCostly => Err(ExError::TooCostly(p)),
    }
}

/// A command's pattern, what it is tried with, and what a match may begin with.
#[derive(Drop)]
pub(crate) struct Trying<'a> {
    pub alloc: Global,
    command: &'a ExCommand,
    context: Context<'a>,
    /// The most that one attempt may cost.
    budget: u64,
    begins: Begins,
    /// What a line must hold; none where that isn't known.
    needs: Option<Needs<'a>>,
}

impl<'a> Model for Trying<'a> {
    ghost use Rattle.std.specs.Coded.{codes};
    ghost use Rattle.vim_pattern.specs.ShapeCode.{coded_tree};
    ghost use Rattle.ex_substitute.specs.Begins.{AreBegins, AreNeeds, Setting};

    ghost Value = { Setting };

    ghost coded = { Prim.hlevel (codes, coded_tree) };

    ghost view = { λ t. record { tree = t.command.now.tree; context = t.context; budget = t.budget } };

    ghost invariant = { λ t. let s : Setting = record { tree = t.command.now.tree; context = t.context; budget = t.budget } in
        AreBegins s t.begins × AreNeeds s t.needs };
}

impl<'a> Trying<'a> {
    /// A command's pattern, to be tried with this.
    pub fn new(
        alloc: Global,
        command: &'a ExCommand,
        context: Context<'a>,
        budget: u64,
    ) -> Trying<'a>
        ensures { result
            ≡ record { tree = command.now.tree; context = context.entry; budget = budget } }
    {
        let begins = Begins::of(command, &context, budget);
        let needs = Needs::of(&command.tree, context.sets, context.ignore, budget);
        Trying {
            alloc,
            command,
            context,
            budget,
            begins,
            needs,
        }
    }

    /// The characters below 256 with which a match may begin.
    fn codes(&self) -> Codes
        ensures { AreCodes self.now result }
    {
        self.begins.codes
    }

    /// Whether a match may begin where this stands, by the characters below 256 with which it may.
    fn may_begin(&self, codes: &Codes, next: Option<char>) -> bool
        requires { AreCodes self.now codes.now }
        ensures { result ≡ may_begin self.now next }
    {
        match next {
            Some(c) => match u8::try_from(c) {
                Ok(code) => codes.have(code),
                Err(_) => {
                    !self.begins.is_screened || self.command.screen_passes(next, &self.context)
                }
            },
            None => self.begins.at_end,
        }
    }

    /// The same of a column of a line, that of its end too.
    fn may_begin_at(&self, codes: &Codes, line: &[char], col: usize) -> bool
        requires { AreCodes self.now codes.now }
        ensures { result ≡ may_begin self.now (slice_get line.now col) }
    {
        self.may_begin(codes, line.get(col).copied())
    }

    /// The characters below 256 that may stand second in a match.
    fn seconds(&self) -> Codes
        ensures { AreSeconds self.now result }
    {
        self.begins.seconds
    }

    /// Whether the pattern has to be tried at a column of a line, by what stands there and behind it.
    fn is_candidate(&self, codes: &Codes, seconds: &Codes, line: &[char], col: usize) -> bool
        requires codes { AreCodes self.now codes.now }
        requires seconds { AreSeconds self.now seconds.now }
        requires column { col ≤ length line.now }
        ensures { result ≡ false → IsVain self.now line.now col }
    {
        // The proof needs the laws that these calls tell.
        first_screens_are_sound();
        failures_are_sound();
        if !self.may_begin_at(codes, line, col) {
            return false;
        }
        may_follow_at(seconds, line, col + 1)
    }

    /// The first column from one on at which the pattern has to be tried; a column behind the line's end,
    /// if there is none.
    fn next_column(&self, line: &[char], from: usize) -> usize
        ensures from { from ≤ result }
        ensures passed { AreVain self.now line.now from result }
    {
        // Copies at hand, in which a column is looked up fast.
        let codes = self.codes();
        let seconds = self.seconds();
        let mut col = from;
        'columns: while col <= line.len() {
            if self.is_candidate(&codes, &seconds, line, col) {
                return col;
            }
            col += 1;
        }
        col
    }

    /// Whether a line lacks what the pattern needs from a column on.
    fn is_lacking(&self, line: &[char], col: usize) -> bool
        ensures { result ≡ true → AreVain self.now line.now col (length line.now + 1) }
    {
        // The proof needs the law that this call tells.
        needs_are_sound();
        match &self.needs {
            Some(needs) => needs.are_lacked(line, col),
            None => false,
        }
    }

    /// Tries the pattern at a place.
    fn tried<T: Lines>(
        &self,
        scratch: &mut Scratch<'a>,
        lines: &T,
        p: Place,
    ) -> Result<Option<Match>, Refusal>
        requires present { p.line < length (T.lines lines.now) }
        requires place { IsPlaceOf (T.lines lines.now) p }
        requires budget { 1 ≤ self.now.budget }
        ensures found { Gives result (spec.tried (trial_in (T.lines lines.now) self.now) p) }
        ensures on_text { IfOk result (λ found.
            IfSome found (IsFoundOn (T.lines lines.now))) }
    {
        let command = self.command;
        let told = command.attempt(scratch, self.alloc, lines, &self.context, p, self.budget)?;
        let found = told_at(p, told)?;
        Ok(found)
    }

    /// The first match that counts, at the columns of a line from one on, up to and with its end.
    pub fn first_in_line<T: Lines>(
        &self,
        scratch: &mut Scratch<'a>,
        lines: &T,
        line: usize,
        col: usize,
        wanted: Wanted,
    ) -> Result<Option<Match>, Refusal>
        requires present { line < length (T.lines lines.now) }
        requires budget { 1 ≤ self.now.budget }
        ensures found { Gives result (spec.first_of (trial_in (T.lines lines.now) self.now)
            (counts_of wanted) (spec.places_in (T.lines lines.now) line col)) }
        ensures on_text { IfOk result (λ found.
            IfSome found (IsFoundOn (T.lines lines.now))) }
    {
        let chars = lines.line(line);
        let mut at = self.next_column(chars, col);
        if self.is_lacking(chars, at) {
            return Ok(None);
        }
        'columns: while at <= chars.len() {
            let p = Place { line, col: at };
            let found = self.tried(scratch, lines, p)?;
            if wanted.counts(p, &found) {
                return Ok(found);
            }
            let next = self.next_column(chars, at + 1);
            at = next;
        }
        Ok(None)
    }

    /// The first match that counts, in the lines from one on up to, and without, `b`.
    pub fn first_in_lines<T: Lines>(
        &self,
        scratch: &mut Scratch<'a>,
        lines: &T,
        from: usize,
        b: usize,
        wanted: Wanted,
    ) -> Result<Option<Match>, Refusal>
        requires within { b ≤ length (T.lines lines.now) }
        requires budget { 1 ≤ self.now.budget }
        ensures found { Gives result (spec.first_of (trial_in (T.lines lines.now) self.now)
            (counts_of wanted) (spec.places_of (T.lines lines.now) from (b - from))) }
        ensures on_text { IfOk result (λ found.
            IfSome found (IsFoundOn (T.lines lines.now))) }
    {
        for line in from..b {
            let found = self.first_in_line(scratch, lines, line, 0, wanted)?;
            if found.is_some() {
                return Ok(found);
            }
        }
        Ok(None)
    }
}
