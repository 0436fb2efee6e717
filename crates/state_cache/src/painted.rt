//! A text and its painting.
ghost use Rattle.std.specs.Prelude.{◌≡◌, ◌<◌, ◌≤◌, ◌+◌, length, IfOk, IfErr, OnOk, OnErr, Ok};
ghost use Rattle.item_pick.specs.Tables.{TablesStand};
ghost use Rattle.paint_reuse.specs.Change.{replaced};
ghost use Rattle.paint_reuse.specs.Report.{report};
ghost use Rattle.paint_reuse.specs.Reuse.{lines_to_paint};
ghost use Rattle.state_cache.specs.Notes.{IsNoteAt};
ghost use Rattle.state_cache.specs.PaintedText.{AreNotes, IsPainted, IsPaintingOf, IsRefusal};
ghost use Rattle.paint_reuse.specs.Kept.{text_notes};
ghost use Rattle.paint_reuse.specs.Work.{kept_spans};
ghost use Rattle.state_cache.specs.Edits.{IsMadeOf, changed_text, to_paint_in};
ghost use Rattle.state_cache.specs.Refusals.{RefusesAs};
ghost use Rattle.state_cache.specs.Shown.{lines_shown_otherwise, text_shown};
ghost use Rattle.state_cache.specs.Spans.{syntax_rules, text_spans};
ghost use Rattle.text_buffer.specs.TextOfBytes.{most_lines};

use crate::EditError;
use crate::brush::Brush;
use crate::change::Changed;
use crate::commit::{commit, make_room};
use crate::edit::{Edit, Made};
use crate::kept::Kept;
use crate::reach::reach_of_text;
use crate::shown::Exchange;
use crate::walk::paint_all;
use chunk_list::ChunkList;
use item_pick::PickMemory;
use line_paint::LineNote;
use std::alloc::Global;
use std::marker::Model;
use syn_base::{Colours, Ledger, Lines, List, Looked, Span, Steps};
use syn_reader::Syntax;
use text_buffer::{Line, Text};

/// The lines that are told: of an edit those that are new and those that show other spans than before,
/// of another syntax those that show otherwise by name.
#[derive(Drop)]
pub struct Repainted {
    /// Their numbers in the changed text, from 0, least first.
    pub lines: List<usize>,
}

/// A text, the syntax by which it is painted, and what is kept of the painting of each of its lines.
#[derive(Drop)]
pub struct Painted {
    alloc: Global,
    syntax: Syntax,
    text: Text,
    budget: u64,
    notes: ChunkList<Kept>,
    /// No line looked further, nor at a number if this didn't.
    reach: Looked,
    /// What the painter remembers of the syntax from edit to edit. Nothing of it speaks of a line's
    /// number, so it holds of a line that moved.
    memory: PickMemory,
}

impl Model for Painted {
    ghost use Rattle.paint_reuse.specs.Work.{kept_spans};
    ghost use Rattle.state_cache.specs.PaintedText as painted;
    ghost use Rattle.std.specs.Coded.{codes};
    ghost use Rattle.syn_reader.specs.contracts.syntax.Syntax.{the_row as syntax_row};

    ghost Value = { painted.PaintedText };

    ghost coded = { Prim.hlevel (codes, syntax_row.coded) };

    ghost view = { λ p. record {
      syntax = p.syntax;
      text = p.text.lines;
      budget = p.budget;
      spans = kept_spans p.notes.0;
    } };

    ghost invariant = { λ p. painted.Keeps p.syntax p.text.lines p.budget p.notes.0 p.reach p.memory };
}

/// Why a text isn't painted, and the syntax, by which a message may name the item.
#[derive(Drop)]
pub struct Unpainted {
    pub error: EditError,
    pub syntax: Syntax,
}

/// Why a text isn't painted by another syntax, and that syntax.
#[derive(Drop)]
pub struct SyntaxRefused {
    pub error: EditError,
    pub syntax: Syntax,
}

impl Painted {
    /// Paints a text, with at most so many ticks for an attempt. On a refusal both values are
    /// dropped.
    pub fn from_text<L: Ledger>(
        alloc: Global,
        syntax: Syntax,
        text: Text,
        budget: u64,
        steps: &mut Steps<L>,
    ) -> Result<Painted, EditError>
        requires { 1 ≤ budget }
        ensures painted { IfOk result (λ painted. IsPaintingOf syntax text.lines budget painted) }
        ensures refused { IfErr result (IsRefusal (text_spans syntax budget text.lines)) }
        ensures steps { steps.new ≤ steps.old + length text.lines }
    {
        match Painted::paint(alloc, syntax, text, budget, steps) {
            Ok(painted) => Ok(painted),
            Err(Unpainted { error, syntax: _ }) => Err(error),
        }
    }

    /// The same, where a refusal hands the syntax back.
    pub fn paint<L: Ledger>(
        alloc: Global,
        syntax: Syntax,
        text: Text,
        budget: u64,
        steps: &mut Steps<L>,
    ) -> Result<Painted, Unpainted>
        requires { 1 ≤ budget }
        ensures painted { IfOk result (λ painted. IsPaintingOf syntax text.lines budget painted) }
        ensures refused { IfErr result (λ unpainted.
            IsRefusal (text_spans syntax budget text.lines) unpainted.error) }
        ensures syntax { IfErr result (λ unpainted. unpainted.syntax ≡ syntax) }
        ensures steps { steps.new ≤ steps.old + length text.lines }
    {
        let mut memory = PickMemory::new(alloc);
        match notes_of(alloc, &syntax, &text, budget, &mut memory, steps) {
            Ok(Noted { notes, reach }) => Ok(Painted {
                alloc,
                syntax,
                text,
                budget,
                notes,
                reach,
                memory,
            }),
            Err(error) => Err(Unpainted { error, syntax }),
        }
    }

    /// The text.
    pub fn text(&self) -> &Text
        ensures { result.now.lines ≡ self.now.text }
    {
        &self.text
    }

    /// What is kept of a line, from 0: the state before it, its spans, the state after it, and the
    /// lines that its painting looked at, all counted from the line.
    pub fn note(&self, line: usize) -> &LineNote
        requires { line < length self.now.text }
        ensures { IsNoteAt (syntax_rules self.now.syntax self.now.budget) self.now.text line result.now }
    {
        self.notes.get(line).note()
    }

    /// Lines `a` to `b - 1`, from 0, become `new`, and those lines are painted that aren't reusable;
    /// where no line gives way and none comes, none is painted. For a refusal, and for want of
    /// memory, all is as it was.
    pub fn edit<L: Ledger>(
        &mut self,
        a: usize,
        b: usize,
        new: List<Line>,
        steps: &mut Steps<L>,
    ) -> Result<Repainted, EditError>
        requires ordered { a ≤ b }
        requires inside { b ≤ length self.old.text }
        requires some { 0 < length (replaced self.old.text a b new) }
        requires few { length (replaced self.old.text a b new) ≤ most_lines }
        ensures painted { OnOk result (IsPaintingOf
            self.old.syntax (replaced self.old.text a b new) self.old.budget self.new) }
        ensures told { IfOk result (λ told. told.lines ≡ report self.old.spans self.new.spans
            (record { a = a; b = b; count = length new })) }
        ensures refused { IfErr result (IsRefusal (text_spans
            self.old.syntax self.old.budget (replaced self.old.text a b new))) }
        ensures unchanged { OnErr result (self.new ≡ self.old) }
        ensures steps { steps.new ≤ steps.old + lines_to_paint
            (syntax_rules self.old.syntax self.old.budget) self.old.text a b new }
    {
        if a == b && new.is_empty() {
            return Ok(Repainted {
                lines: List::new(self.alloc),
            });
        }
        make_room(&mut self.text, &mut self.notes, new.len())?;
        let made = made_by(
            self.alloc,
            &self.syntax,
            self.budget,
            Changed::new(&self.text, a, b, &new),
            &self.notes,
            self.reach,
            &mut self.memory,
            steps,
        )?;
        let Made {
            patches,
            fresh,
            report,
            reach,
        } = made;
        commit(&mut self.text, &mut self.notes, a, b, new, patches, fresh);
        self.reach = reach;
        Ok(Repainted { lines: report })
    }

    /// Paints the text by another syntax, which is in force from then on, and tells the lines that show
    /// otherwise by it: a span has other columns, its group has another name, or the group that its
    /// links lead to has. Numbers of groups don't count. For a refusal, and for want of memory, all is
    /// as it was, and the syntax is handed back.
    pub fn replace_syntax<L: Ledger>(
        &mut self,
        syntax: Syntax,
        steps: &mut Steps<L>,
    ) -> Result<Repainted, SyntaxRefused>
        ensures painted { OnOk result (IsPaintingOf syntax self.old.text self.old.budget self.new) }
        ensures told { IfOk result (λ told. told.lines ≡ lines_shown_otherwise
            (text_shown self.old.syntax self.old.spans) (text_shown syntax self.new.spans)) }
        ensures refused { IfErr result (λ refused.
            IsRefusal (text_spans syntax self.old.budget self.old.text) refused.error) }
        ensures handed { IfErr result (λ refused. refused.syntax ≡ syntax) }
        ensures unchanged { OnErr result (self.new ≡ self.old) }
        ensures steps { steps.new ≤ steps.old + length self.old.text }
    {
        match self.painted_by(&syntax, steps) {
            Ok(
                Repainting {
                    notes,
                    reach,
                    memory,
                    lines,
                },
            ) => {
                self.syntax = syntax;
                self.notes = notes;
                self.reach = reach;
                self.memory = memory;
                Ok(Repainted { lines })
            }
            Err(error) => Err(SyntaxRefused { error, syntax }),
        }
    }

    /// Paints the text by another syntax, of which nothing is remembered yet. What is kept stays.
    fn painted_by<L: Ledger>(
        &self,
        syntax: &Syntax,
        steps: &mut Steps<L>,
    ) -> Result<Repainting, EditError>
        ensures noted { IfOk result (λ made.
            AreNotes (syntax_rules syntax.now self.now.budget) (length syntax.now.items) self.now.text
            made.notes.0 made.reach) }
        ensures memory { IfOk result (λ made.
            TablesStand (syntax_rules syntax.now self.now.budget) made.memory) }
        ensures told { IfOk result (λ made. made.lines ≡ lines_shown_otherwise
            (text_shown self.now.syntax self.now.spans)
            (text_shown syntax.now (kept_spans made.notes.0))) }
        ensures refused { IfErr result
            (RefusesAs (text_notes (syntax_rules syntax.now self.now.budget) self.now.text)) }
        ensures steps { steps.new ≤ steps.old + length self.now.text }
    {
        let alloc = self.alloc;
        let mut memory = PickMemory::new(alloc);
        let Noted { notes, reach } = notes_of(
            alloc,
            syntax,
            &self.text,
            self.budget,
            &mut memory,
            steps,
        )?;
        let exchange = Exchange {
            old: &self.syntax,
            new: syntax,
        };
        let lines = exchange.lines(alloc, &self.notes, &notes)?;
        Ok(Repainting {
            notes,
            reach,
            memory,
            lines,
        })
    }

    /// The syntax by which it is painted. Each line has its spans by it, which fit the line.
    pub fn syntax(&self) -> &Syntax
        ensures is { result.now ≡ self.now.syntax }
        ensures painted { IsPainted self.now }
    {
        &self.syntax
    }

    /// The most ticks for an attempt.
    pub fn budget(&self) -> u64
        ensures is { result ≡ self.now.budget }
        ensures some { 1 ≤ result }
    {
        self.budget
    }
}

impl Lines for Painted {
    ghost lines = { λ p. p.text };

    fn len(&self) -> usize {
        self.text.len()
    }

    fn line(&self, i: usize) -> &[char] {
        self.text.line(i)
    }
}

impl Colours for Painted {
    ghost coloured = { λ p. p.spans };

    fn spans(&self, line: usize) -> &[Span] {
        self.notes.get(line).spans()
    }
}

/// The notes of all lines of a text, and how far any of them looked.
#[derive(Drop)]
struct Noted {
    notes: ChunkList<Kept>,
    reach: Looked,
}

/// The painting of a text by another syntax, what the painter remembers of that, and the lines that
/// show otherwise by it.
#[derive(Drop)]
struct Repainting {
    notes: ChunkList<Kept>,
    reach: Looked,
    memory: PickMemory,
    lines: List<usize>,
}

/// The notes of all lines of a text.
fn notes_of<L: Ledger>(
    alloc: Global,
    syntax: &Syntax,
    text: &Text,
    budget: u64,
    memory: &mut PickMemory,
    steps: &mut Steps<L>,
) -> Result<Noted, EditError>
    requires budget { 1 ≤ budget }
    requires memory { TablesStand (syntax_rules syntax.now budget) memory.old }
    ensures noted { IfOk result (λ noted.
        AreNotes (syntax_rules syntax.now budget) (length syntax.now.items) text.now.lines
        noted.notes.0 noted.reach) }
    ensures refused { IfErr result
        (RefusesAs (text_notes (syntax_rules syntax.now budget) text.now.lines)) }
    ensures memory { TablesStand (syntax_rules syntax.now budget) memory.new }
    ensures steps { steps.new ≤ steps.old + length text.now.lines }
{
    let brush = Brush {
        alloc,
        syntax,
        budget,
    };
    let _lines = text.len();
    let notes = paint_all(&brush, text, memory, steps)?;
    let reach = reach_of_text(&notes);
    Ok(Noted { notes, reach })
}

/// What an edit makes.
fn made_by<L: Ledger>(
    alloc: Global,
    syntax: &Syntax,
    budget: u64,
    changed: Changed<'_>,
    notes: &ChunkList<Kept>,
    reach: Looked,
    memory: &mut PickMemory,
    steps: &mut Steps<L>,
) -> Result<Made, EditError>
    requires budget { 1 ≤ budget }
    requires noted { AreNotes (syntax_rules syntax.now budget) (length syntax.now.items)
        changed.text.now.lines notes.now.0 reach }
    requires memory { TablesStand (syntax_rules syntax.now budget) memory.old }
    ensures made { IfOk result (IsMadeOf (syntax_rules syntax.now budget) (length syntax.now.items)
        changed.entry.text.now.lines notes.now.0 changed.entry.a changed.entry.b changed.entry.new.now) }
    ensures refused { IfErr result
        (RefusesAs (text_notes (syntax_rules syntax.now budget) (changed_text changed.entry))) }
    ensures memory { TablesStand (syntax_rules syntax.now budget) memory.new }
    ensures steps { steps.new ≤ steps.old
        + to_paint_in (syntax_rules syntax.now budget) notes.now.0 changed.entry }
{
    let brush = Brush {
        alloc,
        syntax,
        budget,
    };
    let edit = Edit {
        brush,
        changed,
        notes,
        reach,
    };
    edit.walk(memory, steps)
}
