//! The edits on a painted text, and the counts that are told at the end.
ghost use Rattle.std.specs.Prelude.{◌≡◌, ◌<◌, ◌≤◌, ◌+◌, ◌++◌, length, IfOk, OnOk};
ghost use Rattle.large_session.specs.DrawnEdits.{drawn_edit};
ghost use Rattle.large_session.specs.LargeSession.{count_line, edit_count, edited, edited_often, five_lines, has_refused, lines_of_edits, start};
ghost use Rattle.large_session.specs.Steps.{FitsLines, Tells, standing};

use crate::document::LargeDocument;
use crate::draws::Draws;
use crate::edits::drawn_edit;
use byte_text::{push_bytes, push_number};
use edit_session::{Document, Replacement, Unedited};
use std::alloc::{AllocError, Global};
use syn_base::{Ledger, Lines, List, Memory, Steps};

/// What the large mode comes to.
#[derive(Drop)]
pub struct Outcome {
    /// Its five lines.
    pub text: List<u8>,
    /// Whether an edit was refused.
    pub refused: bool,
}

/// Carries out the edits that go with a text that began with so many lines, and counts.
pub fn carry_out_edits<D: LargeDocument + Drop, L: Ledger>(
    alloc: Global,
    document: D,
    draws: &mut Draws,
    lines: usize,
    steps: &mut Steps<L>,
) -> Result<Outcome, Memory>
    requires lines { lines ≤ 100000 }
    requires few { length (D.lines document) ≤ 100000 }
    ensures outcome { IfOk result (λ outcome. Tells
        (edited_often (D.painter document) (edit_count lines)
        (start (record { text = D.lines document; spans = D.shown document })) draws.old)
        outcome) }
    ensures steps { steps.new ≤ steps.old
        + lines_of_edits (D.painter document) (edit_count lines)
        (start (record { text = D.lines document; spans = D.shown document })) draws.old }
{
    let mut edited = Edited {
        document,
        edits: 0,
        refused: 0,
        repainted: 0,
    };
    edited.edit_often(alloc, draws, lines / 100 + 1, steps)?;
    edited.outcome(alloc)
}

/// A painted text, how many edits were carried out and refused, and how many lines their reports
/// told.
#[derive(Drop)]
struct Edited<D: LargeDocument + Drop> {
    document: D,
    edits: usize,
    refused: usize,
    repainted: usize,
}

impl<D: LargeDocument + Drop> Edited<D> {
    /// Carries out so many drawn edits.
    fn edit_often<L: Ledger>(
        &mut self,
        alloc: Global,
        draws: &mut Draws,
        count: usize,
        steps: &mut Steps<L>,
    ) -> Result<(), Memory>
        requires few { length (D.lines self.old.document) + count ≤ 2000000 }
        ensures stands { OnOk result (standing D.lines D.shown self.new.document
            self.new.edits self.new.refused self.new.repainted
            ≡ edited_often (D.painter self.old.document) count
            (standing D.lines D.shown self.old.document
            self.old.edits self.old.refused self.old.repainted) draws.old) }
        ensures steps { steps.new ≤ steps.old
            + lines_of_edits (D.painter self.old.document) count
            (standing D.lines D.shown self.old.document
            self.old.edits self.old.refused self.old.repainted) draws.old }
    {
        for _ in 0..count {
            self.edit_once(alloc, draws, steps)?;
        }
        Ok(())
    }

    /// Carries out one drawn edit.
    fn edit_once<L: Ledger>(
        &mut self,
        alloc: Global,
        draws: &mut Draws,
        steps: &mut Steps<L>,
    ) -> Result<(), Memory>
        requires few { length (D.lines self.old.document) < 2000000 }
        ensures painter { D.painter self.new.document ≡ D.painter self.old.document }
        ensures stands { OnOk result (standing D.lines D.shown self.new.document
            self.new.edits self.new.refused self.new.repainted
            ≡ edited (D.painter self.old.document)
            (standing D.lines D.shown self.old.document
            self.old.edits self.old.refused self.old.repainted)
            (drawn_edit (length (D.lines self.old.document)) draws.old).value) }
        ensures draws { OnOk result (draws.new
            ≡ (drawn_edit (length (D.lines self.old.document)) draws.old).next) }
        ensures few { OnOk result (length (D.lines self.new.document)
            ≤ length (D.lines self.old.document) + 1) }
        ensures steps { steps.new ≤ steps.old
            + (D.painter self.old.document).costs (D.lines self.old.document)
            (drawn_edit (length (D.lines self.old.document)) draws.old).value }
    {
        let edit = drawn_edit(alloc, draws, self.document.len())?;
        self.carry_out(alloc, edit, steps)
    }

    /// Carries out an edit, and counts it.
    fn carry_out<L: Ledger>(
        &mut self,
        alloc: Global,
        edit: Replacement,
        steps: &mut Steps<L>,
    ) -> Result<(), Memory>
        requires few { length (D.lines self.old.document) < 2000000 }
        requires fits { FitsLines (length (D.lines self.old.document)) edit }
        ensures painter { D.painter self.new.document ≡ D.painter self.old.document }
        ensures stands { OnOk result (standing D.lines D.shown self.new.document
            self.new.edits self.new.refused self.new.repainted
            ≡ edited (D.painter self.old.document)
            (standing D.lines D.shown self.old.document
            self.old.edits self.old.refused self.old.repainted) edit) }
        ensures few { OnOk result (length (D.lines self.new.document)
            ≤ length (D.lines self.old.document) + 1) }
        ensures steps { steps.new ≤ steps.old
            + (D.painter self.old.document).costs (D.lines self.old.document) edit }
    {
        match self.document.edit(alloc, edit, steps) {
            Ok(told) => self.count_told(told.len()),
            Err(Unedited::Refused(_)) => self.count_refused(),
            Err(Unedited::Memory) => Err(Memory),
        }
    }

    /// Counts an edit whose report told so many lines.
    fn count_told(&mut self, told: usize) -> Result<(), Memory>
        ensures document { self.new.document ≡ self.old.document }
        ensures refused { self.new.refused ≡ self.old.refused }
        ensures edits { OnOk result (self.new.edits ≡ self.old.edits + 1) }
        ensures repainted { OnOk result (self.new.repainted ≡ self.old.repainted + told) }
    {
        self.edits = sum(self.edits, 1)?;
        self.repainted = sum(self.repainted, told)?;
        Ok(())
    }

    /// Counts an edit that was refused.
    fn count_refused(&mut self) -> Result<(), Memory>
        ensures document { self.new.document ≡ self.old.document }
        ensures edits { self.new.edits ≡ self.old.edits }
        ensures refused { OnOk result (self.new.refused ≡ self.old.refused + 1) }
        ensures repainted { self.new.repainted ≡ self.old.repainted }
    {
        self.refused = sum(self.refused, 1)?;
        Ok(())
    }

    /// What is told at the end.
    fn outcome(&self, alloc: Global) -> Result<Outcome, Memory>
        ensures { IfOk result (λ outcome. Tells (standing D.lines D.shown self.now.document
            self.now.edits self.now.refused self.now.repainted) outcome) }
    {
        let spans = self.document.span_count()?;
        let mut out = Vec::new(alloc);
        push_count(&mut out, b"lines", self.document.len())?;
        push_count(&mut out, b"spans", spans)?;
        push_count(&mut out, b"edits", self.edits)?;
        push_count(&mut out, b"refused", self.refused)?;
        push_count(&mut out, b"repainted", self.repainted)?;
        Ok(Outcome {
            text: List::from_vec(out),
            refused: self.refused > 0,
        })
    }
}

/// The sum of two counts. No session of so many edits fits in memory as would pass the greatest
/// number.
fn sum(count: usize, more: usize) -> Result<usize, Memory>
    ensures { IfOk result (λ sum. sum ≡ count + more) }
{
    count.checked_add(more).ok_or(Memory)
}

/// Appends a word, a space, a number and a line break.
fn push_count(out: &mut Vec<u8>, word: &[u8], number: usize) -> Result<(), AllocError>
    ensures { OnOk result (out.new.items ≡ out.old.items ++ count_line word.now number) }
{
    push_bytes(out, word)?;
    push_bytes(out, b" ")?;
    push_number(out, number)?;
    push_bytes(out, b"\n")
}
