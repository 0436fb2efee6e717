//! What `folds` prints: the folds of the text, or its lines with folds closed (`:syn-fold`).
ghost use Rattle.std.specs.Prelude.{◌≡◌, ◌≤◌, ◌++◌, All, IfOk, OnOk, length, replicate};
ghost use Rattle.std.specs.List.{flat_map};
ghost use Rattle.vimsyn_cli.specs.Changes.{files_between, steps_change};
ghost use Rattle.vimsyn_cli.specs.FoldRows.{RowStands};
ghost use Rattle.vimsyn_cli.specs.Folds.{closed_line, fold_line, folds_shown, folds_text, folds_told, plain_line, row_line, text_levels, view_text};
ghost use Rattle.vimsyn_cli.specs.Painting.{IsPaintFault, IsUnreadPaint};
ghost use Rattle.vimsyn_cli.specs.Reads.{Paints};
ghost use Rattle.vimsyn_cli.specs.Session.{text_lines};

use crate::fault::Stop;
use crate::painting::paint;
use byte_text::{push_bytes, push_chars, push_number, push_number_from_one};
use program_words::FoldWords;
use state_cache::Painted;
use std::alloc::{AllocError, Global};
use syn_base::{Files, Ledger, Lines, List, Memory, Steps};
use syn_folds::{Fold, Row, folds, line_level, view};
use text_scan::past_blanks;

/// The folds of the text, or its rows where folds are to be closed.
pub(crate) fn print_folds<F: Files, L: Ledger>(
    alloc: Global,
    files: &mut F,
    words: &FoldWords<'_>,
    steps: &mut Steps<L>,
) -> Result<List<u8>, Stop>
    ensures { Paints (folds_told words.now) (IsUnreadPaint words.now.painting) (IsPaintFault words.now.painting) (text_lines words.now.painting)
        (files_between F.told F.faults F.misses F.longs files.old files.new)
        (steps_change steps.old steps.new) result }
{
    let painted = paint(alloc, files, words.painting(), steps)?;
    Ok(print_painted(alloc, words, painted)?)
}

/// The folds of a painted text, or its rows; the text isn't needed behind them.
fn print_painted(alloc: Global, words: &FoldWords<'_>, painted: Painted) -> Result<List<u8>, Memory>
    ensures { IfOk result (λ bytes. bytes ≡ folds_shown words.now.close painted) }
{
    match words.close() {
        None => folds_bytes(alloc, &painted),
        Some(level) => view_bytes(alloc, &painted, level),
    }
}

/// The folds of a painted text.
pub(crate) fn folds_bytes(alloc: Global, painted: &Painted) -> Result<List<u8>, Memory>
    ensures { IfOk result (λ bytes. bytes
        ≡ folds_text painted.now.syntax painted.now.budget painted.now.text) }
{
    let levels = levels_of(alloc, painted)?;
    let found = folds(alloc, levels.as_slice())?;
    fold_lines(alloc, found.as_slice())
}

/// A line for each fold.
fn fold_lines(alloc: Global, found: &[Fold]) -> Result<List<u8>, Memory>
    ensures { IfOk result (λ bytes. bytes ≡ flat_map fold_line found.now) }
{
    let mut out = Vec::new(alloc);
    for fold in found {
        push_fold(&mut out, fold)?;
    }
    Ok(List::from_vec(out))
}

/// Appends the line of a fold.
fn push_fold(out: &mut Vec<u8>, fold: &Fold) -> Result<(), AllocError>
    ensures { OnOk result (out.new.items ≡ out.old.items ++ fold_line fold.now) }
{
    push_number_from_one(out, fold.first)?;
    push_bytes(out, b"-")?;
    push_number_from_one(out, fold.last)?;
    push_bytes(out, b" ")?;
    push_number(out, fold.level)?;
    push_bytes(out, b"\n")
}

/// The rows of a painted text where folds above this level are closed.
fn view_bytes(alloc: Global, painted: &Painted, close: usize) -> Result<List<u8>, Memory>
    requires { close ≤ 20 }
    ensures { IfOk result (λ bytes. bytes
        ≡ view_text painted.now.syntax painted.now.budget painted.now.text close) }
{
    let levels = levels_of(alloc, painted)?;
    let rows = view(alloc, levels.as_slice(), close)?;
    row_lines(alloc, painted, close, rows.as_slice())
}

/// A line for each row.
fn row_lines(
    alloc: Global,
    painted: &Painted,
    close: usize,
    rows: &[Row],
) -> Result<List<u8>, Memory>
    requires close { close ≤ 20 }
    requires rows { All (RowStands (length painted.now.text)) rows.now }
    ensures { IfOk result (λ bytes. bytes ≡ flat_map (row_line painted.now.text close) rows.now) }
{
    let mut out = Vec::new(alloc);
    for row in rows {
        push_row(&mut out, painted, close, row)?;
    }
    Ok(List::from_vec(out))
}

/// Appends the line of a row.
fn push_row(out: &mut Vec<u8>, painted: &Painted, close: usize, row: &Row) -> Result<(), AllocError>
    requires close { close ≤ 20 }
    requires row { RowStands (length painted.now.text) row.now }
    ensures { OnOk result (out.new.items ≡ out.old.items
        ++ row_line painted.now.text close row.now) }
{
    let _lines = painted.len();
    match *row {
        Row::Line(line) => push_line(out, painted.line(line)),
        Row::Closed { first, last } => {
            push_closed(out, close, last - first + 1, painted.line(first))
        }
    }
}

/// Appends a line as it is.
fn push_line(out: &mut Vec<u8>, line: &[char]) -> Result<(), AllocError>
    ensures { OnOk result (out.new.items ≡ out.old.items ++ plain_line line.now) }
{
    push_chars(out, line)?;
    push_bytes(out, b"\n")
}

/// Appends the row for so many lines, of which this is the first.
fn push_closed(
    out: &mut Vec<u8>,
    close: usize,
    count: usize,
    line: &[char],
) -> Result<(), AllocError>
    requires { close ≤ 20 }
    ensures { OnOk result (out.new.items ≡ out.old.items ++ closed_line close count line.now) }
{
    push_bytes(out, b"+")?;
    push_dashes(out, close + 1)?;
    push_bytes(out, b" ")?;
    push_number(out, count)?;
    push_bytes(out, b" lines: ")?;
    push_line(out, past_blanks(line))
}

/// Appends so many dashes.
fn push_dashes(out: &mut Vec<u8>, count: usize) -> Result<(), AllocError>
    ensures { OnOk result (out.new.items ≡ out.old.items ++ replicate count 45) }
{
    for _dash in 0..count {
        push_bytes(out, b"-")?;
    }
    Ok(())
}

/// The level of each line of a painted text.
fn levels_of(alloc: Global, painted: &Painted) -> Result<List<usize>, Memory>
    ensures are { IfOk result (λ levels. levels
        ≡ text_levels painted.now.syntax painted.now.budget painted.now.text) }
    ensures count { IfOk result (λ levels. length levels ≡ length painted.now.text) }
    ensures few { IfOk result (All (λ level. level ≤ 20)) }
{
    let items = &painted.syntax().items;
    let mut levels = Vec::new(alloc);
    for line in 0..painted.len() {
        let note = painted.note(line);
        levels.push(line_level(items, &note.before, &note.after))?;
    }
    Ok(List::from_vec(levels))
}
