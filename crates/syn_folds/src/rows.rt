//! The rows of a view.
ghost use Rattle.std.specs.Prelude.{◌≡◌, ◌≤◌, ◌+◌, ◌-◌, ◌++◌, IfOk, OnOk};
ghost use Rattle.syn_folds.specs.Runs.{run_rows};
ghost use Rattle.syn_folds.specs.View.{row_of, view_of};

use std::alloc::Global;
use syn_base::{List, Memory};

/// A row of a view. Lines are counted from 0.
#[derive(Clone, Copy, Debug, PartialEq, Eq)]
pub enum Row {
    /// A line.
    Line(usize),
    /// Two lines or more, the last included, as one row.
    Closed { first: usize, last: usize },
}

/// The rows of lines with these levels where what is above a level is closed (this profile). A line
/// that is above it alone stays a line.
pub fn view(alloc: Global, levels: &[usize], close: usize) -> Result<List<Row>, Memory>
    ensures { IfOk result (λ rows. rows ≡ view_of close levels.now) }
{
    let mut rows = List::new(alloc);
    // the first line without a row; the lines from it on are above the level
    let mut first = 0;
    for (line, level) in levels.iter().enumerate() {
        if *level <= close {
            push_run(&mut rows, first, line)?;
            rows.push(Row::Line(line))?;
            first = line + 1;
        }
    }
    push_run(&mut rows, first, levels.len())?;
    Ok(rows)
}

/// Puts the row of a run of lines at the end, if there are any from the first to the end, excluded.
fn push_run(rows: &mut List<Row>, first: usize, end: usize) -> Result<(), Memory>
    requires { first ≤ end }
    ensures { OnOk result (rows.new ≡ rows.old ++ run_rows first (end - first)) }
{
    if first == end {
        return Ok(());
    }
    rows.push(run_row(first, end - 1))
}

/// The row of a run of lines.
fn run_row(first: usize, last: usize) -> Row
    requires { first ≤ last }
    ensures { result ≡ row_of first (last + 1 - first) }
{
    if first < last {
        Row::Closed { first, last }
    } else {
        Row::Line(first)
    }
}
