//! What an attempt answers, as a line without its end.

ghost use Rattle.vim_pattern.specs.GroupNumbers.{HasNumbers};

use crate::case::out_of_memory;
use crate::trial::Trial;
use char_class::Sets;
use pattern_match::{Attempt, Context, Match, Programs};
use std::alloc::Global;
use std::io;
use std::io::Write;
use syn_base::Looked;
use vim_pattern::Tree;

/// How many groups a pattern has at most.
const GROUPS: usize = 9;

/// Writes what an attempt answers.
pub(crate) fn write_attempt<W: Write>(
    alloc: Global,
    out: &mut W,
    tree: &Tree,
    trial: &Trial,
) -> io::Result<()>
    requires { HasNumbers tree.now.node }
{
    if !trial.is_possible() {
        return write!(out, "bad case");
    }
    let mut programs = Programs::new(alloc);
    let Ok(id) = programs.add(tree) else {
        return Err(out_of_memory());
    };
    let sets = Sets::usual();
    let context = Context {
        ignore: trial.ignore,
        sets: &sets,
        externals: &trial.externals,
    };
    match programs.attempt(alloc, id, &trial.text, &context, trial.start, trial.budget) {
        Ok(Attempt::Found(found, looked)) => write_found(out, &found, looked),
        Ok(Attempt::Absent(looked)) => {
            write!(out, "absent")?;
            write_looked(out, looked)
        }
        Ok(Attempt::TooCostly) => write!(out, "too costly"),
        Err(_) => Err(out_of_memory()),
    }
}

/// Writes the lines that were looked at, and whether a line's number was.
fn write_looked<W: Write>(out: &mut W, looked: Looked) -> io::Result<()> {
    let (low, high) = (looked.low, looked.high);
    if looked.numbered {
        write!(out, " looked={low}..{high} numbered")
    } else {
        write!(out, " looked={low}..{high}")
    }
}

/// Writes a match: where it runs, and what its groups hold.
fn write_found<W: Write>(out: &mut W, found: &Match, looked: Looked) -> io::Result<()> {
    let (from, to) = (found.from, found.to);
    write!(
        out,
        "found {}:{}-{}:{}",
        from.line, from.col, to.line, to.col
    )?;
    write!(out, " caps=")?;
    write_captures(out, found)?;
    write!(out, " ext=")?;
    write_externals(out, found)?;
    write_looked(out, looked)
}

/// The captures of the groups that matched, or a dash.
fn write_captures<W: Write>(out: &mut W, found: &Match) -> io::Result<()> {
    let mut between = "";
    for i in 0..GROUPS {
        if let Some((from, to)) = found.caps.part(i) {
            let number = i + 1;
            write!(
                out,
                "{between}{number}={}:{}-{}:{}",
                from.line, from.col, to.line, to.col
            )?;
            between = ",";
        }
    }
    if between.is_empty() {
        write!(out, "-")?;
    }
    Ok(())
}

/// The texts of the external groups that aren't empty, or a dash.
fn write_externals<W: Write>(out: &mut W, found: &Match) -> io::Result<()> {
    let mut between = "";
    for i in 0..GROUPS {
        let text = found.externals.part(i);
        if !text.is_empty() {
            let number = i + 1;
            write!(out, "{between}{number}=")?;
            for c in text {
                write!(out, "{c}")?;
            }
            between = ",";
        }
    }
    if between.is_empty() {
        write!(out, "-")?;
    }
    Ok(())
}
