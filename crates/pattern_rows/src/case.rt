//! One case: a pattern and its use, and what an attempt is made with, if one is asked for.

ghost use Rattle.vim_pattern.specs.GroupNumbers.{HasNumbers};

use crate::attempt::write_attempt;
use crate::trial::Trial;
use row_tally::Answering;
use std::alloc::{AllocError, Global};
use std::io;
use std::io::Write;
use syn_base::Memory;
use vim_pattern::{PatternError, PatternUse, Tree, read_pattern};

/// A pattern, its use, and the fields behind them.
#[derive(Drop)]
struct Case<'a> {
    usage: PatternUse,
    pattern: &'a str,
    trial: Option<&'a str>,
}

impl<'a> Case<'a> {
    /// The case of a line, with a tab between any two fields.
    fn read(line: &'a str) -> Option<Case<'a>> {
        let (usage, fields) = line.split_once('\t')?;
        let usage = match usage {
            "match" => PatternUse::Match,
            "start" => PatternUse::Start,
            "skip" => PatternUse::SkipOrEnd,
            "names" => PatternUse::Names,
            _ => return None,
        };
        let (pattern, trial) = match fields.split_once('\t') {
            Some((pattern, trial)) => (pattern, Some(trial)),
            None => (fields, None),
        };
        Some(Case {
            usage,
            pattern,
            trial,
        })
    }
}

/// Answers cases.
#[derive(Clone, Copy)]
pub(crate) struct Cases;

impl Answering for Cases {
    fn answer(&mut self, alloc: Global, case: &str) -> io::Result<Vec<u8>> {
        let mut answer = Vec::new(alloc);
        write_case(alloc, &mut answer, case)?;
        Ok(answer)
    }
}

/// Writes how the pattern of a case is read, or what an attempt answers.
fn write_case<W: Write>(alloc: Global, out: &mut W, line: &str) -> io::Result<()> {
    let Some(case) = Case::read(line) else {
        return write!(out, "bad case");
    };
    let characters = characters(alloc, case.pattern)?;
    match read_pattern(alloc, characters.as_slice(), case.usage) {
        Ok(tree) => write_answer(alloc, out, &tree, case.trial),
        Err(fault) => write_fault(out, fault),
    }
}

/// Writes what is told of a tree, or of an attempt with it, where these fields ask for one.
fn write_answer<W: Write>(
    alloc: Global,
    out: &mut W,
    tree: &Tree,
    fields: Option<&str>,
) -> io::Result<()>
    requires { HasNumbers tree.now.node }
{
    let Some(fields) = fields else {
        return write_tree(out, tree);
    };
    match Trial::read(alloc, fields) {
        Ok(Some(trial)) => write_attempt(alloc, out, tree, &trial),
        Ok(None) => write!(out, "bad case"),
        Err(Memory) => Err(out_of_memory()),
    }
}

/// Writes why a pattern isn't read.
fn write_fault<W: Write>(out: &mut W, fault: PatternError) -> io::Result<()> {
    match fault {
        PatternError::At { at, cause } => {
            let place = at.saturating_add(1);
            write!(out, "fault {cause} at {place}")
        }
        PatternError::Memory => Err(out_of_memory()),
    }
}

/// Want of memory, as a fault of a program.
pub(crate) fn out_of_memory() -> io::Error {
    io::Error::from(io::ErrorKind::OutOfMemory)
}

fn characters(alloc: Global, text: &str) -> Result<Vec<char>, AllocError> {
    text.chars().collect(alloc)
}

/// Writes what is told of a tree.
fn write_tree<W: Write>(out: &mut W, tree: &Tree) -> io::Result<()> {
    let groups = tree.groups;
    let externals = tree.externals;
    let case = match tree.case {
        Some(true) => "ignore",
        Some(false) => "match",
        None => "-",
    };
    let moves_start = u8::from(tree.moves_start);
    let line_end = u8::from(tree.line_end);
    write!(
        out,
        "read groups={groups} externals={externals} case={case} zs={moves_start} eol={line_end}"
    )
}
