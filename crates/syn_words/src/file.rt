//! The commands of a whole file.
ghost use Rattle.std.specs.Prelude.{◌≡◌, ◌∷◌, ◌++◌, [], IfOk, OnOk, None, Some};
ghost use Rattle.syn_words.specs.FileCommands as spec;
ghost use Rattle.word_reader.specs.Words as words;

use crate::first_words::{Said, awaited, command};
use crate::refusal::WordRefusal;
use crate::{Cause, Command, Commands, What, WordFault};
use std::alloc::Global;
use syn_base::{List, Memory};
use syn_lines::{LogicalLine, LogicalLines, logical_lines};
use text_scan::front;
use word_reader::Reader;

/// Which command of the guard comes next, with the line of its `if`.
#[derive(Clone, Copy)]
pub(crate) enum Guard {
    Outside,
    AwaitsFinish(usize),
    AwaitsEndif(usize),
}

/// What has been read of a file.
#[derive(Drop)]
pub(crate) struct Progress {
    pub list: List<Command>,
    pub guard: Guard,
    pub fault: Option<WordFault>,
}

fn add_command(progress: &mut Progress, number: usize, what: What) -> Result<(), Memory>
    ensures { OnOk result (progress.new ≡ spec.with_command progress.old number what) }
{
    progress.list.push(Command { line: number, what })?;
    progress.guard = Guard::Outside;
    Ok(())
}

fn set_guard(progress: &mut Progress, guard: Guard)
    ensures { progress.new ≡ spec.with_guard progress.old guard }
{
    progress.guard = guard;
}

fn set_fault(progress: &mut Progress, number: usize, cause: Cause)
    ensures { progress.new ≡ spec.with_fault progress.old number cause }
{
    progress.fault = Some(WordFault {
        line: number,
        cause,
    });
}

/// A fault of the guard whose `if` stands in the line `opened`.
fn set_guard_fault(progress: &mut Progress, opened: usize, number: usize, cause: Cause)
    ensures { progress.new ≡ spec.guard_fault progress.old opened number cause }
{
    match cause {
        Cause::GuardUnfinished => set_fault(progress, opened, Cause::GuardUnfinished),
        cause => set_fault(progress, number, cause),
    }
}

/// A command outside the guard, or the guard's `if`.
fn read_outside(
    alloc: Global,
    progress: &mut Progress,
    number: usize,
    reader: &mut Reader<'_>,
) -> Result<(), Memory>
    ensures { OnOk result
        (spec.outside progress.old number reader.old ≡ (progress.new, reader.new)) }
{
    match command(alloc, reader) {
        Ok(Said::Does(what)) => add_command(progress, number, what),
        Ok(Said::OpensGuard) => {
            set_guard(progress, Guard::AwaitsFinish(number));
            Ok(())
        }
        Err(WordRefusal::Fault(cause)) => {
            reader.leave();
            set_fault(progress, number, cause);
            Ok(())
        }
        Err(WordRefusal::Memory) => Err(Memory),
    }
}

/// Behind the guard's `if`.
fn read_finish(
    progress: &mut Progress,
    opened: usize,
    number: usize,
    reader: &mut Reader<'_>,
) -> Result<(), Memory>
    ensures { OnOk result
        (spec.finish progress.old opened number reader.old ≡ (progress.new, reader.new)) }
{
    match awaited("finish", reader) {
        Ok(()) => {
            set_guard(progress, Guard::AwaitsEndif(opened));
            Ok(())
        }
        Err(WordRefusal::Fault(cause)) => {
            reader.leave();
            set_guard_fault(progress, opened, number, cause);
            Ok(())
        }
        Err(WordRefusal::Memory) => Err(Memory),
    }
}

/// Behind the guard's `finish`.
fn read_endif(
    progress: &mut Progress,
    opened: usize,
    number: usize,
    reader: &mut Reader<'_>,
) -> Result<(), Memory>
    ensures { OnOk result
        (spec.endif progress.old opened number reader.old ≡ (progress.new, reader.new)) }
{
    match awaited("endif", reader) {
        Ok(()) => add_command(progress, opened, What::Nothing),
        Err(WordRefusal::Fault(cause)) => {
            reader.leave();
            set_guard_fault(progress, opened, number, cause);
            Ok(())
        }
        Err(WordRefusal::Memory) => Err(Memory),
    }
}

/// A bar, or the command that begins here.
fn read_one(
    alloc: Global,
    progress: &mut Progress,
    number: usize,
    reader: &mut Reader<'_>,
) -> Result<(), Memory>
    ensures { OnOk result
        (spec.read_one progress.old number reader.old ≡ (progress.new, reader.new)) }
{
    if reader.begins('|') {
        reader.skip_one();
        return Ok(());
    }
    match progress.guard {
        Guard::Outside => read_outside(alloc, progress, number, reader),
        Guard::AwaitsFinish(opened) => read_finish(progress, opened, number, reader),
        Guard::AwaitsEndif(opened) => read_endif(progress, opened, number, reader),
    }
}

/// Whether nothing begins here up to the end of the line.
fn line_is_over(text: &[char]) -> bool
    ensures { result ≡ spec.line_is_over text.now }
{
    match front(text) {
        None => true,
        Some((c, _)) => c == '"',
    }
}

/// The commands of one line more.
fn add_line(
    alloc: Global,
    progress: &mut Progress,
    number: usize,
    text: &[char],
) -> Result<(), Memory>
    ensures { OnOk result
        (progress.new ≡ spec.line_after progress.old number text.now text.now) }
{
    let mut reader = Reader::new(text);
    let mut turns = text;
    while let Some((_, fewer)) = front(turns) {
        reader.skip_blanks();
        if line_is_over(reader.rest()) {
            break;
        }
        read_one(alloc, progress, number, &mut reader)?;
        turns = fewer;
    }
    Ok(())
}

fn no_progress(alloc: Global) -> Progress
    ensures { result ≡ spec.no_progress }
{
    Progress {
        list: List::new(alloc),
        guard: Guard::Outside,
        fault: None,
    }
}

/// The commands of the lines, up to a fault.
fn with_lines(alloc: Global, lines: &[LogicalLine]) -> Result<Progress, Memory>
    ensures { IfOk result (λ p. p ≡ spec.lines_after spec.no_progress lines.now) }
{
    let mut progress = no_progress(alloc);
    for line in lines {
        if progress.fault.is_some() {
            break;
        }
        add_line(alloc, &mut progress, line.number, line.text.as_slice())?;
    }
    Ok(progress)
}

fn unfinished(opened: usize) -> Option<WordFault>
    ensures { result ≡ Some (spec.fault_at opened Cause.GuardUnfinished) }
{
    Some(WordFault {
        line: opened,
        cause: Cause::GuardUnfinished,
    })
}

/// The commands, where no line follows.
fn whole(progress: Progress) -> Commands
    ensures { result ≡ spec.whole progress }
{
    let Progress { list, guard, fault } = progress;
    match fault {
        Some(fault) => Commands {
            list,
            fault: Some(fault),
        },
        None => match guard {
            Guard::Outside => Commands { list, fault: None },
            Guard::AwaitsFinish(opened) => Commands {
                list,
                fault: unfinished(opened),
            },
            Guard::AwaitsEndif(opened) => Commands {
                list,
                fault: unfinished(opened),
            },
        },
    }
}

/// The commands of a syntax file up to the first that is refused as words, with that one's line and
/// cause. Lines are counted from 1. Of bytes that aren't UTF-8 there is no command.
pub fn commands(alloc: Global, bytes: &[u8]) -> Result<Commands, Memory>
    ensures { IfOk result (λ commands. commands ≡ spec.commands_of bytes.now) }
{
    match logical_lines(alloc, bytes)? {
        LogicalLines::BadUtf8 { line } => Ok(Commands {
            list: List::new(alloc),
            fault: Some(WordFault {
                line,
                cause: Cause::BadUtf8,
            }),
        }),
        LogicalLines::Lines(lines) => Ok(whole(with_lines(alloc, lines.as_slice())?)),
    }
}
