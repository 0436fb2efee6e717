//! Files, and the files that they ask for.
ghost use Rattle.std.specs.Prelude.{◌≡◌, suc, IfOk, OnOk, chars};
ghost use Rattle.std.specs.String.{string_bytes};
ghost use Rattle.syn_words.specs.declared.cause.Cause.TheVariants as cause;
ghost use Rattle.syn_reader.specs.declared.syntax.ReadError.TheVariants as error;
ghost use Rattle.syn_reader.specs.Follows.{
  Does,
  GoesBy,
  HasOtherCause,
  HasOtherCauses,
  IsFaultOf,
  IsInLine,
  IsOrMemory,
  opening,
};
ghost use Rattle.syn_reader.specs.Includes.{cluster_named, counted, include_begun};
ghost use Rattle.syn_reader.specs.SoundReading.{IsSoundReading};
ghost use Rattle.syn_reader.specs.SyntaxOf as spec;

use crate::includes::Progress;
use crate::names::text_of;
use crate::refusal::Refusal;
use crate::syntax::{ReadError, ReadOptions};
use std::alloc::Global;
use syn_base::{Fetched, Files, List, Memory};
use syn_words::{Cause, Command, Commands, What, WordFault, commands};

/// The most bytes of a syntax file.
pub const MOST_SYNTAX_BYTES: usize = 8 << 20;

/// The most files that are open at once: the first one, and 20 nested in it.
pub(crate) const MOST_OPEN: usize = 21;

/// Where a file is asked for, or a command stands.
#[derive(Clone, Copy)]
pub(crate) struct Asker<'a> {
    pub file: &'a [char],
    pub line: usize,
}

/// How files are read, and how many may still be opened, each in the one before.
#[derive(Clone, Copy)]
pub(crate) struct How<'a> {
    pub alloc: Global,
    pub options: &'a ReadOptions,
    pub room: usize,
}

/// The name of a file that a syntax file asks for.
fn path_of(alloc: Global, options: &ReadOptions, name: &[char]) -> Result<String, Memory>
    ensures { IfOk result (λ path. string_bytes path ≡ spec.path_of options.now name.now) }
{
    let mut path = Vec::from_slice(alloc, options.folder.as_slice())?;
    path.push('/')?;
    path.extend_from_slice(name)?;
    text_of(alloc, path.as_slice())
}

/// Why a command is refused. That a file is too long is no such cause: it is told where it is fetched.
fn refused(alloc: Global, asker: Asker<'_>, cause: Cause) -> ReadError
    ensures told { IsOrMemory result (error.Refused asker.entry.file.now asker.entry.line cause) }
    ensures other { HasOtherCause result }
{
    if let Cause::TooLongFile { name: _ } = cause {
        return ReadError::Memory;
    }
    match List::from_slice(alloc, asker.file) {
        Ok(file) => ReadError::Refused {
            file,
            line: asker.line,
            cause,
        },
        Err(_) => ReadError::Memory,
    }
}

/// A file that an include asks for, and the cluster that the groups of its items join.
#[derive(Clone, Copy)]
struct Wanted<'a> {
    cluster: &'a Option<List<char>>,
    name: &'a str,
}

/// A file that is asked for. It is made before the fetch, so that what comes of it can be told.
#[derive(Drop)]
struct Asked {
    file: List<char>,
    line: usize,
    name: List<char>,
}

fn asked_for(alloc: Global, asker: Asker<'_>, name: &str) -> Result<Asked, Memory>
    ensures { IfOk result (λ asked. asked ≡ record {
      file = asker.entry.file.now;
      line = asker.entry.line;
      name = chars name.now;
    }) }
{
    Ok(Asked {
        file: List::from_slice(alloc, asker.file)?,
        line: asker.line,
        name: List::from_chars(alloc, name)?,
    })
}

impl Asked {
    fn too_long(self) -> ReadError
        ensures { result ≡ error.Refused self.file self.line (cause.TooLongFile self.name) }
    {
        ReadError::Refused {
            file: self.file,
            line: self.line,
            cause: Cause::TooLongFile { name: self.name },
        }
    }

    fn missing(self) -> ReadError
        ensures { result ≡ error.Missing self.file self.line self.name }
    {
        ReadError::Missing {
            file: self.file,
            line: self.line,
            name: self.name,
        }
    }

    fn file_fault(self) -> ReadError
        ensures { result ≡ error.FileFault self.file self.line self.name }
    {
        ReadError::FileFault {
            file: self.file,
            line: self.line,
            name: self.name,
        }
    }
}

/// What carrying out a command answers, told with its file and line.
fn in_line(alloc: Global, asker: Asker<'_>, done: Result<(), Refusal>) -> Result<(), ReadError>
    ensures { IsInLine asker.entry.file.now asker.entry.line done result }
{
    match done {
        Ok(()) => Ok(()),
        Err(Refusal::Fault(cause)) => Err(refused(alloc, asker, cause)),
        Err(Refusal::Memory) => Err(ReadError::Memory),
    }
}

/// A command that is refused as words.
fn fault_of(alloc: Global, file: &[char], fault: Option<WordFault>) -> Result<(), ReadError>
    ensures { IsFaultOf file.now fault result }
{
    match fault {
        None => Ok(()),
        Some(fault) => {
            let asker = Asker {
                file,
                line: fault.line,
            };
            Err(refused(alloc, asker, fault.cause))
        }
    }
}

/// Carries out a command that asks for no file.
fn do_effect(
    alloc: Global,
    options: &ReadOptions,
    asker: Asker<'_>,
    progress: &mut Progress,
    what: What,
) -> Result<(), ReadError>
    requires sound { IsSoundReading progress.old.reading }
    ensures answer { Does result progress.new
        (spec.effect_done options.now asker.entry.file.now asker.entry.line progress.old what) }
    ensures causes { HasOtherCauses result }
    ensures includes { progress.new.includes ≡ progress.old.includes }
    ensures sound { OnOk result (IsSoundReading progress.new.reading) }
{
    let assume = options.assume_fromstart;
    let done = progress.reading.carry_out(alloc, assume, what);
    in_line(alloc, asker, done)
}

/// Reads a file that is asked for.
#[cycle(files)]
pub(crate) fn ask<F: Files>(
    how: How<'_>,
    files: &mut F,
    asker: Asker<'_>,
    name: &str,
    progress: &mut Progress,
) -> Result<(), ReadError>
    requires sound { IsSoundReading progress.old.reading }
    ensures { GoesBy F.told F.faults F.misses F.longs files.old files.new progress.old.includes
        (λ fetch. opening how.entry fetch asker.entry.file.now asker.entry.line
        name.now progress.old) progress.new result }
{
    if how.room == 0 {
        return Err(refused(how.alloc, asker, Cause::TooDeepIncludes));
    }
    let inner = How {
        alloc: how.alloc,
        options: how.options,
        room: how.room - 1,
    };
    read_file(inner, files, asker, name, progress)
}

/// Fetches a file and carries out its commands.
#[cycle(files)]
fn read_file<F: Files>(
    how: How<'_>,
    files: &mut F,
    asker: Asker<'_>,
    name: &str,
    progress: &mut Progress,
) -> Result<(), ReadError>
    requires sound { IsSoundReading progress.old.reading }
    ensures { GoesBy F.told F.faults F.misses F.longs files.old files.new progress.old.includes
        (λ fetch. spec.fetched_by (opening how.entry fetch) fetch how.entry.options.now
        asker.entry.file.now asker.entry.line name.now progress.old) progress.new result }
{
    let asked = asked_for(how.alloc, asker, name)?;
    match files.fetch(how.alloc, name, MOST_SYNTAX_BYTES) {
        Fetched::Whole(bytes) => {
            let found = commands(how.alloc, bytes.as_slice())?;
            let file = asked.name;
            carry_out_all(how, files, file.as_slice(), progress, found)
        }
        Fetched::Missing => Err(asked.missing()),
        Fetched::TooLong => Err(asked.too_long()),
        Fetched::Failed => Err(asked.file_fault()),
        Fetched::Memory => Err(ReadError::Memory),
    }
}

/// Carries out the commands of a file.
#[cycle(files)]
fn carry_out_all<F: Files>(
    how: How<'_>,
    files: &mut F,
    file: &[char],
    progress: &mut Progress,
    found: Commands,
) -> Result<(), ReadError>
    requires sound { IsSoundReading progress.old.reading }
    ensures { GoesBy F.told F.faults F.misses F.longs files.old files.new (suc progress.old.includes)
        (λ fetch. spec.with_commands (opening how.entry fetch) how.entry.options.now
        file.now progress.old found) progress.new result }
{
    let Commands { list, fault } = found;
    for command in list.into_vec() {
        carry_out(how, files, file, progress, command)?;
    }
    fault_of(how.alloc, file, fault)
}

/// Carries out one command.
#[cycle(files)]
fn carry_out<F: Files>(
    how: How<'_>,
    files: &mut F,
    file: &[char],
    progress: &mut Progress,
    command: Command,
) -> Result<(), ReadError>
    requires sound { IsSoundReading progress.old.reading }
    ensures { GoesBy F.told F.faults F.misses F.longs files.old files.new (suc progress.old.includes)
        (λ fetch. spec.with_command (opening how.entry fetch) how.entry.options.now
        file.now progress.old command) progress.new result }
{
    let Command { line, what } = command;
    let asker = Asker { file, line };
    match what {
        What::Runtime(name) => {
            let path = path_of(how.alloc, how.options, name.as_slice())?;
            runtime(how, files, asker, progress, path.as_str())
        }
        What::Include { cluster, name } => {
            let path = path_of(how.alloc, how.options, name.as_slice())?;
            let wanted = Wanted {
                cluster: &cluster,
                name: path.as_str(),
            };
            include(how, files, asker, progress, wanted)
        }
        what => do_effect(how.alloc, how.options, asker, progress, what),
    }
}

/// `:runtime`.
#[cycle(files)]
fn runtime<F: Files>(
    how: How<'_>,
    files: &mut F,
    asker: Asker<'_>,
    progress: &mut Progress,
    name: &str,
) -> Result<(), ReadError>
    requires sound { IsSoundReading progress.old.reading }
    ensures { GoesBy F.told F.faults F.misses F.longs files.old files.new (suc progress.old.includes)
        (λ fetch. spec.runtime_command (opening how.entry fetch)
        asker.entry.file.now asker.entry.line progress.old name.now) progress.new result }
{
    count_include(how.alloc, asker, progress)?;
    ask(how, files, asker, name, progress)
}

/// `:syn-include`.
#[cycle(files)]
fn include<F: Files>(
    how: How<'_>,
    files: &mut F,
    asker: Asker<'_>,
    progress: &mut Progress,
    wanted: Wanted<'_>,
) -> Result<(), ReadError>
    requires sound { IsSoundReading progress.old.reading }
    ensures { GoesBy F.told F.faults F.misses F.longs files.old files.new (suc progress.old.includes)
        (λ fetch. spec.include_command (opening how.entry fetch)
        asker.entry.file.now asker.entry.line progress.old wanted.entry.cluster.now
        wanted.entry.name.now) progress.new result }
{
    let around = progress.reading.include;
    name_cluster(how.alloc, asker, progress, wanted.cluster)?;
    begin_include(how.alloc, asker, progress)?;
    let number = progress.reading.include;
    ask(how, files, asker, wanted.name, progress)?;
    let numbers = Numbers { number, around };
    end_include(how.alloc, asker, progress, numbers, wanted.cluster)
}

/// The number of an include, and that of the one around it.
#[derive(Clone, Copy)]
struct Numbers {
    number: u32,
    around: u32,
}

/// Counts one include more.
fn count_include(alloc: Global, asker: Asker<'_>, progress: &mut Progress) -> Result<(), ReadError>
    requires sound { IsSoundReading progress.old.reading }
    ensures answer { Does result progress.new
        (spec.in_line asker.entry.file.now asker.entry.line (counted progress.old)) }
    ensures causes { HasOtherCauses result }
    ensures more { OnOk result (progress.new.includes ≡ suc progress.old.includes) }
    ensures sound { OnOk result (IsSoundReading progress.new.reading) }
{
    let done = progress.count_include();
    in_line(alloc, asker, done)
}

/// Begins an include.
fn begin_include(alloc: Global, asker: Asker<'_>, progress: &mut Progress) -> Result<(), ReadError>
    requires sound { IsSoundReading progress.old.reading }
    ensures answer { Does result progress.new
        (spec.in_line asker.entry.file.now asker.entry.line (include_begun progress.old)) }
    ensures causes { HasOtherCauses result }
    ensures more { OnOk result (progress.new.includes ≡ suc progress.old.includes) }
    ensures sound { OnOk result (IsSoundReading progress.new.reading) }
{
    let done = progress.begin_include();
    in_line(alloc, asker, done)
}

/// Names the cluster of an include.
fn name_cluster(
    alloc: Global,
    asker: Asker<'_>,
    progress: &mut Progress,
    cluster: &Option<List<char>>,
) -> Result<(), ReadError>
    requires sound { IsSoundReading progress.old.reading }
    ensures answer { Does result progress.new
        (spec.in_line asker.entry.file.now asker.entry.line
        (cluster_named progress.old cluster.now)) }
    ensures causes { HasOtherCauses result }
    ensures includes { progress.new.includes ≡ progress.old.includes }
    ensures sound { OnOk result (IsSoundReading progress.new.reading) }
{
    let done = progress.name_cluster(alloc, cluster);
    in_line(alloc, asker, done)
}

/// Ends an include.
fn end_include(
    alloc: Global,
    asker: Asker<'_>,
    progress: &mut Progress,
    numbers: Numbers,
    cluster: &Option<List<char>>,
) -> Result<(), ReadError>
    requires sound { IsSoundReading progress.old.reading }
    ensures answer { Does result progress.new
        (spec.end_done asker.entry.file.now asker.entry.line numbers.number numbers.around
        cluster.now progress.old) }
    ensures causes { HasOtherCauses result }
    ensures includes { progress.new.includes ≡ progress.old.includes }
    ensures sound { OnOk result (IsSoundReading progress.new.reading) }
{
    let done = progress
        .reading
        .end_include(alloc, numbers.number, numbers.around, cluster);
    in_line(alloc, asker, done)
}
