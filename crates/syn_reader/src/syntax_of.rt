//! The syntax of a file and of the files that it asks for.
ghost use Rattle.std.specs.Prelude.{◌≡◌, [], IfOk, IfSome, OnOk, chars};
ghost use Rattle.hi_links.specs.UsualGroups.{groups_and_links};
ghost use Rattle.syn_reader.specs.Follows.{Counts, GoesBy, IsSyntaxOf, file_counts};
ghost use Rattle.syn_reader.specs.SoundReading.{IsSoundReading};
ghost use Rattle.syn_reader.specs.SyntaxOf as spec;

use crate::files::{Asker, How, MOST_OPEN, ask};
use crate::includes::Progress;
use crate::names::Names;
use crate::names_pattern::usual_sets;
use crate::patterns::Patterns;
use crate::reading::Reading;
use crate::syntax::{ReadError, ReadOptions, Syntax};
use hi_links::Links;
use keyword_table::Keywords;
use std::alloc::Global;
use syn_base::{Files, List, Memory};
use syntax_set::{Clusters, Groups, ItemSet};

/// What stands before the first command.
fn nothing_read(alloc: Global) -> Result<Reading, Memory>
    ensures { IfOk result (λ reading. reading ≡ spec.nothing_read) }
{
    let mut groups = Groups::new(alloc);
    let Ok(links) = Links::usual(alloc, &mut groups) else {
        return Err(Memory);
    };
    Ok(Reading {
        names: Names {
            groups,
            clusters: Clusters::new(alloc),
        },
        items: ItemSet::new(alloc),
        patterns: Patterns::new(alloc),
        keywords: Keywords::new(alloc),
        links,
        sets: usual_sets(),
        ignore: false,
        include: 0,
    })
}

/// The parts that make a syntax.
fn parts_of(reading: Reading) -> Syntax
    requires { IsSoundReading reading }
    ensures { result ≡ spec.syntax_from reading }
{
    Syntax {
        items: reading.items,
        clusters: reading.names.clusters,
        groups: reading.names.groups,
        programs: reading.patterns.into_programs(),
        keywords: reading.keywords,
        links: reading.links,
        sets: reading.sets,
    }
}

/// The syntax of all that was read, with its clusters settled.
fn syntax_from(reading: Reading) -> Result<Syntax, Memory>
    requires { IsSoundReading reading }
    ensures { IfOk result (λ syntax. syntax ≡ spec.syntax_from reading) }
{
    let mut reading = reading;
    reading.names.clusters.settle()?;
    Ok(parts_of(reading))
}

/// Reads the first file, by its own name.
fn read_first<F: Files>(
    alloc: Global,
    files: &mut F,
    name: &str,
    options: &ReadOptions,
    progress: &mut Progress,
) -> Result<(), ReadError>
    requires sound { IsSoundReading progress.old.reading }
    ensures { GoesBy F.told F.faults F.misses F.longs files.old files.new progress.old.includes
        (λ fetch. spec.asked_within 21 fetch options.now (chars name.now) 0 name.now
        progress.old) progress.new result }
{
    let own = List::from_chars(alloc, name)?;
    let asker = Asker {
        file: own.as_slice(),
        line: 0,
    };
    let how = How {
        alloc,
        options,
        room: MOST_OPEN,
    };
    ask(how, files, asker, name, progress)
}

/// The syntax of a file and of the files that it asks for (`:syntax`, `:syn-include`).
pub fn read_syntax<F: Files>(
    alloc: Global,
    files: &mut F,
    name: &str,
    options: &ReadOptions,
) -> Result<Syntax, ReadError>
    ensures kept { F.told files.new ≡ F.told files.old }
    ensures counts { Counts result
        (file_counts (F.faults files.old) (F.misses files.old) (F.longs files.old))
        (file_counts (F.faults files.new) (F.misses files.new) (F.longs files.new)) }
    ensures answer { IfSome (F.told files.old) (λ map. IsSyntaxOf map name.now options.now result) }
{
    let mut progress = Progress {
        reading: nothing_read(alloc)?,
        includes: 0,
    };
    read_first(alloc, files, name, options, &mut progress)?;
    Ok(syntax_from(progress.reading)?)
}
