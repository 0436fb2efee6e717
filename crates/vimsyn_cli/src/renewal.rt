//! Another syntax, which the script names, in place of the one in force.
ghost use Rattle.std.specs.Prelude.{◌≡◌, ◌≤◌, ◌+◌, ◌-◌, length, take, encode_utf8_all, IfErr, IfOk, OnErr, OnOk};
ghost use Rattle.std.specs.String.{string_bytes};
ghost use Rattle.command_print.specs.Shown.{lines_shown_otherwise};
ghost use Rattle.edit_session.specs.Ends.{IfKnown, files_between};
ghost use Rattle.edit_session.specs.Steps.{IsTakingCaused};
ghost use Rattle.state_cache.specs.PaintedText.{IsPaintingOf};
ghost use Rattle.state_cache.specs.Shown.{text_shown};
ghost use Rattle.vimsyn_cli.specs.Renewal.{IsReadNamed, IsUnpainted, IsUntakenStop, RefusesPainting, naming, unended};

use crate::fault::{FaultKind, Stop};
use crate::reading::read;
use crate::sheet::{cause_words, told};
use edit_session::Untaken;
use program_words::CheckWords;
use state_cache::{EditError, Painted, Repainted, SyntaxRefused};
use std::alloc::Global;
use syn_base::{Files, Ledger, List, Memory, Steps};
use syn_reader::Syntax;

/// The syntax in the file of this name, read with the options of the words.
pub(crate) fn read_named<F: Files>(
    alloc: Global,
    files: &mut F,
    words: &CheckWords<'_>,
    name: &[char],
) -> Result<Syntax, Untaken>
    ensures kept { F.told files.new ≡ F.told files.old }
    ensures read { IfKnown (F.told files.old) (λ known.
        IsReadNamed (naming words.now name.now) known result) }
    ensures causes { IsTakingCaused
        (files_between F.told F.faults F.misses F.longs files.old files.new) result }
{
    match text_of(alloc, name) {
        Ok(file) => match read(alloc, files, &words.naming(file.as_str())) {
            Ok(syntax) => Ok(syntax),
            Err(stop) => Err(untaken(stop)),
        },
        Err(_) => Err(Untaken::Memory),
    }
}

/// Characters as a text.
fn text_of(alloc: Global, characters: &[char]) -> Result<String, Memory>
    ensures { IfOk result (λ text. string_bytes text ≡ encode_utf8_all characters.now) }
{
    Ok(characters.iter().copied().collect(alloc)?)
}

/// What stands in the way of a syntax whose reading stopped.
fn untaken(stop: Stop) -> Untaken
    ensures { IsUntakenStop stop result }
{
    match stop {
        Stop::Fault(fault) => match fault.cause {
            FaultKind::Unread => Untaken::Unread(fault.line),
            FaultKind::TooLong => Untaken::TooLong(unended(fault.line)),
            FaultKind::Missing | FaultKind::Content => Untaken::Refused(unended(fault.line)),
        },
        Stop::Memory => Untaken::Memory,
    }
}

/// A line without its end.
fn unended(line: List<u8>) -> List<u8>
    ensures { result ≡ unended line }
{
    let mut bytes = line.into_vec();
    let count = bytes.len().saturating_sub(1);
    bytes.truncate(count);
    List::from_vec(bytes)
}

/// Paints the text by another syntax, which is in force from then on, and answers the lines to tell.
pub(crate) fn renew<L: Ledger>(
    alloc: Global,
    painted: &mut Painted,
    syntax: Syntax,
    steps: &mut Steps<L>,
) -> Result<List<usize>, Untaken>
    ensures painted { OnOk result
        (IsPaintingOf syntax painted.old.text painted.old.budget painted.new) }
    ensures counted { OnOk result (length painted.new.spans ≡ length painted.new.text) }
    ensures told { IfOk result (λ lines. lines ≡ lines_shown_otherwise
        (text_shown painted.old.syntax painted.old.spans) (text_shown syntax painted.new.spans)) }
    ensures refused { IfErr result
        (RefusesPainting syntax painted.old.budget painted.old.text) }
    ensures unchanged { OnErr result (painted.new ≡ painted.old) }
    ensures steps { steps.new ≤ steps.old + length painted.old.text }
{
    match painted.replace_syntax(syntax, steps) {
        Ok(Repainted { lines }) => Ok(told(painted, lines)),
        Err(SyntaxRefused { error, syntax }) => Err(unpainted(alloc, &syntax, error)),
    }
}

/// The words for a painting that is refused.
fn unpainted(alloc: Global, syntax: &Syntax, error: EditError) -> Untaken
    ensures { IsUnpainted syntax.now error result }
{
    match cause_words(alloc, syntax, error) {
        Ok(words) => Untaken::Refused(words),
        Err(_) => Untaken::Memory,
    }
}
