//! The causes.
ghost use Rattle.std.specs.Prelude.{◌≡◌, ◌++◌, OnOk};
ghost use Rattle.cause_print.specs.CauseText as spec;

use byte_text::{push_bytes, push_chars, push_number_from_one};
use std::alloc::{AllocError, Global};
use syn_words::Cause;
use vim_pattern::PatternCause;

/// Appends what is told of a cause, without its file and line. The place of a pattern's fault is
/// printed as the number of its character in the pattern, from 1.
pub(crate) fn print_cause(alloc: Global, out: &mut Vec<u8>, cause: &Cause) -> Result<(), AllocError>
    ensures { OnOk result (out.new.items ≡ out.old.items ++ spec.cause_bytes cause.now) }
{
    push_bytes(out, label(cause).as_bytes())?;
    match cause {
        Cause::NotInProfile { word } => push_chars(out, word.as_slice()),
        Cause::Pattern { at, cause } => print_fault(alloc, out, *at, cause),
        _ => Ok(()),
    }
}

/// Appends a pattern's cause and the place of the offending character.
pub(crate) fn print_fault(
    alloc: Global,
    out: &mut Vec<u8>,
    at: usize,
    cause: &PatternCause,
) -> Result<(), AllocError>
    ensures { OnOk result (out.new.items ≡ out.old.items ++ spec.pattern_fault at cause.now) }
{
    push_bytes(out, cause.to_string(alloc)?.as_bytes())?;
    push_bytes(out, b" at ")?;
    push_number_from_one(out, at)?;
    Ok(())
}

/// The words for a cause.
fn label(cause: &Cause) -> &'static str
    ensures { result.now ≡ spec.label cause.now }
{
    match cause {
        Cause::BadUtf8 => "bad utf-8",
        Cause::UnknownCommand => "unknown command",
        Cause::UnknownSubcommand => "unknown syntax command",
        Cause::NotInProfile { .. } => "not in this profile: ",
        Cause::SyncMethod => "sync method",
        Cause::GuardUnfinished => "unfinished guard",
        Cause::BadGroupName => "bad group name",
        Cause::ReservedName => "reserved group name",
        Cause::MissingArgument => "argument missing",
        Cause::ExtraText => "text after the command",
        Cause::UnknownOption => "unknown option",
        Cause::OptionHere => "option not allowed here",
        Cause::BadList => "bad group list",
        Cause::NoPattern => "pattern missing",
        Cause::NoDelimiter => "pattern delimiter not found",
        Cause::BadOffset => "bad offset",
        Cause::TwoSkips => "second skip pattern",
        Cause::NoStart => "no start pattern",
        Cause::NoEnd => "no end pattern",
        Cause::TooLongWord => "keyword too long",
        Cause::BadBrackets => "bad brackets in keyword",
        Cause::BadOptionValue => "bad iskeyword value",
        Cause::BadStyle => "bad highlight value",
        Cause::BadFileName => "bad file name",
        Cause::TooLongFile { .. } => "file too long",
        Cause::TooManyIncludes => "too many includes",
        Cause::TooDeepIncludes => "includes too deep",
        Cause::TooManyItems => "too many items",
        Cause::TooManyGroups => "too many groups",
        Cause::Pattern { .. } => "pattern: ",
        Cause::CostlyNames => "pattern of names too costly",
    }
}
