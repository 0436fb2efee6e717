//! The causes against commands by pattern.
ghost use Rattle.std.specs.Prelude.{◌≡◌, ◌+◌, ◌++◌, codes, decimal, IfOk, OnOk};
ghost use Rattle.cause_print.specs.CauseText.{pattern_fault};
ghost use Rattle.cause_print.specs.ExCauseText.{ex_cause_text};
ghost use Rattle.cause_print.specs.PlaceWords.{place_words};

use crate::cause::print_fault;
use crate::place::push_place;
use byte_text::{push_bytes, push_number_from_one};
use ex_substitute::ExError;
use std::alloc::{AllocError, Global};
use syn_base::{List, Memory, Place};
use vim_pattern::PatternCause;

/// What is told of a cause against a command; of want of memory it is nothing.
pub fn ex_cause_text(alloc: Global, cause: &ExError) -> Result<List<u8>, Memory>
    ensures { IfOk result (λ bytes. bytes ≡ ex_cause_text cause.now) }
{
    let mut out = Vec::new(alloc);
    print_ex_cause(alloc, &mut out, cause)?;
    Ok(List::from_vec(out))
}

/// Appends it.
fn print_ex_cause(alloc: Global, out: &mut Vec<u8>, cause: &ExError) -> Result<(), AllocError>
    ensures { OnOk result (out.new.items ≡ out.old.items ++ ex_cause_text cause.now) }
{
    match cause {
        ExError::EmptyPattern => push_bytes(out, b"empty pattern"),
        ExError::Pattern { at, cause } => print_pattern(alloc, out, *at, cause),
        ExError::BadReplacement { at } => print_replacement(out, *at),
        ExError::BadFlags => push_bytes(out, b"bad flags"),
        ExError::TooCostly(place) => print_costly(out, *place),
        ExError::NoMatch => push_bytes(out, b"no match"),
        ExError::TooManyLines => push_bytes(out, b"too many lines"),
        ExError::LongLine => push_bytes(out, b"line too long"),
        ExError::Memory => Ok(()),
    }
}

/// Appends a pattern's fault.
fn print_pattern(
    alloc: Global,
    out: &mut Vec<u8>,
    at: usize,
    cause: &PatternCause,
) -> Result<(), AllocError>
    ensures { OnOk result (out.new.items ≡ out.old.items ++ (codes "pattern: "
        ++ pattern_fault at cause.now)) }
{
    push_bytes(out, b"pattern: ")?;
    print_fault(alloc, out, at, cause)
}

/// Appends the place of a fault in the string.
fn print_replacement(out: &mut Vec<u8>, at: usize) -> Result<(), AllocError>
    ensures { OnOk result (out.new.items ≡ out.old.items ++ (codes "bad replacement at "
        ++ decimal (at + 1))) }
{
    push_bytes(out, b"bad replacement at ")?;
    push_number_from_one(out, at)
}

/// Appends the place of an attempt that is too costly.
fn print_costly(out: &mut Vec<u8>, place: Place) -> Result<(), AllocError>
    ensures { OnOk result (out.new.items ≡ out.old.items ++ (codes "pattern too costly "
        ++ place_words place.line place.col)) }
{
    push_bytes(out, b"pattern too costly ")?;
    push_place(out, place.line, place.col)
}
