//! Calls of the machine's files.
//!
//!     fetch NAME 3    the bytes of a file, if they are at most so many, or why there are none

use crate::answer::print_bytes;
use crate::fault::{Fault, number_of};
use syn_base::{Fetched, Files, HostFiles};

pub(crate) fn fetch(
    rt: &HostRuntime,
    arguments: &[&str],
    answer: &mut String,
) -> Result<(), Fault> {
    let [name, limit] = arguments else {
        return Err(Fault::BadCase);
    };
    let limit = number_of(limit)?;
    let fetched = HostFiles::new(*rt).fetch(rt.alloc(), name, limit);
    write_fetched(answer, &fetched)
}

fn write_fetched(answer: &mut String, fetched: &Fetched) -> Result<(), Fault> {
    match fetched {
        Fetched::Whole(bytes) => {
            answer.push_str("whole ")?;
            print_bytes(answer, bytes.as_slice())?;
        }
        Fetched::Missing => answer.push_str("missing")?,
        Fetched::TooLong => answer.push_str("too long")?,
        Fetched::Failed => answer.push_str("failed")?,
        Fetched::Memory => return Err(Fault::Memory),
    }
    Ok(())
}
