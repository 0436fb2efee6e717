//! The program `pattern_rows`: it reads cases of the pattern language from standard input, one a
//! line, each with what it gives in the line behind it, and tells those that give something else
//! (`row_tally`).
//!
//! A case is the use of the pattern (`match`, `start`, `skip` or `names`), a tab, and the pattern.
//! It gives how the pattern is read, or why it isn't. Where an attempt is asked for, a tab and what
//! it is made with follow (`trial.rt`), and the case gives what the attempt answers. With blanks
//! for the tabs:
//!
//!     match  \(a\|ab\)b  abb  0:0  2
//!     gives found 0:0-0:2 caps=1:0:0-0:1 ext=- looked=0..0
#![tactic(auto)]

mod attempt;
mod case;
mod trial;

use case::Cases;
use row_tally::check_lines;
use std::io;
use std::io::{BufReader, BufWriter, Write};
use std::process::ExitCode;

fn main(rt: HostRuntime) -> io::Result<ExitCode> {
    let input = BufReader::new(rt.alloc(), rt.reader())?;
    let mut output = BufWriter::new(rt.alloc(), io::writer(&rt))?;
    let status = check_lines(rt.alloc(), input, &mut output, &mut Cases)?;
    output.flush()?;
    Ok(status)
}
