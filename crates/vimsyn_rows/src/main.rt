//! The program `vimsyn_rows`: it reads sessions of `vimsyn` from standard input, each with what its
//! runs give, and tells those that give something else (`row_tally`).
//!
//! A session is a run of lines, which ends at an empty line or with the input. Each of its lines is
//! one of these:
//!
//!     words check s             the words of the run, parted by blanks
//!     file s syn case match\n   a file: its name, a blank, and its text
//!     script 1d                 a text of the script
//!     |syn match A /\(x/        a further line of the last file or script, as it stands, without escapes; a line
//!                               end parts it from what the file or script has so far, if it has anything
//!     most out err 4            the most bytes that one call of `script`, `out` or `err` moves
//!     room out 100              how many bytes there is room for in `out` or `err`
//!     failing files 2 3         the calls of `files`, `script`, `out` or `err` that fail, counted from 1
//!     each out err 1 2 30       a run for each of these numbers, in which that call of those fails too
//!     count steps               how many lines each run painted is told too
//!     gives done 0 ..           what a run gives, in the order of the runs
//!     # a remark
//!
//! What isn't given is empty; a call moves up to a million bytes, there is room for as many, and no
//! call fails. A line with `words` or `script` adds to those before it.
//!
//! In words, names, texts and answers stand for themselves all bytes but those of escapes:
//!
//!     \n \t \r \\ \' \"  a line end, a tab, a carriage return, a backslash, a quote
//!     \xHH               the byte of these two hexadecimal digits
//!     \e                 nothing, so that a word or a name may be empty
//!     \(80:ab\)          `ab` so many times; no repetition stands in another one
//!     \#  \+             in a repetition, how many times came before this one, and one more than that
//!
//! An answer has parts with a tab between any two: the status as a word and as its number, `out=`
//! and what `out` got, `err=` and what `err` got, and `steps=` with the count where that is asked
//! for. A sink that got nothing is left out. So of a run that is refused behind a line, with blanks
//! for the tabs:
//!
//!     gives refused 1 out=@1\n err=script too long\n
//!
//! A session with a mistake isn't run. Its one answer tells the first mistake with the number of
//! its line within the session, from 1: `gives mistake in line 7: bad escape`.
//!
//! Each run is a case. One without an answer, and an answer without a run, differ too.
#![tactic(auto)]

mod answer;
mod behaviour;
mod count;
mod mistake;
mod running;
mod session;
mod text;

use answer::check_session;
use row_tally::Tally;
use session::Session;
use std::alloc::Global;
use std::io;
use std::io::{BufRead, BufReader, BufWriter, Write};
use std::process::ExitCode;

fn main(rt: HostRuntime) -> io::Result<ExitCode> {
    let input = BufReader::new(rt.alloc(), rt.reader())?;
    let mut output = BufWriter::new(rt.alloc(), io::writer(&rt))?;
    let status = check_all(rt.alloc(), input, &mut output)?;
    output.flush()?;
    Ok(status)
}

/// Checks all sessions of the input, and writes the count.
fn check_all<R: BufRead + Drop, W: Write>(
    alloc: Global,
    input: R,
    output: &mut W,
) -> io::Result<ExitCode> {
    let mut walk = Walk::new(alloc);
    for line in input.split(alloc, b'\n') {
        walk.take(alloc, output, line?)?;
    }
    walk.end_session(alloc, output)?;
    walk.tally.end(output)
}

/// The lines so far.
#[derive(Drop)]
struct Walk {
    /// The session to which the next line belongs.
    session: Session,
    /// The last remark.
    remark: Vec<u8>,
    tally: Tally,
}

impl Walk {
    fn new(alloc: Global) -> Walk {
        Walk {
            session: Session::new(alloc, 0),
            remark: Vec::new(alloc),
            tally: Tally::new(),
        }
    }

    /// Takes a line of a session, or checks the session at an empty line.
    fn take<W: Write>(&mut self, alloc: Global, output: &mut W, line: Vec<u8>) -> io::Result<()> {
        if line.is_empty() {
            return self.end_session(alloc, output);
        }
        self.session.read(alloc, line.as_slice())?;
        if line.as_slice().starts_with(b"#") {
            self.remark = line;
        }
        Ok(())
    }

    /// Checks the session, and begins another one behind the empty line.
    fn end_session<W: Write>(&mut self, alloc: Global, output: &mut W) -> io::Result<()> {
        let (session, remark) = (&self.session, self.remark.as_slice());
        check_session(alloc, output, &mut self.tally, session, remark)?;
        let before = self.session.last_line().saturating_add(1);
        self.session = Session::new(alloc, before);
        Ok(())
    }
}
