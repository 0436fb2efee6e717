//! Cases, counted.

use std::io;
use std::io::Write;
use std::process::ExitCode;

/// Where an answer stands in the input, or should.
#[derive(Clone, Copy)]
pub struct Place<'a> {
    /// The number of its line, from 1.
    pub line: u64,
    /// The last remark above it, or nothing.
    pub remark: &'a [u8],
}

/// How many cases there were, and how many of them differ.
#[derive(Drop)]
pub struct Tally {
    cases: u64,
    differing: u64,
}

impl Tally {
    /// No case yet.
    pub fn new() -> Tally {
        Tally {
            cases: 0,
            differing: 0,
        }
    }

    /// Takes a case, and tells it where what the input tells and what came are not the same. `None`
    /// is a case without an answer in the input, or an answer there that belongs to no case.
    pub fn take<W: Write>(
        &mut self,
        out: &mut W,
        place: Place<'_>,
        told: Option<&[u8]>,
        came: Option<&[u8]>,
    ) -> io::Result<()> {
        self.cases = self.cases.saturating_add(1);
        if told == came {
            return Ok(());
        }
        self.differing = self.differing.saturating_add(1);
        let line = place.line;
        write!(out, "line {line}")?;
        write_line(out, b", ", place.remark)?;
        match told {
            Some(told) => write_line(out, b"  told: ", told)?,
            None => write_line(out, b"  told: ", b"no answer")?,
        }
        match came {
            Some(came) => write_line(out, b"  came: ", came),
            None => write_line(out, b"  came: ", b"no case"),
        }
    }

    /// Writes the count, and answers the status of the program: that of success where no case
    /// differs.
    pub fn end<W: Write>(&self, out: &mut W) -> io::Result<ExitCode> {
        let cases = self.cases;
        let differing = self.differing;
        if differing == 0 {
            writeln!(out, "{cases} cases, all as told")?;
            Ok(ExitCode::SUCCESS)
        } else {
            writeln!(out, "{differing} of {cases} cases differ")?;
            Ok(ExitCode::FAILURE)
        }
    }
}

fn write_line<W: Write>(out: &mut W, label: &[u8], text: &[u8]) -> io::Result<()> {
    out.write_all(label)?;
    out.write_all(text)?;
    out.write_all(b"\n")
}
