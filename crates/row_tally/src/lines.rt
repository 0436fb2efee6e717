//! Input of which each case is a line.

use crate::tally::{Place, Tally};
use std::alloc::Global;
use std::io;
use std::io::{BufRead, Write};
use std::process::ExitCode;

/// What answers cases.
pub trait Answering {
    /// The answer to a case, as one line without its end.
    fn answer(&mut self, alloc: Global, case: &str) -> io::Result<Vec<u8>>;
}

/// Reads the input, answers each case, and writes what differs and the count. A line that begins
/// with `#` is a remark; one that is `gives`, or begins with that word and a blank, is what the
/// case in the line before it gives; each other line, an empty one too, is a case.
pub fn check_lines<R: BufRead + Drop, W: Write, A: Answering>(
    alloc: Global,
    input: R,
    out: &mut W,
    answering: &mut A,
) -> io::Result<ExitCode> {
    let mut walk = Walk::new(alloc);
    for line in input.lines(alloc) {
        walk.take(alloc, out, answering, line?)?;
    }
    walk.end_case(alloc, out, answering, None)?;
    walk.tally.end(out)
}

/// The lines so far.
#[derive(Drop)]
struct Walk {
    /// How many there are.
    lines: u64,
    /// The last remark.
    remark: String,
    /// The last case, while its answer isn't read.
    case: Option<Case>,
    tally: Tally,
}

/// A case, and the number of its line.
#[derive(Drop)]
struct Case {
    line: u64,
    text: String,
}

impl Walk {
    fn new(alloc: Global) -> Walk {
        Walk {
            lines: 0,
            remark: String::new(alloc),
            case: None,
            tally: Tally::new(),
        }
    }

    /// Takes one more line.
    fn take<W: Write, A: Answering>(
        &mut self,
        alloc: Global,
        out: &mut W,
        answering: &mut A,
        line: String,
    ) -> io::Result<()> {
        self.lines = self.lines.saturating_add(1);
        if line.as_str().starts_with('#') {
            self.remark = line;
            return Ok(());
        }
        if let Some(told) = told_of(line.as_str()) {
            return self.end_case(alloc, out, answering, Some(told));
        }
        self.end_case(alloc, out, answering, None)?;
        self.case = Some(Case {
            line: self.lines,
            text: line,
        });
        Ok(())
    }

    /// Answers the last case, if one waits for that, and counts it. `told` is what it should give;
    /// where no case waits for it, that counts as one that differs.
    fn end_case<W: Write, A: Answering>(
        &mut self,
        alloc: Global,
        out: &mut W,
        answering: &mut A,
        told: Option<&[u8]>,
    ) -> io::Result<()> {
        let remark = self.remark.as_str().as_bytes();
        if let Some(case) = self.case.take() {
            let line = case.line;
            let came = answering.answer(alloc, case.text.as_str())?;
            return self
                .tally
                .take(out, Place { line, remark }, told, Some(came.as_slice()));
        }
        if told.is_some() {
            let line = self.lines;
            return self.tally.take(out, Place { line, remark }, told, None);
        }
        Ok(())
    }
}

/// What a line tells to be given, if it tells that.
fn told_of(line: &str) -> Option<&[u8]> {
    if line == "gives" {
        return Some(b"");
    }
    Some(line.strip_prefix("gives ")?.as_bytes())
}
