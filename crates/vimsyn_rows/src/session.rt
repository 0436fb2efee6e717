//! Sessions, as their lines give them.

use crate::answer::respelled;
use crate::behaviour::{Behaviour, Said};
use crate::mistake::{Mistake, Unread, out_of_memory};
use crate::text::{push_text, push_words};
use std::alloc::Global;
use std::io;

/// A file by its name.
#[derive(Drop)]
pub(crate) struct NamedFile {
    pub(crate) name: Vec<u8>,
    pub(crate) bytes: Vec<u8>,
}

/// An answer that a session tells of itself, as `answer::respelled` spells it, and the number of
/// its line in the input.
#[derive(Drop)]
pub(crate) struct Told {
    pub(crate) line: u64,
    pub(crate) answer: Vec<u8>,
}

/// To what further lines belong: to the last file, to the script, or to nothing yet.
#[derive(Clone, Copy)]
enum Last {
    Nothing,
    File,
    Script,
}

/// What a run is given, and how its outside behaves.
#[derive(Drop)]
pub(crate) struct Session {
    pub(crate) words: Vec<String>,
    pub(crate) named: Vec<NamedFile>,
    pub(crate) text: Vec<u8>,
    pub(crate) files: Behaviour,
    pub(crate) script: Behaviour,
    pub(crate) out: Behaviour,
    pub(crate) err: Behaviour,
    /// For each run, the call that fails where a behaviour says so; if there are none, there is one
    /// run.
    pub(crate) each: Vec<u64>,
    /// Whether the count of painted lines is asked for.
    pub(crate) counts_steps: bool,
    /// Whether it has any line but remarks.
    pub(crate) is_begun: bool,
    /// The first mistake, with the number of its line within the session.
    pub(crate) mistake: Option<(u64, Mistake)>,
    /// What its runs give, in order.
    pub(crate) told: Vec<Told>,
    /// How many lines of the input stand before it.
    before: u64,
    /// How many lines there are, with remarks.
    lines: u64,
    last: Last,
    /// Whether a further line has one before it.
    has_line: bool,
}

impl Session {
    /// Nothing is given yet. So many lines of the input stand before the session.
    pub(crate) fn new(alloc: Global, before: u64) -> Session {
        Session {
            words: Vec::new(alloc),
            named: Vec::new(alloc),
            text: Vec::new(alloc),
            files: Behaviour::ample(alloc),
            script: Behaviour::ample(alloc),
            out: Behaviour::ample(alloc),
            err: Behaviour::ample(alloc),
            each: Vec::new(alloc),
            counts_steps: false,
            is_begun: false,
            mistake: None,
            told: Vec::new(alloc),
            before,
            lines: 0,
            last: Last::Nothing,
            has_line: false,
        }
    }

    /// The number of its last line in the input.
    pub(crate) fn last_line(&self) -> u64 {
        self.before.saturating_add(self.lines)
    }

    /// Takes one more line. Behind a mistake only answers are read.
    pub(crate) fn read(&mut self, alloc: Global, line: &[u8]) -> io::Result<()> {
        self.lines = self.lines.saturating_add(1);
        if line.starts_with(b"#") {
            return Ok(());
        }
        self.is_begun = true;
        match self.read_line(alloc, line) {
            Ok(()) => Ok(()),
            Err(Unread::Mistake(mistake)) => {
                if self.mistake.is_none() {
                    self.mistake = Some((self.lines, mistake));
                }
                Ok(())
            }
            Err(Unread::Memory) => Err(out_of_memory()),
        }
    }

    fn read_line(&mut self, alloc: Global, line: &[u8]) -> Result<(), Unread> {
        if let Some(answer) = line.strip_prefix(b"gives ") {
            return self.add_told(alloc, answer);
        }
        if self.mistake.is_some() {
            return Ok(());
        }
        if let Some(further) = line.strip_prefix(b"|") {
            return self.add_line(further);
        }
        let (verb, text) = split_at_blank(line);
        match verb {
            b"words" => push_words(alloc, &mut self.words, text),
            b"file" => self.add_file(alloc, text),
            b"script" => self.add_script(alloc, text),
            b"most" => self.set_most(&Said::read(alloc, text)?),
            b"room" => self.set_room(&Said::read(alloc, text)?),
            b"failing" => self.fail_at(&Said::read(alloc, text)?),
            b"each" => self.fail_each(&Said::read(alloc, text)?),
            b"count" => self.set_count(text),
            _ => Err(Unread::Mistake(Mistake::Verb)),
        }
    }

    fn add_told(&mut self, alloc: Global, text: &[u8]) -> Result<(), Unread> {
        let line = self.last_line();
        let answer = respelled(alloc, text)?;
        self.told.push(Told { line, answer })?;
        Ok(())
    }

    fn add_file(&mut self, alloc: Global, text: &[u8]) -> Result<(), Unread> {
        let (name, text) = split_at_blank(text);
        self.named.push(file_of(alloc, name, text)?)?;
        self.last = Last::File;
        self.has_line = !text.is_empty();
        Ok(())
    }

    fn add_script(&mut self, alloc: Global, text: &[u8]) -> Result<(), Unread> {
        push_text(alloc, &mut self.text, text)?;
        self.last = Last::Script;
        self.has_line = !self.text.is_empty();
        Ok(())
    }

    /// Adds a further line to the last file or the script.
    fn add_line(&mut self, line: &[u8]) -> Result<(), Unread> {
        let has_line = self.has_line;
        self.has_line = true;
        match self.last {
            Last::Nothing => Err(Unread::Mistake(Mistake::Further)),
            Last::Script => push_line(&mut self.text, has_line, line),
            Last::File => match self.named.last_mut() {
                Some(file) => push_line(&mut file.bytes, has_line, line),
                None => Err(Unread::Mistake(Mistake::Further)),
            },
        }
    }

    fn set_most(&mut self, said: &Said) -> Result<(), Unread> {
        let most = said.amount()?;
        if said.channels.files {
            return Err(Unread::Mistake(Mistake::Channel));
        }
        if said.channels.script {
            self.script.set_most(most)?;
        }
        if said.channels.out {
            self.out.set_most(most)?;
        }
        if said.channels.err {
            self.err.set_most(most)?;
        }
        Ok(())
    }

    fn set_room(&mut self, said: &Said) -> Result<(), Unread> {
        let room = said.amount()?;
        if said.channels.files || said.channels.script {
            return Err(Unread::Mistake(Mistake::Channel));
        }
        if said.channels.out {
            self.out.room = room;
        }
        if said.channels.err {
            self.err.room = room;
        }
        Ok(())
    }

    fn fail_at(&mut self, said: &Said) -> Result<(), Unread> {
        let calls = said.numbers.as_slice();
        if said.channels.files {
            self.files.fail_at(calls)?;
        }
        if said.channels.script {
            self.script.fail_at(calls)?;
        }
        if said.channels.out {
            self.out.fail_at(calls)?;
        }
        if said.channels.err {
            self.err.fail_at(calls)?;
        }
        Ok(())
    }

    fn fail_each(&mut self, said: &Said) -> Result<(), Unread> {
        self.each.extend_from_slice(said.numbers.as_slice())?;
        self.files.fails_each |= said.channels.files;
        self.script.fails_each |= said.channels.script;
        self.out.fails_each |= said.channels.out;
        self.err.fails_each |= said.channels.err;
        Ok(())
    }

    fn set_count(&mut self, text: &[u8]) -> Result<(), Unread> {
        match text {
            b"steps" => {
                self.counts_steps = true;
                Ok(())
            }
            _ => Err(Unread::Mistake(Mistake::Channel)),
        }
    }
}

/// What stands before the first blank, and what stands behind it.
fn split_at_blank(text: &[u8]) -> (&[u8], &[u8]) {
    let mut parts = text.splitn(2, |byte: &u8| *byte == b' ');
    (parts.next().unwrap_or(&[]), parts.next().unwrap_or(&[]))
}

/// The file whose name and bytes these texts stand for.
fn file_of(alloc: Global, name: &[u8], text: &[u8]) -> Result<NamedFile, Unread> {
    let mut file = NamedFile {
        name: Vec::new(alloc),
        bytes: Vec::new(alloc),
    };
    push_text(alloc, &mut file.name, name)?;
    push_text(alloc, &mut file.bytes, text)?;
    Ok(file)
}

/// Appends a line, behind a line end where a line stands before it.
fn push_line(bytes: &mut Vec<u8>, has_line: bool, line: &[u8]) -> Result<(), Unread> {
    if has_line {
        bytes.push(b'\n')?;
    }
    bytes.extend_from_slice(line)?;
    Ok(())
}
