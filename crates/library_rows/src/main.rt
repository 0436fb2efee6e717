//! The program `library_rows`: it reads calls of the libraries from standard input, one a line,
//! each with what it gives in the line behind it, and tells those that give something else
//! (`row_tally`).
//!
//! A line is the name of a call and its arguments, with a tab between any two; each module of this
//! crate tells its own. `pattern_rows` asks for patterns and attempts so, and `vimsyn_rows` for
//! runs of the whole program. Bytes have escapes for all that isn't printable ASCII. A line that is
//! no call gives `bad case`. With blanks for the tabs:
//!
//!     range  A  Z  ſ  ignore
//!     gives yes
#![tactic(auto)]

mod answer;
mod characters;
mod chunks;
mod fault;
mod items;
mod keywords;
mod links;
mod new_items;
mod outside;
mod patterns;
mod picks;
mod printed;
mod scripts;
mod streams;
mod substitutions;
mod texts;
mod views;
mod words;

use fault::Fault;
use row_tally::{Answering, check_lines};
use std::alloc::Global;
use std::io;
use std::io::{BufReader, BufWriter, Write};
use std::process::ExitCode;

fn main(rt: HostRuntime) -> io::Result<ExitCode> {
    let input = BufReader::new(rt.alloc(), rt.reader())?;
    let mut output = BufWriter::new(rt.alloc(), io::writer(&rt))?;
    let status = check_lines(rt.alloc(), input, &mut output, &mut Calls { rt: &rt })?;
    output.flush()?;
    Ok(status)
}

/// Makes calls.
#[derive(Clone, Copy)]
struct Calls<'r> {
    rt: &'r HostRuntime,
}

impl<'r> Answering for Calls<'r> {
    fn answer(&mut self, alloc: Global, case: &str) -> io::Result<Vec<u8>> {
        let mut answer = String::new(alloc);
        match answer_line(self.rt, case, &mut answer) {
            Ok(()) => Ok(answer.into_bytes()),
            Err(Fault::BadCase) => Ok(Vec::from_slice(alloc, b"bad case")?),
            Err(Fault::Memory) => Err(io::Error::from(io::ErrorKind::OutOfMemory)),
        }
    }
}

/// Answers the call of a line.
fn answer_line(rt: &HostRuntime, line: &str, answer: &mut String) -> Result<(), Fault> {
    let parts: Vec<&str> = line.split('\t').collect(rt.alloc())?;
    match parts.as_slice().split_first() {
        Some((name, arguments)) => answer_call(rt, name, arguments, answer),
        None => Err(Fault::BadCase),
    }
}

fn answer_call(
    rt: &HostRuntime,
    name: &str,
    arguments: &[&str],
    answer: &mut String,
) -> Result<(), Fault> {
    if name == "fetch" {
        outside::fetch(rt, arguments, answer)
    } else {
        answer_inside(rt.alloc(), name, arguments, answer)
    }
}

/// Answers a call without the machine's files.
fn answer_inside(
    alloc: Global,
    name: &str,
    arguments: &[&str],
    answer: &mut String,
) -> Result<(), Fault> {
    match name {
        "fold" => characters::fold_case(arguments, answer),
        "same" => characters::are_same(arguments, answer),
        "range" => characters::is_in_range(arguments, answer),
        "class" => characters::in_class(arguments, answer),
        "option" => characters::in_option(arguments, answer),
        "keywords" => keywords::candidates(alloc, arguments, answer),
        "expand" => keywords::expansions(alloc, arguments, answer),
        "word_end" => keywords::end_of_word(alloc, arguments, answer),
        "links" => links::of_none(alloc, arguments, answer),
        "usual" => links::of_usual(alloc, arguments, answer),
        "spans" => printed::spans(alloc, arguments, answer),
        "head" => printed::head(alloc, arguments, answer),
        "refusal" => printed::refusal(alloc, arguments, answer),
        "page" => printed::page_of_line(alloc, arguments, answer),
        "collection" => patterns::collection(alloc, arguments, answer),
        "copy" => patterns::copied(alloc, arguments, answer),
        "pick" => picks::of_none(alloc, arguments, answer),
        "items" => items::carry_out_all(alloc, arguments, answer),
        "reader" => streams::reader(arguments, answer),
        "source" => streams::source(alloc, arguments, answer),
        "writer" => streams::writer(alloc, arguments, answer),
        "places" => streams::places(arguments, answer),
        "text" => texts::changed(alloc, arguments, answer),
        "bytes" => texts::bytes(alloc, arguments, answer),
        "chunks" => chunks::starred(alloc, arguments, answer),
        "script" => scripts::entries(alloc, arguments, answer),
        "ex" => substitutions::made(alloc, arguments, answer),
        "view" => views::view(alloc, arguments, answer),
        "commands" => words::commands_of(alloc, arguments, answer),
        "cpo" => words::names_cpo(alloc, arguments, answer),
        "in_folder" => words::name_in_folder(alloc, arguments, answer),
        _ => Err(Fault::BadCase),
    }
}
