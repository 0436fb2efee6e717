//! Commands and names.
ghost use Rattle.std.specs.Prelude.{◌≡◌, ◌≤◌, None, Some, IfSome, MatchOption};
ghost use Rattle.std.specs.List.{list_all};
ghost use Rattle.std.specs.String.{string_bytes};
ghost use Rattle.program_words.specs.Words.{asked_of, check_of, edit_of, fold_words, folds_of, has_dash, html_of, is_dashes, is_full, is_name, large_of, large_page, large_words, lines_of, names_in, one_name, options_said, page_words, paint_words, printing_with, seed_of, spans_of, syntax_words, texts_of, two_names};
ghost use Rattle.std.specs.Prelude.{option_map};

use crate::options::{Options, lines_of, seed_of, split_options};
use std::marker::Model;

/// The folder where the program runs.
const HERE: &str = ".";

/// The most ticks of an attempt, where the words give no other number.
const USUAL_BUDGET: u64 = 1_000_000;

/// The name of the syntax file by which the large mode paints.
const LARGE_SYNTAX: &str = "mini.vim";

/// The name of the text that the large mode paints.
const LARGE_TEXT: &str = "large";

/// What the words ask.
#[derive(Drop)]
pub enum Asked<'a> {
    Print(Printing<'a>),
    Edit(PageWords<'a>),
    Large(LargeWords),
}

/// What is read from files and printed at once.
#[derive(Drop)]
pub enum Printing<'a> {
    Check(CheckWords<'a>),
    Spans(PaintWords<'a>),
    Html(PageWords<'a>),
    Folds(FoldWords<'a>),
}

/// Which syntax is read: the name of its file, the folder in which included files are looked for (`.`
/// where the words name none), and whether sync methods other than `fromstart` are passed over.
#[derive(Drop)]
pub struct CheckWords<'a> {
    syntax: &'a str,
    folder: &'a str,
    assume_fromstart: bool,
}

impl<'a> Model for CheckWords<'a> {
    ghost use Rattle.program_words.specs.Given as given;

    ghost Value = { given.CheckWords };

    ghost view = { λ w. record {
      syntax = w.syntax.now;
      folder = w.folder.now;
      assume_fromstart = w.assume_fromstart;
    } };
}

/// What is painted: the syntax, the name of the text file, the most ticks of one attempt, which are
/// 1 at least, and the level of concealing, from 0 to 3.
#[derive(Drop)]
pub struct PaintWords<'a> {
    syntax: CheckWords<'a>,
    text: &'a str,
    budget: u64,
    conceal: u8,
}

impl<'a> Model for PaintWords<'a> {
    ghost use Rattle.program_words.specs.Given as given;

    ghost Value = { given.PaintWords };

    ghost use Rattle.std.specs.Prelude.{◌≤◌};

    ghost view = { λ w. record {
      syntax = w.syntax;
      text = w.text.now;
      budget = w.budget;
      conceal = w.conceal;
    } };

    ghost invariant = { λ w. (1 ≤ w.budget) × (w.conceal ≤ 3) };
}

/// The page that is made: what is painted, whether lines begin with their numbers, and whether they
/// stand in a `<pre>` element.
#[derive(Drop)]
pub struct PageWords<'a> {
    painting: PaintWords<'a>,
    number: bool,
    pre: bool,
}

impl<'a> Model for PageWords<'a> {
    ghost use Rattle.program_words.specs.Given as given;

    ghost Value = { given.PageWords };

    ghost view = { λ w. record { painting = w.painting; number = w.number; pre = w.pre } };
}

/// The folds that are told: those of what is painted, and if they are to be closed, above which level,
/// which is 20 at most.
#[derive(Drop)]
pub struct FoldWords<'a> {
    painting: PaintWords<'a>,
    close: Option<usize>,
}

impl<'a> Model for FoldWords<'a> {
    ghost use Rattle.program_words.specs.Given as given;

    ghost Value = { given.FoldWords };

    ghost use Rattle.std.specs.Prelude.{◌≤◌, IfSome};

    ghost view = { λ w. record { painting = w.painting; close = w.close } };

    ghost invariant = { λ w. IfSome w.close (λ close. close ≤ 20) };
}

/// The large mode: the seed of its draws, how many lines its text has at the start, and the most ticks of
/// one attempt, which are 1 at least.
#[derive(Drop)]
pub struct LargeWords {
    seed: u64,
    lines: u64,
    budget: u64,
}

impl Model for LargeWords {
    ghost use Rattle.program_words.specs.Given as given;

    ghost Value = { given.LargeWords };

    ghost use Rattle.std.specs.Prelude.{◌≤◌};

    ghost view = { λ w. record { seed = w.seed; lines = w.lines; budget = w.budget } };

    ghost invariant = { λ w. (w.seed ≤ 4294967295) × (1 ≤ w.lines) ×
        (w.lines ≤ 100000) × (1 ≤ w.budget) };
}

impl<'a> Asked<'a> {
    /// What the words ask, if they are in the table of words (this profile). `words` are those behind
    /// the program's name.
    pub fn read(words: &'a [String]) -> Option<Asked<'a>>
        ensures { result ≡ asked_of (texts_of words.now) }
    {
        let [command, behind @ ..] = words else {
            return None;
        };
        let (front, rest) = split_options(behind);
        if command.as_str() == "edit" {
            return Some(Asked::Edit(PageWords::read_for_edit(front, rest)?));
        }
        if command.as_str() == "large" {
            return Some(Asked::Large(LargeWords::read(front, rest)?));
        }
        Some(Asked::Print(Printing::read(command.as_str(), front, rest)?))
    }
}

impl<'a> Printing<'a> {
    /// What this command with these words behind it asks.
    fn read(command: &str, front: &'a [String], rest: &'a [String]) -> Option<Printing<'a>>
        ensures { result ≡ printing_with command.now (options_said (texts_of front.now))
            (names_in (texts_of rest.now)) }
    {
        if command == "check" {
            return Some(Printing::Check(CheckWords::read(front, rest)?));
        }
        if command == "spans" {
            return Some(Printing::Spans(PaintWords::read(front, rest)?));
        }
        if command == "html" {
            return Some(Printing::Html(PageWords::read(front, rest)?));
        }
        if command == "folds" {
            return Some(Printing::Folds(FoldWords::read(front, rest)?));
        }
        None
    }
}

impl<'a> CheckWords<'a> {
    /// What the words behind `check` ask.
    fn read(front: &'a [String], rest: &'a [String]) -> Option<CheckWords<'a>>
        ensures { result ≡ check_of (options_said (texts_of front.now))
            (one_name (names_in (texts_of rest.now))) }
    {
        let options = Options::read(front)?;
        let syntax = one_name(rest)?;
        if !options.are_for_check() {
            return None;
        }
        Some(CheckWords::of(&options, syntax))
    }

    /// The syntax of this file.
    fn of(options: &Options<'a>, syntax: &'a str) -> CheckWords<'a>
        ensures { result ≡ syntax_words options.now syntax.now }
    {
        CheckWords {
            syntax,
            folder: options.folder.unwrap_or(HERE),
            assume_fromstart: options.fromstart,
        }
    }

    /// The name of the syntax file. It isn't empty.
    pub fn syntax(&self) -> &'a str
        ensures { result.now ≡ self.now.syntax }
    {
        self.syntax
    }

    /// The same options for another syntax file, of this name.
    pub fn naming<'b>(&'b self, syntax: &'b str) -> CheckWords<'b>
        ensures { result ≡ record {
          syntax = syntax.now;
          folder = self.now.folder;
          assume_fromstart = self.now.assume_fromstart;
        } }
    {
        CheckWords {
            syntax,
            folder: self.folder,
            assume_fromstart: self.assume_fromstart,
        }
    }

    /// The folder in which included files are looked for, `.` where the words name none.
    pub fn folder(&self) -> &'a str
        ensures { result.now ≡ self.now.folder }
    {
        self.folder
    }

    /// Whether sync methods other than `fromstart` are passed over.
    pub fn assume_fromstart(&self) -> bool
        ensures { result ≡ self.now.assume_fromstart }
    {
        self.assume_fromstart
    }
}

impl<'a> PaintWords<'a> {
    /// What the words behind `spans` ask.
    fn read(front: &'a [String], rest: &'a [String]) -> Option<PaintWords<'a>>
        ensures { result ≡ spans_of (options_said (texts_of front.now))
            (two_names (names_in (texts_of rest.now))) }
    {
        let options = Options::read(front)?;
        let (syntax, text) = two_names(rest)?;
        if !options.are_for_spans() {
            return None;
        }
        Some(PaintWords::of(&options, syntax, text))
    }

    /// The painting of this text.
    fn of(options: &Options<'a>, syntax: &'a str, text: &'a str) -> PaintWords<'a>
        ensures { result ≡ paint_words options.now syntax.now text.now }
    {
        PaintWords {
            syntax: CheckWords::of(options, syntax),
            text,
            budget: options.budget.unwrap_or(USUAL_BUDGET),
            conceal: options.conceal.unwrap_or(0),
        }
    }

    /// The syntax by which the text is painted.
    pub fn syntax(&self) -> &CheckWords<'a>
        ensures { result.now ≡ self.now.syntax }
    {
        &self.syntax
    }

    /// The name of the text file. It isn't empty.
    pub fn text(&self) -> &'a str
        ensures { result.now ≡ self.now.text }
    {
        self.text
    }

    /// The most ticks of one attempt.
    pub fn budget(&self) -> u64
        ensures is { result ≡ self.now.budget }
        ensures some { 1 ≤ result }
    {
        self.budget
    }

    /// The level of concealing (Vim's `'conceallevel'`), 0 where the words give none.
    pub fn conceal(&self) -> u8
        ensures is { result ≡ self.now.conceal }
        ensures few { result ≤ 3 }
    {
        self.conceal
    }
}

impl<'a> PageWords<'a> {
    /// What the words behind `edit` ask.
    fn read_for_edit(front: &'a [String], rest: &'a [String]) -> Option<PageWords<'a>>
        ensures { result ≡ edit_of (options_said (texts_of front.now))
            (two_names (names_in (texts_of rest.now))) }
    {
        let options = Options::read(front)?;
        let (syntax, text) = two_names(rest)?;
        if !options.are_for_edit() {
            return None;
        }
        Some(PageWords::of(&options, syntax, text))
    }

    /// What the words behind `html` ask.
    fn read(front: &'a [String], rest: &'a [String]) -> Option<PageWords<'a>>
        ensures { result ≡ html_of (options_said (texts_of front.now))
            (two_names (names_in (texts_of rest.now))) }
    {
        let options = Options::read(front)?;
        let (syntax, text) = two_names(rest)?;
        if !options.are_for_html() {
            return None;
        }
        Some(PageWords::of(&options, syntax, text))
    }

    /// The page of this text.
    fn of(options: &Options<'a>, syntax: &'a str, text: &'a str) -> PageWords<'a>
        ensures { result ≡ page_words options.now syntax.now text.now }
    {
        PageWords {
            painting: PaintWords::of(options, syntax, text),
            number: options.number,
            pre: !options.no_pre,
        }
    }

    /// What is painted.
    pub fn painting(&self) -> &PaintWords<'a>
        ensures { result.now ≡ self.now.painting }
    {
        &self.painting
    }

    /// Whether lines begin with their numbers.
    pub fn number(&self) -> bool
        ensures { result ≡ self.now.number }
    {
        self.number
    }

    /// Whether the lines stand in a `<pre>` element.
    pub fn pre(&self) -> bool
        ensures { result ≡ self.now.pre }
    {
        self.pre
    }
}

impl<'a> FoldWords<'a> {
    /// What the words behind `folds` ask.
    fn read(front: &'a [String], rest: &'a [String]) -> Option<FoldWords<'a>>
        ensures { result ≡ folds_of (options_said (texts_of front.now))
            (two_names (names_in (texts_of rest.now))) }
    {
        let options = Options::read(front)?;
        let (syntax, text) = two_names(rest)?;
        if !options.are_for_folds() {
            return None;
        }
        Some(FoldWords::of(&options, syntax, text))
    }

    /// The folds of this text.
    fn of(options: &Options<'a>, syntax: &'a str, text: &'a str) -> FoldWords<'a>
        ensures { result ≡ fold_words options.now syntax.now text.now }
    {
        FoldWords {
            painting: PaintWords::of(options, syntax, text),
            close: options.close,
        }
    }

    /// What is painted.
    pub fn painting(&self) -> &PaintWords<'a>
        ensures { result.now ≡ self.now.painting }
    {
        &self.painting
    }

    /// The level above which folds are closed, if they are to be.
    pub fn close(&self) -> Option<usize>
        ensures is { result ≡ self.now.close }
        ensures few { IfSome result (λ close. close ≤ 20) }
    {
        self.close
    }
}

impl LargeWords {
    /// What the words behind `large` ask.
    fn read(front: &[String], rest: &[String]) -> Option<LargeWords>
        ensures { result ≡ large_of (options_said (texts_of front.now))
            (two_names (names_in (texts_of rest.now))) }
    {
        let options = Options::read(front)?;
        let (seed, lines) = two_names(rest)?;
        if !options.are_for_large() {
            return None;
        }
        LargeWords::of(&options, seed, lines)
    }

    /// The large mode with these numbers, if both are in form.
    fn of(options: &Options<'_>, seed: &str, lines: &str) -> Option<LargeWords>
        ensures { result ≡ large_words options.now (seed_of seed.now) (lines_of lines.now) }
    {
        let seed = seed_of(seed)?;
        let lines = lines_of(lines)?;
        Some(LargeWords {
            seed,
            lines,
            budget: options.budget.unwrap_or(USUAL_BUDGET),
        })
    }

    /// The seed of the draws.
    pub fn seed(&self) -> u64
        ensures is { result ≡ self.now.seed }
        ensures few { result ≤ 4294967295 }
    {
        self.seed
    }

    /// How many lines the text has at the start.
    pub fn lines(&self) -> u64
        ensures is { result ≡ self.now.lines }
        ensures some { 1 ≤ result }
        ensures few { result ≤ 100000 }
    {
        self.lines
    }

    /// What is painted, in the words of a page. It names no file of the outside: the syntax and the
    /// text are the large mode's own.
    pub fn page(&self) -> PageWords<'static>
        ensures { result ≡ large_page self.now }
    {
        PageWords {
            painting: PaintWords {
                syntax: CheckWords {
                    syntax: LARGE_SYNTAX,
                    folder: HERE,
                    assume_fromstart: false,
                },
                text: LARGE_TEXT,
                budget: self.budget,
                conceal: 0,
            },
            number: false,
            pre: true,
        }
    }
}

/// The one name behind the options.
fn one_name(words: &[String]) -> Option<&str>
    ensures { MatchOption result (one_name (names_in (texts_of words.now)) ≡ None)
        (λ name. one_name (names_in (texts_of words.now)) ≡ Some name.now) }
{
    let Some([name]) = names_in(words) else {
        return None;
    };
    Some(name.as_str())
}

/// The two names behind the options.
fn two_names(words: &[String]) -> Option<(&str, &str)>
    ensures { MatchOption result (two_names (names_in (texts_of words.now)) ≡ None)
        (λ names. two_names (names_in (texts_of words.now)) ≡ Some (names.0.now, names.1.now)) }
{
    let Some([first, second]) = names_in(words) else {
        return None;
    };
    Some((first.as_str(), second.as_str()))
}

/// The names behind the options, if each word may be one.
fn names_in(words: &[String]) -> Option<&[String]>
    ensures { MatchOption result (names_in (texts_of words.now) ≡ None)
        (λ names. names_in (texts_of words.now) ≡ Some (texts_of names.now)) }
{
    let [first, behind @ ..] = words else {
        return Some(words);
    };
    if is_dashes(first.as_str()) {
        if are_full(behind) {
            return Some(behind);
        }
        return None;
    }
    if are_names(words) {
        return Some(words);
    }
    None
}

fn are_full(words: &[String]) -> bool
    ensures { result ≡ list_all (λ word. is_full (string_bytes word)) words.now }
{
    words.iter().all(|word| is_full(word.as_str()))
}

fn are_names(words: &[String]) -> bool
    ensures { result ≡ list_all (λ word. is_name (string_bytes word)) words.now }
{
    words.iter().all(|word| is_name(word.as_str()))
}

/// Whether the word isn't empty.
fn is_full(word: &str) -> bool
    ensures { result ≡ is_full word.now }
{
    !word.as_bytes().is_empty()
}

/// Whether the word may be a name without `--` before it: it isn't empty and doesn't begin with a dash.
fn is_name(word: &str) -> bool
    ensures { result ≡ is_name word.now }
{
    is_full(word) && !has_dash(word)
}

/// Whether behind this word each word is a name.
pub(crate) fn is_dashes(word: &str) -> bool
    ensures { result ≡ is_dashes word.now }
{
    word == "--"
}

/// Whether the word begins with a dash.
pub(crate) fn has_dash(word: &str) -> bool
    ensures { result ≡ has_dash word.now }
{
    match word.as_bytes() {
        [] => false,
        [first, ..] => *first == b'-',
    }
}
