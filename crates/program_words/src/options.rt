//! The options of the program, which stand between its command and its names.
ghost use Rattle.std.specs.Prelude.{◌≡◌, ◌≤◌, length, None, Some, true, IfSome, MatchOption};
ghost use Rattle.std.specs.List.{prefix_len};
ghost use Rattle.std.specs.String.{string_bytes};
ghost use Rattle.program_words.specs.Given.{no_options};
ghost use Rattle.program_words.specs.Words.{are_for_check, are_for_edit, are_for_folds, are_for_html, are_for_large, are_for_spans, are_of_no_page, behind_options, budget_of, budget_value, close_of, close_value, conceal_of, conceal_value, folder_in, is_option, lines_of, natural_of, not_empty, at_least_one, number_after, options_of, options_said, positive_of, seed_of, texts_of, with_budget, with_close, with_conceal, with_conceal_or_folder, with_digit, with_flag, with_folder, with_level_or_folder, with_option, with_value};

use crate::words::{has_dash, is_dashes};
use std::marker::Model;

/// The most ticks that an attempt may be given.
const MOST_BUDGET: u64 = 1_000_000_000;

/// The greatest level above which folds are closed.
const MOST_CLOSE: u64 = 20;

/// The greatest level of concealing (Vim's `'conceallevel'`).
const MOST_CONCEAL: u64 = 3;

/// The greatest seed of the large mode.
const MOST_SEED: u64 = 4_294_967_295;

/// The most lines with which the large mode begins.
const MOST_LARGE_LINES: u64 = 100_000;

/// The options at the front, and the words behind them.
#[tactic(auto, using(crate::proofs::WordLaws::options_in, crate::proofs::WordLaws::behind_in))]
pub(crate) fn split_options(words: &[String]) -> (&[String], &[String])
    ensures options { texts_of result.0.now ≡ options_of (texts_of words.now) }
    ensures behind { texts_of result.1.now ≡ behind_options (texts_of words.now) }
{
    words.split_at(option_count(words))
}

/// How many options there are.
fn option_count(words: &[String]) -> usize
    ensures count { result ≡ prefix_len (λ word. is_option (string_bytes word)) words.now }
    ensures within { result ≤ length words.now }
{
    words
        .iter()
        .take_while(|word| is_option(word.as_str()))
        .count()
}

/// Whether the word is an option, or should be one.
fn is_option(word: &str) -> bool
    ensures { result ≡ is_option word.now }
{
    has_dash(word) && !is_dashes(word)
}

/// What the options say.
#[derive(Drop)]
pub(crate) struct Options<'a> {
    pub(crate) fromstart: bool,
    pub(crate) folder: Option<&'a str>,
    pub(crate) budget: Option<u64>,
    pub(crate) number: bool,
    pub(crate) no_pre: bool,
    pub(crate) close: Option<usize>,
    pub(crate) conceal: Option<u8>,
}

impl<'a> Model for Options<'a> {
    ghost use Rattle.program_words.specs.Given as given;
    ghost use Rattle.std.specs.Prelude.{option_map};

    ghost Value = { given.Options };

    ghost view = { λ o. record {
      fromstart = o.fromstart;
      folder = option_map (λ folder. folder.now) o.folder;
      budget = o.budget;
      number = o.number;
      no_pre = o.no_pre;
      close = o.close;
      conceal = o.conceal;
    } };

    ghost use Rattle.std.specs.Prelude.{◌≤◌, IfSome};

    ghost invariant = { λ o. IfSome o.budget (λ budget. 1 ≤ budget)
        × IfSome o.close (λ close. close ≤ 20)
        × IfSome o.conceal (λ conceal. conceal ≤ 3) };
}

impl<'a> Options<'a> {
    fn none() -> Options<'a>
        ensures { result ≡ no_options }
    {
        Options {
            fromstart: false,
            folder: None,
            budget: None,
            number: false,
            no_pre: false,
            close: None,
            conceal: None,
        }
    }

    /// What the options say, if each is one and none stands twice.
    pub(crate) fn read(words: &'a [String]) -> Option<Options<'a>>
        ensures { result ≡ options_said (texts_of words.now) }
    {
        let mut options = Options::none();
        for word in words {
            options = options.with(word.as_str())?;
        }
        Some(options)
    }

    /// With this option too, unless it is none or stands already.
    fn with(self, word: &'a str) -> Option<Options<'a>>
        ensures { result ≡ with_option self.entry word.now }
    {
        if word == "--assume-fromstart" {
            return self.with_fromstart();
        }
        if word == "--number" {
            return self.with_number();
        }
        if word == "--no-pre" {
            return self.with_no_pre();
        }
        self.with_value(word)
    }

    /// With this option too, which has a value.
    fn with_value(self, word: &'a str) -> Option<Options<'a>>
        ensures { result ≡ with_value self.entry word.now (budget_value word.now) }
    {
        match budget_value(word) {
            Some(value) => self.with_budget(budget_of(value)?),
            None => self.with_level_or_folder(word),
        }
    }

    fn with_level_or_folder(self, word: &'a str) -> Option<Options<'a>>
        ensures { result ≡ with_level_or_folder self.entry word.now (close_value word.now) }
    {
        match close_value(word) {
            Some(value) => self.with_close(close_of(value)?),
            None => self.with_conceal_or_folder(word),
        }
    }

    fn with_conceal_or_folder(self, word: &'a str) -> Option<Options<'a>>
        ensures { result ≡ with_conceal_or_folder self.entry word.now (conceal_value word.now) }
    {
        match conceal_value(word) {
            Some(value) => self.with_conceal(conceal_of(value)?),
            None => self.with_folder(folder_in(word)?),
        }
    }

    fn with_fromstart(mut self) -> Option<Options<'a>>
        ensures { result ≡ with_flag self.entry.fromstart (record self.entry { fromstart = true }) }
    {
        if self.fromstart {
            return None;
        }
        self.fromstart = true;
        Some(self)
    }

    fn with_number(mut self) -> Option<Options<'a>>
        ensures { result ≡ with_flag self.entry.number (record self.entry { number = true }) }
    {
        if self.number {
            return None;
        }
        self.number = true;
        Some(self)
    }

    fn with_no_pre(mut self) -> Option<Options<'a>>
        ensures { result ≡ with_flag self.entry.no_pre (record self.entry { no_pre = true }) }
    {
        if self.no_pre {
            return None;
        }
        self.no_pre = true;
        Some(self)
    }

    fn with_budget(mut self, budget: u64) -> Option<Options<'a>>
        requires { 1 ≤ budget }
        ensures { result ≡ with_budget self.entry (Some budget) }
    {
        if self.budget.is_some() {
            return None;
        }
        self.budget = Some(budget);
        Some(self)
    }

    fn with_folder(mut self, folder: &'a str) -> Option<Options<'a>>
        ensures { result ≡ with_folder self.entry (Some folder.now) }
    {
        if self.folder.is_some() {
            return None;
        }
        self.folder = Some(folder);
        Some(self)
    }

    fn with_close(mut self, close: usize) -> Option<Options<'a>>
        requires { close ≤ 20 }
        ensures { result ≡ with_close self.entry (Some close) }
    {
        if self.close.is_some() {
            return None;
        }
        self.close = Some(close);
        Some(self)
    }

    fn with_conceal(mut self, level: u8) -> Option<Options<'a>>
        requires { level ≤ 3 }
        ensures { result ≡ with_conceal self.entry (Some level) }
    {
        if self.conceal.is_some() {
            return None;
        }
        self.conceal = Some(level);
        Some(self)
    }

    /// Whether none of them is a page's own.
    fn are_of_no_page(&self) -> bool
        ensures { result ≡ are_of_no_page self.now }
    {
        !self.number && !self.no_pre
    }

    /// Whether `folds` has all of them.
    pub(crate) fn are_for_folds(&self) -> bool
        ensures { result ≡ are_for_folds self.now }
    {
        self.are_of_no_page() && self.conceal.is_none()
    }

    /// Whether `spans` has all of them.
    pub(crate) fn are_for_spans(&self) -> bool
        ensures { result ≡ are_for_spans self.now }
    {
        self.are_of_no_page() && self.close.is_none()
    }

    /// Whether `html` has all of them.
    pub(crate) fn are_for_html(&self) -> bool
        ensures { result ≡ are_for_html self.now }
    {
        self.close.is_none()
    }

    /// Whether `edit` has all of them.
    pub(crate) fn are_for_edit(&self) -> bool
        ensures { result ≡ are_for_edit self.now }
    {
        self.close.is_none() && self.conceal.is_none()
    }

    /// Whether `large` has all of them.
    pub(crate) fn are_for_large(&self) -> bool
        ensures { result ≡ are_for_large self.now }
    {
        self.are_for_folds() && self.close.is_none() && !self.fromstart && self.folder.is_none()
    }

    /// Whether `check` has all of them.
    pub(crate) fn are_for_check(&self) -> bool
        ensures { result ≡ are_for_check self.now }
    {
        self.are_for_folds() && self.close.is_none() && self.budget.is_none()
    }
}

/// The folder that the word names, if it is the option of a folder.
fn folder_in(word: &str) -> Option<&str>
    ensures { MatchOption result (folder_in word.now ≡ None)
        (λ folder. folder_in word.now ≡ Some folder.now) }
{
    not_empty(word.strip_prefix("--folder=")?)
}

fn not_empty(word: &str) -> Option<&str>
    ensures { MatchOption result (not_empty word.now ≡ None)
        (λ text. not_empty word.now ≡ Some text.now) }
{
    match word.as_bytes() {
        [] => None,
        _ => Some(word),
    }
}

/// The value of the budget's option, if the word is this one.
fn budget_value(word: &str) -> Option<&str>
    ensures { MatchOption result (budget_value word.now ≡ None)
        (λ value. budget_value word.now ≡ Some value.now) }
{
    word.strip_prefix("--budget=")
}

/// The number of a budget: 1 to 1,000,000,000.
fn budget_of(value: &str) -> Option<u64>
    ensures is { result ≡ budget_of value.now }
    ensures some { IfSome result (λ budget. 1 ≤ budget) }
{
    positive_of(value, MOST_BUDGET)
}

/// The value of the folds' option, if the word is this one.
fn close_value(word: &str) -> Option<&str>
    ensures { MatchOption result (close_value word.now ≡ None)
        (λ value. close_value word.now ≡ Some value.now) }
{
    word.strip_prefix("--close=")
}

/// The level above which folds are closed: 0 to 20.
fn close_of(value: &str) -> Option<usize>
    ensures is { result ≡ close_of value.now }
    ensures few { IfSome result (λ close. close ≤ 20) }
{
    let close = natural_of(value, MOST_CLOSE)?;
    Some(close as usize)
}

/// The value of the option of concealing, if the word is this one.
fn conceal_value(word: &str) -> Option<&str>
    ensures { MatchOption result (conceal_value word.now ≡ None)
        (λ value. conceal_value word.now ≡ Some value.now) }
{
    word.strip_prefix("--conceal=")
}

/// The level of concealing: 0 to 3.
fn conceal_of(value: &str) -> Option<u8>
    ensures is { result ≡ conceal_of value.now }
    ensures few { IfSome result (λ level. level ≤ 3) }
{
    let level = natural_of(value, MOST_CONCEAL)?;
    Some(level as u8)
}

/// The seed that the name gives: 0 to 4,294,967,295.
pub(crate) fn seed_of(name: &str) -> Option<u64>
    ensures is { result ≡ seed_of name.now }
    ensures few { IfSome result (λ seed. seed ≤ 4294967295) }
{
    natural_of(name, MOST_SEED)
}

/// The number of lines that the name gives: 1 to 100,000.
pub(crate) fn lines_of(name: &str) -> Option<u64>
    ensures is { result ≡ lines_of name.now }
    ensures some { IfSome result (λ lines. 1 ≤ lines) }
    ensures few { IfSome result (λ lines. lines ≤ 100000) }
{
    positive_of(name, MOST_LARGE_LINES)
}

/// A number from 0 to the greatest one: decimal digits without a leading zero, or `0` itself.
fn natural_of(text: &str, most: u64) -> Option<u64>
    requires { most ≤ 4294967295 }
    ensures is { result ≡ natural_of most text.now }
    ensures few { IfSome result (λ number. number ≤ most) }
{
    if text == "0" {
        return Some(0);
    }
    positive_of(text, most)
}

/// A number from 1 to the greatest one: decimal digits without a leading zero.
fn positive_of(text: &str, most: u64) -> Option<u64>
    requires { most ≤ 4294967295 }
    ensures is { result ≡ positive_of most text.now }
    ensures some { IfSome result (λ number. 1 ≤ number) }
    ensures few { IfSome result (λ number. number ≤ most) }
{
    match text.as_bytes() {
        [] => None,
        [b'0', ..] => None,
        digits => {
            let number = number_of(digits, most)?;
            if number >= 1 { Some(number) } else { None }
        }
    }
}

fn number_of(digits: &[u8], most: u64) -> Option<u64>
    requires { most ≤ 4294967295 }
    ensures is { result ≡ number_after most (Some 0) digits.now }
    ensures few { IfSome result (λ number. number ≤ most) }
{
    let mut number: u64 = 0;
    for byte in digits {
        number = with_digit(number, *byte, most)?;
    }
    Some(number)
}

/// A number with one more digit behind it.
fn with_digit(number: u64, byte: u8, most: u64) -> Option<u64>
    requires number { number ≤ most }
    requires most { most ≤ 4294967295 }
    ensures is { result ≡ with_digit most number byte }
    ensures few { IfSome result (λ more. more ≤ most) }
{
    if byte < b'0' || b'9' < byte {
        return None;
    }
    let more = number * 10 + u64::from(byte - b'0');
    if more <= most { Some(more) } else { None }
}
