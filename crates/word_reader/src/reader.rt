//! What is left of a line, and words taken from it.
ghost use Rattle.std.specs.Prelude.{◌≡◌, [], false, IfOk, Some, None, MatchOption};
ghost use Rattle.pattern_items.specs.Vain.{Known};
ghost use Rattle.text_scan.specs.Characters as scan;
ghost use Rattle.word_reader.specs.Delimited as delimited_spec;
ghost use Rattle.word_reader.specs.Offsets as offsets_spec;
ghost use Rattle.word_reader.specs.Words as spec;

use crate::Adjusts;
use crate::delimited::delimited;
use crate::offsets::offsets;
use crate::words::{Until, begins, behind_first, is_over, past, past_command, split_run};
use std::alloc::Global;
use std::marker::Model;
use syn_base::{List, Memory};
use text_scan::past_blanks;

/// What is left of a line, which contracts see as its characters.
#[derive(Drop)]
pub struct Reader<'a> {
    rest: &'a [char],
    /// Whether a search for a closing bracket was in vain before, so that none is made again.
    in_vain: bool,
}

impl<'a> Model for Reader<'a> {
    ghost use Rattle.std.specs.Prelude.{List, ℕ};
    ghost use Rattle.pattern_items.specs.Vain.{Known};

    ghost Value = { List ℕ };

    ghost view = { λ r. r.rest.now };

    ghost invariant = { λ r. Known r.in_vain r.rest.now };
}

impl<'a> Reader<'a> {
    /// A reader of this line.
    pub fn new(text: &'a [char]) -> Reader<'a>
        ensures { result ≡ text.now }
    {
        Reader {
            rest: text,
            in_vain: false,
        }
    }

    /// What is left.
    pub fn rest(&self) -> &'a [char]
        ensures { result.now ≡ self.now }
    {
        self.rest
    }

    /// Leaves the rest of the line.
    #[tactic(auto, using(crate::proofs::VainLaws::known_end))]
    pub fn leave(&mut self)
        ensures { self.new ≡ [] }
    {
        self.rest = &[];
    }

    /// Whether this character is next.
    pub fn begins(&self, c: char) -> bool
        ensures { result ≡ spec.begins c self.now }
    {
        begins(c, self.rest)
    }

    /// Whether no word begins here.
    pub fn is_over(&self) -> bool
        ensures { result ≡ spec.is_over self.now }
    {
        is_over(self.rest)
    }

    /// Passes a character.
    #[tactic(auto, using(crate::proofs::VainLaws::known_first))]
    pub fn skip_one(&mut self)
        ensures { self.new ≡ spec.behind_first self.old }
    {
        self.rest = behind_first(self.rest);
    }

    /// Passes blanks.
    #[tactic(auto, using(crate::proofs::VainLaws::known_blanks))]
    pub fn skip_blanks(&mut self)
        ensures { self.new ≡ scan.past_blanks self.old }
    {
        self.rest = past_blanks(self.rest);
    }

    /// Passes the words up to the command's end.
    #[tactic(auto, using(crate::proofs::VainLaws::known_command))]
    pub fn skip_command(&mut self)
        ensures { self.new ≡ spec.past_command false self.old }
    {
        self.rest = past_command(false, self.rest);
    }

    /// Passes a run of characters.
    #[tactic(auto, using(crate::proofs::VainLaws::known_past))]
    pub fn skip_run(&mut self, until: Until)
        ensures { self.new ≡ spec.past until self.old }
    {
        self.rest = past(until, self.rest);
    }

    /// Takes a run of characters.
    #[tactic(auto, using(crate::proofs::VainLaws::known_past))]
    pub fn run(&mut self, alloc: Global, until: Until) -> Result<List<char>, Memory>
        ensures word { IfOk result (λ word. word ≡ spec.run until self.old) }
        ensures rest { IfOk result (λ _. self.new ≡ spec.past until self.old) }
    {
        let (front, rest) = split_run(until, self.rest);
        let word = List::from_slice(alloc, front)?;
        self.rest = rest;
        Ok(word)
    }

    /// Whether an equals sign follows, maybe behind blanks.
    pub fn has_equals(&self) -> bool
        ensures { result ≡ spec.has_equals self.now }
    {
        begins('=', past_blanks(self.rest))
    }

    /// Passes that equals sign.
    pub fn skip_equals(&mut self)
        ensures { self.new ≡ spec.behind_equals self.old }
    {
        self.skip_blanks();
        self.skip_one();
    }

    /// Takes the characters up to this delimiter, and the delimiter; none where no delimiter ends
    /// the pattern.
    #[tactic(auto, using(crate::proofs::VainLaws::known_behind))]
    pub fn delimited(
        &mut self,
        alloc: Global,
        delimiter: char,
    ) -> Result<Option<List<char>>, Memory>
        ensures { IfOk result (λ found. MatchOption found
            (delimited_spec.delimited delimiter self.old ≡ None)
            (λ pattern. delimited_spec.delimited delimiter self.old ≡ Some (pattern, self.new))) }
    {
        let found = delimited(alloc, delimiter, self.in_vain, self.rest)?;
        match found.rest {
            None => Ok(None),
            Some(rest) => {
                self.rest = rest;
                self.in_vain = found.in_vain;
                Ok(Some(found.pattern))
            }
        }
    }

    /// Takes the offsets of a pattern, up to the end of the word.
    #[tactic(auto, using(crate::proofs::VainLaws::known_on))]
    pub fn offsets(&mut self) -> Option<Adjusts>
        ensures { MatchOption result
            (offsets_spec.offsets self.old ≡ None)
            (λ adjusts. offsets_spec.offsets self.old ≡ Some (adjusts, self.new)) }
    {
        let (adjusts, rest) = offsets(self.rest)?;
        self.rest = rest;
        Some(adjusts)
    }
}
