//! What a pattern needs of a line, ready to be looked for.
ghost use Rattle.std.specs.Prelude.{◌≡◌, ℕ, ◌<◌, IfSome, drop};
ghost use Rattle.std.specs.List.{list_any};
ghost use Rattle.char_class.specs.Bits.{has_code};
ghost use Rattle.vim_pattern.specs.Shape.{bare};
ghost use Rattle.pattern_needs.specs.Asking.{atoms_in};
ghost use Rattle.pattern_needs.specs.Lacking.{IsNeedOf, Need, is_lacked};
ghost use Rattle.pattern_needs.specs.Needs.{lacks, needed, some_takes};

use crate::asked::{ask, takes_needed};
use crate::by::By;
use crate::longest::longest_cheap;
use crate::piece::telling_piece;
use char_class::{Codes, Sets};
use std::marker::Model;
use vim_pattern::{Node, Tree};

/// What each way of a pattern takes a character of, ready to be looked for in lines. A contract sees the
/// atoms, what they go by, and how many characters a line has at most in which they are looked for.
#[derive(Drop)]
pub struct Needs<'a> {
    /// A part of the pattern that needs the same.
    part: &'a Node,
    by: By<'a>,
    /// Which characters below 256 the atoms take.
    low: Codes,
    most: u64,
}

impl<'a> Model for Needs<'a> {
    ghost use Rattle.vim_pattern.specs.Shape.{bare};
    ghost use Rattle.pattern_needs.specs.Asking.{IsReady, atoms_in};
    ghost use Rattle.pattern_needs.specs.Lacking.{Need};
    ghost use Rattle.pattern_needs.specs.Needs.{needed};

    ghost Value = { Need };

    ghost view = { λ n. record {
      sets = n.by.sets.now;
      ignore = n.by.ignore;
      atoms = atoms_in (needed (bare n.part.now));
      most = n.most;
    } };

    ghost invariant = { λ n. IsReady n.by.sets.now n.by.ignore (needed (bare n.part.now)) n.low };
}

impl<'a> Needs<'a> {
    /// What a pattern needs, and in how long lines an attempt is sure to be within a budget, in ticks.
    /// `ignore` says that case is ignored unless the pattern says otherwise. None where it isn't known
    /// what the pattern needs, or where an attempt may leave its line or cost more even in a short one.
    pub fn of(tree: &'a Tree, sets: &'a Sets, ignore: bool, budget: u64) -> Option<Needs<'a>>
        ensures { IfSome result (IsNeedOf sets.now ignore budget tree.now) }
    {
        let by = By::of(tree, sets, ignore);
        let part = telling_piece(&tree.node, &by);
        ask(part, &by, ' ')?;
        let most = longest_cheap(tree, budget)?;
        Some(Needs {
            part,
            by,
            low: codes_taken(part, &by),
            most,
        })
    }

    /// Whether a line isn't too long, and has no character that the pattern needs at a column or behind
    /// it.
    pub fn are_lacked(&self, line: &[char], col: usize) -> bool
        ensures { result ≡ is_lacked self.now line.now col }
    {
        line.len() as u64 <= self.most && !self.some_taken(from_column(line, col))
    }

    /// Whether the atoms take one of some characters.
    fn some_taken(&self, characters: &[char]) -> bool
        ensures { result ≡ list_any
            (some_takes self.now.sets self.now.ignore self.now.atoms) characters.now }
    {
        for c in characters {
            if self.takes(*c) {
                return true;
            }
        }
        false
    }

    /// Whether one of the atoms takes a character.
    fn takes(&self, c: char) -> bool
        ensures { result ≡ some_takes self.now.sets self.now.ignore self.now.atoms c }
    {
        match u8::try_from(c) {
            Ok(code) => self.low.have(code),
            Err(_) => takes_needed(self.part, &self.by, c),
        }
    }
}

/// The characters of a line from a column on.
fn from_column(line: &[char], col: usize) -> &[char]
    ensures { result.now ≡ drop col line.now }
{
    if col < line.len() { &line[col..] } else { &[] }
}

/// A table of the characters below 256 that the atoms take which a part needs.
fn codes_taken(part: &Node, by: &By) -> Codes
    ensures { (c : ℕ) → c < 256 → has_code result c
        ≡ some_takes by.now.sets.now by.now.ignore (atoms_in (needed (bare part.now))) c }
{
    let mut codes = Codes::none();
    for code in 0..=u8::MAX {
        codes.set(code, takes_needed(part, by, char::from(code)));
    }
    codes
}
