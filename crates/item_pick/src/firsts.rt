//! What is known of attempts by the first start patterns of items.
ghost use Rattle.std.specs.Prelude.{◌≡◌, Some, true, IfOk, IsTrue};
ghost use Rattle.item_pick.specs.Common.{Rules, first_asked, idles_before, is_asked, IsToldOfFirst, IsFirstOf, AreFirstsOf, IsReachOf, rules_by};

use crate::asked::Asked;
use crate::picking::StartBy;
use pattern_screens::{
    fails_after, fails_at, fails_past_first, longest_behind, rest_fails, takes_first,
};
use region_ends::{KeyAnswers, item_of};
use slots::Table;
use std::alloc::Global;
use syn_base::{ItemId, Memory};

/// What is asked of attempts by the first start pattern of an item, at the columns with a key.
#[derive(Clone, Copy)]
pub(crate) enum Question {
    /// Whether they are in vain there.
    Here,
    /// Whether they are in vain one column before.
    Before,
    /// Whether what follows the first piece of the pattern is in vain there.
    Behind,
}

/// How far attempts by the first start pattern of an item may lead, whatever stands there.
#[derive(Clone, Copy)]
pub(crate) struct Reach {
    /// From a line's first column alone.
    pub(crate) anchored: bool,
    /// Of how many characters a line and the one before may be together, so that attempts by the
    /// pattern, which begins with a look behind, are within the budget where what follows is in vain.
    pub(crate) longest: Option<u64>,
    /// Its first piece is of one character, behind a line's first column.
    pub(crate) takes: bool,
}

/// What is known of attempts by the first start patterns of items. It is made as it is asked.
#[derive(Drop)]
pub(crate) struct Firsts {
    here: KeyAnswers,
    before: KeyAnswers,
    behind: KeyAnswers,
    /// Whether an item can't start one column before.
    idle: KeyAnswers,
    /// By the number of the item.
    reaches: Table<Reach>,
}

impl Firsts {
    /// Nothing is known. It takes no memory.
    pub(crate) fn new(alloc: Global) -> Firsts
        ensures { (r : Rules) → AreFirstsOf r result }
    {
        Firsts {
            here: KeyAnswers::new(alloc),
            before: KeyAnswers::new(alloc),
            behind: KeyAnswers::new(alloc),
            idle: KeyAnswers::new(alloc),
            reaches: Table::new(alloc),
        }
    }

    /// What was answered of an item.
    #[inline(always)]
    fn known(&self, question: Question, number: u16, item: ItemId) -> Option<bool>
        ensures { (r : Rules) → AreFirstsOf r self.now → result ≡ Some true →
            first_asked (is_asked question) r number item.0 ≡ true }
    {
        match question {
            Question::Here => self.here.known(number, item),
            Question::Before => self.before.known(number, item),
            Question::Behind => self.behind.known(number, item),
        }
    }

    /// Whether it is known of an item that the answer is yes.
    #[inline(always)]
    pub(crate) fn is_told(&self, question: Question, number: u16, item: ItemId) -> bool
        ensures { IsTrue result → (r : Rules) → AreFirstsOf r self.now →
            first_asked (is_asked question) r number item.0 ≡ true }
    {
        match self.known(question, number, item) {
            Some(yes) => yes,
            None => false,
        }
    }

    /// Whether an item is known not to start one column before one whose key has a number.
    #[inline(always)]
    pub(crate) fn is_idle(&self, id: u32, number: u16) -> bool
        ensures { IsTrue result → (r : Rules) → AreFirstsOf r self.now →
            idles_before r number id ≡ true }
    {
        match self.idle.known(number, ItemId(id)) {
            Some(idle) => idle,
            None => false,
        }
    }

    /// Keeps an answer of an item, and what it tells of its start.
    #[inline(never)]
    fn keep(
        &mut self,
        asked: &Asked,
        by: &StartBy<'_>,
        question: Question,
        number: u16,
        yes: bool,
    ) -> Result<(), Memory>
        requires first { IsFirstOf (rules_by asked.now) by.now }
        requires stands { AreFirstsOf (rules_by asked.now) self.old }
        requires told { yes ≡ true →
            first_asked (is_asked question) (rules_by asked.now) number by.now.item.0 ≡ true }
        ensures { AreFirstsOf (rules_by asked.now) self.new }
    {
        match question {
            Question::Here => self.here.keep(number, by.item, yes),
            Question::Before => {
                self.before.keep(number, by.item, yes)?;
                let sits = asked.sits(by.item, by.pattern);
                self.idle.keep(number, by.item, yes && sits)
            }
            Question::Behind => self.behind.keep(number, by.item, yes),
        }
    }

    /// What is asked of an item at the columns whose key has a number. The answer is kept.
    #[inline(always)]
    pub(crate) fn ask(
        &mut self,
        asked: &Asked,
        by: &StartBy<'_>,
        question: Question,
        number: u16,
    ) -> Result<bool, Memory>
        requires first { IsFirstOf (rules_by asked.now) by.now }
        requires stands { AreFirstsOf (rules_by asked.now) self.old }
        ensures stands { AreFirstsOf (rules_by asked.now) self.new }
        ensures told { IfOk result (λ yes. IsTrue yes →
            IsToldOfFirst (is_asked question) (rules_by asked.now) number by.now.item) }
    {
        match self.known(question, number, by.item) {
            Some(yes) => return Ok(yes),
            None => {}
        }
        let yes = asked.asks(by, question, number);
        self.keep(asked, by, question, number, yes)?;
        Ok(yes)
    }

    /// How far attempts by the first start pattern of an item may lead. The answer is kept.
    #[inline(always)]
    pub(crate) fn reach(&mut self, asked: &Asked, by: &StartBy<'_>) -> Result<Reach, Memory>
        requires first { IsFirstOf (rules_by asked.now) by.now }
        requires stands { AreFirstsOf (rules_by asked.now) self.old }
        ensures stands { AreFirstsOf (rules_by asked.now) self.new }
        ensures reach { IfOk result (IsReachOf (rules_by asked.now) by.now.item) }
    {
        match self.reaches.get(by.item.0 as usize) {
            Some(reach) => Ok(reach),
            None => self.find_reach(asked, by),
        }
    }

    /// The same, where it wasn't answered yet.
    #[inline(never)]
    fn find_reach(&mut self, asked: &Asked, by: &StartBy<'_>) -> Result<Reach, Memory>
        requires first { IsFirstOf (rules_by asked.now) by.now }
        requires stands { AreFirstsOf (rules_by asked.now) self.old }
        ensures stands { AreFirstsOf (rules_by asked.now) self.new }
        ensures reach { IfOk result (IsReachOf (rules_by asked.now) by.now.item) }
    {
        let ignore = item_of(asked.parts.items, by.item).ignore;
        let tree = &by.pattern.tree;
        let reach = Reach {
            anchored: fails_past_first(tree, asked.parts.sets, ignore, asked.budget),
            longest: longest_behind(tree, asked.budget),
            takes: takes_first(tree, true),
        };
        self.reaches.put(by.item.0 as usize, reach)?;
        Ok(reach)
    }
}

impl Asked<'_> {
    /// What is asked of the first start pattern of an item.
    #[inline(never)]
    fn asks(&self, by: &StartBy<'_>, question: Question, number: u16) -> bool
        requires { IsFirstOf (rules_by self.now) by.now }
        ensures { IsTrue result →
            first_asked (is_asked question) (rules_by self.now) number by.now.item.0 ≡ true }
    {
        let tree = &by.pattern.tree;
        let sets = self.parts.sets;
        let ignore = item_of(self.parts.items, by.item).ignore;
        match question {
            Question::Here => fails_at(tree, sets, ignore, number, self.budget),
            Question::Before => fails_after(tree, sets, ignore, number, self.budget),
            Question::Behind => rest_fails(tree, sets, ignore, number),
        }
    }
}
