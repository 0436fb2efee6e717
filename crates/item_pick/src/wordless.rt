//! Choices of which no word starts an item: there no word is looked up.
ghost use Rattle.std.specs.Prelude.{◌≡◌, get_or, IsTrue};
ghost use Rattle.item_pick.specs.Common.{Rules, ChoiceFits, AreTablesOf, AllStartByWord, HasNoKeyword, IsBare, IsWordless, StartsByWord, rules_by};
ghost use Rattle.keyword_table.specs.declared.table.Definition.{Definition as DefinitionOf};

use crate::asked::Asked;
use crate::choice::{Choice, admits};
use crate::rows::ANY;
use crate::tables::Tables;
use region_ends::item_of;
use syn_base::ItemId;
use syntax_set::ItemKind;

impl Asked<'_> {
    /// Whether an item is there and is a keyword.
    fn starts_by_word(&self, id: ItemId) -> bool
        ensures is { IsTrue result → StartsByWord (rules_by self.now) id }
        ensures only { StartsByWord (rules_by self.now) id → IsTrue result }
    {
        if id.0 as usize >= self.parts.items.added() {
            return false;
        }
        match &item_of(self.parts.items, id).kind {
            ItemKind::Keyword => true,
            _ => false,
        }
    }

    /// Whether the definition of a number starts a keyword.
    fn defines_keyword(&self, number: usize) -> bool
        ensures { IsTrue result → (any : DefinitionOf) → StartsByWord (rules_by self.now)
            (get_or (rules_by self.now).keywords number any).item }
    {
        match self.parts.keywords.item(number) {
            Some(id) => self.starts_by_word(id),
            None => false,
        }
    }

    /// Whether each word of the syntax starts a keyword.
    fn all_start_by_word(&self) -> bool
        ensures { IsTrue result → AllStartByWord (rules_by self.now) }
    {
        for number in 0..self.parts.keywords.len() {
            if !self.defines_keyword(number) {
                return false;
            }
        }
        true
    }

    /// Whether a choice has no keyword.
    fn has_no_keyword(&self, choice: Choice) -> bool
        requires { ChoiceFits (rules_by self.now) choice }
        ensures { IsTrue result → HasNoKeyword (rules_by self.now) choice }
    {
        let count = self.parts.items.added() as u32;
        for id in 0..count {
            if self.starts_by_word(ItemId(id)) && admits(self, choice, ItemId(id)) {
                return false;
            }
        }
        true
    }
}

impl Tables {
    /// Whether each word of the syntax starts a keyword. The answer is kept.
    fn all_start_by_word(&mut self, asked: &Asked) -> bool
        requires { AreTablesOf (rules_by asked.now) self.old }
        ensures stands { AreTablesOf (rules_by asked.now) self.new }
        ensures words { IsTrue result → AllStartByWord (rules_by asked.now) }
    {
        match self.by_word {
            Some(all) => all,
            None => {
                let all = asked.all_start_by_word();
                self.by_word = Some(all);
                all
            }
        }
    }

    /// Whether no word starts an item of a choice, as the kinds of the items tell.
    pub(crate) fn has_no_word(&mut self, asked: &Asked, choice: Choice) -> bool
        requires choice { ChoiceFits (rules_by asked.now) choice }
        requires stands { AreTablesOf (rules_by asked.now) self.old }
        ensures stands { AreTablesOf (rules_by asked.now) self.new }
        ensures wordless { IsTrue result → IsWordless (rules_by asked.now) choice }
    {
        self.all_start_by_word(asked) && asked.has_no_keyword(choice)
    }

    /// Whether it is known that no word starts an item of a choice.
    pub(crate) fn is_wordless(&self, choice: Choice) -> bool
        ensures { IsTrue result → (r : Rules) → AreTablesOf r self.now → IsWordless r choice }
    {
        match self.row(choice, ANY) {
            Some(all) => all.wordless,
            None => false,
        }
    }

    /// Whether it is known that no item of a choice starts anywhere.
    #[inline(always)]
    pub(crate) fn is_bare(&self, choice: Choice) -> bool
        ensures { IsTrue result → (r : Rules) → AreTablesOf r self.now → IsBare r choice }
    {
        match self.row(choice, ANY) {
            Some(all) if all.wordless => all.items.as_slice().is_empty(),
            _ => choice == Choice::NoItem,
        }
    }
}
