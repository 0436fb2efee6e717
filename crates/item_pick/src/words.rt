//! Keywords.
ghost use Rattle.std.specs.Prelude.{◌≡◌, reverse, IfOk, IfSome};
ghost use Rattle.std.specs.List.{find, All};
ghost use Rattle.item_pick.specs.Common.{candidates, has_at, line_at, keyword_at, is_free, AreTablesOf, ChoiceFits, IsItem, IsKeyword, IsPlace, rules_by, IsSound};

use crate::choice::Choice;
use crate::picking::Picking;
use crate::starting::Word;
use crate::tables::Tables;
use keyword_table::word_end;
use syn_base::{ItemId, Lines, List, Memory};

impl<T: Lines> Picking<'_, T> {
    /// The first of some items that is free.
    fn first_free(&self, choice: Choice, items: &List<ItemId>) -> Option<ItemId>
        requires items { All (IsItem (rules_by self.now.asked.now)) items.now }
        requires choice { ChoiceFits (rules_by self.now.asked.now) choice }
        ensures first { result ≡ find (is_free (rules_by self.now.asked.now)
            (reverse self.now.tried.now) choice) items.now }
        ensures item { IfSome result (IsItem (rules_by self.now.asked.now)) }
    {
        items
            .as_slice()
            .iter()
            .copied()
            .find(|id| self.is_free(choice, *id))
    }

    /// The items that a word may start.
    fn candidates(&self, word: &[char]) -> Result<List<ItemId>, Memory>
        requires { IsSound self.now.asked.now }
        ensures are { IfOk result (λ items.
            items ≡ candidates (rules_by self.now.asked.now).keywords word.now) }
        ensures items { IfOk result (All (IsItem (rules_by self.now.asked.now))) }
    {
        self.asked.parts.keywords.candidates(self.asked.alloc, word)
    }

    /// Whether a keyword character stands at the place.
    #[inline(always)]
    pub(crate) fn may_begin_word(&self) -> bool
        requires place { IsPlace (T.lines self.now.lines.now) self.now.at }
        ensures { result ≡ has_at (rules_by self.now.asked.now).sets.keyword
            (line_at (T.lines self.now.lines.now) self.now.at.line) self.now.at.col }
    {
        match self.line().get(self.at.col) {
            Some(c) => self.asked.parts.sets.keyword.has(*c),
            None => false,
        }
    }

    /// The keyword whose word begins at the place.
    pub(crate) fn keyword(&self, choice: Choice) -> Result<Option<Word>, Memory>
        requires valid { IsSound self.now.asked.now }
        requires place { IsPlace (T.lines self.now.lines.now) self.now.at }
        requires choice { ChoiceFits (rules_by self.now.asked.now) choice }
        ensures is { IfOk result (λ found. IsKeyword found (keyword_at (rules_by self.now.asked.now)
            (is_free (rules_by self.now.asked.now) (reverse self.now.tried.now) choice)
            (line_at (T.lines self.now.lines.now) self.now.at.line) self.now.at.col)) }
        ensures there { IfOk result (λ found. IfSome found (λ word.
            IsItem (rules_by self.now.asked.now) word.item)) }
    {
        let line = self.line();
        match word_end(line, self.at.col, &self.asked.parts.sets.keyword) {
            None => Ok(None),
            Some(end) => {
                let items = self.candidates(&line[self.at.col..end])?;
                match self.first_free(choice, &items) {
                    None => Ok(None),
                    Some(item) => Ok(Some(Word { item, end })),
                }
            }
        }
    }

    /// The same by what is kept: no word is looked up where none starts an item of the choice.
    pub(crate) fn keyword_by(&self, choice: Choice, tables: &Tables) -> Result<Option<Word>, Memory>
        requires valid { IsSound self.now.asked.now }
        requires place { IsPlace (T.lines self.now.lines.now) self.now.at }
        requires choice { ChoiceFits (rules_by self.now.asked.now) choice }
        requires stands { AreTablesOf (rules_by self.now.asked.now) tables.now }
        ensures is { IfOk result (λ found. IsKeyword found (keyword_at (rules_by self.now.asked.now)
            (is_free (rules_by self.now.asked.now) (reverse self.now.tried.now) choice)
            (line_at (T.lines self.now.lines.now) self.now.at.line) self.now.at.col)) }
        ensures there { IfOk result (λ found. IfSome found (λ word.
            IsItem (rules_by self.now.asked.now) word.item)) }
    {
        if tables.is_wordless(choice) {
            return Ok(None);
        }
        self.keyword(choice)
    }
}
