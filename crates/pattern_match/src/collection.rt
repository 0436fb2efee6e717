//! Collections, made ready: a table of the characters below 256, with case ignored and not.
ghost use Rattle.std.specs.Prelude.{◌≡◌, IfOk};
ghost use Rattle.match_rules.specs.Collections.{collection_holds};
ghost use Rattle.char_class.specs.declared.sets.Sets.{Sets as SetsOf};
ghost use Rattle.pattern_match.specs.ReadyParts.{some_fixed_holds, some_optional_holds, some_part_holds};

use crate::tables::{some_is_optional, some_optional_has, some_part_has, table_of};
use char_class::{Codes, Sets};
use pattern_items::CharRanges;
use std::alloc::Global;
use std::marker::Model;
use syn_base::{List, Memory};

/// A collection (`/[]`), with tables of what its parts hold below 256, but for those parts on which
/// an option's set decides.
#[derive(Drop)]
pub(crate) struct Collection {
    ranges: CharRanges,
    exact: Codes,
    /// The table with case ignored.
    ignoring: Codes,
    /// Whether an option's set decides on one of the parts.
    has_optional: bool,
}

impl Model for Collection {
    ghost use Rattle.pattern_items.specs.declared.atom.CharRanges.{CharRanges};
    ghost use Rattle.pattern_match.specs.ReadyParts.{AreTables};

    ghost Value = { CharRanges };

    ghost view = { λ c. c.ranges };

    ghost invariant = { λ c. AreTables c.ranges.parts c.exact c.ignoring c.has_optional };
}

impl Collection {
    /// The collection of these ranges.
    pub(crate) fn new(alloc: Global, ranges: &CharRanges) -> Result<Collection, Memory>
        ensures { IfOk result (λ collection. collection ≡ ranges.now) }
    {
        let parts = ranges.parts.as_slice();
        Ok(Collection {
            exact: table_of(parts, false),
            ignoring: table_of(parts, true),
            has_optional: some_is_optional(parts),
            ranges: CharRanges {
                not: ranges.not,
                line_end: ranges.line_end,
                parts: List::from_slice(alloc, parts)?,
            },
        })
    }

    /// Whether it takes a line end too.
    pub(crate) fn takes_line_end(&self) -> bool
        ensures { result ≡ self.now.line_end }
    {
        self.ranges.line_end
    }

    /// Whether it holds a character.
    pub(crate) fn has(&self, c: char, sets: &Sets, ignore: bool) -> bool
        ensures { result ≡ collection_holds self.now c sets.now ignore }
    {
        self.some_part_has(c, sets, ignore) != self.ranges.not
    }

    /// Whether one of its parts holds a character.
    fn some_part_has(&self, c: char, sets: &Sets, ignore: bool) -> bool
        ensures { result ≡ some_part_holds self.now.parts c sets.now ignore }
    {
        match u8::try_from(c) {
            Ok(code) => self.table_has(code, ignore) || self.some_optional_has(c, sets, ignore),
            Err(_) => some_part_has(self.ranges.parts.as_slice(), c, sets, ignore),
        }
    }

    /// Whether the table has a code.
    fn table_has(&self, code: u8, ignore: bool) -> bool
        ensures { (sets : SetsOf) → result ≡ some_fixed_holds self.now.parts code sets ignore }
    {
        if ignore {
            self.ignoring.have(code)
        } else {
            self.exact.have(code)
        }
    }

    /// Whether one of the parts on which an option's set decides holds a character.
    fn some_optional_has(&self, c: char, sets: &Sets, ignore: bool) -> bool
        ensures { result ≡ some_optional_holds self.now.parts c sets.now ignore }
    {
        self.has_optional && some_optional_has(self.ranges.parts.as_slice(), c, sets, ignore)
    }
}
