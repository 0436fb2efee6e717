//! Highlight groups by name.
ghost use Rattle.std.specs.Prelude.{◌≡◌, ◌≤◌, ◌==◌, [], length, Some, IfOk, IfErr, OnOk, OnErr};
ghost use Rattle.syntax_set.specs.Groups.{group_of, IsRefusedGroup, name_of, with_group};

use crate::SetError;
use indexmap::IndexMap;
use std::alloc::Global;
use std::marker::Model;
use syn_base::{GroupId, Memory};

/// The most groups that there may be.
pub const MOST_GROUPS: usize = 20_000;

/// The groups in order of definition, which contracts see as the list of their names as first
/// written.
#[derive(Drop)]
pub struct Groups {
    alloc: Global,
    // each name by what it is in lower case
    names: IndexMap<String, String>,
}

impl Model for Groups {
    ghost use Rattle.std.specs.Prelude.{List, ℕ};

    ghost Value = { List (List ℕ) };

    ghost use Rattle.syntax_set.specs.GroupEntries.{HoldsGroups, names_of};

    ghost view = { λ a. names_of a.names.entries };

    ghost invariant = { λ a. HoldsGroups a.names.entries };
}

impl Groups {
    /// No groups. It takes no memory.
    pub fn new(alloc: Global) -> Groups
        ensures { result ≡ [] }
    {
        Groups {
            alloc,
            names: IndexMap::new(alloc),
        }
    }

    /// How many groups there are.
    pub fn len(&self) -> usize
        ensures { result ≡ length self.now }
    {
        self.names.len()
    }

    /// Whether there are none.
    pub fn is_empty(&self) -> bool
        ensures { result ≡ (length self.now == 0) }
    {
        self.names.is_empty()
    }

    /// The name of a group as it was first written, empty where no group has that number.
    pub fn name(&self, g: GroupId) -> &str
        ensures { result.now ≡ name_of self.now g }
    {
        match self.names.get_index(g.0 as usize) {
            Some((_, name)) => name.as_str(),
            None => "",
        }
    }

    /// The group of a name. Case is ignored in ASCII letters alone.
    pub fn find(&self, name: &str) -> Result<Option<GroupId>, Memory>
        ensures { IfOk result (λ found. found ≡ group_of self.now name.now) }
    {
        let lower = name.to_ascii_lowercase(self.alloc)?;
        match self.names.get_index_of(lower.as_str()) {
            Some(number) => Ok(Some(GroupId(number as u32))),
            None => Ok(None),
        }
    }

    /// The group of a name, which is made if it is new (`:syn-define`).
    pub fn number(&mut self, name: &str) -> Result<GroupId, SetError>
        ensures number { IfOk result (λ g. group_of self.new name.now ≡ Some g) }
        ensures names { OnOk result (self.new ≡ with_group self.old name.now) }
        ensures most { OnOk result (length self.new ≤ 20000) }
        ensures refused { IfErr result (IsRefusedGroup self.old name.now) }
        ensures unchanged { OnErr result (self.new ≡ self.old) }
    {
        let lower = name.to_ascii_lowercase(self.alloc)?;
        match self.names.get_index_of(lower.as_str()) {
            Some(number) => Ok(GroupId(number as u32)),
            None => {
                let number = self.names.len();
                if number == MOST_GROUPS {
                    return Err(SetError::TooManyGroups);
                }
                let written = String::from_str(self.alloc, name)?;
                self.names.insert(lower, written)?;
                Ok(GroupId(number as u32))
            }
        }
    }
}
