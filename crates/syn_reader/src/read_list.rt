//! Lists of groups, read.
ghost use Rattle.std.specs.Prelude.{◌≡◌, [], ◌∷◌, ◌++◌, IfOk};
ghost use Rattle.syn_reader.specs.Answers.{Gives};
ghost use Rattle.syn_reader.specs.NamedLists as spec;

use crate::names_pattern::matching;
use crate::refusal::Refusal;
use indexmap::IndexSet;
use std::alloc::Global;
use std::marker::Model;
use syn_base::{GroupId, List, Memory};
use syn_words::{Named, NamedList};
use syntax_set::{Groups, Special};

/// A name of a list, read.
#[derive(Drop)]
pub(crate) enum ReadName {
    Group(List<char>),
    Cluster(List<char>),
    /// A group that a pattern of names stands for.
    Found(GroupId),
}

/// A list of groups, read.
#[derive(Drop)]
pub(crate) struct ReadList {
    pub special: Special,
    pub names: List<ReadName>,
}

/// Names of a list, read, in which each group that patterns of names stand for is found once.
/// Contracts see them as a list.
#[derive(Drop)]
struct ReadNames {
    names: List<ReadName>,
    found: IndexSet<u32>,
}

impl Model for ReadNames {
    ghost use Rattle.std.specs.Prelude.{◌≡◌, List};
    ghost use Rattle.syn_reader.specs.declared.read_list.ReadName.{ReadName};
    ghost use Rattle.syn_reader.specs.NamedLists.{found_in};

    ghost Value = { List ReadName };

    ghost view = { λ a. a.names };

    ghost invariant = { λ a. a.found.keys ≡ found_in a.names };
}

impl ReadNames {
    /// No names. It takes no memory.
    fn new(alloc: Global) -> ReadNames
        ensures { result ≡ [] }
    {
        ReadNames {
            names: List::new(alloc),
            found: IndexSet::new(alloc),
        }
    }

    /// With a name more as it is written.
    fn with_written(self, name: ReadName) -> Result<ReadNames, Memory>
        requires { spec.found_in (name ∷ []) ≡ [] }
        ensures { IfOk result (λ names. names ≡ self ++ name ∷ []) }
    {
        let ReadNames { mut names, found } = self;
        names.push(name)?;
        Ok(ReadNames { names, found })
    }

    fn with_found(self, group: GroupId) -> Result<ReadNames, Memory>
        ensures { IfOk result (λ names. names ≡ spec.with_found self group) }
    {
        let ReadNames {
            mut names,
            mut found,
        } = self;
        if found.insert(group.0)? {
            names.push(ReadName::Found(group))?;
        }
        Ok(ReadNames { names, found })
    }

    fn with_all_found(self, groups: &[GroupId]) -> Result<ReadNames, Memory>
        ensures { IfOk result (λ names. names ≡ spec.with_all_found self groups.now) }
    {
        let mut names = self;
        for group in groups {
            names = names.with_found(*group)?;
        }
        Ok(names)
    }

    fn with_name(self, alloc: Global, groups: &Groups, name: Named) -> Result<ReadNames, Refusal>
        ensures { Gives result (spec.with_name_read groups.now self name) }
    {
        match name {
            Named::Group(name) => Ok(self.with_written(ReadName::Group(name))?),
            Named::Cluster(name) => Ok(self.with_written(ReadName::Cluster(name))?),
            Named::Names(text) => {
                let found = matching(alloc, groups, text.as_slice())?;
                Ok(self.with_all_found(found.as_slice())?)
            }
        }
    }

    fn into_list(self) -> List<ReadName>
        ensures { result ≡ self }
    {
        self.names
    }
}

/// A list, read by the groups that are named before its command.
pub(crate) fn list_read(
    alloc: Global,
    groups: &Groups,
    list: NamedList,
) -> Result<ReadList, Refusal>
    ensures { Gives result (spec.list_read groups.now list) }
{
    let special = list.special;
    let mut names = ReadNames::new(alloc);
    for name in list.names.into_vec() {
        names = names.with_name(alloc, groups, name)?;
    }
    Ok(ReadList {
        special,
        names: names.into_list(),
    })
}
