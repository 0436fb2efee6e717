//! The groups and clusters that have a name so far.
ghost use Rattle.std.specs.Prelude.{◌≡◌, ◌<◌, length, IfOk, chars, encode_utf8_all};
ghost use Rattle.std.specs.String.{string_bytes};
ghost use Rattle.syn_reader.specs.Answers.{Makes};
ghost use Rattle.syn_reader.specs.Names as spec;

use crate::refusal::Refusal;
use std::alloc::Global;
use syn_base::{GroupId, Memory};
use syntax_set::{Clusters, Groups};

/// The groups and clusters that have a name so far.
#[derive(Drop)]
pub(crate) struct Names {
    pub groups: Groups,
    pub clusters: Clusters,
}

/// Characters as a text.
pub(crate) fn text_of(alloc: Global, characters: &[char]) -> Result<String, Memory>
    ensures bytes { IfOk result (λ text. string_bytes text ≡ encode_utf8_all characters.now) }
    ensures characters { IfOk result (λ text. chars (string_bytes text) ≡ characters.now) }
{
    let mut text = String::with_capacity(alloc, characters.len())?;
    text.extend(characters.iter().copied())?;
    Ok(text)
}

impl Names {
    /// The group of a name, which is made if it is new (`:syn-define`).
    #[tactic(auto, using(crate::proofs::NameLaws::group_ok, crate::proofs::NameLaws::group_refused))]
    fn group_named(&mut self, name: &str) -> Result<GroupId, Refusal>
        ensures { Makes result self.new (spec.group_named self.old name.now) }
    {
        Ok(self.groups.number(name)?)
    }

    /// The cluster of a name, which is made if it is new (`:syn-cluster`).
    #[tactic(auto, using(crate::proofs::NameLaws::cluster_ok, crate::proofs::NameLaws::cluster_refused))]
    fn cluster_named(&mut self, name: &str) -> Result<u32, Refusal>
        ensures made { Makes result self.new (spec.cluster_named self.old name.now) }
        ensures within { IfOk result (λ cluster. cluster < length self.new.clusters.lists) }
    {
        let cluster = self.clusters.number(name)?;
        // each name has a list
        let _count = self.clusters.len();
        Ok(cluster)
    }

    /// The group of a name as a command has it.
    pub(crate) fn group(&mut self, alloc: Global, name: &[char]) -> Result<GroupId, Refusal>
        ensures { Makes result self.new (spec.group_made self.old name.now) }
    {
        let text = text_of(alloc, name)?;
        self.group_named(text.as_str())
    }

    /// The cluster of a name as a command has it.
    pub(crate) fn cluster(&mut self, alloc: Global, name: &[char]) -> Result<u32, Refusal>
        ensures made { Makes result self.new (spec.cluster_made self.old name.now) }
        ensures within { IfOk result (λ cluster. cluster < length self.new.clusters.lists) }
    {
        let text = text_of(alloc, name)?;
        self.cluster_named(text.as_str())
    }
}
