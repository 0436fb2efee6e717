//! Commands by pattern.
ghost use Rattle.std.specs.Prelude.{◌≡◌, ◌≤◌, ◌<◌, ◌+◌, length};
ghost use Rattle.edit_session.specs.Session.{change_costs, change_in, count_text, ex_text, prints, substitutes};
ghost use Rattle.edit_session.specs.Steps.{GivesAnswer, standing};

use crate::changes::Substituted;
use crate::commands::Commands;
use crate::document::{Document, Unedited};
use byte_text::{push_bytes, push_number};
use edit_script::Verb;
use std::alloc::Global;
use syn_base::{Ledger, List, Memory, Steps};

/// The characters of a command by pattern; of each other command none.
pub(crate) fn ex_text(verb: &Verb) -> &[char]
    ensures { result.now ≡ ex_text verb.now }
{
    match verb {
        Verb::Ex(text) => text.as_slice(),
        _ => &[],
    }
}

impl<D: Document + Drop> Commands<D> {
    /// Applies a command by pattern to lines `a` to `b - 1`: changes them, or tells how many
    /// matches it counts.
    pub(crate) fn substitute<L: Ledger>(
        &mut self,
        alloc: Global,
        line: usize,
        a: usize,
        b: usize,
        command: &[char],
        steps: &mut Steps<L>,
    ) -> Result<List<u8>, Memory>
        requires ordered { a < b }
        requires within { b ≤ length (D.lines self.old.document) }
        ensures library { D.library self.new.document ≡ D.library self.old.document }
        ensures answer { GivesAnswer result (standing D.lines D.shown D.painter self.new)
            (substitutes (standing D.lines D.shown D.painter self.old) line
            ((D.painter self.old.document).substitute (D.lines self.old.document) a b command.now)) }
        ensures steps { steps.new ≤ steps.old
            + change_costs (D.painter self.old.document) (D.lines self.old.document)
            (change_in ((D.painter self.old.document).substitute (D.lines self.old.document) a b command.now)) }
    {
        match self.document.substitute(alloc, a, b, command) {
            Ok(Substituted::Becomes(made)) => self.edit(alloc, line, made, steps),
            Ok(Substituted::Counted(count)) => self.print_count(alloc, count),
            Err(Unedited::Refused(cause)) => self.refuse(alloc, line, cause.as_slice()),
            Err(Unedited::Memory) => Err(Memory),
        }
    }

    /// The head of a command, and how many matches it counted.
    fn print_count(&mut self, alloc: Global, count: usize) -> Result<List<u8>, Memory>
        ensures document { self.new.document ≡ self.old.document }
        ensures answer { GivesAnswer result (standing D.lines D.shown D.painter self.new)
            (prints (standing D.lines D.shown D.painter self.old)
            (standing D.lines D.shown D.painter self.old).painted (count_text count)) }
    {
        let mut out = self.head(alloc)?;
        push_number(&mut out, count)?;
        push_bytes(&mut out, b" matches\n")?;
        Ok(List::from_vec(out))
    }
}
