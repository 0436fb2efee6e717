//! A pattern in memory of its own, so that what holds one takes little room.
ghost use Rattle.std.specs.Prelude.{◌≡◌, IfOk};

use std::alloc::Global;
use std::marker::Model;
use syn_base::Memory;
use syntax_set::Pattern;

/// A pattern in memory of its own. Contracts see the pattern.
#[derive(Drop)]
pub(crate) struct BoxedPattern {
    place: Box<Pattern>,
}

impl Model for BoxedPattern {
    ghost use Rattle.syntax_set.specs.declared.item.Pattern.{Pattern};
    ghost use Rattle.syntax_set.specs.contracts.item.Pattern as pattern;

    ghost Value = { Pattern };

    ghost coded = { pattern.the_row.coded };

    ghost view = { λ b. b.place.value };
}

impl BoxedPattern {
    /// Puts a pattern into memory of its own.
    pub(crate) fn new(alloc: Global, pattern: Pattern) -> Result<BoxedPattern, Memory>
        ensures { IfOk result (λ boxed. boxed ≡ pattern) }
    {
        let place = Box::new(alloc, pattern)?;
        Ok(BoxedPattern { place })
    }

    /// The pattern.
    pub(crate) fn into_pattern(self) -> Pattern
        ensures { result ≡ self }
    {
        Box::into_inner(self.place)
    }
}
