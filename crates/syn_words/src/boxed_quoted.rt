//! A pattern as written, in memory of its own, so that a piece of a command takes little room.
ghost use Rattle.std.specs.Prelude.{◌≡◌, IfOk};

use crate::Quoted;
use std::alloc::Global;
use std::marker::Model;
use syn_base::Memory;

/// A pattern as written, in memory of its own. Contracts see the pattern.
#[derive(Drop)]
pub struct BoxedQuoted {
    place: Box<Quoted>,
}

impl Model for BoxedQuoted {
    ghost use Rattle.syn_words.specs.declared.what.Quoted.{Quoted};
    ghost use Rattle.syn_words.specs.contracts.what.Quoted as quoted;

    ghost Value = { Quoted };

    ghost coded = { quoted.the_row.coded };

    ghost view = { λ b. b.place.value };
}

impl BoxedQuoted {
    /// Puts a pattern into memory of its own.
    pub fn new(alloc: Global, quoted: Quoted) -> Result<BoxedQuoted, Memory>
        ensures { IfOk result (λ boxed. boxed ≡ quoted) }
    {
        let place = Box::new(alloc, quoted)?;
        Ok(BoxedQuoted { place })
    }

    /// The pattern, out of its memory.
    pub fn into_quoted(self) -> Quoted
        ensures { result ≡ self }
    {
        Box::into_inner(self.place)
    }
}
