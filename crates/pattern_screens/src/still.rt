//! What is known of a part that takes nothing, and how that of parts is put together.
ghost use Rattle.std.specs.Prelude.{◌≡◌};
ghost use Rattle.pattern_screens.specs.Common.{maybe, or_still, still, then_still, turned, unless};

/// What a part does at a column where none of its atoms takes anything, and each looks at its line alone.
#[derive(Clone, Copy)]
pub(crate) struct Still {
    /// It may reach a way.
    pub(crate) reaches: bool,
    /// It reaches one for sure.
    pub(crate) surely: bool,
}

impl Still {
    /// It reaches a way, or not.
    pub(crate) fn new(reaches: bool) -> Still
        ensures { result ≡ still reaches }
    {
        Still {
            reaches,
            surely: reaches,
        }
    }

    /// A look whose part may take something.
    pub(crate) fn maybe() -> Still
        ensures { result ≡ maybe }
    {
        Still {
            reaches: true,
            surely: false,
        }
    }

    /// One part behind another.
    pub(crate) fn then(self, behind: Still) -> Still
        ensures { result ≡ then_still self behind }
    {
        Still {
            reaches: self.reaches && behind.reaches,
            surely: self.surely && behind.surely,
        }
    }

    /// One part or another.
    pub(crate) fn or(self, other: Still) -> Still
        ensures { result ≡ or_still self other }
    {
        Still {
            reaches: self.reaches || other.reaches,
            surely: self.surely || other.surely,
        }
    }

    /// A look that fails where its part has a way.
    pub(crate) fn turned(self) -> Still
        ensures { result ≡ turned self }
    {
        Still {
            reaches: !self.surely,
            surely: !self.reaches,
        }
    }
}

/// Nothing is known where an atom may take what stands there, and else it has no way.
pub(crate) fn unless(takes: bool) -> Option<Still>
    ensures { result ≡ unless takes }
{
    if takes { None } else { Some(Still::new(false)) }
}
