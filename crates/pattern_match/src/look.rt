//! Parts that are searched for their first way.
ghost use Rattle.std.specs.Prelude.{◌≡◌, Some, None};

use crate::step::Step;
use pattern_items::Behind;

/// How a way goes on behind a part that was searched for its first way.
#[derive(Clone, Copy)]
pub(crate) enum Ending {
    /// As behind a look: where it stood (`/\@=`, `/\@!`).
    Look { not: bool },
    /// As behind a part that isn't entered again: where that way leads (`/\@>`).
    Whole,
}

/// A part that is searched for its first way, from the place of the present way or behind it.
#[derive(Clone, Copy)]
pub(crate) struct Look<'p> {
    pub part: &'p Step,
    pub behind: Option<Behind>,
    pub ending: Ending,
}

impl<'p> Look<'p> {
    /// A look ahead (`/\@=`, `/\@!`).
    pub(crate) fn ahead(part: &'p Step, not: bool) -> Look<'p>
        ensures { result ≡ record { part = part.entry; behind = None; ending = Ending.Look not } }
    {
        Look {
            part,
            behind: None,
            ending: Ending::Look { not },
        }
    }

    /// A look behind (`/\@<=`, `/\@<!`).
    pub(crate) fn behind(part: &'p Step, not: bool, limit: Behind) -> Look<'p>
        ensures { result ≡ record {
          part = part.entry;
          behind = Some limit;
          ending = Ending.Look not;
        } }
    {
        Look {
            part,
            behind: Some(limit),
            ending: Ending::Look { not },
        }
    }

    /// A part that isn't entered again (`/\@>`).
    pub(crate) fn whole(part: &'p Step) -> Look<'p>
        ensures { result ≡ record { part = part.entry; behind = None; ending = Ending.Whole } }
    {
        Look {
            part,
            behind: None,
            ending: Ending::Whole,
        }
    }
}
