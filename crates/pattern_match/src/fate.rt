//! What nodes come to, whatever the text is and wherever they are tried.
ghost use Rattle.std.specs.Prelude.{◌≡◌};
ghost use Rattle.pattern_match.specs.Fates.{behind, either, counted, looked, first_of, passes};

/// What a node comes to, whatever the text is and wherever it is tried.
#[derive(Clone, Copy)]
pub(crate) enum Fate {
    /// It tries no atom, and has no way.
    Never,
    /// It tries no atom, and has one way, on which nothing changes.
    Stays,
    /// It tries no atom, and has ways, which all stand where it was tried.
    Passes,
    /// It has a way first, where it was tried, and may try atoms behind it.
    Opens,
    /// It may try an atom first.
    Tries,
}

impl Fate {
    /// Whether no atom is tried, and there is a way.
    pub(crate) fn passes(self) -> bool
        ensures { result ≡ passes self }
    {
        match self {
            Fate::Stays | Fate::Passes => true,
            _ => false,
        }
    }
}

/// Of two parts, the one behind the other.
pub(crate) fn behind(first: Fate, second: Fate) -> Fate
    ensures { result ≡ behind first second }
{
    match (first, second) {
        (Fate::Never, _) => Fate::Never,
        (Fate::Stays, _) => second,
        (Fate::Passes, Fate::Stays) => Fate::Passes,
        (Fate::Passes, _) => second,
        (Fate::Opens, Fate::Stays | Fate::Passes | Fate::Opens) => Fate::Opens,
        (Fate::Opens | Fate::Tries, _) => Fate::Tries,
    }
}

/// Of two parts, the one or the other.
pub(crate) fn either(first: Fate, second: Fate) -> Fate
    ensures { result ≡ either first second }
{
    match (first, second) {
        (Fate::Never, _) => second,
        (Fate::Tries, _) => Fate::Tries,
        (Fate::Opens, _) | (_, Fate::Opens | Fate::Tries) => Fate::Opens,
        (_, Fate::Never) => first,
        _ => Fate::Passes,
    }
}

/// Of a count that may take a turn, and has to or not, and stops as soon as it may or not. A turn that
/// takes nothing is none, so where none is forced, a part without atoms leaves the stop alone.
pub(crate) fn counted(part: Fate, forced: bool, stops: bool) -> Fate
    ensures { result ≡ counted part forced stops }
{
    match part {
        Fate::Opens if stops => Fate::Opens,
        Fate::Tries if !forced && stops => Fate::Opens,
        Fate::Opens | Fate::Tries => Fate::Tries,
        _ if forced => part,
        _ => Fate::Stays,
    }
}

/// Of a look.
pub(crate) fn looked(part: Fate, not: bool) -> Fate
    ensures { result ≡ looked part not }
{
    match part {
        Fate::Tries => Fate::Tries,
        Fate::Never if not => Fate::Stays,
        _ if not => Fate::Never,
        _ => first_of(part),
    }
}

/// Of the first way of a part alone.
pub(crate) fn first_of(part: Fate) -> Fate
    ensures { result ≡ first_of part }
{
    match part {
        Fate::Opens => Fate::Passes,
        _ => part,
    }
}
