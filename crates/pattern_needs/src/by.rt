//! What atoms go by.
ghost use Rattle.std.specs.Prelude.{◌≡◌};
ghost use Rattle.match_rules.specs.Attempt.{ignores_case};

use char_class::Sets;
use vim_pattern::Tree;

/// What atoms go by, beside the character.
#[derive(Clone, Copy)]
pub(crate) struct By<'a> {
    /// The sets of the classes.
    pub(crate) sets: &'a Sets,
    /// Whether case is ignored.
    pub(crate) ignore: bool,
}

impl<'a> By<'a> {
    /// What the atoms of a pattern go by, where `ignore` says that case is ignored unless the pattern
    /// says otherwise.
    pub(crate) fn of(tree: &Tree, sets: &'a Sets, ignore: bool) -> By<'a>
        ensures sets { result.sets.now ≡ sets.now }
        ensures ignore { result.ignore ≡ ignores_case tree.now ignore }
    {
        By {
            sets,
            ignore: tree.case.unwrap_or(ignore),
        }
    }
}
