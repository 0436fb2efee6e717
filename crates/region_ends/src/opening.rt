//! What ends begin with that begin with the text of an external (`\z1`).
ghost use Rattle.std.specs.Prelude.{◌≡◌, ◌⊎◌, Bool, List, ℕ, Some, IfSome};
ghost use Rattle.std.specs.List.{All};
ghost use Rattle.region_ends.specs.Common.{ignores_case, bare, IsToldOf, begins_with, external_of, first_external, first_of, stands};
ghost use Rattle.syntax_set.specs.declared.item.Pattern.{Pattern as OnePattern};

use char_class::same;
use syn_base::Externals;
use syntax_set::Pattern;
use vim_pattern::{Atom, Node, Tree};

/// What is known of those of some ends that begin with the text of an external.
#[derive(Clone, Copy)]
pub(crate) enum Opening {
    /// There are none.
    Nothing,
    /// Each begins with this character, with case ignored or not.
    With(char, bool),
    Unknown,
}

impl Opening {
    /// What is known of the ends of which either tells.
    fn join(self, other: Opening) -> Opening
        ensures { (externals : List (List ℕ)) → (ignore : Bool) → (pattern : OnePattern) →
            IsToldOf externals ignore self pattern ⊎ IsToldOf externals ignore other pattern →
            IsToldOf externals ignore result pattern }
    {
        match self {
            Opening::Nothing => other,
            Opening::With(c, ignore) => match other {
                Opening::Nothing => self,
                Opening::With(d, asked) => {
                    if c == d && ignore == asked {
                        self
                    } else {
                        Opening::Unknown
                    }
                }
                Opening::Unknown => Opening::Unknown,
            },
            Opening::Unknown => Opening::Unknown,
        }
    }
}

/// Whether a character stands where this one does, or none.
pub(crate) fn stands(c: char, ignore: bool, next: Option<char>) -> bool
    ensures { result ≡ stands c ignore next }
{
    match next {
        None => false,
        Some(d) => same(c, d, ignore),
    }
}

/// The number of the external that an atom refers to.
fn external_of(atom: &Atom) -> Option<u8>
    ensures { result ≡ external_of atom.now }
{
    match atom {
        Atom::ExternalRef(number) => Some(*number),
        _ => None,
    }
}

/// The number of the external with whose text each match of a part begins.
fn first_external(node: &Node) -> Option<u8>
    ensures { result ≡ first_external (bare node.now) }
{
    match node {
        Node::One(atom) => external_of(atom),
        Node::Seq(first, _) => first_external(first),
        Node::Group(part, _) => first_external(part),
        _ => None,
    }
}

/// The same of a pattern that begins at the column at which it is tried (`lc`).
pub(crate) fn begins_with(pattern: &Pattern) -> Option<u8>
    ensures { result ≡ begins_with pattern.now }
{
    if pattern.lc == 0 {
        first_external(&pattern.tree.node)
    } else {
        None
    }
}

/// The first character of the text of an external.
fn first_of(externals: &Externals, number: u8) -> Option<char>
    ensures { IfSome result (λ c. first_of externals.now number ≡ Some c) }
{
    if number == 0 || number > 9 {
        return None;
    }
    externals.part(number as usize - 1).first().copied()
}

/// Whether case is ignored in a pattern, where its item says so or not (`/\c`).
fn ignores_case(tree: &Tree, ignore: bool) -> bool
    ensures { result ≡ ignores_case tree.now ignore }
{
    match tree.case {
        None => ignore,
        Some(asked) => asked,
    }
}

/// What is known of an end.
fn opening_of(pattern: &Pattern, ignore: bool, externals: &Externals) -> Opening
    ensures { IsToldOf externals.now ignore result pattern.now }
{
    match begins_with(pattern) {
        None => Opening::Nothing,
        Some(number) => match first_of(externals, number) {
            None => Opening::Unknown,
            Some(c) => Opening::With(c, ignores_case(&pattern.tree, ignore)),
        },
    }
}

/// What is known of some ends. `ignore` says whether their item ignores case (`:syn-case`).
pub(crate) fn known_opening(ends: &[Pattern], ignore: bool, externals: &Externals) -> Opening
    ensures { All (IsToldOf externals.now ignore result) ends.now }
{
    let mut opening = Opening::Nothing;
    for pattern in ends {
        opening = opening.join(opening_of(pattern, ignore, externals));
    }
    opening
}
