//! What a tree says of its items beside its nodes.
ghost use Rattle.std.specs.Prelude.{◌≡◌};
ghost use Rattle.vim_pattern.specs.Shape.{bare};
ghost use Rattle.vim_pattern.specs.Pattern as pattern;
ghost use Rattle.vim_pattern.specs.Summary as summary;

use crate::{Atom, Node, Tree};
use pattern_items::Sign;

/// What the items say beside the nodes.
#[derive(Clone, Copy)]
pub struct Noted {
    pub ignores_case: bool,
    pub heeds_case: bool,
    pub moves_start: bool,
    pub line_end: bool,
}

fn asks_case(ignore: bool, sign: &Sign) -> bool
    ensures { result ≡ pattern.asks_case ignore sign.now }
{
    match sign {
        Sign::Quiet {
            ignore: Some(asked),
        } => *asked == ignore,
        _ => false,
    }
}

fn sets_match_start(sign: &Sign) -> bool
    ensures { result ≡ pattern.sets_match_start sign.now }
{
    matches!(sign, Sign::Atom(Atom::MatchStart))
}

fn holds_line_stop(sign: &Sign) -> bool
    ensures { result ≡ pattern.holds_line_stop sign.now }
{
    matches!(sign, Sign::Atom(Atom::LineStop))
}

/// The notes with those of one item more.
pub fn noted_next(noted: Noted, sign: &Sign) -> Noted
    ensures { result ≡ summary.noted_next noted sign.now }
{
    Noted {
        ignores_case: noted.ignores_case || asks_case(true, sign),
        heeds_case: noted.heeds_case || asks_case(false, sign),
        moves_start: noted.moves_start || sets_match_start(sign),
        line_end: noted.line_end || holds_line_stop(sign),
    }
}

fn case_of(noted: Noted) -> Option<bool>
    ensures { result ≡ pattern.case_by noted.ignores_case noted.heeds_case }
{
    if noted.ignores_case {
        Some(true)
    } else if noted.heeds_case {
        Some(false)
    } else {
        None
    }
}

/// The tree of these nodes and notes.
pub fn tree_of(node: Node, noted: Noted, groups: u8, externals: u8) -> Tree
    ensures { result ≡ summary.tree_of (bare node) noted groups externals }
{
    Tree {
        node,
        case: case_of(noted),
        groups,
        externals,
        moves_start: noted.moves_start,
        line_end: noted.line_end,
    }
}
