//! Trees.
use crate::Node;
use std::marker::Model;

/// A pattern as a tree. Contracts see its nodes without their addresses, so equal trees are equal
/// values.
#[derive(Drop)]
pub struct Tree {
    pub node: Node,
    /// `Some(true)` where case is ignored in the whole pattern, `Some(false)` where it isn't
    /// (`/\c`, `/\C`).
    pub case: Option<bool>,
    /// How many counted groups there are.
    pub groups: u8,
    /// How many external groups there are.
    pub externals: u8,
    /// `\zs` occurs.
    pub moves_start: bool,
    /// A special `$` or `\_$` occurs.
    pub line_end: bool,
}

impl Model for Tree {
    ghost use Rattle.vim_pattern.specs.Tree.{PatternTree};
    ghost use Rattle.vim_pattern.specs.Shape.{bare};
    ghost use Rattle.vim_pattern.specs.ShapeCode.{coded_tree};

    ghost Value = { PatternTree };

    ghost coded = { coded_tree };

    ghost view = { λ t. record {
      node = bare t.node;
      case = t.case;
      groups = t.groups;
      externals = t.externals;
      moves_start = t.moves_start;
      line_end = t.line_end;
    } };
}
