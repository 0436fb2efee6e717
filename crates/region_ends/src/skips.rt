//! What a skip pattern says of a column (`:syn-skip`).
ghost use Rattle.std.specs.Prelude.{◌≡◌, ◌≤◌, ◌<◌, ◌^◌};
ghost use Rattle.region_ends.specs.Common.{skip_from, SkipIs, GoesFurther};

use syn_base::{Looked, Place};

/// What a skip says at a column, with the lines that were looked at.
#[derive(Clone, Copy)]
pub(crate) enum SkipAnswer {
    NoSkip(Looked),
    /// The search goes on at this column.
    SkipTo(usize, Looked),
    /// There is no end in this line.
    SkipLine(Looked),
    TooCostly,
}

/// What a skip says at a column of a line, where it matched up to `me`.
pub(crate) fn skip_by(line: usize, c: usize, last: usize, me: Place, looked: Looked) -> SkipAnswer
    requires { c ≤ last × last < 2 ^ 63 }
    ensures is { SkipIs result (skip_from line c last me) looked }
    ensures further { GoesFurther result c last }
{
    if me <= (Place { line, col: c }) {
        return SkipAnswer::SkipTo(c + 1, looked);
    }
    if me < (Place { line, col: last }) {
        SkipAnswer::SkipTo(me.col, looked)
    } else {
        SkipAnswer::SkipLine(looked)
    }
}
