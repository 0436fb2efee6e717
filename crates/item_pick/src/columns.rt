//! Where a match may begin that has its item start at a column of the line.
ghost use Rattle.std.specs.Prelude.{◌≡◌, ◌<◌, ◌≤◌, ◌^◌, ℕ, pos, true, ◌+ℤ◌};
ghost use Rattle.item_pick.specs.Common.{within_line, may_start_at, Holds};

use region_ends::moved_column;
use syntax_set::Pattern;

/// Columns from the first up to, and without, the second.
#[derive(Clone, Copy, Debug, PartialEq, Eq)]
pub(crate) struct Columns {
    pub(crate) first: usize,
    pub(crate) end: usize,
}

/// Whether a match from a column can have its item start at another one.
pub(crate) fn may_start(pattern: &Pattern, from: usize, at: usize, last: usize) -> bool
    requires { from ≤ last × last < 2 ^ 62 }
    ensures { result ≡ may_start_at pattern.now last at from }
{
    if pattern.tree.moves_start {
        return true;
    }
    match pattern.ms {
        None => from == at,
        Some(offset) => offset.from_end || moved_column(from, i64::from(offset.by), last) == at,
    }
}

/// The columns from which an offset leads to a column, and maybe others.
fn columns_before(by: i32, at: usize, last: usize) -> Columns
    requires { at ≤ last × last < 2 ^ 62 }
    ensures { (c : ℕ) → c ≤ last → within_line last (pos c +ℤ by) ≡ at → Holds result c }
{
    if by < 0 {
        let back = by.unsigned_abs() as usize;
        return Columns {
            first: if at == 0 { 0 } else { at + back },
            end: at + back + 1,
        };
    }
    let ahead = by as usize;
    Columns {
        first: at.saturating_sub(ahead),
        end: if at == last {
            last + 1
        } else {
            at.saturating_sub(ahead) + 1
        },
    }
}

/// The columns at which a pattern is attempted, and maybe others.
pub(crate) fn columns_of(pattern: &Pattern, at: usize, last: usize) -> Columns
    requires { at ≤ last × last < 2 ^ 62 }
    ensures { (c : ℕ) → c ≤ last → may_start_at pattern.now last at c ≡ true → Holds result c }
{
    let whole = Columns {
        first: 0,
        end: last + 1,
    };
    if pattern.tree.moves_start {
        return whole;
    }
    match pattern.ms {
        None => Columns {
            first: at,
            end: at + 1,
        },
        Some(offset) => {
            if offset.from_end {
                whole
            } else {
                columns_before(offset.by, at, last)
            }
        }
    }
}
