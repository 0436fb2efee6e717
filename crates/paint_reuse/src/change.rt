//! One replacement of lines.
ghost use Rattle.std.specs.Prelude.{◌≡◌, ◌+◌, ◌-◌, ◌<◌, ◌≤◌, ◌==◌, ◌^◌, ℕ, pos, ◌+ℤ◌, int_le, int_lt, Some};
ghost use Rattle.syn_base.specs.Looked.{moved_by};
ghost use Rattle.paint_reuse.specs.Change.{old_line};
ghost use Rattle.paint_reuse.specs.Reuse.{is_clear, keeps_number};
ghost use Rattle.paint_reuse.specs.Work.{is_untouched};

use syn_base::Looked;

/// Lines `a` to `b - 1` of a text, from 0, become `count` lines.
#[derive(Clone, Copy)]
pub struct Change {
    pub a: usize,
    pub b: usize,
    pub count: usize,
}

impl Change {
    /// What line `k` of the changed text was, if it is not new.
    pub fn old_line(self, k: usize) -> Option<usize>
        requires { k + self.b < 2 ^ 64 }
        ensures { result ≡ old_line self k }
    {
        if k < self.a {
            return Some(k);
        }
        if k - self.a < self.count {
            return None;
        }
        Some(k - self.a - self.count + self.b)
    }

    /// Whether what line `j` of the old text looked at, counted from it, lies before the change or
    /// behind it.
    pub fn is_clear(self, j: usize, looked: Looked) -> bool
        requires a { self.a < 2 ^ 32 }
        requires b { self.b < 2 ^ 32 }
        requires line { j < 2 ^ 32 }
        ensures { result ≡ is_clear self (Some (moved_by looked (pos j))) }
    {
        lies_before(looked.high, j, self.a) || lies_behind(looked.low, j, self.b)
    }

    /// Whether as many lines come as give way, so that no line behind them moves.
    pub fn keeps_count(self) -> bool
        requires { self.a ≤ self.b }
        ensures { result ≡ (self.a + self.count == self.b) }
    {
        self.count == self.b - self.a
    }

    /// Whether line `j` of the old text, if it is still there, has its number still, or its painting
    /// looked at none.
    pub fn keeps_number(self, j: usize, looked: Looked) -> bool
        requires { self.a ≤ self.b }
        ensures { (k : ℕ) → old_line self k ≡ Some j → result ≡ keeps_number j k (Some looked) }
    {
        !looked.numbered || j < self.a || self.keeps_count()
    }

    /// Whether line `j` of the old text, if it is still there, looked at nothing that the change made
    /// another: at no replaced line, nor at a number that isn't its own any more.
    pub fn is_untouched(self, j: usize, looked: Looked) -> bool
        requires ordered { self.a ≤ self.b }
        requires b { self.b < 2 ^ 32 }
        requires line { j < 2 ^ 32 }
        ensures { (k : ℕ) → old_line self k ≡ Some j → result ≡ is_untouched self j k looked }
    {
        self.is_clear(j, looked) && self.keeps_number(j, looked)
    }
}

/// Whether a line, counted from line `j`, lies before line `a`.
fn lies_before(line: i64, j: usize, a: usize) -> bool
    requires a { a < 2 ^ 32 }
    requires j { j < 2 ^ 32 }
    ensures { result ≡ int_lt (line +ℤ pos j) (pos a) }
{
    line < a as i64 - j as i64
}

/// Whether it doesn't lie before line `b`.
fn lies_behind(line: i64, j: usize, b: usize) -> bool
    requires b { b < 2 ^ 32 }
    requires j { j < 2 ^ 32 }
    ensures { result ≡ int_le (pos b) (line +ℤ pos j) }
{
    b as i64 - j as i64 <= line
}
