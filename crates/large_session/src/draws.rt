//! The draws: one number, which each draw moves on before it answers.
ghost use Rattle.std.specs.Prelude.{◌≡◌, ◌<◌, ◌≤◌};
ghost use Rattle.large_session.specs.Draws.{draw, next_number};

use std::marker::Model;

/// The number behind the last draw. Its next draws are the same wherever they are made.
#[derive(Drop)]
pub struct Draws {
    number: u64,
}

impl Model for Draws {
    ghost use Rattle.std.specs.Prelude.{ℕ, ◌<◌};

    ghost Value = { ℕ };

    ghost view = { λ d. d.number };

    ghost invariant = { λ d. d.number < 4294967296 };
}

impl Draws {
    /// The draws that begin with this seed.
    pub fn new(seed: u64) -> Draws
        requires { seed ≤ 4294967295 }
        ensures { result ≡ seed }
    {
        Draws { number: seed }
    }

    /// Draws one of the numbers from 0 up to this count.
    pub(crate) fn draw(&mut self, count: usize) -> usize
        requires { 0 < count }
        ensures value { result ≡ (draw count self.old).value }
        ensures next { self.new ≡ (draw count self.old).next }
        ensures below { result < count }
    {
        self.number = next_number(self.number);
        (self.number / 4096) as usize % count
    }
}

/// The number behind this one.
fn next_number(number: u64) -> u64
    requires { number < 4294967296 }
    ensures is { result ≡ next_number number }
    ensures below { result < 4294967296 }
{
    (number * 1_664_525 + 1_013_904_223) % 4_294_967_296
}
