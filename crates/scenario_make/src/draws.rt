//! Numbers that look random, each made from a state of 64 bits.

use std::marker::Model;

/// A source of numbers, which contracts see as its state.
#[derive(Debug, Drop)]
pub struct Draws {
    state: u64,
}

impl Model for Draws {
    ghost use Rattle.std.specs.Prelude.{ℕ};

    ghost Value = { ℕ };

    ghost view = { λ d. d.state };
}

impl Draws {
    ghost use Rattle.std.specs.Prelude.{◌≡◌, ◌<◌};
    ghost use Rattle.scenario_make.specs.Draws.{draw, drawn};

    pub fn new(state: u64) -> Self
        ensures { result ≡ state }
    {
        Self { state }
    }

    /// The next number, below the limit.
    pub fn draw(&mut self, limit: u32) -> u32
        requires { 0 < limit }
        ensures number { result ≡ draw self.old 1 limit }
        ensures state { self.new ≡ drawn self.old }
        ensures below { result < limit }
    {
        self.state = self
            .state
            .wrapping_mul(6_364_136_223_846_793_005)
            .wrapping_add(1_442_695_040_888_963_407);
        (self.state >> 33) as u32 % limit
    }
}
