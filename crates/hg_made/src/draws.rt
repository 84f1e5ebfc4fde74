ghost use Rattle.std.specs.Prelude.{◌≡◌, ◌<◌, ◌%◌, ◌^◌};
ghost use Rattle.hg_made.specs.Draws.{next_state, upper_half};

use std::marker::Model;

/// By what a draw multiplies the state, and what it adds then.
const MULTIPLIER: u64 = 6_364_136_223_846_793_005;

const INCREMENT: u64 = 1_442_695_040_888_963_407;

/// Numbers drawn from a state of 64 bits, one after the other. Its value is the state.
#[derive(Debug, Drop)]
pub struct Draws {
    state: u64,
}

impl Model for Draws {
    ghost use Rattle.std.specs.Prelude.{ℕ};

    ghost Value = { ℕ };

    ghost view = { λ s. s.state };
}

/// The state after a draw.
fn next_state(state: u64) -> u64
    ensures { result ≡ next_state state }
{
    state.wrapping_mul(MULTIPLIER).wrapping_add(INCREMENT)
}

impl Draws {
    /// The draws from a seed on.
    pub fn new(seed: u64) -> Draws
        ensures { result ≡ seed }
    {
        Draws { state: seed }
    }

    /// The next number below this one: what is left of the upper half of the next state, divided by it.
    pub fn below(&mut self, end: u64) -> u64
        requires { 0 < end }
        ensures value { result ≡ upper_half self.new % end }
        ensures below { result < end }
        ensures state { self.new ≡ next_state self.old }
    {
        self.state = next_state(self.state);
        (self.state >> 32) % end
    }
}
