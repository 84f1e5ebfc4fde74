ghost use Rattle.std.specs.Prelude.{◌≡◌, ◌<◌, ◌%◌, ◌==◌};
ghost use Rattle.hg_check.specs.Dice.{first_state, next_state, thrown, upper_half};

use std::marker::Model;

/// Numbers that look thrown and depend on a number alone, by the generator xorshift64*: three shifts and a product.
/// Contracts see the state.
#[derive(Clone, Copy)]
pub struct Dice {
    state: u64,
}

impl Model for Dice {
    ghost use Rattle.std.specs.Prelude.{ℕ};

    ghost Value = { ℕ };

    ghost view = { λ s. s.state };

    ghost inverse = { λ s. record { state = s } };
}

/// The state after a throw.
fn next_state(state: u64) -> u64
    ensures { result ≡ next_state state }
{
    let mut x = state;
    x ^= x >> 12;
    x ^= x << 25;
    x ^= x >> 27;
    x
}

impl Dice {
    /// The dice of this number.
    pub fn new(number: u32) -> Dice
        ensures { result ≡ first_state number }
    {
        Dice {
            state: (u64::from(number) + 1).wrapping_mul(0x9e37_79b9_7f4a_7c15),
        }
    }

    /// The next 64 bits.
    fn roll(&mut self) -> u64
        ensures value { result ≡ thrown self.new }
        ensures state { self.new ≡ next_state self.old }
    {
        self.state = next_state(self.state);
        self.state.wrapping_mul(0x2545_f491_4f6c_dd1d)
    }

    /// A number below `n`.
    pub fn below(&mut self, n: u32) -> u32
        requires { 0 < n }
        ensures below { result < n }
        ensures value { result ≡ upper_half self.new % n }
        ensures state { self.new ≡ next_state self.old }
    {
        ((self.roll() >> 32) % u64::from(n)) as u32
    }

    /// Whether one of `n` ways falls that all fall as often.
    pub fn is_one_in(&mut self, n: u32) -> bool
        requires { 0 < n }
        ensures value { result ≡ (upper_half self.new % n == 0) }
        ensures state { self.new ≡ next_state self.old }
    {
        self.below(n) == 0
    }

    /// A place of a list that is so long.
    pub fn place(&mut self, len: usize) -> usize
        requires { 0 < len }
        ensures within { result < len }
        ensures value { result ≡ upper_half self.new % len }
        ensures state { self.new ≡ next_state self.old }
    {
        (self.roll() >> 32) as usize % len
    }
}
