ghost use Rattle.std.specs.Prelude.{◌≡◌, ◌<◌, List, length};
ghost use Rattle.hg_model.specs.Standings.{Standing, greatest_in, round_at, witness_at, witnesses_in};

/// The rounds and the witnesses of rows. A place is below the number of rows.
pub trait Rounds {
    /// The round of each row, and whether it is a witness.
    ghost standings: { Self → List Standing };

    /// The round of row `x`.
    fn round(&self, x: usize) -> u32
        requires { x < length (standings self.now) }
        ensures { result ≡ round_at (standings self.now) x };

    /// Whether row `x` is a witness.
    fn is_witness(&self, x: usize) -> bool
        requires { x < length (standings self.now) }
        ensures { result ≡ witness_at (standings self.now) x };

    /// The places of the witnesses of round `r`, in order.
    fn witnesses(&self, r: u32) -> &[usize]
        ensures { result.now ≡ witnesses_in (standings self.now) r };

    /// The greatest round, 0 without rows.
    fn greatest(&self) -> u32
        ensures { result ≡ greatest_in (standings self.now) };
}
