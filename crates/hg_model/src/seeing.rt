ghost use Rattle.std.specs.Prelude.{◌≡◌};
ghost use Rattle.hg_model.specs.Seeing.{is_supermajority};

/// Whether the stake is more than two thirds of the total.
pub fn is_supermajority(total: u64, stake: u64) -> bool
    ensures { result ≡ is_supermajority total stake }
{
    2 * u128::from(total) < 3 * u128::from(stake)
}
