ghost use Rattle.std.specs.Prelude.{◌≡◌, ◌<◌, ◌&&◌, ◌||◌, ◌==◌, ℕ};
ghost use Rattle.hg_bits.specs.Masks.{mask_has};

use hg_model::Member;

/// Whether the member is in the set.
pub fn mask_has(mask: u128, member: Member) -> bool
    requires { member < 128 }
    ensures { result ≡ mask_has mask member }
{
    (mask >> member) & 1 == 1
}

/// The set with the member.
pub fn with_member(mask: u128, member: Member) -> u128
    requires { member < 128 }
    ensures { (m : ℕ) → mask_has result m ≡ (m == member || mask_has mask m) }
{
    mask | (1 << member)
}

/// The members of both sets together.
#[tactic(auto, using(crate::proofs::MaskLaws::mask_steps))]
pub fn join_masks(mask: u128, other: u128) -> u128
    ensures { (m : ℕ) → mask_has result m ≡ (mask_has mask m || mask_has other m) }
{
    mask | other
}

/// The members that are in both sets.
#[tactic(auto, using(crate::proofs::MaskLaws::mask_steps))]
pub fn meet_masks(mask: u128, other: u128) -> u128
    ensures { (m : ℕ) → mask_has result m ≡ (mask_has mask m && mask_has other m) }
{
    mask & other
}
