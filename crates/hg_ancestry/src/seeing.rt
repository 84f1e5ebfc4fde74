ghost use Rattle.std.specs.Prelude.{◌≡◌, ◌<◌, ◌≤◌, ◌&&◌, length};
ghost use Rattle.hg_model.specs.Stakes.{member_count};
ghost use Rattle.hg_model.specs.GraphWords.{strongly_sees_in, sees_in};
ghost use Rattle.hg_ancestry.specs.Held.{AddsSeer};
ghost use Rattle.hg_bits.specs.Masks.{mask_has};

use crate::sight::BitSight;
use hg_bits::{mask_has, with_member};
use hg_model::Sight;

/// Whether row `x` sees row `y`.
#[tactic(auto, unfolding(hg_model::specs::Seeing::sees))]
pub fn sees(sight: &BitSight, x: usize, y: usize) -> bool
    requires left { x < length sight.now.shape.links }
    requires right { y < length sight.now.shape.links }
    ensures { result ≡ sees_in sight.now.shape x y }
{
    sight.is_shaped();
    sight.ancestor(x, y) && !mask_has(sight.forked_below(x), sight.creator(y))
}

/// Whether row `x` strongly sees row `y`. It looks no further than the first rows by members of more
/// than two thirds of the stake.
pub fn strongly_sees(sight: &BitSight, x: usize, y: usize) -> bool
    requires left { x < length sight.now.shape.links }
    requires right { y < length sight.now.shape.links }
    ensures { result ≡ strongly_sees_in sight.now.shape x y }
{
    sight.is_shaped();
    let stakes = sight.stakes();
    if !sight.ancestor(x, y) {
        return false;
    }
    let mut mask = 0;
    for z in y..x + 1 {
        let seers = with_seer(mask, sight, x, y, z);
        if seers != mask && stakes.over(seers) {
            return true;
        }
        mask = seers;
    }
    false
}

/// The set with the creator of row `z`, if row `z` is an ancestor of row `x` and sees row `y`.
fn with_seer(mask: u128, sight: &BitSight, x: usize, y: usize, z: usize) -> u128
    requires few { member_count sight.now.shape.members ≤ 128 }
    requires left { x < length sight.now.shape.links }
    requires right { y < length sight.now.shape.links }
    requires place { z < length sight.now.shape.links }
    ensures { AddsSeer sight.now.shape.links x y z mask result }
{
    let member = sight.creator(z);
    if mask_has(mask, member) {
        return mask;
    }
    if sight.ancestor(x, z) && sight.sees(z, y) {
        return with_member(mask, member);
    }
    mask
}
