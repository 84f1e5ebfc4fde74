ghost use Rattle.std.specs.Prelude.{◌≡◌, ◌<◌, ◌≤◌, ℕ, true, length, take, IfOk};
ghost use Rattle.hg_model.specs.Stakes.{member_count};
ghost use Rattle.hg_bits.specs.Masks.{mask_has};
ghost use Rattle.hg_bits.specs.Rows.{is_in};
ghost use Rattle.hg_ancestry.specs.Held.{forks_with, is_apart};

use crate::sight::BitSight;
use hg_bits::{BitRow, join_masks, meet_masks, with_member};
use hg_model::{Member, Memory, Sight};
use std::alloc::Global;

/// The members with a fork among the ancestors of row `q`, and those that have a row among these rows alone, or are the
/// creator, and have another among the ancestors of row `q` alone.
pub fn forks_with(sight: &BitSight, rows: &BitRow, q: usize, by: Member) -> u128
    requires member { by < member_count sight.now.shape.members }
    requires inside { (k : ℕ) → is_in rows.now k ≡ true → k < length sight.now.shape.links }
    requires place { q < length sight.now.shape.links }
    ensures { (m : ℕ) → mask_has result m ≡ forks_with sight.now.shape.links by (is_in rows.now) q m }
{
    sight.is_shaped();
    let above = sight.ancestors_of(q);
    let here = with_member(members_apart(sight, rows, above), by);
    let there = members_apart(sight, above, rows);
    join_masks(sight.forked_below(q), meet_masks(here, there))
}

/// The members with one of these rows that is none of the others.
fn members_apart(sight: &BitSight, rows: &BitRow, others: &BitRow) -> u128
    requires { (k : ℕ) → is_in rows.now k ≡ true → k < length sight.now.shape.links }
    ensures { (m : ℕ) → mask_has result m ≡ is_apart sight.now.shape.links (is_in rows.now) (is_in others.now) m }
{
    sight.is_shaped();
    let mut mask = 0;
    let mut from = 0;
    'places: while let Some(a) = rows.first_over(others, from) {
        mask = with_member(mask, sight.creator(a));
        from = a + 1;
    }
    mask
}

/// The first `len` masks, in memory of their own.
pub fn copy_masks(alloc: Global, masks: &[u128], len: usize) -> Result<Vec<u128>, Memory>
    requires { len ≤ length masks.now }
    ensures { IfOk result (λ v. v.items ≡ take len masks.now) }
{
    Ok(Vec::from_slice(alloc, &masks[..len])?)
}
