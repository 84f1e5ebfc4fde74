ghost use Rattle.std.specs.Prelude.{◌≡◌, ◌<◌, ◌≤◌, ◌||◌, ◌&&◌, ◌==◌, ◌+◌, ◌^◌, ℕ, not, nat_le, length, slice_index};
ghost use Rattle.hg_model.specs.Counts.{numbers_of};
ghost use Rattle.hg_model.specs.Places.{some_below};
ghost use Rattle.hg_model.specs.Stakes.{member_count};
ghost use Rattle.hg_model.specs.Seeing.{sees};
ghost use Rattle.hg_model.specs.GraphWords.{sees_in};
ghost use Rattle.hg_bits.specs.Masks.{mask_has};
ghost use Rattle.hg_branches.specs.FirstSeers.{AddsFirst};
ghost use Rattle.hg_branches.specs.Lines.{line_sees, sees_on, seen_on, may_see, AddsSeer, AreSeveral, HasOthers, is_strong_by_firsts};

use crate::counts::{RowCounts, number_at};
use crate::firsts::weigh_counts;
use crate::sight::BranchSight;
use hg_bits::{mask_has, with_member};
use hg_model::{Counts, Member, Sight};

/// Whether row `x` sees row `y`.
#[tactic(auto, unfolding(hg_model::specs::Seeing::sees))]
pub fn sees(sight: &BranchSight, x: usize, y: usize) -> bool
    requires left { x < length sight.now.shape.links }
    requires right { y < length sight.now.shape.links }
    ensures { result ≡ sees_in sight.now.shape x y }
{
    sight.is_shaped();
    sight.ancestor(x, y) && !mask_has(sight.forked_below(x), sight.creator(y))
}

/// The members with a branch that sees row `y`: a look at the last row of each branch that is counted.
#[tactic(auto, using(hg_model::proofs::PlacesLaws::some_steps))]
pub fn seers(sight: &BranchSight, makers: &[Member], counts: &RowCounts, y: usize) -> u128
    requires place { y < length sight.now.shape.links }
    requires members { (b : ℕ) → b < length makers.now → slice_index makers.now b < 128 }
    requires places { (b : ℕ) → slice_index counts.now.row b ≤ length sight.now.shape.links }
    ensures { (m : ℕ) → mask_has result m ≡ seen_on sight.now.shape.links makers.now counts.now.row y m }
{
    let mut mask = 0;
    let mut b = 0;
    while b < makers.len() {
        mask = with_seer(mask, sight, counts, b, makers[b], y);
        b = counts.next_after(b, makers.len());
    }
    mask
}

/// The members of the set, and those whose first descendant of row `y` on their own branch is counted and sees it. Where all
/// members with several branches are in the set, no others have a branch that sees the row.
#[tactic(auto, using(hg_model::proofs::PlacesLaws::some_steps))]
pub fn may_see(
    sight: &BranchSight,
    several: u128,
    counts: &RowCounts,
    firsts: Counts<'_>,
    y: usize,
) -> u128
    requires place { y < length sight.now.shape.links }
    requires few { length (numbers_of firsts) ≤ 128 }
    requires some { (m : ℕ) → m < length (numbers_of firsts) → 0 < slice_index (numbers_of firsts) m }
    requires places { (b : ℕ) → slice_index counts.now.row b ≤ length sight.now.shape.links }
    ensures { (m : ℕ) → mask_has result m ≡
        may_see sight.now.shape.links several (numbers_of firsts.entry) counts.now.row y m }
{
    let mut mask = several;
    for m in 0..firsts.len() {
        mask = with_first(mask, sight, counts, firsts, m, y);
    }
    mask
}

/// The set with the member, if its first descendant of row `y` is counted and sees it.
fn with_first(
    mask: u128,
    sight: &BranchSight,
    counts: &RowCounts,
    firsts: Counts<'_>,
    m: usize,
    y: usize,
) -> u128
    requires place { y < length sight.now.shape.links }
    requires member { m < 128 }
    requires some { 0 < slice_index (numbers_of firsts) m }
    requires there { slice_index counts.now.row m ≤ length sight.now.shape.links }
    ensures { AddsFirst sight.now.shape.links (numbers_of firsts.entry) counts.now.row y m mask result }
{
    let first = number_at(firsts, m);
    if first <= counts.at(m) && sight.sees(first as usize - 1, y) {
        return with_member(mask, m as Member);
    }
    mask
}

/// Whether members with more than two thirds of the stake have a branch that sees row `y`, whose first descendants are given:
/// one comparison for each member's own branch and, where these weigh too little and those with several branches may make
/// up for it, a look at each other branch that is counted.
pub fn strong_by_firsts(
    sight: &BranchSight,
    makers: &[Member],
    several: u128,
    counts: &RowCounts,
    firsts: Counts<'_>,
    y: usize,
) -> bool
    requires place { y < length sight.now.shape.links }
    requires members { (b : ℕ) → b < length makers.now → slice_index makers.now b < 128 }
    requires places { (b : ℕ) → slice_index counts.now.row b ≤ length sight.now.shape.links }
    requires all { length (numbers_of firsts) ≡ member_count sight.now.shape.members }
    requires own { length (numbers_of firsts) ≤ length makers.now }
    requires wide { length (numbers_of firsts) ≡ counts.now.members }
    requires several { AreSeveral (length (numbers_of firsts)) makers.now several }
    ensures { result ≡ is_strong_by_firsts sight.now.shape makers.now (numbers_of firsts.entry) counts.now.row y }
{
    let stakes = sight.stakes();
    let own = weigh_counts(stakes, counts.own(), firsts);
    if stakes.is_over(own) {
        return true;
    }
    if !stakes.is_over(own + stakes.weigh(several)) {
        return false;
    }
    let beside = stakes.weigh(others(sight, makers, counts, Target { row: y, firsts }));
    stakes.is_over(own + beside)
}

/// A row with its first descendants.
#[derive(Clone, Copy, Debug)]
struct Target<'a> {
    row: usize,
    firsts: Counts<'a>,
}

/// The members with another branch that sees the row, while their own does not.
#[tactic(auto, using(hg_model::proofs::PlacesLaws::some_steps))]
fn others(sight: &BranchSight, makers: &[Member], counts: &RowCounts, target: Target) -> u128
    requires place { target.row < length sight.now.shape.links }
    requires members { (b : ℕ) → b < length makers.now → slice_index makers.now b < 128 }
    requires places { (b : ℕ) → slice_index counts.now.row b ≤ length sight.now.shape.links }
    requires few { length (numbers_of target.firsts) ≤ length makers.now }
    requires wide { length (numbers_of target.firsts) ≡ counts.now.members }
    ensures { HasOthers sight.now.shape.links makers.now (numbers_of target.entry.firsts) counts.now.row
        target.entry.row result }
{
    let mut mask = 0;
    let mut b = counts.own().len();
    while b < makers.len() {
        mask = with_other(mask, sight, makers, counts, target, b);
        b = counts.next_after(b, makers.len());
    }
    mask
}

/// The set with the maker of the branch, if the branch sees the row and the maker's own does not.
fn with_other(
    mask: u128,
    sight: &BranchSight,
    makers: &[Member],
    counts: &RowCounts,
    target: Target,
    b: usize,
) -> u128
    requires place { target.row < length sight.now.shape.links }
    requires branch { b < length makers.now }
    requires other { length (numbers_of target.firsts) ≤ b }
    requires member { slice_index makers.now b < 128 }
    requires there { slice_index counts.now.row b ≤ length sight.now.shape.links }
    ensures { AddsSeer sight.now.shape.links makers.now (numbers_of target.entry.firsts) counts.now.row
        target.entry.row b mask result }
{
    // No row before y sees it.
    sight.is_shaped();
    if counts.at(b) as usize <= target.row {
        return mask;
    }
    let maker = makers[b];
    let own = usize::from(maker);
    if number_at(target.firsts, own) <= counts.at(own) {
        return mask;
    }
    with_seer(mask, sight, counts, b, maker, target.row)
}

/// The set with the maker of the branch, if the branch sees row `y`.
fn with_seer(
    mask: u128,
    sight: &BranchSight,
    counts: &RowCounts,
    b: usize,
    maker: Member,
    y: usize,
) -> u128
    requires place { y < length sight.now.shape.links }
    requires member { maker < 128 }
    requires there { slice_index counts.now.row b ≤ length sight.now.shape.links }
    ensures { (m : ℕ) → mask_has result m ≡ (mask_has mask m || (sees_on sight.now.shape.links counts.now.row y b && maker == m)) }
{
    if mask_has(mask, maker) {
        return mask;
    }
    // No row before y sees it.
    sight.is_shaped();
    let end = counts.at(b) as usize;
    if end <= y {
        return mask;
    }
    if line_sees(sight, end - 1, y) {
        return with_member(mask, maker);
    }
    mask
}

/// Whether row `z` or a self-ancestor of it sees row `y`. It goes down no further than to the first that does not have `y`
/// as ancestor, and no step where the creator of `y` has no fork below row `z`.
fn line_sees(sight: &BranchSight, z: usize, y: usize) -> bool
    requires left { z < length sight.now.shape.links }
    requires right { y < length sight.now.shape.links }
    ensures { result ≡ line_sees sight.now.shape.links z y }
{
    sight.is_shaped();
    let mut at = z;
    'line: loop {
        if sight.sees(at, y) {
            return true;
        }
        if !sight.ancestor(at, y) {
            return false;
        }
        match sight.self_parent(at) {
            None => return false,
            Some(parent) => at = parent,
        }
    }
}
