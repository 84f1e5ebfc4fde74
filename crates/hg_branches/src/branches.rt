ghost use Rattle.std.specs.Prelude.{◌≡◌, ◌<◌, ◌≤◌, ◌||◌, ◌&&◌, ◌==◌, ◌+◌, ◌-◌, ◌^◌, ℕ, nat_le, min, replicate, length, slice_index, IfOk, vec_len, vec_capacity};
ghost use Rattle.std.specs.List.{AllByRecursion};
ghost use Rattle.hg_bits.specs.Masks.{mask_has};
ghost use Rattle.hg_branches.specs.Columns.{next_branch, put_at, with_branch};

use hg_bits::with_member;
use hg_blocks::Blocks;
use hg_model::{Member, Memory};
use std::alloc::Global;

/// The branch of the next row, by this member on parents at these places. It goes on where its self-parent is the last row
/// of a branch, and without parents where its member's own branch is empty. Any other row opens a branch.
pub fn branch_for(branches: &Blocks<usize>, ends: &[u32], on: &[usize], by: Member) -> usize
    requires places { AllByRecursion (λ p. p < length branches.now.items) on.now }
    requires known { AllByRecursion (λ p. slice_index branches.now.items p < length ends.now) on.now }
    requires short { length branches.now.items < 2 ^ 32 - 1 }
    requires member { by < length ends.now }
    ensures { result ≡ next_branch branches.now.items ends.now on.now by }
{
    match on.split_first() {
        None => {
            let own = usize::from(by);
            if ends[own] == 0 { own } else { ends.len() }
        }
        Some((self_place, _)) => {
            let branch = branches[*self_place];
            if ends[branch] == *self_place as u32 + 1 {
                branch
            } else {
                ends.len()
            }
        }
    }
}

/// Moves the end of the branch to that of a new row by this member. The branch may be new.
pub fn move_end(makers: &mut Vec<Member>, ends: &mut Vec<u32>, branch: usize, by: Member, end: u32)
    requires same { length makers.old.items ≡ length ends.old.items }
    requires there { branch ≤ length ends.old.items }
    requires makers_room { vec_len makers.old < vec_capacity makers.old }
    requires ends_room { vec_len ends.old < vec_capacity ends.old }
    ensures makers { makers.new.items ≡ with_branch makers.old.items branch by }
    ensures ends { ends.new.items ≡ put_at ends.old.items branch end }
{
    if branch == ends.len() {
        makers.push_reserved(by);
        ends.push_reserved(end);
    } else {
        ends[branch] = end;
    }
}

/// Opens the branch for landmarks, of which it has none, if it is a new one.
pub fn open_branch(newest: &mut Vec<u32>, branch: usize)
    requires there { branch ≤ length newest.old.items }
    requires room { vec_len newest.old < vec_capacity newest.old }
    ensures { newest.new.items ≡ with_branch newest.old.items branch 0 }
{
    if branch == newest.len() {
        newest.push_reserved(0);
    }
}

/// The members with a branch beside their own, of so many, once a row by this one stands on the branch.
pub fn with_several(several: u128, members: usize, branch: usize, by: Member) -> u128
    requires { by < 128 }
    ensures { (m : ℕ) → mask_has result m ≡ (mask_has several m || (nat_le members branch && m == by)) }
{
    if branch < members {
        several
    } else {
        with_member(several, by)
    }
}

/// The ends, none past `len`.
pub fn ends_within(alloc: Global, ends: &[u32], len: u32) -> Result<Vec<u32>, Memory>
    ensures len { IfOk result (λ v. length v.items ≡ length ends.now) }
    ensures each { IfOk result (λ v. (b : ℕ) → slice_index v.items b ≡ min (slice_index ends.now b) len) }
{
    let mut within = Vec::from_slice(alloc, ends)?;
    cut_ends(&mut within, len);
    Ok(within)
}

/// Lowers each end to `len`, if it is past that.
fn cut_ends(ends: &mut [u32], len: u32)
    ensures len { length ends.new ≡ length ends.old }
    ensures each { (b : ℕ) → slice_index ends.new b ≡ min (slice_index ends.old b) len }
{
    for b in 0..ends.len() {
        ends[b] = ends[b].min(len);
    }
}

/// So many zeros: the ends of empty branches.
pub fn zeros(alloc: Global, many: usize) -> Result<Vec<u32>, Memory>
    ensures { IfOk result (λ v. v.items ≡ replicate many 0) }
{
    Ok(vec![in alloc; 0u32; many]?)
}
