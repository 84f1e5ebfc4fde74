ghost use Rattle.std.specs.Prelude.{◌≡◌, ◌<◌, ◌≤◌, ◌+◌, ◌∷◌, false, length, replicate, take, IfOk};
ghost use Rattle.hg_model.specs.Shape.{FitsLink, link_of};
ghost use Rattle.hg_ancestry.specs.Held.{above_row, next_row, row_at, IsForkMask};

use crate::forks::forks_with;
use crate::sight::BitSight;
use hg_bits::{BitRow, join_masks};
use hg_model::{Member, Memory, Sight};
use std::alloc::Global;

/// The ancestors of row `x`.
#[tactic(auto, using(crate::proofs::HeldLaws::row_reads))]
pub fn row_of(rows: &[BitRow], x: usize) -> &BitRow
    requires { x < length rows.now }
    ensures { result.now ≡ row_at rows.now x }
{
    &rows[x]
}

/// Adds to an empty row of bits the ancestors of a row by this member on these parents, which comes next, and the row
/// itself. Tells the members with a fork among them.
pub fn fill(row: &mut BitRow, sight: &BitSight, on: &[usize], by: Member) -> u128
    requires fits { FitsLink sight.now.shape.members sight.now.shape.links (link_of by on.now) }
    requires empty { row.old ≡ replicate (length sight.now.shape.links + 1) false }
    ensures row { row.new ≡ next_row sight.now.shape.links on.now }
    ensures forks { IsForkMask sight.now.shape.links (link_of by on.now) result }
{
    sight.is_shaped();
    let forked = match on {
        [] => 0,
        [self_place, others @ ..] => add_parents(row, sight, *self_place, others, by),
    };
    row.set(sight.rows());
    forked
}

/// Adds to an empty row of bits the ancestors of these parents. Tells the members with a fork among those of the next row,
/// by this member: each other-parent adds forks to those among the parents before it.
fn add_parents(
    row: &mut BitRow,
    sight: &BitSight,
    self_place: usize,
    others: &[usize],
    by: Member,
) -> u128
    requires fits { FitsLink sight.now.shape.members sight.now.shape.links (link_of by (self_place ∷ others.now)) }
    requires empty { row.old ≡ replicate (length sight.now.shape.links + 1) false }
    ensures row { row.new ≡ above_row sight.now.shape.links (self_place ∷ others.now) }
    ensures forks { IsForkMask sight.now.shape.links (link_of by (self_place ∷ others.now)) result }
{
    sight.is_shaped();
    row.union(sight.ancestors_of(self_place));
    let mut forked = sight.forked_below(self_place);
    for other in others {
        forked = join_masks(forked, forks_with(sight, row, *other, by));
        row.union(sight.ancestors_of(*other));
    }
    forked
}

/// The first `len` rows of bits, in memory of their own.
pub fn copy_rows(alloc: Global, rows: &[BitRow], len: usize) -> Result<Vec<BitRow>, Memory>
    requires { len ≤ length rows.now }
    ensures { IfOk result (λ v. v.items ≡ take len rows.now) }
{
    let mut copy = Vec::with_capacity(alloc, len)?;
    for row in &rows[..len] {
        copy.push(row.copy(alloc)?)?;
    }
    Ok(copy)
}
