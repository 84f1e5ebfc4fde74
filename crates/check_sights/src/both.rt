//! One graph in both sights, which are to answer alike.

ghost use Rattle.std.specs.Prelude.{◌≤◌, ◌<◌, length};

use crate::forking::FORKED;
use crate::growing::add;
use crate::telling::equal;
use hg_ancestry::BitSight;
use hg_branches::BranchSight;
use hg_model::{Growing, Member, Memory, Sight};
use std::alloc::Global;

/// Both sights of one graph.
#[derive(Drop)]
struct Both {
    sight: BranchSight,
    bits: BitSight,
}

impl Both {
    fn new(alloc: Global, stakes: &[u32]) -> Result<Both, Memory>
        requires { length stakes.now ≤ 128 }
    {
        let bits = BitSight::new(alloc, stakes)?;
        let sight = BranchSight::new(alloc, stakes)?;
        Ok(Both { sight, bits })
    }

    /// Adds the row to both, if it fits.
    fn add(&mut self, parents: &[usize], creator: Member) -> Result<bool, Memory> {
        let fits = add(&mut self.sight, parents, creator)?;
        Ok(add(&mut self.bits, parents, creator)? == fits && fits)
    }

    /// Whether both answer alike, of rows for any two.
    fn agree(&self) -> bool {
        let rows = self.sight.rows();
        if self.bits.rows() != rows {
            return false;
        }
        for x in 0..rows {
            for y in 0..rows {
                if !alike(&self.sight, &self.bits, x, y) {
                    return false;
                }
            }
        }
        true
    }
}

/// Whether both answer alike for these two rows.
fn alike(sight: &BranchSight, bits: &BitSight, x: usize, y: usize) -> bool
    requires branches { x < length sight.now.shape.links × y < length sight.now.shape.links }
    requires bits { x < length bits.now.shape.links × y < length bits.now.shape.links }
{
    sight.ancestor(x, y) == bits.ancestor(x, y)
        && sight.sees(x, y) == bits.sees(x, y)
        && sight.strongly_sees(x, y) == bits.strongly_sees(x, y)
}

/// Adds the rows from this place on, and keeps each of so many rows, or none.
fn add_forked(both: &mut Both, from: usize, every: usize) -> Result<bool, Memory> {
    for i in from..10 {
        let (creator, parents) = FORKED[i];
        if !both.add(parents, creator)? {
            return Ok(false);
        }
        if every > 0 && i % every == 0 {
            both.sight.mark_last();
        }
    }
    Ok(true)
}

/// Whether both agree once they have the rows.
fn agree_with_forked(both: &mut Both, every: usize) -> Result<bool, Memory> {
    Ok(add_forked(both, 0, every)? && both.agree())
}

/// Whether both agree on the rows, of which each of so many is kept, or none.
fn agree_on_forked(alloc: Global, every: usize) -> Result<bool, Memory> {
    let mut both = Both::new(alloc, &[1; 4])?;
    agree_with_forked(&mut both, every)
}

#[test]
fn both_sights_answer_alike(rt: HostRuntime) -> Result<(), Memory> {
    equal(&rt, 0, agree_on_forked(rt.alloc(), 3)?, true);
    Ok(())
}
