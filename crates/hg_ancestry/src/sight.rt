ghost use Rattle.std.specs.Prelude.{◌≡◌, ◌<◌, ◌≤◌, ◌+◌, ◌-◌, ◌^◌, ℕ, [], length, IfOk};
ghost use Rattle.hg_model.specs.Stakes.{member_count};
ghost use Rattle.hg_model.specs.GraphWords.{IsShapedIn};
ghost use Rattle.hg_model.specs.Places.{table};
ghost use Rattle.hg_model.specs.Ancestry.{is_ancestor};
ghost use Rattle.hg_model.specs.Forks.{has_fork_below};
ghost use Rattle.hg_model.specs.Shape.{shape_of};
ghost use Rattle.hg_bits.specs.Masks.{mask_has};

use crate::ancestry::{copy_rows, fill, row_of};
use crate::forks::copy_masks;
use crate::links::{PlacedLink, copy_links, creator_of, self_parent_of};
use crate::seeing;
use hg_bits::{BitRow, StakeTable};
use hg_model::{Growing, Member, Memory, Sight};
use std::alloc::Global;
use std::marker::Model;

/// A graph that tells its ancestry by rows of bits.
#[derive(Drop)]
pub struct BitSight {
    alloc: Global,
    stakes: StakeTable,
    links: Vec<PlacedLink>,
    /// For each row its ancestors.
    ancestors: Vec<BitRow>,
    /// For each row the members with a fork among its ancestors.
    forked: Vec<u128>,
    /// The row of bits of the next row, if there is memory for one.
    spare: Option<BitRow>,
}

impl Model for BitSight {
    ghost use Rattle.hg_model.specs.Shape.{ShapeWithRoom, shape_of};
    ghost use Rattle.hg_ancestry.specs.Sight.{HoldsBitSight};
    ghost use Rattle.hg_ancestry.specs.Held.{spare_room};

    ghost Value = { ShapeWithRoom };

    ghost view = { λ s. record { shape = shape_of s.stakes s.links.items; room = spare_room s.spare } };

    ghost invariant = { HoldsBitSight };
}

impl BitSight {
    /// The graph of no rows by members with these stakes.
    pub fn new(alloc: Global, stakes: &[u32]) -> Result<BitSight, Memory>
        requires { length stakes.now ≤ 128 }
        ensures { IfOk result (λ s. s.shape ≡ shape_of stakes.now []) }
    {
        Ok(BitSight {
            alloc,
            stakes: StakeTable::new(alloc, stakes)?,
            links: Vec::new(alloc),
            ancestors: Vec::new(alloc),
            forked: Vec::new(alloc),
            spare: None,
        })
    }

    /// The ancestors of row `x`, as a bit for each row up to it.
    pub(crate) fn ancestors_of(&self, x: usize) -> &BitRow
        requires { x < length self.now.shape.links }
        ensures { result.now ≡ table (is_ancestor self.now.shape.links x) (x + 1) }
    {
        row_of(&self.ancestors, x)
    }

    /// A law: the graph is shaped, its members are at most 128, and its rows fewer than 2^32 - 1.
    pub(crate) fn is_shaped(&self)
        ensures shaped { IsShapedIn self.now.shape }
        ensures few { member_count self.now.shape.members ≤ 128 }
        ensures short { length self.now.shape.links < 2 ^ 32 - 1 }
    {
        self.rows();
        self.members();
    }

    /// The members' stakes.
    pub(crate) fn stakes(&self) -> &StakeTable
        ensures { result.now ≡ self.now.shape.members }
    {
        &self.stakes
    }

    /// The members with a fork among the ancestors of row `x`.
    pub(crate) fn forked_below(&self, x: usize) -> u128
        requires { x < length self.now.shape.links }
        ensures { (m : ℕ) → mask_has result m ≡ has_fork_below self.now.shape.links x m }
    {
        self.forked[x]
    }
}

impl Sight for BitSight {
    ghost shape = { λ s. s.shape };

    fn rows(&self) -> usize {
        self.links.len()
    }

    fn members(&self) -> u32 {
        self.stakes.len() as u32
    }

    fn stake(&self, member: Member) -> u32 {
        self.stakes.at(member)
    }

    fn total(&self) -> u64 {
        self.stakes.total()
    }

    fn even(&self) -> Option<u32> {
        self.stakes.even()
    }

    fn creator(&self, x: usize) -> Member {
        creator_of(&self.links, &self.stakes, x)
    }

    fn self_parent(&self, x: usize) -> Option<usize> {
        self_parent_of(&self.links, x)
    }

    fn ancestor(&self, x: usize, y: usize) -> bool {
        let row = row_of(&self.ancestors, x);
        y <= x && row.has(y)
    }

    fn sees(&self, x: usize, y: usize) -> bool {
        seeing::sees(self, x, y)
    }

    fn strongly_sees(&self, x: usize, y: usize) -> bool {
        seeing::strongly_sees(self, x, y)
    }
}

impl Growing for BitSight {
    ghost room = { λ s. s.room };

    fn reserve(&mut self) -> Result<(), Memory> {
        if self.spare.is_none() {
            self.links.reserve(1)?;
            self.ancestors.reserve(1)?;
            self.forked.reserve(1)?;
            let row = BitRow::new(self.alloc, self.links.len() + 1)?;
            self.spare = Some(row);
        }
        Ok(())
    }

    fn extend(&mut self, parents: &[usize], creator: Member) {
        if let Some(mut row) = self.spare.take() {
            let forked = fill(&mut row, self, parents, creator);
            self.links.push_reserved(PlacedLink::of(creator, parents));
            self.ancestors.push_reserved(row);
            self.forked.push_reserved(forked);
        }
    }

    fn prefix(&self, len: usize) -> Result<BitSight, Memory> {
        Ok(BitSight {
            alloc: self.alloc,
            stakes: self.stakes.copy(self.alloc)?,
            links: copy_links(self.alloc, &self.links, len)?,
            ancestors: copy_rows(self.alloc, &self.ancestors, len)?,
            forked: copy_masks(self.alloc, &self.forked, len)?,
            spare: None,
        })
    }
}
