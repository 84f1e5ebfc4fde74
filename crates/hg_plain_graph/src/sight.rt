ghost use Rattle.std.specs.Prelude.{◌≡◌, ◌<◌, ◌≤◌, ◌-◌, ◌^◌, length, IfOk};
ghost use Rattle.hg_model.specs.Links.{links};
ghost use Rattle.hg_model.specs.Graph.{IsShaped};
ghost use Rattle.hg_model.specs.Shape.{shape_of};
ghost use Rattle.hg_model.specs.GraphWords.{strongly_sees_in, sees_in};

use crate::forks::plain_forkers;
use crate::links::{creator_of, self_parent_of};
use crate::rounds::{greatest_of, is_witness_by, rounds_of, stake_at};
use crate::seeing::Seeing;
use crate::strongly_seeing::strong_columns;
use crate::tables::cell;
use hg_model::{Member, Memory, Row};
use std::alloc::Global;
use std::marker::Model;

/// What the rows of a graph see of each other, and their rounds: each relation as a table, filled once.
#[derive(Drop)]
pub struct PlainSight {
    seeing: Seeing,
    /// For each row its column: which rows strongly see it.
    strong: Vec<Vec<bool>>,
    rounds: Vec<u32>,
    forkers: u32,
    greatest: u32,
}

impl Model for PlainSight {
    ghost use Rattle.hg_model.specs.Shape.{Shape};
    ghost use Rattle.hg_plain_graph.specs.Held.{HoldsRounds};

    ghost Value = { Shape };

    ghost view = { λ s. s.seeing };

    ghost invariant = { λ s. HoldsRounds s.seeing.members s.seeing.links s.strong.items s.rounds.items s.forkers s.greatest };
}

impl PlainSight {
    ghost use Rattle.hg_model.specs.Links.{creator, self_parent};
    ghost use Rattle.hg_model.specs.Ancestry.{is_ancestor};
    ghost use Rattle.hg_model.specs.Forks.{forkers};
    ghost use Rattle.hg_model.specs.Seeing.{sees, strongly_sees};
    ghost use Rattle.hg_model.specs.Rounds.{is_witness, last_round, round_of, stake_at};
    ghost use Rattle.hg_model.specs.Stakes.{total};
    ghost use Rattle.hg_model.specs.Shape.{place_list};

    /// The tables of these rows, by members with these stakes.
    pub fn new(alloc: Global, rows: &[Row], stakes: &[u32]) -> Result<PlainSight, Memory>
        requires shaped { IsShaped stakes.now (links rows.now) }
        requires few { length stakes.now ≤ 128 }
        requires short { length rows.now < 2 ^ 32 - 1 }
        ensures { IfOk result (λ s. s ≡ shape_of stakes.now (links rows.now)) }
    {
        let seeing = Seeing::new(alloc, rows, stakes)?;
        let strong = strong_columns(alloc, &seeing)?;
        let rounds = rounds_of(alloc, &seeing, &strong)?;
        let greatest = greatest_of(&rounds);
        Ok(PlainSight {
            seeing,
            strong,
            rounds,
            forkers: plain_forkers(rows, stakes),
            greatest,
        })
    }

    /// How many rows there are.
    pub fn len(&self) -> usize
        ensures { result ≡ length self.now.links }
    {
        self.seeing.ancestry().links().len()
    }

    /// The stake of each member.
    pub fn stakes(&self) -> &[u32]
        ensures value { result.now ≡ self.now.members }
        ensures few { length result.now ≤ 128 }
    {
        self.seeing.stakes()
    }

    /// The stake of all members.
    pub fn total(&self) -> u64
        ensures value { result ≡ total self.now.members }
        ensures low { result ≤ 2 ^ 39 }
    {
        self.seeing.total()
    }

    /// The stake of the creator of row `x`.
    pub fn stake_at(&self, x: usize) -> u32
        requires { x < length self.now.links }
        ensures { result ≡ stake_at self.now.members self.now.links x }
    {
        stake_at(&self.seeing, x)
    }

    pub fn creator(&self, x: usize) -> Member
        requires { x < length self.now.links }
        ensures { result ≡ creator self.now.links x }
    {
        creator_of(self.seeing.ancestry().links(), x)
    }

    pub fn self_parent(&self, x: usize) -> Option<usize>
        requires { x < length self.now.links }
        ensures { place_list result ≡ self_parent self.now.links x }
    {
        self_parent_of(self.seeing.ancestry().links(), x)
    }

    /// Whether `y` is an ancestor of `x`.
    pub fn is_ancestor(&self, x: usize, y: usize) -> bool
        requires left { x < length self.now.links }
        requires right { y < length self.now.links }
        ensures { result ≡ is_ancestor self.now.links x y }
    {
        self.seeing.ancestry().is_ancestor(x, y)
    }

    pub fn sees(&self, x: usize, y: usize) -> bool
        requires left { x < length self.now.links }
        requires right { y < length self.now.links }
        ensures { result ≡ sees_in self.now x y }
    {
        self.seeing.sees(x, y)
    }

    pub fn strongly_sees(&self, x: usize, y: usize) -> bool
        requires left { x < length self.now.links }
        requires right { y < length self.now.links }
        ensures { result ≡ strongly_sees_in self.now x y }
    {
        cell(&self.strong, x, y)
    }

    pub fn round(&self, x: usize) -> u32
        requires { x < length self.now.links }
        ensures { result ≡ round_of self.now.members self.now.links x }
    {
        self.rounds[x]
    }

    pub fn is_witness(&self, x: usize) -> bool
        requires { x < length self.now.links }
        ensures { result ≡ is_witness self.now.members self.now.links x }
    {
        is_witness_by(self.seeing.ancestry().links(), &self.rounds, x)
    }

    /// How many members have a fork.
    pub fn forkers(&self) -> u32
        ensures { result ≡ forkers self.now.members self.now.links }
    {
        self.forkers
    }

    /// The greatest round, 0 without rows.
    pub fn greatest(&self) -> u32
        ensures { result ≡ last_round self.now.members self.now.links }
    {
        self.greatest
    }
}
