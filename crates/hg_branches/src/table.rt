ghost use Rattle.std.specs.Prelude.{◌≡◌, ◌<◌, ◌≤◌, ◌+◌, ◌-◌, ◌==◌, ◌^◌, ℕ, [], length, slice_index_or, take, IfOk, OnOk};
ghost use Rattle.std.specs.List.{AllByRecursion};
ghost use Rattle.hg_model.specs.Counts.{numbers_of};
ghost use Rattle.hg_branches.specs.Columns.{count_in};
ghost use Rattle.hg_branches.specs.Rows.{HasTail};
ghost use Rattle.hg_branches.specs.Table.{own_counts, is_own_row, AddsCounts};

use crate::counts::number_at;
use crate::next_row::join_tails;
use crate::own_counts::OwnCounts;
use crate::row_tail::RowTail;
use crate::tail_blocks::TailBlocks;
use hg_model::{Counts, Memory};
use std::alloc::Global;
use std::marker::Model;

/// For each row and branch one more than the place of the branch's last row among the row's ancestors, or 0. The first
/// branches are the members' own.
/// Where no row stands on another branch, each of the first 65,472 rows costs two bytes for each member, and a later one four.
/// Prefixes share the sealed blocks.
#[derive(Drop)]
pub struct CountTable {
    /// Of each row the numbers of the members' own branches.
    own: OwnCounts,
    /// Of each row the numbers of the other branches.
    tails: TailBlocks,
    /// How many numbers a tail may have.
    widest: usize,
    /// Memory in which the next tail is made.
    row: Vec<u32>,
}

impl Model for CountTable {
    ghost use Rattle.std.specs.Prelude.{◌≡◌, cond, length, vec_capacity};
    ghost use Rattle.hg_branches.specs.Table.{CountsWithRoom, KeepsNumbers, has_room, rows_of};

    ghost Value = { CountsWithRoom };

    ghost view = { λ s. record {
      members = s.own.width;
      rows = rows_of s.own.width s.own.numbers s.tails.rows;
      room = cond (has_room s.widest s.own.room s.tails.room (vec_capacity s.row)) 1 0;
    } };

    ghost invariant = { λ s.
        (s.own.rows ≡ length s.tails.rows) × KeepsNumbers s.own.width s.widest s.own.numbers s.tails.rows };
}

impl CountTable {
    /// The table of no rows. Takes no memory.
    pub fn new(alloc: Global, members: usize) -> CountTable
        ensures rows { result.rows ≡ [] }
        ensures members { result.members ≡ members }
    {
        CountTable {
            own: OwnCounts::new(alloc, members),
            tails: TailBlocks::new(alloc),
            widest: 0,
            row: Vec::new(alloc),
        }
    }

    /// How many rows there are.
    pub fn len(&self) -> usize
        ensures { result ≡ length self.now.rows }
    {
        self.tails.len()
    }

    /// What row `x` counts of branch `b`.
    pub fn at(&self, x: usize, b: usize) -> u32
        requires { x < length self.now.rows }
        ensures { result ≡ count_in self.now.rows x b }
    {
        let members = self.own.width();
        if b < members {
            number_at(self.own(x), b)
        } else {
            self.tails.at(x, b - members)
        }
    }

    /// What row `x` counts of the members' own branches.
    pub fn own(&self, x: usize) -> Counts<'_>
        requires { x < length self.now.rows }
        ensures value { numbers_of result ≡ own_counts self.now x }
        ensures len { length (numbers_of result) ≡ self.now.members }
    {
        self.own.row(x)
    }

    /// What row `x` counts of the other branches.
    pub fn tail(&self, x: usize) -> RowTail<'_>
        requires { x < length self.now.rows }
        ensures { HasTail self.now.members (slice_index_or self.now.rows x []) result.numbers.now result.own result.end }
    {
        self.tails.tail(x)
    }

    /// Whether row `x` tells of the members' own branches alone.
    pub fn is_own(&self, x: usize) -> bool
        requires { x < length self.now.rows }
        ensures { result ≡ is_own_row self.now x }
    {
        self.tails.width(x) == 0
    }

    /// Takes the memory of one more row, whatever its branch and its parents.
    pub fn reserve(&mut self) -> Result<(), Memory>
        ensures room { OnOk result (1 ≤ self.new.room) }
        ensures rows { self.new.rows ≡ self.old.rows }
        ensures members { self.new.members ≡ self.old.members }
    {
        self.own.reserve()?;
        self.tails.reserve(self.widest)?;
        self.row.clear();
        self.row.reserve(self.widest)?;
        Ok(())
    }

    /// One more row, on this branch and on these parents: their greatest numbers, and on its own branch one more than its
    /// place. Takes no memory.
    pub fn push(&mut self, on: &[usize], branch: usize)
        requires room { 1 ≤ self.old.room }
        requires places { AllByRecursion (λ p. p < length self.old.rows) on.now }
        requires short { length self.old.rows < 2 ^ 32 - 1 }
        requires fits { branch < 2 ^ 64 - 1 }
        ensures { AddsCounts self.old self.new on.now branch }
    {
        self.own.push(on, branch);
        let own = (branch + 1).saturating_sub(self.own.width());
        join_tails(&mut self.row, &self.tails, on, own, self.widest);
        self.tails.push(own, &self.row);
        self.widest = self.widest.max(own);
    }

    /// The first `len` rows, as a value of its own: it shares the sealed blocks, and copies at most 128 rows.
    pub fn prefix(&self, alloc: Global, len: usize) -> Result<CountTable, Memory>
        requires { len ≤ length self.now.rows }
        ensures rows { IfOk result (λ t. t.rows ≡ take len self.now.rows) }
        ensures members { IfOk result (λ t. t.members ≡ self.now.members) }
    {
        Ok(CountTable {
            own: self.own.prefix(alloc, len)?,
            tails: self.tails.prefix(alloc, len)?,
            widest: self.widest,
            row: Vec::new(alloc),
        })
    }
}
