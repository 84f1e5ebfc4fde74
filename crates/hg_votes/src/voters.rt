ghost use Rattle.std.specs.Prelude.{◌≡◌, ◌<◌, ◌≤◌, ◌+◌, ◌-◌, ◌^◌, [], length, slice_index, slice_index_or, take, IfOk, OnOk};
ghost use Rattle.hg_model.specs.Orders.{IsPrefix};
ghost use Rattle.hg_votes.specs.Counting.{HoldsVoters};

use crate::sets::SlotSets;
use hg_model::{Memory, Prefix};
use std::alloc::Global;
use std::marker::Model;

/// By row its number among the witnesses, and by number the voters of each witness.
#[derive(Drop)]
pub struct Voters {
    /// How many witnesses come before each row.
    numbers: Vec<u32>,
    /// The voters of each witness, as a set of slots: of indices in the list of the round's witnesses before.
    sets: SlotSets,
}

impl Model for Voters {
    ghost use Rattle.hg_votes.specs.Counting.{Entered};

    ghost Value = { Entered };

    ghost view = { λ s. record { numbers = s.numbers.items; sets = s.sets } };
}

impl Voters {
    /// Of no rows. Takes no memory.
    pub fn new(alloc: Global) -> Voters
        ensures numbers { result.numbers ≡ [] }
        ensures sets { result.sets ≡ [] }
    {
        Voters {
            numbers: Vec::new(alloc),
            sets: SlotSets::new(alloc),
        }
    }

    /// How many witnesses come before row `y`.
    pub fn number(&self, y: usize) -> usize
        requires { y < length self.now.numbers }
        ensures { result ≡ slice_index self.now.numbers y }
    {
        self.numbers[y] as usize
    }

    /// The voters of the witness of this number.
    pub fn voters(&self, number: usize) -> &[u64]
        requires { number < length self.now.sets }
        ensures { result.now ≡ slice_index_or self.now.sets number [] }
    {
        self.sets.set(number)
    }

    /// Enters row `y`, where those before it are entered.
    fn enter_row<P: Prefix>(&mut self, p: &P, y: usize) -> Result<(), Memory>
        requires row { y < length (P.graph p.now).rows }
        requires short { length (P.graph p.now).rows < 2 ^ 32 - 1 }
        requires before { HoldsVoters (P.graph p.now) y self.old }
        ensures ok { OnOk result (HoldsVoters (P.graph p.now) (y + 1) self.new) }
        ensures numbers { IsPrefix self.old.numbers self.new.numbers }
        ensures sets { IsPrefix self.old.sets self.new.sets }
    {
        self.numbers.reserve(1)?;
        let number = self.sets.len() as u32;
        if p.is_witness(y) {
            self.sets
                .push_seen(p, p.witnesses(p.round(y).saturating_sub(1)), y)?;
        }
        self.numbers.push_reserved(number);
        Ok(())
    }

    /// How many rows are entered.
    pub fn rows(&self) -> usize
        ensures { result ≡ length self.now.numbers }
    {
        self.numbers.len()
    }

    /// How many witnesses are entered.
    pub fn witnesses(&self) -> usize
        ensures { result ≡ length self.now.sets }
    {
        self.sets.len()
    }

    /// Enters the rows that are not entered yet. After an error some of them are.
    pub fn enter<P: Prefix>(&mut self, p: &P) -> Result<(), Memory>
        requires few { length self.old.numbers ≤ length (P.graph p.now).rows }
        requires before { HoldsVoters (P.graph p.now) (length self.old.numbers) self.old }
        ensures ok { OnOk result (HoldsVoters (P.graph p.now) (length (P.graph p.now).rows) self.new) }
        ensures numbers { IsPrefix self.old.numbers self.new.numbers }
        ensures sets { IsPrefix self.old.sets self.new.sets }
    {
        for y in self.numbers.len()..p.rows() {
            self.enter_row(p, y)?;
        }
        Ok(())
    }

    /// The same rows and witnesses as a value of their own.
    pub fn copied(&self, alloc: Global) -> Result<Voters, Memory>
        ensures { IfOk result (λ copy. copy ≡ self.now) }
    {
        Ok(Voters {
            numbers: Vec::from_slice(alloc, &self.numbers)?,
            sets: self.sets.copied(alloc)?,
        })
    }

    /// The first rows and witnesses alone.
    pub fn truncate(&mut self, rows: usize, witnesses: usize)
        ensures numbers { self.new.numbers ≡ take rows self.old.numbers }
        ensures sets { self.new.sets ≡ take witnesses self.old.sets }
    {
        self.numbers.truncate(rows);
        self.sets.truncate(witnesses);
    }
}
