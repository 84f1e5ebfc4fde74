ghost use Rattle.std.specs.Prelude.{◌≡◌, ◌<◌, ◌≤◌, ◌+◌, ◌*◌, ◌^◌, [], ◌∷◌, ◌++◌, length, slice_index, take, drop, IfOk, OnOk, OnErr};
ghost use Rattle.std.specs.List.{AllByRecursion};
ghost use Rattle.hg_branches.specs.TailBlocks.{IsFull, SealsTails, joined_tails};
ghost use Rattle.hg_branches.specs.Tails.{tail_at, tail_count, tail_width};

use crate::row_tail::RowTail;
use crate::tails::Tails;
use hg_model::Memory;
use std::alloc::Global;
use std::marker::Model;
use std::mem;
use std::sync::Arc;

/// What rows count of the branches that are no member's own, in sealed blocks of 64 rows, which prefixes share, and an open
/// one of at most 64.
#[derive(Drop)]
pub struct TailBlocks {
    sealed: Vec<Arc<Tails>>,
    /// The open block.
    last: Tails,
}

impl Model for TailBlocks {
    ghost use Rattle.hg_branches.specs.TailBlocks.{HoldsTails, joined_tails, open_room};
    ghost use Rattle.hg_branches.specs.Tails.{TailsWithRoom};

    ghost Value = { TailsWithRoom };

    ghost view = { λ s. record { rows = joined_tails s.sealed.items s.last.rows; room = open_room s.last } };

    ghost invariant = { λ s. HoldsTails s.sealed.items s.last.rows };
}

impl TailBlocks {
    /// Of no rows. Takes no memory.
    pub fn new(alloc: Global) -> TailBlocks
        ensures { result.rows ≡ [] }
    {
        TailBlocks {
            sealed: Vec::new(alloc),
            last: Tails::new(alloc),
        }
    }

    /// How many rows there are, where that is a number of the machine.
    pub fn len(&self) -> usize
        requires { length self.now.rows < 2 ^ 32 }
        ensures { result ≡ length self.now.rows }
    {
        64 * self.sealed.len() + self.last.len()
    }

    /// What row `x` counts of these branches.
    pub fn tail(&self, x: usize) -> RowTail<'_>
        requires place { x < length self.now.rows }
        requires short { length self.now.rows < 2 ^ 32 }
        ensures numbers { result.numbers.now ≡ (tail_at self.now.rows x).numbers }
        ensures own { result.own ≡ (tail_at self.now.rows x).own }
        ensures end { result.end ≡ x + 1 }
    {
        let part = block(&self.sealed, &self.last, x / 64);
        RowTail {
            numbers: part.numbers(x % 64),
            own: part.own(x % 64),
            end: x as u32 + 1,
        }
    }

    /// Of how many branches row `x` tells.
    pub fn width(&self, x: usize) -> usize
        requires place { x < length self.now.rows }
        requires short { length self.now.rows < 2 ^ 32 }
        ensures { result ≡ tail_width self.now.rows x }
    {
        self.tail(x).width()
    }

    /// What row `x` counts of the branch at place `k`.
    pub fn at(&self, x: usize, k: usize) -> u32
        requires place { x < length self.now.rows }
        requires short { length self.now.rows < 2 ^ 32 }
        ensures { result ≡ tail_count self.now.rows x k }
    {
        self.tail(x).at(k)
    }

    /// Takes the memory of one more row, with so many numbers. A full block is sealed.
    pub fn reserve(&mut self, many: usize) -> Result<(), Memory>
        ensures room { OnOk result (many < self.new.room) }
        ensures rows { self.new.rows ≡ self.old.rows }
    {
        if self.last.len() == 64 {
            seal(&mut self.sealed, &mut self.last)?;
        }
        self.last.reserve(many)
    }

    /// One more row. Takes no memory.
    pub fn push(&mut self, own: usize, numbers: &[u32])
        requires { length numbers.now < self.old.room }
        ensures { self.new.rows ≡ self.old.rows ++ record { own = own; numbers = numbers.now } ∷ [] }
    {
        self.last.push(own, numbers);
    }

    /// The first `len` rows, as a value of its own: it shares the sealed blocks, and copies at most 64 rows.
    pub fn prefix(&self, alloc: Global, len: usize) -> Result<TailBlocks, Memory>
        requires { len ≤ length self.now.rows }
        ensures { IfOk result (λ t. t.rows ≡ take len self.now.rows) }
    {
        let whole = len.saturating_sub(1) / 64;
        let part = block(&self.sealed, &self.last, whole);
        Ok(TailBlocks {
            sealed: Vec::from_clones(alloc, &self.sealed[..whole])?,
            last: part.prefix(alloc, len - 64 * whole)?,
        })
    }
}

/// Sealed block number `number`, or the open one behind them, which is the last.
fn block<'a>(sealed: &'a [Arc<Tails>], last: &'a Tails, number: usize) -> &'a Tails
    requires full { AllByRecursion IsFull sealed.now }
    requires few { length last.now.rows ≤ 64 }
    requires place { number ≤ length sealed.now }
    ensures { result.now.rows ≡ take 64 (drop (64 * number) (joined_tails sealed.now last.now.rows)) }
{
    if number < sealed.len() {
        &*sealed[number]
    } else {
        last
    }
}

/// Seals the last block: an empty one without memory is open then. After want of memory all is as it was.
fn seal(sealed: &mut Vec<Arc<Tails>>, last: &mut Tails) -> Result<(), Memory>
    requires { length last.old.rows ≡ 64 }
    ensures same { joined_tails sealed.new.items last.new.rows ≡ joined_tails sealed.old.items last.old.rows }
    ensures ok { OnOk result (SealsTails sealed.old.items last.old.rows sealed.new.items last.new.rows) }
    ensures err { OnErr result ((sealed.new.items ≡ sealed.old.items) × (last.new ≡ last.old)) }
{
    sealed.reserve(1)?;
    let alloc = *sealed.allocator();
    let full = mem::replace(last, Tails::new(alloc));
    match Arc::new(alloc, full) {
        Ok(block) => {
            sealed.push_reserved(block);
            Ok(())
        }
        Err(refused) => {
            *last = refused.value;
            Err(Memory)
        }
    }
}
