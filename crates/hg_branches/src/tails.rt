ghost use Rattle.std.specs.Prelude.{◌≡◌, ◌<◌, ◌≤◌, ◌+◌, ◌^◌, [], ◌∷◌, ◌++◌, length, take, IfOk, OnOk};
ghost use Rattle.hg_branches.specs.Tails.{end_before, part_at, tail_at};

use hg_model::Memory;
use std::alloc::Global;
use std::marker::Model;

/// Where a row's numbers stand, and its own branch.
#[derive(Clone, Copy, Debug)]
pub struct Part {
    start: usize,
    end: usize,
    /// One more than the place of the row's own branch, or 0.
    own: usize,
}

/// What rows count of the branches that are no member's own. Such a branch has a place, from 0 on, among them.
/// The first rows, which count none and stand on none, take no memory.
#[derive(Drop)]
pub struct Tails {
    /// How many those are.
    before: usize,
    /// Of each row after them the part of the numbers.
    parts: Vec<Part>,
    numbers: Vec<u32>,
}

impl Model for Tails {
    ghost use Rattle.std.specs.Prelude.{◌-◌, vec_capacity, vec_len};
    ghost use Rattle.hg_branches.specs.Tails.{TailsWithRoom, KeepsParts, tail_room, tails_of};

    ghost Value = { TailsWithRoom };

    ghost view = { λ s. record { rows = tails_of s.numbers.items s.parts.items s.before; room = tail_room (vec_capacity s.parts - vec_len s.parts) (vec_capacity s.numbers - vec_len s.numbers) } };

    ghost invariant = { λ s. KeepsParts s.numbers.items s.parts.items };
}

/// The part of row `x`, where rows before the first of these parts have none.
fn part_of(parts: &[Part], before: usize, x: usize) -> Part
    requires { x < before + length parts.now }
    ensures { result ≡ part_at parts.now before x }
{
    if x < before {
        Part {
            start: 0,
            end: 0,
            own: 0,
        }
    } else {
        parts[x - before]
    }
}

/// Where the first parts end.
fn end_of(parts: &[Part], many: usize) -> usize
    requires { many ≤ length parts.now }
    ensures { result ≡ end_before parts.now many }
{
    if many == 0 { 0 } else { parts[many - 1].end }
}

impl Tails {
    /// Of no rows.
    pub fn new(alloc: Global) -> Tails
        ensures { result.rows ≡ [] }
    {
        Tails {
            before: 0,
            parts: Vec::new(alloc),
            numbers: Vec::new(alloc),
        }
    }

    /// How many rows there are, where that is a number of the machine.
    #[tactic(auto, using(crate::proofs::TailLaws::tail_reads))]
    pub fn len(&self) -> usize
        requires { length self.now.rows < 2 ^ 32 }
        ensures { result ≡ length self.now.rows }
    {
        self.before + self.parts.len()
    }

    /// One more than the place of row `x`'s own branch, or 0 where it is a member's own.
    #[tactic(auto, using(crate::proofs::TailLaws::tail_reads))]
    pub fn own(&self, x: usize) -> usize
        requires { x < length self.now.rows }
        ensures { result ≡ (tail_at self.now.rows x).own }
    {
        part_of(&self.parts, self.before, x).own
    }

    /// What row `x` counts of the others of these branches.
    #[tactic(auto, using(crate::proofs::TailLaws::tail_reads))]
    pub fn numbers(&self, x: usize) -> &[u32]
        requires { x < length self.now.rows }
        ensures { result.now ≡ (tail_at self.now.rows x).numbers }
    {
        let part = part_of(&self.parts, self.before, x);
        &self.numbers[part.start..part.end]
    }

    /// Takes the memory of one more row, with so many numbers.
    pub fn reserve(&mut self, many: usize) -> Result<(), Memory>
        ensures room { OnOk result (many < self.new.room) }
        ensures rows { self.new.rows ≡ self.old.rows }
    {
        self.parts.reserve(1)?;
        self.numbers.reserve(many)?;
        Ok(())
    }

    /// One more row. Takes no memory.
    pub fn push(&mut self, own: usize, numbers: &[u32])
        requires room { length numbers.now < self.old.room }
        requires short { length self.old.rows < 2 ^ 32 }
        ensures { self.new.rows ≡ self.old.rows ++ record { own = own; numbers = numbers.now } ∷ [] }
    {
        if own == 0 && numbers.is_empty() && self.parts.is_empty() {
            self.before += 1;
            return;
        }
        let start = self.numbers.len();
        self.numbers.extend_from_slice(numbers).unwrap();
        let end = self.numbers.len();
        self.parts.push_reserved(Part { start, end, own });
    }

    /// The first `len` rows, in memory of their own.
    pub fn prefix(&self, alloc: Global, len: usize) -> Result<Tails, Memory>
        requires { len ≤ length self.now.rows }
        ensures { IfOk result (λ t. t.rows ≡ take len self.now.rows) }
    {
        let before = self.before.min(len);
        let many = len - before;
        let end = end_of(&self.parts, many);
        Ok(Tails {
            before,
            parts: Vec::from_slice(alloc, &self.parts[..many])?,
            numbers: Vec::from_slice(alloc, &self.numbers[..end])?,
        })
    }
}
