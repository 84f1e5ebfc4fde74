ghost use Rattle.std.specs.Prelude.{◌≡◌, ◌<◌, ◌≤◌, ◌+◌, ◌-◌, ◌^◌, List, [], ◌∷◌, ◌++◌, ℕ, length, take, vec_capacity, IfOk, OnOk};
ghost use Rattle.hg_model.specs.Standings.{Standing, greatest_in, round_at, witness_at, witnesses_in};
ghost use Rattle.hg_rounds.specs.Cut.{IsCut};
ghost use Rattle.hg_rounds.specs.Tabled.{AddsWeight, HasTops, WeighNothing, list_at, standing, weight_at};

use crate::row_round::RowRound;
use crate::witnesses::Witnesses;
use hg_blocks::Blocks;
use hg_model::{Memory, Rounds};
use std::alloc::Global;
use std::marker::Model;

/// The rounds and the witnesses of rows that come one by one, and each round's witnesses as a list.
#[derive(Drop)]
pub struct RoundTable {
    alloc: Global,
    rows: Blocks<RowRound>,
    /// For each row the greatest round up to it.
    tops: Blocks<u32>,
    /// The witnesses of each round from 0 to the next one; those of round 0 and of the next one are none.
    lists: Vec<Witnesses>,
    /// What the witnesses of each list weigh together. In a prefix it is what those of all rows weigh.
    weights: Vec<u64>,
    greatest: u32,
    /// The round that got the last witness, if its list is yet to be sealed.
    open: Option<usize>,
    /// No list is longer.
    longest: usize,
    /// Memory for a copy of a list that gets one more place while a prefix shares it, with nothing in it.
    spare: Vec<usize>,
}

impl Model for RoundTable {
    ghost use Rattle.std.specs.Prelude.{◌-◌, min, vec_capacity, vec_len};
    ghost use Rattle.hg_rounds.specs.Tabled.{KeepsTable, Tabled, room_by};

    ghost Value = { Tabled };

    ghost view = { λ s. record { standings = s.rows.items; weights = s.weights.items; room = room_by (min s.rows.room s.tops.room) (min (vec_capacity s.lists - vec_len s.lists) (vec_capacity s.weights - vec_len s.weights)) (vec_capacity s.spare - s.longest) } };

    ghost invariant = { λ s. KeepsTable s.rows.items s.tops.items s.lists.items s.weights.items s.greatest s.longest s.open s.spare.items };
}

impl RoundTable {
    /// The table of no rows.
    pub fn new(alloc: Global) -> Result<RoundTable, Memory>
        ensures standings { IfOk result (λ t. t.standings ≡ []) }
        ensures weights { IfOk result (λ t. WeighNothing t.weights) }
    {
        let mut lists = Vec::new(alloc);
        lists.push(Witnesses::new(alloc))?;
        lists.push(Witnesses::new(alloc))?;
        Ok(RoundTable {
            alloc,
            rows: Blocks::new(alloc),
            tops: Blocks::new(alloc),
            lists,
            weights: vec![in alloc; 0; 2]?,
            greatest: 0,
            open: None,
            longest: 0,
            spare: Vec::new(alloc),
        })
    }

    /// Takes the memory of one more row, of whichever round.
    pub fn reserve(&mut self) -> Result<(), Memory>
        ensures room { OnOk result (1 ≤ self.new.room) }
        ensures same { self.new.standings ≡ self.old.standings }
        ensures weights { self.new.weights ≡ self.old.weights }
    {
        self.rows.reserve()?;
        self.tops.reserve()?;
        self.lists.reserve(1)?;
        self.weights.reserve(1)?;
        if let Some(open) = self.open {
            let next = self.greatest as usize + 1;
            self.lists[next].reserve()?;
            self.lists[open].reserve()?;
            self.open = None;
        }
        reserve_spare(&mut self.spare, self.longest)
    }

    /// One more row, of a round that is there or of the next one, by a member of this stake. Takes no memory.
    pub fn add(&mut self, round: u32, witness: bool, stake: u32)
        requires room { 1 ≤ self.old.room }
        requires first { 1 ≤ round }
        requires next { round ≤ greatest_in self.old.standings + 1 }
        requires light { weight_at self.old.weights round + stake < 2 ^ 64 }
        ensures standings { self.new.standings ≡ self.old.standings ++ standing round witness ∷ [] }
        ensures weights { AddsWeight round witness stake self.old.weights self.new.weights }
    {
        if witness {
            let r = round as usize;
            let count = self.lists[r].push(self.rows.len(), &mut self.spare);
            self.longest = self.longest.max(count);
            self.open = Some(r);
            self.weights[r] += u64::from(stake);
        }
        if round > self.greatest {
            self.greatest = round;
            self.weights.push_reserved(0);
            self.lists.push_reserved(Witnesses::new(self.alloc));
        }
        self.rows.push(RowRound { round, witness });
        self.tops.push(self.greatest);
    }

    /// What is told of the round's witnesses: in a table to which each row was added, what they weigh together; in a prefix
    /// of it, what they weigh in the whole table.
    pub fn weight(&self, round: u32) -> u64
        ensures { result ≡ weight_at self.now.weights round }
    {
        match self.weights.get(round as usize) {
            None => 0,
            Some(weight) => *weight,
        }
    }

    /// The standings of the first `len` rows, as a value of its own, to be read: what it tells of rounds' weights is the
    /// whole table's, so that no further row can be placed in it. It shares what is sealed of the rows and of the lists.
    pub fn prefix(&self, len: usize) -> Result<RoundTable, Memory>
        requires { len ≤ length self.now.standings }
        ensures standings { IfOk result (λ t. t.standings ≡ take len self.now.standings) }
        ensures weights { IfOk result (λ t. t.weights ≡ take (greatest_in t.standings + 2) self.now.weights) }
    {
        let greatest = greatest_first(&self.tops, len);
        Ok(RoundTable {
            alloc: self.alloc,
            rows: self.rows.prefix(len)?,
            tops: self.tops.prefix(len)?,
            lists: first_lists(self.alloc, &self.lists, greatest as usize + 2, len)?,
            weights: Vec::from_slice(self.alloc, &self.weights[..greatest as usize + 2])?,
            greatest,
            open: None,
            longest: self.longest,
            spare: Vec::new(self.alloc),
        })
    }
}

/// Takes the memory for a copy of a list of at most so many places, and of one more.
fn reserve_spare(spare: &mut Vec<usize>, longest: usize) -> Result<(), Memory>
    ensures room { OnOk result (longest < vec_capacity spare.new) }
    ensures same { spare.new.items ≡ spare.old.items }
{
    if spare.capacity() <= longest {
        let Some(wanted) = longest.checked_add(1) else {
            return Err(Memory);
        };
        spare.reserve(wanted)?;
    }
    Ok(())
}

/// The greatest round of the first `len` rows, from the greatest rounds up to each row.
fn greatest_first(tops: &Blocks<u32>, len: usize) -> u32
    requires { len ≤ length tops.now.items }
    ensures { (S : List Standing) → HasTops S tops.now.items → result ≡ greatest_in (take len S) }
{
    if len == 0 { 0 } else { tops[len - 1] }
}

/// The first so many lists, each with its places below `len`.
fn first_lists(
    alloc: Global,
    lists: &[Witnesses],
    count: usize,
    len: usize,
) -> Result<Vec<Witnesses>, Memory>
    requires { count ≤ length lists.now }
    ensures count { IfOk result (λ first. length first.items ≡ count) }
    ensures each { IfOk result (λ first. (r : ℕ) → r < count → IsCut (list_at lists.now r) len (list_at first.items r)) }
{
    let mut first = Vec::with_capacity(alloc, count)?;
    for list in &lists[..count] {
        first.push(list.first(alloc, len)?)?;
    }
    Ok(first)
}

impl Rounds for RoundTable {
    ghost standings = { λ t. t.standings };

    #[tactic(auto, using(crate::proofs::StandingLaws::standing_reads))]
    fn round(&self, x: usize) -> u32 {
        let standing = &self.rows[x];
        standing.round
    }

    #[tactic(auto, using(crate::proofs::StandingLaws::standing_reads))]
    fn is_witness(&self, x: usize) -> bool {
        let standing = &self.rows[x];
        standing.witness
    }

    #[tactic(auto, using(crate::proofs::StandingLaws::witnesses_in_above))]
    fn witnesses(&self, r: u32) -> &[usize] {
        if r > self.greatest {
            return &[];
        }
        self.lists[r as usize].as_slice()
    }

    fn greatest(&self) -> u32 {
        self.greatest
    }
}
