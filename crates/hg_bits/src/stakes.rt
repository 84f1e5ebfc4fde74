ghost use Rattle.std.specs.Prelude.{◌≡◌, ◌<◌, ◌≤◌, ◌^◌, ℕ, length, slice_index, IfOk, IfSome, nat_lt};
ghost use Rattle.hg_model.specs.Places.{weight_below};
ghost use Rattle.hg_model.specs.Stakes.{AllWeigh, stake_of, stake_where, total};
ghost use Rattle.hg_model.specs.Seeing.{is_supermajority};
ghost use Rattle.hg_bits.specs.Lanes.{is_at_least};
ghost use Rattle.hg_bits.specs.Masks.{mask_has};

use crate::kernels;
use crate::kernels::narrow;
use crate::masks::{mask_has, with_member};
use hg_model::{Member, Memory, is_supermajority};
use std::alloc::Global;
use std::marker::Model;

/// The stake of all members.
#[tactic(auto, using(hg_model::proofs::PlacesLaws::weight_steps))]
pub fn sum_stakes(stakes: &[u32]) -> u64
    requires { length stakes.now ≤ 128 }
    ensures value { result ≡ total stakes.now }
    ensures low { result ≤ 2 ^ 39 }
{
    let mut sum = 0;
    for m in 0..stakes.len() {
        sum += u64::from(stakes[m]);
    }
    sum
}

/// The stake of the members in the set.
#[tactic(auto, using(hg_model::proofs::PlacesLaws::weight_steps))]
pub fn weigh_mask(mask: u128, stakes: &[u32]) -> u64
    requires { length stakes.now ≤ 128 }
    ensures { result ≡ stake_where stakes.now (mask_has mask) }
{
    let mut sum = 0;
    for m in 0..stakes.len() {
        if mask_has(mask, m as Member) {
            sum += u64::from(stakes[m]);
        }
    }
    sum
}

/// Whether the members in the set have more than two thirds of the stake of all.
pub fn stake_over(mask: u128, stakes: &[u32]) -> bool
    requires { length stakes.now ≤ 128 }
    ensures { result ≡ is_supermajority (total stakes.now) (stake_where stakes.now (mask_has mask)) }
{
    is_supermajority(sum_stakes(stakes), weigh_mask(mask, stakes))
}

/// The stake that every member has, where there is one.
fn even_stake(stakes: &[u32]) -> Option<u32>
    ensures { IfSome result (λ stake. AllWeigh stakes.now stake) }
{
    if stakes.is_empty() {
        return None;
    }
    let first = stakes[0];
    for m in 0..stakes.len() {
        if stakes[m] != first {
            return None;
        }
    }
    Some(first)
}

/// The set of so many members, from the first on.
fn first_members(count: usize) -> u128
    requires { count ≤ 128 }
    ensures { (m : ℕ) → mask_has result m ≡ nat_lt m count }
{
    let mut all = 0;
    for m in 0..count {
        all = with_member(all, m as Member);
    }
    all
}

/// What the lanes weigh in which the row is at least the other, of which all together weigh so much. Where that is below 2^32
/// the sum has 32 bits, of which more stand in a register.
fn weigh_lanes(row: &[u16], other: &[u16], stakes: &[u32], sum: u64) -> u64
    requires same { length row.now ≡ length other.now }
    requires stakes { length row.now ≡ length stakes.now }
    requires few { length stakes.now ≤ 128 }
    requires sum { sum ≡ total stakes.now }
    ensures { result ≡ weight_below (slice_index stakes.now) (length row.now) (is_at_least row.now other.now) }
{
    if sum < 1 << 32 {
        u64::from(narrow::weigh_light_ge(row, other, stakes))
    } else {
        narrow::weigh_ge(row, other, stakes)
    }
}

/// The stakes of at most 128 members. Where all are the same, members are counted and not summed.
#[derive(Debug, Drop)]
pub struct StakeTable {
    stakes: Vec<u32>,
    /// The set of all members.
    all: u128,
    total: u64,
    /// The least stake that is more than two thirds of all.
    needed: u64,
    /// The stake that every member has, where there is one.
    even: Option<u32>,
}

impl Model for StakeTable {
    ghost use Rattle.hg_model.specs.Stakes.{Stakes};
    ghost use Rattle.hg_bits.specs.Weights.{HoldsStakes};

    ghost Value = { Stakes };

    ghost view = { λ s. s.stakes.items };

    ghost invariant = { λ s. HoldsStakes s.stakes.items s.all s.total s.needed s.even };
}

impl StakeTable {
    /// The table of these stakes.
    pub fn new(alloc: Global, stakes: &[u32]) -> Result<StakeTable, Memory>
        requires { length stakes.now ≤ 128 }
        ensures { IfOk result (λ table. table ≡ stakes.now) }
    {
        let total = sum_stakes(stakes);
        Ok(StakeTable {
            stakes: Vec::from_slice(alloc, stakes)?,
            all: first_members(stakes.len()),
            total,
            needed: 2 * total / 3 + 1,
            even: even_stake(stakes),
        })
    }

    /// The same table, in memory of its own.
    pub fn copy(&self, alloc: Global) -> Result<StakeTable, Memory>
        ensures { IfOk result (λ table. table ≡ self.now) }
    {
        let stakes = Vec::from_slice(alloc, &self.stakes)?;
        Ok(StakeTable {
            stakes,
            all: self.all,
            total: self.total,
            needed: self.needed,
            even: self.even,
        })
    }

    /// How many members there are, at most 128.
    pub fn len(&self) -> usize
        ensures value { result ≡ length self.now }
        ensures few { result ≤ 128 }
    {
        self.stakes.len()
    }

    /// The stake of a member.
    pub fn at(&self, member: Member) -> u32
        requires { member < length self.now }
        ensures { result ≡ stake_of self.now member }
    {
        self.stakes[member as usize]
    }

    /// The stake of all members, at most 2^39.
    pub fn total(&self) -> u64
        ensures value { result ≡ total self.now }
        ensures low { result ≤ 2 ^ 39 }
    {
        self.total
    }

    /// The stake that every member has, where there is one.
    pub fn even(&self) -> Option<u32>
        ensures { IfSome result (λ stake. AllWeigh self.now stake) }
    {
        self.even
    }

    /// Whether the stake is more than two thirds of all.
    pub fn is_over(&self, stake: u64) -> bool
        ensures { result ≡ is_supermajority (total self.now) stake }
    {
        self.needed <= stake
    }

    /// The stake of the members in whose lanes the row is at least the other.
    pub fn weigh_ge(&self, row: &[u16], other: &[u16]) -> u64
        requires row { length row.now ≡ length self.now }
        requires other { length other.now ≡ length self.now }
        ensures value { result ≡ stake_where self.now (is_at_least row.now other.now) }
        ensures low { result ≤ 2 ^ 39 }
    {
        match self.even {
            None => weigh_lanes(row, other, &self.stakes, self.total),
            Some(stake) => u64::from(narrow::count_ge(row, other)) * u64::from(stake),
        }
    }

    /// The same, where the numbers have 32 bits.
    pub fn weigh_wide_ge(&self, row: &[u32], other: &[u32]) -> u64
        requires row { length row.now ≡ length self.now }
        requires other { length other.now ≡ length self.now }
        ensures value { result ≡ stake_where self.now (is_at_least row.now other.now) }
        ensures low { result ≤ 2 ^ 39 }
    {
        match self.even {
            None => kernels::weigh_ge(row, other, &self.stakes),
            Some(stake) => u64::from(kernels::count_ge(row, other)) * u64::from(stake),
        }
    }

    /// The stake of the members in the set.
    pub fn weigh(&self, mask: u128) -> u64
        ensures value { result ≡ stake_where self.now (mask_has mask) }
        ensures low { result ≤ 2 ^ 39 }
    {
        match self.even {
            None => weigh_mask(mask, &self.stakes),
            Some(stake) => u64::from((mask & self.all).count_ones()) * u64::from(stake),
        }
    }

    /// Whether the members in the set have more than two thirds of the stake of all.
    pub fn over(&self, mask: u128) -> bool
        ensures { result ≡ is_supermajority (total self.now) (stake_where self.now (mask_has mask)) }
    {
        self.is_over(self.weigh(mask))
    }
}
