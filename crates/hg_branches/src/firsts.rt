ghost use Rattle.std.specs.Prelude.{◌≡◌, ◌≢◌, ◌<◌, ◌≤◌, ◌^◌, ℕ, true, false, cond, nat_lt, length, slice_index, slice_set, take, IfOk};
ghost use Rattle.hg_model.specs.Counts.{numbers_of};
ghost use Rattle.hg_model.specs.Stakes.{stake_where};
ghost use Rattle.hg_bits.specs.Lanes.{is_at_least};
ghost use Rattle.hg_branches.specs.Firsts.{firsts_of, none_by, none_of, wide_first, AreWideFirsts};

use hg_bits::StakeTable;
use hg_model::{Counts, Memory};
use std::alloc::Global;

/// In place of a first descendant where there is none, in either width. A graph's ends are lower.
const NO_NARROW: u16 = u16::MAX;

const NO_WIDE: u32 = u32::MAX;

/// For each member's own branch one more than the place of the first descendant there, in 16 bits as long as all ends fit.
#[derive(Drop)]
pub enum Firsts {
    Narrow(Vec<u16>),
    Wide(Vec<u32>),
}

impl Firsts {
    /// The memory for so many members.
    pub fn new(alloc: Global, members: usize, wide: bool) -> Result<Firsts, Memory>
        ensures len { IfOk result (λ f. length (firsts_of f) ≡ members) }
        ensures none { IfOk result (λ f. none_of f ≡ none_by wide) }
    {
        Ok(if wide {
            Firsts::Wide(vec![in alloc; 0u32; members]?)
        } else {
            Firsts::Narrow(vec![in alloc; 0u16; members]?)
        })
    }

    /// The numbers.
    pub fn counts(&self) -> Counts<'_>
        ensures { numbers_of result ≡ firsts_of self.now }
    {
        match self {
            Firsts::Narrow(firsts) => Counts::Narrow(firsts),
            Firsts::Wide(firsts) => Counts::Wide(firsts),
        }
    }

    /// Leaves one first descendant, on branch `b`, if that is a member's own.
    pub fn begin(&mut self, b: usize, end: u32)
        requires { end < none_of self.old }
        ensures len { length (firsts_of self.new) ≡ length (firsts_of self.old) }
        ensures none { none_of self.new ≡ none_of self.old }
        ensures itself { b < length (firsts_of self.old) → slice_index (firsts_of self.new) b ≡ end }
        ensures others { (c : ℕ) → c < length (firsts_of self.old) → c ≢ b →
            slice_index (firsts_of self.new) c ≡ none_of self.old }
    {
        match self {
            Firsts::Narrow(firsts) => {
                clear_narrow(firsts);
                if b < firsts.len() {
                    firsts[b] = end as u16;
                }
            }
            Firsts::Wide(firsts) => {
                clear_wide(firsts);
                if b < firsts.len() {
                    firsts[b] = end;
                }
            }
        }
    }

    /// Lowers the first descendant on branch `b`, where there is none or a later one, to this end, and tells whether that is a
    /// member's own. It does not read what was there, which may have left the caches.
    pub fn lower(&mut self, b: usize, end: u32) -> bool
        requires low { end < none_of self.old }
        requires later { b < length (firsts_of self.old) → end < slice_index (firsts_of self.old) b }
        ensures value { result ≡ nat_lt end (slice_index (firsts_of self.old) b) }
        ensures none { none_of self.new ≡ none_of self.old }
        ensures firsts { firsts_of self.new ≡ cond result (slice_set (firsts_of self.old) b end) (firsts_of self.old) }
    {
        match self {
            Firsts::Narrow(firsts) => {
                if b < firsts.len() {
                    firsts[b] = end as u16;
                    return true;
                }
                false
            }
            Firsts::Wide(firsts) => {
                if b < firsts.len() {
                    firsts[b] = end;
                    return true;
                }
                false
            }
        }
    }

    /// The same in 32 bits.
    pub fn widened(&self, alloc: Global) -> Result<Firsts, Memory>
        ensures none { IfOk result (λ f. none_of f ≡ none_by true) }
        ensures len { IfOk result (λ f. length (firsts_of f) ≡ length (firsts_of self.now)) }
        ensures each { IfOk result (λ f. AreWideFirsts (none_of self.now) (firsts_of self.now) (firsts_of f)) }
    {
        Ok(Firsts::Wide(match self {
            Firsts::Narrow(firsts) => all_wide(alloc, firsts)?,
            Firsts::Wide(firsts) => Vec::from_slice(alloc, firsts)?,
        }))
    }
}

/// These first descendants in 32 bits.
fn all_wide(alloc: Global, firsts: &[u16]) -> Result<Vec<u32>, Memory>
    ensures len { IfOk result (λ v. length v.items ≡ length firsts.now) }
    ensures each { IfOk result (λ v. AreWideFirsts (none_by false) firsts.now v.items) }
{
    let mut wide = Vec::with_capacity(alloc, firsts.len())?;
    for b in 0..firsts.len() {
        wide.push(wide_first(firsts[b]))?;
    }
    Ok(wide)
}

/// A first descendant in 32 bits.
fn wide_first(first: u16) -> u32
    ensures { result ≡ wide_first (none_by false) first }
{
    if first == NO_NARROW {
        NO_WIDE
    } else {
        u32::from(first)
    }
}

/// Leaves no first descendant.
fn clear_narrow(firsts: &mut [u16])
    ensures len { length firsts.new ≡ length firsts.old }
    ensures each { (b : ℕ) → b < length firsts.old → slice_index firsts.new b ≡ none_by false }
{
    for b in 0..firsts.len() {
        firsts[b] = NO_NARROW;
    }
}

fn clear_wide(firsts: &mut [u32])
    ensures len { length firsts.new ≡ length firsts.old }
    ensures each { (b : ℕ) → b < length firsts.old → slice_index firsts.new b ≡ none_by true }
{
    for b in 0..firsts.len() {
        firsts[b] = NO_WIDE;
    }
}

/// What the members weigh in whose lanes the first numbers are at least the others.
pub fn weigh_counts(stakes: &StakeTable, row: Counts<'_>, other: Counts<'_>) -> u64
    requires row { length (numbers_of row) ≡ length stakes.now }
    requires other { length (numbers_of other) ≡ length stakes.now }
    ensures value { result ≡ stake_where stakes.now (is_at_least (numbers_of row.entry) (numbers_of other.entry)) }
    ensures low { result ≤ 2 ^ 39 }
{
    match (row, other) {
        (Counts::Narrow(row), Counts::Narrow(other)) => stakes.weigh_ge(row, other),
        _ => weigh_wide(stakes, row, other),
    }
}

/// The same where not both are of 16 bits. A call of its own, so that the other case is short.
#[inline(never)]
fn weigh_wide(stakes: &StakeTable, row: Counts<'_>, other: Counts<'_>) -> u64
    requires row { length (numbers_of row) ≡ length stakes.now }
    requires other { length (numbers_of other) ≡ length stakes.now }
    ensures value { result ≡ stake_where stakes.now (is_at_least (numbers_of row.entry) (numbers_of other.entry)) }
    ensures low { result ≤ 2 ^ 39 }
{
    let members = stakes.len();
    match (row, other) {
        (Counts::Wide(row), Counts::Wide(other)) => stakes.weigh_wide_ge(row, other),
        (Counts::Wide(row), Counts::Narrow(other)) => {
            stakes.weigh_wide_ge(row, &lanes_of(other)[..members])
        }
        (Counts::Narrow(row), Counts::Wide(other)) => {
            stakes.weigh_wide_ge(&lanes_of(row)[..members], other)
        }
        (Counts::Narrow(row), Counts::Narrow(other)) => stakes.weigh_ge(row, other),
    }
}

/// The same numbers in 32 bits, and zeros behind them.
fn lanes_of(numbers: &[u16]) -> [u32; 128]
    requires { length numbers.now ≤ 128 }
    ensures { take (length numbers.now) result ≡ numbers.now }
{
    let mut lanes = [0; 128];
    for i in 0..numbers.len() {
        lanes[i] = u32::from(numbers[i]);
    }
    lanes
}
