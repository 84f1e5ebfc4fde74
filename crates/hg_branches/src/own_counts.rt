//! What rows count of the members' own branches, in 16 bits as long as the rows' places fit.

ghost use Rattle.std.specs.Prelude.{◌≡◌, ◌<◌, ◌≤◌, ◌+◌, ◌-◌, ◌*◌, ◌^◌, ℕ, max, min, [], length, slice_index, take, drop, vec_capacity, IfOk, OnOk};
ghost use Rattle.std.specs.List.{AllByRecursion};
ghost use Rattle.hg_model.specs.Counts.{numbers_of};
ghost use Rattle.hg_branches.specs.OwnCounts.{has_own_row, number_in, own_in, next_in, AddsOwn, HasOwn};

use crate::next_row::raise_row;
use hg_bits::kernels::narrow;
use hg_blocks::RowBlocks;
use hg_model::{Counts, Memory};
use std::alloc::Global;
use std::marker::Model;

/// So many rows have counts of 16 bits: 1,023 sealed blocks, of which the last row's end is below the greatest number.
pub const NARROW_ROWS: usize = 65_472;

/// For each row and member one more than the place of the last row of the member's own branch among the row's ancestors, or 0.
#[derive(Drop)]
pub struct OwnCounts {
    /// How many rows there are.
    rows: usize,
    /// Those of the first rows.
    narrow: RowBlocks<u16>,
    /// Those of the rows behind them.
    wide: RowBlocks<u32>,
    /// Memory in which the next row is made, in either width.
    narrow_row: Vec<u16>,
    wide_row: Vec<u32>,
}

impl Model for OwnCounts {
    ghost use Rattle.std.specs.Prelude.{◌++◌, cond, vec_capacity};
    ghost use Rattle.hg_branches.specs.OwnCounts.{HoldsOwn, OwnWithRoom, own_room};

    ghost Value = { OwnWithRoom };

    ghost view = { λ s. record {
      rows = s.rows;
      width = s.narrow.width;
      numbers = s.narrow.numbers ++ s.wide.numbers;
      room = own_room s.rows s.narrow s.wide (vec_capacity s.narrow_row) (vec_capacity s.wide_row);
    } };

    ghost invariant = { λ s. HoldsOwn s.rows s.narrow s.wide };
}

impl OwnCounts {
    /// The counts of no rows. Takes no memory.
    pub fn new(alloc: Global, members: usize) -> OwnCounts
        ensures rows { result.rows ≡ 0 }
        ensures width { result.width ≡ members }
        ensures numbers { result.numbers ≡ [] }
    {
        OwnCounts {
            rows: 0,
            narrow: RowBlocks::new(alloc, members),
            wide: RowBlocks::new(alloc, members),
            narrow_row: Vec::new(alloc),
            wide_row: Vec::new(alloc),
        }
    }

    /// How many members there are.
    pub fn width(&self) -> usize
        ensures { result ≡ self.now.width }
    {
        self.narrow.width()
    }

    /// What row `x` counts.
    pub fn row(&self, x: usize) -> Counts<'_>
        requires { x < self.now.rows }
        ensures value { (b : ℕ) → b < self.now.width →
            slice_index (numbers_of result) b ≡ slice_index self.now.numbers (x * self.now.width + b) }
        ensures len { length (numbers_of result) ≡ self.now.width }
    {
        row_in(&self.narrow, &self.wide, x)
    }

    /// Takes the memory of one more row.
    pub fn reserve(&mut self) -> Result<(), Memory>
        ensures room { OnOk result (1 ≤ self.new.room) }
        ensures rows { self.new.rows ≡ self.old.rows }
        ensures width { self.new.width ≡ self.old.width }
        ensures numbers { self.new.numbers ≡ self.old.numbers }
    {
        let members = self.narrow.width();
        if self.rows < NARROW_ROWS {
            self.narrow.reserve()?;
            self.narrow_row.clear();
            self.narrow_row.reserve(members)?;
        } else {
            self.wide.reserve()?;
            self.wide_row.clear();
            self.wide_row.reserve(members)?;
        }
        Ok(())
    }

    /// One more row, on this branch and on these parents. Takes no memory.
    pub fn push(&mut self, on: &[usize], branch: usize)
        requires room { 1 ≤ self.old.room }
        requires places { AllByRecursion (λ p. p < self.old.rows) on.now }
        requires short { self.old.rows + 1 < 2 ^ 32 }
        ensures { AddsOwn self.old self.new on.now branch }
    {
        let next = self.rows;
        if next < NARROW_ROWS {
            let row = &mut self.narrow_row;
            join_narrow(row, &self.narrow, on, branch, next as u16 + 1);
            self.narrow.push(row);
        } else {
            let row = &mut self.wide_row;
            join_wide(row, &self.narrow, &self.wide, on, branch, next as u32 + 1);
            self.wide.push(row);
        }
        self.rows = next + 1;
    }

    /// The first `len` rows, as a value of its own: it shares the sealed blocks, and copies at most 128 rows.
    pub fn prefix(&self, alloc: Global, len: usize) -> Result<OwnCounts, Memory>
        requires { len ≤ self.now.rows }
        ensures rows { IfOk result (λ t. t.rows ≡ len) }
        ensures width { IfOk result (λ t. t.width ≡ self.now.width) }
        ensures numbers { IfOk result (λ t. t.numbers ≡ take (len * self.now.width) self.now.numbers) }
    {
        let narrow = len.min(NARROW_ROWS);
        Ok(OwnCounts {
            rows: len,
            narrow: self.narrow.prefix(narrow)?,
            wide: self.wide.prefix(len - narrow)?,
            narrow_row: Vec::new(alloc),
            wide_row: Vec::new(alloc),
        })
    }
}

/// What row `x` counts, where it is one of the narrow rows or stands behind them.
fn row_in<'a>(narrow: &'a RowBlocks<u16>, wide: &'a RowBlocks<u32>, x: usize) -> Counts<'a>
    requires { HasOwn narrow.now wide.now x }
    ensures value { (b : ℕ) → b < narrow.now.width →
        slice_index (numbers_of result) b ≡ number_in narrow.now wide.now x b }
    ensures len { length (numbers_of result) ≡ narrow.now.width }
{
    if x < NARROW_ROWS {
        Counts::Narrow(narrow.row(x))
    } else {
        Counts::Wide(wide.row(x - NARROW_ROWS))
    }
}

/// Makes the row the greatest of its parents' rows, and on its own branch its end.
fn join_narrow(row: &mut Vec<u16>, narrow: &RowBlocks<u16>, on: &[usize], branch: usize, end: u16)
    requires room { narrow.now.width ≤ vec_capacity row.old }
    requires places { AllByRecursion (has_own_row narrow.now) on.now }
    ensures len { length row.new.items ≡ narrow.now.width }
    ensures each { (b : ℕ) → b < narrow.now.width →
        slice_index row.new.items b ≡ own_in narrow.now on.now branch end b }
{
    let members = narrow.width();
    row.clear();
    for place in on {
        raise_narrow(row, narrow.row(*place));
    }
    row.resize(members, 0).unwrap();
    if branch < members {
        row[branch] = end;
    }
}

/// The same of a row behind the narrow ones, whose parents may be among them.
fn join_wide(
    row: &mut Vec<u32>,
    narrow: &RowBlocks<u16>,
    wide: &RowBlocks<u32>,
    on: &[usize],
    branch: usize,
    end: u32,
)
    requires room { narrow.now.width ≤ vec_capacity row.old }
    requires same { wide.now.width ≡ narrow.now.width }
    requires places { AllByRecursion (HasOwn narrow.now wide.now) on.now }
    ensures len { length row.new.items ≡ narrow.now.width }
    ensures each { (b : ℕ) → b < narrow.now.width →
        slice_index row.new.items b ≡ next_in narrow.now wide.now on.now branch end b }
{
    let members = narrow.width();
    row.clear();
    for place in on {
        raise_own(row, row_in(narrow, wide, *place));
    }
    row.resize(members, 0).unwrap();
    if branch < members {
        row[branch] = end;
    }
}

/// Raises the row to these numbers. It becomes as long as they are, if it is shorter.
fn raise_narrow(row: &mut Vec<u16>, others: &[u16])
    requires { length others.now ≤ vec_capacity row.old }
    ensures len { length row.new.items ≡ max (length row.old.items) (length others.now) }
    ensures each { (k : ℕ) → slice_index row.new.items k ≡ max (slice_index row.old.items k) (slice_index others.now k) }
    ensures capacity { vec_capacity row.old ≤ vec_capacity row.new }
{
    let both = row.len().min(others.len());
    raise_first_narrow(row, &others[..both]);
    if both < others.len() {
        row.extend_from_slice(&others[both..]).unwrap();
    }
}

/// Raises as many of the first numbers as there are others.
fn raise_first_narrow(row: &mut [u16], others: &[u16])
    requires { length others.now ≤ length row.old }
    ensures len { length row.new ≡ length row.old }
    ensures each { (b : ℕ) → slice_index row.new b ≡ max (slice_index row.old b) (slice_index others.now b) }
{
    narrow::max_into(&mut row[..others.len()], others);
}

/// The same of numbers of either width.
fn raise_own(row: &mut Vec<u32>, others: Counts<'_>)
    requires { length (numbers_of others) ≤ vec_capacity row.old }
    ensures len { length row.new.items ≡ max (length row.old.items) (length (numbers_of others.entry)) }
    ensures each { (k : ℕ) → slice_index row.new.items k ≡
        max (slice_index row.old.items k) (slice_index (numbers_of others.entry) k) }
    ensures capacity { vec_capacity row.old ≤ vec_capacity row.new }
{
    match others {
        Counts::Narrow(others) => raise_from_narrow(row, others),
        Counts::Wide(others) => raise_row(row, others),
    }
}

/// The same of numbers of 16 bits.
fn raise_from_narrow(row: &mut Vec<u32>, others: &[u16])
    requires { length others.now ≤ vec_capacity row.old }
    ensures len { length row.new.items ≡ max (length row.old.items) (length others.now) }
    ensures each { (k : ℕ) → slice_index row.new.items k ≡ max (slice_index row.old.items k) (slice_index others.now k) }
    ensures capacity { vec_capacity row.old ≤ vec_capacity row.new }
{
    row.resize(row.len().max(others.len()), 0).unwrap();
    raise_lanes(row, others);
}

/// Raises as many of the first numbers as there are others.
fn raise_lanes(row: &mut [u32], others: &[u16])
    requires { length others.now ≤ length row.old }
    ensures len { length row.new ≡ length row.old }
    ensures each { (k : ℕ) → slice_index row.new k ≡ max (slice_index row.old k) (slice_index others.now k) }
{
    for i in 0..others.len() {
        row[i] = row[i].max(u32::from(others[i]));
    }
}
