ghost use Rattle.std.specs.Prelude.{◌≡◌, ◌<◌, ◌≤◌, ◌+◌, ◌*◌, [], ◌++◌, length, take, drop, IfOk, OnOk, OnErr};
ghost use Rattle.std.specs.List.{AllByRecursion};
ghost use Rattle.hg_blocks.specs.Rows.{HasRows, IsRow, SealsRows, joined_rows};

use hg_model::Memory;
use std::alloc::Global;
use std::marker::Model;
use std::mem;
use std::sync::Arc;

/// Rows of so many numbers each, one after the other, in sealed blocks of 64 rows, which prefixes share, and an open tail of
/// at most 64.
#[derive(Drop)]
pub struct RowBlocks<T> {
    width: usize,
    sealed: Vec<Arc<Vec<T>>>,
    tail: Vec<T>,
}

impl<T> Model for RowBlocks<T> {
    ghost use Rattle.std.specs.Prelude.{vec_capacity};
    ghost use Rattle.hg_blocks.specs.Rows.{HoldsRows, RowsWithRoom, joined_rows, row_room};

    ghost Value = { RowsWithRoom T };

    ghost view = { λ s. record { width = s.width; numbers = joined_rows s.sealed.items s.tail.items; room = row_room s.width s.tail.items (vec_capacity s.tail) } };

    ghost invariant = { λ s. HoldsRows s.width s.sealed.items s.tail.items };
}

impl<T: Copy> RowBlocks<T> {
    /// No rows of so many numbers. Takes no memory.
    pub fn new(alloc: Global, width: usize) -> RowBlocks<T>
        ensures numbers { result.numbers ≡ [] }
        ensures width { result.width ≡ width }
    {
        RowBlocks {
            width,
            sealed: Vec::new(alloc),
            tail: Vec::new(alloc),
        }
    }

    /// How many numbers a row has.
    pub fn width(&self) -> usize
        ensures { result ≡ self.now.width }
    {
        self.width
    }

    /// Row `x`.
    pub fn row(&self, x: usize) -> &[T]
        requires { x * self.now.width + self.now.width ≤ length self.now.numbers }
        ensures value { IsRow self.now.width self.now.numbers x result.now }
        ensures len { length result.now ≡ self.now.width }
    {
        row_in(
            chunk(&self.sealed, &self.tail, self.width, x / 64),
            self.width,
            x % 64,
        )
    }

    /// Takes the memory of one more row. A full tail is sealed.
    pub fn reserve(&mut self) -> Result<(), Memory>
        ensures room { OnOk result (1 ≤ self.new.room) }
        ensures numbers { self.new.numbers ≡ self.old.numbers }
        ensures width { self.new.width ≡ self.old.width }
    {
        let whole = self.width.saturating_mul(64);
        if self.tail.len() < whole && whole <= self.tail.capacity() {
            return Ok(());
        }
        self.reserve_block()
    }

    /// The same where there is no such memory yet. A call of its own, so that the other case is short.
    #[inline(never)]
    fn reserve_block(&mut self) -> Result<(), Memory>
        ensures room { OnOk result (1 ≤ self.new.room) }
        ensures numbers { self.new.numbers ≡ self.old.numbers }
        ensures width { self.new.width ≡ self.old.width }
    {
        let Some(whole) = self.width.checked_mul(64) else {
            return Err(Memory);
        };
        if self.tail.len() == whole && whole > 0 {
            seal(&mut self.sealed, &mut self.tail)?;
        }
        self.tail.reserve(whole - self.tail.len())?;
        Ok(())
    }

    /// One more row. Takes no memory.
    pub fn push(&mut self, row: &[T])
        requires room { 1 ≤ self.old.room }
        requires whole { length row.now ≡ self.old.width }
        ensures numbers { self.new.numbers ≡ self.old.numbers ++ row.now }
        ensures width { self.new.width ≡ self.old.width }
    {
        self.tail.extend_from_slice(row).unwrap();
    }

    /// The first `len` rows, as a value of its own: it shares the sealed blocks, and copies at most 64 rows.
    pub fn prefix(&self, len: usize) -> Result<RowBlocks<T>, Memory>
        requires { len * self.now.width ≤ length self.now.numbers }
        ensures numbers { IfOk result (λ first. first.numbers ≡ take (len * self.now.width) self.now.numbers) }
        ensures width { IfOk result (λ first. first.width ≡ self.now.width) }
    {
        let alloc = *self.tail.allocator();
        let whole = (len.saturating_sub(1) / 64).min(self.sealed.len());
        let open = chunk(&self.sealed, &self.tail, self.width, whole);
        let open = first_rows(open, self.width, len - 64 * whole);
        Ok(RowBlocks {
            width: self.width,
            sealed: Vec::from_clones(alloc, &self.sealed[..whole])?,
            tail: Vec::from_slice(alloc, open)?,
        })
    }
}

/// The numbers of sealed block number `block`, or those of the tail behind the last one.
fn chunk<'a, T>(sealed: &'a [Arc<Vec<T>>], tail: &'a [T], width: usize, block: usize) -> &'a [T]
    requires full { AllByRecursion (HasRows width) sealed.now }
    requires few { length tail.now ≤ 64 * width }
    requires place { 0 < width → block ≤ length sealed.now }
    ensures { result.now ≡ take (64 * width) (drop (64 * width * block) (joined_rows sealed.now tail.now)) }
{
    if block < sealed.len() {
        sealed[block].as_slice()
    } else {
        tail
    }
}

/// Row `i` of these numbers.
fn row_in<T>(numbers: &[T], width: usize, i: usize) -> &[T]
    requires { i * width + width ≤ length numbers.now }
    ensures { result.now ≡ take width (drop (i * width) numbers.now) }
{
    let start = i * width;
    &numbers[start..start + width]
}

/// The first rows of these numbers.
fn first_rows<T>(numbers: &[T], width: usize, count: usize) -> &[T]
    requires { count * width ≤ length numbers.now }
    ensures { result.now ≡ take (count * width) numbers.now }
{
    &numbers[..count * width]
}

/// Seals a full tail: a block more, and an empty tail without memory. After want of memory it is as it was.
fn seal<T: Drop>(sealed: &mut Vec<Arc<Vec<T>>>, tail: &mut Vec<T>) -> Result<(), Memory>
    ensures same { joined_rows sealed.new.items tail.new.items ≡ joined_rows sealed.old.items tail.old.items }
    ensures sealed { OnOk result (SealsRows sealed.old.items sealed.new.items tail.old.items) }
    ensures empty { OnOk result (tail.new.items ≡ []) }
    ensures err { OnErr result ((sealed.new.items ≡ sealed.old.items) × (tail.new.items ≡ tail.old.items)) }
{
    sealed.reserve(1)?;
    let alloc = *tail.allocator();
    let full = mem::replace(tail, Vec::new(alloc));
    match Arc::new(alloc, full) {
        Ok(block) => {
            sealed.push_reserved(block);
            Ok(())
        }
        Err(refused) => {
            *tail = refused.value;
            Err(Memory)
        }
    }
}
