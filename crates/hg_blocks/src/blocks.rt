ghost use Rattle.std.specs.Prelude.{◌≡◌, ◌<◌, ◌≤◌, ◌+◌, ◌-◌, ◌*◌, ◌/◌, List, [], ◌∷◌, ◌++◌, length, take, drop, slice_index_or, IfOk, OnOk};
ghost use Rattle.std.specs.List.{flat_map};
ghost use Rattle.hg_blocks.specs.Joined.{IsSplit, items_of, joined};

use crate::block::Block;
use crate::tail::Tail;
use hg_model::Memory;
use std::alloc::Global;
use std::marker::Model;
use std::mem;
use std::ops::Index;
use std::sync::Arc;

/// Items in sealed blocks of 64, which prefixes share, and an open tail of at most 64.
#[derive(Drop)]
pub struct Blocks<T> {
    len: usize,
    sealed: Vec<Arc<Block<T>>>,
    tail: Vec<T>,
}

impl<T> Model for Blocks<T> {
    ghost use Rattle.std.specs.Prelude.{length, vec_capacity};
    ghost use Rattle.hg_blocks.specs.Joined.{HoldsItems, WithRoom, joined, room_by};

    ghost Value = { WithRoom T };

    ghost view = { λ s. record { items = joined s.sealed.items s.tail.items; room = room_by s.len s.tail.items (vec_capacity s.tail); sealed = length s.sealed.items; tail = length s.tail.items } };

    ghost invariant = { λ s. HoldsItems s.len s.sealed.items s.tail.items };
}

impl<T> Blocks<T> {
    /// No items. Takes no memory.
    pub fn new(alloc: Global) -> Blocks<T>
        ensures { result.items ≡ [] }
    {
        Blocks {
            len: 0,
            sealed: Vec::new(alloc),
            tail: Vec::new(alloc),
        }
    }

    /// The items of these blocks, and then those of the tail; all of them are so many. Takes no memory.
    pub fn of(sealed: Vec<Arc<Block<T>>>, tail: Tail<T>, len: usize) -> Blocks<T>
        requires { len ≡ length (joined sealed.items tail) }
        ensures items { result.items ≡ joined sealed.items tail }
        ensures sealed { result.sealed ≡ length sealed.items }
        ensures tail { result.tail ≡ length tail }
    {
        Blocks {
            len,
            sealed,
            tail: tail.into_vec(),
        }
    }

    /// The sealed blocks, and the tail.
    pub fn into_parts(self) -> (Vec<Arc<Block<T>>>, Tail<T>)
        ensures items { joined result.0.items result.1 ≡ self.items }
        ensures sealed { length result.0.items ≡ self.sealed }
        ensures tail { length result.1 ≡ self.tail }
    {
        (self.sealed, Tail::of(self.tail))
    }

    /// How many items there are.
    pub fn len(&self) -> usize
        ensures { result ≡ length self.now.items }
    {
        self.len
    }

    /// How many blocks are sealed.
    pub fn sealed(&self) -> usize
        ensures value { result ≡ self.now.sealed }
        ensures split { IsSplit (length self.now.items) self.now.sealed self.now.tail }
    {
        self.sealed.len()
    }

    /// How many items are in the tail: those that are in no sealed block.
    pub fn tail_len(&self) -> usize
        ensures value { result ≡ self.now.tail }
        ensures split { IsSplit (length self.now.items) self.now.sealed self.now.tail }
    {
        self.tail.len()
    }

    /// One more item. Takes no memory.
    pub fn push(&mut self, item: T)
        requires { 1 ≤ self.old.room }
        ensures { self.new.items ≡ self.old.items ++ item ∷ [] }
    {
        self.tail.push_reserved(item);
        self.len += 1;
    }
}

impl<T: Drop> Blocks<T> {
    /// Takes the memory of one more item. A full tail is sealed.
    pub fn reserve(&mut self) -> Result<(), Memory>
        ensures room { OnOk result (1 ≤ self.new.room) }
        ensures same { self.new.items ≡ self.old.items }
    {
        if self.tail.len() < self.tail.capacity().min(64) && self.len < usize::MAX {
            return Ok(());
        }
        self.reserve_block()
    }

    /// The same where there is no such memory yet. A call of its own, so that the other case is short.
    #[inline(never)]
    fn reserve_block(&mut self) -> Result<(), Memory>
        ensures room { OnOk result (1 ≤ self.new.room) }
        ensures same { self.new.items ≡ self.old.items }
    {
        if self.len == usize::MAX {
            return Err(Memory);
        }
        if self.tail.len() == 64 {
            seal(&mut self.sealed, &mut self.tail)?;
        }
        self.tail.reserve(64 - self.tail.len())?;
        Ok(())
    }
}

impl<T: Copy> Blocks<T> {
    /// The first `len` items, as a value of its own: it shares the sealed blocks, and copies at most 64 items.
    pub fn prefix(&self, len: usize) -> Result<Blocks<T>, Memory>
        requires { len ≤ length self.now.items }
        ensures items { IfOk result (λ first. first.items ≡ take len self.now.items) }
        ensures sealed { IfOk result (λ first. first.sealed ≡ (len - 1) / 64) }
    {
        let alloc = *self.tail.allocator();
        let (sealed, open) = first_of(alloc, &self.sealed, &self.tail, len)?;
        Ok(Blocks {
            len,
            sealed,
            tail: Vec::from_slice(alloc, open)?,
        })
    }
}

impl<T: Clone> Blocks<T> {
    /// The same of items that are cloned, where a clone is equal to what it was made of.
    pub fn cloned_prefix(&self, len: usize) -> Result<Blocks<T>, Memory>
        requires equal { (x y : T) → T.is_clone x y → y ≡ x }
        requires within { len ≤ length self.now.items }
        ensures items { IfOk result (λ first. first.items ≡ take len self.now.items) }
        ensures sealed { IfOk result (λ first. first.sealed ≡ (len - 1) / 64) }
    {
        let alloc = *self.tail.allocator();
        let (sealed, open) = first_of(alloc, &self.sealed, &self.tail, len)?;
        Ok(Blocks {
            len,
            sealed,
            tail: Vec::from_clones(alloc, open)?,
        })
    }
}

impl<T> Index<usize> for Blocks<T> {
    type Output = T;

    ghost can_index = { λ blocks x. x < length blocks.items };

    ghost index_gives = { λ blocks x item. item ≡ slice_index_or blocks.items x item };

    fn index(&self, x: usize) -> &T {
        &chunk(&self.sealed, &self.tail, x / 64)[x % 64]
    }
}

/// The items of sealed block number `block`, or those of the tail behind the last one.
fn chunk<'a, T>(sealed: &'a [Arc<Block<T>>], tail: &'a [T], block: usize) -> &'a [T]
    requires few { length tail.now ≤ 64 }
    requires place { block ≤ length sealed.now }
    ensures { result.now ≡ take 64 (drop (64 * block) (joined sealed.now tail.now)) }
{
    if block < sealed.len() {
        sealed[block].as_slice()
    } else {
        tail
    }
}

/// The first `len` items: whole blocks, each shared, and the items after them, which a tail can hold. A last block that is
/// whole is left for the tail.
fn first_of<'a, T: Drop>(
    alloc: Global,
    sealed: &'a [Arc<Block<T>>],
    tail: &'a [T],
    len: usize,
) -> Result<(Vec<Arc<Block<T>>>, &'a [T]), Memory>
    requires few { length tail.now ≤ 64 }
    requires within { len ≤ length (joined sealed.now tail.now) }
    ensures value { IfOk result (λ first. joined first.0.items first.1.now ≡ take len (joined sealed.now tail.now)) }
    ensures sealed { IfOk result (λ first. length first.0.items ≡ (len - 1) / 64) }
    ensures few { IfOk result (λ first. length first.1.now ≤ 64) }
{
    let whole = len.saturating_sub(1) / 64;
    let open = chunk(sealed, tail, whole);
    Ok((shared(alloc, &sealed[..whole])?, &open[..len - 64 * whole]))
}

/// The blocks, each shared.
fn shared<T: Drop>(alloc: Global, sealed: &[Arc<Block<T>>]) -> Result<Vec<Arc<Block<T>>>, Memory>
    ensures items { IfOk result (λ same. flat_map items_of same.items ≡ flat_map items_of sealed.now) }
    ensures len { IfOk result (λ same. length same.items ≡ length sealed.now) }
{
    Ok(Vec::from_clones(alloc, sealed)?)
}

/// Seals a full tail: a block more, and an empty tail without memory. After want of memory it is as it was.
fn seal<T: Drop>(sealed: &mut Vec<Arc<Block<T>>>, tail: &mut Vec<T>) -> Result<(), Memory>
    requires { length tail.old.items ≡ 64 }
    ensures same { joined sealed.new.items tail.new.items ≡ joined sealed.old.items tail.old.items }
    ensures few { length tail.new.items ≤ 64 }
    ensures empty { OnOk result (tail.new.items ≡ []) }
{
    sealed.reserve(1)?;
    let alloc = *tail.allocator();
    let full = mem::replace(tail, Vec::new(alloc));
    match Arc::new(alloc, Block::of(full)) {
        Ok(block) => {
            sealed.push_reserved(block);
            Ok(())
        }
        Err(refused) => {
            *tail = refused.value.into_vec();
            Err(Memory)
        }
    }
}
