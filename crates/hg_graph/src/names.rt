ghost use Rattle.std.specs.Prelude.{◌≡◌, ◌+◌, ◌-◌, ◌<◌, ◌≤◌, ◌^◌, ℕ, length, replicate, [], ◌++◌, ◌∷◌, OnOk};
ghost use Rattle.hg_graph.specs.Names.{AreLater, AreLaterBelow, AreLinked, Enters, Hangs, HoldsIndex, HoldsNames, IsUnlinked, below, bucket_of, hash_of, hashed_at, hashes_of, with_below};
ghost use Rattle.hg_graph.specs.RowsWithRoom.{found_place};

use hg_blocks::Blocks;
use hg_frozen::SharedEvent;
use hg_model::{Memory, Name};
use std::alloc::Global;
use std::marker::Model;

/// How many buckets there are at first.
const FIRST_BUCKETS: usize = 64;

/// How many buckets there are at most: a row's number is a `u32`.
const MOST_BUCKETS: usize = 2_147_483_648;

/// What an index keeps of a row. The number of a row is one more than its place.
#[derive(Clone, Copy, Drop)]
pub struct HashedRow {
    /// The hash of its name.
    hash: u64,
    /// The numbers of the rows below it, or 0: one by the even digits that are left there, one by the odd.
    even: u32,
    odd: u32,
}

/// The places of rows by their names, of which it keeps hashes alone: 16 bytes for each row, and 4 to 8 for its share of
/// the buckets. Names are digests, so their first bytes spread. In a bucket the rows stand as a tree: a way goes down by
/// the binary digits of a hash, from the last one on, to where it finds no row. A maker who tries many events can have
/// names that fall into one bucket, but each further step down costs twice the tries, so that a look-up takes few.
#[derive(Drop)]
pub struct NameIndex {
    /// For each bucket the number of its first row, or 0. There is a power of two of them.
    heads: Vec<u32>,
    /// The rows, each hashed.
    hashed: Vec<HashedRow>,
}

impl Model for NameIndex {
    ghost use Rattle.std.specs.Prelude.{length, vec_capacity};
    ghost use Rattle.hg_graph.specs.Names.{HashesWithRoom, HoldsIndex, hashes_of, index_room};

    ghost Value = { HashesWithRoom };

    ghost view = { λ s. record { hashes = hashes_of s.hashed.items; room = index_room (length s.heads.items) (vec_capacity s.hashed) (length s.hashed.items) } };

    ghost invariant = { λ s. HoldsIndex s.heads.items s.hashed.items };
}

impl NameIndex {
    /// No rows. Takes no memory.
    pub fn new(alloc: Global) -> NameIndex
        ensures { result.hashes ≡ [] }
    {
        NameIndex {
            heads: Vec::new(alloc),
            hashed: Vec::new(alloc),
        }
    }

    /// The place of the row with this name among these, if there is one.
    pub fn place_of(&self, events: &Blocks<SharedEvent>, name: &Name) -> Option<usize>
        requires { HoldsNames events.now.items self.now.hashes }
        ensures { result ≡ found_place events.now.items name.now }
    {
        find(&self.heads, &self.hashed, events, name)
    }

    /// Whether the row at a place may have this name, by its hash. No clause speaks of it.
    pub fn may_be(&self, x: usize, name: &Name) -> bool {
        x < self.hashed.len() && self.hashed[x].hash == hash_of(name)
    }

    /// Takes the memory of one more row. Where there are as many rows as buckets, there are twice as many buckets from then on,
    /// and all rows are linked anew by their hashes: no event is looked at.
    pub fn reserve(&mut self) -> Result<(), Memory>
        ensures room { OnOk result (1 ≤ self.new.room) }
        ensures same { self.new.hashes ≡ self.old.hashes }
    {
        self.hashed.reserve(1)?;
        let buckets = self.heads.len();
        if self.hashed.len() < buckets {
            return Ok(());
        }
        let buckets = (2 * buckets).max(FIRST_BUCKETS);
        if buckets > MOST_BUCKETS {
            return Err(Memory);
        }
        let mut heads = vec![in *self.heads.allocator(); 0u32; buckets]?;
        link_all(&mut heads, &mut self.hashed);
        self.heads = heads;
        Ok(())
    }

    /// One more row, of this name. Takes no memory.
    pub fn push(&mut self, name: &Name)
        requires { 1 ≤ self.old.room }
        ensures { self.new.hashes ≡ self.old.hashes ++ hash_of name.now ∷ [] }
    {
        let hash = hash_of(name);
        let number = self.hashed.len() as u32 + 1;
        self.hashed.push_reserved(HashedRow {
            hash,
            even: 0,
            odd: 0,
        });
        enter(&mut self.heads, &mut self.hashed, hash, number);
    }
}

/// The place of the row with this name, looked for down its bucket. An event is looked at only where its name has the
/// same hash.
fn find(
    heads: &[u32],
    hashed: &[HashedRow],
    events: &Blocks<SharedEvent>,
    name: &Name,
) -> Option<usize>
    requires index { HoldsIndex heads.now hashed.now }
    requires names { HoldsNames events.now.items (hashes_of hashed.now) }
    ensures { result ≡ found_place events.now.items name.now }
{
    if heads.is_empty() {
        return None;
    }
    let hash = hash_of(name);
    let mut digits = hash;
    let mut number = heads[bucket_of(heads.len(), hash)] as usize;
    'down: while number > 0 {
        let x = number - 1;
        let hashed_row = hashed[x];
        if hashed_row.hash == hash && events[x].row().name == *name {
            return Some(x);
        }
        number = next_below(hashed_row, digits);
        digits /= 2;
    }
    None
}

/// The first eight bytes of a name, as a number.
fn hash_of(name: &Name) -> u64
    ensures { result ≡ hash_of name.now }
{
    match name.first_chunk::<8>() {
        Some(first) => u64::from_le_bytes(*first),
        None => 0,
    }
}

/// The bucket of a hash among so many, by its first half: the last digits tell the way down.
fn bucket_of(buckets: usize, hash: u64) -> usize
    requires { 0 < buckets }
    ensures value { result ≡ bucket_of buckets hash }
    ensures inside { result < buckets }
{
    (hash / 4_294_967_296) as usize & (buckets - 1)
}

/// The number of the row below this one on the way by these digits, or 0.
fn next_below(hashed_row: HashedRow, digits: u64) -> usize
    ensures { result ≡ below hashed_row digits }
{
    if digits % 2 == 0 {
        hashed_row.even as usize
    } else {
        hashed_row.odd as usize
    }
}

/// The same row with the row of this number below it on that way.
fn with_below(hashed_row: HashedRow, digits: u64, number: u32) -> HashedRow
    ensures { result ≡ with_below hashed_row digits number }
{
    if digits % 2 == 0 {
        HashedRow {
            even: number,
            ..hashed_row
        }
    } else {
        HashedRow {
            odd: number,
            ..hashed_row
        }
    }
}

/// Puts the row of this number and hash where the way down its bucket ends.
fn enter(heads: &mut [u32], hashed: &mut [HashedRow], hash: u64, number: u32)
    requires some { 0 < length heads.old }
    requires later { AreLater heads.old hashed.old (number - 1) }
    requires number { 0 < number }
    requires few { number ≤ length hashed.old }
    ensures len { length heads.new ≡ length heads.old }
    ensures entered { Enters heads.old hashed.old hash number heads.new hashed.new }
{
    let bucket = bucket_of(heads.len(), hash);
    let first = heads[bucket];
    if first == 0 {
        heads[bucket] = number;
    } else {
        hang(hashed, first as usize - 1, hash, number);
    }
}

/// Puts the row of this number below the first one, where the way by these digits ends.
fn hang(hashed: &mut [HashedRow], first: usize, hash: u64, number: u32)
    requires later { AreLaterBelow hashed.old (number - 1) }
    requires first { first + 1 < number }
    requires few { number ≤ length hashed.old }
    ensures { Hangs first hash number hashed.old hashed.new }
{
    let mut x = first;
    let mut digits = hash;
    'down: loop {
        let hashed_row = hashed[x];
        let next = next_below(hashed_row, digits);
        if next == 0 {
            hashed[x] = with_below(hashed_row, digits, number);
            return;
        }
        x = next - 1;
        digits /= 2;
    }
}

/// Links all hashed rows anew, in buckets that are empty.
fn link_all(heads: &mut [u32], hashed: &mut [HashedRow])
    requires some { 0 < length heads.old }
    requires empty { heads.old ≡ replicate (length heads.old) 0 }
    requires few { length hashed.old ≤ 2 ^ 31 }
    ensures same { hashes_of hashed.new ≡ hashes_of hashed.old }
    ensures len { length heads.new ≡ length heads.old }
    ensures linked { AreLinked heads.new hashed.new (length hashed.new) }
{
    unlink(hashed);
    for x in 0..hashed.len() {
        let hash = hashed[x].hash;
        enter(heads, hashed, hash, x as u32 + 1);
    }
}

/// Leaves no row below another.
fn unlink(hashed: &mut [HashedRow])
    ensures same { hashes_of hashed.new ≡ hashes_of hashed.old }
    ensures long { length hashed.new ≡ length hashed.old }
    ensures each { (x : ℕ) → x < length hashed.new → IsUnlinked (hashed_at hashed.new x) }
{
    for x in 0..hashed.len() {
        let hash = hashed[x].hash;
        hashed[x] = HashedRow {
            hash,
            even: 0,
            odd: 0,
        };
    }
}
