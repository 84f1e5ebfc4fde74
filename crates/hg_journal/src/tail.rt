ghost use Rattle.std.specs.Prelude.{◌≡◌, ◌+◌, ◌<◌, ◌≤◌, ◌^◌, [], ℕ, List, IfOk, OnErr, OnOk, is_some, length, string_bytes, vec_capacity};
ghost use Rattle.std.specs.Bool.{Decides};
ghost use Rattle.std.specs.Option.{ForSome};
ghost use Rattle.hg_io.specs.Faults.{Rose};
ghost use Rattle.hg_io.specs.FileView.{IsSynced};
ghost use Rattle.hg_journal.specs.Batches.{BatchKeeps, BatchStores, PendingKeeps, PendingStores, joined};
ghost use Rattle.hg_journal.specs.Faults.{DiskFrame};
ghost use Rattle.hg_journal.specs.Records.{spelled};

use crate::ahead::BODY;
use crate::appending::{append, spell};
use hg_io::{Disk, Failed};
use hg_model::Memory;
use hg_sign::Signer;
use std::alloc::Global;
use std::marker::Model;

/// Memory for any record with a closed gate behind it, in bytes.
pub(crate) const ROOM: usize = BODY + 4;

/// Behind more bytes of records than these there may be no room for another one.
const FULL: usize = 64_000;

/// The end of a journal: its file's name, the place of the closed gate in bytes, and memory for the records that are stored
/// next.
#[derive(Drop)]
pub(crate) struct Tail {
    name: String,
    gate: u64,
    buffer: Vec<u8>,
}

impl Model for Tail {
    ghost use Rattle.std.specs.Prelude.{◌≤◌, string_bytes, vec_capacity};
    ghost use Rattle.hg_journal.specs.Stored.{TailView};

    ghost Value = { TailView };

    ghost view = { λ s. record { name = string_bytes s.name; gate = s.gate; records = s.buffer.items } };

    ghost invariant = { λ s. 65539 ≤ vec_capacity s.buffer };
}

/// Memory for the name of a file, and for records.
pub(crate) fn room_for(alloc: Global, name: &str) -> Result<(String, Vec<u8>), Memory>
    ensures name { IfOk result (λ room. string_bytes room.0 ≡ name.now) }
    ensures buffer { IfOk result (λ room. length room.1.items ≡ 65539) }
{
    let copy = String::from_str(alloc, name)?;
    let buffer = vec![in alloc; 0; ROOM]?;
    Ok((copy, buffer))
}

impl Tail {
    /// The end of a journal whose closed gate is at this place.
    pub(crate) fn new(name: String, gate: u64, mut buffer: Vec<u8>) -> Tail
        requires { 65539 ≤ vec_capacity buffer }
        ensures { result ≡ record { name = string_bytes name; gate = gate; records = [] } }
    {
        buffer.clear();
        Tail { name, gate, buffer }
    }

    /// Whether there may be no room for another record.
    pub(crate) fn is_full(&self) -> bool
        ensures { Decides result (64000 < length self.now.records) }
    {
        self.buffer.len() > FULL
    }

    /// Adds a record to those that are stored next.
    pub(crate) fn add(&mut self, kind: u8, body: &[u8])
        requires small { length body.now < 65536 }
        requires room { length self.old.records + 4 + length body.now ≤ 65539 }
        ensures { self.new ≡ record {
          name = self.old.name;
          gate = self.old.gate;
          records = joined self.old.records (spelled kind body.now);
        } }
    {
        spell(&mut self.buffer, kind, body);
    }

    // Stores the records as one piece behind the closed gate.
    fn store_batch<V: Signer, D: Disk>(&mut self, disk: &mut D) -> Result<(), Failed>
        requires started { D.At disk.old self.old.name }
        requires room { length self.old.records < 65539 }
        requires near { self.old.gate < 2 ^ 62 }
        requires synced { IsSynced (D.file disk.old) }
        requires within { ForSome (D.file disk.old).reads (λ bytes. self.old.gate < length bytes) }
        ensures name { self.new.name ≡ self.old.name }
        ensures gate { OnOk result (self.new.gate ≡ self.old.gate + 1 + length self.old.records) }
        ensures gone { self.new.records ≡ [] }
        ensures stored { OnOk result
            (BatchStores V.accepts self.old.records (D.file disk.old) (D.file disk.new) self.old.gate self.new.gate) }
        ensures keeps { BatchKeeps V.accepts self.old.records (D.file disk.old) (D.file disk.new) self.old.gate }
        ensures frame { DiskFrame D.Disk self.old.name disk.old disk.new }
        ensures cause { OnErr result (Rose (D.faults disk.old self.old.name) (D.faults disk.new self.old.name)) }
    {
        self.buffer.push(0).unwrap();
        let stored = append(disk, self.name.as_str(), self.gate, &self.buffer);
        let count = self.buffer.len() as u64;
        self.buffer.clear();
        stored?;
        self.gate += count;
        Ok(())
    }

    /// Stores the records, if there are any, at once behind the closed gate. None are left then, whatever is answered.
    pub(crate) fn store<V: Signer, D: Disk>(&mut self, disk: &mut D) -> Result<(), Failed>
        requires started { D.At disk.old self.old.name }
        requires room { length self.old.records < 65539 }
        requires near { self.old.gate < 2 ^ 62 }
        requires synced { IsSynced (D.file disk.old) }
        requires within { ForSome (D.file disk.old).reads (λ bytes. self.old.gate < length bytes) }
        ensures name { self.new.name ≡ self.old.name }
        ensures gone { self.new.records ≡ [] }
        ensures stored { OnOk result
            (PendingStores V.accepts self.old.records (D.file disk.old) (D.file disk.new) self.old.gate self.new.gate) }
        ensures keeps { PendingKeeps V.accepts self.old.records (D.file disk.old) (D.file disk.new) self.old.gate }
        ensures idle { self.old.records ≡ [] → OnOk result ((self.new ≡ self.old) × (disk.new ≡ disk.old)) }
        ensures frame { DiskFrame D.Disk self.old.name disk.old disk.new }
        ensures cause { OnErr result (Rose (D.faults disk.old self.old.name) (D.faults disk.new self.old.name)) }
    {
        if self.buffer.is_empty() {
            return Ok(());
        }
        self.store_batch::<V, D>(disk)
    }
}
