ghost use Rattle.std.specs.Prelude.{◌≡◌, ◌↔◌, ◌<◌, ◌≤◌, ◌+◌, ◌++◌, ◌∷◌, [], ℕ, List, Contains, Some, IfOk, IsErr, IsTrue, drop, if◌then◌else◌, length, min, take, vec_capacity, OnOk};
ghost use Rattle.hg_io.specs.DiskState.{RefusesSync, RefusesWrite, after_look, after_ok, after_sync, after_write, file_of, left_of, new_disk, reads};
ghost use Rattle.hg_io.specs.Faults.{raised};
ghost use Rattle.hg_io.specs.FileView.{IsSynced, Leaves, Stays, TornFrom, with_piece};
ghost use Rattle.hg_io.specs.Pending.DiskCall.{Wrote, Synced};

use crate::disk::Disk;
use crate::failed::Failed;
use crate::shelf_mem::copy_from;
use hg_model::Memory;
use std::alloc::Global;
use std::marker::Model;

// A call that changed the file or what a stop may leave of it.
#[derive(Clone, Copy)]
enum Done {
    // It wrote so many bytes at this place: the next of the pieces.
    Wrote { at: usize, len: usize },
    Synced,
}

/// A disk in memory with one file, which any name starts. It fails at the calls that it was made to fail at, and where
/// its room is used up; a call that fails changes nothing of the file.
#[derive(Drop)]
pub struct DiskMem {
    first: Vec<u8>,
    bytes: Vec<u8>,
    synced: Vec<u8>,
    pieces: Vec<u8>,
    done: Vec<Done>,
    room: usize,
    fails: Vec<u64>,
    calls: u64,
    faults: u64,
}

impl Model for DiskMem {
    ghost use Rattle.std.specs.Prelude.{◌≤◌, ◌+◌, length, vec_capacity};
    ghost use Rattle.hg_io.specs.DiskState.{DiskState};
    ghost use Rattle.hg_io.specs.Recorded.{IsRecorded, calls_of};

    ghost Value = { DiskState };

    ghost view = { λ s. record {
      first = s.first.items;
      done = calls_of s.pieces.items s.done.items;
      used = length s.first.items + length s.pieces.items;
      room = s.room;
      fails = s.fails.items;
      calls = s.calls;
      faults = s.faults;
    } };

    ghost invariant = { λ s. IsRecorded s.first.items s.bytes.items s.synced.items s.pieces.items s.done.items
        × (length s.synced.items ≤ length s.bytes.items)
        × (length s.bytes.items ≤ length s.first.items + length s.pieces.items)
        × (length s.first.items + length s.pieces.items ≤ s.room)
        × (s.room ≤ vec_capacity s.first)
        × (s.room ≤ vec_capacity s.bytes)
        × (s.room ≤ vec_capacity s.synced)
        × (s.room ≤ vec_capacity s.pieces)
        × (s.room ≤ vec_capacity s.done) };
}

// Puts the piece over the bytes from this place on, and its rest behind them.
fn overwrite(bytes: &mut Vec<u8>, at: usize, piece: &[u8])
    requires within { at ≤ length bytes.old.items }
    requires room { at + length piece.now ≤ vec_capacity bytes.old }
    ensures after { bytes.new.items ≡ with_piece at piece.now bytes.old.items }
    ensures room { vec_capacity bytes.old ≤ vec_capacity bytes.new }
{
    if piece.len() < bytes.len() - at {
        bytes[at..at + piece.len()].copy_from_slice(piece);
    } else {
        bytes.truncate(at);
        bytes.extend_from_slice(piece).unwrap();
    }
}

// Makes one list of bytes the same as another.
fn set_to(bytes: &mut Vec<u8>, other: &[u8])
    requires { length other.now ≤ vec_capacity bytes.old }
    ensures after { bytes.new.items ≡ other.now }
    ensures room { vec_capacity bytes.old ≤ vec_capacity bytes.new }
{
    bytes.clear();
    bytes.extend_from_slice(other).unwrap();
}

// Makes both the same as the first, or as the second, which is no longer.
fn set_both(bytes: &mut Vec<u8>, synced: &mut Vec<u8>, to_first: bool)
    requires shorter { length synced.old.items ≤ length bytes.old.items }
    requires room { length bytes.old.items ≤ vec_capacity synced.old }
    ensures bytes { bytes.new.items ≡ (if to_first then bytes.old.items else synced.old.items) }
    ensures synced { synced.new.items ≡ (if to_first then bytes.old.items else synced.old.items) }
    ensures short { length bytes.new.items ≤ length bytes.old.items }
    ensures bytes_room { vec_capacity bytes.old ≤ vec_capacity bytes.new }
    ensures synced_room { vec_capacity synced.old ≤ vec_capacity synced.new }
{
    if to_first {
        set_to(synced, bytes);
    } else {
        set_to(bytes, synced);
    }
}

impl DiskMem {
    /// A disk whose file is empty. The calls with the numbers of `fails` fail, counted from 0, all kinds together. There
    /// is room for so many bytes of the file and of all that is written, and for so many writes and syncs. The room is
    /// reserved here, and no call takes memory.
    pub fn new(alloc: Global, room: usize, fails: Vec<u64>) -> Result<DiskMem, Memory>
        ensures made { IfOk result (λ d. d ≡ new_disk [] room fails.items) }
        ensures empty { IfOk result (λ d. (⟦<DiskMem as Disk>⟧.file d).reads ≡ Some []) }
        ensures synced { IfOk result (λ d. IsSynced (⟦<DiskMem as Disk>⟧.file d)) }
    {
        Ok(DiskMem {
            first: Vec::with_capacity(alloc, room)?,
            bytes: Vec::with_capacity(alloc, room)?,
            synced: Vec::with_capacity(alloc, room)?,
            pieces: Vec::with_capacity(alloc, room)?,
            done: Vec::with_capacity(alloc, room)?,
            room,
            fails,
            calls: 0,
            faults: 0,
        })
    }

    /// The disk after a stop now, with the same room and nothing that is to fail. The stop leaves the file as it reads if
    /// `all` is true, or else as it was at the last sync, or when the disk was made. Takes no memory.
    pub fn stopped(mut self, all: bool) -> DiskMem
        ensures made { result ≡ new_disk (left_of self all) self.room [] }
        ensures may { (⟦<DiskMem as Disk>⟧.file self).may_leave (left_of self all) }
        ensures left { (⟦<DiskMem as Disk>⟧.file result).reads ≡ Some (left_of self all) }
        ensures synced { IsSynced (⟦<DiskMem as Disk>⟧.file result) }
    {
        set_both(&mut self.bytes, &mut self.synced, all);
        set_to(&mut self.first, &self.bytes);
        self.pieces.clear();
        self.done.clear();
        self.fails.clear();
        self.calls = 0;
        self.faults = 0;
        self
    }

    // Counts a call, and says whether it is to fail.
    fn next_fails(&mut self) -> bool
        ensures fails { IsTrue result ↔ (Contains self.old.fails self.old.calls) }
        ensures after { self.new ≡ after_ok self.old }
    {
        let call = self.calls;
        self.calls = call.saturating_add(1);
        self.fails.contains(&call)
    }

    // Counts a fault.
    fn fault(&mut self) -> Failed
        ensures after { self.new ≡ record self.old { faults = raised self.old.faults } }
        ensures counts { self.old.faults ≤ self.new.faults }
    {
        self.faults = self.faults.saturating_add(1);
        Failed
    }

    // One write or sync more can be recorded.
    fn has_record(&self) -> bool
        ensures { IsTrue result ↔ (length self.now.done < self.now.room) }
    {
        self.done.len() < self.room
    }

    // So many bytes more can be written.
    fn has_bytes(&self, len: usize) -> bool
        ensures { IsTrue result ↔ (self.now.used + len ≤ self.now.room) }
    {
        len <= self.room - self.first.len() - self.pieces.len()
    }

    fn bytes(&self) -> &[u8]
        ensures { result.now ≡ reads self.now }
    {
        self.bytes.as_slice()
    }

    // Writes the piece, for which there is room.
    fn put(&mut self, at: usize, piece: &[u8])
        requires within { at ≤ length (reads self.old) }
        requires record { length self.old.done < self.old.room }
        requires bytes { self.old.used + length piece.now ≤ self.old.room }
        ensures { self.new ≡ record self.old {
          done = self.old.done ++ Wrote at piece.now ∷ [];
          used = self.old.used + length piece.now;
        } }
    {
        self.pieces.extend_from_slice(piece).unwrap();
        self.done.push_reserved(Done::Wrote {
            at,
            len: piece.len(),
        });
        overwrite(&mut self.bytes, at, piece);
    }

    // Keeps the file as it reads, for which there is room.
    fn keep(&mut self)
        requires { length self.old.done < self.old.room }
        ensures { self.new ≡ record self.old { done = self.old.done ++ Synced ∷ [] } }
    {
        self.done.push_reserved(Done::Synced);
        set_to(&mut self.synced, &self.bytes);
    }
}

impl Disk for DiskMem {
    ghost use Rattle.std.specs.Prelude.{⊤};
    ghost use Rattle.hg_io.specs.FileLaws.{is_file};

    ghost file = { file_of };

    ghost At = { λ _ _. ⊤ };

    ghost faults = { λ d _. d.faults };

    ghost sound = { is_file };

    fn start(&mut self, _name: &str) -> Result<(), Failed>
        ensures fails { IsErr result ↔ (Contains self.old.fails self.old.calls) }
        ensures after { self.new ≡ after_look self.old result }
        // With this, all that the trait ensures.
        ensures counts { self.old.faults ≤ self.new.faults }
    {
        if self.next_fails() {
            return Err(self.fault());
        }
        Ok(())
    }

    fn size(&mut self, _name: &str) -> Result<u64, Failed>
        ensures fails { IsErr result ↔ (Contains self.old.fails self.old.calls) }
        ensures size { IfOk result (λ n. n ≡ length (reads self.old)) }
        ensures after { self.new ≡ after_look self.old result }
        // With this, all that the trait ensures.
        ensures counts { self.old.faults ≤ self.new.faults }
    {
        if self.next_fails() {
            return Err(self.fault());
        }
        Ok(self.bytes().len() as u64)
    }

    fn read(&mut self, _name: &str, at: u64, buf: &mut [u8]) -> Result<usize, Failed>
        ensures fails { IsErr result ↔ (Contains self.old.fails self.old.calls) }
        ensures amount { IfOk result (λ k. k ≡ min (length (drop at (reads self.old))) (length buf.old)) }
        ensures bytes { IfOk result (λ k. buf.new ≡ take k (drop at (reads self.old)) ++ drop k buf.old) }
        ensures after { self.new ≡ after_look self.old result }
        // With this, all that the trait ensures.
        ensures counts { self.old.faults ≤ self.new.faults }
    {
        if self.next_fails() {
            return Err(self.fault());
        }
        Ok(copy_past(buf, self.bytes(), at as usize))
    }

    fn write(&mut self, _name: &str, at: u64, piece: &[u8]) -> Result<(), Failed>
        requires within { at ≤ length (reads self.old) }
        ensures fails { IsErr result ↔ RefusesWrite self.old piece.now }
        ensures after { self.new ≡ after_write self.old at piece.now result }
        // With these, all that the trait ensures.
        ensures written { OnOk result (reads self.new ≡ with_piece at piece.now (reads self.old)) }
        ensures torn { TornFrom at (length piece.now) (file_of self.old) (file_of self.new) }
        ensures leaves { Leaves (file_of self.old) (file_of self.new) (file_of self.new).may_leave }
        ensures counts { self.old.faults ≤ self.new.faults }
    {
        if self.next_fails() || !self.has_record() || !self.has_bytes(piece.len()) {
            return Err(self.fault());
        }
        self.put(at as usize, piece);
        Ok(())
    }

    fn sync(&mut self, _name: &str) -> Result<(), Failed>
        ensures fails { IsErr result ↔ RefusesSync self.old }
        ensures after { self.new ≡ after_sync self.old result }
        // With these, all that the trait ensures.
        ensures synced { OnOk result (IsSynced (file_of self.new)) }
        ensures stays { Stays (file_of self.old) (file_of self.new) }
        ensures counts { self.old.faults ≤ self.new.faults }
    {
        if self.next_fails() || !self.has_record() {
            return Err(self.fault());
        }
        self.keep();
        Ok(())
    }
}

// Copies the bytes from this place on to the buffer, as many as there are and fit, and answers how many.
fn copy_past(buf: &mut [u8], bytes: &[u8], at: usize) -> usize
    ensures amount { result ≡ min (length (drop at bytes.now)) (length buf.old) }
    ensures copied { buf.new ≡ take result (drop at bytes.now) ++ drop result buf.old }
{
    if at < bytes.len() {
        copy_from(buf, bytes, at) - at
    } else {
        0
    }
}
