ghost use Rattle.std.specs.Prelude.{◌≡◌, ◌↔◌, ◌<◌, ◌≤◌, Some, length, take, IfOk, IsErr, OnErr};
ghost use Rattle.hg_io.specs.SinkState.{Refuses, after_write, new_sink, taken_count};

use crate::failed::Failed;
use crate::sink::Sink;
use hg_model::Memory;
use std::alloc::Global;
use std::marker::Model;

/// A sink in memory, which fails at the calls that it was made to fail at, and where its room is used up.
#[derive(Drop)]
pub struct SinkMem {
    bytes: Vec<u8>,
    room: usize,
    most: usize,
    fails: Vec<u64>,
    calls: u64,
    faults: u64,
}

impl Model for SinkMem {
    ghost use Rattle.std.specs.Prelude.{◌≤◌, vec_capacity, vec_len};
    ghost use Rattle.hg_io.specs.SinkState.{SinkState};

    ghost Value = { SinkState };

    ghost view = { λ s. record {
      bytes = s.bytes.items;
      room = s.room;
      most = s.most;
      fails = s.fails.items;
      calls = s.calls;
      faults = s.faults;
    } };

    ghost invariant = { λ s. (vec_len s.bytes ≤ s.room) × (s.room ≤ vec_capacity s.bytes) × (1 ≤ s.most) };
}

impl SinkMem {
    /// A sink that takes `room` bytes in all and at most `most` of them in a call. The calls with these numbers fail,
    /// counted from 0. The room is reserved here, and no call takes memory.
    pub fn new(alloc: Global, room: usize, most: usize, fails: Vec<u64>) -> Result<SinkMem, Memory>
        requires { 1 ≤ most }
        ensures { IfOk result (λ s. s ≡ new_sink room most fails.items) }
    {
        let bytes = Vec::with_capacity(alloc, room)?;
        Ok(SinkMem {
            bytes,
            room,
            most,
            fails,
            calls: 0,
            faults: 0,
        })
    }

    /// The bytes that it took so far.
    pub fn bytes(&self) -> &[u8]
        ensures written { ⟦<SinkMem as Sink>⟧.written self.now ≡ Some result.now }
    {
        self.bytes.as_slice()
    }
}

impl Sink for SinkMem {
    ghost written = { λ s. Some s.bytes };

    ghost faults = { λ s. s.faults };

    fn write(&mut self, piece: &[u8]) -> Result<usize, Failed>
        ensures fails { IsErr result ↔ (Refuses self.old piece.now) }
        ensures amount { IfOk result (λ k. k ≡ taken_count self.old piece.now) }
        ensures after { self.new ≡ after_write self.old piece.now result }
        // With these, all that the trait ensures.
        ensures some { IfOk result (λ k. 0 < length piece.now → 0 < k) }
        ensures count { self.old.faults ≤ self.new.faults }
    {
        let call = self.calls;
        self.calls = call.saturating_add(1);
        let free = self.room - self.bytes.len();
        if self.fails.contains(&call) || (free == 0 && !piece.is_empty()) {
            self.faults = self.faults.saturating_add(1);
            return Err(Failed);
        }
        let count = piece.len().min(self.most).min(free);
        self.bytes.extend_from_slice(&piece[..count]).unwrap();
        Ok(count)
    }
}
