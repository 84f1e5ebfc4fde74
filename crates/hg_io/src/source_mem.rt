ghost use Rattle.std.specs.Prelude.{◌≡◌, ◌↔◌, ◌<◌, ◌≤◌, ◌++◌, [], Contains, Some, IfOk, IsErr, OnErr, drop, length, min, take};
ghost use Rattle.hg_io.specs.Faults.{Rose};
ghost use Rattle.hg_io.specs.SourceState.{after_give, given_count, new_source};

use crate::failed::Failed;
use crate::source::Source;
use std::marker::Model;

/// A source in memory, which fails at the calls that it was made to fail at.
#[derive(Drop)]
pub struct SourceMem {
    bytes: Vec<u8>,
    at: usize,
    most: usize,
    fails: Vec<u64>,
    calls: u64,
    faults: u64,
}

impl Model for SourceMem {
    ghost use Rattle.std.specs.Prelude.{◌≤◌, drop, vec_len};
    ghost use Rattle.hg_io.specs.SourceState.{SourceState};

    ghost Value = { SourceState };

    ghost view = { λ s. record {
      left = drop s.at s.bytes.items;
      most = s.most;
      fails = s.fails.items;
      calls = s.calls;
      faults = s.faults;
    } };

    ghost invariant = { λ s. (s.at ≤ vec_len s.bytes) × (1 ≤ s.most) };
}

impl SourceMem {
    /// A source of these bytes, of which it gives at most `most` in a call. The calls with the numbers of `fails` fail,
    /// counted from 0. Takes no memory.
    pub fn new(bytes: Vec<u8>, most: usize, fails: Vec<u64>) -> SourceMem
        requires { 1 ≤ most }
        ensures made { result ≡ new_source bytes.items most fails.items }
        ensures left { ⟦<SourceMem as Source>⟧.left result ≡ Some bytes.items }
        ensures faults { ⟦<SourceMem as Source>⟧.faults result ≡ 0 }
    {
        SourceMem {
            bytes,
            at: 0,
            most,
            fails,
            calls: 0,
            faults: 0,
        }
    }
}

// Copies the first bytes to the front of the buffer, as many as there are, fit and may be, and answers how many.
fn copy_front(buf: &mut [u8], bytes: &[u8], most: usize) -> usize
    ensures count { result ≡ min (length bytes.now) (min (length buf.old) most) }
    ensures copied { buf.new ≡ take result bytes.now ++ drop result buf.old }
{
    let count = bytes.len().min(buf.len().min(most));
    buf[..count].copy_from_slice(&bytes[..count]);
    count
}

impl Source for SourceMem {
    ghost left = { λ s. Some s.left };

    ghost faults = { λ s. s.faults };

    fn read(&mut self, buf: &mut [u8]) -> Result<usize, Failed>
        requires { 0 < length buf.old }
        ensures fails { IsErr result ↔ (Contains self.old.fails self.old.calls) }
        ensures amount { IfOk result (λ k. k ≡ given_count self.old (length buf.old)) }
        ensures bytes { IfOk result (λ k. buf.new ≡ take k self.old.left ++ drop k buf.old) }
        ensures after { self.new ≡ after_give self.old result }
        // With these, all that the trait ensures.
        ensures end { IfOk result (λ k. k ≡ 0 → self.new.left ≡ []) }
        ensures cause { OnErr result (Rose self.old.faults self.new.faults) }
        ensures counts { self.old.faults ≤ self.new.faults }
    {
        let call = self.calls;
        self.calls = call.saturating_add(1);
        if self.fails.contains(&call) {
            self.faults = self.faults.saturating_add(1);
            return Err(Failed);
        }
        let count = copy_front(buf, &self.bytes[self.at..], self.most);
        self.at += count;
        Ok(count)
    }
}
