ghost use Rattle.std.specs.Prelude.{◌≡◌, ◌<◌, ◌≤◌, None, length, IfOk, OnErr};
ghost use Rattle.std.specs.Io.KnownBytes.{ReadConsumes};
ghost use Rattle.hg_io.specs.Faults.{Rose};

use hg_io::{Failed, Source};
use std::io::Read;

/// A standard stream as a source. It tells nothing of what is to come.
#[derive(Drop)]
pub struct Incoming<R> {
    stream: R,
    faults: u64,
}

impl<R: Read> Incoming<R> {
    /// The stream as a source that has not failed yet.
    pub fn new(stream: R) -> Incoming<R>
        ensures stream { result.stream ≡ stream }
        ensures faults { result.faults ≡ 0 }
    {
        Incoming { stream, faults: 0 }
    }
}

impl<R: Read> Source for Incoming<R> {
    ghost left = { λ _. None };

    ghost faults = { λ s. s.faults };

    fn read(&mut self, buf: &mut [u8]) -> Result<usize, Failed>
        requires { 0 < length buf.old }
        // Of a stream that tells what is to come: its next bytes, none only at its end, and nothing is lost at `Failed`.
        ensures bytes { ReadConsumes (R.remaining self.old.stream) (R.remaining self.new.stream) result buf.new }
        // With this, all that the trait ensures.
        ensures within { IfOk result (λ k. k ≤ length buf.new) }
        ensures cause { OnErr result (Rose self.old.faults self.new.faults) }
        ensures counts { self.old.faults ≤ self.new.faults }
    {
        match self.stream.read(buf) {
            Ok(count) => Ok(count),
            Err(_) => {
                self.faults = self.faults.saturating_add(1);
                Err(Failed)
            }
        }
    }
}
