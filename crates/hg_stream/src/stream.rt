ghost use Rattle.std.specs.Prelude.{◌≡◌, ◌<◌, ◌≤◌, None, length, IfOk, OnErr};
ghost use Rattle.std.specs.Io.KnownBytes.{WriteAppends};
ghost use Rattle.hg_io.specs.Faults.{Rose};

use hg_io::{Failed, Sink};
use std::io::Write;

/// A standard stream as a sink. It tells nothing of what was written.
#[derive(Drop)]
pub struct Stream<W> {
    stream: W,
    faults: u64,
}

impl<W: Write> Stream<W> {
    /// The stream as a sink that has not failed yet.
    pub fn new(stream: W) -> Stream<W>
        ensures stream { result.stream ≡ stream }
        ensures faults { result.faults ≡ 0 }
    {
        Stream { stream, faults: 0 }
    }
}

impl<W: Write> Sink for Stream<W> {
    ghost written = { λ _. None };

    ghost faults = { λ s. s.faults };

    fn write(&mut self, piece: &[u8]) -> Result<usize, Failed>
        // A stream that tells what it holds got just the bytes that are answered, and none at `Failed`.
        ensures bytes { WriteAppends (W.contents self.old.stream) (W.contents self.new.stream) result piece.now }
        // With this, all that the trait ensures.
        ensures within { IfOk result (λ k. k ≤ length piece.now) }
        ensures some { IfOk result (λ k. 0 < length piece.now → 0 < k) }
        ensures cause { OnErr result (Rose self.old.faults self.new.faults) }
        ensures count { self.old.faults ≤ self.new.faults }
    {
        match self.stream.write(piece) {
            Ok(count) if 0 < count || piece.is_empty() => Ok(count),
            _ => {
                self.faults = self.faults.saturating_add(1);
                Err(Failed)
            }
        }
    }
}
