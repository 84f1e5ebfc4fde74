ghost use Rattle.std.specs.Prelude.{◌≡◌, ◌<◌, ◌≤◌, ℕ, [], List, Option, length, take, IfOk, IfSome, OnErr};
ghost use Rattle.hg_io.specs.Bytes.{TakesOff};
ghost use Rattle.hg_io.specs.Faults.{Rose};

use crate::failed::Failed;

/// What gives the bytes of a stream, one after the other.
pub trait Source {
    /// The bytes that are still to come, where it tells them.
    ghost left: { Self → Option (List ℕ) };

    /// How often it failed so far.
    ghost faults: { Self → ℕ };

    /// Puts the next bytes to the front of the buffer and answers how many they are: none only at the stream's end.
    /// At `Failed` the same bytes are still to come.
    fn read(&mut self, buf: &mut [u8]) -> Result<usize, Failed>
        requires { 0 < length buf.old }
        ensures within { IfOk result (λ k. k ≤ length buf.new) }
        ensures next { IfOk result (λ k. TakesOff (left self.old) (left self.new) (take k buf.new)) }
        ensures end { IfOk result (λ k. k ≡ 0 → IfSome (left self.new) (λ rest. rest ≡ [])) }
        ensures none { OnErr result (left self.new ≡ left self.old) }
        ensures cause { OnErr result (Rose (faults self.old) (faults self.new)) }
        ensures counts { faults self.old ≤ faults self.new };
}
