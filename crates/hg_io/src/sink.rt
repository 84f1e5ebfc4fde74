ghost use Rattle.std.specs.Prelude.{◌≡◌, ◌<◌, ◌≤◌, ℕ, List, Option, length, take, IfOk, OnErr};
ghost use Rattle.hg_io.specs.Faults.{Rose};
ghost use Rattle.hg_io.specs.Bytes.{Appends};

use crate::failed::Failed;

/// What takes bytes, one after the other, as a file or a terminal does.
pub trait Sink {
    /// The bytes that it took so far, where it tells them.
    ghost written: { Self → Option (List ℕ) };

    /// How often it failed so far.
    ghost faults: { Self → ℕ };

    /// Takes bytes from the front of the piece and answers how many they are: at least one, unless the piece is
    /// empty. At `Failed` it took none.
    fn write(&mut self, piece: &[u8]) -> Result<usize, Failed>
        ensures within { IfOk result (λ k. k ≤ length piece.now) }
        ensures some { IfOk result (λ k. 0 < length piece.now → 0 < k) }
        ensures taken { IfOk result (λ k. Appends (written self.old) (written self.new) (take k piece.now)) }
        ensures none { OnErr result (written self.new ≡ written self.old) }
        ensures cause { OnErr result (Rose (faults self.old) (faults self.new)) }
        ensures count { faults self.old ≤ faults self.new };
}
