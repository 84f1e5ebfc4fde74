ghost use Rattle.std.specs.Prelude.{◌≡◌, ◌<◌, ◌≤◌, ℕ, [], List, Option, length, take, IfOk, IfSome, IsSome, OnOk, OnErr};
ghost use Rattle.hg_io.specs.Bytes.{TakesOff};
ghost use Rattle.hg_io.specs.Faults.{Rose, raised};
ghost use Rattle.hg_io.specs.Files.{Files, content_of};

use crate::failed::Failed;

/// What holds files by their names, one of which it reads at a time.
pub trait Shelf {
    /// The files, where it tells them.
    ghost holds: { Self → Option Files };

    /// The bytes of the started file that are still to come, told where `holds` is.
    ghost left: { Self → Option (List ℕ) };

    /// The file of this name is started.
    ghost At: { Self → List ℕ → Type 0 };

    /// How often it failed so far at this name.
    ghost faults: { Self → List ℕ → ℕ };

    /// How often a file was started so far, counted up to the last value of 64 bits.
    ghost starts: { Self → ℕ };

    /// Starts the file of this name from its first byte, whatever was started before. A name that is not there is a
    /// fault of that name. At `Failed` what was started stays so.
    fn start(&mut self, name: &str) -> Result<(), Failed>
        ensures there { OnOk result (IfSome (holds self.old) (λ files. IsSome (content_of files name.now))) }
        ensures whole { OnOk result (IfSome (holds self.old) (λ files. left self.new ≡ content_of files name.now)) }
        ensures started { OnOk result (At self.new name.now) }
        ensures none { OnErr result (left self.new ≡ left self.old) }
        ensures kept { OnErr result ((other : List ℕ) → At self.old other → At self.new other) }
        ensures same { holds self.new ≡ holds self.old }
        ensures cause { OnErr result (Rose (faults self.old name.now) (faults self.new name.now)) }
        ensures counts { (other : List ℕ) → faults self.old other ≤ faults self.new other }
        ensures begun { starts self.new ≡ raised (starts self.old) };

    /// Puts the next bytes of the started file to the front of the buffer and answers how many they are: none only
    /// at the file's end. At `Failed` the same bytes are still to come.
    fn read(&mut self, name: &str, buf: &mut [u8]) -> Result<usize, Failed>
        requires started { At self.old name.now }
        requires room { 0 < length buf.old }
        ensures within { IfOk result (λ k. k ≤ length buf.new) }
        ensures next { IfOk result (λ k. TakesOff (left self.old) (left self.new) (take k buf.new)) }
        ensures end { IfOk result (λ k. k ≡ 0 → IfSome (left self.new) (λ rest. rest ≡ [])) }
        ensures none { OnErr result (left self.new ≡ left self.old) }
        ensures started { At self.new name.now }
        ensures same { holds self.new ≡ holds self.old }
        ensures cause { OnErr result (Rose (faults self.old name.now) (faults self.new name.now)) }
        ensures counts { (other : List ℕ) → faults self.old other ≤ faults self.new other }
        ensures begun { starts self.new ≡ starts self.old };
}
