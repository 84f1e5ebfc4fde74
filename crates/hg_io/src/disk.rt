ghost use Rattle.std.specs.Prelude.{◌≡◌, ◌≤◌, ℕ, List, IfOk, OnErr, OnOk, is_some, length, option_map};
ghost use Rattle.std.specs.Option.{ForSome};
ghost use Rattle.hg_io.specs.Faults.{Rose};
ghost use Rattle.hg_io.specs.FileView.{EndsAt, FileView, IsFile, IsSynced, Leaves, ReadsAt, ReadsTorn, Stays, TornFrom, with_piece};

use crate::failed::Failed;

/// A disk with one file, which is started by its name. A stop of the machine may tear what was written since the last
/// sync: any bytes at the places written, and any past the size at that sync, up to some size since.
pub trait Disk {
    /// The file: what reads give where the disk tells it, what a stop now may leave, and what a stop at some moment since an
    /// earlier one might have left.
    ghost file: { Self → FileView };

    /// The file is started under this name.
    ghost At: { Self → List ℕ → Type 0 };

    /// How often it failed so far at this name.
    ghost faults: { Self → List ℕ → ℕ };

    /// Starts the file of this name, whatever was started before. At `Failed` what was started stays so.
    fn start(&mut self, name: &str) -> Result<(), Failed>
        ensures started { OnOk result (At self.new name.now) }
        ensures kept { OnErr result ((other : List ℕ) → At self.old other → At self.new other) }
        ensures stays { Stays (file self.old) (file self.new) }
        ensures cause { OnErr result (Rose (faults self.old name.now) (faults self.new name.now)) }
        ensures counts { (other : List ℕ) → faults self.old other ≤ faults self.new other };

    /// The size of the file in bytes, as it reads.
    fn size(&mut self, name: &str) -> Result<u64, Failed>
        requires started { At self.old name.now }
        ensures size { IfOk result (λ n. ForSome (file self.old).reads (λ bytes. n ≡ length bytes)) }
        ensures started { At self.new name.now }
        ensures stays { Stays (file self.old) (file self.new) }
        ensures cause { OnErr result (Rose (faults self.old name.now) (faults self.new name.now)) }
        ensures counts { (other : List ℕ) → faults self.old other ≤ faults self.new other };

    /// Puts bytes of the file from the place `at` on to the front of the buffer and answers how many they are: none just
    /// where `at` is the size or past it, or the buffer is empty.
    fn read(&mut self, name: &str, at: u64, buf: &mut [u8]) -> Result<usize, Failed>
        requires started { At self.old name.now }
        ensures within { IfOk result (λ k. k ≤ length buf.new) }
        ensures bytes { IfOk result (λ k. ForSome (file self.old).reads (ReadsAt at k buf.new)) }
        ensures end { IfOk result (λ k. ForSome (file self.old).reads (EndsAt at k buf.old)) }
        ensures started { At self.new name.now }
        ensures stays { Stays (file self.old) (file self.new) }
        ensures cause { OnErr result (Rose (faults self.old name.now) (faults self.new name.now)) }
        ensures counts { (other : List ℕ) → faults self.old other ≤ faults self.new other };

    /// Writes the piece over the bytes from the place `at` on, which is at most the size, and past the end. After `Failed`
    /// any bytes may stand at those places, and the size is one from the old to the wanted one.
    fn write(&mut self, name: &str, at: u64, piece: &[u8]) -> Result<(), Failed>
        requires started { At self.old name.now }
        requires within { ForSome (file self.old).reads (λ bytes. at ≤ length bytes) }
        ensures written { OnOk result ((file self.new).reads ≡ option_map (with_piece at piece.now) (file self.old).reads) }
        ensures part { OnErr result (ReadsTorn at (length piece.now) (file self.old) (file self.new)) }
        ensures shown { is_some (file self.new).reads ≡ is_some (file self.old).reads }
        ensures torn { TornFrom at (length piece.now) (file self.old) (file self.new) }
        ensures leaves { Leaves (file self.old) (file self.new) (file self.new).may_leave }
        ensures started { At self.new name.now }
        ensures cause { OnErr result (Rose (faults self.old name.now) (faults self.new name.now)) }
        ensures counts { (other : List ℕ) → faults self.old other ≤ faults self.new other };

    /// Waits until what was written is kept: from then on a stop leaves the file as it reads.
    fn sync(&mut self, name: &str) -> Result<(), Failed>
        requires started { At self.old name.now }
        ensures synced { OnOk result (IsSynced (file self.new)) }
        ensures started { At self.new name.now }
        ensures stays { Stays (file self.old) (file self.new) }
        ensures cause { OnErr result (Rose (faults self.old name.now) (faults self.new name.now)) }
        ensures counts { (other : List ℕ) → faults self.old other ≤ faults self.new other };

    /// What holds of the file of every disk.
    ghost sound: { (disk : Self) → IsFile (file disk) };
}
