ghost use Rattle.std.specs.Prelude.{◌≡◌, ◌≤◌, ℕ, List, OnErr, OnOk, is_some, length, option_map};
ghost use Rattle.std.specs.Option.{ForSome};
ghost use Rattle.hg_io.specs.Faults.{Rose};
ghost use Rattle.hg_io.specs.FileView.{IsSynced, Leaves, LeavesTorn, Torn, with_piece};

use crate::disk::Disk;
use crate::failed::Failed;

/// Writes the piece over the bytes from the place `at` on, of a file that was synced, and waits until it is kept. Up to
/// then a stop may leave the file torn there and nowhere else.
pub fn put_down<D: Disk>(disk: &mut D, name: &str, at: u64, piece: &[u8]) -> Result<(), Failed>
    requires started { D.At disk.old name.now }
    requires within { ForSome (D.file disk.old).reads (λ bytes. at ≤ length bytes) }
    requires synced { IsSynced (D.file disk.old) }
    ensures written { OnOk result ((D.file disk.new).reads ≡ option_map (with_piece at piece.now) (D.file disk.old).reads) }
    ensures synced { OnOk result (IsSynced (D.file disk.new)) }
    ensures shown { is_some (D.file disk.new).reads ≡ is_some (D.file disk.old).reads }
    ensures torn { ForSome (D.file disk.old).reads (LeavesTorn at (length piece.now) (D.file disk.new)) }
    ensures leaves { ForSome (D.file disk.old).reads (λ bytes. Leaves (D.file disk.old) (D.file disk.new) (Torn at (length piece.now) bytes)) }
    ensures started { D.At disk.new name.now }
    ensures cause { OnErr result (Rose (D.faults disk.old name.now) (D.faults disk.new name.now)) }
    ensures counts { (other : List ℕ) → D.faults disk.old other ≤ D.faults disk.new other }
{
    disk.write(name, at, piece)?;
    disk.sync(name)?;
    Ok(())
}
