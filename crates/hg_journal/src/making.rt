ghost use Rattle.std.specs.Prelude.{◌≡◌, ◌≤◌, ◌++◌, ◌∷◌, [], ℕ, List, OnErr, OnOk, is_some, length};
ghost use Rattle.std.specs.Bool.{Decides};
ghost use Rattle.std.specs.Option.{ForSome};
ghost use Rattle.hg_io.specs.Faults.{Rose};
ghost use Rattle.hg_io.specs.FileView.{IsSynced};
ghost use Rattle.hg_journal.specs.Writing.{AnewCases, EndsEmpty, IsBegun, IsOnlyBegun, LeavesEmpty, empty_file};
ghost use Rattle.hg_journal.specs.Faults.{DiskFrame};

use hg_io::{Disk, Failed, put_down};

// Closes the first gate, if it is not closed yet.
fn close_first<D: Disk>(disk: &mut D, name: &str, head: &[u8; 8], begun: bool) -> Result<(), Failed>
    requires started { D.At disk.old name.now }
    requires synced { IsSynced (D.file disk.old) }
    requires anew { ForSome (D.file disk.old).reads (AnewCases head.now) }
    requires begun { ForSome (D.file disk.old).reads (λ bytes. Decides begun (IsBegun bytes)) }
    ensures begun { OnOk result (ForSome (D.file disk.new).reads IsOnlyBegun) }
    ensures synced { OnOk result (IsSynced (D.file disk.new)) }
    ensures now { EndsEmpty head.now (D.file disk.old) (D.file disk.new) }
    ensures leaves { LeavesEmpty head.now (D.file disk.old) (D.file disk.new) }
    ensures frame { DiskFrame D.Disk name.now disk.old disk.new }
    ensures cause { OnErr result (Rose (D.faults disk.old name.now) (D.faults disk.new name.now)) }
{
    if begun {
        return Ok(());
    }
    put_down(disk, name, 0, &[0])?;
    Ok(())
}

// The head, and a closed gate.
fn closed_head(head: &[u8; 8]) -> [u8; 9]
    ensures { result ≡ head.now ++ 0 ∷ [] }
{
    let [a, b, c, d, e, f, g, h] = *head;
    [a, b, c, d, e, f, g, h, 0]
}

// Writes the head, and then opens the first gate.
fn write_head<D: Disk>(disk: &mut D, name: &str, head: &[u8; 8]) -> Result<(), Failed>
    requires started { D.At disk.old name.now }
    requires synced { IsSynced (D.file disk.old) }
    requires begun { ForSome (D.file disk.old).reads IsOnlyBegun }
    ensures made { OnOk result (ForSome (D.file disk.new).reads (λ bytes. bytes ≡ empty_file head.now)) }
    ensures synced { OnOk result (IsSynced (D.file disk.new)) }
    ensures now { EndsEmpty head.now (D.file disk.old) (D.file disk.new) }
    ensures leaves { LeavesEmpty head.now (D.file disk.old) (D.file disk.new) }
    ensures frame { DiskFrame D.Disk name.now disk.old disk.new }
    ensures cause { OnErr result (Rose (D.faults disk.old name.now) (D.faults disk.new name.now)) }
{
    let piece = closed_head(head);
    put_down(disk, name, 1, &piece)?;
    put_down(disk, name, 0, &[1])?;
    Ok(())
}

/// Makes a journal without records of a file that is to be made anew.
pub(crate) fn make_anew<D: Disk>(
    disk: &mut D,
    name: &str,
    head: &[u8; 8],
    begun: bool,
) -> Result<(), Failed>
    requires started { D.At disk.old name.now }
    requires synced { IsSynced (D.file disk.old) }
    requires anew { ForSome (D.file disk.old).reads (AnewCases head.now) }
    requires begun { ForSome (D.file disk.old).reads (λ bytes. Decides begun (IsBegun bytes)) }
    ensures made { OnOk result (ForSome (D.file disk.new).reads (λ bytes. bytes ≡ empty_file head.now)) }
    ensures synced { OnOk result (IsSynced (D.file disk.new)) }
    ensures now { EndsEmpty head.now (D.file disk.old) (D.file disk.new) }
    ensures leaves { LeavesEmpty head.now (D.file disk.old) (D.file disk.new) }
    ensures frame { DiskFrame D.Disk name.now disk.old disk.new }
    ensures cause { OnErr result (Rose (D.faults disk.old name.now) (D.faults disk.new name.now)) }
{
    close_first(disk, name, head, begun)?;
    write_head(disk, name, head)?;
    Ok(())
}
