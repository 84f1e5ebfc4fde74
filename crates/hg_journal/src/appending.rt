ghost use Rattle.std.specs.Prelude.{◌≡◌, ◌<◌, ◌≤◌, ◌+◌, ◌^◌, ℕ, List, OnErr, OnOk, is_some, length, vec_capacity};
ghost use Rattle.std.specs.Option.{ForSome};
ghost use Rattle.hg_io.specs.Faults.{Rose};
ghost use Rattle.hg_io.specs.FileView.{IsSynced};
ghost use Rattle.hg_journal.specs.Batches.{joined};
ghost use Rattle.hg_journal.specs.Records.{spelled};
ghost use Rattle.hg_journal.specs.Writing.{EndsCutShort, IsAppended, LeavesCutShort};
ghost use Rattle.hg_journal.specs.Faults.{DiskFrame};

use hg_io::{Disk, Failed, put_down};

/// An open gate.
const OPEN: u8 = 1;

/// Spells a record behind those in the buffer, and an open gate between them. Takes no memory.
pub(crate) fn spell(buffer: &mut Vec<u8>, kind: u8, body: &[u8])
    requires small { length body.now < 65536 }
    requires room { length buffer.old.items + 4 + length body.now ≤ vec_capacity buffer.old }
    ensures records { buffer.new.items ≡ joined buffer.old.items (spelled kind body.now) }
    ensures room { vec_capacity buffer.old ≤ vec_capacity buffer.new }
{
    if !buffer.is_empty() {
        buffer.push(OPEN).unwrap();
    }
    buffer.push(kind).unwrap();
    buffer
        .extend_from_slice(&(body.len() as u16).to_be_bytes())
        .unwrap();
    buffer.extend_from_slice(body).unwrap();
}

/// Writes a piece behind the closed gate at this place of a synced file, waits until it is kept, and opens the gate.
pub(crate) fn append<D: Disk>(
    disk: &mut D,
    name: &str,
    gate: u64,
    piece: &[u8],
) -> Result<(), Failed>
    requires started { D.At disk.old name.now }
    requires small { gate < 2 ^ 63 }
    requires within { ForSome (D.file disk.old).reads (λ bytes. gate < length bytes) }
    requires synced { IsSynced (D.file disk.old) }
    ensures appended { OnOk result (IsAppended gate piece.now (D.file disk.old) (D.file disk.new)) }
    ensures synced { OnOk result (IsSynced (D.file disk.new)) }
    ensures now { EndsCutShort gate piece.now (D.file disk.old) (D.file disk.new) }
    ensures leaves { LeavesCutShort gate piece.now (D.file disk.old) (D.file disk.new) }
    ensures frame { DiskFrame D.Disk name.now disk.old disk.new }
    ensures cause { OnErr result (Rose (D.faults disk.old name.now) (D.faults disk.new name.now)) }
{
    put_down(disk, name, gate + 1, piece)?;
    put_down(disk, name, gate, &[OPEN])?;
    Ok(())
}
