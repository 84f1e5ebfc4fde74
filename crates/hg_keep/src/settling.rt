ghost use Rattle.std.specs.Prelude.{◌≡◌, ◌≤◌, ℕ, List, None, IsErrOf, IsSome, OnOk, is_some};
ghost use Rattle.hg_journal.specs.Faults.{IsFaultCounted, DiskFrame};
ghost use Rattle.hg_journal.specs.Staging.{StopsKeepStaged};
ghost use Rattle.hg_journal.specs.Stored.{StoresNode, StoresWritten};
ghost use Rattle.hg_keep.specs.Keeping.{IsSettledSome, SettlesOf};
ghost use Rattle.hg_keep.specs.Stops.{MovesOn, StopsLeaveOf};

use crate::staging::{make_room, stage_settled};
use hg_io::Disk;
use hg_journal::{StoreError, Stored};
use hg_sign::Signer;

/// Publishes all that the node's graph decides.
pub fn settle<V: Signer + Drop, D: Disk>(
    stored: &mut Stored<V>,
    disk: &mut D,
) -> Result<(), StoreError>
    requires there { IsSome stored.old.node }
    requires started { D.At disk.old stored.old.name }
    requires stored { StoresNode V.accepts (D.file disk.old) stored.old }
    ensures settles { OnOk result (SettlesOf V.accepts stored.old.node stored.new.node) }
    ensures memory { IsErrOf result StoreError.Memory → stored.new ≡ stored.old }
    ensures closes { IsErrOf result StoreError.Disk → stored.new.node ≡ None }
    // Where no node comes to be another, neither does the end of its journal, nor the disk.
    ensures idle { stored.new.node ≡ stored.old.node → (stored.new ≡ stored.old) × (disk.new ≡ disk.old) }
    // A stop leaves the whole journal of the node that is there then.
    ensures stored { StoresNode V.accepts (D.file disk.new) stored.new }
    ensures stops { StopsLeaveOf V.accepts IsSettledSome stored.old.node (D.file disk.old) (D.file disk.new) }
    ensures name { stored.new.name ≡ stored.old.name }
    ensures frame { DiskFrame D.Disk stored.new.name disk.old disk.new }
    ensures cause { IsFaultCounted result StoreError.Disk (D.faults disk.old) (D.faults disk.new) stored.old.name }
    ensures never { IsErrOf result StoreError.Closed → ⊥ }
{
    stage_settled(stored)?;
    stored.commit(disk)
}

/// Publishes all that the node's graph decides, and stages it.
pub(crate) fn stage_all_marks<V: Signer + Drop, D: Disk>(
    stored: &mut Stored<V>,
    disk: &mut D,
) -> Result<(), StoreError>
    requires there { IsSome stored.old.node }
    requires started { D.At disk.old stored.old.name }
    requires written { StoresWritten V.accepts (D.file disk.old) stored.old }
    ensures settles { OnOk result (SettlesOf V.accepts stored.old.node stored.new.node) }
    ensures moves { OnOk result (MovesOn V.accepts (D.file disk.new) stored.old stored.new) }
    ensures stops { StopsKeepStaged V.accepts (D.file disk.old) (D.file disk.new) stored.old }
    ensures name { stored.new.name ≡ stored.old.name }
    ensures frame { DiskFrame D.Disk stored.new.name disk.old disk.new }
    ensures cause { IsFaultCounted result StoreError.Disk (D.faults disk.old) (D.faults disk.new) stored.old.name }
    ensures never { IsErrOf result StoreError.Closed → ⊥ }
{
    make_room(stored, disk)?;
    stage_settled(stored)
}
