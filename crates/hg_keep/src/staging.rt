ghost use Rattle.std.specs.Prelude.{◌≡◌, ◌+◌, ◌<◌, ◌≤◌, ◌^◌, None, Some, IfOk, IsErrOf, IsSome, OnErr, OnOk, length};
ghost use Rattle.std.specs.Option.{option_to_list};
ghost use Rattle.hg_model.specs.Links.{most_others};
ghost use Rattle.hg_journal.specs.Faults.{DiskFrame, IsFaultCounted};
ghost use Rattle.hg_journal.specs.Staging.{StageFrame, StopsKeepStaged};
ghost use Rattle.hg_journal.specs.Stored.{StoresNode, StoresWritten};
ghost use Rattle.hg_keep.specs.Keeping.{HasRow, IsPutSome, PutsAll, SettlesOf, TurnOf};
ghost use Rattle.hg_keep.specs.Stops.{IsUnderWay, MadeRoom, StopsLeaveOf};

use crate::kept::PutCounts;
use crate::making::names_of;
use crate::putting::room_for_answers;
use hg_io::Disk;
use hg_journal::{StoreError, Stored};
use hg_life::MakeAnswer;
use hg_model::{Bytes, Share};
use hg_node::stored_changes_replay;
use hg_sign::Signer;
use std::alloc::Global;

/// Stores what is staged, where there is no room for more.
pub(crate) fn make_room<V: Signer + Drop, D: Disk>(
    stored: &mut Stored<V>,
    disk: &mut D,
) -> Result<(), StoreError>
    requires there { IsSome stored.old.node }
    requires started { D.At disk.old stored.old.name }
    requires written { StoresWritten V.accepts (D.file disk.old) stored.old }
    ensures room { OnOk result (MadeRoom V.accepts (D.file disk.new) stored.old stored.new) }
    ensures stops { StopsKeepStaged V.accepts (D.file disk.old) (D.file disk.new) stored.old }
    ensures name { stored.new.name ≡ stored.old.name }
    ensures frame { DiskFrame D.Disk stored.new.name disk.old disk.new }
    ensures cause { IsFaultCounted result StoreError.Disk (D.faults disk.old) (D.faults disk.new) stored.old.name }
    ensures never { IsErrOf result StoreError.Closed → ⊥ }
{
    if stored.is_full() {
        stored.commit(disk)?;
    }
    Ok(())
}

/// Puts the events to the node, one after the other: all parts of them are stored but the last, which is staged.
pub(crate) fn stage_events<V: Signer + Drop, D: Disk>(
    alloc: Global,
    stored: &mut Stored<V>,
    disk: &mut D,
    events: &[Bytes],
) -> Result<PutCounts, StoreError>
    requires there { IsSome stored.old.node }
    requires started { D.At disk.old stored.old.name }
    requires stored { StoresNode V.accepts (D.file disk.old) stored.old }
    ensures puts { IfOk result (PutsAll V.accepts events.now stored.old.node stored.new.node) }
    ensures way { OnOk result (IsUnderWay V.accepts (IsPutSome V.accepts events.now) stored.old.node
        (D.file disk.old) (D.file disk.new) stored.new) }
    ensures stops { StopsLeaveOf V.accepts (IsPutSome V.accepts events.now) stored.old.node (D.file disk.old) (D.file disk.new) }
    ensures name { stored.new.name ≡ stored.old.name }
    ensures frame { DiskFrame D.Disk stored.new.name disk.old disk.new }
    ensures cause { IsFaultCounted result StoreError.Disk (D.faults disk.old) (D.faults disk.new) stored.old.name }
    ensures never { IsErrOf result StoreError.Closed → ⊥ }
{
    let mut counts = PutCounts {
        accepted: 0,
        known: 0,
        refused: 0,
    };
    let mut answers = room_for_answers(alloc, events.len())?;
    let mut done = 0;
    'parts: while done < events.len() {
        make_room(stored, disk)?;
        stored.stage_puts(&events[done..], &mut answers)?;
        counts.count_all(answers.as_slice());
        done += answers.len();
    }
    Ok(counts)
}

/// Makes the event that comes next, without payload, and stages it; `None` where none does.
pub(crate) fn stage_next<V: Signer + Drop>(
    stored: &mut Stored<V>,
    time: u64,
) -> Result<Option<MakeAnswer>, StoreError>
    requires there { IsSome stored.old.node }
    requires room { stored.old.pending ≤ 64000 }
    ensures turn { IfOk result (TurnOf V.accepts time stored.old.node stored.new.node) }
    ensures row { IfOk result (λ a. HasRow a stored.new.node) }
    ensures memory { OnErr result (stored.new ≡ stored.old) }
    ensures frame { StageFrame 1 result stored.old stored.new }
{
    stored_changes_replay::<V>();
    let node = stored.node().unwrap();
    node.is_node();
    let Some(other) = node.next_other() else {
        return Ok(None);
    };
    let answer = stored.stage_make(names_of(&other), time, b"")?;
    Ok(Some(answer))
}

/// Publishes all that the node's graph decides, and stages it.
pub(crate) fn stage_settled<V: Signer + Drop>(stored: &mut Stored<V>) -> Result<(), StoreError>
    requires there { IsSome stored.old.node }
    requires room { stored.old.pending ≤ 64000 }
    ensures settles { OnOk result (SettlesOf V.accepts stored.old.node stored.new.node) }
    ensures memory { OnErr result (stored.new ≡ stored.old) }
    ensures frame { StageFrame 1 result stored.old stored.new }
{
    let node = stored.node().unwrap();
    node.is_node();
    let rows = node.rows();
    stored.stage_remark(rows, Share::new(0, 1))?;
    Ok(())
}
