ghost use Rattle.std.specs.Prelude.{◌≡◌, ◌≤◌, ℕ, List, None, Some, IfOk, IsErrOf, IsSome, OnOk, is_some, length};
ghost use Rattle.std.specs.Option.{option_to_list};
ghost use Rattle.hex.specs.Hex.{encode_lower};
ghost use Rattle.hg_model.specs.Links.{most_others};
ghost use Rattle.hg_journal.specs.Faults.{IsFaultCounted, DiskFrame};
ghost use Rattle.hg_journal.specs.Staging.{StopsKeepStaged};
ghost use Rattle.hg_journal.specs.Stored.{StoresNode, StoresWritten};
ghost use Rattle.hg_keep.specs.Keeping.{HasRow, IsMadeSome, MakesOf, TurnOf, told_of};
ghost use Rattle.hg_keep.specs.Stops.{MovesOn, StopsLeaveOf};

use crate::kept::Making;
use crate::staging::{make_room, stage_next};
use hg_io::Disk;
use hg_journal::{StoreError, Stored};
use hg_life::MakeAnswer;
use hg_model::{Bytes, Items, Memory, Name};
use hg_node::Node;
use hg_sign::Signer;
use std::alloc::Global;
use std::slice;

/// Bytes in lower-case hexadecimal digits.
fn digits_of(alloc: Global, bytes: &[u8]) -> Result<Bytes, Memory>
    ensures { IfOk result (λ digits. digits ≡ encode_lower bytes.now) }
{
    let text = hex::encode(alloc, bytes)?;
    Ok(Items::from_vec(Vec::from_slice(alloc, text.as_bytes())?))
}

/// What is told of the answer to making an event.
fn told<V: Signer>(
    alloc: Global,
    node: &Node<V>,
    answer: Option<MakeAnswer>,
) -> Result<Making, Memory>
    requires { HasRow answer (Some node.now) }
    ensures { IfOk result (λ told. told ≡ told_of node.now answer) }
{
    match answer {
        None => Ok(Making::PeerBare),
        Some(MakeAnswer::Refused(fault)) => Ok(Making::Refused(fault)),
        Some(MakeAnswer::Made(place)) => {
            let digits = digits_of(alloc, node.bytes(place))?;
            Ok(Making::Made { place, digits })
        }
    }
}

/// Makes the event that comes next, without payload; `None` where none does.
pub fn make_next<V: Signer + Drop, D: Disk>(
    stored: &mut Stored<V>,
    disk: &mut D,
    time: u64,
) -> Result<Option<MakeAnswer>, StoreError>
    requires there { IsSome stored.old.node }
    requires started { D.At disk.old stored.old.name }
    requires stored { StoresNode V.accepts (D.file disk.old) stored.old }
    ensures turn { IfOk result (TurnOf V.accepts time stored.old.node stored.new.node) }
    ensures row { IfOk result (λ a. HasRow a stored.new.node) }
    ensures memory { IsErrOf result StoreError.Memory → stored.new ≡ stored.old }
    ensures closes { IsErrOf result StoreError.Disk → stored.new.node ≡ None }
    // Where no node comes to be another, neither does the end of its journal, nor the disk.
    ensures idle { stored.new.node ≡ stored.old.node → (stored.new ≡ stored.old) × (disk.new ≡ disk.old) }
    // A stop leaves the whole journal of the node that is there then.
    ensures stored { StoresNode V.accepts (D.file disk.new) stored.new }
    ensures stops { StopsLeaveOf V.accepts (IsMadeSome V.accepts (Some time)) stored.old.node (D.file disk.old) (D.file disk.new) }
    ensures name { stored.new.name ≡ stored.old.name }
    ensures frame { DiskFrame D.Disk stored.new.name disk.old disk.new }
    ensures cause { IsFaultCounted result StoreError.Disk (D.faults disk.old) (D.faults disk.new) stored.old.name }
    ensures never { IsErrOf result StoreError.Closed → ⊥ }
{
    let answer = stage_next(stored, time)?;
    stored.commit(disk)?;
    Ok(answer)
}

/// The one name, if there is one.
pub(crate) fn names_of(name: &Option<Name>) -> &[Name]
    ensures names { result.now ≡ option_to_list name.now }
    ensures few { length result.now ≤ most_others }
{
    match name {
        Some(name) => slice::from_ref(name),
        None => &[],
    }
}

/// Makes the event that comes next, if a time is given for it, stages it, and answers what is told of it.
pub(crate) fn stage_at<V: Signer + Drop, D: Disk>(
    alloc: Global,
    stored: &mut Stored<V>,
    disk: &mut D,
    time: Option<u64>,
) -> Result<Option<Making>, StoreError>
    requires there { IsSome stored.old.node }
    requires started { D.At disk.old stored.old.name }
    requires written { StoresWritten V.accepts (D.file disk.old) stored.old }
    ensures makes { IfOk result (MakesOf V.accepts time stored.old.node stored.new.node) }
    ensures moves { OnOk result (MovesOn V.accepts (D.file disk.new) stored.old stored.new) }
    ensures stops { StopsKeepStaged V.accepts (D.file disk.old) (D.file disk.new) stored.old }
    ensures name { stored.new.name ≡ stored.old.name }
    ensures frame { DiskFrame D.Disk stored.new.name disk.old disk.new }
    ensures cause { IsFaultCounted result StoreError.Disk (D.faults disk.old) (D.faults disk.new) stored.old.name }
    ensures never { IsErrOf result StoreError.Closed → ⊥ }
{
    let Some(time) = time else {
        return Ok(None);
    };
    make_room(stored, disk)?;
    let answer = stage_next(stored, time)?;
    let told = told(alloc, stored.node().unwrap(), answer)?;
    Ok(Some(told))
}
