ghost use Rattle.std.specs.Prelude.{◌<◌, length};
ghost use Rattle.hg_top.specs.Commands.{OwnKeepEnds, keep_for};
ghost use Rattle.hg_top.specs.Course.{OnlyReads, disk_course};
ghost use Rattle.hg_top.specs.Ends.{EndsOnDisk};
ghost use Rattle.hg_top.specs.Keeps.{KeptOn, work_on};

use crate::reading::{events_from, members_from, own_in};
use crate::status::{Status, open_status, status_of};
use hg_command::KeepRequest;
use hg_io::{Disk, Shelf, Sink};
use hg_keep::{Task, write_kept};
use hg_life::Members;
use hg_model::{Member, Memory};
use hg_sign::MacTable;
use std::alloc::Global;

/// What a task on the node of one of these members comes to.
fn keep_node<D: Disk, K: Sink>(
    alloc: Global,
    members: &Members,
    task: &Task<'_>,
    disk: &mut D,
    out: &mut K,
) -> Status
    requires { task.now.own < length members.now.entries }
    ensures { KeptOn K.Sink out.old out.new (disk_course D.Disk disk.old disk.new) (work_on members.now task.now) result }
{
    let keys = match MacTable::new(alloc, members) {
        Ok(keys) => keys,
        Err(Memory) => return Status::Memory,
    };
    match hg_keep::keep(alloc, disk, members, keys, task) {
        Ok(kept) => status_of(write_kept(&kept, out)),
        Err(error) => open_status(error),
    }
}

/// What the file of events comes to at the node of this member.
fn keep_events<F: Shelf, D: Disk, K: Sink>(
    alloc: Global,
    members: &Members,
    own: Member,
    asked: &KeepRequest<'_>,
    shelf: &mut F,
    disk: &mut D,
    out: &mut K,
) -> Status
    requires { own < length members.now.entries }
    ensures ends { OwnKeepEnds F.Shelf K.Sink D.Disk shelf.old shelf.new out.old out.new disk.old disk.new
        asked.now members.now own result }
    ensures same { OnlyReads F.Shelf shelf.old shelf.new }
{
    let events = match events_from(alloc, shelf, asked.events) {
        Ok(events) => events,
        Err(status) => return status,
    };
    let task = Task {
        journal: asked.disk,
        own,
        events: events.as_slice(),
        time: asked.time,
    };
    keep_node(alloc, members, &task, disk, out)
}

/// What the work on a member's node comes to.
pub(crate) fn keep<F: Shelf, D: Disk, K: Sink>(
    alloc: Global,
    asked: &KeepRequest<'_>,
    shelf: &mut F,
    disk: &mut D,
    out: &mut K,
) -> Status
    ensures ends { EndsOnDisk F.Shelf K.Sink D.Disk shelf.old shelf.new out.old out.new disk.old disk.new
        (keep_for asked.now) result }
    ensures same { OnlyReads F.Shelf shelf.old shelf.new }
{
    let members = match members_from(alloc, shelf, asked.members) {
        Ok(members) => members,
        Err(status) => return status,
    };
    match own_in(&members, asked.own) {
        Some(own) => keep_events(alloc, &members, own, asked, shelf, disk, out),
        None => Status::Own,
    }
}
