//! Disks in memory: what reads give, what stops leave, and calls that fail.

ghost use Rattle.std.specs.Prelude.{IfOk};
ghost use Rattle.hg_io.specs.FileView.{IsSynced};

use crate::telling::equal;
use hg_io::{Disk, DiskMem, Failed, put_down, read_all};
use hg_model::Memory;
use std::alloc::Global;
use std::test::Fail;

const NAME: &str = "journal";

fn disk_of(alloc: Global, room: usize, fails: &[u64]) -> Result<DiskMem, Memory>
    ensures { IfOk result (λ d. IsSynced (⟦<DiskMem as Disk>⟧.file d)) }
{
    DiskMem::new(alloc, room, Vec::from_slice(alloc, fails)?)
}

// Writes the piece at this place, if the file reaches to it, by a call that asks and one that writes.
fn write(disk: &mut DiskMem, at: u64, piece: &[u8]) -> Result<(), Failed> {
    if disk.size(NAME)? < at {
        return Err(Failed);
    }
    disk.write(NAME, at, piece)
}

// Two pieces, one over the end of the other, and a sync between them: five calls. Which were done.
fn write_two(disk: &mut DiskMem) -> [bool; 3] {
    [
        write(disk, 0, b"seven b").is_ok(),
        disk.sync(NAME).is_ok(),
        write(disk, 6, b"bytes").is_ok(),
    ]
}

// The bytes of its file are these.
fn reads(alloc: Global, disk: &mut DiskMem, bytes: &[u8]) -> Result<bool, Memory> {
    match read_all(alloc, disk, NAME)? {
        Ok(read) => Ok(read.as_slice() == bytes),
        Err(Failed) => Ok(false),
    }
}

#[test]
fn reads_what_was_written(rt: HostRuntime) -> Result<(), Fail> {
    let alloc = rt.alloc();
    let mut disk = disk_of(alloc, 64, &[])?;
    equal(&rt, 0, disk.start("any name"), Ok(()));
    equal(&rt, 1, write_two(&mut disk), [true, true, true]);
    equal(&rt, 2, disk.size(NAME), Ok(11));
    // Over the middle, which leaves the size.
    equal(&rt, 3, write(&mut disk, 2, b"lf-w"), Ok(()));
    assert!(rt; reads(alloc, &mut disk, b"self-wbytes")?);
    Ok(())
}

#[test]
fn a_read_gives_what_is_there(rt: HostRuntime) -> Result<(), Fail> {
    let mut disk = disk_of(rt.alloc(), 64, &[])?;
    equal(&rt, 0, write_two(&mut disk), [true, true, true]);
    let mut buf = [b'.'; 4];
    equal(&rt, 1, disk.read(NAME, 9, &mut buf), Ok(2));
    equal(&rt, 2, buf, *b"es..");
    equal(&rt, 3, disk.read(NAME, 4, &mut buf), Ok(4));
    equal(&rt, 4, buf, *b"n by");
    equal(&rt, 5, disk.read(NAME, 11, &mut buf), Ok(0));
    equal(&rt, 6, disk.read(NAME, 200, &mut buf), Ok(0));
    equal(&rt, 7, disk.read(NAME, 0, &mut []), Ok(0));
    Ok(())
}

/// Whether of the two writes these are done where this call fails, and a stop, which leaves all or what was synced, leaves these
/// bytes.
fn is_left(
    alloc: Global,
    call: usize,
    all: bool,
    done: [bool; 3],
    bytes: &[u8],
) -> Result<bool, Memory> {
    let mut disk = disk_of(alloc, 64, &[call as u64])?;
    if write_two(&mut disk) != done {
        return Ok(false);
    }
    reads(alloc, &mut disk.stopped(all), bytes)
}

// Each call fails in turn: which were done, what reads give, and what a stop leaves if it leaves all, and if not.
#[test]
fn each_call_of_a_disk_fails_in_turn(rt: HostRuntime) -> Result<(), Fail> {
    let none = ([false, true, false], b"".as_slice(), b"".as_slice());
    let one = (
        [true, true, false],
        b"seven b".as_slice(),
        b"seven b".as_slice(),
    );
    let unsynced = (
        [true, false, true],
        b"seven bytes".as_slice(),
        b"".as_slice(),
    );
    let whole = (
        [true, true, true],
        b"seven bytes".as_slice(),
        b"seven b".as_slice(),
    );
    for (call, (done, all, synced)) in [none, none, unsynced, one, one, whole].iter().enumerate() {
        equal(
            &rt,
            call,
            is_left(rt.alloc(), call, true, *done, all)?,
            true,
        );
        equal(
            &rt,
            call,
            is_left(rt.alloc(), call, false, *done, synced)?,
            true,
        );
    }
    Ok(())
}

#[test]
fn a_start_and_a_read_fail(rt: HostRuntime) -> Result<(), Fail> {
    let mut disk = disk_of(rt.alloc(), 64, &[0, 2])?;
    equal(&rt, 0, disk.start(NAME), Err(Failed));
    equal(&rt, 1, disk.start(NAME), Ok(()));
    equal(&rt, 2, disk.read(NAME, 0, &mut [0]), Err(Failed));
    equal(&rt, 3, disk.read(NAME, 0, &mut [0]), Ok(0));
    Ok(())
}

#[test]
fn a_disk_has_room_for_bytes(rt: HostRuntime) -> Result<(), Fail> {
    let alloc = rt.alloc();
    let mut short = disk_of(alloc, 11, &[])?;
    equal(&rt, 0, write_two(&mut short), [true, true, false]);
    let mut exact = disk_of(alloc, 12, &[])?;
    equal(&rt, 1, write_two(&mut exact), [true, true, true]);
    // A stop leaves 11 bytes, and room for one more.
    let mut left = exact.stopped(true);
    equal(&rt, 2, write(&mut left, 11, b"!!"), Err(Failed));
    equal(&rt, 3, write(&mut left, 11, b"!"), Ok(()));
    assert!(rt; reads(alloc, &mut left, b"seven bytes!")?);
    Ok(())
}

// Four calls that change nothing of the file, of which two have room.
#[test]
fn a_disk_has_room_for_calls(rt: HostRuntime) -> Result<(), Fail> {
    let mut calls = disk_of(rt.alloc(), 2, &[])?;
    equal(&rt, 0, write(&mut calls, 0, b""), Ok(()));
    equal(&rt, 1, calls.sync(NAME), Ok(()));
    equal(&rt, 2, calls.sync(NAME), Err(Failed));
    equal(&rt, 3, write(&mut calls, 0, b""), Err(Failed));
    Ok(())
}

/// Whether putting a piece down answers so where this call fails, and a stop leaves these bytes.
fn is_kept(
    alloc: Global,
    call: u64,
    answer: Result<(), Failed>,
    bytes: &[u8],
) -> Result<bool, Memory> {
    let mut disk = disk_of(alloc, 64, &[call])?;
    if put_down(&mut disk, NAME, 0, b"seven b") != answer {
        return Ok(false);
    }
    reads(alloc, &mut disk.stopped(false), bytes)
}

// A piece is put down by a write and a sync, either of which may fail.
#[test]
fn what_was_put_down_is_kept(rt: HostRuntime) -> Result<(), Fail> {
    let alloc = rt.alloc();
    equal(&rt, 0, is_kept(alloc, 0, Err(Failed), b"")?, true);
    equal(&rt, 1, is_kept(alloc, 1, Err(Failed), b"")?, true);
    equal(&rt, 2, is_kept(alloc, 2, Ok(()), b"seven b")?, true);
    Ok(())
}
