//! A node whose changes are kept on a disk in memory: it is stopped at each call, and opened on files that are damaged. The
//! bytes and answers that are wanted come from `docs/FORMATS.md`, and were worked out by another implementation.

use crate::telling::equal;
use hg_io::{Disk, DiskMem, Failed, read_all};
use hg_journal::{OpenError, StoreError, Stored};
use hg_life::{MakeAnswer, MemberEntry, Members, PutAnswer};
use hg_model::{Bytes, Memory, Share};
use hg_sign::MacTable;
use std::alloc::Global;
use std::process::Abort;
use std::test::Fail;

const NAME: &str = "journal";

// The first events of A, at time 1, and of B, at time 2.
const A_FIRST: &str =
    "484745310000000000000000000001000048078156563af1d6c2f9db9b388cf7c586a6c07b6b9b09acb94b1b945709be7055b2a5a61fea1483c3b6a468cb5a7fc2ee9468da8b3ad8c619f74d4cc4d8e5e5";

const B_FIRST: &str =
    "48474531000100000000000000000200005eea0640953386e53b0b500494dd9be8e7124e0b101cbc2a621b0bbe1e9ea2d71ae187574dbb0a87e0f645b941765cfd896ce02abbc8f38938e3cba11e0bfc32";

// The journal of A once it has made the one and taken the other.
const JOURNAL: [&str; 6] = [
    "0148474a3100020000",
    "01020051",
    A_FIRST,
    "01010051",
    B_FIRST,
    "00",
];

fn bytes_of(alloc: Global, digits: &[&str]) -> Result<Vec<u8>, Memory> {
    let mut bytes = Vec::new(alloc);
    for part in digits {
        let Ok(piece) = hex::decode(alloc, *part) else {
            return Err(Memory);
        };
        bytes.extend_from_slice(&piece)?;
    }
    Ok(bytes)
}

fn entry(alloc: Global, name: &[u8], secret: &[u8]) -> Result<MemberEntry, Memory> {
    Ok(MemberEntry {
        name: Bytes::from_vec(Vec::from_slice(alloc, name)?),
        secret: Bytes::from_vec(Vec::from_slice(alloc, secret)?),
        balance: 0,
        stake: 1,
        has_node: true,
    })
}

fn two_members(rt: &impl Abort, alloc: Global) -> Result<Members, Memory> {
    let mut entries = Vec::new(alloc);
    entries.push(entry(alloc, b"A", &[0x0b; 4])?)?;
    entries.push(entry(alloc, b"B", &[0x0c; 4])?)?;
    Ok(
        Members::try_new(entries, 10)
            .ok()
            .expect(rt, "lawful members"),
    )
}

fn disk_of(alloc: Global, fails: &[u64]) -> Result<DiskMem, Memory> {
    DiskMem::new(alloc, 512, Vec::from_slice(alloc, fails)?)
}

// How many rows A's node has that is opened on the disk; `None` for no node.
fn rows_on(
    alloc: Global,
    members: &Members,
    disk: &mut DiskMem,
) -> Result<Result<Option<usize>, OpenError>, Memory> {
    members.is_lawful();
    let keys = MacTable::new(alloc, members)?;
    match Stored::open(alloc, disk, NAME, members, 0, keys) {
        Ok(stored) => match stored.node() {
            Some(node) => Ok(Ok(Some(node.rows()))),
            None => Ok(Ok(None)),
        },
        Err(error) => Ok(Err(error)),
    }
}

// The same on a disk whose file has these bytes.
fn rows_in(
    alloc: Global,
    members: &Members,
    bytes: &[u8],
) -> Result<Result<Option<usize>, OpenError>, Memory> {
    let mut disk = disk_of(alloc, &[])?;
    if disk.write(NAME, 0, bytes).is_err() {
        return Ok(Err(OpenError::Disk));
    }
    rows_on(alloc, members, &mut disk)
}

// Opens A's journal, makes A's first event, takes B's and marks nothing. How many of the four were done before the disk
// failed, and whether the node was closed then.
fn play(
    alloc: Global,
    members: &Members,
    disk: &mut DiskMem,
    event: &[u8],
) -> Result<(usize, bool), Memory> {
    members.is_lawful();
    let keys = MacTable::new(alloc, members)?;
    let Ok(mut stored) = Stored::open(alloc, disk, NAME, members, 0, keys) else {
        return Ok((0, true));
    };
    if stored.make(disk, &[], 1, b"") != Ok(MakeAnswer::Made(0)) {
        return Ok((1, stored.put(disk, event) == Err(StoreError::Closed)));
    }
    if stored.put(disk, event) != Ok(PutAnswer::Accepted(1)) {
        return Ok((
            2,
            stored.remark(disk, 0, Share::new(0, 1)) == Err(StoreError::Closed),
        ));
    }
    if stored.remark(disk, 0, Share::new(0, 1)) != Ok(0) {
        return Ok((3, stored.node().is_none()));
    }
    Ok((4, stored.node().is_none()))
}

// For each call of the disk, if it fails: how many steps were done, and how many rows come again where the stop leaves all
// that was written, and where it leaves what was synced. 3 calls read the file, 6 make it, and 4 append each record.
const STOPS: [(usize, usize, usize); 18] = [
    (0, 0, 0),
    (0, 0, 0),
    (0, 0, 0),
    (0, 0, 0),
    (0, 0, 0),
    (0, 0, 0),
    (0, 0, 0),
    (0, 0, 0),
    (0, 0, 0),
    (1, 0, 0),
    (1, 0, 0),
    (1, 0, 0),
    (1, 1, 0),
    (2, 1, 1),
    (2, 1, 1),
    (2, 1, 1),
    (2, 2, 1),
    (4, 2, 2),
];

/// Whether the play comes to so many steps where this call of the disk fails, and so many rows come again where the stop leaves
/// all that was written, or what was synced.
fn comes_again(
    alloc: Global,
    members: &Members,
    event: &[u8],
    call: usize,
    all: bool,
    done: usize,
    rows: usize,
) -> Result<bool, Memory> {
    let mut disk = disk_of(alloc, &[call as u64])?;
    if play(alloc, members, &mut disk, event)? != (done, done < 4) {
        return Ok(false);
    }
    let mut left = disk.stopped(all);
    Ok(rows_on(alloc, members, &mut left)? == Ok(Some(rows)))
}

#[test]
fn a_stop_at_each_call_leaves_what_was_answered(rt: HostRuntime) -> Result<(), Fail> {
    let alloc = rt.alloc();
    let members = two_members(&rt, alloc)?;
    let event = bytes_of(alloc, &[B_FIRST])?;
    for (call, (done, all, synced)) in STOPS.iter().enumerate() {
        let has_all = comes_again(alloc, &members, &event, call, true, *done, *all)?;
        equal(&rt, call, has_all, true);
        let has_synced = comes_again(alloc, &members, &event, call, false, *done, *synced)?;
        equal(&rt, call, has_synced, true);
    }
    Ok(())
}

// The bytes of the disk's file are these.
fn reads(alloc: Global, disk: &mut DiskMem, bytes: &[u8]) -> Result<bool, Memory> {
    match read_all(alloc, disk, NAME)? {
        Ok(read) => Ok(read.as_slice() == bytes),
        Err(Failed) => Ok(false),
    }
}

#[test]
fn a_journal_has_these_bytes(rt: HostRuntime) -> Result<(), Fail> {
    let alloc = rt.alloc();
    let members = two_members(&rt, alloc)?;
    let event = bytes_of(alloc, &[B_FIRST])?;
    let wanted = bytes_of(alloc, &JOURNAL)?;
    let mut disk = disk_of(alloc, &[])?;
    let played = play(alloc, &members, &mut disk, &event)?;
    equal(&rt, 0, played, (4, false));
    assert!(rt; reads(alloc, &mut disk, &wanted)?);
    Ok(())
}

// What opening finds where only so many bytes of the journal are there.
fn cut(len: usize) -> Result<Option<usize>, OpenError> {
    match len {
        0..=1 => Ok(Some(0)),
        2..=8 => Err(OpenError::Foreign),
        9..=93 => Err(OpenError::Broken(9)),
        94..=178 => Err(OpenError::Broken(94)),
        179 => Err(OpenError::Broken(179)),
        _ => Ok(Some(2)),
    }
}

// .. and where the last bit of the byte at this place is the other.
fn changed(place: usize) -> Result<Option<usize>, OpenError> {
    match place {
        0..=8 => Err(OpenError::Foreign),
        9 => Ok(Some(0)),
        10..=93 => Err(OpenError::Broken(9)),
        94 => Ok(Some(1)),
        95..=178 => Err(OpenError::Broken(94)),
        _ => Err(OpenError::Broken(179)),
    }
}

#[test]
fn cut_journals_are_known(rt: HostRuntime) -> Result<(), Fail> {
    let alloc = rt.alloc();
    let members = two_members(&rt, alloc)?;
    let journal = bytes_of(alloc, &JOURNAL)?;
    assert!(rt; journal.len() == 180);
    for len in 0..=journal.len() {
        let rows = rows_in(alloc, &members, &journal[..len])?;
        equal(&rt, len, rows, cut(len));
    }
    Ok(())
}

#[test]
fn changed_journals_are_known(rt: HostRuntime) -> Result<(), Fail> {
    let alloc = rt.alloc();
    let members = two_members(&rt, alloc)?;
    let mut journal = bytes_of(alloc, &JOURNAL)?;
    for place in 0..journal.len() {
        journal[place] ^= 1;
        let rows = rows_in(alloc, &members, &journal)?;
        equal(&rt, place, rows, changed(place));
        journal[place] ^= 1;
    }
    Ok(())
}
