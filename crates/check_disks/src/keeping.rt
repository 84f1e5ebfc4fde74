//! The command `keep` in the one call, over a file of events and a disk in memory. The events are those of the tests of
//! journals in `check_program`, and were worked out by another implementation.

use crate::files::{ample, shelf_of};
use hg_io::{Disk, DiskMem, Failed, NoGate, SinkMem, read_all};
use hg_model::Memory;
use hg_top::{Status, hashgraph};
use std::alloc::Global;
use std::process::Abort;
use std::sync::Wait;
use std::test::Fail;
use std::thread::Threads;

const MEMBERS: &str =
    "coin = 10\n[[member]]\nname = \"A\"\nsecret = \"0b0b0b0b\"\nbalance = 100\n[[member]]\nname = \"B\"\nsecret = \"0c0c0c0c\"\n";

const KEEP: &str =
    "hashgraph keep --members members.toml --events events.bin --own A --disk journal";

const KEEP_AT_ONE: &str =
    "hashgraph keep --members members.toml --events events.bin --own A --disk journal --time 1";

const KEEP_OF_NOBODY: &str =
    "hashgraph keep --members members.toml --events events.bin --own a --disk journal";

// The first events of A, at time 1, and of B, at time 2.
const A_FIRST: &str =
    "484745310000000000000000000001000048078156563af1d6c2f9db9b388cf7c586a6c07b6b9b09acb94b1b945709be7055b2a5a61fea1483c3b6a468cb5a7fc2ee9468da8b3ad8c619f74d4cc4d8e5e5";

const B_FIRST: &str =
    "48474531000100000000000000000200005eea0640953386e53b0b500494dd9be8e7124e0b101cbc2a621b0bbe1e9ea2d71ae187574dbb0a87e0f645b941765cfd896ce02abbc8f38938e3cba11e0bfc32";

// The journal of A once it has taken B's first event and made its own.
const JOURNAL: [&str; 6] = [
    "0148474a3100020000",
    "01010051",
    B_FIRST,
    "01020051",
    A_FIRST,
    "00",
];

// .. without its last gate.
const CUT: [&str; 5] = [
    "0148474a3100020000",
    "01010051",
    B_FIRST,
    "01020051",
    A_FIRST,
];

const BLOCK: &str =
    "node A events 2 forkers 0 round 1 closed 0 ordered 0\nbalance A 100\nbalance B 0\n";

fn bytes_of(alloc: Global, digits: &[&str]) -> Result<Vec<u8>, Memory> {
    let mut bytes = Vec::new(alloc);
    for part in digits {
        let Ok(piece) = hex::decode(alloc, *part) else {
            return Err(Memory);
        };
        bytes.extend_from_slice(&piece)?;
    }
    Ok(bytes)
}

/// What a run came to, and what it wrote to standard output and standard error.
#[derive(Drop)]
struct Ran {
    status: Status,
    out: SinkMem,
    err: SinkMem,
}

fn words_of(alloc: Global, line: &str) -> Result<Vec<String>, Fail> {
    let mut owned = Vec::new(alloc);
    for word in line.split(' ') {
        owned.push(String::from_str(alloc, word)?)?;
    }
    Ok(owned)
}

/// Runs the program over the member file, a file of these events and a disk.
fn keep<R: Threads + Wait + Sync>(
    rt: &R,
    alloc: Global,
    line: &str,
    events: &[u8],
    disk: &mut DiskMem,
) -> Result<Ran, Fail> {
    let words = words_of(alloc, line)?;
    let mut shelf = shelf_of(
        alloc,
        ("members.toml", MEMBERS.as_bytes()),
        ("events.bin", events),
        Vec::new(alloc),
    )?;
    let mut out = ample(alloc)?;
    let mut err = ample(alloc)?;
    let status = hashgraph(
        rt,
        alloc,
        words.as_slice(),
        &mut shelf,
        disk,
        &mut out,
        &mut err,
        &NoGate,
    );
    Ok(Ran { status, out, err })
}

/// The run ended so, and wrote just these.
fn expect(rt: &impl Abort, ran: &Ran, status: u8, out: &str, err: &str) {
    assert!(rt; ran.status.code() == status);
    assert!(rt; ran.out.bytes() == out.as_bytes());
    assert!(rt; ran.err.bytes() == err.as_bytes());
}

/// The run ended well, and first wrote this.
fn expect_front(rt: &impl Abort, ran: &Ran, front: &[u8]) {
    assert!(rt; ran.status == Status::Done);
    assert!(rt; ran.out.bytes().starts_with(front));
}

/// The disk's file is this journal.
fn expect_journal(
    rt: &impl Abort,
    alloc: Global,
    disk: &mut DiskMem,
    wanted: &[u8],
) -> Result<(), Fail> {
    match read_all(alloc, disk, "journal")? {
        Ok(bytes) => assert!(rt; bytes.as_slice() == wanted),
        Err(Failed) => return Err("a fault".into()),
    }
    Ok(())
}

/// These texts one behind the other.
fn joined(alloc: Global, parts: &[&str]) -> Result<String, Fail> {
    let mut text = String::new(alloc);
    for part in parts {
        text.push_str(part)?;
    }
    Ok(text)
}

/// The call over this file of events ends well, tells this, and leaves this journal.
fn keeps<R: Abort + Threads + Wait + Sync>(
    rt: &R,
    alloc: Global,
    line: &str,
    events: &[u8],
    disk: &mut DiskMem,
    out: &str,
    journal: &[u8],
) -> Result<(), Fail> {
    let ran = keep(rt, alloc, line, events, disk)?;
    expect(rt, &ran, 0, out, "");
    expect_journal(rt, alloc, disk, journal)
}

#[test]
fn a_node_comes_again(rt: HostRuntime) -> Result<(), Fail> {
    let alloc = rt.alloc();
    let events = bytes_of(alloc, &[B_FIRST])?;
    let journal = bytes_of(alloc, &JOURNAL)?;
    let told = "opened 0\naccepted 1 known 0 refused 0\nmade 1 ";
    let first = joined(alloc, &[told, A_FIRST, "\n", BLOCK])?;
    let again = joined(alloc, &["opened 2\naccepted 0 known 1 refused 0\n", BLOCK])?;
    let mut disk = DiskMem::new(alloc, 512, Vec::new(alloc))?;
    keeps(
        &rt,
        alloc,
        KEEP_AT_ONE,
        &events,
        &mut disk,
        first.as_str(),
        &journal,
    )?;
    keeps(
        &rt,
        alloc,
        KEEP,
        &events,
        &mut disk,
        again.as_str(),
        &journal,
    )
}

/// A disk whose file has these bytes, of which these calls fail.
fn disk_of(alloc: Global, bytes: &[u8], fails: &[u64]) -> Result<DiskMem, Fail> {
    let mut disk = DiskMem::new(alloc, 512, Vec::from_slice(alloc, fails)?)?;
    match disk.write("journal", 0, bytes) {
        Ok(()) => Ok(disk),
        Err(Failed) => Err("a fault".into()),
    }
}

/// The call over this file of events and a disk whose file has these bytes, of which these calls fail, ends so, and tells this
/// line.
fn refuses<R: Abort + Threads + Wait + Sync>(
    rt: &R,
    alloc: Global,
    line: &str,
    events: &[u8],
    journal: &[u8],
    fails: &[u64],
    status: u8,
    err: &str,
) -> Result<(), Fail> {
    let mut disk = disk_of(alloc, journal, fails)?;
    let ran = keep(rt, alloc, line, events, &mut disk)?;
    expect(rt, &ran, status, "", err);
    Ok(())
}

#[test]
fn what_is_wrong_is_told(rt: HostRuntime) -> Result<(), Fail> {
    let alloc = rt.alloc();
    let err = "hashgraph: members: own\n";
    refuses(&rt, alloc, KEEP_OF_NOBODY, b"", b"", &[], 3, err)?;
    let err = "hashgraph: event at 0: short 4\n";
    refuses(&rt, alloc, KEEP, b"HGE1", b"", &[], 4, err)?;
    let err = "hashgraph: disk\n";
    refuses(&rt, alloc, KEEP, b"", b"", &[1], 7, err)
}

#[test]
fn a_journal_that_is_none_is_told(rt: HostRuntime) -> Result<(), Fail> {
    let alloc = rt.alloc();
    let events = bytes_of(alloc, &[B_FIRST])?;
    let cut = bytes_of(alloc, &CUT)?;
    let err = "hashgraph: journal: foreign\n";
    refuses(&rt, alloc, KEEP, &events, b"HGJ", &[], 8, err)?;
    let err = "hashgraph: journal: broken 179\n";
    refuses(&rt, alloc, KEEP, &events, &cut, &[], 8, err)
}

const KEEP_AT_FIVE: &str =
    "hashgraph keep --members members.toml --events events.bin --own A --disk journal --time 5";

// A's first event, at time 5.
const A_AT_FIVE: &str =
    "484745310000000000000000000005000055642fd1015d0cafed5806c8db9fd9481adc587a48cb5b9925bf63ee7c3d1f955e83a3e1dc1757cefd78dbfda5b38ed291084f22f9856d0bfd95d7d97c308e8e";

// The journal of A once it has made that one.
const ALONE: [&str; 4] = ["0148474a3100020000", "01020051", A_AT_FIVE, "00"];

const BLOCK_ALONE: &str =
    "node A events 1 forkers 0 round 1 closed 0 ordered 0\nbalance A 100\nbalance B 0\n";

#[test]
fn a_node_makes_its_first_event_once(rt: HostRuntime) -> Result<(), Fail> {
    let alloc = rt.alloc();
    let journal = bytes_of(alloc, &ALONE)?;
    let told = "opened 0\naccepted 0 known 0 refused 0\nmade 0 ";
    let first = joined(alloc, &[told, A_AT_FIVE, "\n", BLOCK_ALONE])?;
    let told = "opened 1\naccepted 0 known 0 refused 0\nmade none peer-bare\n";
    let again = joined(alloc, &[told, BLOCK_ALONE])?;
    let mut disk = DiskMem::new(alloc, 512, Vec::new(alloc))?;
    keeps(
        &rt,
        alloc,
        KEEP_AT_FIVE,
        b"",
        &mut disk,
        first.as_str(),
        &journal,
    )?;
    keeps(
        &rt,
        alloc,
        KEEP_AT_FIVE,
        b"",
        &mut disk,
        again.as_str(),
        &journal,
    )
}

#[test]
fn what_stands_behind_a_closed_gate_is_forgotten(rt: HostRuntime) -> Result<(), Fail> {
    let alloc = rt.alloc();
    let mut journal = bytes_of(alloc, &ALONE)?;
    assert!(rt; journal.len() == 95);
    journal[9] = 0;
    let mut disk = disk_of(alloc, &journal, &[])?;
    let ran = keep(&rt, alloc, KEEP, b"", &mut disk)?;
    expect_front(&rt, &ran, b"opened 0\n");
    Ok(())
}

/// What the first call comes to where this call of the disk fails, and what a later one tells first of the file that a stop
/// leaves then: all that was written, or what was synced.
fn expect_after_stop<R: Abort + Threads + Wait + Sync>(
    rt: &R,
    alloc: Global,
    call: u64,
    all: bool,
    (status, opened): (u8, &[u8]),
) -> Result<(), Fail> {
    let mut disk = DiskMem::new(alloc, 512, Vec::from_slice(alloc, &[call])?)?;
    let ran = keep(rt, alloc, KEEP_AT_FIVE, b"", &mut disk)?;
    assert!(rt; ran.status.code() == status);
    let mut left = disk.stopped(all);
    let ran = keep(rt, alloc, KEEP, b"", &mut left)?;
    expect_front(rt, &ran, opened);
    Ok(())
}

// Three calls start, sync and read the file, six make it, and four append the event; a run makes no other.
#[test]
fn a_stop_at_each_call_forgets_nothing_that_was_told(rt: HostRuntime) -> Result<(), Fail> {
    let alloc = rt.alloc();
    for call in 0..12 {
        expect_after_stop(&rt, alloc, call, true, (7, b"opened 0\n"))?;
        expect_after_stop(&rt, alloc, call, false, (7, b"opened 0\n"))?;
    }
    expect_after_stop(&rt, alloc, 12, true, (7, b"opened 1\n"))?;
    expect_after_stop(&rt, alloc, 12, false, (7, b"opened 0\n"))?;
    expect_after_stop(&rt, alloc, 13, true, (0, b"opened 1\n"))?;
    expect_after_stop(&rt, alloc, 13, false, (0, b"opened 1\n"))?;
    Ok(())
}

// B's second event, at time 3, on its first one and twice on A's.
const B_SECOND: &str =
    "4847453200010234b55303a5ee1bf3ef4c86aeac9b5e8f051052620c9f71db64a64e32f9556614228fe716b813cfe6735cdff79859631f433ea625c706b3623c0624e37c933c8741229785e21dec535b8a31165c73eed9a3ff6ae35f43dd762c27b3d01a5c8f0f433ea625c706b3623c0624e37c933c8741229785e21dec535b8a31165c73eed9a3ff6ae35f43dd762c27b3d01a5c8f0f00000000000000030000f6b90ece6612ef92a19a75a180ffe2b618ec183aa6fcf2b7d644e16b272aff2cc7af79114acfa17363cefc59baaace2606e9fb41d4a343e8d469fa99f91432ae";

// The journal of A above, once it has taken that one too.
const JOURNAL_OF_THREE: [&str; 8] = [
    "0148474a3100020000",
    "01010051",
    B_FIRST,
    "01020051",
    A_FIRST,
    "010100e1",
    B_SECOND,
    "00",
];

const BLOCK_OF_THREE: &str =
    "node A events 3 forkers 0 round 1 closed 0 ordered 0\nbalance A 100\nbalance B 0\n";

#[test]
fn an_event_is_taken_whole_once_its_parents_are_there(rt: HostRuntime) -> Result<(), Fail> {
    let alloc = rt.alloc();
    let events = bytes_of(alloc, &[B_FIRST, B_SECOND])?;
    let before = bytes_of(alloc, &JOURNAL)?;
    let after = bytes_of(alloc, &JOURNAL_OF_THREE)?;
    let told = "opened 0\naccepted 1 known 0 refused 1\nmade 1 ";
    let first = joined(alloc, &[told, A_FIRST, "\n", BLOCK])?;
    let then = joined(
        alloc,
        &["opened 2\naccepted 1 known 1 refused 0\n", BLOCK_OF_THREE],
    )?;
    let mut disk = DiskMem::new(alloc, 2048, Vec::new(alloc))?;
    keeps(
        &rt,
        alloc,
        KEEP_AT_ONE,
        &events,
        &mut disk,
        first.as_str(),
        &before,
    )?;
    keeps(&rt, alloc, KEEP, &events, &mut disk, then.as_str(), &after)
}
