//! Messages over streams: in pieces however they are cut, damaged at each byte, and from sources that end, fail or go on
//! without end. The message of 235 bytes was worked out by another implementation, the others by hand from the format.

ghost use Rattle.std.specs.Prelude.{None};

use crate::telling::equal;
use hg_check::Dice;
use hg_io::{Failed, Source, SourceMem};
use hg_life::ByteFault;
use hg_wire::{Ear, Fed, Message, Receipt, Want, WireFault, hear_all, receive};
use std::alloc::Global;
use std::process::Abort;
use std::test::Fail;

/// What was heard: so many names or rows, and whether there is a last own row.
#[derive(Clone, Copy, Debug, PartialEq, Eq)]
enum Heard {
    More,
    Names(usize),
    Rows(usize, bool),
    Wrong(WireFault),
}

fn told(message: &Message) -> Heard {
    match message {
        Message::Have(names) => Heard::Names(names.as_slice().len()),
        Message::Rows(parcel) => {
            Heard::Rows(parcel.rows.as_slice().len(), parcel.last.is_some())
        }
    }
}

fn made_of(fed: &Fed) -> Heard {
    match fed {
        Fed::More => Heard::More,
        Fed::Whole(message, _) => told(message),
        Fed::Refused(fault) => Heard::Wrong(*fault),
    }
}

/// What an ear makes of the bytes at once.
fn heard_at_once(alloc: Global, want: Want, bytes: &[u8]) -> Result<Heard, Fail> {
    let mut ear = Ear::new(alloc, want);
    let fed = ear.feed(bytes)?;
    Ok(made_of(&fed))
}

/// .. and of so many first ones, or all of fewer.
fn heard_of_first(alloc: Global, want: Want, bytes: &[u8], len: usize) -> Result<Heard, Fail> {
    match bytes.split_at_checked(len) {
        Some((first, _)) => heard_at_once(alloc, want, first),
        None => heard_at_once(alloc, want, bytes),
    }
}

/// HAVE of two names, 105 bytes.
fn have_of_two(alloc: Global) -> Result<Vec<u8>, Fail> {
    let mut bytes = Vec::from_slice(alloc, b"HGW1\x01\x00\x00\x00\x02")?;
    bytes.extend_from_slice(&[0xa1; 48])?;
    bytes.extend_from_slice(&[0xa2; 48])?;
    Ok(bytes)
}

/// An event of 81 bytes, by creator 0, without parents and payload.
fn push_event(bytes: &mut Vec<u8>, time: u8) -> Result<(), Fail> {
    bytes.extend_from_slice(b"HGE1\x00\x00\x00\x00\x00\x00\x00\x00\x00\x00")?;
    bytes.extend_from_slice(&[time, 0, 0])?;
    bytes.extend_from_slice(&[7; 64])?;
    Ok(())
}

/// ROWS of two events, of 81 bytes and of 228, with the name of a last own row: 367 bytes. The first event is at 9, the
/// second, on two other-parents, at 90, the flag at 318.
fn rows_of_two(alloc: Global) -> Result<Vec<u8>, Fail> {
    let mut bytes = Vec::from_slice(alloc, b"HGW1\x02\x00\x00\x00\x02")?;
    push_event(&mut bytes, 1)?;
    bytes.extend_from_slice(b"HGE2\x00\x00\x02")?;
    bytes.extend_from_slice(&[0xa1; 48])?;
    bytes.extend_from_slice(&[0xa2; 48])?;
    bytes.extend_from_slice(&[0xa4; 48])?;
    bytes.extend_from_slice(b"\x00\x00\x00\x00\x00\x00\x00\x02\x00\x03pay")?;
    bytes.extend_from_slice(&[7; 64])?;
    bytes.push(1)?;
    bytes.extend_from_slice(&[0xa3; 48])?;
    Ok(bytes)
}

/// The bytes wait for more up to their last, and are this then.
fn waits_to_the_end(
    rt: &impl Abort,
    alloc: Global,
    want: Want,
    bytes: &[u8],
    wanted: Heard,
) -> Result<(), Fail> {
    for len in 0..bytes.len() {
        equal(
            rt,
            len,
            heard_of_first(alloc, want, bytes, len)?,
            Heard::More,
        );
    }
    equal(rt, bytes.len(), heard_at_once(alloc, want, bytes)?, wanted);
    Ok(())
}

#[test]
fn waits_for_a_whole_message(rt: HostRuntime) -> Result<(), Fail> {
    let alloc = rt.alloc();
    let have = have_of_two(alloc)?;
    waits_to_the_end(&rt, alloc, Want::Have, have.as_slice(), Heard::Names(2))?;
    let rows = rows_of_two(alloc)?;
    waits_to_the_end(
        &rt,
        alloc,
        Want::Rows,
        rows.as_slice(),
        Heard::Rows(2, true),
    )
}

/// What is heard where the byte at a place of HAVE is turned over, all its bits, and by how many bytes it is seen.
fn have_turned(at: usize) -> (Heard, usize) {
    match at {
        0..=3 => (Heard::Wrong(WireFault::Magic(at)), at + 1),
        4 => (Heard::Wrong(WireFault::Kind(0xfe)), 5),
        5 => (Heard::Wrong(WireFault::Count(0xff00_0002)), 9),
        6 => (Heard::Wrong(WireFault::Count(0x00ff_0002)), 9),
        7 | 8 => (Heard::More, 105),
        _ => (Heard::Names(2), 105),
    }
}

fn row(place: usize, fault: ByteFault) -> Heard {
    Heard::Wrong(WireFault::Row(place, fault))
}

/// The same of ROWS. A payload that is said to have some 250 bytes takes what follows.
fn rows_turned(at: usize) -> (Heard, usize) {
    match at {
        0..=3 => (Heard::Wrong(WireFault::Magic(at)), at + 1),
        4 => (Heard::Wrong(WireFault::Kind(0xfd)), 5),
        5 => (Heard::Wrong(WireFault::Count(0xff00_0002)), 9),
        6 => (Heard::Wrong(WireFault::Count(0x00ff_0002)), 9),
        // There are more rows to come, and the flag begins none.
        7 | 8 => (row(2, ByteFault::BadMagic), 319),
        9..=12 => (row(0, ByteFault::BadMagic), at + 1),
        15 => (row(0, ByteFault::BadKind(255)), 16),
        24 => (row(0, ByteFault::BadLength(0xff00)), 26),
        // The payload ends in the last name, where no event begins.
        25 => (row(1, ByteFault::BadMagic), 346),
        90..=93 => (row(1, ByteFault::BadMagic), at + 1),
        96 => (row(1, ByteFault::BadKind(253)), 97),
        249 => (row(1, ByteFault::BadLength(0xff03)), 251),
        250 => (Heard::More, 367),
        318 => (Heard::Wrong(WireFault::Flag(254)), 319),
        _ => (Heard::Rows(2, true), 367),
    }
}

/// With the byte at a place turned over this is heard, by so many bytes, and before them nothing.
fn hears_turned(
    rt: &impl Abort,
    alloc: Global,
    want: Want,
    bytes: &mut [u8],
    at: usize,
    (wanted, len): (Heard, usize),
) -> Result<(), Fail> {
    let Some(byte) = bytes.get_mut(at) else {
        return Err("no such byte".into());
    };
    *byte ^= 0xff;
    equal(rt, at, heard_at_once(alloc, want, bytes)?, wanted);
    equal(rt, at, heard_of_first(alloc, want, bytes, len)?, wanted);
    if len > 0 {
        equal(
            rt,
            at,
            heard_of_first(alloc, want, bytes, len - 1)?,
            Heard::More,
        );
    }
    Ok(())
}

#[test]
fn each_byte_turned_over(rt: HostRuntime) -> Result<(), Fail> {
    let alloc = rt.alloc();
    for at in 0..105 {
        let mut have = have_of_two(alloc)?;
        hears_turned(
            &rt,
            alloc,
            Want::Have,
            have.as_mut_slice(),
            at,
            have_turned(at),
        )?;
    }
    for at in 0..367 {
        let mut rows = rows_of_two(alloc)?;
        hears_turned(
            &rt,
            alloc,
            Want::Rows,
            rows.as_mut_slice(),
            at,
            rows_turned(at),
        )?;
    }
    Ok(())
}

#[test]
fn hears_no_message_of_the_other_kind(rt: HostRuntime) -> Result<(), Fail> {
    let alloc = rt.alloc();
    let have = heard_at_once(alloc, Want::Rows, have_of_two(alloc)?.as_slice())?;
    equal(&rt, 0, have, Heard::Wrong(WireFault::Kind(1)));
    let rows = heard_at_once(alloc, Want::Have, rows_of_two(alloc)?.as_slice())?;
    equal(&rt, 1, rows, Heard::Wrong(WireFault::Kind(2)));
    Ok(())
}

// ROWS of one event, the last one that a node made.
const ROWS: &str =
    "48475731020000000148474531000101aa036e422f651b6ecdbe9a2000578ffd658191b6f16de44932e3bb42bd7dfd76d9f417565c25f89a0d6c53e18c51a0eed7c95c0b854716bf9c114ff49b2f28a371d6a41ee16170549c1d6084ea1327b57132e48f6b3e26cba96eb0929d2c4477000000000000000800000022a1c32711a966aa74a1212d4bb2c23a3d5e06b8ca2dec69f0f57227219b8c8b2b1eaa21dbc8ebeea5068da1f3595b368e67509e609aa8307f6c4073fc1472011c7ad8c460ea5ed56f7f55086555f6cea083f9c649ce725d5f71ab4d95bd3852ecd53c65b68140d0fccc2f5e645ef230";

fn rows_of_one(alloc: Global) -> Result<Vec<u8>, Fail> {
    match hex::decode(alloc, ROWS) {
        Ok(bytes) => Ok(bytes),
        Err(_) => Err("no digits".into()),
    }
}

/// What an ear makes of a stream that comes in pieces of these lengths, the last one as long as is left.
fn heard_in_pieces(
    alloc: Global,
    want: Want,
    bytes: &[u8],
    lengths: &[usize],
) -> Result<Heard, Fail> {
    let mut pieces = Vec::new(alloc);
    let mut rest = bytes;
    for len in lengths {
        let Some((piece, behind)) = rest.split_at_checked(*len) else {
            break;
        };
        pieces.push(Vec::from_slice(alloc, piece)?)?;
        rest = behind;
    }
    pieces.push(Vec::from_slice(alloc, rest)?)?;
    let fed = hear_all(alloc, want, pieces.as_slice())?;
    Ok(made_of(&fed))
}

/// What is heard of so many first bytes of ROWS, one by one.
fn heard_one_by_one(alloc: Global, bytes: &[u8], len: usize) -> Result<Heard, Fail> {
    let mut pieces = Vec::new(alloc);
    for byte in bytes.iter().take(len) {
        pieces.push(Vec::from_slice(alloc, &[*byte])?)?;
    }
    let fed = hear_all(alloc, Want::Rows, pieces.as_slice())?;
    Ok(made_of(&fed))
}

/// In each cut of two pieces this is heard.
fn hears_in_two(
    rt: &impl Abort,
    alloc: Global,
    want: Want,
    bytes: &[u8],
    wanted: Heard,
) -> Result<(), Fail> {
    for len in 0..bytes.len() {
        equal(
            rt,
            len,
            heard_in_pieces(alloc, want, bytes, &[len])?,
            wanted,
        );
    }
    Ok(())
}

/// In so many cuts into pieces of up to `most` bytes this is heard.
fn hears_in_many(
    rt: &impl Abort,
    alloc: Global,
    bytes: &[u8],
    cuts: u32,
    most: usize,
    wanted: Heard,
) -> Result<(), Fail> {
    for cut in 0..cuts {
        let mut dice = Dice::new(cut);
        let mut lengths = Vec::new(alloc);
        for _ in 0..bytes.len() {
            lengths.push(dice.place(most.max(1)))?;
        }
        let found = heard_in_pieces(alloc, Want::Rows, bytes, lengths.as_slice())?;
        equal(rt, cut as usize, found, wanted);
    }
    Ok(())
}

#[test]
fn hears_a_message_however_it_is_cut(rt: HostRuntime) -> Result<(), Fail> {
    let alloc = rt.alloc();
    let rows = rows_of_one(alloc)?;
    let wanted = Heard::Rows(1, true);
    equal(&rt, 0, rows.len(), 235);
    waits_to_the_end(&rt, alloc, Want::Rows, rows.as_slice(), wanted)?;
    hears_in_two(&rt, alloc, Want::Rows, rows.as_slice(), wanted)?;
    for len in 0..235 {
        let found = heard_one_by_one(alloc, rows.as_slice(), len)?;
        equal(&rt, len, found, Heard::More);
    }
    let found = heard_one_by_one(alloc, rows.as_slice(), 235)?;
    equal(&rt, 235, found, wanted);
    hears_in_many(&rt, alloc, rows.as_slice(), 1000, 9, wanted)
}

/// ROWS of 200 events, and no last own row: 16,210 bytes.
fn rows_of_many(alloc: Global) -> Result<Vec<u8>, Fail> {
    let mut bytes = Vec::from_slice(alloc, b"HGW1\x02\x00\x00\x00\xc8")?;
    for time in 0..200 {
        push_event(&mut bytes, time)?;
    }
    bytes.push(0)?;
    Ok(bytes)
}

#[test]
fn hears_many_rows_however_they_are_cut(rt: HostRuntime) -> Result<(), Fail> {
    let alloc = rt.alloc();
    let rows = rows_of_many(alloc)?;
    let wanted = Heard::Rows(200, false);
    equal(&rt, 0, rows.len(), 16_210);
    hears_in_two(&rt, alloc, Want::Rows, rows.as_slice(), wanted)?;
    hears_in_many(&rt, alloc, rows.as_slice(), 1000, 400, wanted)
}

/// What came of receiving a message.
#[derive(Clone, Copy, Debug, PartialEq, Eq)]
enum Got {
    Whole(Heard),
    Failed,
    Ended(usize),
    Wire(WireFault),
}

fn receive_one<S: Source>(alloc: Global, want: Want, source: &mut S) -> Result<Got, Fail> {
    let mut ear = Ear::new(alloc, want);
    Ok(match receive(source, &mut ear)? {
        Receipt::Got(message) => Got::Whole(told(&message)),
        Receipt::Failed => Got::Failed,
        Receipt::Ended(at) => Got::Ended(at),
        Receipt::Wire(fault) => Got::Wire(fault),
    })
}

/// A source of these bytes that gives at most so many of them in a call, and fails at this call.
fn source_of(alloc: Global, bytes: &[u8], most: usize, fail: u64) -> Result<SourceMem, Fail> {
    let mut fails = Vec::new(alloc);
    fails.push(fail)?;
    Ok(SourceMem::new(Vec::from_slice(alloc, bytes)?, most.max(1), fails))
}

#[test]
fn tells_where_a_source_ends(rt: HostRuntime) -> Result<(), Fail> {
    let alloc = rt.alloc();
    let rows = rows_of_one(alloc)?;
    for (len, wanted) in [
        (0, Got::Ended(0)),
        (8, Got::Ended(8)),
        (234, Got::Ended(234)),
        (235, Got::Whole(Heard::Rows(1, true))),
    ] {
        let Some((first, _)) = rows.as_slice().split_at_checked(len) else {
            return Err("too few".into());
        };
        let mut source = source_of(alloc, first, 64, 1_000)?;
        equal(
            &rt,
            len,
            receive_one(alloc, Want::Rows, &mut source)?,
            wanted,
        );
    }
    // A count of as many rows as may be, and nothing behind it.
    let head = b"HGW1\x02\x00\x10\x00\x00";
    let mut source = source_of(alloc, head.as_slice(), 64, 1_000)?;
    equal(
        &rt,
        9,
        receive_one(alloc, Want::Rows, &mut source)?,
        Got::Ended(9),
    );
    let head = b"HGW1\x01\x00\x10\x00\x01";
    let mut source = source_of(alloc, head.as_slice(), 64, 1_000)?;
    equal(
        &rt,
        10,
        receive_one(alloc, Want::Have, &mut source)?,
        Got::Wire(WireFault::Count(1_048_577)),
    );
    Ok(())
}

/// From a source that gives at most so many bytes in a call and fails at this call the message comes, or the fault.
fn got_from(alloc: Global, bytes: &[u8], most: usize, call: u64) -> Result<Got, Fail> {
    let mut source = source_of(alloc, bytes, most, call)?;
    receive_one(alloc, Want::Rows, &mut source)
}

#[test]
fn a_source_that_fails_at_each_call(rt: HostRuntime) -> Result<(), Fail> {
    let alloc = rt.alloc();
    let rows = rows_of_one(alloc)?;
    // How many calls it takes, by how many bytes come in each: behind 9 of the head 81 are wanted, then 96, and then the rest.
    for (most, calls) in [(1, 235), (9, 27)] {
        for call in 0..calls {
            let found = got_from(alloc, rows.as_slice(), most, call)?;
            equal(&rt, call as usize, found, Got::Failed);
        }
        let found = got_from(alloc, rows.as_slice(), most, calls)?;
        equal(&rt, most, found, Got::Whole(Heard::Rows(1, true)));
    }
    Ok(())
}

/// A message of two rows, and events behind it without end.
#[derive(Drop)]
struct Endless {
    at: usize,
}

/// The byte of an event at a place of it.
fn event_byte(place: usize) -> u8 {
    match place {
        0 => b'H',
        1 => b'G',
        2 => b'E',
        3 => b'1',
        _ => 0,
    }
}

/// The byte at a place of the stream: the message has 172.
fn byte_at(at: usize) -> u8 {
    match at {
        0 => b'H',
        1 => b'G',
        2 => b'W',
        3 => b'1',
        4 | 8 => 2,
        5..=7 | 171 => 0,
        9..=170 => event_byte((at - 9) % 81),
        _ => event_byte((at - 172) % 81),
    }
}

impl Source for Endless {
    ghost left = { λ _. None };

    ghost faults = { λ _. 0 };

    fn read(&mut self, buf: &mut [u8]) -> Result<usize, Failed> {
        for byte in buf.iter_mut() {
            *byte = byte_at(self.at);
            self.at = self.at.saturating_add(1);
        }
        Ok(buf.len())
    }
}

#[test]
fn reads_no_byte_behind_the_message(rt: HostRuntime) -> Result<(), Fail> {
    let alloc = rt.alloc();
    let mut source = Endless { at: 0 };
    let first = receive_one(alloc, Want::Rows, &mut source)?;
    equal(&rt, 0, first, Got::Whole(Heard::Rows(2, false)));
    equal(&rt, 1, source.at, 172);
    // What follows begins no message.
    let second = receive_one(alloc, Want::Rows, &mut source)?;
    equal(&rt, 2, second, Got::Wire(WireFault::Magic(2)));
    Ok(())
}
