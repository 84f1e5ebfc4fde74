//! Events with several other-parents, and both forms of an event's bytes.

ghost use Rattle.std.specs.Prelude.{◌≤◌};

use crate::telling::equal;
use hg_check::parents_on;
use hg_event::{Event, EventView, body_of, decode, decode_first, encode, encode_body};
use hg_life::ByteFault;
use hg_model::{Memory, Name};
use sha2::{Digest, Sha384};
use std::alloc::Global;
use std::process::Abort;
use std::test::Fail;

/// The event has these parents.
pub(crate) fn has_parents(rt: &impl Abort, event: &EventView<'_>, own: &Name, others: &[Name]) {
    let Some(parents) = &event.parents else {
        panic!(rt; "no parents");
    };
    equal(rt, 0, *parents.self_parent, *own);
    equal(rt, 1, parents.others().len(), others.len());
    for (name, wanted) in parents.others().iter().zip(others) {
        equal(rt, 2, **name, *wanted);
    }
}

/// The other-parents of the event below.
const THREE: [Name; 3] = [[0xa2; 48], [0xa3; 48], [0xa2; 48]];

/// An event of 276 bytes in this form and of this kind, where they are `2` and 3: by creator 258, on a self-parent and on
/// three others, of which the last is the first again; with the payload "pay", and a signature of bytes 7.
fn event_on_three(alloc: Global, form: u8, kind: u8) -> Result<Vec<u8>, Memory> {
    let mut bytes = Vec::from_slice(alloc, b"HGE")?;
    bytes.extend_from_slice(&[form, 1, 2, kind])?;
    bytes.extend_from_slice(&[0xa1; 48])?;
    for name in &THREE {
        bytes.extend_from_slice(name)?;
    }
    bytes.extend_from_slice(b"\x03\x04\x05\x06\x07\x08\x09\x0a\x00\x03pay")?;
    bytes.extend_from_slice(&[7; 64])?;
    Ok(bytes)
}

/// The first bytes, so many, or all of fewer.
fn first_of(bytes: &[u8], len: usize) -> &[u8] {
    match bytes.split_at_checked(len) {
        Some((first, _)) => first,
        None => bytes,
    }
}

fn fault_of(bytes: &[u8]) -> Option<ByteFault> {
    decode(bytes).err()
}

#[test]
fn reads_several_other_parents(rt: HostRuntime) -> Result<(), Fail> {
    let mut bytes = event_on_three(rt.alloc(), b'2', 3)?;
    bytes.push(0)?;
    let (event, len) = decode_first(bytes.as_slice()).ok().ok_or("a fault")?;
    equal(&rt, 3, len, 276);
    has_parents(&rt, &event, &[0xa1; 48], &THREE);
    equal(
        &rt,
        4,
        (event.creator, event.time),
        (258, 0x03040506_0708090a),
    );
    equal(&rt, 5, event.payload, b"pay".as_slice());
    equal(&rt, 6, event.sig.as_slice(), [7; 64].as_slice());
    equal(&rt, 7, body_of(&event), first_of(bytes.as_slice(), 212));
    equal(
        &rt,
        8,
        fault_of(bytes.as_slice()),
        Some(ByteFault::Trailing(1)),
    );
    Ok(())
}

#[test]
fn waits_for_all_of_several_names(rt: HostRuntime) -> Result<(), Fail> {
    let bytes = event_on_three(rt.alloc(), b'2', 3)?;
    for len in 0..276 {
        let found = fault_of(first_of(bytes.as_slice(), len));
        equal(&rt, len, found, Some(ByteFault::Short(len)));
    }
    equal(&rt, 276, fault_of(bytes.as_slice()), None);
    Ok(())
}

// The fourth byte and the kind of these bytes, and the first fault.
const FORMS: [(u8, u8, ByteFault); 14] = [
    (b'2', 0, ByteFault::BadKind(0)),
    (b'2', 1, ByteFault::BadKind(1)),
    (b'2', 5, ByteFault::BadKind(5)),
    (b'2', 255, ByteFault::BadKind(255)),
    (b'2', 2, ByteFault::BadLength(0xa2a2)),
    (b'2', 4, ByteFault::BadLength(0x0707)),
    (b'1', 0, ByteFault::BadLength(0xa1a1)),
    (b'1', 1, ByteFault::BadLength(0xa3a3)),
    (b'1', 2, ByteFault::BadKind(2)),
    (b'1', 3, ByteFault::BadKind(3)),
    (b'1', 255, ByteFault::BadKind(255)),
    (b'0', 3, ByteFault::BadMagic),
    (b'3', 3, ByteFault::BadMagic),
    (0, 3, ByteFault::BadMagic),
];

#[test]
fn tells_kinds_of_another_form(rt: HostRuntime) -> Result<(), Fail> {
    for (case, (form, kind, fault)) in FORMS.iter().enumerate() {
        let bytes = event_on_three(rt.alloc(), *form, *kind)?;
        equal(&rt, case, fault_of(bytes.as_slice()), Some(*fault));
    }
    Ok(())
}

/// The event's bytes, written anew.
#[tactic(auto, using(hg_life::proofs::RuleLaws::few_spelled))]
fn written(alloc: Global, event: &Event) -> Result<Vec<u8>, Memory> {
    encode(alloc, event.row())
}

#[test]
fn writes_what_it_read(rt: HostRuntime) -> Result<(), Fail> {
    let alloc = rt.alloc();
    let bytes = event_on_three(alloc, b'2', 3)?;
    let Ok(view) = decode(bytes.as_slice()) else {
        return Err("a fault".into());
    };
    let name = Sha384::digest(bytes.as_slice());
    let event = Event::copied(alloc, &view, name, bytes.as_slice())?;
    has_parents(&rt, &event.view(), &[0xa1; 48], &THREE);
    equal(&rt, 3, event.bytes(), bytes.as_slice());
    equal(&rt, 4, written(alloc, &event)?.as_slice(), bytes.as_slice());
    Ok(())
}

/// The body on so many of four other-parents has these first seven bytes, and so many in all.
fn begins(
    rt: &impl Abort,
    alloc: Global,
    count: usize,
    first: &[u8],
    len: usize,
) -> Result<(), Memory>
    requires some { 1 ≤ count }
    requires few { count ≤ 4 }
{
    let others = [[0xa2; 48], [0xa3; 48], [0xa4; 48], [0xa5; 48]];
    let parents = parents_on(alloc, [0xa1; 48], &others[..count])?;
    let body = encode_body(alloc, 0x0102, &parents, 1, &[])?;
    equal(rt, count, body.len(), len);
    equal(rt, count, first_of(body.as_slice(), 7), first);
    Ok(())
}

#[test]
fn the_form_tells_whether_there_are_several(rt: HostRuntime) -> Result<(), Fail> {
    begins(&rt, rt.alloc(), 1, b"HGE1\x01\x02\x01", 113)?;
    begins(&rt, rt.alloc(), 2, b"HGE2\x01\x02\x02", 161)?;
    begins(&rt, rt.alloc(), 3, b"HGE2\x01\x02\x03", 209)?;
    begins(&rt, rt.alloc(), 4, b"HGE2\x01\x02\x04", 257)?;
    Ok(())
}

/// On four other-parents, with a payload of 1,024 bytes: no event is longer.
fn longest_event(alloc: Global) -> Result<Vec<u8>, Memory> {
    let mut bytes = Vec::from_slice(alloc, b"HGE2\x00\x00\x04")?;
    for _ in 0..5 {
        bytes.extend_from_slice(&[9; 48])?;
    }
    bytes.extend_from_slice(b"\0\0\0\0\0\0\0\x01\x04\0")?;
    for _ in 0..17 {
        bytes.extend_from_slice(&[9; 64])?;
    }
    Ok(bytes)
}

#[test]
fn reads_the_longest_event(rt: HostRuntime) -> Result<(), Fail> {
    let bytes = longest_event(rt.alloc())?;
    let (event, len) = decode_first(bytes.as_slice()).ok().ok_or("a fault")?;
    equal(&rt, 0, (len, bytes.len()), (1345, 1345));
    equal(&rt, 1, (event.time, event.payload.len()), (1, 1024));
    let cut = first_of(bytes.as_slice(), 1344);
    equal(&rt, 2, fault_of(cut), Some(ByteFault::Short(1344)));
    Ok(())
}
