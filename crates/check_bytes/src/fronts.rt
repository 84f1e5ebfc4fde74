//! The event at the front of a stream.

use crate::several::has_parents;
use crate::telling::equal;
use hg_event::decode_first;
use hg_life::ByteFault;
use std::test::Fail;

// Two events one after the other, by creator 0, without parents and payloads, at the times 1 and 2, with signatures of
// zero bytes.
fn two_events() -> [u8; 162] {
    let mut bytes = [0; 162];
    bytes[..4].copy_from_slice(b"HGE1");
    bytes[14] = 1;
    bytes[81..85].copy_from_slice(b"HGE1");
    bytes[95] = 2;
    bytes
}

fn fault_of(bytes: &[u8]) -> Option<ByteFault> {
    decode_first(bytes).err()
}

// The fault of the first bytes, so many.
fn fault_of_first(bytes: &[u8], len: usize) -> Option<ByteFault> {
    match bytes.split_at_checked(len) {
        Some((first, _)) => fault_of(first),
        None => fault_of(bytes),
    }
}

#[test]
fn reads_one_event_after_the_other(rt: HostRuntime) -> Result<(), Fail> {
    let bytes = two_events();
    let (first, len) = decode_first(&bytes).ok().ok_or("a fault")?;
    equal(&rt, 0, len, 81);
    equal(&rt, 1, first.time, 1);
    let (second, len) = decode_first(&bytes[81..]).ok().ok_or("a fault")?;
    equal(&rt, 2, len, 81);
    equal(&rt, 3, second.time, 2);
    Ok(())
}

#[test]
fn waits_for_a_whole_event(rt: HostRuntime) {
    let bytes = two_events();
    for len in 0..81 {
        equal(
            &rt,
            len,
            fault_of_first(&bytes, len),
            Some(ByteFault::Short(len)),
        );
    }
    equal(&rt, 81, fault_of_first(&bytes, 82), None);
}

#[test]
fn tells_a_fault_whatever_follows(rt: HostRuntime) {
    let mut bytes = two_events();
    bytes[6] = 2;
    equal(
        &rt,
        0,
        fault_of_first(&bytes, 7),
        Some(ByteFault::BadKind(2)),
    );
    equal(&rt, 1, fault_of(&bytes), Some(ByteFault::BadKind(2)));
}

// An event with parents and the payload "pay", of 180 bytes, and one byte behind it.
fn event_on_parents() -> [u8; 181] {
    let mut bytes = [0; 181];
    bytes[..4].copy_from_slice(b"HGE1");
    bytes[6] = 1;
    bytes[7..55].copy_from_slice(&[0xa1; 48]);
    bytes[55..103].copy_from_slice(&[0xa2; 48]);
    bytes[112] = 3;
    bytes[113..116].copy_from_slice(b"pay");
    bytes
}

#[test]
fn reads_parents_and_payload(rt: HostRuntime) -> Result<(), Fail> {
    let mut bytes = event_on_parents();
    let (event, len) = decode_first(&bytes).ok().ok_or("a fault")?;
    equal(&rt, 0, len, 180);
    equal(&rt, 1, event.payload, b"pay".as_slice());
    has_parents(&rt, &event, &[0xa1; 48], &[[0xa2; 48]]);
    bytes[111] = 4;
    equal(&rt, 3, fault_of(&bytes), Some(ByteFault::BadLength(1027)));
    bytes[3] = b'3';
    equal(&rt, 4, fault_of(&bytes), Some(ByteFault::BadMagic));
    Ok(())
}
