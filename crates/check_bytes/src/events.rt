use crate::telling::equal;
use hg_check::parents_on;
use hg_event::{Event, body_of, decode, encode, encode_body};
use hg_life::ByteFault;
use hg_model::{Bytes, Row};
use sha2::{Digest, Sha384};
use std::test::Fail;

// Creator 0, no parents, time 1, no payload, and a signature of zero bytes.
fn plain_event() -> [u8; 81] {
    let mut bytes = [0; 81];
    bytes[0] = 0x48;
    bytes[1] = 0x47;
    bytes[2] = 0x45;
    bytes[3] = 0x31;
    bytes[14] = 1;
    bytes
}

fn fault_of(bytes: &[u8]) -> Option<ByteFault> {
    decode(bytes).err()
}

#[test]
fn reads_a_plain_event(rt: HostRuntime) -> Result<(), Fail> {
    let bytes = plain_event();
    let view = decode(&bytes).ok().ok_or("a fault")?;
    equal(&rt, 0, view.creator, 0);
    equal(&rt, 1, view.parents.is_none(), true);
    equal(&rt, 2, view.time, 1);
    equal(&rt, 3, view.payload.len(), 0);
    equal(&rt, 4, view.sig.as_slice(), [0; 64].as_slice());
    equal(&rt, 5, body_of(&view), &bytes[..17]);
    Ok(())
}

// The plain event with a byte more, of which these are others, and so many are left, and its fault.
const SPOILED: [(&[(usize, u8)], usize, Option<ByteFault>); 7] = [
    (&[], 81, None),
    (&[], 80, Some(ByteFault::Short(80))),
    (&[], 0, Some(ByteFault::Short(0))),
    (&[(1, 0x58)], 2, Some(ByteFault::BadMagic)),
    (&[(6, 2)], 81, Some(ByteFault::BadKind(2))),
    (&[(15, 4), (16, 1)], 81, Some(ByteFault::BadLength(1025))),
    (&[(81, 7)], 82, Some(ByteFault::Trailing(1))),
];

#[test]
fn tells_what_is_spoiled(rt: HostRuntime) {
    for (case, (others, len, fault)) in SPOILED.iter().enumerate() {
        let mut bytes = [0; 82];
        bytes[..81].copy_from_slice(&plain_event());
        for (place, byte) in *others {
            if *place < 82 {
                bytes[*place] = *byte;
            }
        }
        equal(&rt, case, fault_of(&bytes[..*len]), *fault);
    }
}

#[test]
fn writes_a_plain_event(rt: HostRuntime) -> Result<(), Fail> {
    let row = Row {
        creator: 0,
        parents: None,
        time: 1,
        payload: Bytes::new(rt.alloc()),
        sig: [0; 64],
        name: [0; 48],
    };
    let bytes = plain_event();
    equal(
        &rt,
        0,
        encode(rt.alloc(), &row)?.as_slice(),
        bytes.as_slice(),
    );
    let body = encode_body(rt.alloc(), 0, &None, 1, &[])?;
    equal(&rt, 1, body.as_slice(), &bytes[..17]);
    Ok(())
}

#[test]
fn writes_the_fields_in_order(rt: HostRuntime) -> Result<(), Fail> {
    let parents = parents_on(rt.alloc(), [0xa1; 48], &[[0xa2; 48]])?;
    let body = encode_body(rt.alloc(), 0x0102, &parents, 0x03040506_0708090a, b"pay")?;
    assert!(rt; body.len() == 116);
    for (case, (part, wanted)) in [
        (&body[..7], b"HGE1\x01\x02\x01".as_slice()),
        (&body[7..55], [0xa1; 48].as_slice()),
        (&body[55..103], [0xa2; 48].as_slice()),
        (
            &body[103..],
            b"\x03\x04\x05\x06\x07\x08\x09\x0a\x00\x03pay".as_slice(),
        ),
    ]
    .iter()
    .enumerate()
    {
        equal(&rt, case, *part, *wanted);
    }
    Ok(())
}

#[test]
fn keeps_an_event_as_it_was_read(rt: HostRuntime) -> Result<(), Fail> {
    let bytes = plain_event();
    let Ok(view) = decode(&bytes) else {
        return Err("a fault".into());
    };
    let event = Event::copied(rt.alloc(), &view, Sha384::digest(&bytes), &bytes)?;
    assert_eq!(rt; event.row().time, 1);
    assert_eq!(rt; event.bytes(), bytes.as_slice());
    equal(&rt, 0, body_of(&event.view()), &bytes[..17]);
    Ok(())
}
