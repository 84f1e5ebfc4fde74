//! The vectors of `docs/FORMATS.md`, in the digits that stand there. They were worked out by another implementation of
//! SHA-2 and HMAC.

ghost use Rattle.std.specs.Prelude.{◌≡◌, ◌≤◌, true, length};
ghost use Rattle.hg_model.specs.Links.{has_few_others};
ghost use Rattle.hg_life.specs.Spelling.{payload_limit};

use crate::members::{entry, members_of};
use crate::telling::equal;
use hg_check::parents_on;
use hg_event::encode_body;
use hg_life::Transfer;
use hg_made::{Draws, generate};
use hg_model::{Items, Memory, Name, Sig};
use hg_name::name_of;
use hg_pay::write_pay;
use hg_script::{Action, Gossip, Line, Part, all_lines};
use hg_sign::{MacTable, signed_bytes};
use std::alloc::Global;
use std::process::Abort;
use std::test::Fail;

/// The keys of the members A to D, of whom A and B are those of `examples/two-members`.
fn keys_of_four(rt: &impl Abort, alloc: Global) -> Result<MacTable, Memory> {
    let mut entries = Vec::new(alloc);
    entries.push(entry(alloc, b"A", &[0x0b; 4], 100, true)?)?;
    entries.push(entry(alloc, b"B", &[0x0c; 4], 0, true)?)?;
    entries.push(entry(alloc, b"C", &[0x0d; 4], 0, true)?)?;
    entries.push(entry(alloc, b"D", &[0x0e; 4], 0, true)?)?;
    MacTable::new(alloc, &members_of(rt, entries))
}

/// The signature and the name of an event of these fields, signed by its creator.
fn signed(
    alloc: Global,
    keys: &MacTable,
    creator: u16,
    parents: &Option<(Name, Items<Name>)>,
    time: u64,
    payload: &[u8],
) -> Result<(Sig, Name), Memory>
    requires few { has_few_others parents.now ≡ true }
    requires payload { length payload.now ≤ payload_limit }
{
    let event = signed_bytes(alloc, keys, creator, parents, time, payload)?;
    Ok((event.sig, name_of(event.bytes.as_slice())))
}

/// The bytes are those of these digits.
fn reads(
    rt: &impl Abort,
    alloc: Global,
    case: usize,
    bytes: &[u8],
    digits: &str,
) -> Result<(), Memory> {
    equal(rt, case, hex::encode(alloc, bytes)?.as_str(), digits);
    Ok(())
}

// The first events of A and of B: creator, time, body, signature and name.
const FIRST: [(u16, u64, &str, &str, &str); 2] = [
    (
        0,
        1,
        "4847453100000000000000000000010000",
        "48078156563af1d6c2f9db9b388cf7c586a6c07b6b9b09acb94b1b945709be7055b2a5a61fea1483c3b6a468cb5a7fc2ee9468da8b3ad8c619f74d4cc4d8e5e5",
        "433ea625c706b3623c0624e37c933c8741229785e21dec535b8a31165c73eed9a3ff6ae35f43dd762c27b3d01a5c8f0f",
    ),
    (
        1,
        2,
        "4847453100010000000000000000020000",
        "5eea0640953386e53b0b500494dd9be8e7124e0b101cbc2a621b0bbe1e9ea2d71ae187574dbb0a87e0f645b941765cfd896ce02abbc8f38938e3cba11e0bfc32",
        "34b55303a5ee1bf3ef4c86aeac9b5e8f051052620c9f71db64a64e32f9556614228fe716b813cfe6735cdff79859631f",
    ),
];

#[test]
fn first_events_have_these_digits(rt: HostRuntime) -> Result<(), Fail> {
    let alloc = rt.alloc();
    let keys = keys_of_four(&rt, alloc)?;
    for (creator, time, body, sig, name) in &FIRST {
        let (found, called) = signed(alloc, &keys, *creator, &None, *time, &[])?;
        let spelled = encode_body(alloc, *creator, &None, *time, &[])?;
        reads(&rt, alloc, 0, spelled.as_slice(), *body)?;
        reads(&rt, alloc, 1, found.as_slice(), *sig)?;
        reads(&rt, alloc, 2, called.as_slice(), *name)?;
    }
    Ok(())
}

/// The first eight bytes, or all.
fn first_eight(bytes: &[u8]) -> &[u8] {
    match bytes.split_at_checked(8) {
        Some((first, _)) => first,
        None => bytes,
    }
}

#[test]
fn the_sixth_event_has_a_coin_of_one(rt: HostRuntime) -> Result<(), Fail> {
    let alloc = rt.alloc();
    let keys = keys_of_four(&rt, alloc)?;
    let (_, mut own) = signed(alloc, &keys, 0, &None, 1, &[])?;
    let (_, mut other) = signed(alloc, &keys, 1, &None, 2, &[])?;
    for time in 3..7 {
        let creator = ((time + 1) % 2) as u16;
        let parents = parents_on(alloc, own, &[other])?;
        let (sig, name) = signed(alloc, &keys, creator, &parents, time, &[])?;
        if time == 3 {
            reads(&rt, alloc, 0, first_eight(&sig), "246d65de200df602")?;
            reads(&rt, alloc, 1, first_eight(&name), "e770aec0061280e1")?;
        }
        equal(&rt, 2, sig[32] >= 128, time == 6);
        own = other;
        other = name;
    }
    Ok(())
}

// The body, the signature and the name of an event of A on its own first event and on those of B and C.
const JOINED: [&str; 3] = [
    "48474532000002433ea625c706b3623c0624e37c933c8741229785e21dec535b8a31165c73eed9a3ff6ae35f43dd762c27b3d01a5c8f0f34b55303a5ee1bf3ef4c86aeac9b5e8f051052620c9f71db64a64e32f9556614228fe716b813cfe6735cdff79859631f4f158a6df2df0ec8bf90731597465ba126539918991cc57a4b056ae998f8a39747eff56f6041dce6dfd257c05bd9fa3200000000000000040000",
    "230a46bb502a3d10f905b57aec1f63b85db5f05515d07eadd6a591ae02f1b94c93858017e0a1aa4f8653c88f264e9cb093aa2b3d4f00560d8c84347c33bb827c",
    "1b6aea27a9e2c6470a859f8342bfeed58ad50793b98c849d3800b076ad4a8f9fee3ab81df3ca81fa589af4716c241ee9",
];

#[test]
fn several_other_parents_have_these_digits(rt: HostRuntime) -> Result<(), Fail> {
    let alloc = rt.alloc();
    let keys = keys_of_four(&rt, alloc)?;
    let (_, own) = signed(alloc, &keys, 0, &None, 1, &[])?;
    let (_, second) = signed(alloc, &keys, 1, &None, 2, &[])?;
    let (_, third) = signed(alloc, &keys, 2, &None, 3, &[])?;
    let parents = parents_on(alloc, own, &[second, third])?;
    let spelled = encode_body(alloc, 0, &parents, 4, &[])?;
    let (sig, name) = signed(alloc, &keys, 0, &parents, 4, &[])?;
    let [body, signature, named] = JOINED;
    reads(&rt, alloc, 0, spelled.as_slice(), body)?;
    reads(&rt, alloc, 1, sig.as_slice(), signature)?;
    reads(&rt, alloc, 2, name.as_slice(), named)?;
    equal(&rt, 3, spelled.len() + sig.len(), 225);
    Ok(())
}

#[test]
fn transfers_have_these_digits(rt: HostRuntime) -> Result<(), Fail> {
    let alloc = rt.alloc();
    let keys = keys_of_four(&rt, alloc)?;
    let transfers = [30, 80].map(|amount| Transfer {
        receiver: 1,
        amount,
    });
    let payload = write_pay(alloc, &transfers)?;
    reads(
        &rt,
        alloc,
        0,
        payload.as_slice(),
        "020001000000000000001e00010000000000000050",
    )?;
    let (_, name) = signed(alloc, &keys, 0, &None, 1, payload.as_slice())?;
    let spelled = encode_body(alloc, 0, &None, 1, payload.as_slice())?;
    let digits = "4847453100000000000000000000010015020001000000000000001e00010000000000000050";
    reads(&rt, alloc, 1, spelled.as_slice(), digits)?;
    reads(&rt, alloc, 2, &name[..8], "c426c4e827faab19")?;
    Ok(())
}

// Lines 5 to 7 of a run of four members from the seed 1: taker, peer, time and payload.
const MADE: [(u16, u16, u64, &[u8]); 3] = [
    (0, 2, 5, b"\x01\x00\x01\x00\x00\x00\x00\x00\x00\x00\x0d"),
    (0, 2, 6, b"\x01\x00\x01\x00\x00\x00\x00\x00\x00\x00\x00"),
    (2, 0, 7, b"\x01\x00\x00\x00\x00\x00\x00\x00\x00\x00\x06"),
];

/// The fields of a sync, or of none.
fn sync_of(line: &Line) -> (u16, u16, u64, &[u8]) {
    match &line.action {
        Action::Part(
            Part::Gossip(
                Gossip::Sync {
                    taker,
                    peer,
                    time,
                    payload,
                },
            ),
        ) => (*taker, *peer, *time, payload.as_slice()),
        _ => (0, 0, 0, &[]),
    }
}

#[test]
fn made_lines_are_drawn_so(rt: HostRuntime) -> Result<(), Fail> {
    let alloc = rt.alloc();
    let (members, mut lines) = generate(alloc, 1, 4, 7)?;
    let lines = all_lines(alloc, &mut lines)?;
    equal(&rt, 0, lines.len(), 7);
    for (case, wanted) in MADE.iter().enumerate() {
        let line = lines.get(4 + case).ok_or("no line")?;
        equal(&rt, case, sync_of(line), *wanted);
    }
    let second = members.entries().get(1).ok_or("no member")?;
    reads(
        &rt,
        alloc,
        3,
        second.secret.as_slice(),
        "00000000000000010000000000000001",
    )?;
    equal(&rt, 4, second.stake, 1);
    equal(&rt, 5, Draws::new(0).below(1 << 32), 335_903_614);
    Ok(())
}
