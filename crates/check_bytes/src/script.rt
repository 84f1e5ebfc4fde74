use crate::members::{entry, members_of};
use crate::telling::equal;
use hg_life::Members;
use hg_model::{Items, Memory};
use hg_reading::read_script;
use hg_script::{Line, ScriptFault, Why};
use std::alloc::{AllocError, Global};
use std::process::Abort;
use std::test::Fail;

/// The members m0 and m1, and n without a node.
fn three_members(rt: &impl Abort, alloc: Global) -> Result<Members, Memory> {
    let entries = [
        entry(alloc, b"m0", &[1], 0, true)?,
        entry(alloc, b"m1", &[1], 0, true)?,
        entry(alloc, b"n", &[1], 0, false)?,
    ];
    Ok(members_of(rt, Vec::from_array(alloc, entries)?))
}

fn lines_of(rt: &impl Abort, alloc: Global, bytes: &[u8]) -> Result<Items<Line>, Fail> {
    match read_script(alloc, bytes, &three_members(rt, alloc)?, 0)? {
        Ok(lines) => Ok(lines),
        Err(_) => Err("refused".into()),
    }
}

/// The fault in a run with so many workers.
fn fault_of(
    rt: &impl Abort,
    alloc: Global,
    bytes: &[u8],
    workers: u32,
) -> Result<Option<ScriptFault>, Fail> {
    Ok(read_script(alloc, bytes, &three_members(rt, alloc)?, workers)?.err())
}

const SCRIPT: &[u8] =
    b"create m1 2\ncreate m0 4 pay:m1=30\r\nsync\tm1  m0 4 \n\tsync m0 m1 18446744073709551615 hex:0aFF\n# labels\nraw a 00Ff\n\ngive m0 a\nname m1 m1\njoin m1 m1 7\nforge f n a m1 8\npull m1 m0\nalter g f 3 255\ncut h g 0\ngive m1 h\nforge i m0 - - 9\nshow m0\nnames m1\nsync m1 m0 00000000000000000028\nfreeze m1 15\npublish m0 0\nkept m1\njoin m1 m1,a,m1,a 9\nforge j n m1 a,m1 9";

// The number of each of its lines, and what the line does. A label is told by how many were made above it, whatever
// stands between.
const LINES: [(u64, &str); 22] = [
    (
        1,
        "Part(Gossip(Create { member: 1, time: 2, payload: Items { items: [] } }))",
    ),
    (
        2,
        "Part(Gossip(Create { member: 0, time: 4, payload: Items { items: [1, 0, 1, 0, 0, 0, 0, 0, 0, 0, 30] } }))",
    ),
    (
        3,
        "Part(Gossip(Sync { taker: 1, peer: 0, time: 4, payload: Items { items: [] } }))",
    ),
    (
        4,
        "Part(Gossip(Sync { taker: 0, peer: 1, time: 18446744073709551615, payload: Items { items: [10, 255] } }))",
    ),
    (6, "Part(Label(Raw { bytes: Items { items: [0, 255] } }))"),
    (8, "Part(Gossip(Give { member: 0, label: 0 }))"),
    (9, "Part(Label(Last { member: 1 }))"),
    (
        10,
        "Part(Gossip(Join { member: 1, others: Items { items: [1] }, time: 7, payload: Items { items: [] } }))",
    ),
    (
        11,
        "Part(Label(Forged { creator: 2, parents: Some((0, Items { items: [1] })), time: 8, payload: Items { items: [] } }))",
    ),
    (12, "Part(Gossip(Pull { taker: 1, peer: 0 }))"),
    (13, "Part(Label(Altered { label: 2, at: 3, mask: 255 }))"),
    (14, "Part(Label(Front { label: 3, len: 0 }))"),
    (15, "Part(Gossip(Give { member: 1, label: 4 }))"),
    (
        16,
        "Part(Label(Forged { creator: 0, parents: None, time: 9, payload: Items { items: [] } }))",
    ),
    (17, "Show { member: 0 }"),
    (18, "Names { member: 1 }"),
    (
        19,
        "Part(Gossip(Sync { taker: 1, peer: 0, time: 28, payload: Items { items: [] } }))",
    ),
    (20, "Freeze { member: 1, worker: 15 }"),
    (21, "Publish { member: 0, worker: 0 }"),
    (22, "Kept { member: 1 }"),
    (
        23,
        "Part(Gossip(Join { member: 1, others: Items { items: [1, 0, 1, 0] }, time: 9, payload: Items { items: [] } }))",
    ),
    (
        24,
        "Part(Label(Forged { creator: 2, parents: Some((1, Items { items: [0, 1] })), time: 9, payload: Items { items: [] } }))",
    ),
];

#[test]
fn lines_are_read(rt: HostRuntime) -> Result<(), Fail> {
    let lines = lines_of(&rt, rt.alloc(), SCRIPT)?;
    equal(&rt, 0, lines.as_slice().len(), LINES.len());
    for (case, (line, wanted)) in lines.as_slice().iter().zip(&LINES).enumerate() {
        let action = format!(in rt.alloc(); "{:?}", line.action)?;
        equal(&rt, case, (line.number, action.as_str()), *wanted);
    }
    Ok(())
}

#[test]
fn no_bytes_are_no_lines(rt: HostRuntime) -> Result<(), Fail> {
    let lines = lines_of(&rt, rt.alloc(), &[])?;
    equal(&rt, 0, lines.as_slice().len(), 0);
    Ok(())
}

/// A line that begins so, with so many digits.
fn digits_line(alloc: Global, front: &[u8], digits: usize) -> Result<Vec<u8>, AllocError> {
    let mut line = Vec::from_slice(alloc, front)?;
    for _ in 0..digits {
        line.push(b'0')?;
    }
    Ok(line)
}

const REFUSES: Option<ScriptFault> = Some(ScriptFault {
    line: 1,
    why: Why::Payload,
});

const DIGITS: [(&[u8], usize, Option<ScriptFault>); 5] = [
    (b"raw a ", 8191, REFUSES),
    (b"raw a ", 8192, None),
    (b"raw a ", 8194, REFUSES),
    (b"create m0 1 hex:", 2048, None),
    (b"create m0 1 hex:", 2050, REFUSES),
];

#[test]
fn digits_have_a_limit(rt: HostRuntime) -> Result<(), Fail> {
    for (front, digits, fault) in &DIGITS {
        let line = digits_line(rt.alloc(), front, *digits)?;
        let found = fault_of(&rt, rt.alloc(), line.as_slice(), 0)?;
        equal(&rt, *digits, found, *fault);
    }
    Ok(())
}

// What an implementation in another language answers to such lines.
const REFUSED: [(&[u8], u64, Why); 35] = [
    (b"create m1 1\ncreate m0 \xed\xa0\x80\n", 2, Why::Utf8),
    (b"createm1 m1 1\n", 1, Why::Word),
    (b"create\x0bm1 m1 1\n", 1, Why::Word),
    (b"create m1 1\nsync ? ? ? ? ? ? ? ?\r\n", 2, Why::Arity),
    (b"create m1 1\nsync m1 m0\n", 2, Why::Arity),
    (b"create m1, 1\n", 1, Why::Member),
    (b"create m1 1\nsync m1 m1 ?\n", 2, Why::Member),
    (b"sync m1 n ?\n", 1, Why::NoNode),
    (b"create m1 18446744073709551616\n", 1, Why::Number),
    (b"create m1 000000000000000000001\n", 1, Why::Number),
    (b"create m1 1\r", 1, Why::Number),
    (b"create m1 1\ncreate m1 2\n", 2, Why::NotFirst),
    (b"sync m1 m0 1\ncreate m1 1\n", 1, Why::First),
    (b"raw a 0G\n", 1, Why::Payload),
    (b"raw a hex:00\n", 1, Why::Payload),
    (b"give m1 a\nraw a 00\n", 1, Why::Label),
    (b"cut a a 1\n", 1, Why::Label),
    (b"raw a-b 00\n", 1, Why::Label),
    (b"raw a 00\nforge b m1 - a ?\n", 2, Why::Label),
    (b"raw a 00\nforge b m1 a - ?\n", 2, Why::Label),
    (b"raw a 00\nforge b m1 a a,a,a,a,a ?\n", 2, Why::Label),
    (b"raw a 00\nforge b m1 a a,,a ?\n", 2, Why::Label),
    (b"raw a 00\nforge b m1 a a, ?\n", 2, Why::Label),
    (b"raw a 00\nforge b m1 a -,a ?\n", 2, Why::Label),
    (b"raw a 00\nforge b m1 a a,- ?\n", 2, Why::Label),
    (b"raw a 00\nforge b m1 a,a a ?\n", 2, Why::Label),
    (b"raw a 00\njoin m1 a,b ?\n", 2, Why::Label),
    (b"raw a 00\njoin m1 a,a,a,a,a ?\n", 2, Why::Label),
    (b"raw a 00\nraw a ?\n", 2, Why::DoubleLabel),
    (b"raw a 00\nalter b a 0 256\n", 2, Why::Number),
    (b"raw a 00\njoin m1 a 1\n", 2, Why::First),
    (b"create m1 1 pay:m1=1,\n", 1, Why::Payload),
    (b"create m1 1 pay:m9=x\n", 1, Why::Member),
    (b"create m1 1 pay:#70000=1\n", 1, Why::Number),
    (b"freeze m1 16\n", 1, Why::Number),
];

#[test]
fn whys_are_known(rt: HostRuntime) -> Result<(), Fail> {
    for (case, (text, line, why)) in REFUSED.iter().enumerate() {
        let fault = ScriptFault {
            line: *line,
            why: *why,
        };
        equal(&rt, case, fault_of(&rt, rt.alloc(), text, 0)?, Some(fault));
    }
    Ok(())
}

const WITH_WORKERS: [(&[u8], Option<Why>); 5] = [
    (b"freeze m1 15", Some(Why::Workers)),
    (b"publish m0 0", Some(Why::Workers)),
    (b"kept m1", Some(Why::Workers)),
    (b"freeze m1 16", Some(Why::Number)),
    (b"show m1", None),
];

#[test]
fn workers_take_lines_away(rt: HostRuntime) -> Result<(), Fail> {
    for (case, (text, why)) in WITH_WORKERS.iter().enumerate() {
        let fault = fault_of(&rt, rt.alloc(), text, 1)?;
        equal(&rt, case, fault.map(|fault| fault.why), *why);
    }
    Ok(())
}
