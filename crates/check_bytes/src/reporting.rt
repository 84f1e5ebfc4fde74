use crate::telling::equal;
use hg_io::{Failed, SinkMem};
use hg_life::{Effect, MakeAnswer, MakeFault, SyncMade, SyncReport};
use hg_model::{Bytes, Items, Memory};
use hg_outcome::{Block, NodeSummary, OrderLine, Outcome, Printed, Summary};
use hg_report::{summary_of, text_of};
use sha2::{Digest, Sha384};
use std::alloc::Global;
use std::test::Fail;

// As the description of the report's lines has them.
const TEXT: &str =
    "1 create made 0\n2 create refused missing-other 070707070707070707070707070707070707070707070707070707070707070707070707070707070707070707070707\n3 sync taken 4 refused 1 made 5\n12 sync taken 0 refused 0 made none full 16384\n13 freeze 20\n14 publish 7\nnode B events 20 forkers 1 round 4 closed 2 ordered 3\n1 A 0 round 2 time 18446744073709551615 paid 1 of 12\n2 B 7 round 2 time 9 unread\n3 A 1 round 3 time 9 -\nbalance A 100\nbalance B 0\n";

// The digest is that of another implementation.
const SUMMARY: &str =
    "node B events 20 forkers 1 round 4 closed 2 ordered 3\norder be9102e3314a9220c06d1ad479b298cb8928b470f3234e72dbc1a021c2f80fd9bff3208f94952ef479a293e0e6c839c6\ntotal 100\n";

// A sink with room for each of these texts, of which no call fails.
fn ample(alloc: Global) -> Result<SinkMem, Memory> {
    SinkMem::new(alloc, 65_536, 65_536, Vec::new(alloc))
}

fn outcome(alloc: Global) -> Result<Outcome, Fail> {
    let mut names = Vec::new(alloc);
    names.push(Bytes::from_vec(Vec::from_slice(alloc, b"A")?))?;
    names.push(Bytes::from_vec(Vec::from_slice(alloc, b"B")?))?;
    let mut printed = Vec::new(alloc);
    printed.push(Printed::Create {
        line: 1,
        answer: MakeAnswer::Made(0),
    })?;
    printed.push(Printed::Create {
        line: 2,
        answer: MakeAnswer::Refused(MakeFault::MissingOther([7; 48])),
    })?;
    printed.push(Printed::Sync {
        line: 3,
        report: SyncReport {
            taken: 4,
            refused: 1,
            made: SyncMade::Row(5),
        },
    })?;
    printed.push(Printed::Sync {
        line: 12,
        report: SyncReport {
            taken: 0,
            refused: 0,
            made: SyncMade::Fault(MakeFault::Full(16384)),
        },
    })?;
    printed.push(Printed::Freeze { line: 13, len: 20 })?;
    printed.push(Printed::Publish { line: 14, count: 7 })?;
    let order = [
        OrderLine {
            creator: 0,
            sequence: 0,
            received: 2,
            time: u64::MAX,
            effect: Effect::Paid { done: 1, of: 12 },
            name: [1; 48],
        },
        OrderLine {
            creator: 1,
            sequence: 7,
            received: 2,
            time: 9,
            effect: Effect::Unread,
            name: [2; 48],
        },
        OrderLine {
            creator: 0,
            sequence: 1,
            received: 3,
            time: 9,
            effect: Effect::Empty,
            name: [3; 48],
        },
    ];
    printed.push(Printed::Block(Block {
        member: 1,
        events: 20,
        forkers: 1,
        greatest: 4,
        closed: 2,
        order: Items::from_vec(Vec::from_slice(alloc, &order)?),
        balances: Items::from_vec(Vec::from_slice(alloc, &[100, 0])?),
    }))?;
    Ok(Outcome {
        names: Items::from_vec(names),
        printed: Items::from_vec(printed),
    })
}

// Of the same block.
fn summary(alloc: Global) -> Result<Summary, Fail> {
    let outcome = outcome(alloc)?;
    let mut hasher = Sha384::new();
    for byte in 1..4 {
        hasher.update(&[byte; 48]);
    }
    let mut nodes = Vec::new(alloc);
    nodes.push(NodeSummary {
        member: 1,
        events: 20,
        forkers: 1,
        greatest: 4,
        closed: 2,
        ordered: 3,
        digest: hasher.finalize(),
        total: 100,
    })?;
    Ok(Summary {
        names: outcome.names,
        nodes: Items::from_vec(nodes),
    })
}

#[test]
fn the_text_is_written(rt: HostRuntime) -> Result<(), Fail> {
    let outcome = outcome(rt.alloc())?;
    let mut sink = ample(rt.alloc())?;
    equal(&rt, 0, text_of(&outcome, &mut sink), Ok(()));
    equal(&rt, 1, sink.bytes() == TEXT.as_bytes(), true);
    let mut sink = ample(rt.alloc())?;
    equal(&rt, 2, summary_of(&summary(rt.alloc())?, &mut sink), Ok(()));
    equal(&rt, 3, sink.bytes() == SUMMARY.as_bytes(), true);
    Ok(())
}

#[test]
fn a_failed_call_stops_the_text(rt: HostRuntime) -> Result<(), Fail> {
    let alloc = rt.alloc();
    let outcome = outcome(alloc)?;
    let calls = TEXT.len().div_ceil(50);
    for call in 0..calls {
        let fails = vec![in alloc; call as u64]?;
        let mut sink = SinkMem::new(alloc, 1000, 50, fails)?;
        equal(&rt, call, text_of(&outcome, &mut sink), Err(Failed));
        let is_front = sink.bytes() == &TEXT.as_bytes()[..50 * call];
        equal(&rt, call, is_front, true);
    }
    Ok(())
}
