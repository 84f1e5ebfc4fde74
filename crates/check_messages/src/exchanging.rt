//! The commands `ask`, `serve` and `take` in the one call, over three files in memory. The messages of two members were worked
//! out by another implementation.

use hg_io::{DiskMem, NoGate, ShelfMem, SinkMem};
use hg_model::Memory;
use hg_top::{Status, hashgraph};
use std::alloc::Global;
use std::process::Abort;
use std::sync::Wait;
use std::test::Fail;
use std::thread::Threads;

pub(crate) const MEMBERS: &str =
    "coin = 10\n[[member]]\nname = \"A\"\nsecret = \"0b0b0b0b\"\nbalance = 100\n[[member]]\nname = \"B\"\nsecret = \"0c0c0c0c\"\n";

pub(crate) const SCRIPT: &str =
    "create A 1\ncreate B 2\nsync A B 3\nsync B A 4\nsync A B 5\nsync B A 6\nsync A B 7\nsync B A 8\n";

const ASK: &str = "hashgraph ask --members members.toml --script script.txt --own A";

const SERVE: &str =
    "hashgraph serve --members members.toml --script script.txt --own B --have message.bin";

const TAKE: &str =
    "hashgraph take --members members.toml --script script.txt --own A --rows message.bin";

// What A asks once both have gossiped, with its one tip, and what B answers: the one event that A has not.
const HAVE: &str =
    "484757310100000001d7c95c0b854716bf9c114ff49b2f28a371d6a41ee16170549c1d6084ea1327b57132e48f6b3e26cba96eb0929d2c4477";

const ROWS: &str =
    "48475731020000000148474531000101aa036e422f651b6ecdbe9a2000578ffd658191b6f16de44932e3bb42bd7dfd76d9f417565c25f89a0d6c53e18c51a0eed7c95c0b854716bf9c114ff49b2f28a371d6a41ee16170549c1d6084ea1327b57132e48f6b3e26cba96eb0929d2c4477000000000000000800000022a1c32711a966aa74a1212d4bb2c23a3d5e06b8ca2dec69f0f57227219b8c8b2b1eaa21dbc8ebeea5068da1f3595b368e67509e609aa8307f6c4073fc1472011c7ad8c460ea5ed56f7f55086555f6cea083f9c649ce725d5f71ab4d95bd3852ecd53c65b68140d0fccc2f5e645ef230";

// What A's node shows once it took B's event: it has the graph of B.
const TAKEN: &str =
    "taken 1 refused 0\nnode A events 8 forkers 0 round 4 closed 2 ordered 4\n1 A 0 round 2 time 1 -\n2 B 0 round 2 time 2 -\n3 A 1 round 2 time 3 -\n4 B 1 round 2 time 4 -\nbalance A 100\nbalance B 0\n";

/// One file more.
fn push_file(
    alloc: Global,
    files: &mut Vec<(String, Vec<u8>)>,
    name: &str,
    bytes: &[u8],
) -> Result<(), Memory> {
    let name = String::from_str(alloc, name)?;
    let bytes = Vec::from_slice(alloc, bytes)?;
    files.push((name, bytes))?;
    Ok(())
}

/// A shelf of a member file, a script and a message, of which the calls with these numbers fail.
fn shelf_of_three(
    alloc: Global,
    script: &str,
    message: &[u8],
    fails: &[u64],
) -> Result<ShelfMem, Memory> {
    let mut files = Vec::new(alloc);
    push_file(alloc, &mut files, "members.toml", MEMBERS.as_bytes())?;
    push_file(alloc, &mut files, "script.txt", script.as_bytes())?;
    push_file(alloc, &mut files, "message.bin", message)?;
    ShelfMem::new(alloc, files, Vec::from_slice(alloc, fails)?)
}

/// A sink with room for all that a test writes to it, of which no call fails.
pub(crate) fn ample(alloc: Global) -> Result<SinkMem, Memory> {
    SinkMem::new(alloc, 65_536, 65_536, Vec::new(alloc))
}

/// What a run came to, and what it wrote to standard output and standard error.
#[derive(Drop)]
struct Ran {
    status: Status,
    out: SinkMem,
    err: SinkMem,
}

fn words_of(alloc: Global, line: &str) -> Result<Vec<String>, Fail> {
    let mut owned = Vec::new(alloc);
    for word in line.split(' ') {
        owned.push(String::from_str(alloc, word)?)?;
    }
    Ok(owned)
}

/// Runs the program over these files, and with this sink for what it writes.
fn run<R: Threads + Wait + Sync>(
    rt: &R,
    alloc: Global,
    line: &str,
    mut shelf: ShelfMem,
    mut out: SinkMem,
) -> Result<Ran, Fail> {
    let words = words_of(alloc, line)?;
    let mut disk = DiskMem::new(alloc, 64, Vec::new(alloc))?;
    let mut err = ample(alloc)?;
    let status = hashgraph(
        rt,
        alloc,
        words.as_slice(),
        &mut shelf,
        &mut disk,
        &mut out,
        &mut err,
        &NoGate,
    );
    Ok(Ran { status, out, err })
}

/// The run ended so, and wrote just these.
fn expect(rt: &impl Abort, ran: &Ran, status: u8, out: &[u8], err: &str) {
    assert!(rt; ran.status.code() == status);
    assert!(rt; ran.out.bytes() == out);
    assert!(rt; ran.err.bytes() == err.as_bytes());
}

/// It writes just these bytes.
fn writes<R: Abort + Threads + Wait + Sync>(
    rt: &R,
    alloc: Global,
    line: &str,
    script: &str,
    message: &[u8],
    wanted: &[u8],
) -> Result<(), Fail> {
    let shelf = shelf_of_three(alloc, script, message, &[])?;
    let ran = run(rt, alloc, line, shelf, ample(alloc)?)?;
    expect(rt, &ran, 0, wanted, "");
    Ok(())
}

/// Where these calls of the shelf fail, it ends so, writes nothing, and tells this line.
fn refuses<R: Abort + Threads + Wait + Sync>(
    rt: &R,
    alloc: Global,
    line: &str,
    message: &[u8],
    fails: &[u64],
    status: u8,
    err: &str,
) -> Result<(), Fail> {
    let shelf = shelf_of_three(alloc, SCRIPT, message, fails)?;
    let ran = run(rt, alloc, line, shelf, ample(alloc)?)?;
    expect(rt, &ran, status, b"", err);
    Ok(())
}

fn bytes_of(alloc: Global, digits: &str) -> Result<Vec<u8>, Fail> {
    match hex::decode(alloc, digits) {
        Ok(bytes) => Ok(bytes),
        Err(_) => Err("no digits".into()),
    }
}

#[test]
fn two_nodes_gossip_by_files(rt: HostRuntime) -> Result<(), Fail> {
    let alloc = rt.alloc();
    let have = bytes_of(alloc, HAVE)?;
    let rows = bytes_of(alloc, ROWS)?;
    writes(&rt, alloc, ASK, SCRIPT, b"", have.as_slice())?;
    writes(&rt, alloc, SERVE, SCRIPT, have.as_slice(), rows.as_slice())?;
    writes(&rt, alloc, TAKE, SCRIPT, rows.as_slice(), TAKEN.as_bytes())
}

#[test]
fn nodes_without_events_gossip(rt: HostRuntime) -> Result<(), Fail> {
    let alloc = rt.alloc();
    let none = b"HGW1\x01\x00\x00\x00\x00".as_slice();
    writes(&rt, alloc, ASK, "", b"", none)?;
    let no_rows = b"HGW1\x02\x00\x00\x00\x00\x00".as_slice();
    writes(&rt, alloc, SERVE, "", none, no_rows)?;
    let block =
        "taken 0 refused 0\nnode A events 0 forkers 0 round 0 closed 0 ordered 0\nbalance A 100\nbalance B 0\n";
    writes(&rt, alloc, TAKE, "", no_rows, block.as_bytes())
}

#[test]
fn a_message_file_is_one_message_to_its_end(rt: HostRuntime) -> Result<(), Fail> {
    let alloc = rt.alloc();
    let mut rows = bytes_of(alloc, ROWS)?;
    rows.pop();
    let err = "hashgraph: wire: ended 234\n";
    refuses(&rt, alloc, TAKE, rows.as_slice(), &[], 10, err)?;
    rows.push(0x30)?;
    rows.push(0)?;
    let err = "hashgraph: wire: trailing 235\n";
    refuses(&rt, alloc, TAKE, rows.as_slice(), &[], 10, err)
}

#[test]
fn each_side_takes_the_others_kind(rt: HostRuntime) -> Result<(), Fail> {
    let alloc = rt.alloc();
    let have = bytes_of(alloc, HAVE)?;
    let err = "hashgraph: wire: kind 1\n";
    refuses(&rt, alloc, TAKE, have.as_slice(), &[], 10, err)?;
    let err = "hashgraph: wire: kind 2\n";
    refuses(&rt, alloc, SERVE, b"HGW1\x02", &[], 10, err)
}

#[test]
fn what_is_no_message_is_told(rt: HostRuntime) -> Result<(), Fail> {
    for (message, err) in [
        (b"HGV1".as_slice(), "hashgraph: wire: magic 2\n"),
        (b"", "hashgraph: wire: ended 0\n"),
        (b"HGW1\x02\x00\x10\x00\x00", "hashgraph: wire: ended 9\n"),
        (
            b"HGW1\x02\x00\x10\x00\x01",
            "hashgraph: wire: count 1048577\n",
        ),
        (
            b"HGW1\x02\x00\x00\x00\x01HGE1\x00\x00\x02",
            "hashgraph: wire: row 0 bad-kind 2\n",
        ),
        (
            b"HGW1\x02\x00\x00\x00\x01HGE0",
            "hashgraph: wire: row 0 bad-magic\n",
        ),
        (b"HGW1\x02\x00\x00\x00\x00\x02", "hashgraph: wire: flag 2\n"),
    ] {
        refuses(&rt, rt.alloc(), TAKE, message, &[], 10, err)?;
    }
    Ok(())
}

#[test]
fn only_a_members_node_gossips(rt: HostRuntime) -> Result<(), Fail> {
    for line in [
        "hashgraph ask --members members.toml --script script.txt --own C",
        "hashgraph serve --members members.toml --script none.txt --own a --have none.bin",
        "hashgraph take --members members.toml --script none.txt --own AB --rows none.bin",
    ] {
        refuses(
            &rt,
            rt.alloc(),
            line,
            b"",
            &[],
            3,
            "hashgraph: members: own\n",
        )?;
    }
    Ok(())
}

#[test]
fn there_must_be_a_message_file(rt: HostRuntime) -> Result<(), Fail> {
    let line = "hashgraph take --members members.toml --script script.txt --own A --rows none.bin";
    let err = "hashgraph: cannot read the message file\n";
    refuses(&rt, rt.alloc(), line, b"", &[], 1, err)
}

// The member file and the script take six calls of the shelf.
#[test]
fn failing_reads_of_the_message(rt: HostRuntime) -> Result<(), Fail> {
    let alloc = rt.alloc();
    let rows = bytes_of(alloc, ROWS)?;
    let err = "hashgraph: cannot read the message file\n";
    for call in 6..9 {
        refuses(&rt, alloc, TAKE, rows.as_slice(), &[call], 1, err)?;
    }
    Ok(())
}

// Each write of the sink takes one byte.
#[test]
fn a_failing_write_of_a_message(rt: HostRuntime) -> Result<(), Fail> {
    let alloc = rt.alloc();
    let mut have = bytes_of(alloc, HAVE)?;
    have.truncate(40);
    let shelf = shelf_of_three(alloc, SCRIPT, b"", &[])?;
    let out = SinkMem::new(alloc, 64, 1, Vec::from_slice(alloc, &[40])?)?;
    let ran = run(&rt, alloc, ASK, shelf, out)?;
    expect(&rt, &ran, 5, have.as_slice(), "hashgraph: cannot write\n");
    Ok(())
}
