use hg_io::{DiskMem, NoGate, ShelfMem, SinkMem};
use hg_model::Memory;
use hg_top::{File, NoWords, Status, hashgraph, without_words};
use std::alloc::Global;
use std::process::Abort;
use std::sync::Wait;
use std::test::Fail;
use std::thread::Threads;

pub(crate) const MEMBERS: &str =
    "coin = 10\n[[member]]\nname = \"A\"\nsecret = \"0b0b0b0b\"\nbalance = 100\n[[member]]\nname = \"B\"\nsecret = \"0c0c0c0c\"\n";

pub(crate) const SCRIPT: &str =
    "create A 1\ncreate B 2\nsync A B 3\nsync B A 4\nsync A B 5\nsync B A 6\nsync A B 7\nsync B A 8\n";

pub(crate) const REPORT: &str =
    "1 create made 0\n2 create made 0\n3 sync taken 1 refused 0 made 2\n4 sync taken 2 refused 0 made 3\n5 sync taken 1 refused 0 made 4\n6 sync taken 1 refused 0 made 5\n7 sync taken 1 refused 0 made 6\n8 sync taken 1 refused 0 made 7\nnode A events 7 forkers 0 round 3 closed 1 ordered 0\nbalance A 100\nbalance B 0\nnode B events 8 forkers 0 round 4 closed 2 ordered 4\n1 A 0 round 2 time 1 -\n2 B 0 round 2 time 2 -\n3 A 1 round 2 time 3 -\n4 B 1 round 2 time 4 -\nbalance A 100\nbalance B 0\n";

pub(crate) const RUN: &str = "hashgraph run --members members.toml --script script.txt";

const USAGE: &str =
    "hashgraph: usage: run --members FILE --script FILE [--workers K] or make --members N --lines L --seed S [--workers K] or keep --members FILE --events FILE --own NAME --disk FILE [--time T] or prove --members FILE --script FILE --own NAME or check --members FILE --proof FILE or storm --members FILE --turns T --seed S [--room R] or ask --members FILE --script FILE --own NAME or serve --members FILE --script FILE --own NAME --have FILE or take --members FILE --script FILE --own NAME --rows FILE\n";

/// A shelf of two files, each with its name, whose calls with these numbers fail.
fn shelf_of(
    alloc: Global,
    first: (&str, &[u8]),
    second: (&str, &[u8]),
    fails: Vec<u64>,
) -> Result<ShelfMem, Memory> {
    let mut files = Vec::new(alloc);
    for (name, bytes) in [first, second] {
        files.push((
            String::from_str(alloc, name)?,
            Vec::from_slice(alloc, bytes)?,
        ))?;
    }
    ShelfMem::new(alloc, files, fails)
}

/// A sink with room for all that a test writes to it, of which no call fails.
pub(crate) fn ample(alloc: Global) -> Result<SinkMem, Memory> {
    SinkMem::new(alloc, 65_536, 65_536, Vec::new(alloc))
}

/// What a run came to, and what it wrote to standard output and standard error.
#[derive(Drop)]
pub(crate) struct Ran {
    pub(crate) status: Status,
    pub(crate) out: SinkMem,
    pub(crate) err: SinkMem,
}

fn words_of(alloc: Global, line: &str) -> Result<Vec<String>, Fail> {
    let mut owned = Vec::new(alloc);
    for word in line.split(' ') {
        owned.push(String::from_str(alloc, word)?)?;
    }
    Ok(owned)
}

/// Runs the program over two files, with calls of the shelf that fail, and with a sink for the report.
pub(crate) fn run<R: Threads + Wait + Sync>(
    rt: &R,
    alloc: Global,
    line: &str,
    members: &str,
    script: &str,
    fails: &[u64],
    mut out: SinkMem,
) -> Result<Ran, Fail> {
    let words = words_of(alloc, line)?;
    let mut shelf = shelf_of(
        alloc,
        ("members.toml", members.as_bytes()),
        ("script.txt", script.as_bytes()),
        Vec::from_slice(alloc, fails)?,
    )?;
    let mut disk = DiskMem::new(alloc, 1024, Vec::new(alloc))?;
    let mut err = ample(alloc)?;
    let status = hashgraph(
        rt,
        alloc,
        words.as_slice(),
        &mut shelf,
        &mut disk,
        &mut out,
        &mut err,
        &NoGate,
    );
    Ok(Ran { status, out, err })
}

/// The run came to this, and wrote just these.
pub(crate) fn expect(rt: &impl Abort, ran: &Ran, status: Status, out: &str, err: &str) {
    assert!(rt; ran.status == status);
    assert!(rt; ran.out.bytes() == out.as_bytes());
    assert!(rt; ran.err.bytes() == err.as_bytes());
}

/// The run over these files ends well, and writes this.
pub(crate) fn expect_report<R: Abort + Threads + Wait + Sync>(
    rt: &R,
    alloc: Global,
    line: &str,
    members: &str,
    script: &str,
    out: &str,
) -> Result<(), Fail> {
    let ran = run(rt, alloc, line, members, script, &[], ample(alloc)?)?;
    expect(rt, &ran, Status::Done, out, "");
    Ok(())
}

const OF_SEVEN: &str =
    "coin = 10\n[[member]]\nname = \"A\"\nsecret = \"0b0b0b0b\"\nbalance = 100\nstake = 7\n[[member]]\nname = \"B\"\nsecret = \"0c0c0c0c\"\nstake = 7\n";

// Of two members with as much stake each no more is decided than of two with none given.
#[test]
fn two_members_of_a_greater_stake(rt: HostRuntime) -> Result<(), Fail> {
    expect_report(&rt, rt.alloc(), RUN, OF_SEVEN, SCRIPT, REPORT)
}

#[test]
fn two_members(rt: HostRuntime) -> Result<(), Fail> {
    for line in [
        RUN,
        "hashgraph run --members members.toml --script script.txt --workers 1",
        "hashgraph run --members members.toml --script script.txt --workers 16",
    ] {
        expect_report(&rt, rt.alloc(), line, MEMBERS, SCRIPT, REPORT)?;
    }
    Ok(())
}

// The last row of the table of failing reads: both files take six calls of the shelf, so that the seventh is none of them.
#[test]
fn no_seventh_call_of_the_shelf(rt: HostRuntime) -> Result<(), Fail> {
    let alloc = rt.alloc();
    let ran = run(&rt, alloc, RUN, MEMBERS, SCRIPT, &[6], ample(alloc)?)?;
    expect(&rt, &ran, Status::Done, REPORT, "");
    Ok(())
}

// The digest is that of no bytes.
#[test]
fn made_runs(rt: HostRuntime) -> Result<(), Fail> {
    let alloc = rt.alloc();
    for (line, out) in [
        (
            "hashgraph make --members 2 --lines 0 --seed 7",
            "node m0 events 0 forkers 0 round 0 closed 0 ordered 0\norder 38b060a751ac96384cd9327eb1b1e36a21fdb71114be07434c0cc7bf63f6e1da274edebfe76f65fbd51ad2f14898b95b\ntotal 2000\nnode m1 events 0 forkers 0 round 0 closed 0 ordered 0\norder 38b060a751ac96384cd9327eb1b1e36a21fdb71114be07434c0cc7bf63f6e1da274edebfe76f65fbd51ad2f14898b95b\ntotal 2000\n",
        ),
        (
            "hashgraph make --members 2 --lines 2 --seed 7 --workers 2",
            "node m0 events 1 forkers 0 round 1 closed 0 ordered 0\norder 38b060a751ac96384cd9327eb1b1e36a21fdb71114be07434c0cc7bf63f6e1da274edebfe76f65fbd51ad2f14898b95b\ntotal 2000\nnode m1 events 1 forkers 0 round 1 closed 0 ordered 0\norder 38b060a751ac96384cd9327eb1b1e36a21fdb71114be07434c0cc7bf63f6e1da274edebfe76f65fbd51ad2f14898b95b\ntotal 2000\n",
        ),
        (
            "hashgraph make --members 2 --lines 3 --seed 7",
            "node m0 events 3 forkers 0 round 1 closed 0 ordered 0\norder 38b060a751ac96384cd9327eb1b1e36a21fdb71114be07434c0cc7bf63f6e1da274edebfe76f65fbd51ad2f14898b95b\ntotal 2000\nnode m1 events 1 forkers 0 round 1 closed 0 ordered 0\norder 38b060a751ac96384cd9327eb1b1e36a21fdb71114be07434c0cc7bf63f6e1da274edebfe76f65fbd51ad2f14898b95b\ntotal 2000\n",
        ),
    ] {
        let ran = run(&rt, alloc, line, "", "", &[0, 1], ample(alloc)?)?;
        expect(&rt, &ran, Status::Done, out, "");
    }
    Ok(())
}

const STORM: &str = "hashgraph storm --members members.toml --turns 1 --seed 7";

const STORMED: &str =
    "node A events 2 forkers 0 round 1 closed 0 ordered 0\nnode B events 2 forkers 0 round 1 closed 0 ordered 0\n";

// However threads run, two members have made an event each after one turn, and none after no turn.
#[test]
fn storms(rt: HostRuntime) -> Result<(), Fail> {
    let alloc = rt.alloc();
    let ran = run(&rt, alloc, STORM, MEMBERS, "", &[], ample(alloc)?)?;
    expect(&rt, &ran, Status::Done, STORMED, "");
    let still = "hashgraph storm --members members.toml --turns 0 --seed 7 --room 1";
    let ran = run(&rt, alloc, still, MEMBERS, "", &[], ample(alloc)?)?;
    expect(
        &rt,
        &ran,
        Status::Done,
        "node A events 0 forkers 0 round 0 closed 0 ordered 0\nnode B events 0 forkers 0 round 0 closed 0 ordered 0\n",
        "",
    );
    let ran = run(&rt, alloc, STORM, MEMBERS, "", &[1], ample(alloc)?)?;
    let fault = Status::ReadFault(File::Members);
    expect(
        &rt,
        &ran,
        fault,
        "",
        "hashgraph: cannot read the member file\n",
    );
    let out = SinkMem::new(alloc, 65_536, 1, Vec::from_slice(alloc, &[8])?)?;
    let ran = run(&rt, alloc, STORM, MEMBERS, "", &[], out)?;
    expect(
        &rt,
        &ran,
        Status::WriteFault,
        "node A e",
        "hashgraph: cannot write\n",
    );
    Ok(())
}

const OF_NO_LINE: &str =
    "node A events 0 forkers 0 round 0 closed 0 ordered 0\nbalance A 100\nbalance B 0\nnode B events 0 forkers 0 round 0 closed 0 ordered 0\nbalance A 100\nbalance B 0\n";

const OF_A_BARE_PEER: &str =
    "1 create made 0\n2 sync taken 0 refused 0 made none peer-bare\nnode A events 1 forkers 0 round 1 closed 0 ordered 0\nbalance A 100\nbalance B 0\nnode B events 0 forkers 0 round 0 closed 0 ordered 0\nbalance A 100\nbalance B 0\n";

#[test]
fn empty_script_and_bare_peer(rt: HostRuntime) -> Result<(), Fail> {
    let alloc = rt.alloc();
    expect_report(&rt, alloc, RUN, MEMBERS, "", OF_NO_LINE)?;
    let script = "create A 1\nsync A B 2\n";
    expect_report(&rt, alloc, RUN, MEMBERS, script, OF_A_BARE_PEER)
}

/// With each of these calls of the shelf failing, the run ends at this file, and tells it so.
fn expect_read_fault<R: Abort + Threads + Wait + Sync>(
    rt: &R,
    alloc: Global,
    calls: &[u64],
    file: File,
    err: &str,
) -> Result<(), Fail> {
    for call in calls {
        let fails = [*call];
        let out = ample(alloc)?;
        let ran = run(rt, alloc, RUN, MEMBERS, SCRIPT, &fails, out)?;
        expect(rt, &ran, Status::ReadFault(file), "", err);
    }
    Ok(())
}

#[test]
fn failing_reads(rt: HostRuntime) -> Result<(), Fail> {
    let members = "hashgraph: cannot read the member file\n";
    let script = "hashgraph: cannot read the script\n";
    expect_read_fault(&rt, rt.alloc(), &[0, 1, 2], File::Members, members)?;
    expect_read_fault(&rt, rt.alloc(), &[3, 4, 5], File::Script, script)
}

/// So many bytes of the report are written, and the fault is told.
fn expect_front(rt: &impl Abort, ran: &Ran, len: usize) {
    assert!(rt; ran.status == Status::WriteFault);
    assert!(rt; ran.out.bytes().len() == len);
    assert!(rt; REPORT.as_bytes().starts_with(ran.out.bytes()));
    assert!(rt; ran.err.bytes() == b"hashgraph: cannot write\n".as_slice());
}

/// Where this call of a sink fails that takes one byte a call, the bytes before it are written, and the fault is told.
fn expect_write_fault<R: Abort + Threads + Wait + Sync>(
    rt: &R,
    alloc: Global,
    call: usize,
) -> Result<(), Fail> {
    let fails = vec![in alloc; call as u64]?;
    let out = SinkMem::new(alloc, 65_536, 1, fails)?;
    let ran = run(rt, alloc, RUN, MEMBERS, SCRIPT, &[], out)?;
    expect_front(rt, &ran, call);
    Ok(())
}

#[test]
fn failing_writes(rt: HostRuntime) -> Result<(), Fail> {
    for call in 0..REPORT.len() {
        expect_write_fault(&rt, rt.alloc(), call)?;
    }
    Ok(())
}

/// The words of this line are none of a command, which is told.
fn expect_usage<R: Abort + Threads + Wait + Sync>(
    rt: &R,
    alloc: Global,
    line: &str,
) -> Result<(), Fail> {
    let ran = run(rt, alloc, line, MEMBERS, SCRIPT, &[], ample(alloc)?)?;
    expect(rt, &ran, Status::Usage, "", USAGE);
    Ok(())
}

#[test]
fn faulty_words(rt: HostRuntime) -> Result<(), Fail> {
    for line in [
        "hashgraph",
        "hashgraph run --members -m --script script.txt",
        "hashgraph run --members members.toml --script script.txt --workers 17",
        "hashgraph make --members 1 --lines 0 --seed 7",
        "hashgraph storm --members members.toml --turns 10001 --seed 1",
    ] {
        expect_usage(&rt, rt.alloc(), line)?;
    }
    Ok(())
}

/// The run without words ends so, and tells this line.
fn expect_no_words(
    rt: &impl Abort,
    alloc: Global,
    why: NoWords,
    status: Status,
    code: u8,
    line: &str,
) -> Result<(), Fail> {
    let mut err = ample(alloc)?;
    assert!(rt; without_words(why, &mut err) == status);
    assert!(rt; status.code() == code);
    assert!(rt; err.bytes() == line.as_bytes());
    Ok(())
}

#[test]
fn words_that_could_not_be_read(rt: HostRuntime) -> Result<(), Fail> {
    let alloc = rt.alloc();
    expect_no_words(&rt, alloc, NoWords::NotText, Status::Usage, 2, USAGE)?;
    let line = "hashgraph: out of memory\n";
    expect_no_words(&rt, alloc, NoWords::Memory, Status::Memory, 6, line)
}

pub(crate) const FOUR: &str =
    "coin = 10\n[[member]]\nname = \"A\"\nsecret = \"0b0b0b0b\"\n[[member]]\nname = \"B\"\nsecret = \"0c0c0c0c\"\n[[member]]\nname = \"C\"\nsecret = \"0d0d0d0d\"\n[[member]]\nname = \"D\"\nsecret = \"0e0e0e0e\"\n";

// A makes an event on those of B and C. Cut, it comes to B, and whole to D before its parents do and again after each.
// Then A is to make one on bytes that are no event, on its own row, and on two others' twice.
const SEVERAL: &str =
    "create A 1\ncreate B 2\ncreate C 3\nname a A\nname b B\nname c C\npull A B\npull A C\njoin A b,c 4\nname x A\ncut y x 224\ngive B y\ngive D x\ngive D a\ngive D x\ngive D b\ngive D x\ngive D c\ngive D x\ngive D x\nraw q 00\njoin A b,q,x 5\njoin A b,x 5\njoin A c,b,c,b 5\n";

const SEVERAL_REPORT: &str =
    "1 create made 0\n2 create made 0\n3 create made 0\n7 pull taken 1 refused 0\n8 pull taken 1 refused 0\n9 join made 3\n12 give refused short 224\n13 give refused missing-self 433ea625c706b3623c0624e37c933c8741229785e21dec535b8a31165c73eed9a3ff6ae35f43dd762c27b3d01a5c8f0f\n14 give accepted 0\n15 give refused missing-other 34b55303a5ee1bf3ef4c86aeac9b5e8f051052620c9f71db64a64e32f9556614228fe716b813cfe6735cdff79859631f\n16 give accepted 1\n17 give refused missing-other 4f158a6df2df0ec8bf90731597465ba126539918991cc57a4b056ae998f8a39747eff56f6041dce6dfd257c05bd9fa32\n18 give accepted 2\n19 give accepted 3\n20 give known 3\n22 join refused missing-other bec021b4f368e3069134e012c2b4307083d3a9bdd206e24e5f0d86e13d6636655933ec2b413465966817a9c208a11717\n23 join refused other-creator 3\n24 join made 4\nnode A events 5 forkers 0 round 1 closed 0 ordered 0\nbalance A 0\nbalance B 0\nbalance C 0\nbalance D 0\nnode B events 1 forkers 0 round 1 closed 0 ordered 0\nbalance A 0\nbalance B 0\nbalance C 0\nbalance D 0\nnode C events 1 forkers 0 round 1 closed 0 ordered 0\nbalance A 0\nbalance B 0\nbalance C 0\nbalance D 0\nnode D events 4 forkers 0 round 1 closed 0 ordered 0\nbalance A 0\nbalance B 0\nbalance C 0\nbalance D 0\n";

#[test]
fn several_other_parents(rt: HostRuntime) -> Result<(), Fail> {
    expect_report(&rt, rt.alloc(), RUN, FOUR, SEVERAL, SEVERAL_REPORT)
}
