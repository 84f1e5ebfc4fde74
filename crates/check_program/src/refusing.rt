//! The member files and scripts that the program refuses, each with the first fault.

use crate::program::{FOUR, MEMBERS, REPORT, RUN, SCRIPT, ample, expect, expect_report, run};
use hg_members::MemberFault;
use hg_script::{ScriptFault, Why};
use hg_top::{Refusal, Status};
use std::alloc::Global;
use std::process::Abort;
use std::sync::Wait;
use std::test::Fail;
use std::thread::Threads;

/// The run over these files ends so, and tells this line.
fn expect_refusal<R: Abort + Threads + Wait + Sync>(
    rt: &R,
    alloc: Global,
    members: &str,
    script: &str,
    status: Status,
    err: &str,
) -> Result<(), Fail> {
    let out = ample(alloc)?;
    let ran = run(rt, alloc, RUN, members, script, &[], out)?;
    expect(rt, &ran, status, "", err);
    Ok(())
}

#[test]
fn refused_member_files(rt: HostRuntime) -> Result<(), Fail> {
    let one = "[[member]]\nname = \"A\"\nsecret = \"0b\"\n";
    for (file, fault, err) in [
        (one, MemberFault::Count(1), "hashgraph: members: count 1\n"),
        (
            "coin = -9223372036854775808\n",
            MemberFault::BadCoin(i64::MIN),
            "hashgraph: members: coin -9223372036854775808\n",
        ),
        (
            "coin = 2\n",
            MemberFault::BadCoin(2),
            "hashgraph: members: coin 2\n",
        ),
        (
            "member = [1, 2]\n",
            MemberFault::BadName(0),
            "hashgraph: members: name 0\n",
        ),
        (
            "coin\n",
            MemberFault::NotToml,
            "hashgraph: members: not-toml\n",
        ),
        (
            "[[member]]\nname = \"A\"\nsecret = \"0b\"\n[[member]]\nname = \"B\"\nsecret = \"0c\"\nstake = 0\n",
            MemberFault::BadStake(1),
            "hashgraph: members: stake 1\n",
        ),
    ] {
        let status = Status::Members(Refusal::Fault(fault));
        expect_refusal(&rt, rt.alloc(), file, SCRIPT, status, err)?;
    }
    Ok(())
}

#[test]
fn refused_scripts(rt: HostRuntime) -> Result<(), Fail> {
    for (script, line, why, err) in [
        (
            "sync A B 1\n",
            1,
            Why::First,
            "hashgraph: script line 1: first\n",
        ),
        (
            "# first\n\ncreate A 1\ncreate A 2\n",
            4,
            Why::NotFirst,
            "hashgraph: script line 4: not-first\n",
        ),
        (
            "create A 1\ncreate C x\n",
            2,
            Why::Member,
            "hashgraph: script line 2: member\n",
        ),
    ] {
        let status = Status::Script(Refusal::Fault(ScriptFault { line, why }));
        expect_refusal(&rt, rt.alloc(), MEMBERS, script, status, err)?;
    }
    Ok(())
}

#[test]
fn no_line_asks_for_marks_beside_workers(rt: HostRuntime) -> Result<(), Fail> {
    let alloc = rt.alloc();
    let line = "hashgraph run --members members.toml --script script.txt --workers 1";
    let script = "create A 1\nkept A\n";
    let ran = run(&rt, alloc, line, MEMBERS, script, &[], ample(alloc)?)?;
    let why = Why::Workers;
    let status = Status::Script(Refusal::Fault(ScriptFault { line: 2, why }));
    expect(&rt, &ran, status, "", "hashgraph: script line 2: workers\n");
    Ok(())
}

/// The text with so many empty lines behind it that it has this length.
fn padded(alloc: Global, text: &str, len: usize) -> Result<String, Fail> {
    let mut long = String::from_str(alloc, text)?;
    for _ in text.len()..len {
        long.push('\n')?;
    }
    Ok(long)
}

// A file of just so many bytes is read; one more is too many.
#[test]
fn long_member_files(rt: HostRuntime) -> Result<(), Fail> {
    let alloc = rt.alloc();
    let long = padded(alloc, MEMBERS, 1_048_576)?;
    expect_report(&rt, alloc, RUN, long.as_str(), SCRIPT, REPORT)?;
    let long = padded(alloc, MEMBERS, 1_048_577)?;
    let status = Status::Members(Refusal::TooLong);
    let err = "hashgraph: members: too-long\n";
    expect_refusal(&rt, alloc, long.as_str(), SCRIPT, status, err)
}

#[test]
fn long_scripts(rt: HostRuntime) -> Result<(), Fail> {
    let alloc = rt.alloc();
    let long = padded(alloc, SCRIPT, 16_777_217)?;
    let status = Status::Script(Refusal::TooLong);
    let err = "hashgraph: script: too-long\n";
    expect_refusal(&rt, alloc, MEMBERS, long.as_str(), status, err)
}

#[test]
fn labels_with_commas(rt: HostRuntime) -> Result<(), Fail> {
    for script in [
        "raw a 00\nforge b A a a,a,a,a,a 1\n",
        "raw a 00\nforge b A a a,,a 1\n",
        "raw a 00\nforge b A a -,a 1\n",
        "raw a 00\nforge b A a a,- 1\n",
    ] {
        let fault = ScriptFault {
            line: 2,
            why: Why::Label,
        };
        let status = Status::Script(Refusal::Fault(fault));
        let err = "hashgraph: script line 2: label\n";
        expect_refusal(&rt, rt.alloc(), FOUR, script, status, err)?;
    }
    Ok(())
}
