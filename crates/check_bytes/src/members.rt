//! Members, read from a file or made for the other tests.

use crate::telling::equal;
use hg_life::{MemberEntry, Members};
use hg_members::{MemberFault, read_members};
use hg_model::{Bytes, Memory};
use std::alloc::Global;
use std::process::Abort;
use std::test::Fail;

pub(crate) fn entry(
    alloc: Global,
    name: &[u8],
    secret: &[u8],
    balance: u64,
    has_node: bool,
) -> Result<MemberEntry, Memory> {
    Ok(MemberEntry {
        name: Bytes::from_vec(Vec::from_slice(alloc, name)?),
        secret: Bytes::from_vec(Vec::from_slice(alloc, secret)?),
        balance,
        stake: 1,
        has_node,
    })
}

/// These members with a coin period of 10 rounds. The tests' members are lawful.
pub(crate) fn members_of(rt: &impl Abort, entries: Vec<MemberEntry>) -> Members {
    Members::try_new(entries, 10)
        .ok()
        .expect(rt, "lawful members")
}

/// A, who has 100 and the key of the first example of RFC 4231, and B, who has nothing and that of the second.
pub(crate) fn two_members(rt: &impl Abort, alloc: Global) -> Result<Members, Memory> {
    let mut entries = Vec::new(alloc);
    entries.push(entry(alloc, b"A", &[0x0b; 20], 100, true)?)?;
    entries.push(entry(alloc, b"B", b"Jefe", 0, true)?)?;
    Ok(members_of(rt, entries))
}

fn fault_of(alloc: Global, text: &str) -> Result<Option<MemberFault>, Memory> {
    match read_members(alloc, text.as_bytes())? {
        Ok(_) => Ok(None),
        Err(fault) => Ok(Some(fault)),
    }
}

/// The entry has this name, this secret, this balance, this stake, and a node or none.
fn is_entry(rt: &impl Abort, entry: &MemberEntry, wanted: (&[u8], &[u8], u64, u32, bool)) {
    let found = (
        entry.name.as_slice(),
        entry.secret.as_slice(),
        entry.balance,
        entry.stake,
        entry.has_node,
    );
    equal(rt, 0, found, wanted);
}

#[test]
fn members_are_read(rt: HostRuntime) -> Result<(), Fail> {
    let text =
        "coin = 100\n[[member]]\nname = \"\\u0041\"\nsecret = \"0b0C\"\nbalance = 9223372036854775807\n[[member]]\nname = 'm_1'\nsecret = \"\"\"0d\"\"\"\nnode = false\nstake = 4_294_967_295\nother = 0\n";
    let Ok(members) = read_members(rt.alloc(), text.as_bytes())? else {
        return Err("refused".into());
    };
    assert_eq!(rt; members.coin(), 100);
    assert_eq!(rt; members.count(), 2);
    let first = &members.entries()[0];
    assert_eq!(rt; first.name.as_slice(), b"A".as_slice());
    is_entry(
        &rt,
        first,
        (b"A", &[0x0b, 0x0c], 9_223_372_036_854_775_807, 1, true),
    );
    is_entry(
        &rt,
        &members.entries()[1],
        (b"m_1", &[0x0d], 0, 4_294_967_295, false),
    );
    Ok(())
}

// What an implementation in another language answers to these files.
const FAULTS: [(&str, MemberFault); 14] = [
    (
        "coin = 10\ncoin = 10\n[[member]]\nname = \"A\"\nsecret = \"0b0b\"\n",
        MemberFault::NotToml,
    ),
    (
        "coin = -9223372036854775808\n",
        MemberFault::BadCoin(-9_223_372_036_854_775_808),
    ),
    ("coin = 0x65\n", MemberFault::BadCoin(101)),
    ("coin = 1979-05-27\n", MemberFault::BadCoin(0)),
    ("member = [1]\n", MemberFault::Count(1)),
    ("member = [1, 2]\n", MemberFault::BadName(0)),
    (
        "[[member]]\nname = \"A\"\nsecret = \"0b0b\"\n[[member]]\nname = \"A\"\nsecret = \"x\"\n",
        MemberFault::DoubleName(1),
    ),
    (
        "[[member]]\nname = \"B\"\nsecret = \"0c0c\"\n[[member]]\nname = \"A\"\n",
        MemberFault::BadSecret(1),
    ),
    (
        "[[member]]\nname = \"A\"\nsecret = \"0b\"\nbalance = -1\nnode = 1\n[[member]]\nname = \"B\"\nsecret = \"0c0c\"\n",
        MemberFault::BadBalance(0),
    ),
    (
        "[[member]]\nname = \"B\"\nsecret = \"0c0c\"\n[[member]]\nname = \"A\"\nsecret = \"0b\"\nnode = 1\n",
        MemberFault::BadNode(1),
    ),
    (
        "[[member]]\nname = \"A\"\nsecret = \"0b\"\nstake = 4294967296\n[[member]]\nname = \"B\"\nsecret = \"0c0c\"\nbalance = -1\n",
        MemberFault::BadStake(0),
    ),
    (
        "[[member]]\nname = \"B\"\nsecret = \"0c0c\"\n[[member]]\nname = \"A\"\nsecret = \"0b\"\nstake = true\n",
        MemberFault::BadStake(1),
    ),
    (
        "[[member]]\nname = \"B\"\nsecret = \"0c0c\"\n[[member]]\nname = \"A\"\nsecret = \"0b\"\nstake = 1.0\nnode = 1\n",
        MemberFault::BadNode(1),
    ),
    (
        "[[member]]\nname = \"A\"\nsecret = \"0b\"\nbalance = 9223372036854775807\n[[member]]\nname = \"B\"\nsecret = \"0b\"\nbalance = 1\n",
        MemberFault::SumTooLarge,
    ),
];

#[test]
fn faults_are_known(rt: HostRuntime) -> Result<(), Fail> {
    for (case, (text, wanted)) in FAULTS.iter().enumerate() {
        equal(&rt, case, fault_of(rt.alloc(), text)?, Some(*wanted));
    }
    Ok(())
}
