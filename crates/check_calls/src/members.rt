use hg_life::{MemberEntry, Members};
use hg_model::{Bytes, Memory};
use std::alloc::Global;
use std::process::Abort;

/// A member with a secret of one byte.
pub(crate) fn entry(
    alloc: Global,
    name: &[u8],
    secret: u8,
    balance: u64,
    has_node: bool,
) -> Result<MemberEntry, Memory> {
    Ok(MemberEntry {
        name: Bytes::from_vec(Vec::from_slice(alloc, name)?),
        secret: Bytes::from_vec(Vec::from_slice(alloc, &[secret])?),
        balance,
        stake: 1,
        has_node,
    })
}

/// These members with a coin period of 10 rounds. The tests' members are lawful.
pub(crate) fn members_of(rt: &impl Abort, entries: Vec<MemberEntry>) -> Members {
    Members::try_new(entries, 10)
        .ok()
        .expect(rt, "lawful members")
}

/// A, who has 100, and B, who has nothing.
pub(crate) fn two_members(rt: &impl Abort, alloc: Global) -> Result<Members, Memory> {
    let mut entries = Vec::new(alloc);
    entries.push(entry(alloc, b"A", 1, 100, true)?)?;
    entries.push(entry(alloc, b"B", 2, 0, true)?)?;
    Ok(members_of(rt, entries))
}
