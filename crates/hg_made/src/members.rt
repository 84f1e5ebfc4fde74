ghost use Rattle.std.specs.Prelude.{◌≡◌, ◌≤◌, ◌<◌, IfOk};
ghost use Rattle.hg_made.specs.Made.{made_member, made_members, member_name, member_secret};

use hg_life::{MemberEntry, Members};
use hg_model::{Bytes, Items, Memory};
use itoa::Buffer;
use std::alloc::Global;

/// The name of a member.
fn member_name(alloc: Global, member: u32) -> Result<Bytes, Memory>
    ensures { IfOk result (λ name. name ≡ member_name member) }
{
    let mut name = Vec::from_slice(alloc, b"m")?;
    name.extend_from_slice(Buffer::new().format(member).as_bytes())?;
    Ok(Items::from_vec(name))
}

/// The secret of a member.
fn member_secret(alloc: Global, seed: u64, member: u32) -> Result<Bytes, Memory>
    ensures { IfOk result (λ secret. secret ≡ member_secret seed member) }
{
    let mut secret = Vec::from_slice(alloc, &seed.to_be_bytes())?;
    secret.extend_from_slice(&u64::from(member).to_be_bytes())?;
    Ok(Items::from_vec(secret))
}

/// A member with a node.
fn made_member(alloc: Global, seed: u64, member: u32) -> Result<MemberEntry, Memory>
    ensures { IfOk result (λ entry. entry ≡ made_member seed member) }
{
    Ok(MemberEntry {
        name: member_name(alloc, member)?,
        secret: member_secret(alloc, seed, member)?,
        balance: 1000,
        stake: 1,
        has_node: true,
    })
}

/// So many members.
pub(crate) fn made_members(alloc: Global, seed: u64, members: u32) -> Result<Members, Memory>
    requires some { 2 ≤ members }
    requires few { members ≤ 128 }
    ensures { IfOk result (λ made. made ≡ made_members seed members) }
{
    let mut entries = Vec::new(alloc);
    for member in 0..members {
        entries.push(made_member(alloc, seed, member)?)?;
    }
    Ok(Members::new(entries, 10))
}
