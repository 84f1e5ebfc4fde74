ghost use Rattle.std.specs.Prelude.{◌≡◌, ◌≤◌, IfOk, length};
ghost use Rattle.hg_answering.specs.Told.{IsWindow, members_flagged, names_there};

use hg_model::{Bytes, Items, Member, Memory, Name};
use std::alloc::Global;

/// The members that are flagged.
#[tactic(auto, using(hg_model::proofs::PlacesLaws::list_steps))]
pub(crate) fn members_flagged(alloc: Global, flags: &[bool]) -> Result<Vec<Member>, Memory>
    requires { length flags.now ≤ 128 }
    ensures { IfOk result (λ members. members.items ≡ members_flagged flags.now) }
{
    let mut members = Vec::new(alloc);
    for m in 0..flags.len() {
        if flags[m] {
            members.push(m as Member)?;
        }
    }
    Ok(members)
}

/// The names that are there.
#[tactic(auto, using(hg_model::proofs::PlacesLaws::list_steps))]
pub(crate) fn names_there(alloc: Global, names: &[Option<Name>]) -> Result<Vec<Name>, Memory>
    ensures { IfOk result (λ found. found.items ≡ names_there names.now) }
{
    let mut found = Vec::new(alloc);
    for m in 0..names.len() {
        if let Some(name) = names[m] {
            found.push(name)?;
        }
    }
    Ok(found)
}

/// Where the window of a list of this length begins and ends that has at most `limit` items, from this place on.
pub(crate) fn window_of(len: usize, from: u64, limit: u64) -> (usize, usize)
    ensures { IsWindow len from limit result }
{
    let start = from.min(len as u64);
    let size = limit.min(len as u64 - start);
    (start as usize, (start + size) as usize)
}

/// A copy of these bytes.
pub(crate) fn copied(alloc: Global, bytes: &[u8]) -> Result<Bytes, Memory>
    ensures { IfOk result (λ copy. copy ≡ bytes.now) }
{
    Ok(Items::from_vec(Vec::from_slice(alloc, bytes)?))
}
