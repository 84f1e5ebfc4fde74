ghost use Rattle.std.specs.Prelude.{◌≡◌, ◌≤◌, [], codes, length, option_map, sum_by, IfOk, ◌<◌, ◌^◌};
ghost use Rattle.std.specs.Option.{ok_or};
ghost use Rattle.toml.specs.Data.{as_array, get};
ghost use Rattle.toml.specs.View.{array_view, view};
ghost use Rattle.hg_life.specs.declared.members.MemberEntry.{MemberEntry};
ghost use Rattle.hg_life.specs.Members.{IsMemberList, listed};
ghost use Rattle.hg_life.specs.Results.{Reads, Gives};
ghost use Rattle.hg_members.specs.MemberFile as spec;

use crate::entry::checked_member;
use crate::fault::MemberFault;
use hg_life::{MemberEntry, Members};
use hg_model::{Memory, Stop};
use std::alloc::Global;
use toml::Value;
use toml::value::Array;

fn document_of(alloc: Global, bytes: &[u8]) -> Result<Value, Stop<MemberFault>>
    ensures { Gives view result (ok_or (spec.document_of bytes.now) MemberFault.NotToml) }
{
    match toml::table_from_slice(alloc, bytes) {
        Ok(table) => Ok(Value::Table(table)),
        Err(error) => {
            if error.is_memory() {
                Err(Stop::Memory)
            } else {
                Err(Stop::Fault(MemberFault::NotToml))
            }
        }
    }
}

fn checked_coin(number: i64) -> Result<u32, MemberFault>
    ensures { result ≡ spec.coin_number number }
{
    if 3 <= number && number <= 100 {
        Ok(number as u32)
    } else {
        Err(MemberFault::BadCoin(number))
    }
}

fn coin_in(document: &Value) -> Result<u32, MemberFault>
    ensures { result ≡ spec.coin_of (get (codes "coin") (view document.now)) }
{
    match document.get("coin") {
        Some(value) => checked_coin(value.as_integer().unwrap_or(0)),
        None => Ok(10),
    }
}

fn array_in(document: &Value) -> Option<&Array>
    ensures { option_map (λ array. array_view array.now) result ≡ spec.member_array (view document.now) }
{
    document.get("member")?.as_array()
}

#[tactic(auto, using(crate::proofs::Entries::count_of_items))]
fn entries_in(document: &Value) -> Result<&Array, MemberFault>
    ensures { Reads (λ array. array_view array.now) result (spec.member_entries (view document.now)) }
{
    let entries = array_in(document).ok_or(MemberFault::Count(0))?;
    let count = entries.len();
    if 2 <= count && count <= 128 {
        Ok(entries)
    } else {
        Err(MemberFault::Count(count))
    }
}

fn members_from(alloc: Global, entries: &Array) -> Result<Vec<MemberEntry>, Stop<MemberFault>>
    ensures { Gives (λ members. members.items) result (spec.members_after [] (array_view entries.now)) }
{
    let mut members = Vec::new(alloc);
    for entry in entries {
        let member = checked_member(alloc, members.as_slice(), entry)?;
        members.push(member)?;
    }
    Ok(members)
}

fn total(members: &[MemberEntry]) -> u128
    requires { length members.now ≤ 128 }
    ensures { result ≡ sum_by (λ (e : MemberEntry). e.balance) members.now }
{
    members.iter().map(|member| member.balance as u128).sum()
}

fn summed(members: Vec<MemberEntry>, coin: u32) -> Result<Members, MemberFault>
    requires few { length members.items ≤ 128 }
    requires lawful { sum_by (λ (e : MemberEntry). e.balance) members.items < 2 ^ 63 → IsMemberList (listed members.items coin) }
    ensures { Reads (λ m. m) result (spec.summed coin members.items) }
{
    if total(members.as_slice()) < 1 << 63 {
        Ok(Members::new(members, coin))
    } else {
        Err(MemberFault::SumTooLarge)
    }
}

fn members_in(alloc: Global, document: &Value) -> Result<Members, Stop<MemberFault>>
    ensures { Gives (λ members. members) result (spec.members_in (view document.now)) }
{
    let coin = coin_in(document)?;
    let entries = entries_in(document)?;
    let members = members_from(alloc, entries)?;
    Ok(summed(members, coin)?)
}

/// The members that the bytes of a member file tell, or the first fault.
#[tactic(auto, unfolding(crate::specs::MemberFile::members_of))]
pub fn read_members(alloc: Global, bytes: &[u8]) -> Result<Result<Members, MemberFault>, Memory>
    ensures { IfOk result (λ answer. answer ≡ spec.members_of bytes.now) }
{
    match document_of(alloc, bytes).and_then(|document| members_in(alloc, &document)) {
        Ok(members) => Ok(Ok(members)),
        Err(Stop::Fault(fault)) => Ok(Err(fault)),
        Err(Stop::Memory) => Err(Memory),
    }
}
