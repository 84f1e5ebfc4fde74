ghost use Rattle.std.specs.Prelude.{◌≡◌, codes, IfOk};
ghost use Rattle.std.specs.Option.{option_copied};
ghost use Rattle.toml.specs.Data.{get};
ghost use Rattle.toml.specs.View.{view};
ghost use Rattle.hg_life.specs.Results.{Reads, Gives};
ghost use Rattle.hg_members.specs.MemberFile as spec;

use crate::fault::MemberFault;
use hex::FromHexError;
use hg_life::{MemberEntry, has_name, is_member_name};
use hg_model::{Bytes, Stop};
use std::alloc::{AllocError, Global};
use toml::Value;

fn entry_name(entry: &Value) -> Option<&str>
    ensures { option_copied result ≡ spec.entry_name (view entry.now) }
{
    let name = entry.get("name")?.as_str()?;
    if is_member_name(name.as_bytes()) {
        Some(name)
    } else {
        None
    }
}

fn decoded(alloc: Global, text: &str) -> Result<Option<Bytes>, AllocError>
    ensures { IfOk result (λ secret. secret ≡ spec.secret_form text.now) }
{
    if text.len() < 2 || text.len() > 256 {
        return Ok(None);
    }
    match hex::decode(alloc, text) {
        Ok(bytes) => Ok(Some(Bytes::from_vec(bytes))),
        Err(FromHexError::OutOfMemory) => Err(AllocError),
        Err(_) => Ok(None),
    }
}

fn entry_secret(alloc: Global, entry: &Value) -> Result<Option<Bytes>, AllocError>
    ensures { IfOk result (λ secret. secret ≡ spec.entry_secret (view entry.now)) }
{
    let Some(value) = entry.get("secret") else {
        return Ok(None);
    };
    let Some(text) = value.as_str() else {
        return Ok(None);
    };
    decoded(alloc, text)
}

fn balance_in(entry: &Value) -> Option<u64>
    ensures { result ≡ spec.balance_of (get (codes "balance") (view entry.now)) }
{
    let Some(value) = entry.get("balance") else {
        return Some(0);
    };
    let number = value.as_integer()?;
    if number < 0 {
        None
    } else {
        Some(number as u64)
    }
}

fn node_in(entry: &Value) -> Option<bool>
    ensures { result ≡ spec.node_flag (get (codes "node") (view entry.now)) }
{
    match entry.get("node") {
        Some(value) => value.as_bool(),
        None => Some(true),
    }
}

fn stake_number(number: i64) -> Option<u32>
    ensures { result ≡ spec.stake_number number }
{
    if 1 <= number && number < 1 << 32 {
        Some(number as u32)
    } else {
        None
    }
}

fn stake_in(entry: &Value) -> Option<u32>
    ensures { result ≡ spec.given_stake (get (codes "stake") (view entry.now)) }
{
    match entry.get("stake") {
        Some(value) => stake_number(value.as_integer()?),
        None => Some(1),
    }
}

fn name_of<'a>(earlier: &[MemberEntry], entry: &'a Value) -> Result<&'a str, MemberFault>
    ensures { Reads (λ name. name.now) result (spec.name_of earlier.now (view entry.now)) }
{
    let name = entry_name(entry).ok_or(MemberFault::BadName(earlier.len()))?;
    if has_name(earlier, name.as_bytes()) {
        return Err(MemberFault::DoubleName(earlier.len()));
    }
    Ok(name)
}

/// The member that an entry tells, behind the earlier ones.
pub fn checked_member(
    alloc: Global,
    earlier: &[MemberEntry],
    entry: &Value,
) -> Result<MemberEntry, Stop<MemberFault>>
    ensures { Gives (λ m. m) result (spec.checked_member earlier.now (view entry.now)) }
{
    let place = earlier.len();
    let name = name_of(earlier, entry)?;
    let secret = entry_secret(alloc, entry)?.ok_or(MemberFault::BadSecret(place))?;
    let balance = balance_in(entry).ok_or(MemberFault::BadBalance(place))?;
    let has_node = node_in(entry).ok_or(MemberFault::BadNode(place))?;
    let stake = stake_in(entry).ok_or(MemberFault::BadStake(place))?;
    let name = Bytes::from_vec(Vec::from_slice(alloc, name.as_bytes())?);
    Ok(MemberEntry {
        name,
        secret,
        balance,
        stake,
        has_node,
    })
}
