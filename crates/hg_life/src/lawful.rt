ghost use Rattle.std.specs.Prelude.{◌≡◌, ◌<◌, ◌≤◌, ◌*◌, ◌^◌, not, nat_lt, length, sum_by, true};
ghost use Rattle.std.specs.List.{list_all, list_any};
ghost use Rattle.std.specs.Str.{bytes_eq};
ghost use Rattle.hg_life.specs.declared.members.MemberEntry.{MemberEntry};
ghost use Rattle.hg_life.specs.Members.{are_in_range, are_named_apart, has_name, is_entry, is_member_list};

use crate::members::MemberEntry;
use crate::names::is_member_name;

fn is_entry(entry: &MemberEntry) -> bool
    ensures { result ≡ is_entry entry.now }
{
    let size = entry.secret.as_slice().len();
    is_member_name(entry.name.as_slice()) && 1 <= size && size <= 128 && 1 <= entry.stake
}

fn are_entries(entries: &[MemberEntry]) -> bool
    ensures { result ≡ list_all is_entry entries.now }
{
    entries.iter().all(|entry| is_entry(entry))
}

/// Whether some member has the name.
pub fn has_name(entries: &[MemberEntry], name: &[u8]) -> bool
    ensures { result ≡ has_name entries.now name.now }
{
    entries.iter().any(|entry| entry.name.as_slice() == name)
}

fn are_named_apart(entries: &[MemberEntry]) -> bool
    ensures { result ≡ are_named_apart entries.now }
{
    match entries {
        [] => true,
        [entry, rest @ ..] => !has_name(rest, entry.name.as_slice()) && are_named_apart(rest),
    }
}

/// Whether all balances together are below 2^63.
fn is_sum_small(entries: &[MemberEntry]) -> bool
    requires { length entries.now ≤ 128 }
    ensures { result ≡ nat_lt (sum_by (λ (e : MemberEntry). e.balance) entries.now) (2 ^ 63) }
{
    let mut sum: u128 = 0;
    for entry in entries {
        sum += u128::from(entry.balance);
    }
    sum < 1 << 63
}

fn are_in_range(entries: &[MemberEntry], coin: u32) -> bool
    ensures { result ≡ are_in_range entries.now coin }
{
    2 <= entries.len() && entries.len() <= 128 && 3 <= coin && coin <= 100
}

/// Whether these entries and this coin period keep to what every list of members keeps to.
pub fn is_member_list(entries: &[MemberEntry], coin: u32) -> bool
    ensures { result ≡ is_member_list entries.now coin }
{
    are_in_range(entries, coin)
        && are_entries(entries)
        && are_named_apart(entries)
        && is_sum_small(entries)
}
