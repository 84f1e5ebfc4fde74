ghost use Rattle.std.specs.Prelude.{◌≡◌, ◌≤◌, ◌<◌, IfOk};
ghost use Rattle.hg_life.specs.Members.{listed};
ghost use Rattle.check_graphs.specs.Made.{made_entries, made_entry, made_stake};

use hg_check::Dice;
use hg_life::{MemberEntry, Members};
use hg_model::{Bytes, Memory};
use std::alloc::Global;

/// What a graph is made by.
#[derive(Clone, Copy)]
pub struct Plan {
    /// 4 to 7.
    pub members: u32,
    /// 3 to 6 rounds.
    pub coin: u32,
    /// Whether members have stakes that differ, as those of every second graph. Of any stake less than a third is one
    /// member's who may fork.
    pub weighed: bool,
    /// How many events are made. Some of them are refused.
    pub events: u32,
    /// The members who fork. Where both would have a third of the stake or more, one does not come to it.
    pub forkers: Option<(u32, u32)>,
    /// Times rise with the rows, so that they fall on no line. Else they are drawn.
    pub rising: bool,
    /// Whether a row may have one to four other-parents, as in three of nine graphs. Else it has one.
    pub several: bool,
    pub ghost few: { members ≤ 7 },
    pub ghost some: { 4 ≤ members },
    pub ghost coin_low: { 3 ≤ coin },
    pub ghost coin_high: { coin ≤ 6 },
}

/// Whether the graph of this number must hold a fork: two of three do.
pub fn asks_for_fork(number: u32) -> bool {
    number % 3 != 0
}

/// The plan of the graph of this number, by its dice.
pub fn plan_of(number: u32, dice: &mut Dice) -> Plan {
    let members = 4 + dice.below(4);
    let forkers = if asks_for_fork(number) {
        Some((1 + dice.below(members - 1), 1 + dice.below(members - 1)))
    } else {
        None
    };
    Plan {
        members,
        coin: 3 + dice.below(4),
        weighed: number / 2 % 2 == 1,
        events: 44 + 11 * members + dice.below(12),
        forkers,
        rising: number % 2 == 0,
        several: number / 3 % 3 == 1,
    }
}

/// So many members, A, B, C and so on, of stakes that differ or of 1 each.
pub fn members_of(alloc: Global, count: u32, coin: u32, weighed: bool) -> Result<Members, Memory>
    requires some { 4 ≤ count }
    requires few { count ≤ 7 }
    requires coin_low { 3 ≤ coin }
    requires coin_high { coin ≤ 6 }
    ensures { IfOk result (λ members. members ≡ listed (made_entries weighed count) coin) }
{
    let mut entries = Vec::new(alloc);
    for number in 0..count {
        entries.push(entry_of(alloc, number as u8, weighed)?)?;
    }
    Ok(Members::new(entries, coin))
}

/// What the member of this number weighs.
fn stake_of(number: u8, weighed: bool) -> u32
    ensures { result ≡ made_stake weighed number }
{
    if weighed {
        1 + (u32::from(number) + 3) % 4
    } else {
        1
    }
}

/// The member of this number.
pub fn entry_of(alloc: Global, number: u8, weighed: bool) -> Result<MemberEntry, Memory>
    requires { number < 7 }
    ensures { IfOk result (λ entry. entry ≡ made_entry weighed number) }
{
    Ok(MemberEntry {
        name: Bytes::from_vec(Vec::from_slice(alloc, &[b'A' + number])?),
        secret: Bytes::from_vec(Vec::from_slice(alloc, &[number])?),
        balance: 0,
        stake: stake_of(number, weighed),
        has_node: true,
    })
}
