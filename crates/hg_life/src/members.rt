ghost use Rattle.std.specs.Prelude.{◌≡◌, ◌<◌, length, map, position, IfErr, IfOk, IfSome, IsOk, ◌↔◌};
ghost use Rattle.std.specs.Str.{bytes_eq};
ghost use Rattle.hg_life.specs.declared.members.MemberEntry.{MemberEntry};

use crate::lawful::is_member_list;
use hg_model::{Bytes, Member, Memory};
use std::alloc::Global;
use std::marker::Model;

/// A member as the member file has it.
#[derive(Debug, Drop)]
pub struct MemberEntry {
    /// 1 to 16 ASCII letters, digits and `_`, the first a letter.
    pub name: Bytes,
    /// The key of the member's signatures, 1 to 128 bytes.
    pub secret: Bytes,
    /// What the member holds at the start.
    pub balance: u64,
    /// Whether the program runs a node for the member.
    pub has_node: bool,
    /// What the member weighs, at least 1.
    pub stake: u32,
}

/// The members and the coin period, always within the ranges of the member file.
#[derive(Debug, Drop)]
pub struct Members {
    entries: Vec<MemberEntry>,
    coin: u32,
}

impl Model for Members {
    ghost use Rattle.hg_life.specs.Members.{MemberList, IsMemberList};

    ghost Value = { MemberList };

    ghost view = { λ s. record { entries = s.entries.items; coin = s.coin } };

    ghost invariant = { λ s. IsMemberList (record { entries = s.entries.items; coin = s.coin }) };
}

fn place_in(entries: &[MemberEntry], name: &[u8]) -> Option<usize>
    ensures value { result ≡ position (λ (e : MemberEntry). bytes_eq e.name name.now) entries.now }
    ensures inside { IfSome result (λ place. place < length entries.now) }
{
    entries
        .iter()
        .position(|entry| entry.name.as_slice() == name)
}

/// The stakes of these members.
fn stakes_in(alloc: Global, entries: &[MemberEntry]) -> Result<Vec<u32>, Memory>
    ensures { IfOk result (λ stakes. stakes.items ≡ map (λ (e : MemberEntry). e.stake) entries.now) }
{
    let mut stakes = Vec::with_capacity(alloc, entries.len())?;
    for entry in entries {
        stakes.push(entry.stake)?;
    }
    Ok(stakes)
}

impl Members {
    ghost use Rattle.hg_life.specs.Members.{MemberList, IsMemberList, has_node, listed, member_named, stakes_of};
    ghost use Rattle.hg_model.specs.Stakes.{total};

    /// The members, of whom there are 2 to 128, and the coin period, 3 to 100 rounds.
    pub fn new(entries: Vec<MemberEntry>, coin: u32) -> Members
        requires { IsMemberList (listed entries.items coin) }
        ensures { result ≡ listed entries.items coin }
    {
        Members { entries, coin }
    }

    /// The members, where these are lawful: 2 to 128 of them, each with a name of 1 to 16 ASCII letters, digits and `_`,
    /// the first a letter, no name twice, a secret of 1 to 128 bytes, a stake of at least 1, all balances together below
    /// 2^63; and a coin period of 3 to 100 rounds. Else the entries come back.
    pub fn try_new(entries: Vec<MemberEntry>, coin: u32) -> Result<Members, Vec<MemberEntry>>
        ensures made { IfOk result (λ members. members ≡ listed entries.items coin) }
        ensures back { IfErr result (λ again. again.items ≡ entries.items) }
        ensures exact { IsOk result ↔ IsMemberList (listed entries.items coin) }
    {
        if is_member_list(entries.as_slice(), coin) {
            Ok(Members::new(entries, coin))
        } else {
            Err(entries)
        }
    }

    /// A law: what every list of members keeps to.
    pub fn is_lawful(&self)
        ensures { IsMemberList self.now }
    {
        self.entries();
    }

    /// The members in their order.
    pub fn entries(&self) -> &[MemberEntry]
        ensures value { result.now ≡ self.now.entries }
        ensures lawful { IsMemberList self.now }
    {
        self.entries.as_slice()
    }

    /// How many members there are.
    pub fn count(&self) -> u32
        ensures value { result ≡ length self.now.entries }
        ensures lawful { IsMemberList self.now }
    {
        self.entries.len() as u32
    }

    /// The members' stakes, in their order.
    pub fn stakes(&self, alloc: Global) -> Result<Vec<u32>, Memory>
        ensures value { IfOk result (λ stakes. stakes.items ≡ stakes_of self.now) }
        ensures some { 0 < total (stakes_of self.now) }
        ensures lawful { IsMemberList self.now }
    {
        stakes_in(alloc, self.entries.as_slice())
    }

    /// The coin period, in rounds.
    pub fn coin(&self) -> u32
        ensures value { result ≡ self.now.coin }
        ensures lawful { IsMemberList self.now }
    {
        self.coin
    }

    /// The number of the member with this name, if there is one.
    pub fn place_of(&self, name: &[u8]) -> Option<Member>
        ensures value { result ≡ member_named self.now name.now }
        ensures few { IfSome result (λ m. m < 128) }
    {
        match place_in(self.entries.as_slice(), name) {
            Some(place) => Some(place as Member),
            None => None,
        }
    }

    /// Whether the program runs a node for the member; false for a number that is no member's.
    pub fn has_node(&self, member: Member) -> bool
        ensures { result ≡ has_node self.now member }
    {
        match self.entries.get(member as usize) {
            Some(entry) => entry.has_node,
            None => false,
        }
    }
}
