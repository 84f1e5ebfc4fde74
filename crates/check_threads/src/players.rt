//! Two members, the nodes that they play with, and what a node does that no one shares.

ghost use Rattle.std.specs.Prelude.{◌≡◌, ◌<◌, IfOk, IsTrue, length};
ghost use Rattle.hg_life.specs.NodeView.{kept_of, node_rows};
ghost use Rattle.check_threads.specs.Rows.{HaveSameRows, IsSpelledAlike};

use hg_check::{Trouble, are_equal};
use hg_life::{MemberEntry, Members};
use hg_model::{Bytes, Member, Memory};
use hg_node::Node;
use hg_sign::MacTable;
use std::alloc::Global;

/// How often each of the two syncs with the other.
const SYNCS: u64 = 5;

/// What has a node. To let this go is one call, which is proved once.
pub struct Player {
    pub node: Node<MacTable>,
}

impl Drop for Player {
    fn drop(self) {
        let Player { node } = self;
        drop(node);
    }
}

/// A member of this name and secret, with a stake of 1.
pub fn entry(
    alloc: Global,
    name: u8,
    secret: u8,
    balance: u64,
    has_node: bool,
) -> Result<MemberEntry, Memory> {
    Ok(MemberEntry {
        name: Bytes::from_vec(Vec::from_slice(alloc, &[name])?),
        secret: Bytes::from_vec(Vec::from_slice(alloc, &[secret; 4])?),
        balance,
        stake: 1,
        has_node,
    })
}

/// A, who has 100, and B, who has nothing.
fn two_entries(alloc: Global) -> Result<Vec<MemberEntry>, Memory> {
    let mut entries = Vec::new(alloc);
    entries.push(entry(alloc, b'A', 0x0b, 100, true)?)?;
    entries.push(entry(alloc, b'B', 0x0c, 0, true)?)?;
    Ok(entries)
}

/// A and B, with a coin period of 10 rounds.
pub fn two_members(alloc: Global) -> Result<Members, Trouble> {
    match Members::try_new(two_entries(alloc)?, 10) {
        Ok(members) => Ok(members),
        Err(_entries) => Err(Trouble::Members),
    }
}

/// The node of the member of this number, without rows.
pub fn node_of(alloc: Global, members: &Members, own: Member) -> Result<Node<MacTable>, Trouble> {
    if u32::from(own) >= members.count() {
        return Err(Trouble::Members);
    }
    let keys = MacTable::new(alloc, members)?;
    Ok(Node::new(alloc, members, own, keys)?)
}

fn player_of(alloc: Global, members: &Members, own: Member) -> Result<Player, Trouble> {
    Ok(Player {
        node: node_of(alloc, members, own)?,
    })
}

/// Puts all rows of the other node to this one, which then makes an event on the other's last.
fn sync(node: &mut Node<MacTable>, other: &Node<MacTable>, time: u64) -> Result<(), Memory> {
    for place in 0..other.rows() {
        node.put(other.bytes(place))?;
    }
    node.make(other.last_name().as_slice(), time, b"")?;
    Ok(())
}

/// Both make their first events, and then sync by turns.
fn play(a: &mut Node<MacTable>, b: &mut Node<MacTable>, first: u64) -> Result<(), Memory> {
    a.make(&[], first, b"")?;
    b.make(&[], first, b"")?;
    for turn in 1..=SYNCS {
        sync(a, b, first.saturating_add(turn))?;
        sync(b, a, first.saturating_add(turn))?;
    }
    Ok(())
}

/// The nodes of A and of B, without rows.
pub fn two_players(alloc: Global, members: &Members) -> Result<(Player, Player), Trouble> {
    let a = player_of(alloc, members, 0)?;
    let b = player_of(alloc, members, 1)?;
    Ok((a, b))
}

/// A as it is once it played with B, from this time on.
pub fn played_alone(alloc: Global, members: &Members, first: u64) -> Result<Player, Trouble> {
    let (mut a, mut b) = two_players(alloc, members)?;
    play(&mut a.node, &mut b.node, first)?;
    Ok(a)
}

/// A as it is once it made its first event.
pub fn made_alone(alloc: Global, members: &Members) -> Result<Player, Trouble> {
    let mut a = player_of(alloc, members, 0)?;
    a.node.make(&[], 1, b"")?;
    Ok(a)
}

/// Whether the row at this place has the same bytes in both nodes.
fn is_spelled_alike(one: &Node<MacTable>, other: &Node<MacTable>, place: usize) -> bool
    requires one { place < length (node_rows one.now) }
    requires other { place < length (node_rows other.now) }
    ensures { IsTrue result → IsSpelledAlike one.now other.now place }
{
    one.bytes(place) == other.bytes(place)
}

/// Whether both nodes have the same rows.
fn have_same_rows(one: &Node<MacTable>, other: &Node<MacTable>) -> bool
    ensures { IsTrue result → HaveSameRows one.now other.now }
{
    if one.rows() != other.rows() {
        return false;
    }
    for place in 0..one.rows() {
        if !is_spelled_alike(one, other, place) {
            return false;
        }
    }
    true
}

/// Whether both nodes have the same rows and, once they are settled, the same order.
pub fn are_same(one: &mut Node<MacTable>, other: &mut Node<MacTable>) -> Result<bool, Memory>
    ensures rows { IfOk result (λ same. IsTrue same → HaveSameRows one.new other.new) }
    ensures order { IfOk result (λ same. IsTrue same → kept_of one.new ≡ kept_of other.new) }
{
    one.settle()?;
    other.settle()?;
    Ok(have_same_rows(one, other) && are_equal(one.kept(), other.kept()))
}
