//! What the tests of nodes share: players, and what they do.

ghost use Rattle.std.specs.Prelude.{◌≡◌, IfOk};
ghost use Rattle.hg_life.specs.Signing.{secrets_of};
ghost use Rattle.hg_life.specs.NodeView.{start_of};

use crate::members::two_members;
use hg_life::{MakeAnswer, Members, PutAnswer};
use hg_model::{Memory, Name, Placed};
use hg_node::{Node, ROW_LIMIT};
use hg_sign::MacTable;
use std::alloc::Global;
use std::fmt::Debug;
use std::process::Abort;

/// What the tests find is to be what they want. What an unequal pair prints is proved once here, and not at each of them.
pub(crate) fn equal<T: Copy + Debug + PartialEq>(rt: &impl Abort, found: T, wanted: T) {
    assert_eq!(rt; found, wanted);
}

/// An event that round 2 receives, with its consensus timestamp.
pub(crate) fn placed(place: usize, time: u64) -> Placed {
    Placed {
        place,
        received: 2,
        time,
    }
}

/// The node of a member. The tests hold nodes in this alone: it goes in a call, which is proved once, where each place
/// that lets a node itself go has the node's whole end proved again.
pub(crate) struct Player {
    pub node: Node<MacTable>,
}

impl Drop for Player {
    fn drop(self) {
        let Player { node } = self;
        drop(node);
    }
}

impl Player {
    pub(crate) fn into_node(self) -> Node<MacTable>
        ensures { result ≡ self.node }
    {
        let Player { node } = self;
        node
    }
}

/// The player of a member, of a number below the members' count, with keys of its own.
pub(crate) fn player_of(
    rt: &impl Abort,
    alloc: Global,
    members: &Members,
    own: u16,
) -> Result<Player, Memory>
    ensures { IfOk result (λ player. player.node.start ≡ start_of members.now own (secrets_of members.now)) }
{
    assert!(rt; u32::from(own) < members.count());
    let keys = MacTable::new(alloc, members)?;
    Ok(Player {
        node: Node::new(alloc, members, own, keys)?,
    })
}

/// The player of a member, whose node holds at most so many rows.
fn limited_player_of(
    rt: &impl Abort,
    alloc: Global,
    members: &Members,
    own: u16,
    limit: usize,
) -> Result<Player, Memory> {
    assert!(rt; u32::from(own) < members.count());
    assert!(rt; limit <= ROW_LIMIT);
    let keys = MacTable::new(alloc, members)?;
    Ok(Player {
        node: Node::with_limit(alloc, members, own, keys, limit)?,
    })
}

/// A and B, whose nodes hold at most so many rows.
pub(crate) fn two_limited(
    rt: &impl Abort,
    alloc: Global,
    limit: usize,
) -> Result<(Player, Player), Memory> {
    let members = two_members(rt, alloc)?;
    let a = limited_player_of(rt, alloc, &members, 0, limit)?;
    let b = limited_player_of(rt, alloc, &members, 1, limit)?;
    Ok((a, b))
}

/// A and B.
pub(crate) fn two_players(rt: &impl Abort, alloc: Global) -> Result<(Player, Player), Memory> {
    let members = two_members(rt, alloc)?;
    let a = player_of(rt, alloc, &members, 0)?;
    let b = player_of(rt, alloc, &members, 1)?;
    Ok((a, b))
}

pub(crate) fn bytes_of<'a>(rt: &impl Abort, node: &'a Node<MacTable>, place: usize) -> &'a [u8] {
    assert!(rt; place < node.rows());
    node.bytes(place)
}

pub(crate) fn name_at(rt: &impl Abort, node: &Node<MacTable>, place: usize) -> Name {
    assert!(rt; place < node.rows());
    node.row(place).name
}

/// Puts a row of one node to the other, which is to answer so.
pub(crate) fn give(
    rt: &impl Abort,
    from: &Node<MacTable>,
    place: usize,
    to: &mut Node<MacTable>,
    answer: PutAnswer,
) -> Result<(), Memory> {
    equal(rt, to.put(bytes_of(rt, from, place))?, answer);
    Ok(())
}

/// Has a node make its first event.
pub(crate) fn begin(
    node: &mut Node<MacTable>,
    time: u64,
    payload: &[u8],
) -> Result<MakeAnswer, Memory> {
    node.make(&[], time, payload)
}

/// Has a node make an event, and it is to answer so.
pub(crate) fn make(
    rt: &impl Abort,
    node: &mut Node<MacTable>,
    other: Option<Name>,
    time: u64,
    answer: MakeAnswer,
) -> Result<(), Memory>
    ensures { node.new.start ≡ node.old.start }
{
    equal(rt, node.make(other.as_slice(), time, b"any")?, answer);
    Ok(())
}

/// Puts all rows of the other node to this one, which then makes an event on the other's last.
pub(crate) fn sync(
    node: &mut Node<MacTable>,
    other: &Node<MacTable>,
    time: u64,
    payload: &[u8],
) -> Result<(), Memory> {
    for place in 0..other.rows() {
        node.put(other.bytes(place))?;
    }
    node.make(other.last_name().as_slice(), time, payload)?;
    Ok(())
}
