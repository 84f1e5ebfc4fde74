//! A node that is shared by two threads: one puts and makes the events of a node that was alone, the other votes.

ghost use Rattle.std.specs.Prelude.{◌≡◌, ◌<◌, length};
ghost use Rattle.hg_life.specs.NodeView.{node_rows};
ghost use Rattle.hg_board.specs.Seats.{IsOf};

use crate::players::Player;
use hg_board::{Crew, Seat, Shared};
use hg_io::Gate;
use hg_model::{Memory, Name, Row, Share};
use hg_node::Node;
use hg_sign::MacTable;
use hg_workers::Voters;
use std::alloc::Global;
use std::sync::Wait;
use std::thread::{Threads, join};

/// The point before the first event is replayed.
pub const BEFORE: u32 = 1000;

/// The point after the last.
pub const AFTER: u32 = 2000;

/// How many turns the worker has.
pub const TURNS: u32 = 4;

/// The name of the other-parent of a row that a node made, if it has parents.
fn other_parent(row: &Row) -> Option<Name> {
    match &row.parents {
        None => None,
        Some(names) => match names.1.as_slice() {
            [] => None,
            [other, ..] => Some(*other),
        },
    }
}

/// Makes the event at this place of a node that was alone, if it is the node's own, or puts it.
fn replay_row<R: Wait>(
    rt: &R,
    shared: &Shared<MacTable>,
    seat: &mut Seat<MacTable>,
    alone: &Node<MacTable>,
    place: usize,
) -> Result<(), Memory>
    requires seat { IsOf shared.now seat.old }
    requires place { place < length (node_rows alone.now) }
    ensures of { IsOf shared.now seat.new }
    ensures parts { seat.new.parts ≡ seat.old.parts }
{
    let row = alone.row(place);
    if row.creator == alone.own() {
        shared.make(
            rt,
            seat,
            other_parent(row).as_slice(),
            row.time,
            row.payload.as_slice(),
        )?;
    } else {
        shared.put(rt, seat, alone.bytes(place))?;
    }
    Ok(())
}

/// All events of that node, in its order.
fn replay_rows<R: Wait>(
    rt: &R,
    shared: &Shared<MacTable>,
    seat: &mut Seat<MacTable>,
    alone: &Node<MacTable>,
) -> Result<(), Memory>
    requires { IsOf shared.now seat.old }
    ensures of { IsOf shared.now seat.new }
    ensures parts { seat.new.parts ≡ seat.old.parts }
{
    for place in 0..alone.rows() {
        replay_row(rt, shared, seat, alone, place)?;
    }
    Ok(())
}

/// The same between the two points of a gate, with a seat that comes back.
fn replay<R: Wait, G: Gate>(
    rt: &R,
    shared: &Shared<MacTable>,
    mut seat: Seat<MacTable>,
    alone: &Node<MacTable>,
    gate: &G,
) -> (Seat<MacTable>, Result<(), Memory>)
    requires { IsOf shared.now seat }
    ensures of { IsOf shared.now result.0 }
    ensures parts { result.0.parts ≡ seat.parts }
{
    gate.reach(BEFORE);
    let replayed = replay_rows(rt, shared, &mut seat, alone);
    gate.reach(AFTER);
    (seat, replayed)
}

/// A worker's turns, with a seat that comes back.
fn vote<R: Wait, G: Gate>(
    rt: &R,
    alloc: Global,
    shared: &Shared<MacTable>,
    mut seat: Seat<MacTable>,
    gate: &G,
) -> (Seat<MacTable>, Result<u32, Memory>)
    requires { IsOf shared.now seat }
    ensures of { IsOf shared.now result.0 }
    ensures parts { result.0.parts ≡ seat.parts }
{
    let all = Share::new(0, 1);
    let marked = Voters::new(gate).work(rt, alloc, shared, &mut seat, all, TURNS);
    (seat, marked)
}

/// One branch replays the events of a node that was alone, the other votes meanwhile.
pub fn shared_beside<R: Threads + Wait + Sync, G: Gate + Sync>(
    rt: &R,
    alloc: Global,
    node: Node<MacTable>,
    alone: &Node<MacTable>,
    gate: &G,
) -> Result<Player, Memory> {
    let Ok((shared, mut seat)) = Shared::start(alloc, node) else {
        return Err(Memory);
    };
    let other = shared.split(&mut seat);
    let top = &shared;
    let ((mut seat, replayed), (other, marked)) = join(
        rt,
        move || -> (Seat<MacTable>, Result<(), Memory>)
            requires { IsOf top.now seat }
            ensures of { IsOf top.entry.now result.0 }
            ensures parts { result.0.parts ≡ seat.parts }
        { replay(rt, top, seat, alone, gate) },
        move || -> (Seat<MacTable>, Result<u32, Memory>)
            requires { IsOf top.now other }
            ensures of { IsOf top.entry.now result.0 }
            ensures parts { result.0.parts ≡ other.parts }
        { vote(rt, alloc, top, other, gate) },
    );
    shared.absorb(&mut seat, other);
    let player = Player {
        node: shared.finish(rt, seat),
    };
    replayed?;
    marked?;
    Ok(player)
}
