ghost use Rattle.std.specs.Prelude.{◌≡◌, ◌<◌, ◌+◌, ◌≤◌, IfOk, OnOk};
ghost use Rattle.hg_board.specs.Seats.{IsOf};
ghost use Rattle.hg_board.specs.Calls.{Stays};
ghost use Rattle.hg_board.specs.Crews.{MarksAll, MarksOf, OnlyMarks};
ghost use Rattle.hg_board.specs.Laws.{AddsNone};
ghost use Rattle.hg_workers.specs.Turns.{Elects, IsElectable, marks_seen};

use hg_board::{Crew, Seat, Shared};
use hg_fame::elect_open;
use hg_io::Gate;
use hg_model::{Found, Items, Memory, Share};
use hg_node::Open;
use hg_sign::Signer;
use std::alloc::Global;
use std::sync::Wait;

/// Workers that publish the fame that their shares decide. With share `k` each of their turns passes point `2k` of the
/// gate once it is known what is open, and point `2k + 1` once that is elected, both modulo 2^32.
#[derive(Drop)]
pub struct Voters<'a, G: Gate> {
    gate: &'a G,
}

impl<'a, G: Gate> Voters<'a, G> {
    /// Workers that pass the points of this gate.
    pub fn new(gate: &'a G) -> Voters<'a, G> {
        Voters { gate }
    }

    /// One turn: what the share may still decide in the graph that the seat then sees, its fame, elected while others have
    /// the node, and what of that is news.
    fn take_turn<V: Signer + Drop, R: Wait>(
        &self,
        rt: &R,
        alloc: Global,
        shared: &Shared<V>,
        seat: &mut Seat<V>,
        share: Share,
    ) -> Result<u32, Memory>
        requires { IsOf shared.now seat.old }
        ensures stays { Stays V.accepts shared.now seat.old seat.new }
        ensures marks { OnlyMarks share seat.old seat.new }
        ensures counted { IfOk result (MarksOf shared.now share seat.old seat.new) }
        ensures all { OnOk result (MarksAll shared.now share seat.old seat.new) }
        ensures few { IfOk result (λ marked. marks_seen shared.now seat.old + marked ≤ marks_seen shared.now seat.new) }
    {
        let first = share.k().wrapping_mul(2);
        let opened = shared.open(rt, seat, share)?;
        self.gate.reach(first);
        let found = elected(alloc, opened, share)?;
        self.gate.reach(first.wrapping_add(1));
        match found {
            Some(found) => Ok(shared.publish(rt, seat, &found)),
            None => Ok(0),
        }
    }
}

/// What is decided of what the share may decide, if anything is.
fn elected(alloc: Global, opened: Option<Open>, share: Share) -> Result<Option<Found>, Memory>
    requires { IsElectable opened }
    ensures { IfOk result (Elects share opened) }
{
    let Some(
        Open {
            graph,
            mut votes,
            places,
        },
    ) = opened
    else {
        return Ok(None);
    };
    let found = elect_open(alloc, &graph, &mut votes, share, places.as_slice())?;
    if found.marks.as_slice().is_empty() {
        return Ok(None);
    }
    Ok(Some(found))
}

/// Publishes nothing: the seat then has seen a history of the node.
fn look<V: Signer + Drop, R: Wait>(
    rt: &R,
    alloc: Global,
    shared: &Shared<V>,
    seat: &mut Seat<V>,
    share: Share,
)
    requires { IsOf shared.now seat.old }
    ensures stays { Stays V.accepts shared.now seat.old seat.new }
    ensures none { AddsNone seat.old seat.new }
{
    let nothing = Found {
        len: 0,
        share,
        marks: Items::from_vec(Vec::new(alloc)),
    };
    shared.publish(rt, seat, &nothing);
}

impl<'a, G: Gate> Crew for Voters<'a, G> {
    fn work<V: Signer + Drop, R: Wait>(
        &self,
        rt: &R,
        alloc: Global,
        shared: &Shared<V>,
        seat: &mut Seat<V>,
        share: Share,
        turns: u32,
    ) -> Result<u32, Memory> {
        if turns == 0 {
            // So that the seat is known to have seen a history of a node.
            look(rt, alloc, shared, seat, share);
            return Ok(0);
        }
        let mut count = self.take_turn(rt, alloc, shared, seat, share)?;
        for _turn in 1..turns {
            count += self.take_turn(rt, alloc, shared, seat, share)?;
        }
        Ok(count)
    }
}
