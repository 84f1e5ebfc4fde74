ghost use Rattle.std.specs.Prelude.{◌≡◌, ◌<◌, ◌≤◌, true, IfErr, IfOk, IsSome, OnErr, length};
ghost use Rattle.hg_life.specs.Spelling.{spelling};
ghost use Rattle.hg_model.specs.Links.{most_others};
ghost use Rattle.hg_model.specs.Stakes.{member_count};
ghost use Rattle.hg_node.specs.ChronicleView.{IsFoundBy};
ghost use Rattle.hg_node.specs.Next.{next_others};
ghost use Rattle.hg_node.specs.Puts.{is_signed};
ghost use Rattle.hg_graph.specs.RowsWithRoom.{rows_of};
ghost use Rattle.hg_board.specs.Taking.{AreSignedFor, SeatTakes, SeatTakesFirst, WouldTakeRow};
ghost use Rattle.hg_board.specs.Seats.{IsOf, seen_by};
ghost use Rattle.hg_board.specs.Table.{all_parts};
ghost use Rattle.hg_board.specs.Calls.{Absorbs, IsStarted, IsWhole, SeatMakes, SeatMakesNext, SeatPublishes, SeatPuts, SeatWaits, Stays, after_split, rules_shared, split_off};
ghost use Rattle.hg_gossip.specs.Holding.{WouldSign, WouldTake};

use crate::rule::{Board, Both, Compare, OnePart};
use crate::seat::Seat;
use crate::taking::take_each;
use crate::turn::{enter, leave, leave_changed};
use atomic_table::{Refused, Table};
use hg_event::Event;
use hg_gossip::Taken;
use hg_life::{MakeAnswer, PutAnswer};
use hg_model::{Found, Memory, Name};
use hg_node::Node;
use hg_sign::Signer;
use std::alloc::Global;
use std::marker::Model;
use std::snapshot::Snapshot;
use std::sync::{Arc, Wait};

/// A node between threads. Each call needs a seat of it, and answers as the node does at the history that the seat then
/// has seen, of which it had seen a prefix.
#[derive(Drop)]
pub struct Shared<V: Signer> {
    pub(crate) table: Board<V>,
}

impl<V: Signer> Model for Shared<V> {
    ghost use Rattle.hg_board.specs.Seats.{SharedNode, shared_node};
    ghost use Rattle.hg_board.specs.Turns.{IsSized};

    ghost Value = { SharedNode V };

    ghost view = { λ s. shared_node s.table.shared.table_id s.table.shared.key.value };

    ghost invariant = { λ s. IsSized s.table.shared.table_id };
}

/// How many parts the first seat has.
const ALL_PARTS: u32 = 65_536;

impl<V: Signer + Drop> Shared<V> {
    /// Shares a node, with its first seat. Without memory the node comes back.
    pub fn start(alloc: Global, node: Node<V>) -> Result<(Shared<V>, Seat<V>), Node<V>>
        ensures ok { IfOk result (λ r. IsStarted V.accepts r.0 node r.1) }
        ensures err { IfErr result (λ back. back ≡ node) }
    {
        node.is_node();
        let key = Snapshot::of(&node);
        let count = node.changes() as u64;
        let Ok(mut slots) = Vec::with_capacity(alloc, 1) else {
            return Err(node);
        };
        slots.push_reserved(Some(node));
        match Table::new(alloc, &[0, count], slots, &key) {
            Ok((table, raw)) => Ok((
                Shared { table },
                Seat {
                    raw,
                    parts: ALL_PARTS,
                },
            )),
            Err(Refused { mut slots }) => Err(slots.pop().unwrap().unwrap()),
        }
    }

    /// Puts the bytes of an event. Only to accept it takes memory.
    pub fn put<R: Wait>(
        &self,
        rt: &R,
        seat: &mut Seat<V>,
        bytes: &[u8],
    ) -> Result<PutAnswer, Memory>
        requires { IsOf self.now seat.old }
        ensures stays { Stays V.accepts self.now seat.old seat.new }
        ensures ok { IfOk result (SeatPuts V.accepts self.now seat.old bytes.now seat.new) }
        ensures err { OnErr result (SeatWaits V.accepts self.now seat.old seat.new) }
        ensures free { OnErr result (WouldTake (rules_shared V.accepts) (seen_by self.now seat.new) bytes.now) }
    {
        self.put_at(rt, seat, bytes).0
    }

    /// The same, with how many changes the node had then: where the event was accepted, its own is the last one.
    pub fn put_at<R: Wait>(
        &self,
        rt: &R,
        seat: &mut Seat<V>,
        bytes: &[u8],
    ) -> (Result<PutAnswer, Memory>, usize)
        requires { IsOf self.now seat.old }
        ensures stays { Stays V.accepts self.now seat.old seat.new }
        ensures ok { IfOk result.0 (SeatPuts V.accepts self.now seat.old bytes.now seat.new) }
        ensures err { OnErr result.0 (SeatWaits V.accepts self.now seat.old seat.new) }
        ensures free { OnErr result.0 (WouldTake (rules_shared V.accepts) (seen_by self.now seat.new) bytes.now) }
        ensures len { result.1 ≡ length seat.new.seen }
    {
        let board = &self.table.shared;
        let raw = &mut seat.raw;
        let (mut node, count) = enter(rt, board, raw);
        let answer = node.put(bytes);
        let len = node.changes();
        leave_changed(board, raw, node, count);
        (answer, len)
    }

    /// Puts an event of a member, whose signature the node's keys accept: what comes of it is what comes of its bytes, but
    /// it is not read, named, checked or copied in the turn.
    pub fn put_event<R: Wait>(
        &self,
        rt: &R,
        seat: &mut Seat<V>,
        event: &Arc<Event>,
    ) -> Result<PutAnswer, Memory>
        requires seat { IsOf self.now seat.old }
        requires fits { event.now.value.creator < member_count self.now.start.start.members }
        requires signed { is_signed V.accepts self.now.start.start event.now.value ≡ true }
        ensures stays { Stays V.accepts self.now seat.old seat.new }
        ensures ok { IfOk result (SeatPuts V.accepts self.now seat.old (spelling event.now.value) seat.new) }
        ensures err { OnErr result (SeatWaits V.accepts self.now seat.old seat.new) }
        ensures free { OnErr result (WouldTakeRow V.accepts (seen_by self.now seat.new) event.now.value) }
    {
        let board = &self.table.shared;
        let raw = &mut seat.raw;
        let (mut node, count) = enter(rt, board, raw);
        let answer = node.put_event(event);
        leave_changed(board, raw, node, count);
        answer
    }

    /// Puts such events in one turn, but for those whose names the node has. After `Memory` some of the first are put.
    pub fn take_events<R: Wait>(
        &self,
        rt: &R,
        seat: &mut Seat<V>,
        events: &[Arc<Event>],
    ) -> Result<Taken, Memory>
        requires seat { IsOf self.now seat.old }
        requires signed { AreSignedFor V.accepts self.now.start.start (rows_of events.now) }
        ensures stays { Stays V.accepts self.now seat.old seat.new }
        ensures ok { IfOk result (SeatTakes V.accepts self.now seat.old (rows_of events.now) seat.new) }
        ensures err { OnErr result (SeatTakesFirst V.accepts self.now seat.old (rows_of events.now) seat.new) }
    {
        let board = &self.table.shared;
        let raw = &mut seat.raw;
        let (mut node, _count) = enter(rt, board, raw);
        let taken = take_each(board, raw, &mut node, events);
        node.is_node();
        leave(board, raw, node);
        taken
    }

    /// Makes an event of the node's member on its last one, with these one to four other-parents, or with none its first one,
    /// without parents. The time is any, in no unit of ours. To tell that the event is refused before it is signed takes no
    /// memory.
    pub fn make<R: Wait>(
        &self,
        rt: &R,
        seat: &mut Seat<V>,
        others: &[Name],
        time: u64,
        payload: &[u8],
    ) -> Result<MakeAnswer, Memory>
        requires seat { IsOf self.now seat.old }
        requires few { length others.now ≤ most_others }
        ensures stays { Stays V.accepts self.now seat.old seat.new }
        ensures ok { IfOk result (SeatMakes V.accepts self.now seat.old others.now time payload.now seat.new) }
        ensures err { OnErr result (SeatWaits V.accepts self.now seat.old seat.new) }
        ensures free { OnErr result (WouldSign (seen_by self.now seat.new) others.now payload.now) }
    {
        let board = &self.table.shared;
        let raw = &mut seat.raw;
        let (mut node, count) = enter(rt, board, raw);
        let answer = node.make(others, time, payload);
        leave_changed(board, raw, node, count);
        answer
    }

    /// Makes the node's first event, or one on the last row that another member made, without payload; `None` where it made
    /// one and there is no such row. The time is any, in no unit of ours. If the event is refused, then because its name is
    /// another row's, or for want of room.
    pub fn make_next<R: Wait>(
        &self,
        rt: &R,
        seat: &mut Seat<V>,
        time: u64,
    ) -> Result<Option<MakeAnswer>, Memory>
        requires { IsOf self.now seat.old }
        ensures stays { Stays V.accepts self.now seat.old seat.new }
        ensures ok { IfOk result (SeatMakesNext V.accepts self.now seat.old time seat.new) }
        ensures err { OnErr result (SeatWaits V.accepts self.now seat.old seat.new) }
        ensures free { OnErr result (IsSome (next_others (seen_by self.now seat.new).node)) }
    {
        let board = &self.table.shared;
        let raw = &mut seat.raw;
        let (mut node, count) = enter(rt, board, raw);
        let made = node.make_next(time);
        leave_changed(board, raw, node, count);
        made
    }

    /// Publishes what a share has found in the first rows of the graph that the seat has seen: each found witness without
    /// a mark gets it, and what is ordered then is paid. What had its mark then may be left out. Answers how many were
    /// marked. Takes no memory.
    pub fn publish<R: Wait>(&self, rt: &R, seat: &mut Seat<V>, found: &Found) -> u32
        requires seat { IsOf self.now seat.old }
        requires found { IsFoundBy (seen_by self.now seat.old).node found.now }
        ensures stays { Stays V.accepts self.now seat.old seat.new }
        ensures marks { SeatPublishes V.accepts self.now seat.old found.now.len found.now.share seat.new result }
    {
        let board = &self.table.shared;
        let raw = &mut seat.raw;
        let (mut node, count) = enter(rt, board, raw);
        let marked = node.publish(found);
        leave_changed(board, raw, node, count);
        marked
    }

    /// A seat for another caller, which has seen as much. It gets one part of this one, which has two at least.
    pub fn split(&self, seat: &mut Seat<V>) -> Seat<V>
        requires seat { IsOf self.now seat.old }
        requires parts { 1 < seat.old.parts }
        ensures old { seat.new ≡ after_split seat.old }
        ensures new { result ≡ split_off seat.old }
    {
        let raw = &mut seat.raw;
        let other = self.table.shared.split_seat::<OnePart>(raw);
        seat.parts -= 1;
        Seat {
            raw: other,
            parts: 1,
        }
    }

    /// Takes another seat into this one. Of the histories that they have seen it keeps the longer.
    pub fn absorb(&self, seat: &mut Seat<V>, other: Seat<V>)
        requires seat { IsOf self.now seat.old }
        requires other { IsOf self.now other }
        ensures { Absorbs V.accepts self.now seat.old other seat.new }
    {
        let board = &self.table.shared;
        let Seat { raw: other, parts } = other;
        let raw = &mut seat.raw;
        board.join_seat::<Both>(raw, other);
        board.load::<Compare>(raw, 1);
        seat.parts += parts;
    }

    /// The node, by the seat that has all parts. It has the history that this seat has seen: each change since the start is
    /// one of the seat's.
    pub fn finish<R: Wait>(self, rt: &R, seat: Seat<V>) -> Node<V>
        requires seat { IsOf self seat }
        requires parts { seat.parts ≡ all_parts }
        ensures { IsWhole self seat result }
    {
        let Shared { table } = self;
        let Seat { mut raw, parts: _ } = seat;
        let (node, _count) = enter(rt, &table.shared, &mut raw);
        let mut closed = table.close_with(raw);
        drop(closed.take(0));
        closed.free();
        node
    }
}
