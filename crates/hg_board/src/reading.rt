// What a seat reads of its node: nothing is changed, and others may have changed it before.
ghost use Rattle.std.specs.Prelude.{◌≡◌, IfOk, length};
ghost use Rattle.hg_life.specs.NodeView.{kept_of, node_rows};
ghost use Rattle.hg_node.specs.ChronicleView.{graph_in};
ghost use Rattle.hg_node.specs.Beyond.{beyond_of, tips_of};
ghost use Rattle.hg_graph.specs.RowsWithRoom.{rows_of};
ghost use Rattle.hg_board.specs.Copies.{AreLacked, IsLastRow, IsParcelFrom, OpensIn, bytes_from};
ghost use Rattle.hg_gossip.specs.Holding.{names_in, parcel_beyond};
ghost use Rattle.hg_board.specs.Seats.{IsOf, seen_by};
ghost use Rattle.hg_board.specs.Calls.{SeatWaits, Stays};

use crate::copies::{EventParcel, bytes_from, copied, last_event, parcel_from};
use crate::seat::Seat;
use crate::shared::Shared;
use crate::turn::{enter, leave};
use hg_event::Event;
use hg_gossip::{Holder, still_lacked};
use hg_graph::FrozenGraph;
use hg_life::Parcel;
use hg_model::{Bytes, Memory, Name, Placed, Share};
use hg_node::Open;
use hg_sign::Signer;
use std::alloc::Global;
use std::sync::{Arc, Wait};

impl<V: Signer + Drop> Shared<V> {
    /// The graph that the seat then has seen, as a value of its own.
    pub fn freeze<R: Wait>(&self, rt: &R, seat: &mut Seat<V>) -> Result<FrozenGraph, Memory>
        requires { IsOf self.now seat.old }
        ensures stays { Stays V.accepts self.now seat.old seat.new }
        ensures waits { SeatWaits V.accepts self.now seat.old seat.new }
        ensures graph { IfOk result (λ frozen. frozen.graph ≡ graph_in (seen_by self.now seat.new).node) }
    {
        let board = &self.table.shared;
        let raw = &mut seat.raw;
        let (node, _count) = enter(rt, board, raw);
        let frozen = node.freeze();
        leave(board, raw, node);
        frozen
    }

    /// What a share may still decide in the graph that the seat then has seen, to be elected without the turn and
    /// published; `None` where the share has all its marks.
    pub fn open<R: Wait>(
        &self,
        rt: &R,
        seat: &mut Seat<V>,
        share: Share,
    ) -> Result<Option<Open>, Memory>
        requires { IsOf self.now seat.old }
        ensures stays { Stays V.accepts self.now seat.old seat.new }
        ensures waits { SeatWaits V.accepts self.now seat.old seat.new }
        ensures opens { IfOk result (OpensIn share (seen_by self.now seat.new).node) }
    {
        let board = &self.table.shared;
        let raw = &mut seat.raw;
        let (mut node, _count) = enter(rt, board, raw);
        let opened = node.open(share);
        leave(board, raw, node);
        opened
    }

    /// The names of the rows, in the order in which they came.
    pub fn held<R: Wait>(
        &self,
        rt: &R,
        alloc: Global,
        seat: &mut Seat<V>,
    ) -> Result<Vec<Name>, Memory>
        requires { IsOf self.now seat.old }
        ensures stays { Stays V.accepts self.now seat.old seat.new }
        ensures waits { SeatWaits V.accepts self.now seat.old seat.new }
        ensures names { IfOk result (λ names. names.items ≡ names_in (seen_by self.now seat.new)) }
    {
        let board = &self.table.shared;
        let raw = &mut seat.raw;
        let (mut node, _count) = enter(rt, board, raw);
        let names = node.held(alloc);
        leave(board, raw, node);
        names
    }

    /// The bytes of the rows that have none of the names, in the order in which they came, and the name of the last row
    /// that the node made, if it made any.
    pub fn missing<R: Wait>(
        &self,
        rt: &R,
        alloc: Global,
        seat: &mut Seat<V>,
        names: &[Name],
    ) -> Result<Parcel, Memory>
        requires { IsOf self.now seat.old }
        ensures stays { Stays V.accepts self.now seat.old seat.new }
        ensures waits { SeatWaits V.accepts self.now seat.old seat.new }
        ensures parcel { IfOk result (λ parcel. parcel ≡ parcel_beyond names.now (seen_by self.now seat.new)) }
    {
        let board = &self.table.shared;
        let raw = &mut seat.raw;
        let (mut node, _count) = enter(rt, board, raw);
        let parcel = node.missing(alloc, names);
        leave(board, raw, node);
        parcel
    }

    /// The names of the rows that are no row's parent, in the order in which they came.
    pub fn tips<R: Wait>(&self, rt: &R, seat: &mut Seat<V>) -> Result<Vec<Name>, Memory>
        requires { IsOf self.now seat.old }
        ensures stays { Stays V.accepts self.now seat.old seat.new }
        ensures waits { SeatWaits V.accepts self.now seat.old seat.new }
        ensures names { IfOk result (λ names. names.items ≡ tips_of (seen_by self.now seat.new).node) }
    {
        let board = &self.table.shared;
        let raw = &mut seat.raw;
        let (node, _count) = enter(rt, board, raw);
        let names = node.tips();
        leave(board, raw, node);
        names
    }

    /// The bytes of the rows that are ancestors of no row with one of the names, in the order in which they came, and the
    /// name of the last row that the node made, if it made any. Names of no row count for nothing.
    pub fn beyond<R: Wait>(
        &self,
        rt: &R,
        seat: &mut Seat<V>,
        names: &[Name],
    ) -> Result<Parcel, Memory>
        requires { IsOf self.now seat.old }
        ensures stays { Stays V.accepts self.now seat.old seat.new }
        ensures waits { SeatWaits V.accepts self.now seat.old seat.new }
        ensures parcel { IfOk result (λ parcel. parcel ≡ beyond_of names.now (seen_by self.now seat.new).node) }
    {
        let board = &self.table.shared;
        let raw = &mut seat.raw;
        let (node, _count) = enter(rt, board, raw);
        let parcel = node.beyond(names);
        leave(board, raw, node);
        parcel
    }

    /// The last event that the node made, if it made any.
    pub fn last_event<R: Wait>(
        &self,
        rt: &R,
        seat: &mut Seat<V>,
    ) -> Result<Option<Arc<Event>>, Memory>
        requires { IsOf self.now seat.old }
        ensures stays { Stays V.accepts self.now seat.old seat.new }
        ensures waits { SeatWaits V.accepts self.now seat.old seat.new }
        ensures event { IfOk result (IsLastRow (seen_by self.now seat.new).node) }
    {
        let board = &self.table.shared;
        let raw = &mut seat.raw;
        let (node, _count) = enter(rt, board, raw);
        let event = last_event(&node);
        leave(board, raw, node);
        event
    }

    /// The events of the rows from a place on, and the name of the last row that the node made, if it made any. Where there
    /// is no such row there is no event.
    pub fn events_from<R: Wait>(
        &self,
        rt: &R,
        alloc: Global,
        seat: &mut Seat<V>,
        from: usize,
    ) -> Result<EventParcel, Memory>
        requires { IsOf self.now seat.old }
        ensures stays { Stays V.accepts self.now seat.old seat.new }
        ensures waits { SeatWaits V.accepts self.now seat.old seat.new }
        ensures parcel { IfOk result (IsParcelFrom from (seen_by self.now seat.new).node) }
    {
        let board = &self.table.shared;
        let raw = &mut seat.raw;
        let (node, _count) = enter(rt, board, raw);
        let parcel = parcel_from(alloc, &node, from);
        leave(board, raw, node);
        parcel
    }

    /// The bytes of the rows from a place on, of at most so many, and how many rows the node has in all.
    pub fn rows_from<R: Wait>(
        &self,
        rt: &R,
        alloc: Global,
        seat: &mut Seat<V>,
        from: usize,
        most: usize,
    ) -> (Result<Vec<Bytes>, Memory>, usize)
        requires { IsOf self.now seat.old }
        ensures stays { Stays V.accepts self.now seat.old seat.new }
        ensures waits { SeatWaits V.accepts self.now seat.old seat.new }
        ensures rows { IfOk result.0 (λ rows. rows.items ≡ bytes_from (seen_by self.now seat.new).node from most) }
        ensures count { result.1 ≡ length (node_rows (seen_by self.now seat.new).node) }
    {
        let board = &self.table.shared;
        let raw = &mut seat.raw;
        let (node, _count) = enter(rt, board, raw);
        let rows = bytes_from(alloc, &node, from, most);
        let count = node.rows();
        leave(board, raw, node);
        (rows, count)
    }

    /// Those of these events whose names the node lacks.
    pub fn still_lacked<R: Wait>(
        &self,
        rt: &R,
        alloc: Global,
        seat: &mut Seat<V>,
        events: &[Arc<Event>],
    ) -> Result<Vec<Arc<Event>>, Memory>
        requires { IsOf self.now seat.old }
        ensures stays { Stays V.accepts self.now seat.old seat.new }
        ensures waits { SeatWaits V.accepts self.now seat.old seat.new }
        ensures lacked { IfOk result (λ lacked. AreLacked (rows_of events.now) (seen_by self.now seat.new).node lacked.items) }
    {
        let board = &self.table.shared;
        let raw = &mut seat.raw;
        let (node, _count) = enter(rt, board, raw);
        let lacked = still_lacked(alloc, &node, events);
        leave(board, raw, node);
        lacked
    }

    /// What the closed rounds have received, in order.
    pub fn kept_copy<R: Wait>(
        &self,
        rt: &R,
        alloc: Global,
        seat: &mut Seat<V>,
    ) -> Result<Vec<Placed>, Memory>
        requires { IsOf self.now seat.old }
        ensures stays { Stays V.accepts self.now seat.old seat.new }
        ensures waits { SeatWaits V.accepts self.now seat.old seat.new }
        ensures order { IfOk result (λ order. order.items ≡ kept_of (seen_by self.now seat.new).node) }
    {
        let board = &self.table.shared;
        let raw = &mut seat.raw;
        let (node, _count) = enter(rt, board, raw);
        let order = copied(alloc, node.kept());
        leave(board, raw, node);
        order
    }
}
