ghost use Rattle.std.specs.Prelude.{◌≡◌, ◌<◌, ◌≤◌, length};
ghost use Rattle.hg_model.specs.Links.{most_others};
ghost use Rattle.hg_graph.specs.RowsWithRoom.{rows_of};
ghost use Rattle.hg_board.specs.Copies.{AreLacked, IsLastRow, IsParcelFrom};
ghost use Rattle.hg_crowd.specs.Crowd.{AreSeats};
ghost use Rattle.hg_crowd.specs.Party.{AreSignedAt, Makes, MovesOne, Puts, ReadsOne, Takes, party_view};

use hg_board::{EventParcel, Seat, Shared};
use hg_event::Event;
use hg_gossip::Taken;
use hg_life::{MakeAnswer, PutAnswer};
use hg_model::{Memory, Name};
use hg_sign::Signer;
use std::alloc::Global;
use std::marker::Model;
use std::sync::{Arc, Wait};

/// Nodes between threads, with a seat of each. A call names the node by its place.
#[derive(Drop)]
pub struct Party<'a, V: Signer> {
    pub(crate) shared: &'a [Shared<V>],
    pub(crate) seats: Vec<Seat<V>>,
}

impl<'a, V: Signer> Model for Party<'a, V> {
    ghost use Rattle.hg_crowd.specs.Crowd.{AreSeats};
    ghost use Rattle.hg_crowd.specs.Party.{PartyView, party_view};

    ghost Value = { PartyView V };

    ghost view = { λ s. party_view s.shared.now s.seats.items };

    ghost invariant = { λ s. AreSeats V.accepts s.shared.now s.seats.items };
}

impl<'a, V: Signer + Drop> Party<'a, V> {
    /// These nodes, with these seats of them.
    pub fn new(shared: &'a [Shared<V>], seats: Vec<Seat<V>>) -> Party<'a, V>
        requires { AreSeats V.accepts shared.now seats.items }
        ensures { result ≡ party_view shared.now seats.items }
    {
        Party { shared, seats }
    }

    /// The nodes.
    pub fn places(&self) -> &'a [Shared<V>]
        ensures { result.now ≡ self.now.places }
    {
        self.shared
    }

    /// The seats, as they are then.
    pub fn into_seats(self) -> Vec<Seat<V>>
        ensures same { result.items ≡ self.entry.seats }
        ensures seats { AreSeats V.accepts self.entry.places result.items }
    {
        self.seats
    }

    /// A law: they are seats of these nodes.
    pub(crate) fn are_seats(&self)
        ensures { AreSeats V.accepts self.now.places self.now.seats }
    {
        self.seats.len();
    }

    /// Puts the bytes of an event to the node at a place.
    pub fn put<R: Wait>(&mut self, rt: &R, k: usize, bytes: &[u8]) -> Result<PutAnswer, Memory>
        requires { k < length self.old.seats }
        ensures { MovesOne V.accepts (Puts V.accepts bytes.now result) k self.old self.new }
    {
        let shared = self.shared;
        shared[k].put(rt, &mut self.seats[k], bytes)
    }

    /// The node at a place makes an event on its last one, with these one to four other-parents, or with none its first
    /// one, without parents. The time is any, in no unit of ours.
    pub fn make<R: Wait>(
        &mut self,
        rt: &R,
        k: usize,
        others: &[Name],
        time: u64,
        payload: &[u8],
    ) -> Result<MakeAnswer, Memory>
        requires place { k < length self.old.seats }
        requires few { length others.now ≤ most_others }
        ensures { MovesOne V.accepts (Makes V.accepts others.now time payload.now result) k self.old self.new }
    {
        let shared = self.shared;
        shared[k].make(rt, &mut self.seats[k], others, time, payload)
    }

    /// The events of the rows of the node at a place, from a row on, and the name of the last row that it made.
    pub fn events_from<R: Wait>(
        &mut self,
        rt: &R,
        alloc: Global,
        k: usize,
        from: usize,
    ) -> Result<EventParcel, Memory>
        requires { k < length self.old.seats }
        ensures { ReadsOne V.accepts k self.old self.new result (IsParcelFrom from) }
    {
        let shared = self.shared;
        shared[k].events_from(rt, alloc, &mut self.seats[k], from)
    }

    /// Puts events to the node at a place in one turn, but for those whose names it has. After `Memory` some of the first
    /// are put.
    pub fn take_events<R: Wait>(
        &mut self,
        rt: &R,
        k: usize,
        events: &[Arc<Event>],
    ) -> Result<Taken, Memory>
        requires place { k < length self.old.seats }
        requires signed { AreSignedAt V.accepts self.old.places k (rows_of events.now) }
        ensures { MovesOne V.accepts (Takes V.accepts (rows_of events.now) result) k self.old self.new }
    {
        let shared = self.shared;
        shared[k].take_events(rt, &mut self.seats[k], events)
    }

    /// Those of these events whose names the node at a place lacks.
    pub fn still_lacked<R: Wait>(
        &mut self,
        rt: &R,
        alloc: Global,
        k: usize,
        events: &[Arc<Event>],
    ) -> Result<Vec<Arc<Event>>, Memory>
        requires { k < length self.old.seats }
        ensures { ReadsOne V.accepts k self.old self.new result (λ v lacked. AreLacked (rows_of events.now) v lacked.items) }
    {
        let shared = self.shared;
        shared[k].still_lacked(rt, alloc, &mut self.seats[k], events)
    }

    /// The last event that the node at a place made, if it made any.
    pub fn last_event<R: Wait>(&mut self, rt: &R, k: usize) -> Result<Option<Arc<Event>>, Memory>
        requires { k < length self.old.seats }
        ensures { ReadsOne V.accepts k self.old self.new result IsLastRow }
    {
        let shared = self.shared;
        shared[k].last_event(rt, &mut self.seats[k])
    }
}
