ghost use Rattle.std.specs.Prelude.{◌≡◌, ◌<◌, IfOk, length};
ghost use Rattle.hg_play.specs.Heard.{KeepsNodes};
ghost use Rattle.hg_play.specs.Nodes.{IsKept};
ghost use Rattle.hg_play.specs.Through.{MatchesLastEvent, MatchesMade, MatchesPulled, seen_shared};

use crate::handing::lacked;
use crate::labels::bytes_of_event;
use crate::nodes::Nodes;
use crate::taking::{note, take};
use hg_crowd::Party;
use hg_event::Event;
use hg_gossip::{Known, Taken, sync_made};
use hg_life::{MakeAnswer, PutAnswer, SyncMade, SyncReport};
use hg_model::{Bytes, Member, Memory, Name};
use hg_sign::SharedTable;
use std::alloc::Global;
use std::marker::Model;
use std::sync::{Arc, Wait};

/// Nodes between threads, with a seat of each, and what each has heard of each.
#[derive(Drop)]
pub(crate) struct SharedNodes<'r, 'a, R: Wait> {
    rt: &'r R,
    alloc: Global,
    party: Party<'a, SharedTable>,
    known: Known,
}

impl<'r, 'a, R: Wait> Model for SharedNodes<'r, 'a, R> {
    ghost use Rattle.hg_world.specs.World.{Secrets};
    ghost use Rattle.hg_crowd.specs.Party.{PartyView};
    ghost use Rattle.hg_play.specs.Heard.{KeepsNodes};

    ghost Value = { PartyView Secrets };

    ghost view = { λ s. s.party };

    ghost invariant = { λ s. KeepsNodes s.party s.known };
}

impl<'r, 'a, R: Wait> SharedNodes<'r, 'a, R> {
    /// These nodes, of which each has of each what it has heard.
    pub(crate) fn new(
        rt: &'r R,
        alloc: Global,
        party: Party<'a, SharedTable>,
        known: Known,
    ) -> SharedNodes<'r, 'a, R>
        requires { KeepsNodes party known }
        ensures { result ≡ party.entry }
    {
        SharedNodes {
            rt,
            alloc,
            party,
            known,
        }
    }

    /// The nodes, as they are then, and what each has heard of each.
    pub(crate) fn into_parts(self) -> (Party<'a, SharedTable>, Known)
        ensures same { result.0 ≡ self.entry }
        ensures nodes { KeepsNodes result.0 result.1 }
    {
        (self.party, self.known)
    }

    /// The taker's node takes from the peer's the rows that it lacks. What of them it took and refused, and the name of the
    /// last one that the peer made.
    fn pull_rows(&mut self, taker: Member, peer: Member) -> Result<(Taken, Option<Name>), Memory>
        requires taker { taker < length self.old.seats }
        requires peer { peer < length self.old.seats }
        ensures kept { IsKept (seen_shared self.old) (seen_shared self.new) }
        ensures told { IfOk result (λ r. MatchesPulled (seen_shared self.old) (seen_shared self.new) taker peer r.0 r.1) }
    {
        let (x, y) = (taker as usize, peer as usize);
        let handed = lacked(self.rt, self.alloc, &mut self.party, &self.known, x, y)?;
        let counts = take(self.rt, &mut self.party, x, handed.events.as_slice())?;
        let last = handed.last;
        note(self.alloc, &mut self.known, x, y, handed, counts.refused);
        Ok((counts, last))
    }

    /// The last event that a member's node made, if it made any.
    fn last_of(&mut self, member: Member) -> Result<Option<Arc<Event>>, Memory>
        requires { member < length self.old.seats }
        ensures kept { IsKept (seen_shared self.old) (seen_shared self.new) }
        ensures told { IfOk result (MatchesLastEvent (seen_shared self.old) (seen_shared self.new) member) }
    {
        self.party.last_event(self.rt, member as usize)
    }

    /// Makes an event with this other-parent, if there is one.
    fn make_after(
        &mut self,
        member: Member,
        other: Option<Name>,
        time: u64,
        payload: &[u8],
    ) -> Result<SyncMade, Memory>
        requires { member < length self.old.seats }
        ensures kept { IsKept (seen_shared self.old) (seen_shared self.new) }
        ensures told { IfOk result (MatchesMade (seen_shared self.old) (seen_shared self.new) member other time payload.now) }
    {
        match other {
            None => Ok(SyncMade::PeerBare),
            Some(name) => {
                let answer = self.make(member, &[name], time, payload)?;
                Ok(sync_made(answer))
            }
        }
    }
}

impl<'r, 'a, R: Wait> Nodes for SharedNodes<'r, 'a, R> {
    ghost use Rattle.hg_play.specs.Through.{seen_shared};

    ghost seen = { λ v. seen_shared v };

    fn make(
        &mut self,
        member: Member,
        others: &[Name],
        time: u64,
        payload: &[u8],
    ) -> Result<MakeAnswer, Memory> {
        self.party
            .make(self.rt, member as usize, others, time, payload)
    }

    fn put(&mut self, member: Member, bytes: &[u8]) -> Result<PutAnswer, Memory> {
        self.party.put(self.rt, member as usize, bytes)
    }

    fn pull(&mut self, taker: Member, peer: Member) -> Result<Taken, Memory> {
        let (counts, _) = self.pull_rows(taker, peer)?;
        Ok(counts)
    }

    fn sync(
        &mut self,
        taker: Member,
        peer: Member,
        time: u64,
        payload: &[u8],
    ) -> Result<SyncReport, Memory> {
        let (counts, last) = self.pull_rows(taker, peer)?;
        let made = self.make_after(taker, last, time, payload)?;
        Ok(SyncReport {
            taken: counts.taken,
            refused: counts.refused,
            made,
        })
    }

    fn last_bytes(&mut self, alloc: Global, member: Member) -> Result<Bytes, Memory> {
        let event = self.last_of(member)?;
        bytes_of_event(alloc, &event)
    }
}
