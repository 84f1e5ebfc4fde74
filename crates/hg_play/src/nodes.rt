ghost use Rattle.std.specs.Prelude.{◌≡◌, ◌<◌, ◌≤◌, IfOk, length};
ghost use Rattle.hg_model.specs.Links.{most_others};
ghost use Rattle.hg_play.specs.Nodes.{IsKept, NodesView, MatchesLast, MatchesMaking, MatchesPulling, MatchesPutting, MatchesSyncing};

use crate::labels;
use hg_gossip::Taken;
use hg_life::{MakeAnswer, PutAnswer, SyncReport};
use hg_model::{Bytes, Member, Memory, Name};
use hg_world::World;
use std::alloc::Global;

/// The members' nodes, of one thread, or shared with others who add nothing but marks. What a call answers is told of
/// each world whose nodes they were before it, once it is known that others only marked.
pub trait Nodes {
    ghost seen: { Self → NodesView Self };

    /// A member's node makes an event on its last one, with these one to four other-parents, or with none its first one,
    /// without parents. The time is any, in no unit of ours.
    fn make(
        &mut self,
        member: Member,
        others: &[Name],
        time: u64,
        payload: &[u8],
    ) -> Result<MakeAnswer, Memory>
        requires member { member < (seen self.old).count }
        requires few { length others.now ≤ most_others }
        ensures kept { IsKept (seen self.old) (seen self.new) }
        ensures told { IfOk result (MatchesMaking (seen self.old) (seen self.new) member others.now time payload.now) };

    /// Bytes come to a member's node.
    fn put(&mut self, member: Member, bytes: &[u8]) -> Result<PutAnswer, Memory>
        requires { member < (seen self.old).count }
        ensures kept { IsKept (seen self.old) (seen self.new) }
        ensures told { IfOk result (MatchesPutting (seen self.old) (seen self.new) member bytes.now) };

    /// The taker's node takes from the peer's the rows that it lacks, by their names, in the peer's order.
    fn pull(&mut self, taker: Member, peer: Member) -> Result<Taken, Memory>
        requires taker { taker < (seen self.old).count }
        requires peer { peer < (seen self.old).count }
        ensures kept { IsKept (seen self.old) (seen self.new) }
        ensures told { IfOk result (MatchesPulling (seen self.old) (seen self.new) taker peer) };

    /// Pulls from the peer, and makes an event whose other-parent is the peer's last own row, if it has one. The time is
    /// any, in no unit of ours.
    fn sync(
        &mut self,
        taker: Member,
        peer: Member,
        time: u64,
        payload: &[u8],
    ) -> Result<SyncReport, Memory>
        requires taker { taker < (seen self.old).count }
        requires peer { peer < (seen self.old).count }
        ensures kept { IsKept (seen self.old) (seen self.new) }
        ensures told { IfOk result (MatchesSyncing (seen self.old) (seen self.new) taker peer time payload.now) };

    /// The bytes of the last event that a member's node made, or none.
    fn last_bytes(&mut self, alloc: Global, member: Member) -> Result<Bytes, Memory>
        requires { member < (seen self.old).count }
        ensures kept { IsKept (seen self.old) (seen self.new) }
        ensures told { IfOk result (MatchesLast (seen self.old) (seen self.new) member) };
}

impl Nodes for World {
    ghost use Rattle.hg_play.specs.Nodes.{seen_alone};

    ghost seen = { λ w. seen_alone w };

    fn make(
        &mut self,
        member: Member,
        others: &[Name],
        time: u64,
        payload: &[u8],
    ) -> Result<MakeAnswer, Memory> {
        World::make(self, member, others, time, payload)
    }

    fn put(&mut self, member: Member, bytes: &[u8]) -> Result<PutAnswer, Memory> {
        World::put(self, member, bytes)
    }

    fn pull(&mut self, taker: Member, peer: Member) -> Result<Taken, Memory> {
        World::pull(self, taker, peer)
    }

    fn sync(
        &mut self,
        taker: Member,
        peer: Member,
        time: u64,
        payload: &[u8],
    ) -> Result<SyncReport, Memory> {
        World::sync(self, taker, peer, time, payload)
    }

    fn last_bytes(&mut self, alloc: Global, member: Member) -> Result<Bytes, Memory> {
        labels::last_bytes(alloc, self.node(member))
    }
}
