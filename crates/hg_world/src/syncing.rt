ghost use Rattle.std.specs.Prelude.{◌≡◌, IfOk, OnErr};
ghost use Rattle.hg_runs.specs.Safety.{IsSafe};
ghost use Rattle.hg_world.specs.World.{IsMemberOf, node_at, run_of};
ghost use Rattle.hg_world.specs.Steps.{RanSome};
ghost use Rattle.hg_world.specs.Syncs.{HasPulled, HasSynced, pull_steps, sync_steps};

use crate::world::World;
use hg_gossip::Taken;
use hg_life::SyncReport;
use hg_model::{Member, Memory};

impl World {
    fn pull_rows(&mut self, taker: Member, peer: Member) -> Result<Taken, Memory>
        requires taker { IsMemberOf self.old taker }
        requires peer { IsMemberOf self.old peer }
        ensures ok { IfOk result (λ counts. HasPulled self.old taker peer counts self.new) }
        ensures err { OnErr result (RanSome self.old (pull_steps self.old taker peer) self.new) }
    {
        let events = self.lacked(taker, peer)?;
        let number = events.len() as u64;
        self.is_world();
        let counts = self.take(taker, events.as_slice())?;
        if counts.taken == number {
            self.note_all(taker, peer);
        } else {
            self.note_rest(taker, peer, events.as_slice());
        }
        Ok(counts)
    }

    /// The taker's node takes from the peer's the rows that it lacks, by their names, in the peer's order. After
    /// `Memory` some of the first of them are put.
    pub fn pull(&mut self, taker: Member, peer: Member) -> Result<Taken, Memory>
        requires taker { IsMemberOf self.old taker }
        requires peer { IsMemberOf self.old peer }
        ensures ok { IfOk result (λ counts. HasPulled self.old taker peer counts self.new) }
        ensures err { OnErr result (RanSome self.old (pull_steps self.old taker peer) self.new) }
        ensures safe { IsSafe self.new.members self.new.coin (run_of self.new) }
    {
        let counts = self.pull_rows(taker, peer);
        self.is_world();
        counts
    }

    fn sync_rows(
        &mut self,
        taker: Member,
        peer: Member,
        time: u64,
        payload: &[u8],
    ) -> Result<SyncReport, Memory>
        requires taker { IsMemberOf self.old taker }
        requires peer { IsMemberOf self.old peer }
        ensures ok { IfOk result (λ report. HasSynced self.old taker peer time payload.now report self.new) }
        ensures err { OnErr result (RanSome self.old (sync_steps self.old taker peer time payload.now) self.new) }
    {
        let last = self.node(peer).last_name();
        let counts = self.pull_rows(taker, peer)?;
        let made = self.make_after(taker, last, time, payload)?;
        Ok(SyncReport {
            taken: counts.taken,
            refused: counts.refused,
            made,
        })
    }

    /// Pulls from the peer, and makes an event whose other-parent is the peer's last own row, if it has one. The time
    /// is any, in no unit of ours. After `Memory` some of the first of the rows are put, or all, and no event is made.
    pub fn sync(
        &mut self,
        taker: Member,
        peer: Member,
        time: u64,
        payload: &[u8],
    ) -> Result<SyncReport, Memory>
        requires taker { IsMemberOf self.old taker }
        requires peer { IsMemberOf self.old peer }
        ensures ok { IfOk result (λ report. HasSynced self.old taker peer time payload.now report self.new) }
        ensures err { OnErr result (RanSome self.old (sync_steps self.old taker peer time payload.now) self.new) }
        ensures safe { IsSafe self.new.members self.new.coin (run_of self.new) }
    {
        let report = self.sync_rows(taker, peer, time, payload);
        self.is_world();
        report
    }
}
