ghost use Rattle.std.specs.Prelude.{◌≡◌, ◌<◌, ◌≤◌, IfErr, IfOk, OnErr, OnOk, length};
ghost use Rattle.hg_model.specs.Links.{most_others};
ghost use Rattle.hg_life.specs.Calls.{IsSettled};
ghost use Rattle.hg_life.specs.Signing.{accepts_by};
ghost use Rattle.hg_runs.specs.Safety.{IsSafe};
ghost use Rattle.hg_gossip.specs.Gossip.{WouldMakeAfter};
ghost use Rattle.hg_gossip.specs.Handing.{AreKnown, LacksOf};
ghost use Rattle.hg_gossip.specs.Holding.{WouldSign, WouldTake, rules_alone, seen_whole};
ghost use Rattle.hg_gossip.specs.Known.{KeepsKnown};
ghost use Rattle.hg_gossip.specs.Taking.{AreSigned, bytes_of};
ghost use Rattle.hg_world.specs.declared.step.Step.TheVariants.{Make, Deliver, Freeze, Publish};
ghost use Rattle.hg_graph.specs.RowsWithRoom.{rows_of};
ghost use Rattle.hg_world.specs.Parts.{AreOfOneList, IsWorld, nth_node, rows_of_each, unfrozen};
ghost use Rattle.hg_model.specs.Held.{lacking};
ghost use Rattle.hg_world.specs.World.{IsMemberOf, IsSiteOf, new_world, node_at, nodes_of, rows_at, run_of, site_at};
ghost use Rattle.hg_life.specs.Workers.{worker_limit};
ghost use Rattle.hg_world.specs.Steps.{RanFirst, after_step, after_steps, making_at, publishing_by, putting_at, settle_steps};
ghost use Rattle.hg_world.specs.Syncs.{HasMadeAfter, HasTaken, deliver_steps};

use crate::nodes::{into_nodes, into_sites, new_nodes, room_for, see_all};
use crate::site::Site;
use hg_event::Event;
use hg_gossip::{Known, Taken, lacked, make_after, still_lacked, take_events};
use hg_life::{MakeAnswer, Members, PutAnswer, SyncMade};
use hg_model::{Member, Memory, Name, Share};
use hg_node::Node;
use hg_sign::SharedTable;
use std::alloc::Global;
use std::marker::Model;
use std::snapshot::Snapshot;
use std::sync::Arc;

/// The members' nodes, each with what its workers have frozen.
pub struct World {
    alloc: Global,
    /// The first member's node as it was when the world began, for contracts: its members and coin period are the world's.
    first: Snapshot<Node<SharedTable>>,
    sites: Vec<Site>,
    /// The rows of a node only get more, so what a node has it has for good.
    known: Known,
    /// Empty, with room for all nodes: to give them back takes no memory.
    spare: Vec<Node<SharedTable>>,
}

// Written out, so that the drop of a world is a call, which is proved once.
impl Drop for World {
    fn drop(self) {
        let World {
            alloc: _,
            first,
            sites,
            known,
            spare,
        } = self;
        drop(first);
        drop(sites);
        drop(known);
        drop(spare);
    }
}

impl Model for World {
    ghost use Rattle.std.specs.Prelude.{◌≡◌, [], vec_capacity};
    ghost use Rattle.hg_world.specs.World.{WorldView};
    ghost use Rattle.hg_world.specs.Parts.{KeepsParts, world_like};

    ghost Value = { WorldView };

    ghost view = { λ s. world_like s.first.value s.sites.items };

    ghost invariant = { λ s. KeepsParts (world_like s.first.value s.sites.items) s.known (vec_capacity s.spare) × (s.spare.items ≡ []) };
}

impl World {
    /// A node for each member, without rows.
    pub fn new(alloc: Global, members: &Members) -> Result<World, Memory>
        ensures { IfOk result (λ w. w ≡ new_world members.now) }
    {
        members.is_lawful();
        let nodes = new_nodes(alloc, members)?;
        match World::from_nodes(alloc, nodes) {
            Ok(world) => Ok(world),
            Err(_) => Err(Memory),
        }
    }

    /// A law: what every world keeps to, and that its run is safe.
    pub fn is_world(&self)
        ensures world { IsWorld self.now }
        ensures safe { IsSafe self.now.members self.now.coin (run_of self.now) }
    {
        self.sites.len();
    }

    /// How many members there are, at most 128.
    pub fn members(&self) -> u32
        ensures value { result ≡ length self.now.sites }
        ensures few { result ≤ 128 }
    {
        self.sites.len() as u32
    }

    /// The node of a member.
    pub fn node(&self, member: Member) -> &Node<SharedTable>
        requires { IsMemberOf self.now member }
        ensures value { result.now ≡ node_at self.now member }
        ensures site { IsSiteOf self.now member (site_at self.now member) }
    {
        &self.sites[member as usize].node
    }

    /// A member's node makes an event on its last one, with these one to four other-parents, or with none its first one,
    /// without parents. The time is any, in no unit of ours. To tell that the event is refused before it is signed takes no
    /// memory.
    pub fn make(
        &mut self,
        member: Member,
        others: &[Name],
        time: u64,
        payload: &[u8],
    ) -> Result<MakeAnswer, Memory>
        requires member { IsMemberOf self.old member }
        requires few { length others.now ≤ most_others }
        ensures answer { IfOk result (λ a. a ≡ making_at (node_at self.old member) others.now time payload.now) }
        ensures ok { OnOk result (self.new ≡ after_step self.old (Make member others.now time payload.now)) }
        ensures err { OnErr result (self.new ≡ self.old) }
        ensures free { OnErr result (WouldSign (seen_whole (node_at self.old member)) others.now payload.now) }
    {
        let node = &mut self.sites[member as usize].node;
        let answer = node.make(others, time, payload)?;
        node.is_node();
        Ok(answer)
    }

    /// Bytes come to a member's node. Only to accept an event takes memory.
    pub fn put(&mut self, member: Member, bytes: &[u8]) -> Result<PutAnswer, Memory>
        requires { IsMemberOf self.old member }
        ensures answer { IfOk result (λ a. a ≡ putting_at (node_at self.old member) bytes.now) }
        ensures ok { OnOk result (self.new ≡ after_step self.old (Deliver member bytes.now)) }
        ensures err { OnErr result (self.new ≡ self.old) }
        ensures free { OnErr result (WouldTake (rules_alone accepts_by) (seen_whole (node_at self.old member)) bytes.now) }
    {
        let node = &mut self.sites[member as usize].node;
        let answer = node.put(bytes)?;
        node.is_node();
        Ok(answer)
    }

    /// A worker, of a number below 16, freezes the rows of a member's node; tells how many they are.
    pub fn freeze(&mut self, member: Member, worker: u32) -> usize
        requires member { IsMemberOf self.old member }
        requires worker { worker < worker_limit }
        ensures len { result ≡ length (rows_at self.old member) }
        ensures after { self.new ≡ after_step self.old (Freeze member worker) }
    {
        let site = &mut self.sites[member as usize];
        let len = site.node.rows();
        site.frozen[worker as usize] = len;
        len
    }

    /// A worker of a member's node, of a number below 16, publishes what a share decides in the rows that it froze last;
    /// tells how many were marked.
    pub fn publish(&mut self, member: Member, worker: u32, share: Share) -> Result<u32, Memory>
        requires member { IsMemberOf self.old member }
        requires worker { worker < worker_limit }
        ensures answer { IfOk result (λ count. count ≡ publishing_by self.old member worker share) }
        ensures ok { OnOk result (self.new ≡ after_step self.old (Publish member worker share)) }
        ensures err { OnErr result (self.new ≡ self.old) }
    {
        let site = &mut self.sites[member as usize];
        let len = site.frozen[worker as usize];
        let found = site.node.found(len, share)?;
        let count = site.node.publish(&found);
        site.node.is_node();
        Ok(count)
    }

    /// Events that a member's node accepts as signed come to it, one after the other.
    pub(crate) fn take(&mut self, member: Member, events: &[Arc<Event>]) -> Result<Taken, Memory>
        requires member { IsMemberOf self.old member }
        requires signed { AreSigned accepts_by (node_at self.old member).start (rows_of events.now) }
        ensures ok { IfOk result (λ counts. HasTaken self.old member (bytes_of events.now) counts self.new) }
        ensures err { OnErr result (RanFirst self.old (deliver_steps member (bytes_of events.now)) self.new) }
    {
        let taker = &mut self.sites[member as usize].node;
        let counts = take_events(taker, events);
        taker.is_node();
        counts
    }

    /// A member's node makes an event with this other-parent, if there is one.
    pub(crate) fn make_after(
        &mut self,
        member: Member,
        other: Option<Name>,
        time: u64,
        payload: &[u8],
    ) -> Result<SyncMade, Memory>
        requires { IsMemberOf self.old member }
        ensures ok { IfOk result (λ made. HasMadeAfter self.old member other time payload.now made self.new) }
        ensures err { OnErr result (self.new ≡ self.old) }
        ensures free { OnErr result (WouldMakeAfter (seen_whole (node_at self.old member)) other payload.now) }
    {
        let maker = &mut self.sites[member as usize].node;
        let made = make_after(maker, other, time, payload)?;
        maker.is_node();
        Ok(made)
    }

    /// The peer's events whose names the taker lacks. Looks at no row whose name it is known to have, and of those that it
    /// refused before at these alone.
    pub(crate) fn lacked(&self, taker: Member, peer: Member) -> Result<Vec<Arc<Event>>, Memory>
        requires taker { IsMemberOf self.now taker }
        requires peer { IsMemberOf self.now peer }
        ensures { IfOk result (λ events. rows_of events.items ≡ lacking (rows_at self.now taker) (rows_at self.now peer)) }
    {
        let (x, y) = (taker as usize, peer as usize);
        let heard = self.known.heard(x, y);
        lacked(self.alloc, &self.sites[x].node, &self.sites[y].node, heard)
    }

    /// The taker has the names of all rows of the peer, and so those that the peer is known to have.
    pub(crate) fn note_all(&mut self, taker: Member, peer: Member)
        requires taker { IsMemberOf self.old taker }
        requires peer { IsMemberOf self.old peer }
        requires all { AreKnown (rows_at self.old taker) (rows_at self.old peer) }
        ensures { self.new ≡ self.old }
    {
        let (x, y) = (taker as usize, peer as usize);
        let len = self.sites[y].node.rows();
        self.known.note_all(self.alloc, x, y, len);
    }

    /// Of the peer's rows the taker lacks some of these at most. Where there is no memory to note which, it is tried again
    /// from where it was known before.
    pub(crate) fn note_rest(&mut self, taker: Member, peer: Member, events: &[Arc<Event>])
        requires taker { IsMemberOf self.old taker }
        requires peer { IsMemberOf self.old peer }
        requires rest { LacksOf (rows_at self.old taker) (rows_at self.old peer) (rows_of events.now) }
        ensures { self.new ≡ self.old }
    {
        let (x, y) = (taker as usize, peer as usize);
        let len = self.sites[y].node.rows();
        if let Ok(refused) = still_lacked(self.alloc, &self.sites[x].node, events) {
            self.known.note_rest(x, y, len, refused);
        }
    }

    /// Worker 0 of a member's node freezes all rows and publishes all fame that they decide. It copies no row.
    pub fn settle(&mut self, member: Member) -> Result<(), Memory>
        requires { IsMemberOf self.old member }
        ensures ok { OnOk result (self.new ≡ after_steps self.old (settle_steps member)) }
        ensures settled { OnOk result (IsSettled (node_at self.old member) (node_at self.new member)) }
        ensures err { OnErr result (self.new ≡ self.old) }
        ensures safe { IsSafe self.new.members self.new.coin (run_of self.new) }
    {
        let settled = self.settle_node(member);
        self.is_world();
        settled
    }

    fn settle_node(&mut self, member: Member) -> Result<(), Memory>
        requires { IsMemberOf self.old member }
        ensures ok { OnOk result (self.new ≡ after_steps self.old (settle_steps member)) }
        ensures settled { OnOk result (IsSettled (node_at self.old member) (node_at self.new member)) }
        ensures err { OnErr result (self.new ≡ self.old) }
    {
        let site = &mut self.sites[member as usize];
        let len = site.node.rows();
        site.node.settle()?;
        site.node.is_node();
        site.frozen[0] = len;
        Ok(())
    }

    /// The nodes, in the order of the members.
    pub fn into_nodes(self) -> Vec<Node<SharedTable>>
        ensures nodes { result.items ≡ nodes_of self }
        ensures lawful { AreOfOneList result.items }
    {
        let (nodes, _) = self.into_parts();
        nodes
    }

    /// The nodes, in the order of the members, and what each has heard of each.
    pub fn into_parts(self) -> (Vec<Node<SharedTable>>, Known)
        ensures nodes { result.0.items ≡ nodes_of self }
        ensures lawful { AreOfOneList result.0.items }
        ensures known { KeepsKnown (rows_of_each result.0.items) result.1 }
    {
        let World {
            alloc: _,
            first,
            sites,
            known,
            spare,
        } = self;
        drop(first);
        (into_nodes(sites, spare), known)
    }

    /// A world of these nodes, of which no worker has frozen any rows: one for each of the members with which the first
    /// began, in their order, all with the same keys. Where memory runs out they come back.
    pub fn from_nodes(
        alloc: Global,
        nodes: Vec<Node<SharedTable>>,
    ) -> Result<World, Vec<Node<SharedTable>>>
        requires { AreOfOneList nodes.items }
        ensures ok { IfOk result (λ world. world.sites ≡ unfrozen nodes.items) }
        ensures members { IfOk result (λ world. world.members ≡ (nth_node nodes.items 0).start.members) }
        ensures coin { IfOk result (λ world. world.coin ≡ (nth_node nodes.items 0).start.coin) }
        ensures back { IfErr result (λ back. back.items ≡ nodes.items) }
    {
        match Known::none(alloc, nodes.len()) {
            Ok(known) => World::from_parts(alloc, nodes, known),
            Err(Memory) => Err(nodes),
        }
    }

    /// The same, of nodes each of which has of each what it has heard. Where memory runs out the nodes come back.
    pub fn from_parts(
        alloc: Global,
        nodes: Vec<Node<SharedTable>>,
        known: Known,
    ) -> Result<World, Vec<Node<SharedTable>>>
        requires nodes { AreOfOneList nodes.items }
        requires known { KeepsKnown (rows_of_each nodes.items) known }
        ensures ok { IfOk result (λ world. world.sites ≡ unfrozen nodes.items) }
        ensures members { IfOk result (λ world. world.members ≡ (nth_node nodes.items 0).start.members) }
        ensures coin { IfOk result (λ world. world.coin ≡ (nth_node nodes.items 0).start.coin) }
        ensures back { IfErr result (λ back. back.items ≡ nodes.items) }
    {
        see_all(&nodes);
        let first = Snapshot::of(&nodes[0]);
        match room_for(alloc, nodes.len()) {
            Ok((spare, sites)) => Ok(World {
                alloc,
                first,
                sites: into_sites(nodes, sites),
                known,
                spare,
            }),
            Err(Memory) => Err(nodes),
        }
    }
}
