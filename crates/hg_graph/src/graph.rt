ghost use Rattle.std.specs.Prelude.{◌≡◌, ◌<◌, ◌≤◌, ◌-◌, ◌/◌, ◌++◌, ◌∷◌, [], Some, length, option_map, slice_get, IfOk, IfSome, OnOk, refl};
ghost use Rattle.hg_model.specs.Stakes.{total};
ghost use Rattle.hg_model.specs.Links.{first_place, link_in, links};
ghost use Rattle.hg_model.specs.Forks.{forkers, forking};
ghost use Rattle.hg_model.specs.Graph.{IsGraph};
ghost use Rattle.hg_model.specs.Shape.{FitsLink, link_of, place_list};
ghost use Rattle.hg_life.specs.Spelling.{spelling};
ghost use Rattle.hg_life.specs.Terms.{row_limit};
ghost use Rattle.hg_model.specs.Prefix.{graph_of};
ghost use Rattle.hg_model.specs.GraphWords.{standings_in, shape_in};
ghost use Rattle.hg_graph.specs.RowsWithRoom.{found_place};
ghost use Rattle.hg_graph.specs.Held.{IsHeld, first_graph, graph_with};

use crate::store::RowStore;
use hg_branches::BranchSight;
use hg_event::Event;
use hg_forks::Watch;
use hg_frozen::Frozen;
use hg_model::{Counts, Growing, Member, Memory, Name, Prefix, Rounds, Row, Sight};
use hg_rounds::{RoundTable, place_round};
use std::alloc::Global;
use std::marker::Model;
use std::sync::Arc;

/// What tells who sees what in a node's graph.
type NodeSight = BranchSight;

/// The first rows of a node's graph, as a value of its own: what workers read.
pub type FrozenGraph = Frozen<NodeSight, RoundTable>;

/// A node's graph. Those of its members that have a fork have less than a third of the stake, and each row is an event.
pub struct EventGraph {
    coin: u32,
    store: RowStore,
    sight: NodeSight,
    watch: Watch,
    rounds: RoundTable,
}

// Written out, so that the drop of a graph is a call, which is proved once.
impl Drop for EventGraph {
    fn drop(self) {
        let EventGraph {
            coin: _,
            store,
            sight,
            watch,
            rounds,
        } = self;
        drop(store);
        drop(sight);
        drop(watch);
        drop(rounds);
    }
}

impl Model for EventGraph {
    ghost use Rattle.std.specs.Prelude.{min};
    ghost use Rattle.hg_model.specs.Prefix.{graph_of};
    ghost use Rattle.hg_graph.specs.RowsWithRoom.{least_of};
    ghost use Rattle.hg_graph.specs.Held.{GraphWithRoom, KeepsGraph};

    ghost Value = { GraphWithRoom };

    ghost view = { λ s. record { graph = graph_of s.sight.shape.members s.coin s.store.rows; room = min s.store.room (least_of s.sight.room s.watch.room s.rounds.room) } };

    ghost invariant = { λ s. KeepsGraph (graph_of s.sight.shape.members s.coin s.store.rows) s.sight.shape s.watch.shape s.rounds };
}

impl EventGraph {
    /// The graph of no rows by members with these stakes, at most 128, with a coin period in rounds.
    pub fn new(alloc: Global, stakes: &[u32], coin: u32) -> Result<EventGraph, Memory>
        requires some { 0 < total stakes.now }
        requires few { length stakes.now ≤ 128 }
        requires coin { 2 < coin }
        ensures { IfOk result (λ g. g.graph ≡ graph_of stakes.now coin []) }
    {
        let watch = Watch::new(alloc, stakes)?;
        let rounds = RoundTable::new(alloc)?;
        let sight = NodeSight::new(alloc, stakes)?;
        Ok(EventGraph {
            coin,
            store: RowStore::new(alloc),
            sight,
            watch,
            rounds,
        })
    }

    /// How many rows there are.
    pub fn len(&self) -> usize
        ensures value { result ≡ length self.now.graph.rows }
        ensures lawful { IsHeld self.now.graph }
    {
        self.store.len()
    }

    /// The event that is row `x`.
    pub fn event(&self, x: usize) -> &Arc<Event>
        requires { x < length self.now.graph.rows }
        ensures { slice_get self.now.graph.rows x ≡ Some result.now.value }
    {
        self.store.event(x)
    }

    /// The bytes of row `x`.
    pub fn bytes(&self, x: usize) -> &[u8]
        requires { x < length self.now.graph.rows }
        ensures { option_map spelling (slice_get self.now.graph.rows x) ≡ Some result.now }
    {
        self.store.bytes(x)
    }

    /// The place of the row with this name, if there is one.
    pub fn place_of(&self, name: &Name) -> Option<usize>
        ensures { result ≡ found_place self.now.graph.rows name.now }
    {
        self.store.place_of(name)
    }

    /// The same of a name that may well be that of the last row by this member, whose name is compared first: only where it
    /// is another one the name is looked up.
    pub fn place_by(&self, name: &Name, member: Member) -> Option<usize>
        ensures { result ≡ found_place self.now.graph.rows name.now }
    {
        let last = self.last_named(name, member);
        if last.is_some() {
            return last;
        }
        self.store.place_of(name)
    }

    /// The place of the last row of the member's own branch, if it has this name. Its event is looked at only where the name's
    /// hash is the same.
    fn last_named(&self, name: &Name, member: Member) -> Option<usize>
        ensures { IfSome result (λ x. found_place self.now.graph.rows name.now ≡ Some x) }
    {
        let end = self.sight.own_end(member);
        if end == 0 || self.store.len() < end || !self.store.may_be(end - 1, name) {
            return None;
        }
        if self.store.row(end - 1).name != *name {
            return None;
        }
        Some(end - 1)
    }

    /// The stake of the members that have a fork once the member has made one row more, on these parents.
    pub fn would(&self, creator: Member, parents: &[usize]) -> u64
        requires { FitsLink self.now.graph.members (links self.now.graph.rows) (link_of creator parents.now) }
        ensures { result ≡ forking self.now.graph.members (links self.now.graph.rows ++ link_of creator parents.now ∷ []) }
    {
        self.watch.would(creator, self_parent(parents))
    }

    /// How many members have a fork.
    pub fn forkers(&self) -> u32
        ensures { result ≡ forkers self.now.graph.members (links self.now.graph.rows) }
    {
        self.watch.forkers()
    }

    /// The stake of the members that have a fork.
    pub fn forking(&self) -> u64
        ensures { result ≡ forking self.now.graph.members (links self.now.graph.rows) }
    {
        self.watch.forking()
    }

    /// Takes the memory of one more row.
    pub fn reserve(&mut self) -> Result<(), Memory>
        ensures room { OnOk result (1 ≤ self.new.room) }
        ensures same { self.new.graph ≡ self.old.graph }
    {
        self.store.reserve()?;
        self.sight.reserve()?;
        self.watch.reserve()?;
        self.rounds.reserve()?;
        Ok(())
    }

    /// One more row, an event with its parents' places. Takes no memory.
    pub fn push(&mut self, event: Arc<Event>, parents: &[usize])
        requires room { 1 ≤ self.old.room }
        requires limit { length self.old.graph.rows < row_limit }
        requires link { link_in self.old.graph.rows event.value ≡ link_of event.value.creator parents.now }
        requires graph { IsGraph self.old.graph.members (self.old.graph.rows ++ event.value ∷ []) }
        ensures { self.new.graph ≡ graph_with self.old.graph event.value }
    {
        let creator = event.row().creator;
        self.sight.extend(parents, creator);
        self.watch.add(creator, self_parent(parents));
        let (round, witness) = place_round(&self.sight, &self.rounds, parents);
        self.rounds.add(round, witness, self.sight.stake(creator));
        keep_witness(&mut self.sight, witness);
        self.store.push(event);
    }

    /// The first `len` rows as a value of its own, with their sight and their rounds.
    pub fn prefix(&self, len: usize) -> Result<FrozenGraph, Memory>
        requires { len ≤ length self.now.graph.rows }
        ensures graph { IfOk result (λ frozen. frozen.graph ≡ first_graph self.now.graph len) }
        ensures sealed { IfOk result (λ frozen. frozen.sealed ≡ (len - 1) / 64) }
    {
        let (blocks, tail) = self.store.prefix(len)?.into_parts();
        Ok(Frozen::of(
            blocks,
            tail,
            self.sight.prefix(len)?,
            self.rounds.prefix(len)?,
            self.coin,
        ))
    }

    /// The same rows as a value of its own.
    pub fn freeze(&self) -> Result<FrozenGraph, Memory>
        ensures graph { IfOk result (λ frozen. frozen.graph ≡ self.now.graph) }
        ensures sealed { IfOk result (λ frozen. frozen.sealed ≡ (length self.now.graph.rows - 1) / 64) }
    {
        self.prefix(self.store.len())
    }
}

/// The place of the self-parent, which is the first of these.
fn self_parent(parents: &[usize]) -> Option<usize>
    ensures { place_list result ≡ first_place parents.now }
{
    match parents {
        [] => None,
        [self_place, ..] => Some(*self_place),
    }
}

/// Later rows will be asked whether they strongly see the last row, if it is a witness.
fn keep_witness(sight: &mut NodeSight, witness: bool)
    ensures { sight.new ≡ sight.old }
{
    if witness {
        sight.mark_last();
    }
}

impl Sight for EventGraph {
    ghost shape = { λ g. shape_in g.graph };

    fn rows(&self) -> usize {
        self.sight.rows()
    }

    fn members(&self) -> u32 {
        self.sight.members()
    }

    fn stake(&self, member: Member) -> u32 {
        self.sight.stake(member)
    }

    fn total(&self) -> u64 {
        self.sight.total()
    }

    fn even(&self) -> Option<u32> {
        self.sight.even()
    }

    fn creator(&self, x: usize) -> Member {
        self.sight.creator(x)
    }

    fn self_parent(&self, x: usize) -> Option<usize> {
        self.sight.self_parent(x)
    }

    fn ancestor(&self, x: usize, y: usize) -> bool {
        self.sight.ancestor(x, y)
    }

    fn sees(&self, x: usize, y: usize) -> bool {
        self.sight.sees(x, y)
    }

    fn strongly_sees(&self, x: usize, y: usize) -> bool {
        self.sight.strongly_sees(x, y)
    }

    fn counts(&self, x: usize) -> Option<Counts<'_>> {
        self.sight.counts(x)
    }
}

impl Rounds for EventGraph {
    ghost standings = { λ g. standings_in (shape_in g.graph) };

    fn round(&self, x: usize) -> u32 {
        self.rounds.round(x)
    }

    fn is_witness(&self, x: usize) -> bool {
        self.rounds.is_witness(x)
    }

    fn witnesses(&self, r: u32) -> &[usize] {
        self.rounds.witnesses(r)
    }

    fn greatest(&self) -> u32 {
        self.rounds.greatest()
    }
}

impl Prefix for EventGraph {
    ghost graph = { λ g. g.graph };

    ghost sees_graph = { λ g. refl };

    ghost has_rounds = { λ g. refl };

    fn row(&self, x: usize) -> &Row {
        self.store.row(x)
    }

    fn coin(&self) -> u32 {
        self.coin
    }
}
