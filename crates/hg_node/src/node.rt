ghost use Rattle.std.specs.Prelude.{◌≡◌, ◌<◌, ◌≤◌, ◌-◌, ◌/◌, [], All, Some, length, option_map, slice_get, IfOk};
ghost use Rattle.hg_model.specs.declared.row.Placed.{Placed};
ghost use Rattle.hg_model.specs.Forks.{forkers};
ghost use Rattle.hg_model.specs.Rounds.{last_round};
ghost use Rattle.hg_life.specs.Spelling.{spelling};
ghost use Rattle.hg_life.specs.Terms.{row_limit};
ghost use Rattle.hg_life.specs.Verdict.{last_name};
ghost use Rattle.hg_graph.specs.Held.{first_graph};
ghost use Rattle.hg_node.specs.Beyond.{beyond_of, tips_of};
ghost use Rattle.hg_node.specs.ChronicleView.{graph_in};
ghost use Rattle.hg_model.specs.Fame.{mark_at};
ghost use Rattle.hg_life.specs.NodeView.{book_kept, node_rows, kept_of, last_closed_of, log, node_marks, start_of, start_within, IsNode};

use crate::ROW_LIMIT;
use crate::beyond::{rows_beyond, tip_names};
use crate::chronicle::Chronicle;
use hg_event::Event;
use hg_graph::{EventGraph, FrozenGraph};
use hg_life::{Effect, Entry, Members, Parcel};
use hg_model::{Items, Member, Memory, Name, Placed, Prefix, Rounds, Row};
use hg_pay::Book;
use hg_sign::Signer;
use std::alloc::Global;
use std::marker::Model;
use std::sync::Arc;

/// The node of a member, which signs and checks with its keys.
#[derive(Drop)]
pub struct Node<V: Signer> {
    pub(crate) alloc: Global,
    pub(crate) keys: V,
    /// On the heap, so that to move the node is to move little.
    pub(crate) chronicle: Box<Chronicle>,
}

impl<V: Signer> Model for Node<V> {
    ghost use Rattle.hg_life.specs.NodeView.{NodeView};
    ghost use Rattle.hg_node.specs.ChronicleView.{IsRecorded, node_view};

    ghost Value = { NodeView V };

    ghost view = { λ s. node_view s.keys s.chronicle.value };

    ghost invariant = { λ s. IsRecorded V.accepts (node_view s.keys s.chronicle.value) s.chronicle.value };
}

impl<V: Signer> Node<V> {
    ghost use Rattle.hg_model.specs.Links.{links};
    ghost use Rattle.hg_graph.specs.RowsWithRoom.{found_place};
    ghost use Rattle.hg_node.specs.ChronicleView.{last_own_place, last_own_row};

    /// The node of the member `own`, without rows, which holds at most `ROW_LIMIT`.
    pub fn new(alloc: Global, members: &Members, own: Member, keys: V) -> Result<Node<V>, Memory>
    where
        V: Drop,
        requires { own < length members.now.entries }
        ensures start { IfOk result (λ node. node.start ≡ start_of members.now own keys) }
        ensures history { IfOk result (λ node. node.history ≡ []) }
    {
        Node::with_limit(alloc, members, own, keys, ROW_LIMIT)
    }

    /// The same with another limit.
    pub fn with_limit(
        alloc: Global,
        members: &Members,
        own: Member,
        keys: V,
        limit: usize,
    ) -> Result<Node<V>, Memory>
    where
        V: Drop,
        requires own { own < length members.now.entries }
        requires limit { limit ≤ row_limit }
        ensures start { IfOk result (λ node. node.start ≡ start_within members.now own keys limit) }
        ensures history { IfOk result (λ node. node.history ≡ []) }
    {
        members.is_lawful();
        let chronicle = Box::new(alloc, Chronicle::new(alloc, members, own, limit)?)?;
        Ok(Node {
            alloc,
            keys,
            chronicle,
        })
    }

    /// The names of the rows that are no row's parent, in the order of their places.
    pub fn tips(&self) -> Result<Vec<Name>, Memory>
        ensures { IfOk result (λ names. names.items ≡ tips_of self.now) }
    {
        tip_names(self.alloc, self.chronicle.graph())
    }

    /// The bytes of the rows that are ancestors of no row with one of these names, in the order in which they came, and the
    /// name of the last row that the node made, if it made any. Names of no row count for nothing.
    pub fn beyond(&self, names: &[Name]) -> Result<Parcel, Memory>
        ensures { IfOk result (λ parcel. parcel ≡ beyond_of names.now self.now) }
    {
        let rows = rows_beyond(self.alloc, self.chronicle.graph(), names)?;
        Ok(Parcel {
            rows: Items::from_vec(rows),
            last: self.last_name(),
        })
    }

    /// The node's graph as a value of its own, which speaks of its rows whatever comes then.
    pub fn freeze(&self) -> Result<FrozenGraph, Memory>
        ensures graph { IfOk result (λ frozen. frozen.graph ≡ graph_in self.now) }
        ensures sealed { IfOk result (λ frozen. frozen.sealed ≡ (length (node_rows self.now) - 1) / 64) }
    {
        self.chronicle.graph().freeze()
    }

    /// The graph of the node's first `len` rows, at most all, as a value of its own.
    pub fn prefix(&self, len: usize) -> Result<FrozenGraph, Memory>
        requires { len ≤ length (node_rows self.now) }
        ensures { IfOk result (λ frozen. frozen.graph ≡ first_graph (graph_in self.now) len) }
    {
        self.chronicle.graph().prefix(len)
    }

    /// What the closed rounds have received, in order: an order that only grows.
    pub fn kept(&self) -> &[Placed]
        ensures order { result.now ≡ kept_of self.now }
        ensures places { All (λ (x : Placed). x.place < length (node_rows self.now)) result.now }
    {
        self.chronicle.kept()
    }

    /// What came of the payload of each event of the kept order.
    pub fn effects(&self) -> &[Effect]
        ensures effects { result.now ≡ (book_kept self.now).effects }
        ensures each { length result.now ≡ length (kept_of self.now) }
    {
        self.chronicle.effects()
    }

    /// What the members hold once the kept order is paid, from what they began with.
    pub fn book(&self) -> &Book
        ensures { result.now ≡ (book_kept self.now).balances }
    {
        self.chronicle.book()
    }

    /// The greatest closed round, or 0.
    pub fn closed(&self) -> u32
        ensures { result ≡ last_closed_of self.now }
    {
        self.chronicle.closed()
    }

    /// Whether the row at a place below the number of rows is a famous witness, if that is published.
    pub fn fame(&self, place: usize) -> Option<bool>
        requires { place < length (node_rows self.now) }
        ensures { result ≡ mark_at (node_marks self.now) place }
    {
        self.chronicle.fame(place)
    }

    /// The node's own member.
    pub fn own(&self) -> Member
        ensures { result ≡ self.now.start.own }
    {
        self.chronicle.own()
    }

    /// The node's graph.
    pub fn graph(&self) -> &EventGraph
        ensures { result.now.graph ≡ graph_in self.now }
    {
        self.chronicle.graph()
    }

    /// A law: what every node keeps to.
    pub fn is_node(&self)
        ensures { IsNode V.accepts self.now }
    {
        self.chronicle.own();
    }

    /// How many rows there are.
    pub fn rows(&self) -> usize
        ensures { result ≡ length (node_rows self.now) }
    {
        self.chronicle.graph().len()
    }

    /// The event at a place below the number of rows.
    pub fn event(&self, place: usize) -> &Arc<Event>
        requires { place < length (node_rows self.now) }
        ensures { slice_get (node_rows self.now) place ≡ Some result.now.value }
    {
        self.chronicle.graph().event(place)
    }

    /// The row at a place below the number of rows.
    pub fn row(&self, place: usize) -> &Row
        requires { place < length (node_rows self.now) }
        ensures { slice_get (node_rows self.now) place ≡ Some result.now }
    {
        self.chronicle.graph().row(place)
    }

    /// The bytes of the row at a place below the number of rows.
    pub fn bytes(&self, place: usize) -> &[u8]
        requires { place < length (node_rows self.now) }
        ensures { option_map spelling (slice_get (node_rows self.now) place) ≡ Some result.now }
    {
        self.chronicle.graph().bytes(place)
    }

    /// The place of the row with this name, if there is one.
    pub fn place_of(&self, name: &Name) -> Option<usize>
        ensures { result ≡ found_place (node_rows self.now) name.now }
    {
        self.chronicle.graph().place_of(name)
    }

    /// The place of the last row that the node made, if it made any.
    pub fn last_own(&self) -> Option<usize>
        ensures { result ≡ last_own_place self.now.start.own (node_rows self.now) }
    {
        self.chronicle.last_own()
    }

    /// The last event that the node made, if it made any.
    pub fn last_event(&self) -> Option<&Arc<Event>>
        ensures { option_map (λ e. e.now.value) result ≡ last_own_row self.now.start.own (node_rows self.now) }
    {
        self.chronicle.last_event()
    }

    /// The name of the last row that the node made, if it made any.
    pub fn last_name(&self) -> Option<Name>
        ensures { result ≡ last_name self.now.start.own (node_rows self.now) }
    {
        self.chronicle.last_name()
    }

    /// How many members have a fork.
    pub fn forkers(&self) -> u32
        ensures { result ≡ forkers self.now.start.members (links (node_rows self.now)) }
    {
        self.chronicle.graph().forkers()
    }

    /// The greatest round, 0 without rows.
    pub fn greatest(&self) -> u32
        ensures { result ≡ last_round self.now.start.members (links (node_rows self.now)) }
    {
        self.chronicle.graph().greatest()
    }

    /// What the node did, change by change, the rows by their places.
    pub fn log(&self) -> &[Entry]
        ensures { result.now ≡ log self.now }
    {
        self.chronicle.log()
    }

    /// How many changes there were.
    pub fn changes(&self) -> usize
        ensures { result ≡ length self.now.history }
    {
        self.chronicle.log().len()
    }
}
