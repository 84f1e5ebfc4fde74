ghost use Rattle.std.specs.Prelude.{◌≡◌, ◌≤◌, All, IfOk, length};
ghost use Rattle.hg_model.specs.Links.{most_others};
ghost use Rattle.hg_model.specs.GraphWords.{SpeaksOf};
ghost use Rattle.check_graphs.specs.Moments.{IsFrozenOf};

use hg_fame::elect_share;
use hg_graph::FrozenGraph;
use hg_history::{found_lasts, rows_are_a_graph};
use hg_life::{MakeAnswer, Members, PutAnswer};
use hg_model::{Found, Memory, Name, Share};
use hg_node::Node;
use hg_sign::MacTable;
use hg_votes::VoteTable;
use std::alloc::Global;

/// What was published.
#[derive(Drop)]
pub struct Published {
    /// What the share has found.
    pub found: Found,
    /// How many witnesses the node says that it has marked.
    pub marked: u32,
}

/// The node of the first member, with its graph at some earlier moments.
#[derive(Drop)]
pub struct Watched<'a> {
    node: Node<&'a MacTable>,
    held: Vec<FrozenGraph>,
    ghost moments: { All (IsFrozenOf node) held.items },
}

impl<'a> Watched<'a> {
    /// The node without rows.
    pub fn new(
        alloc: Global,
        members: &Members,
        keys: &'a MacTable,
    ) -> Result<Watched<'a>, Memory> {
        members.is_lawful();
        Ok(Watched {
            node: Node::new(alloc, members, 0, keys)?,
            held: Vec::new(alloc),
        })
    }

    pub fn node(&self) -> &Node<&'a MacTable>
        ensures { result.now ≡ self.now.node }
    {
        &self.node
    }

    pub fn put(&mut self, bytes: &[u8]) -> Result<PutAnswer, Memory> {
        found_lasts();
        self.node.put(bytes)
    }

    pub fn make(&mut self, others: &[Name], time: u64) -> Result<MakeAnswer, Memory>
        requires { length others.now ≤ most_others }
    {
        found_lasts();
        self.node.make(others, time, &[])
    }

    pub fn settle(&mut self) -> Result<(), Memory> {
        found_lasts();
        self.node.settle()
    }

    /// Holds the graph as it is now, in the place of the moment with this number, where there is one.
    pub fn hold(&mut self, number: usize) -> Result<(), Memory> {
        rows_are_a_graph();
        self.node.is_node();
        let frozen = self.node.freeze()?;
        if number < self.held.len() {
            self.held[number] = frozen;
        } else {
            self.held.push(frozen)?;
        }
        Ok(())
    }

    /// Publishes what the share finds in the graph of the moment with this number, if there is one.
    pub fn publish(
        &mut self,
        alloc: Global,
        number: usize,
        share: Share,
    ) -> Result<Option<Published>, Memory> {
        if number >= self.held.len() {
            return Ok(None);
        }
        found_lasts();
        let found = elect_in(alloc, &self.held[number], share)?;
        let marked = self.node.publish(&found);
        Ok(Some(Published { found, marked }))
    }
}

/// What the share finds in a held graph.
pub fn elect_in(alloc: Global, held: &FrozenGraph, share: Share) -> Result<Found, Memory>
    ensures { IfOk result (λ found. SpeaksOf held.now.graph found) }
{
    let mut votes = VoteTable::new(alloc, held)?;
    elect_share(alloc, held, &mut votes, share)
}
