ghost use Rattle.std.specs.Prelude.{◌<◌, ◌+◌, length, OnOk};
ghost use Rattle.hg_life.specs.NodeView.{node_rows};
ghost use Rattle.hg_graph.specs.Held.{first_graph};
ghost use Rattle.hg_node.specs.ChronicleView.{graph_in};
ghost use Rattle.hg_votes.specs.Counting.{CarriesTo, IsMadeFor};

use crate::watched::elect_in;
use hg_fame::elect_share;
use hg_graph::FrozenGraph;
use hg_model::{Memory, Share};
use hg_node::{Node, tables_last};
use hg_sign::MacTable;
use hg_votes::VoteTable;
use std::alloc::Global;

/// Whether in each of the node's first rows a table of votes that was carried there row by row finds what a new one finds.
pub fn is_carried(alloc: Global, node: &Node<&MacTable>) -> Result<bool, Memory> {
    let mut votes = VoteTable::empty(alloc);
    let mut alike = true;
    for len in 0..node.rows() {
        alike = finds_alike(alloc, node, len, &mut votes)? && alike;
    }
    Ok(alike)
}

/// Whether it does in one row more than those that it was made for.
fn finds_alike(
    alloc: Global,
    node: &Node<&MacTable>,
    len: usize,
    votes: &mut VoteTable,
) -> Result<bool, Memory>
    requires len { len < length (node_rows node.now) }
    requires votes { IsMadeFor votes.old (first_graph (graph_in node.now) len) }
    ensures { OnOk result (IsMadeFor votes.new (first_graph (graph_in node.now) (len + 1))) }
{
    tables_last();
    let frozen = node.prefix(len + 1)?;
    finds_in(alloc, frozen, votes)
}

/// The same in a graph that ends here.
fn finds_in(alloc: Global, frozen: FrozenGraph, votes: &mut VoteTable) -> Result<bool, Memory>
    requires { CarriesTo votes.old frozen.graph }
    ensures { OnOk result (IsMadeFor votes.new frozen.graph) }
{
    is_found_alike(alloc, &frozen, votes)
}

/// Whether the table, carried to the graph, finds there what a new one finds.
fn is_found_alike(
    alloc: Global,
    frozen: &FrozenGraph,
    votes: &mut VoteTable,
) -> Result<bool, Memory>
    requires { CarriesTo votes.old frozen.now.graph }
    ensures { OnOk result (IsMadeFor votes.new frozen.now.graph) }
{
    let all = Share::new(0, 1);
    votes.carry(alloc, frozen)?;
    let carried = elect_share(alloc, frozen, votes, all)?;
    let anew = elect_in(alloc, frozen, all)?;
    Ok(carried.marks.as_slice() == anew.marks.as_slice())
}
