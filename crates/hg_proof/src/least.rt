ghost use Rattle.std.specs.Prelude.{ℕ, ◌≡◌, ◌<◌, ◌≤◌, ◌+◌, ◌↔◌, All, length, max, true, IfOk};
ghost use Rattle.hg_model.specs.declared.row.Placed.{Placed};
ghost use Rattle.hg_life.specs.Terms.{row_limit};
ghost use Rattle.hg_proof.specs.Answers.{order_in};
ghost use Rattle.hg_proof.specs.Least.{HasFrom, HasWhole, IsBetween, IsLeast};

use crate::ordering::order_in;
use hg_fame::elect;
use hg_graph::EventGraph;
use hg_model::{Memory, Placed, Rounds, is_of_graph};
use hg_votes::VoteTable;
use std::alloc::Global;

/// The bound, or the number behind the place, which is greater.
fn past(bound: usize, place: usize) -> usize
    requires { place < row_limit }
    ensures { result ≡ max bound (place + 1) }
{
    if place < bound { bound } else { place + 1 }
}

/// A number of first rows of a graph below which its order is not whole: one more than the greatest place in the order, or 0.
fn least_bound(order: &[Placed]) -> usize
    requires { All (λ (p : Placed). p.place < row_limit) order.now }
    ensures { (k : ℕ) → k < result → HasFrom order.now k }
{
    let mut bound = 0;
    for p in order {
        bound = past(bound, p.place);
    }
    bound
}

/// Where to look first: the last row that decides a witness of the round that received the last entry. That this is most
/// often the last row that the order needs saves elections, and no clause speaks of it.
fn last_decider(alloc: Global, graph: &EventGraph, order: &[Placed]) -> Result<usize, Memory> {
    let Some(last) = order.last() else {
        return Ok(0);
    };
    is_of_graph(graph);
    let mut votes = VoteTable::new(alloc, graph)?;
    let mut place = 0;
    for x in graph.witnesses(last.received) {
        if let Some((_, decider)) = elect(graph, &mut votes, *x) {
            place = place.max(decider);
        }
    }
    Ok(place)
}

/// Whether the first `len` rows of a graph have its whole order, of so many entries.
fn has_whole(alloc: Global, graph: &EventGraph, len: usize, entries: usize) -> Result<bool, Memory>
    requires len { len ≤ length graph.now.graph.rows }
    requires entries { entries ≡ length (order_in graph.now.graph) }
    ensures { IfOk result (λ has. (has ≡ true) ↔ HasWhole graph.now.graph len) }
{
    graph.len();
    let front = graph.prefix(len)?;
    let order = order_in(alloc, &front)?;
    Ok(order.len() == entries)
}

/// The bounds between which the least number of rows lies that have the whole order, once so many rows were tried, if that
/// number lies between them.
fn narrowed(
    alloc: Global,
    graph: &EventGraph,
    entries: usize,
    bounds: (usize, usize),
    len: usize,
) -> Result<(usize, usize), Memory>
    requires entries { entries ≡ length (order_in graph.now.graph) }
    requires between { IsBetween graph.now.graph bounds.0 bounds.1 }
    ensures between { IfOk result (λ r. IsBetween graph.now.graph r.0 r.1) }
    ensures narrower { IfOk result (λ r. bounds.0 ≤ len → len < bounds.1 → r.1 + bounds.0 < bounds.1 + r.0) }
{
    // That the graph is lawful.
    graph.len();
    let (low, high) = bounds;
    if len < low || len >= high {
        return Ok((low, high));
    }
    if has_whole(alloc, graph, len, entries)? {
        Ok((low, len))
    } else {
        Ok((len + 1, high))
    }
}

/// The least number of first rows of a graph that have its whole order, which is given. It is sought between the greatest
/// place in the order and all rows: first where it most often is, and then by halves. Each number that is tried costs an
/// election.
pub(crate) fn least_front(
    alloc: Global,
    graph: &EventGraph,
    order: &[Placed],
) -> Result<usize, Memory>
    requires { order.now ≡ order_in graph.now.graph }
    ensures { IfOk result (IsLeast graph.now.graph) }
{
    let (rows, entries) = (graph.len(), order.len());
    let first = (least_bound(order), rows);
    let place = last_decider(alloc, graph, order)?;
    let lower = narrowed(alloc, graph, entries, first, place)?;
    let mut bounds = narrowed(alloc, graph, entries, lower, place.saturating_add(1))?;
    'halves: while bounds.0 < bounds.1 {
        let middle = bounds.0 + (bounds.1 - bounds.0) / 2;
        bounds = narrowed(alloc, graph, entries, bounds, middle)?;
    }
    Ok(bounds.1)
}
