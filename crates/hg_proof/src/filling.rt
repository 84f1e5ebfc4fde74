ghost use Rattle.std.specs.Prelude.{◌≡◌, ◌<◌, ◌≤◌, ◌+◌, ◌++◌, ◌∷◌, [], length, IfOk, OnErr, OnOk};
ghost use Rattle.hg_model.specs.Graph.{IsGraph};
ghost use Rattle.hg_model.specs.Prefix.{graph_of};
ghost use Rattle.hg_life.specs.Members.{stakes_of};
ghost use Rattle.hg_life.specs.Terms.{row_limit};
ghost use Rattle.hg_graph.specs.Held.{graph_with};
ghost use Rattle.hg_graph.specs.RowsWithRoom.{rows_of};
ghost use Rattle.hg_arrival.specs.Arrival.{StandsOn};
ghost use Rattle.hg_proof.specs.Answers.{ComeAll, ComesNext, Leaves};
ghost use Rattle.hg_proof.specs.Judging.{why_at};

use crate::why::Why;
use hg_arrival::parents_of_arrival;
use hg_event::Event;
use hg_graph::EventGraph;
use hg_life::{Members, PutAnswer};
use hg_model::{Memory, Stop};
use hg_sign::Verifier;
use std::alloc::Global;
use std::sync::Arc;

/// The members' graph without rows. It is no member's node.
pub fn empty_graph(alloc: Global, members: &Members) -> Result<EventGraph, Memory>
    ensures { IfOk result (λ g. g.graph ≡ graph_of (stakes_of members.now) members.now.coin []) }
{
    let stakes = members.stakes(alloc)?;
    EventGraph::new(alloc, stakes.as_slice(), members.coin())
}

/// The reason that the answer of a rule is against the row at a place.
fn why_at(place: usize, answer: PutAnswer) -> Why
    ensures { result ≡ why_at place answer }
{
    match answer {
        PutAnswer::Accepted(_) | PutAnswer::Known(_) => Why::Repeat(place),
        PutAnswer::Refused(fault) => Why::Row(place, fault),
    }
}

/// One row more, an event that another value shares, with its parents' places.
fn push_shared(graph: &mut EventGraph, event: &Arc<Event>, parents: &[usize]) -> Result<(), Memory>
    requires limit { length graph.old.graph.rows < row_limit }
    requires link { StandsOn graph.old.graph.rows event.now.value parents.now }
    requires graph { IsGraph graph.old.graph.members (graph.old.graph.rows ++ event.now.value ∷ []) }
    ensures ok { OnOk result (graph.new.graph ≡ graph_with graph.old.graph event.now.value) }
    ensures err { OnErr result (graph.new.graph ≡ graph.old.graph) }
{
    let event = Arc::clone(event)?;
    graph.reserve()?;
    graph.push(event, parents);
    Ok(())
}

/// The next row, if no rule speaks against it.
fn add_next<V: Verifier>(
    keys: &V,
    graph: &mut EventGraph,
    event: &Arc<Event>,
) -> Result<(), Stop<Why>>
    requires { length graph.old.graph.rows < row_limit }
    ensures comes { ComesNext (V.accepts keys.now) graph.old.graph event.now.value result graph.new.graph }
    ensures err { OnErr result (graph.new.graph ≡ graph.old.graph) }
{
    let name = event.row().name;
    let place = graph.len();
    match parents_of_arrival(keys, graph, None, &event.view(), &name, event.bytes()) {
        Ok(parents) => {
            push_shared(graph, event, parents.as_slice())?;
            Ok(())
        }
        Err(answer) => Err(Stop::Fault(why_at(place, answer))),
    }
}

/// All of these rows, one after the other, if no rule speaks against any of them.
pub(crate) fn fill<V: Verifier>(
    keys: &V,
    graph: &mut EventGraph,
    events: &[Arc<Event>],
) -> Result<(), Stop<Why>>
    requires { length graph.old.graph.rows + length events.now ≤ row_limit }
    ensures come { ComeAll (V.accepts keys.now) graph.old.graph (rows_of events.now) result graph.new.graph }
    ensures left { Leaves (V.accepts keys.now) graph.old.graph (rows_of events.now) result graph.new.graph }
{
    for event in events {
        add_next(keys, graph, event)?;
    }
    Ok(())
}
