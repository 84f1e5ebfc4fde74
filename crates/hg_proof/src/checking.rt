ghost use Rattle.std.specs.Prelude.{◌≡◌, ◌≤◌, [], IfOk, OnErr, OnOk, length};
ghost use Rattle.hg_life.specs.Results.{Gives};
ghost use Rattle.hg_life.specs.Terms.{row_limit};
ghost use Rattle.hg_graph.specs.RowsWithRoom.{rows_of};
ghost use Rattle.hg_proof.specs.Answers.{HasFront, IfYes, Leaves, ShowsIn, Tells, TellsShown, graph_and, graph_passed, judged_in, ordered_among};
ghost use Rattle.hg_proof.specs.Judging.{rows_in};
ghost use Rattle.hg_proof.specs.Want.{IsBegun, OnMemory};

use crate::comparing::difference;
use crate::filling::fill;
use crate::ordering::order_in;
use crate::reading::form_of;
use crate::shown::{Checked, Shown};
use crate::why::Why;
use hg_event::Event;
use hg_graph::EventGraph;
use hg_model::{Memory, Placed, Stop};
use hg_sign::Verifier;
use std::alloc::Global;
use std::sync::Arc;

/// The whole order of these events, which come to a graph without rows, or what speaks first against one of them.
fn ordered<V: Verifier>(
    alloc: Global,
    keys: &V,
    graph: &mut EventGraph,
    events: &[Arc<Event>],
) -> Result<Vec<Placed>, Stop<Why>>
    requires empty { graph.old.graph.rows ≡ [] }
    requires few { length events.now ≤ row_limit }
    ensures order { Gives (λ v. v.items) result (ordered_among (V.accepts keys.now) graph.old.graph (rows_of events.now)) }
    ensures left { Leaves (V.accepts keys.now) graph.old.graph (rows_of events.now) result graph.new.graph }
{
    fill(keys, graph, events)?;
    // That the graph is lawful.
    graph.len();
    let order = order_in(alloc, &*graph)?;
    Ok(order)
}

/// What the bytes show, or the first reason against them.
fn judge<V: Verifier>(
    alloc: Global,
    keys: &V,
    graph: &mut EventGraph,
    bytes: &[u8],
) -> Result<Shown, Stop<Why>>
    requires { graph.old.graph.rows ≡ [] }
    ensures shown { Gives (λ shown. shown) result (judged_in (V.accepts keys.now) graph.old.graph bytes.now) }
    ensures left { Leaves (V.accepts keys.now) graph.old.graph (rows_in bytes.now) result graph.new.graph }
    ensures free { OnMemory result (IsBegun bytes.now) }
{
    let shown = form_of(alloc, bytes)?;
    let whole = ordered(alloc, keys, graph, shown.events())?;
    match difference(shown.order(), whole.as_slice()) {
        Some(place) => Err(Stop::Fault(Why::Order(place))),
        None => Ok(shown),
    }
}

/// The same as an answer.
fn answered<V: Verifier>(
    alloc: Global,
    keys: &V,
    graph: &mut EventGraph,
    bytes: &[u8],
) -> Result<Checked, Memory>
    requires { graph.old.graph.rows ≡ [] }
    ensures told { Tells (judged_in (V.accepts keys.now) graph.old.graph bytes.now) result }
    ensures passed { OnOk result (graph.new.graph ≡ graph_passed (V.accepts keys.now) graph.old.graph (rows_in bytes.now)) }
    ensures front { HasFront (V.accepts keys.now) graph.old.graph (rows_in bytes.now) graph.new.graph }
    ensures free { OnErr result (IsBegun bytes.now) }
{
    match judge(alloc, keys, graph, bytes) {
        Ok(shown) => Ok(Checked::Yes(shown)),
        Err(Stop::Fault(why)) => Ok(Checked::No(why)),
        Err(Stop::Memory) => Err(Memory),
    }
}

/// Whether the bytes are a certificate of a graph of the members, of events that the keys accept, and of its whole order;
/// and what it shows, or the first reason why it shows nothing. Who checks needs no node and none of the events before.
///
/// The graph is that of the members without rows, as `empty_graph` makes it; the rows come to it, as far as nothing speaks
/// against them, and for another certificate another one is needed. Beside it memory is taken for the events and the order,
/// but none for what the bytes only promise.
pub fn check<V: Verifier>(
    alloc: Global,
    keys: &V,
    graph: &mut EventGraph,
    bytes: &[u8],
) -> Result<Checked, Memory>
    requires { graph.old.graph.rows ≡ [] }
    // What is answered yes is shown.
    ensures yes { IfOk result (λ checked. IfYes checked (ShowsIn (V.accepts keys.now) graph.old.graph bytes.now)) }
    // What is shown is answered yes.
    ensures only { TellsShown (V.accepts keys.now) graph.old.graph bytes.now result }
    // What is shown, or which reason speaks first.
    ensures exact { Tells (judged_in (V.accepts keys.now) graph.old.graph bytes.now) result }
    // What is shown stands in the graph then; after any answer, the rows before the first that something speaks against.
    ensures all { IfOk result (λ checked. IfYes checked (λ shown. graph.new.graph ≡ graph_and graph.old.graph shown.rows)) }
    ensures passed { OnOk result (graph.new.graph ≡ graph_passed (V.accepts keys.now) graph.old.graph (rows_in bytes.now)) }
    // Where memory ran out, a front of those.
    ensures front { HasFront (V.accepts keys.now) graph.old.graph (rows_in bytes.now) graph.new.graph }
    // Memory is wanted only of bytes that begin as a certificate, with an event where rows are promised.
    ensures free { OnErr result (IsBegun bytes.now) }
{
    // That the members have some stake, so that no rows are a graph.
    graph.len();
    let checked = answered(alloc, keys, graph, bytes)?;
    Ok(checked)
}
