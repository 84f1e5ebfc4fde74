ghost use Rattle.std.specs.Prelude.{◌≡◌, ◌<◌, ◌≤◌, [], ◌∷◌, false, IfOk, length, map, replicate};
ghost use Rattle.hg_event.specs.Names.{lent_names};
ghost use Rattle.hg_event.specs.View.{row_of};
ghost use Rattle.hg_model.specs.Links.{links, parents, place_of};
ghost use Rattle.hg_node.specs.Beyond.{flagged, parents_if_flagged};
ghost use Rattle.hg_answering.specs.Beyond.{AreFlaggedFrom, BeginWith, beyond_flagged, named_places};
ghost use Rattle.hg_answering.specs.Telling.{beyond_told};

use crate::told::copied;
use hg_event::EventView;
use hg_graph::EventGraph;
use hg_model::{Bytes, Items, Memory, Name, Prefix};
use hg_node::Node;
use hg_service::Answer;
use hg_sign::Signer;
use std::alloc::Global;

/// Flags the row with this name, if there is one.
fn flag_named(graph: &EventGraph, name: &Name, flags: &mut [bool])
    requires { length flags.old ≡ length graph.now.graph.rows }
    ensures { flags.new ≡ flagged flags.old (place_of graph.now.graph.rows name.now ∷ []) }
{
    if let Some(place) = graph.place_of(name) {
        flags[place] = true;
    }
}

/// Flags the rows with these names.
fn flag_all(graph: &EventGraph, names: &[Name], flags: &mut [bool])
    requires { length flags.old ≡ length graph.now.graph.rows }
    ensures { flags.new ≡ flagged flags.old (map (place_of graph.now.graph.rows) names.now) }
{
    for name in names {
        flag_named(graph, name, flags);
    }
}

/// The same where the names are lent.
fn flag_lent(graph: &EventGraph, names: &[&Name], flags: &mut [bool])
    requires { length flags.old ≡ length graph.now.graph.rows }
    ensures { flags.new ≡ flagged flags.old (map (place_of graph.now.graph.rows) (lent_names names.now)) }
{
    for name in names {
        flag_named(graph, *name, flags);
    }
}

/// Flags the rows that an event names as its parents, if it names some.
fn flag_named_parents(graph: &EventGraph, view: &EventView<'_>, flags: &mut [bool])
    requires { length flags.old ≡ length graph.now.graph.rows }
    ensures { flags.new ≡ flagged flags.old (named_places graph.now.graph.rows (row_of view.now)) }
{
    if let Some(names) = view.parents {
        flag_named(graph, names.self_parent, flags);
        flag_lent(graph, names.others(), flags);
    }
}

/// Flags the parents of row `x`.
fn flag_parents(graph: &EventGraph, x: usize, flags: &mut [bool])
    requires place { x < length graph.now.graph.rows }
    requires long { length flags.old ≡ length graph.now.graph.rows }
    ensures { flags.new ≡ flagged flags.old (parents (links graph.now.graph.rows) x) }
{
    flag_named_parents(graph, &graph.event(x).view(), flags);
}

/// Flags the parents of row `x`, where it is flagged itself.
fn flag_parents_of_flagged(graph: &EventGraph, x: usize, flags: &mut [bool])
    requires place { x < length graph.now.graph.rows }
    requires long { length flags.old ≡ length graph.now.graph.rows }
    ensures { flags.new ≡ flagged flags.old (parents_if_flagged (links graph.now.graph.rows) flags.old x) }
{
    if flags[x] {
        flag_parents(graph, x, flags);
    }
}

/// Flags the ancestors of the rows with these names, where no row is flagged before. Only rows from the place `start` on are gone
/// through, each of them once, from the last one down; what is flagged below that place tells nothing.
fn flag_behind(graph: &EventGraph, names: &[Name], start: usize, flags: &mut [bool])
    requires start { start ≤ length graph.now.graph.rows }
    requires none { flags.old ≡ replicate (length graph.now.graph.rows) false }
    ensures { AreFlaggedFrom graph.now.graph.rows names.now start flags.new }
{
    flag_all(graph, names, flags);
    let mut x = graph.len();
    'rows: while start < x {
        x -= 1;
        flag_parents_of_flagged(graph, x, flags);
    }
}

/// For each row from the place `start` on whether it is an ancestor of a row with one of these names.
fn behind_flags(
    alloc: Global,
    graph: &EventGraph,
    names: &[Name],
    start: usize,
) -> Result<Vec<bool>, Memory>
    requires { start ≤ length graph.now.graph.rows }
    ensures { IfOk result (λ flags. AreFlaggedFrom graph.now.graph.rows names.now start flags.items) }
{
    let mut flags = vec![in alloc; false; graph.len()]?;
    flag_behind(graph, names, start, &mut flags);
    Ok(flags)
}

/// How many rows from the place `start` on are not flagged, and the bytes of the first of them, at most `limit`.
fn unflagged_from(
    alloc: Global,
    graph: &EventGraph,
    flags: &[bool],
    start: usize,
    limit: u64,
) -> Result<(u64, Vec<Bytes>), Memory>
    requires long { length flags.now ≡ length graph.now.graph.rows }
    requires start { start ≤ length graph.now.graph.rows }
    ensures { IfOk result (λ r. BeginWith limit (beyond_flagged graph.now.graph.rows flags.now start) r.0 r.1.items) }
{
    let mut all = 0;
    let mut events = Vec::new(alloc);
    for x in start..graph.len() {
        if !flags[x] {
            if all < limit {
                events.push(copied(alloc, graph.bytes(x))?)?;
            }
            all += 1;
        }
    }
    Ok((all, events))
}

/// Of the rows from this place on that are ancestors of no row with one of these names: the first ones, at most `limit`, and how
/// many there are.
pub fn beyond<V: Signer>(
    alloc: Global,
    node: &Node<V>,
    place: u64,
    limit: u64,
    names: &[Name],
) -> Result<Answer, Memory>
    ensures { IfOk result (λ told. told ≡ beyond_told node.now place limit names.now) }
{
    let graph = node.graph();
    let rows = graph.len() as u64;
    let start = place.min(rows) as usize;
    let flags = behind_flags(alloc, graph, names, start)?;
    let (all, events) = unflagged_from(alloc, graph, flags.as_slice(), start, limit)?;
    Ok(Answer::Beyond {
        all,
        rows,
        events: Items::from_vec(events),
    })
}
