ghost use Rattle.std.specs.Prelude.{◌≡◌, ◌<◌, ◌∷◌, [], IfOk, false, length, map, replicate};
ghost use Rattle.hg_event.specs.Names.{lent_names};
ghost use Rattle.hg_event.specs.View.{row_of};
ghost use Rattle.hg_model.specs.Links.{links, parent_names, parents, place_of};
ghost use Rattle.hg_node.specs.Beyond.{AreBehindFlagged, AreParentsFlagged, bytes_beyond, flagged, parents_if_flagged, tips, unflagged_bytes, unflagged_names};

use hg_event::EventView;
use hg_graph::EventGraph;
use hg_model::{Bytes, Items, Memory, Name, Prefix};
use std::alloc::Global;

/// The names of the rows that are no row's parent.
pub fn tip_names(alloc: Global, graph: &EventGraph) -> Result<Vec<Name>, Memory>
    ensures { IfOk result (λ names. names.items ≡ tips graph.now.graph.rows) }
{
    let flags = parent_flags(alloc, graph)?;
    names_unflagged(alloc, graph, &flags)
}

/// The bytes of the rows that are ancestors of no row with one of these names.
pub fn rows_beyond(alloc: Global, graph: &EventGraph, names: &[Name]) -> Result<Vec<Bytes>, Memory>
    ensures { IfOk result (λ rows. rows.items ≡ bytes_beyond graph.now.graph.rows names.now) }
{
    let flags = behind_flags(alloc, graph, names)?;
    bytes_unflagged(alloc, graph, &flags)
}

/// Flags the row with this name, if there is one.
fn flag_named(graph: &EventGraph, name: &Name, flags: &mut [bool])
    requires { length flags.old ≡ length graph.now.graph.rows }
    ensures { flags.new ≡ flagged flags.old (place_of graph.now.graph.rows name.now ∷ []) }
{
    if let Some(place) = graph.place_of(name) {
        flags[place] = true;
    }
}

/// Flags the rows with these names.
fn flag_all(graph: &EventGraph, names: &[Name], flags: &mut [bool])
    requires { length flags.old ≡ length graph.now.graph.rows }
    ensures { flags.new ≡ flagged flags.old (map (place_of graph.now.graph.rows) names.now) }
{
    for name in names {
        flag_named(graph, name, flags);
    }
}

/// The same where the names are lent.
fn flag_lent(graph: &EventGraph, names: &[&Name], flags: &mut [bool])
    requires { length flags.old ≡ length graph.now.graph.rows }
    ensures { flags.new ≡ flagged flags.old (map (place_of graph.now.graph.rows) (lent_names names.now)) }
{
    for name in names {
        flag_named(graph, *name, flags);
    }
}

/// Flags the parents of row `x`.
fn flag_parents(graph: &EventGraph, x: usize, flags: &mut [bool])
    requires place { x < length graph.now.graph.rows }
    requires long { length flags.old ≡ length graph.now.graph.rows }
    ensures { flags.new ≡ flagged flags.old (parents (links graph.now.graph.rows) x) }
{
    flag_parents_of(graph, &graph.event(x).view(), flags);
}

/// Flags the rows that an event names as its parents, if it names some.
fn flag_parents_of(graph: &EventGraph, view: &EventView<'_>, flags: &mut [bool])
    requires { length flags.old ≡ length graph.now.graph.rows }
    ensures { flags.new ≡ flagged flags.old (map (place_of graph.now.graph.rows) (parent_names (row_of view.now).parents)) }
{
    let Some(names) = view.parents else {
        return;
    };
    flag_named(graph, names.self_parent, flags);
    flag_lent(graph, names.others(), flags);
}

/// For each row whether it is a parent of another one.
fn parent_flags(alloc: Global, graph: &EventGraph) -> Result<Vec<bool>, Memory>
    ensures { IfOk result (λ flags. AreParentsFlagged graph.now.graph.rows flags.items) }
{
    let mut flags = vec![in alloc; false; graph.len()]?;
    flag_every_parent(graph, &mut flags);
    Ok(flags)
}

/// Flags the parents of all rows, where no row is flagged before.
fn flag_every_parent(graph: &EventGraph, flags: &mut [bool])
    requires { flags.old ≡ replicate (length graph.now.graph.rows) false }
    ensures { AreParentsFlagged graph.now.graph.rows flags.new }
{
    for x in 0..graph.len() {
        flag_parents(graph, x, flags);
    }
}

/// For each row whether it is an ancestor of a row with one of these names.
fn behind_flags(alloc: Global, graph: &EventGraph, names: &[Name]) -> Result<Vec<bool>, Memory>
    ensures { IfOk result (λ flags. AreBehindFlagged graph.now.graph.rows names.now flags.items) }
{
    let mut flags = vec![in alloc; false; graph.len()]?;
    flag_behind(graph, names, &mut flags);
    Ok(flags)
}

/// Flags the ancestors of the rows with these names, where no row is flagged before. The rows are gone through from the last
/// one down, each of them once.
fn flag_behind(graph: &EventGraph, names: &[Name], flags: &mut [bool])
    requires { flags.old ≡ replicate (length graph.now.graph.rows) false }
    ensures { AreBehindFlagged graph.now.graph.rows names.now flags.new }
{
    flag_all(graph, names, flags);
    let mut x = graph.len();
    'rows: while 0 < x {
        x -= 1;
        flag_parents_of_flagged(graph, x, flags);
    }
}

/// Flags the parents of row `x`, where it is flagged itself.
fn flag_parents_of_flagged(graph: &EventGraph, x: usize, flags: &mut [bool])
    requires place { x < length graph.now.graph.rows }
    requires long { length flags.old ≡ length graph.now.graph.rows }
    ensures { flags.new ≡ flagged flags.old (parents_if_flagged (links graph.now.graph.rows) flags.old x) }
{
    if flags[x] {
        flag_parents(graph, x, flags);
    }
}

/// The names of the rows that are not flagged.
#[tactic(auto, using(hg_model::proofs::PlacesLaws::list_steps, crate::proofs::FlagLaws::row_reads))]
fn names_unflagged(alloc: Global, graph: &EventGraph, flags: &[bool]) -> Result<Vec<Name>, Memory>
    requires { length flags.now ≡ length graph.now.graph.rows }
    ensures { IfOk result (λ names. names.items ≡ unflagged_names graph.now.graph.rows flags.now) }
{
    let mut names = Vec::new(alloc);
    for x in 0..graph.len() {
        if !flags[x] {
            names.push(graph.row(x).name)?;
        }
    }
    Ok(names)
}

/// The bytes of the rows that are not flagged.
#[tactic(auto, using(hg_model::proofs::PlacesLaws::list_steps, crate::proofs::FlagLaws::row_reads))]
fn bytes_unflagged(alloc: Global, graph: &EventGraph, flags: &[bool]) -> Result<Vec<Bytes>, Memory>
    requires { length flags.now ≡ length graph.now.graph.rows }
    ensures { IfOk result (λ rows. rows.items ≡ unflagged_bytes graph.now.graph.rows flags.now) }
{
    let mut rows = Vec::new(alloc);
    for x in 0..graph.len() {
        if !flags[x] {
            rows.push(copied(alloc, graph.bytes(x))?)?;
        }
    }
    Ok(rows)
}

fn copied(alloc: Global, bytes: &[u8]) -> Result<Bytes, Memory>
    ensures { IfOk result (λ copy. copy ≡ bytes.now) }
{
    Ok(Items::from_vec(Vec::from_slice(alloc, bytes)?))
}
