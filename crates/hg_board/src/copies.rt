// Copies of what a node has, made while it is out.
ghost use Rattle.std.specs.Prelude.{◌≡◌, ◌+◌, ◌<◌, IfOk, OnOk, Some, drop, length, min, slice_get};
ghost use Rattle.hg_graph.specs.RowsWithRoom.{rows_of};
ghost use Rattle.hg_life.specs.NodeView.{node_rows};
ghost use Rattle.hg_board.specs.Copies.{IsLastRow, IsParcelFrom, bytes_from, with_bytes_at};

use hg_event::Event;
use hg_model::{Bytes, Items, Memory, Name, Placed};
use hg_node::Node;
use hg_sign::Signer;
use std::alloc::Global;
use std::sync::Arc;

/// Events that a node hands over, and the name of the last row that it made, if it made any.
#[derive(Drop)]
pub struct EventParcel {
    pub events: Vec<Arc<Event>>,
    pub last: Option<Name>,
}

/// A copy of the order.
pub fn copied(alloc: Global, order: &[Placed]) -> Result<Vec<Placed>, Memory>
    ensures { IfOk result (λ copy. copy.items ≡ order.now) }
{
    Ok(Vec::from_slice(alloc, order)?)
}

/// The last event that the node made, once more.
pub fn last_event<V: Signer>(node: &Node<V>) -> Result<Option<Arc<Event>>, Memory>
    ensures { IfOk result (IsLastRow node.now) }
{
    match node.last_event() {
        Some(event) => Ok(Some(Arc::clone(event)?)),
        None => Ok(None),
    }
}

/// The event at a place, once more.
fn event_at<V: Signer>(node: &Node<V>, place: usize) -> Result<Arc<Event>, Memory>
    requires { place < length (node_rows node.now) }
    ensures { IfOk result (λ event. slice_get (node_rows node.now) place ≡ Some event.value) }
{
    Ok(Arc::clone(node.event(place))?)
}

/// The events from a place on.
fn events_from<V: Signer>(
    alloc: Global,
    node: &Node<V>,
    from: usize,
) -> Result<Vec<Arc<Event>>, Memory>
    ensures { IfOk result (λ events. rows_of events.items ≡ drop from (node_rows node.now)) }
{
    let mut events = Vec::new(alloc);
    for place in from..node.rows() {
        events.push(event_at(node, place)?)?;
    }
    Ok(events)
}

/// The same, with the name of the last row that the node made.
pub fn parcel_from<V: Signer>(
    alloc: Global,
    node: &Node<V>,
    from: usize,
) -> Result<EventParcel, Memory>
    ensures { IfOk result (IsParcelFrom from node.now) }
{
    Ok(EventParcel {
        events: events_from(alloc, node, from)?,
        last: node.last_name(),
    })
}

/// The place behind the last of at most so many rows from a place on, of so many in all.
fn end_of(count: usize, from: usize, most: usize) -> usize
    ensures { result ≡ min count (from + most) }
{
    count.min(from.saturating_add(most))
}

/// A row's bytes behind the others.
fn push_bytes<V: Signer>(
    alloc: Global,
    rows: &mut Vec<Bytes>,
    node: &Node<V>,
    place: usize,
) -> Result<(), Memory>
    requires { place < length (node_rows node.now) }
    ensures { OnOk result (with_bytes_at (node_rows node.now) place rows.old.items ≡ Some rows.new.items) }
{
    let bytes = Vec::from_slice(alloc, node.bytes(place))?;
    rows.push(Items::from_vec(bytes))?;
    Ok(())
}

/// The bytes of the rows from a place on, of at most so many.
pub fn bytes_from<V: Signer>(
    alloc: Global,
    node: &Node<V>,
    from: usize,
    most: usize,
) -> Result<Vec<Bytes>, Memory>
    ensures { IfOk result (λ rows. rows.items ≡ bytes_from node.now from most) }
{
    let mut rows = Vec::new(alloc);
    let end = end_of(node.rows(), from, most);
    for place in from..end {
        push_bytes(alloc, &mut rows, node, place)?;
    }
    Ok(rows)
}
