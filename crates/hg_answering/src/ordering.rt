ghost use Rattle.std.specs.Prelude.{◌≡◌, ◌<◌, ◌≤◌, ◌-◌, IfOk, OnOk, length};
ghost use Rattle.hg_life.specs.NodeView.{kept_of, node_rows};
ghost use Rattle.hg_answering.specs.Notes.{AreNoted};
ghost use Rattle.hg_answering.specs.RowNotes.{sequences_in};
ghost use Rattle.hg_answering.specs.Telling.{order_told, ordered_events, ordered_here, window};

use crate::notes::Notes;
use crate::told::{copied, window_of};
use hg_life::{Effect, Members};
use hg_model::{Items, Memory, Placed};
use hg_node::Node;
use hg_outcome::OrderLine;
use hg_service::{Answer, OrderedEvent};
use hg_sign::Signer;
use std::alloc::Global;

/// An entry of the order with what came of it, as it is told.
fn ordered_event<V: Signer>(
    alloc: Global,
    node: &Node<V>,
    sequences: &[u64],
    placed: Placed,
    effect: Effect,
) -> Result<OrderedEvent, Memory>
    requires sequences { sequences.now ≡ sequences_in (node_rows node.now) }
    requires place { placed.place < length (node_rows node.now) }
    requires counted { placed.place < length sequences.now }
    ensures { IfOk result (λ event. event ≡ ordered_here node.now placed effect) }
{
    let row = node.row(placed.place);
    let payload = copied(alloc, row.payload.as_slice())?;
    let line = OrderLine {
        creator: row.creator,
        sequence: sequences[placed.place],
        received: placed.received,
        time: placed.time,
        effect,
        name: row.name,
    };
    Ok(OrderedEvent { line, payload })
}

/// The entries of the order between two numbers, from 0.
fn ordered_between<V: Signer>(
    alloc: Global,
    node: &Node<V>,
    sequences: &[u64],
    start: usize,
    end: usize,
) -> Result<Vec<OrderedEvent>, Memory>
    requires sequences { sequences.now ≡ sequences_in (node_rows node.now) }
    requires ordered { start ≤ end }
    requires within { end ≤ length (kept_of node.now) }
    ensures events { IfOk result (λ events. events.items ≡ window start (end - start) (ordered_events node.now)) }
    ensures each { OnOk result (length (ordered_events node.now) ≡ length (kept_of node.now)) }
{
    let order = node.kept();
    let effects = node.effects();
    let mut events = Vec::new(alloc);
    for i in start..end {
        events.push(ordered_event(alloc, node, sequences, order[i], effects[i])?)?;
    }
    Ok(events)
}

/// The order from this number on, of which the first is 1, at most `limit` entries.
pub fn order<V: Signer>(
    alloc: Global,
    members: &Members,
    node: &Node<V>,
    notes: &Notes,
    first: u64,
    limit: u64,
) -> Result<Answer, Memory>
    requires { AreNoted members.now node.now notes.now }
    ensures { IfOk result (λ told. told ≡ order_told node.now first limit) }
{
    let all = node.kept().len();
    let (start, end) = window_of(all, first.saturating_sub(1), limit);
    let events = ordered_between(alloc, node, notes.rows.sequences(), start, end)?;
    Ok(Answer::Order {
        all: all as u64,
        first,
        events: Items::from_vec(events),
    })
}
