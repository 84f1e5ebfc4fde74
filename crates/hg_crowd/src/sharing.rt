ghost use Rattle.std.specs.Prelude.{◌≡◌, ◌<◌, ◌≤◌, [], All, IfOk, OnOk, vec_capacity, vec_len};
ghost use Rattle.hg_crowd.specs.Crowd.{AreSeats};
ghost use Rattle.hg_crowd.specs.Workers.{AreStarted, AreWhole, HasAll, StartsOne};

use hg_board::{Seat, Shared};
use hg_model::Memory;
use hg_node::Node;
use hg_sign::Signer;
use std::alloc::Global;
use std::sync::Wait;

/// Shares a node with its first seat, behind those that are shared. Without memory it is dropped.
fn start_behind<V: Signer + Drop>(
    alloc: Global,
    node: Node<V>,
    shared: &mut Vec<Shared<V>>,
    seats: &mut Vec<Seat<V>>,
) -> Result<(), Memory>
    requires shared_room { vec_len shared.old < vec_capacity shared.old }
    requires seats_room { vec_len seats.old < vec_capacity seats.old }
    ensures ok { OnOk result (StartsOne V.accepts node shared.old.items seats.old.items shared.new.items seats.new.items) }
    ensures shared_room { vec_capacity shared.new ≡ vec_capacity shared.old }
    ensures seats_room { vec_capacity seats.new ≡ vec_capacity seats.old }
{
    match Shared::start(alloc, node) {
        Ok((shared_node, seat)) => {
            shared.push_reserved(shared_node);
            seats.push_reserved(seat);
            Ok(())
        }
        Err(_) => Err(Memory),
    }
}

/// Shares each node with its first seat, in their order, where there is room for them. Without memory the node at hand is
/// dropped.
fn start_each<V: Signer + Drop>(
    alloc: Global,
    nodes: &mut Vec<Node<V>>,
    shared: &mut Vec<Shared<V>>,
    seats: &mut Vec<Seat<V>>,
) -> Result<(), Memory>
    requires no_node { shared.old.items ≡ [] }
    requires no_seat { seats.old.items ≡ [] }
    requires shared_room { vec_len nodes.old ≤ vec_capacity shared.old }
    requires seats_room { vec_len nodes.old ≤ vec_capacity seats.old }
    ensures started { OnOk result (AreStarted V.accepts nodes.old.items shared.new.items seats.new.items) }
    ensures shared_room { vec_capacity shared.new ≡ vec_capacity shared.old }
    ensures seats_room { vec_capacity seats.new ≡ vec_capacity seats.old }
{
    let Some(node) = nodes.pop() else {
        return Ok(());
    };
    match start_each(alloc, nodes, shared, seats) {
        Ok(()) => start_behind(alloc, node, shared, seats),
        Err(_) => Err(Memory),
    }
}

/// The same, with the memory for their places.
fn start_with_room<V: Signer + Drop>(
    alloc: Global,
    nodes: &mut Vec<Node<V>>,
    shared: &mut Vec<Shared<V>>,
    seats: &mut Vec<Seat<V>>,
) -> Result<(), Memory>
    requires no_node { shared.old.items ≡ [] }
    requires no_seat { seats.old.items ≡ [] }
    ensures { OnOk result (AreStarted V.accepts nodes.old.items shared.new.items seats.new.items) }
{
    shared.reserve(nodes.len())?;
    seats.reserve(nodes.len())?;
    start_each(alloc, nodes, shared, seats)
}

/// Shares each node with its first seat, in their order. Without memory they are dropped.
pub fn start_all<V: Signer + Drop>(
    alloc: Global,
    mut nodes: Vec<Node<V>>,
) -> Result<(Vec<Shared<V>>, Vec<Seat<V>>), Memory>
    ensures { IfOk result (λ r. AreStarted V.accepts nodes.items r.0.items r.1.items) }
{
    let mut shared = Vec::new(alloc);
    let mut seats = Vec::new(alloc);
    match start_with_room(alloc, &mut nodes, &mut shared, &mut seats) {
        Ok(()) => Ok((shared, seats)),
        Err(_) => Err(Memory),
    }
}

/// Moves the nodes to a list with room for them, in order.
fn finish_each<V: Signer + Drop, R: Wait>(
    rt: &R,
    shared: &mut Vec<Shared<V>>,
    seats: &mut Vec<Seat<V>>,
    nodes: &mut Vec<Node<V>>,
)
    requires seats { AreSeats V.accepts shared.old.items seats.old.items }
    requires parts { All HasAll seats.old.items }
    requires none { nodes.old.items ≡ [] }
    requires room { vec_len shared.old ≤ vec_capacity nodes.old }
    ensures whole { AreWhole shared.old.items seats.old.items nodes.new.items }
    ensures room { vec_capacity nodes.new ≡ vec_capacity nodes.old }
{
    let Some(shared_node) = shared.pop() else {
        return;
    };
    let Some(seat) = seats.pop() else {
        return;
    };
    finish_each(rt, shared, seats, nodes);
    nodes.push_reserved(shared_node.finish(rt, seat));
}

/// The nodes again, in order, by the seats that have all parts. Without memory they are dropped.
pub fn finish_all<V: Signer + Drop, R: Wait>(
    rt: &R,
    alloc: Global,
    mut shared: Vec<Shared<V>>,
    mut seats: Vec<Seat<V>>,
) -> Result<Vec<Node<V>>, Memory>
    requires seats { AreSeats V.accepts shared.items seats.items }
    requires parts { All HasAll seats.items }
    ensures { IfOk result (λ nodes. AreWhole shared.items seats.items nodes.items) }
{
    let mut nodes = Vec::new(alloc);
    match nodes.reserve(shared.len()) {
        Ok(()) => {
            finish_each(rt, &mut shared, &mut seats, &mut nodes);
            Ok(nodes)
        }
        Err(_) => Err(Memory),
    }
}
