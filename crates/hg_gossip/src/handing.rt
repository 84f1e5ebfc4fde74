ghost use Rattle.std.specs.Prelude.{◌≡◌, ◌++◌, ◌<◌, ◌≤◌, IfOk, OnOk, Some, is_some, length, reverse, slice_get};
ghost use Rattle.hg_model.specs.Held.{lacking, is_held};
ghost use Rattle.hg_life.specs.NodeView.{node_rows};
ghost use Rattle.hg_graph.specs.RowsWithRoom.{rows_of};
ghost use Rattle.hg_gossip.specs.Handing.{AreInside, Knows, PushesLacked, PushesUnheld, lacked_backwards, lacked_behind, rows_at};

use hg_event::Event;
use hg_model::{Member, Memory, Name, Sight};
use hg_node::Node;
use hg_sign::Signer;
use std::alloc::Global;
use std::marker::Model;
use std::sync::Arc;

/// What a node has of another one's rows: the names of so many first ones, but for those of the events that it refused.
#[derive(Drop)]
pub struct Heard {
    pub len: usize,
    pub refused: Vec<Arc<Event>>,
}

impl Model for Heard {
    ghost use Rattle.hg_graph.specs.RowsWithRoom.{rows_of};
    ghost use Rattle.hg_gossip.specs.Handing.{HeardView, heard_of};

    ghost Value = { HeardView };

    ghost view = { λ s. heard_of s.len (rows_of s.refused.items) };
}

/// The event that a row of a node is, once more.
fn event_at<V: Signer>(node: &Node<V>, place: usize) -> Result<Arc<Event>, Memory>
    requires { place < length (node_rows node.now) }
    ensures { IfOk result (λ event. slice_get (node_rows node.now) place ≡ Some event.value) }
{
    Ok(Arc::clone(node.event(place))?)
}

/// Of each member where the taker's row stands that is compared first, while the peer's rows are walked from the last one
/// down: behind a row by the member that the taker has, its self-parent. From `usize::MAX` on there is none.
type Marks = [usize; 128];

/// For so many rows that are lacked memory is taken at once.
const USUAL_ROWS: usize = 32;

/// The self-parent of a row, or none: where to look for the row by its member that comes before it. No clause speaks of it.
fn before<V: Signer>(taker: &Node<V>, place: usize) -> usize {
    let graph = taker.graph();
    if place < graph.rows() {
        return graph.self_parent(place).unwrap_or(usize::MAX);
    }
    usize::MAX
}

/// The place of the taker's row with this name by the member, which may well be the one that is marked: only where that has
/// another name the name is looked up.
fn place_near<V: Signer>(
    taker: &Node<V>,
    name: &Name,
    member: Member,
    marked: usize,
) -> Option<usize>
    ensures { is_some result ≡ is_held (node_rows taker.now) name.now }
{
    if marked < taker.rows() && taker.row(marked).name == *name {
        return Some(marked);
    }
    taker.graph().place_by(name, member)
}

/// Who made the row at a place, as the graph's links tell, so that its event need not be touched. No clause speaks of it.
fn maker<V: Signer>(node: &Node<V>, place: usize) -> Member {
    let graph = node.graph();
    if place < graph.rows() {
        return graph.creator(place);
    }
    Member::MAX
}

/// Whether the taker has this name of a row that the member made, with the marks as they are behind it.
fn is_held_near<V: Signer>(taker: &Node<V>, name: &Name, member: Member, marks: &mut Marks) -> bool
    ensures { result ≡ is_held (node_rows taker.now) name.now }
{
    let line = usize::from(member);
    if line >= marks.len() {
        return taker.place_of(name).is_some();
    }
    let place = place_near(taker, name, member, marks[line]);
    if let Some(place) = place {
        marks[line] = before(taker, place);
    }
    place.is_some()
}

/// The place of a row of the peer behind the others, unless the taker has its name.
fn push_unless_held<V: Signer, W: Signer>(
    places: &mut Vec<usize>,
    taker: &Node<V>,
    peer: &Node<W>,
    place: usize,
    marks: &mut Marks,
) -> Result<(), Memory>
    requires place { place < length (node_rows peer.now) }
    requires inside { AreInside (node_rows peer.now) places.old.items }
    ensures pushed { OnOk result (PushesLacked taker.now peer.now place places.old.items places.new.items) }
    ensures inside { AreInside (node_rows peer.now) places.new.items }
{
    if !is_held_near(taker, &peer.row(place).name, maker(peer, place), marks) {
        places.push(place)?;
    }
    Ok(())
}

/// The places from this one on of the peer's rows whose names the taker lacks, the last one first: so each member's line is
/// walked down in both graphs, and of what the taker has hardly a name is looked up.
fn lacked_backwards<V: Signer, W: Signer>(
    alloc: Global,
    taker: &Node<V>,
    peer: &Node<W>,
    from: usize,
) -> Result<Vec<usize>, Memory>
    requires { from ≤ length (node_rows peer.now) }
    ensures rows { IfOk result (λ places. rows_at (node_rows peer.now) places.items ≡ lacked_backwards taker.now peer.now from) }
    ensures inside { IfOk result (λ places. AreInside (node_rows peer.now) places.items) }
{
    let mut places = Vec::with_capacity(alloc, (peer.rows() - from).min(USUAL_ROWS))?;
    let mut marks = [usize::MAX; 128];
    let mut place = peer.rows();
    'places: while from < place {
        place -= 1;
        push_unless_held(&mut places, taker, peer, place, &mut marks)?;
    }
    Ok(places)
}

/// The events of a node at these places, the last one first. An event is shared only once all places are known, so that no
/// look-up waits for a count of owners.
fn events_backwards<V: Signer>(
    alloc: Global,
    node: &Node<V>,
    places: &[usize],
) -> Result<Vec<Arc<Event>>, Memory>
    requires { AreInside (node_rows node.now) places.now }
    ensures { IfOk result (λ events. rows_of events.items ≡ reverse (rows_at (node_rows node.now) places.now)) }
{
    let mut events = Vec::with_capacity(alloc, places.len())?;
    let mut left = places.len();
    'events: while left > 0 {
        left -= 1;
        events.push(event_at(node, places[left])?)?;
    }
    Ok(events)
}

/// The event behind the others, unless the taker has its name.
fn push_unless_taken<V: Signer>(
    events: &mut Vec<Arc<Event>>,
    taker: &Node<V>,
    event: &Arc<Event>,
) -> Result<(), Memory>
    ensures { OnOk result (PushesUnheld taker.now event.now.value (rows_of events.old.items) (rows_of events.new.items)) }
{
    let row = event.row();
    if taker.graph().place_by(&row.name, row.creator).is_none() {
        events.push(Arc::clone(event)?)?;
    }
    Ok(())
}

/// Those of these events whose names the taker lacks.
pub fn still_lacked<V: Signer>(
    alloc: Global,
    taker: &Node<V>,
    events: &[Arc<Event>],
) -> Result<Vec<Arc<Event>>, Memory>
    ensures { IfOk result (λ lacked. rows_of lacked.items ≡ lacking (node_rows taker.now) (rows_of events.now)) }
{
    let mut lacked = Vec::new(alloc);
    for event in events {
        push_unless_taken(&mut lacked, taker, event)?;
    }
    Ok(lacked)
}

/// The events of the peer from this place on whose names the taker lacks.
fn lacked_behind<V: Signer, W: Signer>(
    alloc: Global,
    taker: &Node<V>,
    peer: &Node<W>,
    from: usize,
) -> Result<Vec<Arc<Event>>, Memory>
    requires { from ≤ length (node_rows peer.now) }
    ensures { IfOk result (λ events. rows_of events.items ≡ lacked_behind taker.now peer.now from) }
{
    let places = lacked_backwards(alloc, taker, peer, from)?;
    events_backwards(alloc, peer, places.as_slice())
}

/// The events, and then the others.
pub fn joined(
    mut events: Vec<Arc<Event>>,
    others: Vec<Arc<Event>>,
) -> Result<Vec<Arc<Event>>, Memory>
    ensures { IfOk result (λ all. rows_of all.items ≡ rows_of events.items ++ rows_of others.items) }
{
    if events.is_empty() {
        return Ok(others);
    }
    for event in &others {
        events.push(Arc::clone(event)?)?;
    }
    Ok(events)
}

/// The events of the peer whose names the taker lacks, who has heard of so many: first those that it refused.
pub fn lacked<V: Signer, W: Signer>(
    alloc: Global,
    taker: &Node<V>,
    peer: &Node<W>,
    heard: &Heard,
) -> Result<Vec<Arc<Event>>, Memory>
    requires { Knows (node_rows taker.now) (node_rows peer.now) heard.now }
    ensures { IfOk result (λ events. rows_of events.items ≡ lacking (node_rows taker.now) (node_rows peer.now)) }
{
    let refused = still_lacked(alloc, taker, heard.refused.as_slice())?;
    let behind = lacked_behind(alloc, taker, peer, heard.len)?;
    joined(refused, behind)
}
