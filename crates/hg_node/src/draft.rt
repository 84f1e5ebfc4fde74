ghost use Rattle.std.specs.Prelude.{◌≡◌, ◌≤◌, ◌<◌, ◌∷◌, true, drop, length, map, IfOk};
ghost use Rattle.std.specs.Result.{result_err};
ghost use Rattle.hg_model.specs.Links.{has_few_others, most_others, place_of};
ghost use Rattle.hg_life.specs.Spelling.{payload_limit};
ghost use Rattle.hg_life.specs.Verdict.{first_rule, last_name, other_rule, parents_on, payload_rule, signed_row};
ghost use Rattle.hg_arrival.specs.Arrival.{AreInside};
ghost use Rattle.hg_sign.specs.Signed.{IsSigned};
ghost use Rattle.hg_node.specs.Draft.{creator_fault, draft_fault, draft_places, missing_fault, row_fault};

use crate::chronicle::Chronicle;
use hg_arrival::first_by;
use hg_event::{Event, PAYLOAD_LIMIT};
use hg_graph::EventGraph;
use hg_life::MakeFault;
use hg_model::{Items, Member, Memory, Name, Parents, Row};
use hg_name::name_of;
use hg_sign::{Signer, signed_bytes};
use std::alloc::Global;
use std::sync::Arc;

/// The parents of an event that a node is to make.
#[derive(Drop)]
pub struct Draft {
    /// The name of the self-parent, or none where the event is the node's first.
    pub last: Option<Name>,
    /// The places of all parents.
    pub places: Parents,
}

/// The draft of the event that a node with these records makes, or what is wrong with the event before it is signed.
/// Takes no memory.
pub fn draft_of(chronicle: &Chronicle, others: &[Name], payload: &[u8]) -> Result<Draft, MakeFault>
    requires { length others.now ≤ most_others }
    ensures fault { result_err result ≡ draft_fault chronicle.now others.now payload.now }
    ensures last { IfOk result (λ draft. draft.last ≡ last_name chronicle.now.own chronicle.now.graph.rows) }
    ensures places { IfOk result (λ draft. draft.places ≡ draft_places chronicle.now others.now) }
{
    let last = chronicle.last_name();
    first_rule(&last, others)?;
    let places = match chronicle.last_own() {
        Some(own) => parent_places(chronicle.graph(), chronicle.own(), own, others)?,
        None => Parents::none(),
    };
    payload_rule(payload)?;
    Ok(Draft { last, places })
}

/// Other-parents for each event but the node's first.
fn first_rule(last: &Option<Name>, others: &[Name]) -> Result<(), MakeFault>
    ensures { result_err result ≡ first_rule last.now others.now }
{
    match (last, others) {
        (Some(_), []) => Err(MakeFault::HasFirst),
        (None, [_, ..]) => Err(MakeFault::NoFirst),
        _ => Ok(()),
    }
}

/// This place and those of the rows with these names, if each is another member's row.
#[tactic(auto, using(crate::proofs::DraftLaws::creators_told))]
fn parent_places(
    graph: &EventGraph,
    member: Member,
    own: usize,
    others: &[Name],
) -> Result<Parents, MakeFault>
    requires place { own < length graph.now.graph.rows }
    requires few { length others.now ≤ most_others }
    ensures fault { result_err result ≡ other_rule member graph.now.graph.rows others.now }
    ensures places { IfOk result (λ on. on ≡ own ∷ map (place_of graph.now.graph.rows) others.now) }
{
    let parents = places_behind(graph, own, others)?;
    creators_rule(graph, member, parents.as_slice())?;
    Ok(parents)
}

/// This place and those of the rows with these names behind it, if each name is a row's.
#[tactic(auto, using(crate::proofs::DraftLaws::names_looked_up))]
fn places_behind(graph: &EventGraph, own: usize, others: &[Name]) -> Result<Parents, MakeFault>
    requires place { own < length graph.now.graph.rows }
    requires few { length others.now ≤ most_others }
    ensures fault { result_err result ≡ missing_fault graph.now.graph.rows others.now }
    ensures places { IfOk result (λ on. on ≡ own ∷ map (place_of graph.now.graph.rows) others.now) }
    ensures inside { IfOk result (AreInside graph.now.graph.rows) }
{
    let mut places = Parents::none().with(own);
    for name in others {
        let Some(place) = graph.place_of(name) else {
            return Err(MakeFault::MissingOther(*name));
        };
        places = places.with(place);
    }
    Ok(places)
}

/// Whether the rows at these places but the first are all by other members.
fn creators_rule(graph: &EventGraph, member: Member, places: &[usize]) -> Result<(), MakeFault>
    requires { AreInside graph.now.graph.rows places.now }
    ensures { result_err result ≡ creator_fault member graph.now.graph.rows (drop 1 places.now) }
{
    let [_, others @ ..] = places else {
        return Ok(());
    };
    match first_by(graph, member, others) {
        Some(place) => Err(MakeFault::OtherCreator(place)),
        None => Ok(()),
    }
}

fn payload_rule(payload: &[u8]) -> Result<(), MakeFault>
    ensures { result_err result ≡ payload_rule payload.now }
{
    if PAYLOAD_LIMIT < payload.len() {
        return Err(MakeFault::PayloadLong(payload.len()));
    }
    Ok(())
}

/// The names of the parents as a row has them.
fn listed(
    alloc: Global,
    last: Option<Name>,
    others: &[Name],
) -> Result<Option<(Name, Items<Name>)>, Memory>
    requires { length others.now ≤ most_others }
    ensures names { IfOk result (λ parents. parents ≡ parents_on last others.now) }
    ensures few { IfOk result (λ parents. has_few_others parents ≡ true) }
{
    let (Some(last), [_, ..]) = (last, others) else {
        return Ok(None);
    };
    let others = Vec::from_slice(alloc, others)?;
    Ok(Some((last, Items::from_vec(others))))
}

/// The event of a member behind its last one and on others of these names, signed; without other names its first one. It is
/// named, and its bytes are written out, once.
pub fn signed_event<V: Signer>(
    alloc: Global,
    keys: &V,
    creator: Member,
    last: Option<Name>,
    others: &[Name],
    time: u64,
    payload: &[u8],
) -> Result<Arc<Event>, Memory>
    requires few { length others.now ≤ most_others }
    requires short { length payload.now ≤ payload_limit }
    ensures row { IfOk result (λ e. e.value ≡ signed_row creator (parents_on last others.now) time payload.now e.value.sig) }
    ensures signed { IfOk result
        (λ e. IsSigned (V.accepts keys.now) creator (parents_on last others.now) time payload.now e.value.sig) }
    ensures sized { IfOk result (λ event. length event.value.sig ≡ 64) }
{
    let parents = listed(alloc, last, others)?;
    let signed = signed_bytes(alloc, keys, creator, &parents, time, payload)?;
    let row = Row {
        creator,
        parents,
        time,
        payload: Items::from_vec(Vec::from_slice(alloc, payload)?),
        sig: signed.sig,
        name: name_of(signed.bytes.as_slice()),
    };
    let event = Event::new(row, Items::from_vec(signed.bytes));
    Ok(Arc::new(alloc, event)?)
}

/// What is wrong with an event that is signed. Takes no memory.
pub fn row_rule(chronicle: &Chronicle, event: &Arc<Event>) -> Result<(), MakeFault>
    ensures { result_err result ≡ row_fault chronicle.now event.now.value }
{
    let graph = chronicle.graph();
    if let Some(place) = graph.place_of(&event.row().name) {
        return Err(MakeFault::Collision(place));
    }
    if chronicle.limit() <= graph.len() {
        return Err(MakeFault::Full(chronicle.limit()));
    }
    Ok(())
}
