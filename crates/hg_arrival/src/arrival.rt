ghost use Rattle.std.specs.Prelude.{◌≡◌, ◌<◌, ◌≤◌, ◌∷◌, None, length, map, IfOk, OnOk};
ghost use Rattle.std.specs.Result.{result_err};
ghost use Rattle.hg_event.specs.Names.{lent_names};
ghost use Rattle.hg_event.specs.View.{row_of};
ghost use Rattle.hg_model.specs.Graph.{creator_at};
ghost use Rattle.hg_model.specs.Links.{most_others, place_of};
ghost use Rattle.hg_life.specs.Spelling.{HasSpelling, Spells};
ghost use Rattle.hg_model.specs.Stakes.{member_count};
ghost use Rattle.hg_life.specs.Verdict.{forkers_rule, missing_rule, name_rule, signature_rule};
ghost use Rattle.hg_arrival.specs.Arrival.{AreInside, IsNameAnswer, LinkComes, StandsOn, all_rules, arrival_places, first_place_by, impostor_by, later_rules, member_answer, missing_answer, others_answer, parents_rule, places_rule, signed_rules};

use hg_event::{Event, EventView, body_of};
use hg_graph::EventGraph;
use hg_life::{Fault, PutAnswer};
use hg_model::{Member, Name, Parents, Sight, is_shaped};
use hg_sign::Verifier;
use std::sync::Arc;

/// The places of the parents of an event that comes to a graph, or the answer of the first rule that speaks against it. At
/// the node of the member `own` an event of that member is an impostor's. Takes no memory; before the name is known to be
/// new it does not look at the signature.
pub fn parents_of_arrival<V: Verifier>(
    keys: &V,
    graph: &EventGraph,
    own: Option<Member>,
    view: &EventView<'_>,
    name: &Name,
    bytes: &[u8],
) -> Result<Parents, PutAnswer>
    requires spelled { Spells bytes.now (row_of view.now) }
    requires name { name.now ≡ (row_of view.now).name }
    ensures answer { result_err result ≡ all_rules (V.accepts keys.now) own graph.now.graph (row_of view.now) }
    ensures link { IfOk result (λ on. StandsOn graph.now.graph.rows (row_of view.now) on) }
{
    member_rule(graph.members(), view)?;
    name_rule(graph, name, bytes)?;
    signature_rule(keys, view)?;
    parents_of_new(graph, own, view)
}

/// The same of an event of a member whose signature is accepted.
pub fn parents_of_signed(
    graph: &EventGraph,
    own: Option<Member>,
    event: &Arc<Event>,
) -> Result<Parents, PutAnswer>
    requires { event.now.value.creator < member_count graph.now.graph.members }
    ensures answer { result_err result ≡ signed_rules own graph.now.graph event.now.value }
    ensures link { IfOk result (λ on. StandsOn graph.now.graph.rows event.now.value on) }
{
    name_rule(graph, &event.row().name, event.bytes())?;
    parents_of_new(graph, own, &event.view())
}

/// The same of one whose name is new too: what is left to be asked.
fn parents_of_new(
    graph: &EventGraph,
    own: Option<Member>,
    view: &EventView<'_>,
) -> Result<Parents, PutAnswer>
    requires sized { HasSpelling (row_of view.now) }
    requires member { view.now.creator < member_count graph.now.graph.members }
    requires fresh { None ≡ name_rule graph.now.graph.rows (row_of view.now) }
    ensures answer { result_err result ≡ later_rules own graph.now.graph (row_of view.now) }
    ensures link { IfOk result (λ on. StandsOn graph.now.graph.rows (row_of view.now) on) }
{
    is_shaped(graph);
    impostor_rule(own, view)?;
    let parents = parent_places(graph, view)?;
    forkers_rule(graph, view, parents.as_slice())?;
    Ok(parents)
}

/// Whether a member made it.
pub fn member_rule(members: u32, view: &EventView<'_>) -> Result<(), PutAnswer>
    ensures answer { result_err result ≡ member_answer members (row_of view.now) }
    ensures member { OnOk result (view.now.creator < members) }
{
    if members <= u32::from(view.creator) {
        return Err(PutAnswer::Refused(Fault::Member(view.creator)));
    }
    Ok(())
}

/// Whether an event of these bytes is a row already, or its name is another row's.
fn name_rule(graph: &EventGraph, name: &Name, bytes: &[u8]) -> Result<(), PutAnswer>
    ensures { IsNameAnswer graph.now.graph.rows name.now bytes.now (result_err result) }
{
    match graph.place_of(name) {
        None => Ok(()),
        Some(place) => {
            if graph.bytes(place) == bytes {
                Err(PutAnswer::Known(place))
            } else {
                Err(PutAnswer::Refused(Fault::Collision(place)))
            }
        }
    }
}

/// Whether the keys accept its signature.
pub fn signature_rule<V: Verifier>(keys: &V, view: &EventView<'_>) -> Result<(), PutAnswer>
    ensures { result_err result ≡ signature_rule (V.accepts keys.now) (row_of view.now) }
{
    if keys.check(view.creator, body_of(view), view.sig) {
        Ok(())
    } else {
        Err(PutAnswer::Refused(Fault::Signature))
    }
}

fn impostor_rule(own: Option<Member>, view: &EventView<'_>) -> Result<(), PutAnswer>
    ensures { result_err result ≡ impostor_by own (row_of view.now) }
{
    match own {
        None => Ok(()),
        Some(own) => {
            if view.creator == own {
                return Err(PutAnswer::Refused(Fault::Impostor));
            }
            Ok(())
        }
    }
}

/// The places of the event's parents, if they are rows by the right members.
#[tactic(auto, using(crate::proofs::PlaceLaws::creators_told))]
fn parent_places(graph: &EventGraph, view: &EventView<'_>) -> Result<Parents, PutAnswer>
    ensures answer { result_err result ≡ parents_rule graph.now.graph.rows (row_of view.now) }
    ensures places { IfOk result (λ on. on ≡ arrival_places graph.now.graph.rows (row_of view.now)) }
{
    let parents = held_places(graph, view)?;
    creators_rule(graph, view.creator, parents.as_slice())?;
    Ok(parents)
}

/// The places of the event's parents, if they are rows.
fn held_places(graph: &EventGraph, view: &EventView<'_>) -> Result<Parents, PutAnswer>
    ensures answer { result_err result ≡ missing_rule graph.now.graph.rows (row_of view.now).parents }
    ensures places { IfOk result (λ on. on ≡ arrival_places graph.now.graph.rows (row_of view.now)) }
    ensures inside { IfOk result (AreInside graph.now.graph.rows) }
{
    let Some(names) = view.parents else {
        return Ok(Parents::none());
    };
    let Some(own) = graph.place_by(names.self_parent, view.creator) else {
        return Err(PutAnswer::Refused(Fault::MissingSelf(*names.self_parent)));
    };
    places_behind(graph, own, names.others())
}

/// This place and those of the rows with these names behind it, if each name is a row's.
#[tactic(auto, using(crate::proofs::PlaceLaws::names_looked_up))]
fn places_behind(graph: &EventGraph, own: usize, others: &[&Name]) -> Result<Parents, PutAnswer>
    requires place { own < length graph.now.graph.rows }
    requires few { length others.now ≤ most_others }
    ensures answer { result_err result ≡ missing_answer graph.now.graph.rows (lent_names others.now) }
    ensures places { IfOk result (λ on. on ≡ own ∷ map (place_of graph.now.graph.rows) (lent_names others.now)) }
    ensures inside { IfOk result (AreInside graph.now.graph.rows) }
{
    let mut places = Parents::none().with(own);
    for name in others {
        let Some(place) = graph.place_of(*name) else {
            return Err(PutAnswer::Refused(Fault::MissingOther(**name)));
        };
        places = places.with(place);
    }
    Ok(places)
}

/// Whether the row at the first of these places is by the member, and none of the others is.
fn creators_rule(graph: &EventGraph, member: Member, places: &[usize]) -> Result<(), PutAnswer>
    requires { AreInside graph.now.graph.rows places.now }
    ensures { result_err result ≡ places_rule graph.now.graph.rows member places.now }
{
    match places {
        [] => Ok(()),
        [own, others @ ..] => {
            if creator_at(graph, *own) != member {
                return Err(PutAnswer::Refused(Fault::SelfCreator(*own)));
            }
            others_rule(graph, member, others)
        }
    }
}

/// Whether none of the rows at these places is by the member.
fn others_rule(graph: &EventGraph, member: Member, others: &[usize]) -> Result<(), PutAnswer>
    requires { AreInside graph.now.graph.rows others.now }
    ensures { result_err result ≡ others_answer graph.now.graph.rows member others.now }
{
    match first_by(graph, member, others) {
        Some(place) => Err(PutAnswer::Refused(Fault::OtherCreator(place))),
        None => Ok(()),
    }
}

/// The first of these places whose row is by the member.
pub fn first_by(graph: &EventGraph, member: Member, places: &[usize]) -> Option<usize>
    requires { AreInside graph.now.graph.rows places.now }
    ensures { result ≡ first_place_by graph.now.graph.rows member places.now }
{
    for place in places {
        if creator_at(graph, *place) == member {
            return Some(*place);
        }
    }
    None
}

/// Who made the row at a place.
#[tactic(auto, using(crate::proofs::PlaceLaws::creators))]
pub fn creator_at(graph: &EventGraph, place: usize) -> Member
    requires { place < length graph.now.graph.rows }
    ensures { result ≡ creator_at graph.now.graph.rows place }
{
    graph.creator(place)
}

/// Whether with the event the forking members would have a third of the stake or more.
#[tactic(auto, using(crate::proofs::ArrivalLaws::forking_low))]
fn forkers_rule(
    graph: &EventGraph,
    view: &EventView<'_>,
    parents: &[usize],
) -> Result<(), PutAnswer>
    requires { LinkComes graph.now.graph (row_of view.now) parents.now }
    ensures { result_err result ≡ forkers_rule graph.now.graph.members graph.now.graph.rows (row_of view.now) }
{
    let forking = graph.would(view.creator, parents);
    if graph.total() <= 3 * forking {
        return Err(PutAnswer::Refused(Fault::TooManyForkers(forking)));
    }
    Ok(())
}
