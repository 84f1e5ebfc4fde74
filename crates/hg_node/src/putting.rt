ghost use Rattle.std.specs.Prelude.{◌≡◌, ◌<◌, IfOk};
ghost use Rattle.std.specs.Result.{result_err};
ghost use Rattle.hg_arrival.specs.Arrival.{StandsOn};
ghost use Rattle.hg_event.specs.View.{row_of};
ghost use Rattle.hg_life.specs.Spelling.{Spells};
ghost use Rattle.hg_model.specs.Stakes.{member_count};
ghost use Rattle.hg_life.specs.Verdict.{full_rule};
ghost use Rattle.hg_event.specs.Names.{names_lent};
ghost use Rattle.hg_node.specs.Puts.{back_rules, put_rules, signed_put_rules};
ghost use Rattle.hg_node.specs.Restore.{impostor_in, is_same_name, self_name};

use crate::chronicle::Chronicle;
use hg_arrival::{parents_of_arrival, parents_of_signed};
use hg_event::{Event, EventView, ParentsView};
use hg_life::{Fault, PutAnswer};
use hg_model::{Member, Name, Parents};
use hg_sign::Signer;
use std::sync::Arc;

/// The places of the parents of an event that is put to a member's node, or the answer of the first rule that speaks
/// against it. Takes no memory.
pub fn parents_of_put<V: Signer>(
    keys: &V,
    chronicle: &Chronicle,
    view: &EventView<'_>,
    name: &Name,
    bytes: &[u8],
) -> Result<Parents, PutAnswer>
    requires spelled { Spells bytes.now (row_of view.now) }
    requires name { name.now ≡ (row_of view.now).name }
    ensures answer { result_err result ≡ put_rules (V.accepts keys.now) chronicle.now (row_of view.now) }
    ensures link { IfOk result (λ on. StandsOn chronicle.now.graph.rows (row_of view.now) on) }
{
    let graph = chronicle.graph();
    let parents = parents_of_arrival(keys, graph, Some(chronicle.own()), view, name, bytes)?;
    full_rule(chronicle)?;
    Ok(parents)
}

/// The same of an event of a member whose signature is accepted.
pub fn parents_of_put_event(chronicle: &Chronicle, event: &Arc<Event>) -> Result<Parents, PutAnswer>
    requires { event.now.value.creator < member_count chronicle.now.graph.members }
    ensures answer { result_err result ≡ signed_put_rules chronicle.now event.now.value }
    ensures link { IfOk result (λ on. StandsOn chronicle.now.graph.rows event.now.value on) }
{
    let graph = chronicle.graph();
    let parents = parents_of_signed(graph, Some(chronicle.own()), event)?;
    full_rule(chronicle)?;
    Ok(parents)
}

/// The same of an event that comes back to the node of the member that made it: no rule but that on impostors differs.
pub fn parents_of_restore<V: Signer>(
    keys: &V,
    chronicle: &Chronicle,
    view: &EventView<'_>,
    name: &Name,
    bytes: &[u8],
) -> Result<Parents, PutAnswer>
    requires spelled { Spells bytes.now (row_of view.now) }
    requires name { name.now ≡ (row_of view.now).name }
    ensures answer { result_err result ≡ back_rules (V.accepts keys.now) chronicle.now (row_of view.now) }
    ensures link { IfOk result (λ on. StandsOn chronicle.now.graph.rows (row_of view.now) on) }
{
    let graph = chronicle.graph();
    let impostor = impostor_of(chronicle, view);
    let parents = parents_of_arrival(keys, graph, impostor, view, name, bytes)?;
    full_rule(chronicle)?;
    Ok(parents)
}

/// Whose node would find an impostor's event in this one: nobody's, where it is the next one of the node's member, else its
/// creator's.
fn impostor_of(chronicle: &Chronicle, view: &EventView<'_>) -> Option<Member>
    ensures { result ≡ impostor_in chronicle.now.own chronicle.now.graph.rows (row_of view.now) }
{
    let last = chronicle.last_name();
    if view.creator == chronicle.own() && is_self_parent(&view.parents, &last) {
        return None;
    }
    Some(view.creator)
}

/// Whether the self-parent's name is this one, or neither is there.
fn is_self_parent(parents: &Option<ParentsView<'_>>, last: &Option<Name>) -> bool
    ensures { result ≡ is_same_name (self_name (names_lent parents.now)) last.now }
{
    match (parents, last) {
        (None, None) => true,
        (Some(names), Some(last)) => names.self_parent == last,
        _ => false,
    }
}

/// Whether the node takes one row more.
fn full_rule(chronicle: &Chronicle) -> Result<(), PutAnswer>
    ensures { result_err result ≡ full_rule chronicle.now.limit chronicle.now.graph.rows }
{
    if chronicle.limit() <= chronicle.graph().len() {
        return Err(PutAnswer::Refused(Fault::Full(chronicle.limit())));
    }
    Ok(())
}
