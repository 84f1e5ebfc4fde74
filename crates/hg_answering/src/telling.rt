ghost use Rattle.std.specs.Prelude.{◌≡◌, ◌<◌, ◌≤◌, ◌-◌, IfOk, length, map};
ghost use Rattle.hg_life.specs.NodeView.{kept_of, node_rows};
ghost use Rattle.hg_life.specs.Spelling.{spelling};
ghost use Rattle.hg_answering.specs.Answering.{TellsProof};
ghost use Rattle.hg_answering.specs.Notes.{AreNoted};
ghost use Rattle.hg_answering.specs.Telling.{balances_told, events_told, heads, last_told, state_told, waiting, window};
ghost use Rattle.hg_service.specs.declared.answer.Answer.TheVariants as answer;

use crate::notes::Notes;
use crate::told::{copied, window_of};
use hg_life::Members;
use hg_model::{Bytes, Items, Memory};
use hg_node::Node;
use hg_proof::certificate;
use hg_service::Answer;
use hg_sign::Signer;
use std::alloc::Global;

/// Place and time of the node's last row.
fn last_told<V: Signer>(node: &Node<V>) -> Option<(u64, u64)>
    ensures { result ≡ last_told node.now }
{
    let place = node.last_own()?;
    Some((place as u64, node.row(place).time))
}

/// How many rows have a payload and are not ordered.
fn waiting<V: Signer>(members: &Members, node: &Node<V>, notes: &Notes) -> u64
    requires { AreNoted members.now node.now notes.now }
    ensures { result ≡ waiting (node_rows node.now) (kept_of node.now) }
{
    notes.rows.payloads().saturating_sub(notes.order.payloads)
}

/// The counts of a node.
pub fn state<V: Signer>(
    alloc: Global,
    members: &Members,
    node: &Node<V>,
    notes: &Notes,
    impostor: bool,
) -> Result<Answer, Memory>
    requires { AreNoted members.now node.now notes.now }
    ensures { IfOk result (λ told. told ≡ state_told members.now node.now impostor) }
{
    members.is_lawful();
    let strange = notes.rows.strange(alloc)?;
    Ok(Answer::State {
        events: node.rows() as u64,
        forkers: node.forkers(),
        greatest: node.greatest(),
        closed: node.closed(),
        ordered: node.kept().len() as u64,
        waiting: waiting(members, node, notes),
        own: last_told(node),
        impostor,
        strange: Items::from_vec(strange),
    })
}

/// The names of the members' last rows.
pub fn heads<V: Signer>(
    alloc: Global,
    members: &Members,
    node: &Node<V>,
    notes: &Notes,
) -> Result<Answer, Memory>
    requires { AreNoted members.now node.now notes.now }
    ensures { IfOk result (λ told. told ≡ answer.Heads (heads node.now)) }
{
    Ok(Answer::Heads(Items::from_vec(notes.rows.heads(alloc)?)))
}

/// The bytes of the rows from this place on, at most `limit`.
pub fn events<V: Signer>(
    alloc: Global,
    node: &Node<V>,
    place: u64,
    limit: u64,
) -> Result<Answer, Memory>
    ensures { IfOk result (λ told. told ≡ events_told node.now place limit) }
{
    let (start, end) = window_of(node.rows(), place, limit);
    let events = bytes_between(alloc, node, start, end)?;
    Ok(Answer::Events {
        all: node.rows() as u64,
        events: Items::from_vec(events),
    })
}

/// The bytes of the rows between two places.
fn bytes_between<V: Signer>(
    alloc: Global,
    node: &Node<V>,
    start: usize,
    end: usize,
) -> Result<Vec<Bytes>, Memory>
    requires ordered { start ≤ end }
    requires within { end ≤ length (node_rows node.now) }
    ensures { IfOk result (λ events. events.items ≡ window start (end - start) (map spelling (node_rows node.now))) }
{
    let mut events = Vec::new(alloc);
    for x in start..end {
        events.push(copied(alloc, node.bytes(x))?)?;
    }
    Ok(events)
}

/// What the members have.
pub fn balances<V: Signer>(alloc: Global, node: &Node<V>) -> Result<Answer, Memory>
    ensures { IfOk result (λ told. told ≡ balances_told node.now) }
{
    let balances = Vec::from_slice(alloc, node.book().balances())?;
    Ok(Answer::Balances {
        ordered: node.kept().len() as u64,
        balances: Items::from_vec(balances),
    })
}

/// A certificate of the order.
pub fn proof<V: Signer>(alloc: Global, node: &Node<V>) -> Result<Answer, Memory>
    ensures { IfOk result (TellsProof V.accepts node.now) }
{
    let bytes = certificate(alloc, node)?;
    Ok(Answer::Proof(Items::from_vec(bytes)))
}
