ghost use Rattle.std.specs.Prelude.{◌≡◌, ◌≤◌, true, IfOk, length, option_map, take};
ghost use Rattle.hg_model.specs.Links.{has_few_others};
ghost use Rattle.hg_life.specs.Spelling.{payload_limit};
ghost use Rattle.hg_life.specs.NodeView.{node_rows};
ghost use Rattle.hg_script.specs.Argument.{AreLabels};
ghost use Rattle.hg_play.specs.Labels.{altered, bytes_at, bytes_named, bytes_of_event, forged, last_bytes, name_of_label, names_of_labels, parents_of_labels};

use hg_event::Event;
use hg_model::{Bytes, Items, Member, Memory, Name};
use hg_name::name_of;
use hg_node::Node;
use hg_sign::{MacTable, SharedTable, signed_bytes};
use std::alloc::Global;
use std::sync::Arc;

/// The bytes of a label, by its number; none for a number that is no label's.
pub(crate) fn bytes_at(labels: &[Bytes], label: usize) -> &[u8]
    ensures { result.now ≡ bytes_at labels.now label }
{
    match labels.get(label) {
        Some(bytes) => bytes.as_slice(),
        None => &[],
    }
}

/// The name of the event that the label's bytes are.
pub(crate) fn name_of_label(labels: &[Bytes], label: usize) -> Name
    ensures { result ≡ name_of_label labels.now label }
{
    name_of(bytes_at(labels, label))
}

/// The names of the events of several labels.
pub(crate) fn names_of_labels(
    alloc: Global,
    labels: &[Bytes],
    places: &[usize],
) -> Result<Vec<Name>, Memory>
    ensures { IfOk result (λ names. names.items ≡ names_of_labels labels.now places.now) }
{
    let mut names = Vec::with_capacity(alloc, places.len())?;
    for label in places {
        names.push(name_of_label(labels, *label))?;
    }
    Ok(names)
}

/// The names of the events of a self-parent's label and of the others'.
pub(crate) fn parents_of_labels(
    alloc: Global,
    labels: &[Bytes],
    parents: &Option<(usize, Items<usize>)>,
) -> Result<Option<(Name, Items<Name>)>, Memory>
    requires { AreLabels parents.now }
    ensures names { IfOk result (λ names. names ≡ option_map (parents_of_labels labels.now) parents.now) }
    ensures few { IfOk result (λ names. has_few_others names ≡ true) }
{
    match parents {
        None => Ok(None),
        Some((own, others)) => {
            let names = names_of_labels(alloc, labels, others.as_slice())?;
            Ok(Some((name_of_label(labels, *own), Items::from_vec(names))))
        }
    }
}

/// An event with these fields, under the member's signature.
pub(crate) fn forged(
    alloc: Global,
    keys: &MacTable,
    creator: Member,
    parents: &Option<(Name, Items<Name>)>,
    time: u64,
    payload: &[u8],
) -> Result<Bytes, Memory>
    requires few { has_few_others parents.now ≡ true }
    requires payload { length payload.now ≤ payload_limit }
    ensures { IfOk result (λ bytes. bytes ≡ forged keys.now creator parents.now time payload.now) }
{
    let event = signed_bytes(alloc, keys, creator, parents, time, payload)?;
    Ok(Items::from_vec(event.bytes))
}

/// The byte at a place XORed with the mask, if there is one.
fn alter(bytes: &mut [u8], at: u64, mask: u8)
    ensures { bytes.new ≡ altered bytes.old at mask }
{
    if at < bytes.len() as u64 {
        bytes[at as usize] ^= mask;
    }
}

/// A copy, with the byte at a place XORed with the mask, if there is one.
pub(crate) fn altered(alloc: Global, bytes: &[u8], at: u64, mask: u8) -> Result<Bytes, Memory>
    ensures { IfOk result (λ copy. copy ≡ altered bytes.now at mask) }
{
    let mut copy = Vec::from_slice(alloc, bytes)?;
    alter(copy.as_mut_slice(), at, mask);
    Ok(Items::from_vec(copy))
}

/// The first bytes, so many, or all of fewer.
pub(crate) fn front(alloc: Global, bytes: &[u8], len: u64) -> Result<Bytes, Memory>
    ensures { IfOk result (λ copy. copy ≡ take len bytes.now) }
{
    let front = if len < bytes.len() as u64 {
        &bytes[..len as usize]
    } else {
        bytes
    };
    Ok(Items::from_vec(Vec::from_slice(alloc, front)?))
}

/// A copy of the bytes.
pub(crate) fn copied(alloc: Global, bytes: &[u8]) -> Result<Bytes, Memory>
    ensures { IfOk result (λ copy. copy ≡ bytes.now) }
{
    Ok(Items::from_vec(Vec::from_slice(alloc, bytes)?))
}

/// The bytes of the row with this name, if there is one.
fn bytes_named(alloc: Global, node: &Node<SharedTable>, name: &Name) -> Result<Bytes, Memory>
    ensures { IfOk result (λ bytes. bytes ≡ bytes_named (node_rows node.now) name.now) }
{
    match node.place_of(name) {
        Some(place) => copied(alloc, node.bytes(place)),
        None => Ok(Items::new(alloc)),
    }
}

/// The bytes of the last event that the node made, or none.
pub(crate) fn last_bytes(alloc: Global, node: &Node<SharedTable>) -> Result<Bytes, Memory>
    ensures { IfOk result (λ bytes. bytes ≡ last_bytes node.now) }
{
    match node.last_name() {
        Some(name) => bytes_named(alloc, node, &name),
        None => Ok(Items::new(alloc)),
    }
}

/// A copy of the bytes of the event, or none.
pub(crate) fn bytes_of_event(alloc: Global, event: &Option<Arc<Event>>) -> Result<Bytes, Memory>
    ensures { IfOk result (λ bytes. bytes ≡ bytes_of_event event.now) }
{
    match event {
        Some(event) => copied(alloc, event.bytes()),
        None => Ok(Items::new(alloc)),
    }
}
