ghost use Rattle.std.specs.Prelude.{◌≡◌};
ghost use Rattle.hg_life.specs.NodeView.{node_rows};
ghost use Rattle.order_book.specs.Script.{last_names};

use hg_check::parents_on;
use hg_event::PAYLOAD_LIMIT;
use hg_model::{Bytes, Member, Memory, Name};
use hg_name::name_of;
use hg_node::Node;
use hg_sign::{MacTable, SharedTable, signed_bytes};
use std::alloc::Global;

/// An event in bytes, and its name.
#[derive(Drop)]
pub struct Forged {
    pub bytes: Bytes,
    pub name: Name,
}

/// The name of the member's last event but one at the node.
fn last_but_one(node: &Node<SharedTable>, member: Member) -> Option<Name>
    ensures { result ≡ (last_names member (node_rows node.now)).0 }
{
    let mut last = None;
    let mut before = None;
    for place in 0..node.rows() {
        let row = node.row(place);
        if row.creator == member {
            before = last;
            last = Some(row.name);
        }
    }
    before
}

/// A second event on the self-parent of the last event of a node's member, on the last event but one of another member,
/// under the member's signature. Nothing where these are not there, or the payload
/// is too long.
pub fn forged_event(
    alloc: Global,
    keys: &MacTable,
    node: &Node<SharedTable>,
    beside: Member,
    time: u64,
    payload: &[u8],
) -> Result<Option<Forged>, Memory> {
    if payload.len() > PAYLOAD_LIMIT {
        return Ok(None);
    }
    let creator = node.own();
    let (Some(own), Some(other)) = (last_but_one(node, creator), last_but_one(node, beside)) else {
        return Ok(None);
    };
    let parents = parents_on(alloc, own, &[other])?;
    let signed = signed_bytes(alloc, keys, creator, &parents, time, payload)?;
    let name = name_of(signed.bytes.as_slice());
    Ok(Some(Forged {
        bytes: Bytes::from_vec(signed.bytes),
        name,
    }))
}
