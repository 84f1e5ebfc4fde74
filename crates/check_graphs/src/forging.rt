use crate::drafting::parents_of;
use hg_check::Dice;
use hg_model::{Member, Memory, Name};
use hg_node::Node;
use hg_sign::{MacTable, SharedTable, signed_bytes};
use std::alloc::Global;

/// The name of the row by a member that is so many before the last one at the node.
fn name_back(node: &Node<SharedTable>, member: Member, back: u32) -> Option<Name> {
    let mut left = back;
    for place in (0..node.rows()).rev() {
        let row = node.row(place);
        if row.creator == member {
            if left == 0 {
                return Some(row.name);
            }
            left -= 1;
        }
    }
    None
}

/// The parents of a forged event: on one of the last rows by its creator at the node, or one first event more.
/// Nothing where the dice ask for a row that is not there.
fn forged_parents(
    dice: &mut Dice,
    node: &Node<SharedTable>,
    creator: Member,
    other: Member,
) -> Option<Option<(Name, Name)>> {
    if dice.is_one_in(12) {
        return Some(None);
    }
    let own = name_back(node, creator, dice.below(4))?;
    let other = name_back(node, other, dice.below(2))?;
    Some(Some((own, other)))
}

/// The bytes of an event that the node of its creator does not make, under the creator's signature, on rows of this
/// node.
pub fn forged_event(
    alloc: Global,
    dice: &mut Dice,
    keys: &MacTable,
    node: &Node<SharedTable>,
    creator: Member,
    other: Member,
) -> Result<Option<Vec<u8>>, Memory> {
    let Some(on) = forged_parents(dice, node, creator, other) else {
        return Ok(None);
    };
    let parents = parents_of(alloc, on)?;
    let time = u64::from(dice.below(24));
    let event = signed_bytes(alloc, keys, creator, &parents, time, &[])?;
    Ok(Some(event.bytes))
}

/// Changes one of the bytes.
pub fn damage(dice: &mut Dice, bytes: &mut [u8]) {
    if bytes.is_empty() {
        return;
    }
    let place = dice.place(bytes.len());
    bytes[place] ^= 1 + dice.below(255) as u8;
}
