ghost use Rattle.std.specs.Prelude.{◌≡◌, ◌<◌, ◌≤◌, length, true, IfOk};
ghost use Rattle.hg_model.specs.Links.{has_few_others, most_others};

use crate::plan::Plan;
use hg_check::{Dice, parents_on};
use hg_model::{Items, Member, Memory, Name};
use hg_name::name_of;
use hg_node::Node;
use hg_sign::{MacTable, signed_bytes};
use std::alloc::Global;

/// An event to come.
#[derive(Drop)]
pub struct Draft {
    pub creator: Member,
    /// None where it is a first event of the creator.
    pub parents: Option<(Name, Items<Name>)>,
    pub time: u64,
    pub ghost few: { has_few_others parents ≡ true },
}

impl Draft {
    /// The names of the other-parents.
    pub fn others(&self) -> &[Name]
        ensures { length result.now ≤ most_others }
    {
        match &self.parents {
            None => &[],
            Some(names) => names.1.as_slice(),
        }
    }
}

/// The names of a self-parent and of one other-parent, or of none.
pub fn parents_of(
    alloc: Global,
    on: Option<(Name, Name)>,
) -> Result<Option<(Name, Items<Name>)>, Memory>
    ensures { IfOk result (λ names. has_few_others names ≡ true) }
{
    let Some(names) = on else {
        return Ok(None);
    };
    let own = names.0;
    let other = names.1;
    parents_on(alloc, own, &[other])
}

/// The name of a member's last row, or of the one so many before it.
fn name_back(node: &Node<&MacTable>, member: u32, back: u32) -> Option<Name> {
    let mut left = back;
    for place in (0..node.rows()).rev() {
        let row = node.row(place);
        if u32::from(row.creator) == member {
            if left == 0 {
                return Some(row.name);
            }
            left -= 1;
        }
    }
    None
}

/// Whether the member is one who forks by the plan.
fn is_forker(plan: &Plan, member: u32) -> bool {
    match plan.forkers {
        None => false,
        Some((one, other)) => member == one || member == other,
    }
}

/// Who made the last row.
fn last_creator(node: &Node<&MacTable>) -> u32 {
    match node.rows().checked_sub(1) {
        None => 0,
        Some(last) => u32::from(node.row(last).creator),
    }
}

/// The member so many further round the table.
fn turned(plan: &Plan, member: u32, steps: u32) -> u32
    ensures { result < plan.now.members }
{
    member.wrapping_add(steps) % plan.members
}

/// The creator: mostly the next in turn, so that rounds rise fast.
fn next_creator(dice: &mut Dice, plan: &Plan, node: &Node<&MacTable>) -> u32
    ensures { result < plan.now.members }
{
    let steps = if dice.is_one_in(4) {
        dice.below(plan.members)
    } else {
        1
    };
    turned(plan, last_creator(node), steps)
}

/// The self-parent: the creator's last row, or of one who forks now and then an earlier one. None makes a first event.
fn own_parent(dice: &mut Dice, plan: &Plan, node: &Node<&MacTable>, creator: u32) -> Option<Name> {
    let back = if is_forker(plan, creator) && dice.is_one_in(6) {
        1 + dice.below(3)
    } else {
        0
    };
    name_back(node, creator, back)
}

/// The other-parent: mostly by who made the last row, and mostly the last row of its creator.
fn other_parent(
    dice: &mut Dice,
    plan: &Plan,
    node: &Node<&MacTable>,
    creator: u32,
) -> Option<Name> {
    let last = last_creator(node);
    let other = if last == creator || dice.is_one_in(4) {
        turned(plan, creator, 1 + dice.below(plan.members - 1))
    } else {
        last
    };
    let back = if dice.is_one_in(6) { 1 } else { 0 };
    name_back(node, other, back)
}

/// One more other-parent: one of the last rows by any other member, or else the first other-parent again.
fn one_more(
    dice: &mut Dice,
    plan: &Plan,
    node: &Node<&MacTable>,
    creator: u32,
    first: Name,
) -> Name {
    let other = turned(plan, creator, 1 + dice.below(plan.members - 1));
    match name_back(node, other, dice.below(3)) {
        None => first,
        Some(name) => name,
    }
}

/// The other-parents behind the first, and how many of the four there are: one, or where the plan says so up to four, of
/// which two may be one.
fn other_parents(
    dice: &mut Dice,
    plan: &Plan,
    node: &Node<&MacTable>,
    creator: u32,
    first: Name,
) -> ([Name; 4], usize)
    ensures some { 1 ≤ result.1 }
    ensures few { result.1 ≤ most_others }
{
    if !plan.several {
        return ([first; 4], 1);
    }
    let second = one_more(dice, plan, node, creator, first);
    let third = one_more(dice, plan, node, creator, first);
    let fourth = one_more(dice, plan, node, creator, first);
    ([first, second, third, fourth], 1 + dice.below(4) as usize)
}

/// The time that the next event claims. Times repeat.
fn next_time(dice: &mut Dice, plan: &Plan, node: &Node<&MacTable>) -> u64 {
    let drawn = u64::from(dice.below(24));
    if plan.rising {
        node.rows() as u64 / 3
    } else {
        drawn
    }
}

/// The next event, if the dice give one: none where its other-parent is still to come.
pub fn next_draft(
    alloc: Global,
    dice: &mut Dice,
    plan: &Plan,
    node: &Node<&MacTable>,
) -> Result<Option<Draft>, Memory> {
    let creator = next_creator(dice, plan, node);
    let time = next_time(dice, plan, node);
    let Some(own) = own_parent(dice, plan, node, creator) else {
        return Ok(Some(Draft {
            creator: creator as Member,
            parents: None,
            time,
        }));
    };
    let Some(other) = other_parent(dice, plan, node, creator) else {
        return Ok(None);
    };
    let (others, count) = other_parents(dice, plan, node, creator, other);
    Ok(Some(Draft {
        creator: creator as Member,
        parents: parents_on(alloc, own, &others[..count])?,
        time,
    }))
}

/// The bytes of the event under its creator's signature, and its name.
pub fn signed_event(
    alloc: Global,
    keys: &MacTable,
    draft: &Draft,
) -> Result<(Vec<u8>, Name), Memory> {
    let event = signed_bytes(alloc, keys, draft.creator, &draft.parents, draft.time, &[])?;
    let name = name_of(event.bytes.as_slice());
    Ok((event.bytes, name))
}
