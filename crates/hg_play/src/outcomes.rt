ghost use Rattle.std.specs.Prelude.{◌≡◌, ◌<◌, ◌^◌, IfOk, OnOk, length};
ghost use Rattle.hg_life.specs.Members.{names_of};
ghost use Rattle.hg_world.specs.World.{IsMemberOf};
ghost use Rattle.hg_play.specs.Outcomes.{kept_outcome, world_outcome, with_kept};
ghost use Rattle.hg_play.specs.Sites.{AreMadeWith, IsMadeWith};

use crate::blocks::kept_block;
use hg_life::Members;
use hg_model::{Bytes, Items, Member, Memory};
use hg_node::Node;
use hg_outcome::{Outcome, Printed};
use hg_sign::Signer;
use hg_world::World;
use std::alloc::Global;

/// The members' names, in their order.
pub(crate) fn names(alloc: Global, members: &Members) -> Result<Items<Bytes>, Memory>
    ensures { IfOk result (λ names. names ≡ names_of members.now) }
{
    let mut names = Vec::new(alloc);
    for entry in members.entries() {
        names.push(Items::from_vec(Vec::from_slice(alloc, entry.name.as_slice())?))?;
    }
    Ok(Items::from_vec(names))
}

/// The block of a node, by the marks that it has published, as an outcome of its own. The node was made with these members.
pub fn block_of<V: Signer>(
    alloc: Global,
    members: &Members,
    node: &Node<V>,
) -> Result<Outcome, Memory>
    requires { IsMadeWith members.now node.now }
    ensures { IfOk result (λ outcome. outcome ≡ kept_outcome members.now node.now) }
{
    let block = kept_block(alloc, node)?;
    let mut printed = Vec::new(alloc);
    printed.push(Printed::Block(block))?;
    let names = names(alloc, members)?;
    Ok(Outcome {
        names,
        printed: Items::from_vec(printed),
    })
}

/// The block of a member's node behind others, if the member has one.
fn push_kept(
    alloc: Global,
    members: &Members,
    world: &World,
    member: usize,
    printed: &mut Vec<Printed>,
) -> Result<(), Memory>
    requires made { AreMadeWith members.now world.now }
    requires below { IsMemberOf world.now member }
    requires few { member < 2 ^ 16 }
    ensures { OnOk result (printed.new.items ≡ with_kept members.now world.now printed.old.items member) }
{
    if members.has_node(member as Member) {
        let block = kept_block(alloc, world.node(member as Member))?;
        printed.push(Printed::Block(block))?;
    }
    Ok(())
}

/// The block of each node of a world, in the order of the members, by the marks that it has published. The world was made
/// with these members.
pub fn outcome_of(alloc: Global, members: &Members, world: &World) -> Result<Outcome, Memory>
    requires made { AreMadeWith members.now world.now }
    requires count { length world.now.sites ≡ length members.now.entries }
    ensures { IfOk result (λ outcome. outcome ≡ world_outcome members.now world.now) }
{
    let mut printed = Vec::new(alloc);
    for member in 0..members.count() as usize {
        push_kept(alloc, members, world, member, &mut printed)?;
    }
    let names = names(alloc, members)?;
    Ok(Outcome {
        names,
        printed: Items::from_vec(printed),
    })
}
