ghost use Rattle.std.specs.Prelude.{◌≡◌, ◌<◌, ◌^◌, IfOk, OnOk, length};
ghost use Rattle.hg_world.specs.World.{IsMemberOf};
ghost use Rattle.hg_world.specs.Steps.{after_steps, settle_steps};
ghost use Rattle.hg_play.specs.Nodes.{IsBlockOf, IsKept, IsKeptBlock, IsShownBlock, Shows, ShowsAll, seen_alone};

use crate::game::Game;
use crate::printing::order_lines;
use crate::tape::Tape;
use hg_model::{Items, Member, Memory};
use hg_node::Node;
use hg_outcome::{Block, Printed};
use hg_sign::Signer;
use hg_world::World;
use std::alloc::Global;

/// The block of a node, by the marks that it has published.
pub(crate) fn kept_block<V: Signer>(alloc: Global, node: &Node<V>) -> Result<Block, Memory>
    ensures { IfOk result (IsBlockOf node.now) }
{
    node.is_node();
    let events = node.rows() as u64;
    let lines = order_lines(alloc, node.graph(), node.kept(), node.effects())?;
    let balances = Vec::from_slice(alloc, node.book().balances())?;
    Ok(Block {
        member: node.own(),
        events,
        forkers: node.forkers(),
        greatest: node.greatest(),
        closed: node.closed(),
        order: lines,
        balances: Items::from_vec(balances),
    })
}

/// That of a member's node in the world.
pub(crate) fn kept_at(game: &Game, world: &World, member: Member) -> Result<Block, Memory>
    requires { IsMemberOf world.now member }
    ensures { IfOk result (IsKeptBlock game.now.members.now world.now member) }
{
    let block = kept_block(game.alloc, world.node(member))?;
    Ok(block)
}

/// The block of the node of a member, which is settled for it.
pub(crate) fn settled_at(game: &Game, world: &mut World, member: Member) -> Result<Block, Memory>
    requires { IsMemberOf world.old member }
    ensures block { IfOk result (IsShownBlock game.now.members.now world.old member) }
    ensures world { OnOk result (world.new ≡ after_steps world.old (settle_steps member)) }
    ensures sites { length world.new.sites ≡ length world.old.sites }
{
    world.settle(member)?;
    let block = kept_at(game, world, member)?;
    Ok(block)
}

/// The block of a node behind what was printed, if the member has one.
fn push_block(game: &Game, world: &mut World, member: usize, tape: &mut Tape) -> Result<(), Memory>
    requires below { IsMemberOf world.old member }
    requires few { member < 2 ^ 16 }
    ensures kept { IsKept (seen_alone world.old) (seen_alone world.new) }
    ensures told { OnOk result (Shows game.now.members.now member world.old tape.old.printed world.new tape.new.printed) }
{
    if game.members.has_node(member as Member) {
        let block = settled_at(game, world, member as Member)?;
        tape.print(Printed::Block(block))?;
    }
    Ok(())
}

/// The blocks of all nodes, in the order of the members, behind what was printed.
pub(crate) fn push_blocks(game: &Game, world: &mut World, tape: &mut Tape) -> Result<(), Memory>
    requires { length world.old.sites ≡ length game.now.members.now.entries }
    ensures kept { IsKept (seen_alone world.old) (seen_alone world.new) }
    ensures told { OnOk result (ShowsAll game.now.members.now world.old tape.old.printed world.new tape.new.printed) }
{
    for member in 0..game.members.count() as usize {
        push_block(game, world, member, tape)?;
    }
    Ok(())
}
