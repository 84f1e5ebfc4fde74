ghost use Rattle.std.specs.Prelude.{◌≡◌, ◌<◌, IfOk, length, map};
ghost use Rattle.hg_storm.specs.Storm.{IsStorm};

use crate::gathering::gather;
use crate::mails::mails_of;
use crate::outcome::Storm;
use crate::plan::{Plan, circle_of};
use crate::refusals::{idle_of, refused_of};
use crate::threads::{Joined, run_threads};
use hg_board::Crew;
use hg_io::Gate;
use hg_life::Members;
use hg_model::Memory;
use hg_node::Node;
use hg_sign::SharedTable;
use hg_world::World;
use std::alloc::Global;
use std::sync::Wait;
use std::thread::Threads;

/// How many changes each node has.
fn lengths(alloc: Global, nodes: &[Node<SharedTable>]) -> Result<Vec<usize>, Memory>
    ensures { IfOk result (λ lengths. lengths.items ≡ map (λ v. length v.history) nodes.now) }
{
    let mut lengths = Vec::new(alloc);
    for node in nodes {
        lengths.push(node.changes())?;
    }
    Ok(lengths)
}

/// Each member that has a node takes so many turns in a thread of its own, with a crew beside them and mailboxes of so much
/// room. Then the first of their nodes pulls from each other one, each other one pulls from it, and all settle.
pub fn storm<C: Crew + Sync, G: Gate + Sync, R: Threads + Wait + Sync>(
    rt: &R,
    alloc: Global,
    members: &Members,
    turns: u32,
    room: usize,
    seed: u64,
    crew: &C,
    gate: &G,
) -> Result<Storm, Memory>
    requires { 0 < room }
    ensures { IfOk result (IsStorm members.now turns room seed) }
{
    let plan = Plan {
        circle: circle_of(alloc, members)?,
        turns,
        seed,
    };
    members.is_lawful();
    let begun = World::new(alloc, members)?;
    let first = begun.into_nodes();
    let joined = run_threads(rt, alloc, first, &plan, room, crew, gate)?;
    let mail = mails_of(alloc, &joined, plan.circle.as_slice())?;
    let Joined {
        nodes,
        logs,
        left: _,
        ports,
    } = joined;
    let refused = refused_of(alloc, nodes.as_slice(), logs.as_slice())?;
    let idle = idle_of(alloc, logs.as_slice())?;
    let ended = lengths(alloc, nodes.as_slice())?;
    let Ok(mut world) = World::from_nodes(alloc, nodes) else {
        return Err(Memory);
    };
    gather(&mut world, plan.circle.as_slice())?;
    world.is_world();
    Ok(Storm {
        world,
        mail,
        ports,
        idle,
        refused,
        ended,
    })
}
