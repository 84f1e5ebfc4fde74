ghost use Rattle.std.specs.Prelude.{◌≡◌, ◌<◌, ◌≤◌, [], All, IfOk, length};
ghost use Rattle.hg_life.specs.Signing.{accepts_by};
ghost use Rattle.hg_storm.specs.Drawing.{IsCircle};
ghost use Rattle.hg_storm.specs.Joins.{AreTold, HasSession, HaveCollected};

use crate::closing::{absorb_all, empty_all};
use crate::desk::Log;
use crate::joining::{all_of, take_all_turns};
use crate::opening::{jobs_of, open_all};
use crate::plan::Plan;
use hg_board::Crew;
use hg_crowd::{finish_all, start_all};
use hg_io::Gate;
use hg_mail::{Message, Port};
use hg_model::Memory;
use hg_node::Node;
use hg_sign::SharedTable;
use std::alloc::Global;
use std::sync::Wait;
use std::thread::Threads;

/// The nodes of the members after their turns, what each member did, and its mailbox: what that had left, and what it counted.
#[derive(Drop)]
pub struct Joined {
    pub nodes: Vec<Node<SharedTable>>,
    pub logs: Vec<Log>,
    pub left: Vec<Vec<Message>>,
    /// The first port of each mailbox, which took all others back.
    pub ports: Vec<Port>,
}

/// Each member that has a node takes its turns in a thread of its own, with a crew beside them; all threads are joined.
pub fn run_threads<C: Crew + Sync, G: Gate + Sync, R: Threads + Wait + Sync>(
    rt: &R,
    alloc: Global,
    nodes: Vec<Node<SharedTable>>,
    plan: &Plan,
    room: usize,
    crew: &C,
    gate: &G,
) -> Result<Joined, Memory>
    requires room { 0 < room }
    requires few { length nodes.items ≤ 128 }
    requires new { All (λ v. v.history ≡ []) nodes.items }
    requires limits { All (λ v. 0 < v.start.limit) nodes.items }
    requires circle { IsCircle (length nodes.items) plan.now }
    ensures session { IfOk result (λ r. HasSession nodes.items r.nodes.items) }
    ensures told { IfOk result (λ r. AreTold plan.now room r.nodes.items r.logs.items r.left.items) }
    // Each member collected in each of its turns, as the port of its mailbox has counted.
    ensures collected { IfOk result (λ r. HaveCollected plan.now room r.nodes.items r.logs.items r.left.items r.ports.items) }
{
    let (mailboxes, mut masters) = open_all(alloc, nodes.len(), room)?;
    let (shared, seats) = start_all(alloc, nodes)?;
    let boxes = mailboxes.as_slice();
    let places = shared.as_slice();
    let jobs = jobs_of(alloc, boxes, &mut masters, places, seats, plan.seed)?;
    let ended = take_all_turns(rt, alloc, boxes, places, jobs, plan, crew, gate)?;
    let jobs = all_of(alloc, ended)?;
    let (seats, logs) = absorb_all(alloc, boxes, &mut masters, places, jobs)?;
    let left = empty_all(rt, alloc, boxes, &mut masters)?;
    let nodes = finish_all(rt, alloc, shared, seats)?;
    Ok(Joined {
        nodes,
        logs,
        left,
        ports: masters,
    })
}
