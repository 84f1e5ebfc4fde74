//! Shares nodes between threads: once by hand, once so that two branches have to meet, once in a storm in which two members'
//! first turns have to meet, and in 300 plays, in which one branch of a `join` puts and makes events through its seat, while
//! a worker votes in the other. Each play is compared with a node that was alone; two shared nodes sync through their
//! seats. It tells how many differ from what they must be.
//!
//! Then it runs a thousand storms of 2 to 16 members, some without a node, and holds what each tells to what it works out
//! itself: whom each member drew, from the seed; what its node had when it sent, and when it rested, from the times of its
//! own rows; what came to it, from the mails; and in the end all nodes have the same rows and the same order. It tells how
//! many storms, members and mails differ from that, and what there was among them.
//!
//! `rt run` in its folder proves and runs it; it prints (`stdout`):
//!
//! ```text
//! 305 shared nodes, 0 differ
//! 1000 storms, 0 differ
//! 9049 members in storms, 0 differ
//! 63322 mails in storms, 0 differ
//! some full mailboxes, some idle turns, some lone nodes, some rows left, some orders
//! ```
#![tactic(auto)]

mod beside;
mod by_hand;
mod many_storms;
mod meeting;
mod pace;
mod players;
mod seated;
mod storm_start;
mod storms;
mod walk;

use crate::beside::{TURNS, shared_beside};
use crate::by_hand::is_as_by_hand;
use crate::many_storms::run_storms;
use crate::meeting::Meeting;
use crate::players::{Player, are_same, made_alone, node_of, played_alone, two_members};
use crate::seated::{sync_alone, sync_by_seats};
use crate::storms::first_turns_meet;
use hg_check::{Score, Trouble, exit};
use hg_io::{Gate, NoGate};
use hg_life::Members;
use std::alloc::Global;
use std::process::ExitCode;
use std::sync::Wait;
use std::thread::Threads;

/// How many nodes are shared in plays.
const PLAYS: u64 = 300;

/// Whether a node that is shared by hand does what one does that is alone.
fn plays_by_hand<R: Wait>(rt: &R, alloc: Global, members: &Members) -> Result<bool, Trouble> {
    let alone = made_alone(alloc, members)?;
    let node = node_of(alloc, members, 0)?;
    Ok(is_as_by_hand(rt, alloc, node, &alone.node)?)
}

/// Whether a node that is shared ends as the one that was alone, and has ordered so many events at least.
fn ends_as_alone<R: Threads + Wait + Sync, G: Gate + Sync>(
    rt: &R,
    alloc: Global,
    members: &Members,
    alone: Result<Player, Trouble>,
    least: usize,
    gate: &G,
) -> Result<bool, Trouble> {
    let mut alone = alone?;
    let node = node_of(alloc, members, 0)?;
    let mut shared = shared_beside(rt, alloc, node, &alone.node, gate)?;
    let same = are_same(&mut alone.node, &mut shared.node)?;
    Ok(same && shared.node.kept().len() >= least)
}

/// Whether the two branches meet, and the worker has its turns.
fn meets<R: Threads + Wait + Sync>(
    rt: &R,
    alloc: Global,
    members: &Members,
) -> Result<bool, Trouble> {
    let meeting = Meeting::new();
    let alone = made_alone(alloc, members);
    let same = ends_as_alone(rt, alloc, members, alone, 0, &meeting)?;
    Ok(same && !meeting.is_late() && meeting.has_turns(TURNS))
}

/// Shares all nodes, and tells how many there are, and how many differ from what they must be.
fn share_all<R: Threads + Wait + Sync>(rt: &R, alloc: Global) -> Result<Score, Trouble> {
    let members = two_members(alloc)?;
    let mut nodes = Score::new()
        .with(plays_by_hand(rt, alloc, &members)?)
        .with(meets(rt, alloc, &members)?)
        .with(sync_by_seats(rt, alloc, &members)?)
        .with(sync_alone(alloc, &members)?)
        .with(first_turns_meet(rt, alloc, &members)?);
    for first in 0..PLAYS {
        let alone = played_alone(alloc, &members, first);
        nodes = nodes.with(ends_as_alone(rt, alloc, &members, alone, 1, &NoGate)?);
    }
    Ok(nodes)
}

/// The same, with its line, and then all storms, of which each part counts as one that differs if something in it does.
fn tell_all<R: AllocGlobal + Print + Threads + Wait + Sync>(rt: &R) -> Result<Score, Trouble> {
    let nodes = share_all(rt, rt.alloc())?;
    nodes.print(rt, "shared nodes")?;
    let storms = run_storms(rt)?;
    Ok(storms.with(nodes.differ == 0))
}

fn main(rt: HostRuntime) -> ExitCode {
    exit(tell_all(&rt))
}
