//! A register that four members share, by an order that none of them rules: each node has the register of its own order.
//! A write names the value that it replaces, and is skipped where another one stands then. Nodes that have ordered as
//! many events have one register (`play`), if the dishonest have less than a third of the stake and names do not collide.
//! It is the smallest whole program on the library: members, gossip, and a fold over what was ordered.
//!
//! `rt run` in its folder proves and runs it; of what it prints (`stdout`), the first line:
//!
//! ```text
//! A: value 8 after 16 events, 4 writes done, 4 skipped
//! ```
#![tactic(auto)]

ghost use Rattle.std.specs.Prelude.{◌≡◌, ◌<◌, ◌%◌, OnOk, length};
ghost use Rattle.hg_world.specs.World.{IsMemberOf};
ghost use Rattle.register.specs.Play.{after_turn, opened, payload_at, played, turn_count, turned};
ghost use Rattle.register.specs.Replicas.{AreOneRegister};

mod replica;

use crate::replica::register_at;
use hg_check::Trouble;
use hg_life::{MemberEntry, Members};
use hg_model::{Bytes, Member, Memory};
use hg_world::{World, steps_keep_sites};
use std::alloc::Global;
use std::process::ExitCode;

/// The members, each by the letter of its name.
const NAMES: &[u8; 4] = b"ABCD";

/// The writes of the first syncs: the value that each replaces, and the new one.
const WRITES: [[u8; 2]; 8] = [
    [0, 1],
    [1, 2],
    [1, 3],
    [1, 4],
    [4, 5],
    [4, 6],
    [6, 7],
    [6, 8],
];

/// So many syncs there are. The later ones write nothing: they bring the first into the order.
const SYNCS: u32 = 32;

fn entries_of(alloc: Global) -> Result<Vec<MemberEntry>, Memory> {
    let mut entries = Vec::new(alloc);
    for (number, name) in NAMES.iter().enumerate() {
        entries.push(MemberEntry {
            name: Bytes::from_vec(Vec::from_slice(alloc, &[*name])?),
            secret: Bytes::from_vec(Vec::from_slice(alloc, &[number as u8])?),
            balance: 0,
            stake: 1,
            has_node: true,
        })?;
    }
    Ok(entries)
}

fn members_of(alloc: Global) -> Result<Members, Trouble> {
    match Members::try_new(entries_of(alloc)?, 10) {
        Ok(members) => Ok(members),
        Err(_entries) => Err(Trouble::Members),
    }
}

/// The payload of the event that is made at a sync.
fn payload_at(step: u32) -> &'static [u8]
    ensures { result.now ≡ payload_at step }
{
    match WRITES.get(step as usize) {
        None => b"",
        Some(write) => write,
    }
}

/// The member of this number, where one counts round and round.
fn member_at(world: &World, number: u32) -> Member
    ensures member { IsMemberOf world.now result }
    ensures value { result ≡ number % length world.now.sites }
{
    world.is_world();
    (number % world.members()) as Member
}

/// Each member makes its first event.
fn open_each(world: &mut World) -> Result<(), Memory>
    ensures { OnOk result (world.new ≡ opened world.old (length world.old.sites)) }
{
    for number in 0..world.members() {
        let member = member_at(world, number);
        world.make(member, &[], u64::from(number), b"")?;
    }
    Ok(())
}

/// At a step a member syncs with another, and publishes what it knows then.
fn sync_at(world: &mut World, step: u32) -> Result<(), Memory>
    requires { step < turn_count }
    ensures { OnOk result (world.new ≡ after_turn world.old step) }
{
    steps_keep_sites();
    let taker = member_at(world, step);
    let peer = member_at(world, step + step / 4 % 3 + 1);
    world.sync(taker, peer, u64::from(step) + 4, payload_at(step))?;
    world.settle(taker)
}

/// All these steps.
#[tactic(auto, unfolding(crate::specs::Play::turned))]
fn sync_each(world: &mut World) -> Result<(), Memory>
    ensures { OnOk result (world.new ≡ turned world.old turn_count) }
{
    for step in 0..SYNCS {
        sync_at(world, step)?;
    }
    Ok(())
}

/// Each member makes its first event. Then they sync by turns, and publish what they know.
fn play(world: &mut World) -> Result<(), Memory>
    ensures played { OnOk result (world.new ≡ played world.old) }
    ensures safe { OnOk result (AreOneRegister world.new) }
{
    open_each(world)?;
    sync_each(world)?;
    world.is_world();
    Ok(())
}

/// The register of each node.
fn print_all<R: Print>(rt: &R, world: &World) -> Result<(), Trouble> {
    for number in 0..world.members() {
        let member = member_at(world, number);
        let register = register_at(world, member);
        let name = char::from(b'A' + (member % 26) as u8);
        let events = world.node(member).kept().len();
        let (value, done, skipped) = (register.value, register.done, register.skipped);
        println!(rt;
            "{name}: value {value} after {events} events, {done} writes done, {skipped} skipped"
        )?;
    }
    Ok(())
}

fn play_all<R: AllocGlobal + Print>(rt: &R) -> Result<(), Trouble> {
    let alloc = rt.alloc();
    let members = members_of(alloc)?;
    let mut world = World::new(alloc, &members)?;
    play(&mut world)?;
    print_all(rt, &world)
}

fn main(rt: HostRuntime) -> ExitCode {
    match play_all(&rt) {
        Ok(()) => ExitCode::SUCCESS,
        Err(_trouble) => ExitCode::FAILURE,
    }
}
