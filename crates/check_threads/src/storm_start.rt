//! What each of many storms begins with, and whom its members draw.

ghost use Rattle.std.specs.Prelude.{◌<◌};

use crate::players::entry;
use hg_check::{Dice, Trouble};
use hg_life::{MemberEntry, Members};
use hg_model::{Member, Memory};
use std::alloc::Global;

/// The members' names, which are their secrets too.
const NAMES: &[u8; 16] = b"ABCDEFGHIJKLMNOP";

/// What a storm begins with.
#[derive(Drop)]
pub struct Start {
    pub members: Members,
    /// The members that have nodes, in order.
    pub circle: Vec<Member>,
    pub turns: u32,
    pub room: usize,
    pub seed: u64,
    /// How many members wait for each other at the end of each of their first turns: those that have nodes, or none.
    pub paced: u64,
    pub ghost some: { 0 < room },
}

/// How often a member drew another, and at which turn last, the first being 1.
#[derive(Clone, Copy)]
pub struct Drawn {
    pub times: u64,
    pub last: u32,
}

/// So many members, of whom one in six has no node.
fn entries_of(alloc: Global, dice: &mut Dice, count: usize) -> Result<Vec<MemberEntry>, Memory> {
    let mut entries = Vec::new(alloc);
    for name in NAMES.iter().take(count) {
        let has_node = !dice.is_one_in(6);
        entries.push(entry(alloc, *name, *name, 0, has_node)?)?;
    }
    Ok(entries)
}

/// The members that have nodes, in order.
fn circle_in(alloc: Global, members: &Members) -> Result<Vec<Member>, Memory> {
    let mut circle = Vec::new(alloc);
    for member in 0..16 {
        if members.has_node(member) {
            circle.push(member)?;
        }
    }
    Ok(circle)
}

/// How many turns each of so many members takes: 0 to 200, and mostly few where they are many.
fn turns_for(dice: &mut Dice, count: u32) -> u32 {
    if count < 5 || dice.is_one_in(50) {
        dice.below(201)
    } else if count < 9 {
        dice.below(21)
    } else {
        dice.below(6)
    }
}

/// Room for 1 to 1,024 messages, and in every second storm for few.
fn room_for(dice: &mut Dice) -> usize
    ensures { 0 < result }
{
    let more = if dice.is_one_in(2) {
        dice.below(8)
    } else {
        dice.below(1_024)
    };
    1 + more as usize
}

/// A seed, in every fourth storm so near the greatest that a member's number may lead past it.
fn seed_for(dice: &mut Dice) -> u64 {
    if dice.is_one_in(4) {
        u64::MAX - u64::from(dice.below(16))
    } else {
        u64::from(dice.below(u32::MAX)).wrapping_mul(0x9e37_79b9_7f4a_7c15)
    }
}

/// What the storm of this number begins with, among 2 to 16 members.
pub fn start_of(alloc: Global, number: u32) -> Result<Start, Trouble> {
    let mut dice = Dice::new(number);
    let count = 2 + dice.below(15);
    let entries = entries_of(alloc, &mut dice, count as usize)?;
    let Ok(members) = Members::try_new(entries, 10) else {
        return Err(Trouble::Members);
    };
    let circle = circle_in(alloc, &members)?;
    let paced = if count < 5 && dice.is_one_in(16) {
        circle.len() as u64
    } else {
        0
    };
    Ok(Start {
        members,
        circle,
        turns: turns_for(&mut dice, count),
        room: room_for(&mut dice),
        seed: seed_for(&mut dice),
        paced,
    })
}

/// Whom a member draws in its turns: for each that has a node, by their places. Each turn draws one other than itself.
pub fn drawn_by(
    alloc: Global,
    start: &Start,
    place: usize,
    me: Member,
) -> Result<Vec<Drawn>, Memory> {
    let mut drawn = Vec::from_elem(alloc, Drawn { times: 0, last: 0 }, start.circle.len())?;
    let others = (start.circle.len() as u64).saturating_sub(1);
    if others == 0 {
        return Ok(drawn);
    }
    let mut state = start.seed.wrapping_add(u64::from(me));
    for turn in 1..=start.turns {
        state = state
            .wrapping_mul(6_364_136_223_846_793_005)
            .wrapping_add(1_442_695_040_888_963_407);
        let b = ((state >> 32) % others) as usize;
        let peer = if b < place { b } else { b.saturating_add(1) };
        if let Some(one) = drawn.get_mut(peer) {
            one.times = one.times.saturating_add(1);
            one.last = turn;
        }
    }
    Ok(drawn)
}
