//! A thousand storms, each held to what the test works out of it anew: what a node had when it sent, and when it rested,
//! from the times of its own rows; what came to it, from its mails.

ghost use Rattle.std.specs.Prelude.{◌<◌, length};
ghost use Rattle.hg_life.specs.NodeView.{node_rows};

use crate::pace::Pace;
use crate::storm_start::{Drawn, Start, drawn_by, start_of};
use crate::walk::Walk;
use hg_check::{Score, Trouble};
use hg_io::NoGate;
use hg_life::Entry;
use hg_model::{Member, Memory, Name, Placed};
use hg_node::Node;
use hg_sign::SharedTable;
use hg_storm::{Mail, Storm, storm};
use hg_workers::Voters;
use hg_world::World;
use std::alloc::Global;
use std::sync::Wait;
use std::thread::Threads;

/// How many storms there are.
const STORMS: u32 = 1_000;

/// What was compared, and what occurred.
#[derive(Clone, Copy)]
struct Tally {
    storms: Score,
    members: Score,
    mails: Score,
    was_full: bool,
    was_idle: bool,
    was_lone: bool,
    has_left: bool,
    has_order: bool,
}

/// What a storm tells of a member's node.
#[derive(Clone, Copy)]
struct Told {
    /// How many turns made nothing.
    idle: u32,
    /// How many changes the node had at the joins.
    ended: usize,
    /// How many rows the node refused: none, where each sender's rows came in its order.
    refused: usize,
}

/// A member's node.
fn node_of(world: &World, member: Member) -> Option<&Node<SharedTable>> {
    if u32::from(member) < world.members() {
        Some(world.node(member))
    } else {
        None
    }
}

/// What a storm tells of a member's node.
fn told_of(storm: &Storm, me: Member) -> Option<Told> {
    let idle = storm.idle.get(me as usize)?;
    let ended = storm.ended.get(me as usize)?;
    let refused = storm.refused.get(me as usize)?;
    Some(Told {
        idle: *idle,
        ended: *ended,
        refused: refused.len(),
    })
}

/// How many rows a node had after so many changes.
fn rows_after(node: &Node<SharedTable>, changes: usize) -> usize {
    let entries = node.log().iter().take(changes);
    entries
        .filter(|entry| !matches!(entry, Entry::Marked { .. }))
        .count()
}

/// How many rows a node had when it sent at this turn: up to its last own one of that time or an earlier one.
fn rows_at(node: &Node<SharedTable>, turn: u32) -> usize {
    let mut rows = 0;
    for place in 0..node.rows() {
        let row = node.row(place);
        if row.creator == node.own() && row.time <= u64::from(turn) {
            rows = place + 1;
        }
    }
    rows
}

/// Whether these are the names of the node's first rows, each once.
fn are_first(node: &Node<SharedTable>, names: &[Name]) -> bool {
    for (place, name) in names.iter().enumerate() {
        if node.place_of(name) != Some(place) {
            return false;
        }
    }
    true
}

/// Whether each of these is the name of one of the node's first rows, of so many.
fn are_among(node: &Node<SharedTable>, rows: usize, names: &[Name]) -> bool {
    for name in names {
        match node.place_of(name) {
            Some(place) if place < rows => {}
            _ => return false,
        }
    }
    true
}

/// Whether the names that were taken, and then those that were left, are those that were sent.
fn are_parts(sent: &[Name], taken: &[Name], left: &[Name]) -> bool {
    sent.starts_with(taken)
        && sent.ends_with(left)
        && sent.len().checked_sub(taken.len()) == Some(left.len())
}

/// Whether what a member sent another, whom it drew so, is what it must be.
fn is_mail_right(storm: &Storm, mail: &Mail, drawn: Drawn) -> bool {
    let (Some(node), Some(taker), Some(told)) = (
        node_of(&storm.world, mail.from),
        node_of(&storm.world, mail.to),
        told_of(storm, mail.to),
    ) else {
        return false;
    };
    let (sent, taken) = (mail.sent.as_slice(), mail.taken.as_slice());
    mail.due == rows_at(node, drawn.last)
        && mail.full <= drawn.times
        && sent.len() <= mail.due
        && (mail.full > 0 || sent.len() == mail.due)
        && are_first(node, sent)
        && are_parts(sent, taken, mail.left.as_slice())
        && are_among(taker, rows_after(taker, told.ended), taken)
}

/// Which of its rows a node took out of its mailbox.
fn came_to(alloc: Global, storm: &Storm, node: &Node<SharedTable>) -> Result<Vec<bool>, Memory> {
    let mut came = Vec::from_elem(alloc, false, node.rows())?;
    for mail in storm.mail.as_slice() {
        if mail.to == node.own() {
            for name in mail.taken.as_slice() {
                if let Some(place) = node.place_of(name)
                    && let Some(row) = came.get_mut(place)
                {
                    *row = true;
                }
            }
        }
    }
    Ok(came)
}

/// Whether a node that took so many turns had, at the joins, the rows that these make, and those that came to it, and no
/// others; and has made none since.
fn has_turned(node: &Node<SharedTable>, came: &[bool], turns: u32, told: Told) -> bool {
    let me = node.own();
    let rows = rows_after(node, told.ended);
    let mut walk = Walk::new();
    let mut right = told.refused == 0 && told.ended <= node.changes();
    for place in 0..node.rows() {
        let row = node.row(place);
        if place < rows {
            right = walk.pass(row, me, came.get(place) == Some(&true)) && right;
        } else {
            right = row.creator != me && right;
        }
    }
    right && walk.is_whole(turns, told.idle)
}

/// Whether as many messages were put into a member's mailbox as it has room for, if it was full.
fn is_room_right(storm: &Storm, room: usize, to: Member) -> bool {
    let mut sent = 0_usize;
    let mut was_full = false;
    for mail in storm.mail.as_slice() {
        if mail.to == to {
            sent = sent.saturating_add(mail.sent.len());
            was_full = was_full || mail.full > 0;
        }
    }
    !was_full || sent >= room
}

/// Whether what a member's node came to is what it must be. Without a node it has nothing.
fn is_member_right(
    alloc: Global,
    start: &Start,
    storm: &Storm,
    me: Member,
) -> Result<bool, Memory> {
    let (Some(node), Some(told)) = (node_of(&storm.world, me), told_of(storm, me)) else {
        return Ok(false);
    };
    let turns = if start.members.has_node(me) {
        start.turns
    } else {
        0
    };
    let came = came_to(alloc, storm, node)?;
    Ok(has_turned(node, came.as_slice(), turns, told) && is_room_right(storm, start.room, me))
}

/// Whether two nodes have ordered the same event, by the same round and at the same time.
fn is_same(one: &Node<SharedTable>, a: &Placed, other: &Node<SharedTable>, b: &Placed) -> bool
    requires a { a.now.place < length (node_rows one.now) }
    requires b { b.now.place < length (node_rows other.now) }
{
    one.row(a.place).name == other.row(b.place).name && a.received == b.received && a.time == b.time
}

/// Whether two nodes have the same order.
fn are_ordered_alike(one: &Node<SharedTable>, other: &Node<SharedTable>) -> bool {
    let (a, b) = (one.kept(), other.kept());
    if a.len() != b.len() {
        return false;
    }
    for x in 0..a.len() {
        if !is_same(one, &a[x], other, &b[x]) {
            return false;
        }
    }
    true
}

/// Whether the one has each row of the other.
fn has_rows_of(one: &Node<SharedTable>, other: &Node<SharedTable>) -> bool {
    for place in 0..other.rows() {
        if one.place_of(&other.row(place).name).is_none() {
            return false;
        }
    }
    true
}

/// Whether two members' nodes have the same rows and the same order.
fn are_alike(world: &World, one: Member, other: Member) -> bool {
    match (node_of(world, one), node_of(world, other)) {
        (Some(one), Some(other)) => {
            has_rows_of(one, other) && has_rows_of(other, one) && are_ordered_alike(one, other)
        }
        _ => false,
    }
}

/// Whether all nodes have the same rows and the same order in the end.
fn end_alike(start: &Start, storm: &Storm) -> bool {
    let Some(first) = start.circle.first() else {
        return true;
    };
    for member in start.circle.as_slice() {
        if !are_alike(&storm.world, *first, *member) {
            return false;
        }
    }
    true
}

impl Tally {
    /// Nothing compared.
    fn new() -> Tally {
        Tally {
            storms: Score::new(),
            members: Score::new(),
            mails: Score::new(),
            was_full: false,
            was_idle: false,
            was_lone: false,
            has_left: false,
            has_order: false,
        }
    }

    /// Compares what each member's node came to.
    fn compare_members(
        &mut self,
        alloc: Global,
        start: &Start,
        storm: &Storm,
    ) -> Result<(), Memory> {
        for member in 0..start.members.count() {
            let me = member as Member;
            let right = is_member_right(alloc, start, storm, me)?;
            self.members = self.members.with(right);
            if let Some(told) = told_of(storm, me) {
                self.was_idle = self.was_idle || told.idle > 0;
            }
            if let Some(node) = node_of(&storm.world, me) {
                self.has_order = self.has_order || !node.kept().is_empty();
            }
        }
        Ok(())
    }

    /// Compares what each member sent each other one. Whether there is one mail of each two, in each direction, in order.
    fn compare_mails(
        &mut self,
        alloc: Global,
        start: &Start,
        storm: &Storm,
    ) -> Result<bool, Memory> {
        let mut mails = storm.mail.iter();
        for (place, from) in start.circle.iter().enumerate() {
            let drawn = drawn_by(alloc, start, place, *from)?;
            for (to, drawn) in start.circle.iter().zip(drawn.as_slice()) {
                if to == from {
                    continue;
                }
                let Some(mail) = mails.next() else {
                    return Ok(false);
                };
                let right = mail.from == *from && mail.to == *to;
                self.mails = self.mails.with(right && is_mail_right(storm, mail, *drawn));
                self.was_full = self.was_full || mail.full > 0;
                self.has_left = self.has_left || !mail.left.is_empty();
            }
        }
        Ok(mails.next().is_none())
    }

    /// Runs the storm of this number, and compares what it came to.
    fn run<R: Threads + Wait + Sync>(
        &mut self,
        rt: &R,
        alloc: Global,
        number: u32,
    ) -> Result<(), Trouble> {
        let start = start_of(alloc, number)?;
        let voters = Voters::new(&NoGate);
        let pace = Pace::new(start.paced);
        let (turns, room, seed) = (start.turns, start.room, start.seed);
        let storm = storm(rt, alloc, &start.members, turns, room, seed, &voters, &pace)?;
        self.compare_members(alloc, &start, &storm)?;
        let has_all = self.compare_mails(alloc, &start, &storm)?;
        self.storms = self.storms.with(has_all && end_alike(&start, &storm));
        self.was_lone = self.was_lone || start.circle.len() == 1;
        Ok(())
    }
}

fn some_if(has: bool) -> &'static str {
    if has { "some" } else { "no" }
}

/// Runs all storms, and tells how many storms, members and mails there are, how many of each differ, and what occurred. The
/// score is of these three.
pub fn run_storms<R: AllocGlobal + Print + Threads + Wait + Sync>(
    rt: &R,
) -> Result<Score, Trouble> {
    let mut tally = Tally::new();
    for number in 0..STORMS {
        tally.run(rt, rt.alloc(), number)?;
    }
    tally.storms.print(rt, "storms")?;
    tally.members.print(rt, "members in storms")?;
    tally.mails.print(rt, "mails in storms")?;
    let (full, idle) = (some_if(tally.was_full), some_if(tally.was_idle));
    let (lone, left) = (some_if(tally.was_lone), some_if(tally.has_left));
    let orders = some_if(tally.has_order);
    println!(rt;
        "{full} full mailboxes, {idle} idle turns, {lone} lone nodes, {left} rows left, {orders} orders"
    )?;
    Ok(
        Score::new()
            .with(tally.storms.differ == 0)
            .with(tally.members.differ == 0)
            .with(tally.mails.differ == 0),
    )
}
