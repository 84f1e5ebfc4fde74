ghost use Rattle.std.specs.Prelude.{◌≡◌};
ghost use Rattle.hg_model.specs.GraphWords.{IsLawfulGraph};
ghost use Rattle.hg_graph.specs.Held.{first_graph};
ghost use Rattle.hg_node.specs.ChronicleView.{graph_in};
ghost use Rattle.hg_votes.specs.Counting.{CarriesTo, Counting, IsMadeFor};

use crate::members::{entry, members_of};
use crate::playing::{Player, begin, equal, give, placed, player_of, sync, two_players};
use hg_fame::elect_share;
use hg_graph::FrozenGraph;
use hg_kept::Kept;
use hg_life::{Members, PutAnswer};
use hg_model::{Memory, Placed, Share};
use hg_node::{Node, tables_last};
use hg_sign::MacTable;
use hg_votes::VoteTable;
use std::alloc::Global;
use std::process::Abort;

/// Of the members A, B, C and D so many.
pub(crate) fn first_members(
    rt: &impl Abort,
    alloc: Global,
    count: usize,
) -> Result<Members, Memory> {
    let mut entries = Vec::new(alloc);
    entries.push(entry(alloc, b"A", 1, 0, true)?)?;
    entries.push(entry(alloc, b"B", 2, 0, true)?)?;
    entries.push(entry(alloc, b"C", 3, 0, true)?)?;
    entries.push(entry(alloc, b"D", 4, 0, true)?)?;
    entries.truncate(count);
    Ok(members_of(rt, entries))
}

/// Publishes what the node's graph, frozen as it is, has found; tells how many were marked.
fn publish_all(alloc: Global, node: &mut Node<MacTable>) -> Result<u32, Memory> {
    node.is_node();
    let rows = node.rows();
    let frozen = node.freeze()?;
    let mut votes = VoteTable::new(alloc, &frozen)?;
    let found = elect_share(alloc, &frozen, &mut votes, Share::new(0, 1))?;
    Ok(if found.len == rows {
        node.publish(&found)
    } else {
        0
    })
}

/// A node finds and publishes all fame: so many marks are new, and what it has ordered then.
fn publish(
    rt: &impl Abort,
    alloc: Global,
    node: &mut Node<MacTable>,
    marked: u32,
    order: &[Placed],
) -> Result<(), Memory> {
    equal(rt, publish_all(alloc, node)?, marked);
    equal(rt, node.kept(), order);
    Ok(())
}

/// What the first two rounds of two members receive.
fn two_order() -> [Placed; 4] {
    [placed(1, 1), placed(0, 2), placed(2, 3), placed(3, 4)]
}

/// Round 1 of two members closes with six rows, which decide two witnesses, and round 2 with eight.
fn play_two(
    rt: &impl Abort,
    alloc: Global,
    a: &mut Node<MacTable>,
    b: &mut Node<MacTable>,
) -> Result<(), Memory> {
    begin(a, 1, b"")?;
    begin(b, 2, b"")?;
    for (to_a, to_b) in [(3, 4), (5, 6)] {
        sync(a, b, to_a, b"")?;
        sync(b, a, to_b, b"")?;
    }
    publish(rt, alloc, b, 2, &[])?;
    equal(rt, b.closed(), 1);
    sync(a, b, 7, b"")?;
    sync(b, a, 8, b"")?;
    publish(rt, alloc, b, 2, &two_order())?;
    equal(rt, b.closed(), 2);
    Ok(())
}

/// All that a graph decides, published behind it at once: so many marks, and this order.
fn publish_behind(
    rt: &impl Abort,
    alloc: Global,
    frozen: &FrozenGraph,
    marked: u32,
    order: &[Placed],
) -> Result<(), Memory>
    requires { IsLawfulGraph frozen.now.graph }
{
    let mut votes = VoteTable::new(alloc, frozen)?;
    let found = elect_share(alloc, frozen, &mut votes, Share::new(0, 1))?;
    let mut kept = Kept::behind(alloc, frozen)?;
    equal(rt, kept.order(), &[]);
    equal(rt, kept.publish(frozen, &found), marked);
    equal(rt, kept.order(), order);
    Ok(())
}

fn publish_frozen(
    rt: &impl Abort,
    alloc: Global,
    node: &Node<MacTable>,
    marked: u32,
    order: &[Placed],
) -> Result<(), Memory> {
    node.is_node();
    let frozen = node.freeze()?;
    publish_behind(rt, alloc, &frozen, marked, order)
}

/// The first six rows decide two witnesses, and all eight by the same votes four.
fn carry_votes(
    rt: &impl Abort,
    alloc: Global,
    six: &FrozenGraph,
    all: &FrozenGraph,
    votes: &mut VoteTable,
) -> Result<(), Memory>
    requires made { IsMadeFor votes.old six.now.graph }
    requires later { (table : Counting) → IsMadeFor table six.now.graph → CarriesTo table all.now.graph }
{
    let share = Share::new(0, 1);
    let early = elect_share(alloc, six, votes, share)?;
    equal(rt, early.marks.as_slice(), &[(0, true), (1, true)]);
    votes.carry(alloc, all)?;
    let found = elect_share(alloc, all, votes, share)?;
    let four = [(0, true), (1, true), (3, true), (4, true)];
    equal(rt, found.marks.as_slice(), &four);
    Ok(())
}

fn carry_to(
    rt: &impl Abort,
    alloc: Global,
    six: &FrozenGraph,
    all: &FrozenGraph,
) -> Result<(), Memory>
    requires { (table : Counting) → IsMadeFor table six.now.graph → CarriesTo table all.now.graph }
{
    let mut votes = VoteTable::new(alloc, six)?;
    carry_votes(rt, alloc, six, all, &mut votes)
}

/// With the first six of the node's eight rows.
fn carry_from(
    rt: &impl Abort,
    alloc: Global,
    node: &Node<MacTable>,
    six: &FrozenGraph,
) -> Result<(), Memory>
    requires { six.now.graph ≡ first_graph (graph_in node.now) 6 }
{
    tables_last();
    let all = node.freeze()?;
    carry_to(rt, alloc, six, &all)
}

fn carry(rt: &impl Abort, alloc: Global, node: &Node<MacTable>) -> Result<(), Memory> {
    assert!(rt; node.rows() == 8);
    let six = node.prefix(6)?;
    carry_from(rt, alloc, node, &six)
}

#[test]
fn publishes_what_is_decided(rt: HostRuntime) -> Result<(), Memory> {
    let (mut a, mut b) = two_players(&rt, rt.alloc())?;
    play_two(&rt, rt.alloc(), &mut a.node, &mut b.node)?;
    publish_frozen(&rt, rt.alloc(), &b.node, 4, &two_order())?;
    carry(&rt, rt.alloc(), &b.node)
}

/// Three members make their first events, and sync in a ring, four times each.
fn play_ring(
    a: &mut Node<MacTable>,
    b: &mut Node<MacTable>,
    c: &mut Node<MacTable>,
) -> Result<(), Memory> {
    begin(a, 1, b"")?;
    begin(b, 52, b"")?;
    begin(c, 65, b"")?;
    for (to_b, to_c, to_a) in [(55, 50, 60), (70, 80, 90), (100, 110, 120), (130, 140, 150)] {
        sync(b, a, to_b, b"")?;
        sync(c, b, to_c, b"")?;
        sync(a, c, to_a, b"")?;
    }
    Ok(())
}

/// What the first two rounds of the ring receive, by the places of the first member's graph.
fn ring_order() -> [Placed; 7] {
    [
        placed(0, 50),
        placed(2, 52),
        placed(3, 55),
        placed(4, 60),
        placed(1, 65),
        placed(5, 70),
        placed(6, 80),
    ]
}

/// The fourth member's first event comes when the ring's first rounds are closed.
fn come_late(
    rt: &impl Abort,
    alloc: Global,
    a: &mut Node<MacTable>,
    d: &mut Node<MacTable>,
) -> Result<(), Memory> {
    equal(rt, a.rows(), 15);
    publish(rt, alloc, a, 6, &ring_order())?;
    begin(d, 160, b"")?;
    give(rt, d, 0, a, PutAnswer::Accepted(15))?;
    equal(rt, a.kept(), ring_order().as_slice());
    assert!(rt; a.rows() == 16 && a.fame(15) == Some(false));
    Ok(())
}

fn four_players(
    rt: &impl Abort,
    alloc: Global,
) -> Result<(Player, Player, Player, Player), Memory> {
    let members = first_members(rt, alloc, 4)?;
    let a = player_of(rt, alloc, &members, 0)?;
    let b = player_of(rt, alloc, &members, 1)?;
    let c = player_of(rt, alloc, &members, 2)?;
    let d = player_of(rt, alloc, &members, 3)?;
    Ok((a, b, c, d))
}

#[test]
fn a_late_witness_changes_no_order(rt: HostRuntime) -> Result<(), Memory> {
    let (mut a, mut b, mut c, mut d) = four_players(&rt, rt.alloc())?;
    play_ring(&mut a.node, &mut b.node, &mut c.node)?;
    come_late(&rt, rt.alloc(), &mut a.node, &mut d.node)
}

fn three_players(rt: &impl Abort, alloc: Global) -> Result<(Player, Player, Player), Memory> {
    let members = first_members(rt, alloc, 3)?;
    let a = player_of(rt, alloc, &members, 0)?;
    let b = player_of(rt, alloc, &members, 1)?;
    let c = player_of(rt, alloc, &members, 2)?;
    Ok((a, b, c))
}

// With no fourth member more than two thirds are the same three. Each member has one line of events, so that the graph
// counts its rows by member.
#[test]
fn a_ring_of_all_members_has_the_same_order(rt: HostRuntime) -> Result<(), Memory> {
    let (mut a, mut b, mut c) = three_players(&rt, rt.alloc())?;
    play_ring(&mut a.node, &mut b.node, &mut c.node)?;
    publish(&rt, rt.alloc(), &mut a.node, 6, &ring_order())
}
