ghost use Rattle.std.specs.Prelude.{◌≡◌, IfOk};
ghost use Rattle.hg_gossip.specs.Nodes.{pulling, taking_of};

use crate::members::two_members;
use crate::playing::{bytes_of, equal, give, name_at, player_of, two_players};
use hg_gossip::{Holder, Taken, pull, sync};
use hg_life::{MakeAnswer, PutAnswer, SyncMade, SyncReport};
use hg_model::{Memory, Name};
use hg_node::Node;
use hg_sign::{MacTable, Signer};
use std::alloc::Global;
use std::process::Abort;

fn begins(rt: &impl Abort, node: &mut Node<MacTable>, place: usize) -> Result<(), Memory> {
    equal(rt, Node::make(node, &[], 1, b"")?, MakeAnswer::Made(place));
    Ok(())
}

fn pulls(
    rt: &impl Abort,
    alloc: Global,
    taker: &mut Node<MacTable>,
    peer: &mut Node<MacTable>,
    wanted: (u64, u64),
) -> Result<(), Memory> {
    let (taken, refused) = wanted;
    equal(
        rt,
        pull_alone(alloc, taker, peer)?,
        Taken { taken, refused },
    );
    Ok(())
}

fn syncs(
    rt: &impl Abort,
    alloc: Global,
    taker: &mut Node<MacTable>,
    peer: &mut Node<MacTable>,
    wanted: (u64, u64, SyncMade),
) -> Result<(), Memory> {
    let (taken, refused, made) = wanted;
    let report = SyncReport {
        taken,
        refused,
        made,
    };
    equal(rt, sync(alloc, taker, peer, 2, b"")?, report);
    Ok(())
}

/// What the clauses of a pull say of two nodes with one holder each.
fn pull_alone<V: Signer, W: Signer>(
    alloc: Global,
    taker: &mut Node<V>,
    peer: &mut Node<W>,
) -> Result<Taken, Memory>
    ensures peer { peer.new ≡ peer.old }
    ensures ok { IfOk result (λ taken. taking_of taker.new taken ≡ pulling V.accepts taker.old peer.old) }
{
    pull(alloc, taker, peer)
}

/// Both learn what the other has, and each adds an event on the other's last one. Whether B did.
fn meet<V: Signer>(
    alloc: Global,
    a: &mut Node<V>,
    b: &mut Node<V>,
    now: u64,
) -> Result<bool, Memory> {
    sync(alloc, a, b, now, b"")?;
    let report = sync(alloc, b, a, now, b"")?;
    Ok(match report.made {
        SyncMade::Row(_) => true,
        SyncMade::PeerBare | SyncMade::Fault(_) => false,
    })
}

/// A and B make an event each, and then take turns: A has A0 B0 A1, then B has B0 A0 A1 B1.
fn play(
    rt: &impl Abort,
    alloc: Global,
    a: &mut Node<MacTable>,
    b: &mut Node<MacTable>,
) -> Result<(), Memory> {
    begins(rt, a, 0)?;
    begins(rt, b, 0)?;
    syncs(rt, alloc, a, b, (1, 0, SyncMade::Row(2)))?;
    syncs(rt, alloc, b, a, (2, 0, SyncMade::Row(3)))?;
    pulls(rt, alloc, a, b, (1, 0))?;
    pulls(rt, alloc, a, b, (0, 0))?;
    equal(rt, Holder::held(a, alloc)?.len(), 4);
    equal(rt, meet(alloc, a, b, 4)?, true);
    equal(rt, b.rows(), 6);
    Ok(())
}

#[test]
fn plays_two_members(rt: HostRuntime) -> Result<(), Memory> {
    let (mut a, mut b) = two_players(&rt, rt.alloc())?;
    play(&rt, rt.alloc(), &mut a.node, &mut b.node)
}

fn syncs_with_a_bare_peer(
    rt: &impl Abort,
    alloc: Global,
    a: &mut Node<MacTable>,
    b: &mut Node<MacTable>,
) -> Result<(), Memory> {
    begins(rt, a, 0)?;
    syncs(rt, alloc, a, b, (0, 0, SyncMade::PeerBare))?;
    equal(rt, a.rows(), 1);
    pulls(rt, alloc, b, a, (1, 0))?;
    syncs(rt, alloc, a, b, (0, 0, SyncMade::PeerBare))?;
    equal(rt, a.rows(), 1);
    Ok(())
}

#[test]
fn makes_nothing_on_a_bare_peer(rt: HostRuntime) -> Result<(), Memory> {
    let (mut a, mut b) = two_players(&rt, rt.alloc())?;
    syncs_with_a_bare_peer(&rt, rt.alloc(), &mut a.node, &mut b.node)
}

/// B has an event in A's name that A did not make, and its own after it. A refuses the one each time and takes the other.
fn takes_after_an_impostor(
    rt: &impl Abort,
    alloc: Global,
    a: &mut Node<MacTable>,
    b: &mut Node<MacTable>,
    other: &mut Node<MacTable>,
) -> Result<(), Memory> {
    begins(rt, other, 0)?;
    pulls(rt, alloc, b, other, (1, 0))?;
    begins(rt, b, 1)?;
    pulls(rt, alloc, a, b, (1, 1))?;
    pulls(rt, alloc, a, b, (0, 1))?;
    equal(rt, Node::make(a, &[], 3, b"")?, MakeAnswer::Made(1));
    syncs(rt, alloc, a, b, (0, 1, SyncMade::Row(2)))?;
    Ok(())
}

#[test]
fn takes_what_follows_a_refused_row(rt: HostRuntime) -> Result<(), Memory> {
    let (mut a, mut b) = two_players(&rt, rt.alloc())?;
    let members = two_members(&rt, rt.alloc())?;
    let mut other = player_of(&rt, rt.alloc(), &members, 0)?;
    takes_after_an_impostor(&rt, rt.alloc(), &mut a.node, &mut b.node, &mut other.node)
}

/// The holder has these tips.
fn has_tips<H: Holder>(rt: &impl Abort, holder: &mut H, wanted: &[Name]) -> Result<(), Memory>
    ensures { H.lent holder.new ≡ H.lent holder.old }
{
    let names = holder.tips()?;
    equal(rt, names.as_slice(), wanted);
    Ok(())
}

/// Beyond the rows of these names it has these rows, and its last own one has this name.
fn has_beyond<H: Holder>(
    rt: &impl Abort,
    holder: &mut H,
    names: &[Name],
    rows: &[&[u8]],
    last: Name,
) -> Result<(), Memory>
    ensures { H.lent holder.new ≡ H.lent holder.old }
{
    let parcel = holder.beyond(names)?;
    equal(
        rt,
        (parcel.rows.as_slice().len(), parcel.last),
        (rows.len(), Some(last)),
    );
    for (row, bytes) in parcel.rows.as_slice().iter().zip(rows) {
        equal(rt, row.as_slice(), *bytes);
    }
    Ok(())
}

/// The holder has this one tip, and beyond the rows of these names these rows; its last own one has this name.
pub(crate) fn has_tip_and_beyond<H: Holder>(
    rt: &impl Abort,
    holder: &mut H,
    tip: Name,
    names: &[Name],
    rows: &[&[u8]],
    last: Name,
) -> Result<(), Memory>
    ensures { H.lent holder.new ≡ H.lent holder.old }
{
    has_tips(rt, holder, &[tip])?;
    has_beyond(rt, holder, names, rows, last)
}

/// A has A0 B0 A1, where A1 stands on both; B has B0 and then A0, of which neither stands on the other.
fn tells_tips(
    rt: &impl Abort,
    alloc: Global,
    a: &mut Node<MacTable>,
    b: &mut Node<MacTable>,
) -> Result<(), Memory> {
    has_tips(rt, a, &[])?;
    begins(rt, a, 0)?;
    begins(rt, b, 0)?;
    let (first, own) = (name_at(rt, a, 0), name_at(rt, b, 0));
    has_tips(rt, a, &[first])?;
    has_tips(rt, b, &[own])?;
    syncs(rt, alloc, a, b, (1, 0, SyncMade::Row(2)))?;
    give(rt, a, 0, b, PutAnswer::Accepted(1))?;
    has_tips(rt, b, &[own, first])?;
    let last = name_at(rt, a, 2);
    has_tips(rt, a, &[last])?;
    has_beyond(
        rt,
        b,
        &[last],
        &[bytes_of(rt, a, 1), bytes_of(rt, a, 0)],
        own,
    )
}

/// Beyond the tips of the other each hands over what that one lacks.
fn hands_over_beyond(
    rt: &impl Abort,
    alloc: Global,
    a: &mut Node<MacTable>,
    b: &mut Node<MacTable>,
) -> Result<(), Memory> {
    tells_tips(rt, alloc, a, b)?;
    pulls(rt, alloc, b, a, (1, 0))?;
    let (own, first, last) = (name_at(rt, a, 1), name_at(rt, a, 0), name_at(rt, a, 2));
    has_beyond(rt, a, &[first, own], &[bytes_of(rt, b, 2)], last)?;
    has_beyond(
        rt,
        a,
        &[own],
        &[bytes_of(rt, b, 1), bytes_of(rt, b, 2)],
        last,
    )?;
    has_beyond(
        rt,
        a,
        &[[0; 48]],
        &[bytes_of(rt, b, 1), bytes_of(rt, b, 0), bytes_of(rt, b, 2)],
        last,
    )?;
    has_beyond(rt, b, &[first, last], &[], own)
}

#[test]
fn hands_over_what_is_beyond_tips(rt: HostRuntime) -> Result<(), Memory> {
    let (mut a, mut b) = two_players(&rt, rt.alloc())?;
    hands_over_beyond(&rt, rt.alloc(), &mut a.node, &mut b.node)
}
