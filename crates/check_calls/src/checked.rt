//! Events that are checked outside of nodes.

ghost use Rattle.std.specs.Prelude.{◌≡◌};
ghost use Rattle.hg_life.specs.NodeView.{start_of};

use crate::damaged::{altered, shortest_event};
use crate::members::two_members;
use crate::playing::{bytes_of, equal, give, make, name_at, player_of, two_players};
use hg_life::{ByteFault, Fault, MakeAnswer, Members, PutAnswer};
use hg_model::Memory;
use hg_node::{Node, checked};
use hg_sign::MacTable;
use std::alloc::Global;
use std::process::Abort;

/// Puts to B the event that was checked, if it is one to put.
fn put_checked(
    alloc: Global,
    members: &Members,
    keys: &MacTable,
    b: &mut Node<MacTable>,
    bytes: &[u8],
) -> Result<PutAnswer, Memory>
    requires { b.old.start ≡ start_of members.now 1 keys.now }
    ensures { b.new.start ≡ start_of members.now 1 keys.now }
{
    match checked(alloc, keys, members, bytes)? {
        Ok(event) => b.put_event(&event),
        Err(answer) => Ok(answer),
    }
}

/// The bytes are put to B, and what is checked of them to its twin: both are to answer so.
fn give_both(
    rt: &impl Abort,
    alloc: Global,
    members: &Members,
    keys: &MacTable,
    b: &mut Node<MacTable>,
    twin: &mut Node<MacTable>,
    bytes: &[u8],
    answer: PutAnswer,
) -> Result<(), Memory>
    requires { twin.old.start ≡ start_of members.now 1 keys.now }
    ensures { twin.new.start ≡ start_of members.now 1 keys.now }
{
    equal(rt, b.put(bytes)?, answer);
    equal(rt, put_checked(alloc, members, keys, twin, bytes)?, answer);
    Ok(())
}

/// Each makes its first event, and A one more on B's: A has A0 B0 A1.
pub(crate) fn play(
    rt: &impl Abort,
    a: &mut Node<MacTable>,
    b: &mut Node<MacTable>,
) -> Result<(), Memory> {
    make(rt, a, None, 1, MakeAnswer::Made(0))?;
    make(rt, b, None, 1, MakeAnswer::Made(0))?;
    give(rt, b, 0, a, PutAnswer::Accepted(1))?;
    make(rt, a, Some(name_at(rt, b, 0)), 2, MakeAnswer::Made(2))
}

/// The rows of A, the last one first.
fn give_rows(
    rt: &impl Abort,
    alloc: Global,
    members: &Members,
    keys: &MacTable,
    a: &Node<MacTable>,
    b: &mut Node<MacTable>,
    twin: &mut Node<MacTable>,
) -> Result<(), Memory>
    requires { twin.old.start ≡ start_of members.now 1 keys.now }
    ensures { twin.new.start ≡ start_of members.now 1 keys.now }
{
    let (first, last) = (bytes_of(rt, a, 0), bytes_of(rt, a, 2));
    let early = PutAnswer::Refused(Fault::MissingSelf(name_at(rt, a, 0)));
    give_both(rt, alloc, members, keys, b, twin, last, early)?;
    give_both(
        rt,
        alloc,
        members,
        keys,
        b,
        twin,
        first,
        PutAnswer::Accepted(1),
    )?;
    give_both(
        rt,
        alloc,
        members,
        keys,
        b,
        twin,
        first,
        PutAnswer::Known(1),
    )?;
    give_both(
        rt,
        alloc,
        members,
        keys,
        b,
        twin,
        bytes_of(rt, a, 1),
        PutAnswer::Known(0),
    )?;
    give_both(
        rt,
        alloc,
        members,
        keys,
        b,
        twin,
        last,
        PutAnswer::Accepted(2),
    )?;
    give_both(rt, alloc, members, keys, b, twin, last, PutAnswer::Known(2))
}

/// The first 40 bytes of more.
fn front_of<'a>(rt: &impl Abort, bytes: &'a [u8]) -> &'a [u8] {
    match bytes.split_at_checked(40) {
        Some((front, _)) => front,
        None => panic!(rt; "a short event"),
    }
}

/// A row of A with another signature, an event of no member, and the front of a row.
fn give_faulty(
    rt: &impl Abort,
    alloc: Global,
    members: &Members,
    keys: &MacTable,
    a: &Node<MacTable>,
    b: &mut Node<MacTable>,
    twin: &mut Node<MacTable>,
) -> Result<(), Memory>
    requires { twin.old.start ≡ start_of members.now 1 keys.now }
{
    let first = bytes_of(rt, a, 0);
    let forged = altered(rt, alloc, first, 80, 1)?;
    let refused = PutAnswer::Refused(Fault::Signature);
    give_both(
        rt,
        alloc,
        members,
        keys,
        b,
        twin,
        forged.as_slice(),
        refused,
    )?;
    let refused = PutAnswer::Refused(Fault::Member(2));
    give_both(
        rt,
        alloc,
        members,
        keys,
        b,
        twin,
        &shortest_event(2),
        refused,
    )?;
    let refused = PutAnswer::Refused(Fault::Bytes(ByteFault::Short(40)));
    give_both(
        rt,
        alloc,
        members,
        keys,
        b,
        twin,
        front_of(rt, first),
        refused,
    )?;
    equal(rt, twin.log(), b.log());
    Ok(())
}

#[test]
fn answers_of_what_is_checked_as_of_bytes(rt: HostRuntime) -> Result<(), Memory> {
    let members = two_members(&rt, rt.alloc())?;
    let keys = MacTable::new(rt.alloc(), &members)?;
    let mut a = player_of(&rt, rt.alloc(), &members, 0)?;
    let mut b = player_of(&rt, rt.alloc(), &members, 1)?;
    let mut twin = player_of(&rt, rt.alloc(), &members, 1)?;
    play(&rt, &mut a.node, &mut b.node)?;
    make(&rt, &mut twin.node, None, 1, MakeAnswer::Made(0))?;
    give_rows(
        &rt,
        rt.alloc(),
        &members,
        &keys,
        &a.node,
        &mut b.node,
        &mut twin.node,
    )?;
    give_faulty(
        &rt,
        rt.alloc(),
        &members,
        &keys,
        &a.node,
        &mut b.node,
        &mut twin.node,
    )
}

/// The last event that the node made has these bytes.
fn last_is(rt: &impl Abort, node: &Node<MacTable>, bytes: &[u8]) {
    match node.last_event() {
        Some(event) => equal(rt, event.bytes(), bytes),
        None => panic!(rt; "no event"),
    }
}

fn tell_last(
    rt: &impl Abort,
    a: &mut Node<MacTable>,
    b: &mut Node<MacTable>,
) -> Result<(), Memory> {
    assert!(rt; a.last_event().is_none());
    play(rt, a, b)?;
    last_is(rt, a, bytes_of(rt, a, 2));
    last_is(rt, b, bytes_of(rt, a, 1));
    Ok(())
}

#[test]
fn tells_its_last_event(rt: HostRuntime) -> Result<(), Memory> {
    let (mut a, mut b) = two_players(&rt, rt.alloc())?;
    tell_last(&rt, &mut a.node, &mut b.node)
}
