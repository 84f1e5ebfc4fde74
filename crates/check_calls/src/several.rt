//! Events with several other-parents that come to a node, or that it makes.

ghost use Rattle.std.specs.Prelude.{◌≤◌, length};
ghost use Rattle.hg_model.specs.Links.{most_others};

use crate::coming::{beyond_is, tips_are};
use crate::playing::{begin, bytes_of, equal, give, name_at, player_of};
use crate::publishing::first_members;
use hg_check::parents_on;
use hg_life::{Entry, Fault, MakeAnswer, MakeFault, PutAnswer};
use hg_model::{Member, Memory, Name};
use hg_node::Node;
use hg_sign::{MacTable, signed_bytes};
use std::alloc::Global;
use std::process::Abort;

/// The bytes of an event of the member on these parents, under its signature.
fn event_on(
    alloc: Global,
    keys: &MacTable,
    creator: Member,
    own: Name,
    others: &[Name],
) -> Result<Vec<u8>, Memory>
    requires some { 1 ≤ length others.now }
    requires few { length others.now ≤ most_others }
{
    let parents = parents_on(alloc, own, others)?;
    let event = signed_bytes(alloc, keys, creator, &parents, 4, &[])?;
    Ok(event.bytes)
}

/// Puts these bytes to the node, which is to answer so.
fn put(
    rt: &impl Abort,
    node: &mut Node<MacTable>,
    bytes: &[u8],
    answer: PutAnswer,
) -> Result<(), Memory> {
    equal(rt, node.put(bytes)?, answer);
    Ok(())
}

/// The same of bytes that it is to refuse.
fn refuse(
    rt: &impl Abort,
    node: &mut Node<MacTable>,
    bytes: &[u8],
    fault: Fault,
) -> Result<(), Memory> {
    put(rt, node, bytes, PutAnswer::Refused(fault))
}

/// An event of A on the first ones of A, B and C comes to D before they do, and again after each. D has A0, C0, B0 and it.
fn take_joined(
    rt: &impl Abort,
    alloc: Global,
    keys: &MacTable,
    a: &Node<MacTable>,
    b: &Node<MacTable>,
    c: &Node<MacTable>,
    d: &mut Node<MacTable>,
) -> Result<(), Memory> {
    let (own, second, third) = (name_at(rt, a, 0), name_at(rt, b, 0), name_at(rt, c, 0));
    let joined = event_on(alloc, keys, 0, own, &[second, third])?;
    let turned = event_on(alloc, keys, 0, own, &[third, second])?;
    refuse(rt, d, joined.as_slice(), Fault::MissingSelf(own))?;
    give(rt, a, 0, d, PutAnswer::Accepted(0))?;
    refuse(rt, d, joined.as_slice(), Fault::MissingOther(second))?;
    refuse(rt, d, turned.as_slice(), Fault::MissingOther(third))?;
    give(rt, c, 0, d, PutAnswer::Accepted(1))?;
    refuse(rt, d, joined.as_slice(), Fault::MissingOther(second))?;
    refuse(rt, d, turned.as_slice(), Fault::MissingOther(second))?;
    give(rt, b, 0, d, PutAnswer::Accepted(2))?;
    put(rt, d, joined.as_slice(), PutAnswer::Accepted(3))?;
    put(rt, d, joined.as_slice(), PutAnswer::Known(3))
}

/// The member's event on these parents is refused so.
fn refuse_on(
    rt: &impl Abort,
    alloc: Global,
    keys: &MacTable,
    d: &mut Node<MacTable>,
    creator: Member,
    own: Name,
    others: &[Name],
    fault: Fault,
) -> Result<(), Memory>
    requires some { 1 ≤ length others.now }
    requires few { length others.now ≤ most_others }
{
    let bytes = event_on(alloc, keys, creator, own, others)?;
    refuse(rt, d, bytes.as_slice(), fault)
}

/// A name of no row comes before a wrong creator, and of each the first from the left is told.
fn tell_the_first(
    rt: &impl Abort,
    alloc: Global,
    keys: &MacTable,
    d: &mut Node<MacTable>,
) -> Result<(), Memory> {
    let (first, third, second, last) = (
        name_at(rt, d, 0),
        name_at(rt, d, 1),
        name_at(rt, d, 2),
        name_at(rt, d, 3),
    );
    let own = Fault::OtherCreator(0);
    refuse_on(rt, alloc, keys, d, 0, last, &[third, first, last], own)?;
    let own = Fault::OtherCreator(3);
    refuse_on(rt, alloc, keys, d, 0, last, &[last, third], own)?;
    let other = Fault::SelfCreator(0);
    refuse_on(rt, alloc, keys, d, 1, first, &[second, third], other)?;
    let missing = Fault::MissingOther([7; 48]);
    refuse_on(
        rt,
        alloc,
        keys,
        d,
        0,
        last,
        &[first, [7; 48], [8; 48]],
        missing,
    )
}

/// A name may stand there twice. The new row is the only tip, and the only one that is no ancestor of the row before.
fn take_twice(
    rt: &impl Abort,
    alloc: Global,
    keys: &MacTable,
    d: &mut Node<MacTable>,
) -> Result<(), Memory> {
    let (third, second, last) = (name_at(rt, d, 1), name_at(rt, d, 2), name_at(rt, d, 3));
    tips_are(rt, d, &[last])?;
    let again = event_on(alloc, keys, 0, last, &[second, second, third, second])?;
    put(rt, d, again.as_slice(), PutAnswer::Accepted(4))?;
    put(rt, d, again.as_slice(), PutAnswer::Known(4))?;
    tips_are(rt, d, &[name_at(rt, d, 4)])?;
    beyond_is(rt, d, &[last], &[4])?;
    beyond_is(rt, d, &[third, second], &[0, 3, 4])?;
    equal(rt, d.forkers(), 0);
    Ok(())
}

#[test]
fn takes_an_event_on_three_parents(rt: HostRuntime) -> Result<(), Memory> {
    let alloc = rt.alloc();
    let members = first_members(&rt, alloc, 4)?;
    let keys = MacTable::new(alloc, &members)?;
    let mut a = player_of(&rt, alloc, &members, 0)?;
    let mut b = player_of(&rt, alloc, &members, 1)?;
    let mut c = player_of(&rt, alloc, &members, 2)?;
    let mut d = player_of(&rt, alloc, &members, 3)?;
    begin(&mut a.node, 1, b"")?;
    begin(&mut b.node, 2, b"")?;
    begin(&mut c.node, 3, b"")?;
    take_joined(&rt, alloc, &keys, &a.node, &b.node, &c.node, &mut d.node)?;
    tell_the_first(&rt, alloc, &keys, &mut d.node)?;
    take_twice(&rt, alloc, &keys, &mut d.node)
}

/// The node makes an event on these others, and is to answer so.
fn make_on(
    rt: &impl Abort,
    node: &mut Node<MacTable>,
    others: &[Name],
    answer: MakeAnswer,
) -> Result<(), Memory>
    requires { length others.now ≤ most_others }
{
    equal(rt, node.make(others, 4, b"any")?, answer);
    Ok(())
}

/// The same where it is to make none.
fn refuse_to_make(
    rt: &impl Abort,
    node: &mut Node<MacTable>,
    others: &[Name],
    fault: MakeFault,
) -> Result<(), Memory>
    requires { length others.now ≤ most_others }
{
    make_on(rt, node, others, MakeAnswer::Refused(fault))
}

/// The first events of A, B and C come to D, which then makes its own.
fn take_the_first(
    rt: &impl Abort,
    a: &Node<MacTable>,
    b: &Node<MacTable>,
    c: &Node<MacTable>,
    d: &mut Node<MacTable>,
) -> Result<(), Memory> {
    give(rt, a, 0, d, PutAnswer::Accepted(0))?;
    give(rt, b, 0, d, PutAnswer::Accepted(1))?;
    give(rt, c, 0, d, PutAnswer::Accepted(2))?;
    let (first, second) = (name_at(rt, a, 0), name_at(rt, b, 0));
    refuse_to_make(rt, d, &[first, second], MakeFault::NoFirst)?;
    make_on(rt, d, &[], MakeAnswer::Made(3))
}

/// What hinders D to make an event: a name of no row comes before its own row, and of each the first from the left is told.
fn tell_what_hinders(rt: &impl Abort, d: &mut Node<MacTable>) -> Result<(), Memory> {
    let (first, second, own) = (name_at(rt, d, 0), name_at(rt, d, 1), name_at(rt, d, 3));
    let missing = MakeFault::MissingOther([7; 48]);
    let by_itself = MakeFault::OtherCreator(3);
    refuse_to_make(rt, d, &[], MakeFault::HasFirst)?;
    refuse_to_make(rt, d, &[first, [7; 48], [8; 48]], missing)?;
    refuse_to_make(rt, d, &[own, second, first, [7; 48]], missing)?;
    refuse_to_make(rt, d, &[first, second, first, own], by_itself)?;
    refuse_to_make(rt, d, &[own, first, own], by_itself)?;
    let log = [
        Entry::Took(0),
        Entry::Took(1),
        Entry::Took(2),
        Entry::Made(3),
    ];
    equal(rt, d.log(), log.as_slice());
    Ok(())
}

/// The row at this place has these parents.
fn stands_on(rt: &impl Abort, node: &Node<MacTable>, place: usize, own: Name, others: &[Name]) {
    assert!(rt; place < node.rows());
    match &node.row(place).parents {
        None => panic!(rt; "no parents"),
        Some(pair) => {
            equal(rt, pair.0.as_slice(), own.as_slice());
            equal(rt, pair.1.as_slice(), others);
        }
    }
}

/// D makes an event on C's, A's, B's and again C's. It comes to A before its parents do, and again after each.
fn make_on_four(
    rt: &impl Abort,
    a: &mut Node<MacTable>,
    d: &mut Node<MacTable>,
) -> Result<(), Memory> {
    let (first, second, third) = (name_at(rt, d, 0), name_at(rt, d, 1), name_at(rt, d, 2));
    let own = name_at(rt, d, 3);
    make_on(rt, d, &[third, first, second, third], MakeAnswer::Made(4))?;
    stands_on(rt, d, 4, own, &[third, first, second, third]);
    equal(rt, bytes_of(rt, d, 4).len(), 324);
    let missing = Fault::MissingSelf(own);
    give(rt, d, 4, a, PutAnswer::Refused(missing))?;
    give(rt, d, 3, a, PutAnswer::Accepted(1))?;
    let missing = Fault::MissingOther(third);
    give(rt, d, 4, a, PutAnswer::Refused(missing))?;
    give(rt, d, 2, a, PutAnswer::Accepted(2))?;
    let missing = Fault::MissingOther(second);
    give(rt, d, 4, a, PutAnswer::Refused(missing))?;
    give(rt, d, 1, a, PutAnswer::Accepted(3))?;
    give(rt, d, 4, a, PutAnswer::Accepted(4))?;
    give(rt, d, 4, a, PutAnswer::Known(4))?;
    stands_on(rt, a, 4, own, &[third, first, second, third]);
    Ok(())
}

#[test]
fn makes_an_event_on_five_parents(rt: HostRuntime) -> Result<(), Memory> {
    let alloc = rt.alloc();
    let members = first_members(&rt, alloc, 4)?;
    let mut a = player_of(&rt, alloc, &members, 0)?;
    let mut b = player_of(&rt, alloc, &members, 1)?;
    let mut c = player_of(&rt, alloc, &members, 2)?;
    let mut d = player_of(&rt, alloc, &members, 3)?;
    begin(&mut a.node, 1, b"")?;
    begin(&mut b.node, 2, b"")?;
    begin(&mut c.node, 3, b"")?;
    take_the_first(&rt, &a.node, &b.node, &c.node, &mut d.node)?;
    tell_what_hinders(&rt, &mut d.node)?;
    make_on_four(&rt, &mut a.node, &mut d.node)
}
