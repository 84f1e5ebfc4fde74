//! What a node tells of its tips and of what is beyond names, its next event, and events that come back to their maker.

use crate::members::two_members;
use crate::playing::{
    Player, begin, bytes_of, equal, give, make, name_at, player_of, sync, two_players,
};
use hg_life::{Entry, Fault, MakeAnswer, Parcel, PutAnswer};
use hg_model::{Memory, Name, Share};
use hg_node::Node;
use hg_sign::MacTable;
use std::process::Abort;

/// A has A0, B0 and A1, which stands on both; B has B0.
fn play(rt: &impl Abort, a: &mut Node<MacTable>, b: &mut Node<MacTable>) -> Result<(), Memory> {
    make(rt, a, None, 1, MakeAnswer::Made(0))?;
    make(rt, b, None, 2, MakeAnswer::Made(0))?;
    give(rt, b, 0, a, PutAnswer::Accepted(1))?;
    make(rt, a, Some(name_at(rt, b, 0)), 3, MakeAnswer::Made(2))
}

/// The node is to have these tips.
pub(crate) fn tips_are(
    rt: &impl Abort,
    node: &Node<MacTable>,
    wanted: &[Name],
) -> Result<(), Memory> {
    let tips = node.tips()?;
    equal(rt, tips.len(), wanted.len());
    for (tip, name) in tips.iter().zip(wanted) {
        equal(rt, *tip, *name);
    }
    Ok(())
}

/// The parcel is to have the bytes of these rows of the node, and the name of its last own row.
fn has_rows(rt: &impl Abort, node: &Node<MacTable>, parcel: &Parcel, places: &[usize]) {
    equal(rt, parcel.last, node.last_name());
    let rows = parcel.rows.as_slice();
    equal(rt, rows.len(), places.len());
    for (row, place) in rows.iter().zip(places) {
        equal(rt, row.as_slice(), bytes_of(rt, node, *place));
    }
}

/// What is beyond these names is to be these rows of the node.
pub(crate) fn beyond_is(
    rt: &impl Abort,
    node: &Node<MacTable>,
    names: &[Name],
    places: &[usize],
) -> Result<(), Memory> {
    has_rows(rt, node, &node.beyond(names)?, places);
    Ok(())
}

fn hand_over(rt: &impl Abort, a: &Node<MacTable>, b: &Node<MacTable>) -> Result<(), Memory> {
    let first = name_at(rt, b, 0);
    let last = name_at(rt, a, 2);
    tips_are(rt, a, &[last])?;
    tips_are(rt, b, &[first])?;
    beyond_is(rt, a, &[], &[0, 1, 2])?;
    beyond_is(rt, a, &[first, [7; 48]], &[0, 2])?;
    beyond_is(rt, a, &[last], &[])?;
    beyond_is(rt, b, &[last], &[0])
}

#[test]
fn hands_over_what_no_named_row_stands_on(rt: HostRuntime) -> Result<(), Memory> {
    let (mut a, mut b) = two_players(&rt, rt.alloc())?;
    tips_are(&rt, &a.node, &[])?;
    play(&rt, &mut a.node, &mut b.node)?;
    hand_over(&rt, &a.node, &b.node)
}

/// The node's next event is to be answered so.
fn next(
    rt: &impl Abort,
    node: &mut Node<MacTable>,
    time: u64,
    answer: Option<MakeAnswer>,
) -> Result<(), Memory> {
    equal(rt, node.make_next(time)?, answer);
    Ok(())
}

fn take_turns(
    rt: &impl Abort,
    a: &mut Node<MacTable>,
    b: &mut Node<MacTable>,
) -> Result<(), Memory> {
    equal(rt, a.next_other(), Some(None));
    next(rt, a, 1, Some(MakeAnswer::Made(0)))?;
    equal(rt, a.next_other(), None);
    next(rt, a, 2, None)?;
    next(rt, b, 1, Some(MakeAnswer::Made(0)))?;
    give(rt, b, 0, a, PutAnswer::Accepted(1))?;
    let first = name_at(rt, b, 0);
    equal(rt, a.next_other(), Some(Some(first)));
    next(rt, a, 3, Some(MakeAnswer::Made(2)))?;
    next(rt, a, 4, Some(MakeAnswer::Made(3)))?;
    equal(rt, a.next_other(), Some(Some(first)));
    Ok(())
}

#[test]
fn makes_the_event_that_comes_next(rt: HostRuntime) -> Result<(), Memory> {
    let (mut a, mut b) = two_players(&rt, rt.alloc())?;
    take_turns(&rt, &mut a.node, &mut b.node)
}

/// A row of one node comes back to the other, which is to answer so.
fn come_back(
    rt: &impl Abort,
    from: &Node<MacTable>,
    place: usize,
    to: &mut Node<MacTable>,
    answer: PutAnswer,
) -> Result<(), Memory> {
    equal(rt, to.restore(bytes_of(rt, from, place))?, answer);
    Ok(())
}

/// A node of A's that has nothing gets A's rows again, and then another first event of A's.
fn restore(
    rt: &impl Abort,
    a: &Node<MacTable>,
    other: &Node<MacTable>,
    again: &mut Node<MacTable>,
) -> Result<(), Memory> {
    let impostor = PutAnswer::Refused(Fault::Impostor);
    come_back(rt, a, 2, again, impostor)?;
    come_back(rt, a, 1, again, impostor)?;
    come_back(rt, a, 0, again, PutAnswer::Accepted(0))?;
    come_back(rt, a, 0, again, PutAnswer::Known(0))?;
    let missing = Fault::MissingOther(name_at(rt, a, 1));
    come_back(rt, a, 2, again, PutAnswer::Refused(missing))?;
    give(rt, a, 1, again, PutAnswer::Accepted(1))?;
    come_back(rt, a, 2, again, PutAnswer::Accepted(2))?;
    let log = [Entry::Made(0), Entry::Took(1), Entry::Made(2)];
    equal(rt, again.log(), log.as_slice());
    come_back(rt, other, 0, again, impostor)
}

#[test]
fn restores_its_own_events(rt: HostRuntime) -> Result<(), Memory> {
    let (mut a, mut b) = two_players(&rt, rt.alloc())?;
    play(&rt, &mut a.node, &mut b.node)?;
    let members = two_members(&rt, rt.alloc())?;
    let mut other: Player = player_of(&rt, rt.alloc(), &members, 0)?;
    begin(&mut other.node, 9, b"")?;
    let mut again: Player = player_of(&rt, rt.alloc(), &members, 0)?;
    restore(&rt, &a.node, &other.node, &mut again.node)
}

/// So many are to be marked by what the whole decides.
fn remark(rt: &impl Abort, node: &mut Node<MacTable>, marked: u32) -> Result<(), Memory> {
    let rows = node.rows();
    equal(rt, node.remark(rows, Share::new(0, 1))?, marked);
    Ok(())
}

/// The same of what the first rows alone decide.
fn remark_first(
    rt: &impl Abort,
    node: &mut Node<MacTable>,
    len: usize,
    marked: u32,
) -> Result<(), Memory> {
    assert!(rt; len <= node.rows());
    equal(rt, node.remark(len, Share::new(0, 1))?, marked);
    Ok(())
}

/// A and B take turns: six rows decide two witnesses, and eight two more.
fn remark_two(
    rt: &impl Abort,
    a: &mut Node<MacTable>,
    b: &mut Node<MacTable>,
) -> Result<(), Memory> {
    begin(a, 1, b"")?;
    begin(b, 2, b"")?;
    for (to_a, to_b) in [(3, 4), (5, 6)] {
        sync(a, b, to_a, b"")?;
        sync(b, a, to_b, b"")?;
    }
    remark(rt, b, 2)?;
    remark(rt, b, 0)?;
    equal(rt, b.closed(), 1);
    sync(a, b, 7, b"")?;
    sync(b, a, 8, b"")?;
    remark_first(rt, b, 6, 0)?;
    remark(rt, b, 2)?;
    equal(rt, b.closed(), 2);
    Ok(())
}

#[test]
fn remarks_what_its_rows_decide(rt: HostRuntime) -> Result<(), Memory> {
    let (mut a, mut b) = two_players(&rt, rt.alloc())?;
    remark_two(&rt, &mut a.node, &mut b.node)
}
