//! Events that seats put to a shared node as they stand.

ghost use Rattle.std.specs.Prelude.{◌≡◌, IfOk};
ghost use Rattle.hg_life.specs.Signing.{secrets_of};
ghost use Rattle.hg_life.specs.NodeView.{start_of};
ghost use Rattle.hg_node.specs.Checked.{IsSignedRow};
ghost use Rattle.hg_board.specs.Seats.{IsOf};
ghost use Rattle.hg_board.specs.Table.{all_parts};

use crate::checked::play;
use crate::members::two_members;
use crate::playing::{Player, bytes_of, equal, name_at, player_of, two_players};
use hg_board::{Seat, Shared};
use hg_event::Event;
use hg_gossip::Taken;
use hg_life::{Fault, MakeAnswer, Members, PutAnswer};
use hg_model::{Memory, Name};
use hg_node::{Node, checked};
use hg_sign::{MacTable, Verifier};
use std::alloc::Global;
use std::process::Abort;
use std::sync::{Arc, Wait};

/// B without rows, shared.
pub(crate) fn shared_b(
    rt: &impl Abort,
    alloc: Global,
    members: &Members,
) -> Result<(Shared<MacTable>, Seat<MacTable>), Memory>
    ensures seat { IfOk result (λ r. IsOf r.0 r.1) }
    ensures parts { IfOk result (λ r. r.1.parts ≡ all_parts) }
    ensures start { IfOk result (λ r. r.0.start.start ≡ start_of members.now 1 (secrets_of members.now)) }
{
    let player = player_of(rt, alloc, members, 1)?;
    match Shared::start(alloc, player.into_node()) {
        Ok(shared) => Ok(shared),
        Err(node) => {
            drop(Player { node });
            Err(Memory)
        }
    }
}

/// The tests let a shared node go here alone.
pub(crate) fn end<R: Wait>(rt: &R, shared: Shared<MacTable>, seat: Seat<MacTable>)
    requires seat { IsOf shared seat }
    requires parts { seat.parts ≡ all_parts }
{
    drop(Player {
        node: shared.finish(rt, seat),
    });
}

/// A of `play`, with three rows.
pub(crate) fn played(rt: &impl Abort, alloc: Global) -> Result<Player, Memory> {
    let (mut a, mut b) = two_players(rt, alloc)?;
    play(rt, &mut a.node, &mut b.node)?;
    Ok(a)
}

/// The event of these bytes, which are lawful.
fn event_of<V: Verifier>(
    rt: &impl Abort,
    alloc: Global,
    members: &Members,
    keys: &V,
    bytes: &[u8],
) -> Result<Arc<Event>, Memory>
    ensures { IfOk result (λ event. IsSignedRow (V.accepts keys.now) members.now event.value) }
{
    match checked(alloc, keys, members, bytes)? {
        Ok(event) => Ok(event),
        Err(_answer) => panic!(rt; "no event"),
    }
}

/// The last event that B made has these bytes.
fn tells_last<R: Wait + Abort>(
    rt: &R,
    shared: &Shared<MacTable>,
    seat: &mut Seat<MacTable>,
    bytes: &[u8],
) -> Result<(), Memory>
    requires { IsOf shared.now seat.old }
    ensures of { IsOf shared.now seat.new }
    ensures parts { seat.new.parts ≡ seat.old.parts }
{
    match shared.last_event(rt, seat)? {
        Some(event) => equal(rt, event.bytes(), bytes),
        None => panic!(rt; "no event"),
    }
    Ok(())
}

/// B makes its first event.
pub(crate) fn begins<R: Wait + Abort>(
    rt: &R,
    shared: &Shared<MacTable>,
    seat: &mut Seat<MacTable>,
    bytes: &[u8],
) -> Result<(), Memory>
    requires { IsOf shared.now seat.old }
    ensures of { IsOf shared.now seat.new }
    ensures parts { seat.new.parts ≡ seat.old.parts }
{
    let before = shared.last_event(rt, seat)?;
    assert!(rt; before.is_none());
    equal(
        rt,
        shared.make(rt, seat, &[], 1, b"any")?,
        MakeAnswer::Made(0),
    );
    tells_last(rt, shared, seat, bytes)
}

/// The event of these bytes is put, and the answer is to be this.
fn puts<R: Wait + Abort>(
    rt: &R,
    alloc: Global,
    members: &Members,
    keys: &MacTable,
    shared: &Shared<MacTable>,
    seat: &mut Seat<MacTable>,
    bytes: &[u8],
    answer: PutAnswer,
) -> Result<(), Memory>
    requires seat { IsOf shared.now seat.old }
    requires start { shared.now.start.start ≡ start_of members.now 1 keys.now }
    ensures of { IsOf shared.now seat.new }
    ensures parts { seat.new.parts ≡ seat.old.parts }
{
    let event = event_of(rt, alloc, members, keys, bytes)?;
    equal(rt, shared.put_event(rt, seat, &event)?, answer);
    Ok(())
}

fn puts_all<R: Wait + Abort>(
    rt: &R,
    alloc: Global,
    members: &Members,
    keys: &MacTable,
    a: &Node<MacTable>,
    shared: &Shared<MacTable>,
    seat: &mut Seat<MacTable>,
) -> Result<(), Memory>
    requires seat { IsOf shared.now seat.old }
    requires start { shared.now.start.start ≡ start_of members.now 1 keys.now }
    ensures of { IsOf shared.now seat.new }
    ensures parts { seat.new.parts ≡ seat.old.parts }
{
    let (first, own, last) = (bytes_of(rt, a, 0), bytes_of(rt, a, 1), bytes_of(rt, a, 2));
    begins(rt, shared, seat, own)?;
    let early = PutAnswer::Refused(Fault::MissingSelf(name_at(rt, a, 0)));
    puts(rt, alloc, members, keys, shared, seat, last, early)?;
    puts(
        rt,
        alloc,
        members,
        keys,
        shared,
        seat,
        first,
        PutAnswer::Accepted(1),
    )?;
    puts(
        rt,
        alloc,
        members,
        keys,
        shared,
        seat,
        first,
        PutAnswer::Known(1),
    )?;
    puts(
        rt,
        alloc,
        members,
        keys,
        shared,
        seat,
        own,
        PutAnswer::Known(0),
    )?;
    puts(
        rt,
        alloc,
        members,
        keys,
        shared,
        seat,
        last,
        PutAnswer::Accepted(2),
    )?;
    puts(
        rt,
        alloc,
        members,
        keys,
        shared,
        seat,
        last,
        PutAnswer::Known(2),
    )?;
    tells_last(rt, shared, seat, own)
}

#[test]
fn seats_put_events(rt: HostRuntime) -> Result<(), Memory> {
    let members = two_members(&rt, rt.alloc())?;
    let keys = MacTable::new(rt.alloc(), &members)?;
    let a = played(&rt, rt.alloc())?;
    let (shared, mut seat) = shared_b(&rt, rt.alloc(), &members)?;
    let told = puts_all(
        &rt,
        rt.alloc(),
        &members,
        &keys,
        &a.node,
        &shared,
        &mut seat,
    );
    end(&rt, shared, seat);
    told
}

/// All rows of A come in one turn, and so many are taken.
fn takes<R: Wait + Abort>(
    rt: &R,
    alloc: Global,
    members: &Members,
    keys: &MacTable,
    a: &Node<MacTable>,
    shared: &Shared<MacTable>,
    seat: &mut Seat<MacTable>,
    taken: u64,
) -> Result<(), Memory>
    requires seat { IsOf shared.now seat.old }
    requires start { shared.now.start.start ≡ start_of members.now 1 keys.now }
    ensures of { IsOf shared.now seat.new }
    ensures parts { seat.new.parts ≡ seat.old.parts }
{
    let first = event_of(rt, alloc, members, keys, bytes_of(rt, a, 0))?;
    let own = event_of(rt, alloc, members, keys, bytes_of(rt, a, 1))?;
    let last = event_of(rt, alloc, members, keys, bytes_of(rt, a, 2))?;
    let counts = shared.take_events(rt, seat, &[first, own, last])?;
    equal(rt, counts, Taken { taken, refused: 0 });
    Ok(())
}

/// So many events stand from the place on, and this is the name of B's last one.
fn hands_over<R: Wait + Abort>(
    rt: &R,
    alloc: Global,
    shared: &Shared<MacTable>,
    seat: &mut Seat<MacTable>,
    from: usize,
    wanted: (usize, Option<Name>),
) -> Result<(), Memory>
    requires { IsOf shared.now seat.old }
    ensures of { IsOf shared.now seat.new }
    ensures parts { seat.new.parts ≡ seat.old.parts }
{
    let parcel = shared.events_from(rt, alloc, seat, from)?;
    equal(rt, (parcel.events.len(), parcel.last), wanted);
    Ok(())
}

// The event of B's that A has is known to B.
fn takes_all<R: Wait + Abort>(
    rt: &R,
    alloc: Global,
    members: &Members,
    keys: &MacTable,
    a: &Node<MacTable>,
    shared: &Shared<MacTable>,
    seat: &mut Seat<MacTable>,
) -> Result<(), Memory>
    requires seat { IsOf shared.now seat.old }
    requires start { shared.now.start.start ≡ start_of members.now 1 keys.now }
    ensures of { IsOf shared.now seat.new }
    ensures parts { seat.new.parts ≡ seat.old.parts }
{
    hands_over(rt, alloc, shared, seat, 0, (0, None))?;
    begins(rt, shared, seat, bytes_of(rt, a, 1))?;
    takes(rt, alloc, members, keys, a, shared, seat, 2)?;
    takes(rt, alloc, members, keys, a, shared, seat, 0)?;
    let last = Some(name_at(rt, a, 1));
    hands_over(rt, alloc, shared, seat, 0, (3, last))?;
    hands_over(rt, alloc, shared, seat, 2, (1, last))?;
    hands_over(rt, alloc, shared, seat, 3, (0, last))
}

#[test]
fn seats_take_events_in_one_turn(rt: HostRuntime) -> Result<(), Memory> {
    let members = two_members(&rt, rt.alloc())?;
    let keys = MacTable::new(rt.alloc(), &members)?;
    let a = played(&rt, rt.alloc())?;
    let (shared, mut seat) = shared_b(&rt, rt.alloc(), &members)?;
    let told = takes_all(
        &rt,
        rt.alloc(),
        &members,
        &keys,
        &a.node,
        &shared,
        &mut seat,
    );
    end(&rt, shared, seat);
    told
}
