//! What seats read of a shared node, and what they do at their turns.

ghost use Rattle.std.specs.Prelude.{◌≡◌};
ghost use Rattle.hg_board.specs.Seats.{IsOf};

use crate::gossiping::has_tip_and_beyond;
use crate::members::two_members;
use crate::playing::{Player, bytes_of, equal, give, name_at, player_of};
use crate::shared::{begins, end, played, shared_b};
use hg_board::{Seat, Shared};
use hg_life::{Fault, MakeAnswer, Members, PutAnswer};
use hg_model::{Memory, Name};
use hg_node::Node;
use hg_seat::Seated;
use hg_sign::MacTable;
use std::alloc::Global;
use std::process::Abort;
use std::sync::Wait;

/// The bytes are put, with this answer, and there are so many changes then.
fn puts_at<R: Wait + Abort>(
    rt: &R,
    shared: &Shared<MacTable>,
    seat: &mut Seat<MacTable>,
    bytes: &[u8],
    wanted: (PutAnswer, usize),
) -> Result<(), Memory>
    requires { IsOf shared.now seat.old }
    ensures of { IsOf shared.now seat.new }
    ensures parts { seat.new.parts ≡ seat.old.parts }
{
    let (answer, len) = shared.put_at(rt, seat, bytes);
    equal(rt, (answer?, len), wanted);
    Ok(())
}

/// These are the rows from a place on, of at most so many, and there are three in all.
fn reads_rows<R: Wait + Abort>(
    rt: &R,
    alloc: Global,
    shared: &Shared<MacTable>,
    seat: &mut Seat<MacTable>,
    range: (usize, usize),
    wanted: &[&[u8]],
) -> Result<(), Memory>
    requires { IsOf shared.now seat.old }
    ensures of { IsOf shared.now seat.new }
    ensures parts { seat.new.parts ≡ seat.old.parts }
{
    let (from, most) = range;
    let (rows, count) = shared.rows_from(rt, alloc, seat, from, most);
    let rows = rows?;
    equal(rt, (rows.len(), count), (wanted.len(), 3));
    for (row, bytes) in rows.iter().zip(wanted) {
        equal(rt, row.as_slice(), *bytes);
    }
    Ok(())
}

/// B makes its first event, and A's two come, the last one too early at first.
fn puts_three<R: Wait + Abort>(
    rt: &R,
    a: &Node<MacTable>,
    shared: &Shared<MacTable>,
    seat: &mut Seat<MacTable>,
) -> Result<(), Memory>
    requires { IsOf shared.now seat.old }
    ensures of { IsOf shared.now seat.new }
    ensures parts { seat.new.parts ≡ seat.old.parts }
{
    let (first, own, last) = (bytes_of(rt, a, 0), bytes_of(rt, a, 1), bytes_of(rt, a, 2));
    begins(rt, shared, seat, own)?;
    let early = PutAnswer::Refused(Fault::MissingSelf(name_at(rt, a, 0)));
    puts_at(rt, shared, seat, last, (early, 1))?;
    puts_at(rt, shared, seat, first, (PutAnswer::Accepted(1), 2))?;
    puts_at(rt, shared, seat, own, (PutAnswer::Known(0), 2))?;
    puts_at(rt, shared, seat, last, (PutAnswer::Accepted(2), 3))
}

fn reads_three<R: Wait + Abort>(
    rt: &R,
    alloc: Global,
    a: &Node<MacTable>,
    shared: &Shared<MacTable>,
    seat: &mut Seat<MacTable>,
) -> Result<(), Memory>
    requires { IsOf shared.now seat.old }
    ensures of { IsOf shared.now seat.new }
    ensures parts { seat.new.parts ≡ seat.old.parts }
{
    puts_three(rt, a, shared, seat)?;
    let (first, own, last) = (bytes_of(rt, a, 0), bytes_of(rt, a, 1), bytes_of(rt, a, 2));
    reads_rows(rt, alloc, shared, seat, (0, 2), &[own, first])?;
    reads_rows(rt, alloc, shared, seat, (1, 9), &[first, last])?;
    reads_rows(rt, alloc, shared, seat, (2, 1), &[last])?;
    reads_rows(rt, alloc, shared, seat, (0, 0), &[])?;
    reads_rows(rt, alloc, shared, seat, (3, 1), &[])?;
    reads_rows(rt, alloc, shared, seat, (usize::MAX, usize::MAX), &[])
}

#[test]
fn seats_read_rows_from_a_place_on(rt: HostRuntime) -> Result<(), Memory> {
    let members = two_members(&rt, rt.alloc())?;
    let a = played(&rt, rt.alloc())?;
    let (shared, mut seat) = shared_b(&rt, rt.alloc(), &members)?;
    let told = reads_three(&rt, rt.alloc(), &a.node, &shared, &mut seat);
    end(&rt, shared, seat);
    told
}

/// The tips are these, and beyond the rows of some names there are these rows; B's last own row has this name.
fn tells_beyond<R: Wait + Abort>(
    rt: &R,
    shared: &Shared<MacTable>,
    seat: &mut Seat<MacTable>,
    tips: &[Name],
    names: &[Name],
    rows: &[&[u8]],
    own: Name,
) -> Result<(), Memory>
    requires { IsOf shared.now seat.old }
    ensures of { IsOf shared.now seat.new }
    ensures parts { seat.new.parts ≡ seat.old.parts }
{
    let found = shared.tips(rt, seat)?;
    equal(rt, found.as_slice(), tips);
    let parcel = shared.beyond(rt, seat, names)?;
    equal(
        rt,
        (parcel.rows.as_slice().len(), parcel.last),
        (rows.len(), Some(own)),
    );
    for (row, bytes) in parcel.rows.as_slice().iter().zip(rows) {
        equal(rt, row.as_slice(), *bytes);
    }
    Ok(())
}

/// The same of a holder of the shared node by this seat, which comes back: there is one tip.
fn tells_as_holder<R: Wait + Abort>(
    rt: &R,
    shared: &Shared<MacTable>,
    seat: &mut Seat<MacTable>,
    tip: Name,
    names: &[Name],
    rows: &[&[u8]],
    own: Name,
) -> Result<(), Memory>
    requires { IsOf shared.now seat.old }
    ensures of { IsOf shared.now seat.new }
    ensures parts { seat.new.parts ≡ seat.old.parts }
{
    let mut holder = Seated::new(rt, shared, seat);
    has_tip_and_beyond(rt, &mut holder, tip, names, rows, own)
}

/// B has its first event and A's two, of which the last stands on both.
fn tells_three<R: Wait + Abort>(
    rt: &R,
    a: &Node<MacTable>,
    shared: &Shared<MacTable>,
    seat: &mut Seat<MacTable>,
) -> Result<(), Memory>
    requires { IsOf shared.now seat.old }
    ensures of { IsOf shared.now seat.new }
    ensures parts { seat.new.parts ≡ seat.old.parts }
{
    puts_three(rt, a, shared, seat)?;
    let (first, own, last) = (bytes_of(rt, a, 0), bytes_of(rt, a, 1), bytes_of(rt, a, 2));
    let (one, mine, tip) = (name_at(rt, a, 0), name_at(rt, a, 1), name_at(rt, a, 2));
    tells_beyond(rt, shared, seat, &[tip], &[one], &[own, last], mine)?;
    tells_beyond(rt, shared, seat, &[tip], &[mine, one], &[last], mine)?;
    tells_beyond(rt, shared, seat, &[tip], &[], &[own, first, last], mine)?;
    tells_beyond(rt, shared, seat, &[tip], &[one, tip], &[], mine)?;
    tells_as_holder(rt, shared, seat, tip, &[mine], &[first, last], mine)
}

#[test]
fn seats_tell_what_is_beyond(rt: HostRuntime) -> Result<(), Memory> {
    let members = two_members(&rt, rt.alloc())?;
    let a = played(&rt, rt.alloc())?;
    let (shared, mut seat) = shared_b(&rt, rt.alloc(), &members)?;
    let told = tells_three(&rt, &a.node, &shared, &mut seat);
    end(&rt, shared, seat);
    told
}

/// B with its first event, A's first, and its next one on that, all made without payload.
fn twin_of(
    rt: &impl Abort,
    alloc: Global,
    members: &Members,
    a: &Node<MacTable>,
) -> Result<Player, Memory> {
    let mut twin = player_of(rt, alloc, members, 1)?;
    equal(rt, twin.node.make(&[], 1, b"")?, MakeAnswer::Made(0));
    give(rt, a, 0, &mut twin.node, PutAnswer::Accepted(1))?;
    let first = [name_at(rt, a, 0)];
    equal(rt, twin.node.make(&first, 3, b"")?, MakeAnswer::Made(2));
    Ok(twin)
}

/// B makes its first event, and a next one only once there is one by another to stand on.
fn makes_what_comes_next<R: Wait + Abort>(
    rt: &R,
    alloc: Global,
    twin: &Node<MacTable>,
    shared: &Shared<MacTable>,
    seat: &mut Seat<MacTable>,
) -> Result<(), Memory>
    requires { IsOf shared.now seat.old }
    ensures of { IsOf shared.now seat.new }
    ensures parts { seat.new.parts ≡ seat.old.parts }
{
    let (own, first, next) = (
        bytes_of(rt, twin, 0),
        bytes_of(rt, twin, 1),
        bytes_of(rt, twin, 2),
    );
    equal(
        rt,
        shared.make_next(rt, seat, 1)?,
        Some(MakeAnswer::Made(0)),
    );
    equal(rt, shared.make_next(rt, seat, 2)?, None);
    puts_at(rt, shared, seat, first, (PutAnswer::Accepted(1), 2))?;
    equal(
        rt,
        shared.make_next(rt, seat, 3)?,
        Some(MakeAnswer::Made(2)),
    );
    reads_rows(rt, alloc, shared, seat, (0, 3), &[own, first, next])
}

#[test]
fn seats_make_what_comes_next(rt: HostRuntime) -> Result<(), Memory> {
    let members = two_members(&rt, rt.alloc())?;
    let a = played(&rt, rt.alloc())?;
    let twin = twin_of(&rt, rt.alloc(), &members, &a.node)?;
    let (shared, mut seat) = shared_b(&rt, rt.alloc(), &members)?;
    let told = makes_what_comes_next(&rt, rt.alloc(), &twin.node, &shared, &mut seat);
    end(&rt, shared, seat);
    told
}
