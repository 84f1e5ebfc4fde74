// A member's turns.
ghost use Rattle.std.specs.Prelude.{◌≡◌, ◌+◌, ◌<◌, ◌≤◌, ◌^◌, IfOk, OnErr, OnOk, Some, length};
ghost use Rattle.hg_life.specs.Signing.{accepts_by};
ghost use Rattle.hg_board.specs.Seats.{IsOf};
ghost use Rattle.hg_board.specs.Calls.{SeatWaits, Stays};
ghost use Rattle.hg_storm.specs.Drawing.{IsCircle, IsDrawing};
ghost use Rattle.hg_storm.specs.Turning.{GoesOn, HasMade, HasStopped, HasStoppedIn, IsAtTurns, MakesOneMore, MayStop, ServesOneMore, Stands};

use crate::desk::Desk;
use crate::drawing::draw_peer;
use crate::plan::Plan;
use crate::receiving::receive;
use crate::sending::send_rows;
use hg_board::{Seat, Shared};
use hg_io::Gate;
use hg_life::MakeAnswer;
use hg_mail::Mailbox;
use hg_model::{Member, Memory};
use hg_sign::SharedTable;
use std::alloc::Global;
use std::sync::Wait;

/// The first point that a gate is told of: that of member 0.
const FIRST_POINT: u32 = 3000;

/// Makes the node's next event. Whether one was made.
fn make_row<R: Wait>(
    rt: &R,
    shared: &Shared<SharedTable>,
    seat: &mut Seat<SharedTable>,
    time: u64,
) -> Result<bool, Memory>
    requires { IsOf shared.now seat.old }
    ensures stays { Stays accepts_by shared.now seat.old seat.new }
    ensures made { IfOk result (HasMade shared.now seat.old time seat.new) }
    ensures waits { OnErr result (SeatWaits accepts_by shared.now seat.old seat.new) }
{
    match shared.make_next(rt, seat, time)? {
        Some(MakeAnswer::Made(_)) => Ok(true),
        Some(MakeAnswer::Refused(_)) => Ok(false),
        None => Ok(false),
    }
}

/// Takes what came, and makes the next event of a turn, the first being 0.
fn take_and_make<R: Wait>(
    rt: &R,
    alloc: Global,
    mailboxes: &[Mailbox],
    shared: &Shared<SharedTable>,
    desk: &mut Desk,
    t: u32,
) -> Result<(), Memory>
    requires at { IsAtTurns mailboxes.now shared.now t desk.old }
    requires few { t + 1 < 2 ^ 32 }
    ensures draws { desk.new.draws ≡ desk.old.draws }
    ensures on { GoesOn desk.old desk.new }
    ensures makes { OnOk result (MakesOneMore mailboxes.now shared.now t desk.old desk.new) }
    ensures stopped { OnErr result (HasStopped mailboxes.now shared.now t desk.new) }
{
    let mailbox = &mailboxes[desk.me as usize];
    receive(
        rt,
        alloc,
        mailbox,
        &mut desk.inbox,
        shared,
        &mut desk.seat,
        &mut desk.log.intake,
    )?;
    let made = make_row(rt, shared, &mut desk.seat, u64::from(t) + 1)?;
    if !made {
        desk.log.idle += 1;
    }
    Ok(())
}

/// Sends a peer the rows that it was not sent yet.
fn send_to<R: Wait>(
    rt: &R,
    alloc: Global,
    mailboxes: &[Mailbox],
    shared: &Shared<SharedTable>,
    desk: &mut Desk,
    peer: Member,
) -> Result<(), Memory>
    requires at { (made : _) × IsAtTurns mailboxes.now shared.now made desk.old }
    requires peer { peer < length mailboxes.now }
    ensures draws { desk.new.draws ≡ desk.old.draws }
    ensures on { GoesOn desk.old desk.new }
    ensures serves { OnOk result (ServesOneMore mailboxes.now shared.now peer desk.old desk.new) }
    ensures stopped { OnErr result (MayStop mailboxes.now shared.now desk.old desk.new) }
{
    let to = peer as usize;
    let dispatch = send_rows(
        rt,
        alloc,
        shared,
        &mut desk.seat,
        &mailboxes[to],
        &mut desk.ports[to],
        desk.me,
        desk.log.dispatches[to],
    )?;
    desk.log.dispatches[to] = dispatch;
    Ok(())
}

/// A turn, the first being 0: it takes what came, makes the next event, draws a peer, and sends it what it was not sent yet.
fn turn<R: Wait>(
    rt: &R,
    alloc: Global,
    mailboxes: &[Mailbox],
    shared: &Shared<SharedTable>,
    desk: &mut Desk,
    plan: &Plan,
    place: usize,
    t: u32,
) -> Result<(), Memory>
    requires stands { Stands plan.now place mailboxes.now shared.now t t desk.old }
    requires draws { IsDrawing plan.now desk.old.me t desk.old.draws }
    requires few { t + 1 < 2 ^ 32 }
    requires place { place < length plan.now.circle.items }
    requires circle { IsCircle (length mailboxes.now) plan.now }
    ensures on { GoesOn desk.old desk.new }
    ensures stands { OnOk result (Stands plan.now place mailboxes.now shared.now (t + 1) (t + 1) desk.new) }
    ensures draws { OnOk result (IsDrawing plan.now desk.new.me (t + 1) desk.new.draws) }
    // Without memory the node is one that the laws speak of, and what is told of the turn is so.
    ensures stopped { OnErr result (HasStoppedIn mailboxes.now shared.now t desk.new) }
{
    take_and_make(rt, alloc, mailboxes, shared, desk, t)?;
    if let Some(peer) = draw_peer(plan.circle.as_slice(), place, &mut desk.draws) {
        send_to(rt, alloc, mailboxes, shared, desk, peer)?;
    }
    Ok(())
}

/// All turns of the member at a place among those that have nodes. At the end of each the gate is told.
pub(crate) fn take_turns<R: Wait, G: Gate>(
    rt: &R,
    alloc: Global,
    mailboxes: &[Mailbox],
    shared: &Shared<SharedTable>,
    mut desk: Desk,
    plan: &Plan,
    place: usize,
    gate: &G,
) -> Result<Desk, Memory>
    requires stands { Stands plan.now place mailboxes.now shared.now 0 0 desk }
    requires draws { IsDrawing plan.now desk.me 0 desk.draws }
    requires place { place < length plan.now.circle.items }
    requires circle { IsCircle (length mailboxes.now) plan.now }
    ensures on { IfOk result (GoesOn desk) }
    ensures stands { IfOk result (Stands plan.now place mailboxes.now shared.now plan.now.turns plan.now.turns) }
{
    'turns: for t in 0..plan.turns {
        turn(rt, alloc, mailboxes, shared, &mut desk, plan, place, t)?;
        gate.reach(FIRST_POINT.wrapping_add(u32::from(desk.me)));
    }
    Ok(desk)
}
