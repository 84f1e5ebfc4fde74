//! A sync between two nodes that are shared, each held by a seat, and the same between two nodes that are not.

ghost use Rattle.std.specs.Prelude.{◌≡◌, IfOk};
ghost use Rattle.hg_board.specs.Seats.{IsOf};
ghost use Rattle.hg_board.specs.Table.{all_parts};

use crate::players::{Player, node_of, two_players};
use hg_board::{Seat, Shared};
use hg_check::Trouble;
use hg_gossip::{Holder, sync};
use hg_life::{MakeAnswer, Members, SyncMade, SyncReport};
use hg_model::{Member, Memory};
use hg_play::Seated;
use hg_sign::MacTable;
use std::alloc::Global;
use std::sync::Wait;

/// Whether each makes an event, and then the one takes the other's and makes one on it.
fn meet<H: Holder, P: Holder>(alloc: Global, one: &mut H, other: &mut P) -> Result<bool, Memory>
    ensures one { H.lent one.new ≡ H.lent one.old }
    ensures other { P.lent other.new ≡ P.lent other.old }
{
    let made = one.make(&[], 1, b"")? == MakeAnswer::Made(0);
    let made_too = other.make(&[], 1, b"")? == MakeAnswer::Made(0);
    let report = sync(alloc, one, other, 2, b"")?;
    let wanted = SyncReport {
        taken: 1,
        refused: 0,
        made: SyncMade::Row(2),
    };
    Ok(made && made_too && report == wanted && one.held(alloc)?.len() == 3)
}

/// The same of two shared nodes, through their seats, which stay theirs.
fn meet_by_seats<R: Wait>(
    rt: &R,
    alloc: Global,
    a: &Shared<MacTable>,
    a_seat: &mut Seat<MacTable>,
    b: &Shared<MacTable>,
    b_seat: &mut Seat<MacTable>,
) -> Result<bool, Memory>
    requires a { IsOf a.now a_seat.old }
    requires b { IsOf b.now b_seat.old }
    ensures a { IsOf a.now a_seat.new }
    ensures a_parts { a_seat.new.parts ≡ a_seat.old.parts }
    ensures b { IsOf b.now b_seat.new }
    ensures b_parts { b_seat.new.parts ≡ b_seat.old.parts }
{
    let mut one = Seated::new(rt, a, a_seat);
    let mut other = Seated::new(rt, b, b_seat);
    meet(alloc, &mut one, &mut other)
}

/// The node of a member between threads, with its first seat.
fn start(
    alloc: Global,
    members: &Members,
    own: Member,
) -> Result<(Shared<MacTable>, Seat<MacTable>), Trouble>
    ensures of { IfOk result (λ r. IsOf r.0 r.1) }
    ensures parts { IfOk result (λ r. r.1.parts ≡ all_parts) }
{
    match Shared::start(alloc, node_of(alloc, members, own)?) {
        Ok(started) => Ok(started),
        Err(_node) => Err(Trouble::Memory),
    }
}

/// Whether two shared nodes sync as they must, and end so. The one has a seat more, which comes back after the sync.
pub fn sync_by_seats<R: Wait>(rt: &R, alloc: Global, members: &Members) -> Result<bool, Trouble> {
    let (a, mut a_seat) = start(alloc, members, 0)?;
    let (b, mut b_seat) = start(alloc, members, 1)?;
    let other = a.split(&mut a_seat);
    let met = meet_by_seats(rt, alloc, &a, &mut a_seat, &b, &mut b_seat)?;
    a.absorb(&mut a_seat, other);
    let one = Player {
        node: a.finish(rt, a_seat),
    };
    let peer = Player {
        node: b.finish(rt, b_seat),
    };
    Ok(met && one.node.rows() == 3 && peer.node.rows() == 1)
}

/// Whether two nodes do that are not shared.
pub fn sync_alone(alloc: Global, members: &Members) -> Result<bool, Trouble> {
    let (mut a, mut b) = two_players(alloc, members)?;
    Ok(meet(alloc, &mut a.node, &mut b.node)?)
}
