ghost use Rattle.std.specs.Prelude.{◌≡◌, ◌+◌, ◌<◌, ◌≤◌, ◌^◌, IfOk, OnErr, length, take};
ghost use Rattle.hg_mail.specs.Messages.{IsSender};
ghost use Rattle.hg_mail.specs.Mailboxes.{IsPortOf};
ghost use Rattle.hg_board.specs.Seats.{IsOf};
ghost use Rattle.hg_board.specs.Copies.{bytes_from};
ghost use Rattle.hg_board.specs.Table.{node_at};
ghost use Rattle.hg_crowd.specs.Crowd.{IsStill};
ghost use Rattle.hg_storm.specs.Keeping.{KeepsSeat};
ghost use Rattle.hg_storm.specs.Sending.{AreIn, Dispatches, HasSent, IsDue, NoneBack, Sends, bytes_seen};

use hg_board::{Seat, Shared};
use hg_mail::{Mailbox, Message, Port, PostAnswer};
use hg_model::{Bytes, Member, Memory};
use hg_sign::Signer;
use std::alloc::Global;
use std::sync::Wait;

/// What a member has sent to another one.
#[derive(Clone, Copy, Debug, PartialEq, Eq)]
pub struct Dispatch {
    /// How many rows: its node's first ones, in order.
    pub sent: usize,
    /// How often one came back, since the mailbox was full.
    pub full: u64,
    /// How many rows its node had when it last sent.
    pub due: usize,
}

/// How many rows are copied at once.
const PIECE: usize = 16;

/// Sends rows, of which the first has this place, until the mailbox is full. Answers how many.
fn send_piece<R: Wait>(
    rt: &R,
    mailbox: &Mailbox,
    port: &mut Port,
    from: Member,
    place: usize,
    rows: Vec<Bytes>,
) -> usize
    requires of { IsPortOf mailbox.now port.old }
    requires sender { IsSender from port.old.view }
    requires part { 0 < port.old.count.parts }
    requires few { place + length rows.items < 2 ^ 64 }
    ensures of { IsPortOf mailbox.now port.new }
    ensures within { result ≤ length rows.items }
    ensures sends { Sends from place (take result rows.items) port.old port.new }
    ensures rest { AreIn mailbox.now port.old port.new (length rows.items) result }
{
    let mut sent = 0;
    'rows: for bytes in rows {
        let message = Message {
            from,
            number: place + sent,
            bytes,
        };
        match mailbox.post(rt, port, message) {
            PostAnswer::Posted => sent += 1,
            PostAnswer::Full(_) => return sent,
        }
    }
    sent
}

/// How many rows the node has.
fn rows_due<V: Signer + Drop, R: Wait>(
    rt: &R,
    alloc: Global,
    shared: &Shared<V>,
    seat: &mut Seat<V>,
) -> usize
    requires { IsOf shared.now seat.old }
    ensures of { IsOf shared.now seat.new }
    ensures still { IsStill seat.old seat.new }
    ensures seat { KeepsSeat V.accepts shared.now seat.old seat.new }
    ensures mine { seat.new.mine ≡ seat.old.mine }
    ensures count { result ≡ length (bytes_seen shared.now seat.new) }
{
    shared.rows_from(rt, alloc, seat, 0, 0).1
}

/// The bytes of the rows from a place on, of at most so many.
fn piece_from<V: Signer + Drop, R: Wait>(
    rt: &R,
    alloc: Global,
    shared: &Shared<V>,
    seat: &mut Seat<V>,
    place: usize,
    most: usize,
) -> Result<Vec<Bytes>, Memory>
    requires { IsOf shared.now seat.old }
    ensures of { IsOf shared.now seat.new }
    ensures still { IsStill seat.old seat.new }
    ensures seat { KeepsSeat V.accepts shared.now seat.old seat.new }
    ensures mine { seat.new.mine ≡ seat.old.mine }
    ensures rows { IfOk result (λ rows. rows.items ≡ bytes_from (node_at shared.now.start seat.new.seen) place most) }
{
    shared.rows_from(rt, alloc, seat, place, most).0
}

/// Sends another member the rows that it was not sent yet, in order, until its mailbox is full. After `Memory` the first of
/// them were sent, as the port has counted.
pub fn send_rows<V: Signer + Drop, R: Wait>(
    rt: &R,
    alloc: Global,
    shared: &Shared<V>,
    seat: &mut Seat<V>,
    mailbox: &Mailbox,
    port: &mut Port,
    from: Member,
    dispatch: Dispatch,
) -> Result<Dispatch, Memory>
    requires of { IsOf shared.now seat.old }
    requires sent { HasSent mailbox.now from (bytes_seen shared.now seat.old) dispatch.sent port.old }
    requires few { dispatch.full < 2 ^ 63 }
    ensures of { IsOf shared.now seat.new }
    ensures still { IsStill seat.old seat.new }
    ensures seat { KeepsSeat V.accepts shared.now seat.old seat.new }
    ensures mine { seat.new.mine ≡ seat.old.mine }
    ensures sent { IfOk result (λ d. HasSent mailbox.now from (bytes_seen shared.now seat.new) d.sent port.new) }
    ensures due { IfOk result (λ d. IsDue shared.now seat.old seat.new d.due) }
    ensures rest { IfOk result (Dispatches mailbox.now port.old port.new dispatch) }
    ensures seen { port.old.count.seen ≤ port.new.count.seen }
    // Without memory too the node's first rows were sent, as many as the port has counted, and none came back.
    ensures counted { HasSent mailbox.now from (bytes_seen shared.now seat.new) port.new.count.mine port.new }
    ensures more { port.old.count.mine ≤ port.new.count.mine }
    ensures none { OnErr result (NoneBack port.old port.new) }
{
    let due = rows_due(rt, alloc, shared, seat);
    let mut sent = dispatch.sent;
    'pieces: while sent < due {
        let most = PIECE.min(due - sent);
        let rows = piece_from(rt, alloc, shared, seat, sent, most)?;
        let count = rows.len();
        let more = send_piece(rt, mailbox, port, from, sent, rows);
        sent += more;
        if more < count {
            let full = dispatch.full + 1;
            return Ok(Dispatch { sent, full, due });
        }
    }
    let full = dispatch.full;
    Ok(Dispatch { sent, full, due })
}
