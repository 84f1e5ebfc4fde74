ghost use Rattle.std.specs.Prelude.{◌≡◌, ◌≤◌, true, IfOk, OnErr};
ghost use Rattle.hg_life.specs.NodeView.{IsNode};
ghost use Rattle.hg_gossip.specs.Gossip.{TakesAll, TakesSome};
ghost use Rattle.hg_gossip.specs.Holding.{Waits};
ghost use Rattle.hg_wire.specs.Exchange.{Delivers, answer_of, asked_of, rows_in};
ghost use Rattle.hg_wire.specs.Grammar.{is_rows, item_count};
ghost use Rattle.hg_wire.specs.Reading.{count_limit};

use crate::message::Message;
use crate::writing::write_message;
use hg_gossip::{Holder, Taken};
use hg_io::{Failed, Sink};
use hg_model::{Bytes, Items, Memory, Name};

/// What came of writing a message.
#[derive(Clone, Copy, Debug, PartialEq, Eq)]
pub enum Delivery {
    /// It is written whole, with so many names or rows.
    Sent(usize),
    /// The sink failed, and counted it. It has taken a front of the message, and not all of it.
    Failed,
}

/// Writes HAVE of the holder's tips, by which a peer tells what it has beyond them. Without memory nothing is written.
pub fn ask<T: Holder, K: Sink>(taker: &mut T, sink: &mut K) -> Result<Delivery, Memory>
    requires { IsNode T.rules.accepts (T.seen taker.old).node }
    ensures lent { T.lent taker.new ≡ T.lent taker.old }
    ensures waits { Waits T.rules (T.seen taker.old) (T.seen taker.new) }
    ensures sent { IfOk result (Delivers K.Sink sink.old sink.new (asked_of (T.seen taker.new).node)) }
    ensures none { OnErr result (sink.new ≡ sink.old) }
{
    let names = taker.tips()?;
    Ok(deliver(sink, &Message::Have(Items::from_vec(names))))
}

/// Writes ROWS of what the peer has beyond the rows with these names, and the name of its last own row. Without memory
/// nothing is written.
pub fn answer<P: Holder, K: Sink>(
    peer: &mut P,
    names: &[Name],
    sink: &mut K,
) -> Result<Delivery, Memory>
    requires { IsNode P.rules.accepts (P.seen peer.old).node }
    ensures lent { P.lent peer.new ≡ P.lent peer.old }
    ensures waits { Waits P.rules (P.seen peer.old) (P.seen peer.new) }
    ensures sent { IfOk result (Delivers K.Sink sink.old sink.new (answer_of names.now (P.seen peer.new).node)) }
    ensures none { OnErr result (sink.new ≡ sink.old) }
{
    let parcel = peer.beyond(names)?;
    Ok(deliver(sink, &Message::Rows(parcel)))
}

/// Writes the message.
fn deliver<K: Sink>(sink: &mut K, message: &Message) -> Delivery
    requires { item_count message.now ≤ count_limit }
    ensures { Delivers K.Sink sink.old sink.new message.now result }
{
    match write_message(sink, message) {
        Ok(()) => Delivery::Sent(count_of(message)),
        Err(Failed) => Delivery::Failed,
    }
}

/// How many names or rows it has.
fn count_of(message: &Message) -> usize
    ensures { result ≡ item_count message.now }
{
    match message {
        Message::Have(names) => names.as_slice().len(),
        Message::Rows(parcel) => parcel.rows.as_slice().len(),
    }
}

/// The rows of ROWS.
pub fn rows_of(message: &Message) -> &[Bytes]
    ensures { result.now ≡ rows_in message.now }
{
    match message {
        Message::Have(_) => &[],
        Message::Rows(parcel) => parcel.rows.as_slice(),
    }
}

/// Puts the rows of ROWS to the taker, one after the other in their order, and answers how many were taken and how many
/// refused. After `Memory` some of the first of them are put and the next one would be accepted.
pub fn take<T: Holder>(taker: &mut T, message: &Message) -> Result<Taken, Memory>
    requires { is_rows message.now ≡ true }
    ensures lent { T.lent taker.new ≡ T.lent taker.old }
    ensures ok { IfOk result (TakesAll T.rules (T.seen taker.old) (rows_in message.now) (T.seen taker.new)) }
    ensures err { OnErr result (TakesSome T.rules (T.seen taker.old) (rows_in message.now) (T.seen taker.new)) }
{
    hg_gossip::take(taker, rows_of(message))
}
