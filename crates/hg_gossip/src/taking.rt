ghost use Rattle.std.specs.Prelude.{◌≡◌, IfOk, OnErr};
ghost use Rattle.hg_graph.specs.RowsWithRoom.{rows_of};
ghost use Rattle.hg_gossip.specs.Gossip.{MakesAfter, TakesAll, TakesSome, WouldMakeAfter};
ghost use Rattle.hg_gossip.specs.Holding.{Waits};
ghost use Rattle.hg_gossip.specs.Nodes.{taking, taking_of};
ghost use Rattle.hg_gossip.specs.Taking.{AreSigned, TookSome, bytes_of};

use crate::gossip::{Taken, sync_made, with_answer};
use crate::holder::Holder;
use hg_event::Event;
use hg_life::SyncMade;
use hg_model::{Bytes, Memory, Name};
use hg_node::Node;
use hg_sign::Signer;
use std::sync::Arc;

/// Puts these events, one after the other.
pub fn take<H: Holder>(taker: &mut H, events: &[Bytes]) -> Result<Taken, Memory>
    ensures lent { H.lent taker.new ≡ H.lent taker.old }
    ensures ok { IfOk result (TakesAll H.rules (H.seen taker.old) events.now (H.seen taker.new)) }
    ensures err { OnErr result (TakesSome H.rules (H.seen taker.old) events.now (H.seen taker.new)) }
{
    let mut counts = Taken {
        taken: 0,
        refused: 0,
    };
    for event in events {
        let answer = taker.put(event.as_slice())?;
        counts = with_answer(counts, answer);
    }
    Ok(counts)
}

/// Puts these events, which the taker accepts as signed, one after the other.
pub fn take_events<V: Signer>(taker: &mut Node<V>, events: &[Arc<Event>]) -> Result<Taken, Memory>
    requires { AreSigned V.accepts taker.old.start (rows_of events.now) }
    ensures ok { IfOk result (λ t. taking_of taker.new t ≡ taking V.accepts taker.old (bytes_of events.now)) }
    ensures err { OnErr result (TookSome V.accepts taker.old (bytes_of events.now) taker.new) }
{
    let mut counts = Taken {
        taken: 0,
        refused: 0,
    };
    for event in events {
        let answer = taker.put_event(event)?;
        counts = with_answer(counts, answer);
    }
    Ok(counts)
}

/// Makes an event with this other-parent, if there is one. Only to sign one takes memory.
pub fn make_after<H: Holder>(
    taker: &mut H,
    other: Option<Name>,
    time: u64,
    payload: &[u8],
) -> Result<SyncMade, Memory>
    ensures lent { H.lent taker.new ≡ H.lent taker.old }
    ensures ok { IfOk result (MakesAfter H.rules (H.seen taker.old) other time payload.now (H.seen taker.new)) }
    ensures err { OnErr result (Waits H.rules (H.seen taker.old) (H.seen taker.new)) }
    ensures free { OnErr result (WouldMakeAfter (H.seen taker.new) other payload.now) }
{
    match other {
        None => Ok(SyncMade::PeerBare),
        Some(name) => {
            let answer = taker.make(&[name], time, payload)?;
            Ok(sync_made(answer))
        }
    }
}
