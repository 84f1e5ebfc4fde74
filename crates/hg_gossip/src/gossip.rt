ghost use Rattle.std.specs.Prelude.{◌≡◌, ◌+◌, ◌-◌, ◌<◌, ◌^◌, IfOk, OnErr};
ghost use Rattle.hg_life.specs.Gossip.{made_in_sync};
ghost use Rattle.hg_gossip.specs.Gossip.{Pulls, PullsSome, Syncs, SyncsSome, with_answer};
ghost use Rattle.hg_gossip.specs.Holding.{Waits, names_in, parcel_beyond};

use crate::holder::Holder;
use crate::taking::{make_after, take};
use hg_life::{MakeAnswer, Parcel, PutAnswer, SyncMade, SyncReport};
use hg_model::Memory;
use std::alloc::Global;

/// How many events were taken, and how many refused. Those that were known count as neither.
#[derive(Clone, Copy, Debug, PartialEq, Eq)]
pub struct Taken {
    pub taken: u64,
    pub refused: u64,
}

/// The counts with one answer more.
pub fn with_answer(counts: Taken, answer: PutAnswer) -> Taken
    requires { counts.taken + counts.refused < 2 ^ 64 - 1 }
    ensures { result ≡ with_answer counts answer }
{
    match answer {
        PutAnswer::Accepted(_) => Taken {
            taken: counts.taken + 1,
            refused: counts.refused,
        },
        PutAnswer::Known(_) => counts,
        PutAnswer::Refused(_) => Taken {
            taken: counts.taken,
            refused: counts.refused + 1,
        },
    }
}

/// What came of an event at the end of a sync.
pub fn sync_made(answer: MakeAnswer) -> SyncMade
    ensures { result ≡ made_in_sync answer }
{
    match answer {
        MakeAnswer::Made(place) => SyncMade::Row(place),
        MakeAnswer::Refused(fault) => SyncMade::Fault(fault),
    }
}

/// What the peer has that the taker lacks, and how the taker was when its names were read.
fn parcel_for<T: Holder, P: Holder>(
    alloc: Global,
    taker: &mut T,
    peer: &mut P,
) -> Result<Parcel, Memory>
    ensures taker_lent { T.lent taker.new ≡ T.lent taker.old }
    ensures peer_lent { P.lent peer.new ≡ P.lent peer.old }
    ensures taker { Waits T.rules (T.seen taker.old) (T.seen taker.new) }
    ensures peer { Waits P.rules (P.seen peer.old) (P.seen peer.new) }
    ensures ok { IfOk result (λ p. p ≡ parcel_beyond (names_in (T.seen taker.new)) (P.seen peer.new)) }
{
    let names = taker.held(alloc)?;
    peer.missing(alloc, names.as_slice())
}

/// Takes from the peer the rows that the taker lacks, by their names, in the peer's order. After `Memory` either none of
/// them is put, or some of the first are and the next one would be accepted.
pub fn pull<T: Holder, P: Holder>(
    alloc: Global,
    taker: &mut T,
    peer: &mut P,
) -> Result<Taken, Memory>
    ensures taker_lent { T.lent taker.new ≡ T.lent taker.old }
    ensures peer_lent { P.lent peer.new ≡ P.lent peer.old }
    ensures peer { Waits P.rules (P.seen peer.old) (P.seen peer.new) }
    ensures ok { IfOk result (Pulls T.rules (T.seen taker.old) (P.seen peer.new) (T.seen taker.new)) }
    ensures err { OnErr result (PullsSome T.rules (T.seen taker.old) (P.seen peer.new) (T.seen taker.new)) }
{
    let parcel = parcel_for(alloc, taker, peer)?;
    take(taker, parcel.rows.as_slice())
}

/// Pulls from the peer, and makes an event whose other-parent is the peer's last own row, if it has one. The time is
/// what the event claims, in the caller's unit. After `Memory` some of the first of the rows are put, and no event is made.
pub fn sync<T: Holder, P: Holder>(
    alloc: Global,
    taker: &mut T,
    peer: &mut P,
    time: u64,
    payload: &[u8],
) -> Result<SyncReport, Memory>
    ensures taker_lent { T.lent taker.new ≡ T.lent taker.old }
    ensures peer_lent { P.lent peer.new ≡ P.lent peer.old }
    ensures peer { Waits P.rules (P.seen peer.old) (P.seen peer.new) }
    ensures ok { IfOk result (Syncs T.rules (T.seen taker.old) (P.seen peer.new) time payload.now (T.seen taker.new)) }
    ensures err { OnErr result (SyncsSome T.rules (T.seen taker.old) (P.seen peer.new) payload.now (T.seen taker.new)) }
{
    let parcel = parcel_for(alloc, taker, peer)?;
    let counts = take(taker, parcel.rows.as_slice())?;
    let made = make_after(taker, parcel.last, time, payload)?;
    Ok(SyncReport {
        taken: counts.taken,
        refused: counts.refused,
        made,
    })
}
