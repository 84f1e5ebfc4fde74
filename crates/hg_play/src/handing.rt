ghost use Rattle.std.specs.Prelude.{◌<◌, ◌≤◌, IfOk, length};
ghost use Rattle.hg_graph.specs.RowsWithRoom.{rows_of};
ghost use Rattle.hg_gossip.specs.Handing.{heard_of};
ghost use Rattle.hg_board.specs.Copies.{AreLacked, IsParcelFrom};
ghost use Rattle.hg_play.specs.Heard.{HandsOver, IsRead, KeepsNodes};
ghost use Rattle.hg_play.specs.Through.{AreNodes};

use hg_board::EventParcel;
use hg_crowd::Party;
use hg_event::Event;
use hg_gossip::{Heard, Known, joined};
use hg_model::{Memory, Name};
use hg_sign::SharedTable;
use std::alloc::Global;
use std::sync::{Arc, Wait};

/// What a peer hands over to a taker: the events that the taker lacks of its rows, among others that it has; how many rows
/// there are, and the name of the last one that the peer made, if it made any.
#[derive(Drop)]
pub struct Handed {
    pub events: Vec<Arc<Event>>,
    pub len: usize,
    pub last: Option<Name>,
}

/// The events that the node at a place refused, and lacks still. Where it refused none, this takes no turn.
fn still_refused<R: Wait>(
    rt: &R,
    alloc: Global,
    party: &mut Party<'_, SharedTable>,
    k: usize,
    heard: &Heard,
) -> Result<Vec<Arc<Event>>, Memory>
    requires nodes { AreNodes party.old.places party.old.seats }
    requires place { k < length party.old.seats }
    ensures { IsRead k (λ v. IfOk result (λ events. AreLacked heard.now.refused v events.items)) party.old party.new }
{
    if heard.refused.is_empty() {
        return Ok(Vec::new(alloc));
    }
    party.still_lacked(rt, alloc, k, heard.refused.as_slice())
}

/// The events of the node at a place from a row on.
fn events_behind<R: Wait>(
    rt: &R,
    alloc: Global,
    party: &mut Party<'_, SharedTable>,
    k: usize,
    from: usize,
) -> Result<EventParcel, Memory>
    requires nodes { AreNodes party.old.places party.old.seats }
    requires place { k < length party.old.seats }
    ensures { IsRead k (λ v. IfOk result (IsParcelFrom from v)) party.old party.new }
{
    party.events_from(rt, alloc, k, from)
}

/// What the peer at `y` hands over to the taker at `x`: the events that this refused and lacks still, and then those of the
/// rows of which it has not heard.
pub(crate) fn lacked<R: Wait>(
    rt: &R,
    alloc: Global,
    party: &mut Party<'_, SharedTable>,
    known: &Known,
    x: usize,
    y: usize,
) -> Result<Handed, Memory>
    requires nodes { KeepsNodes party.old known.now }
    requires taker { x < length party.old.seats }
    requires peer { y < length party.old.seats }
    ensures { HandsOver x y result party.old party.new }
{
    let heard = known.heard(x, y);
    let refused = still_refused(rt, alloc, party, x, heard)?;
    let parcel = events_behind(rt, alloc, party, y, heard.len)?;
    let len = heard.len + parcel.events.len();
    let events = joined(refused, parcel.events)?;
    Ok(Handed {
        events,
        len,
        last: parcel.last,
    })
}
