ghost use Rattle.std.specs.Prelude.{◌<◌, length};
ghost use Rattle.hg_graph.specs.RowsWithRoom.{rows_of};
ghost use Rattle.hg_play.specs.Heard.{KeepsNoted, TakesRows};
ghost use Rattle.hg_play.specs.Through.{AreHanded, AreNodes};

use crate::handing::Handed;
use hg_crowd::Party;
use hg_event::Event;
use hg_gossip::{Known, Taken};
use hg_model::Memory;
use hg_sign::SharedTable;
use std::alloc::Global;
use std::sync::{Arc, Wait};

/// Events of one of the nodes come to the node at a place, all in one turn, but for those whose names it has.
pub(crate) fn take<R: Wait>(
    rt: &R,
    party: &mut Party<'_, SharedTable>,
    k: usize,
    events: &[Arc<Event>],
) -> Result<Taken, Memory>
    requires nodes { AreNodes party.old.places party.old.seats }
    requires place { k < length party.old.seats }
    requires handed { AreHanded party.old.places (rows_of events.now) }
    ensures { TakesRows k (rows_of events.now) result party.old party.new }
{
    party.take_events(rt, k, events)
}

/// Notes what the taker at `x` has of the rows of the peer at `y`, now that this handed over to it, and so many events of
/// these were refused. Of its own rows a node notes nothing.
pub(crate) fn note(
    alloc: Global,
    known: &mut Known,
    x: usize,
    y: usize,
    handed: Handed,
    refused: u64,
)
    requires taker { x < length known.old }
    requires peer { y < length known.old }
    ensures { KeepsNoted known.old x y handed.len (rows_of handed.events.items) refused known.new }
{
    if x == y {
        return;
    }
    if refused == 0 {
        known.note_all(alloc, x, y, handed.len);
    } else {
        known.note_rest(x, y, handed.len, handed.events);
    }
}
