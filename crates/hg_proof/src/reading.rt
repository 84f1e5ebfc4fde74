ghost use Rattle.std.specs.Prelude.{◌≡◌, IfOk};
ghost use Rattle.hg_event.specs.View.{row_of};
ghost use Rattle.hg_graph.specs.RowsWithRoom.{rows_of};
ghost use Rattle.hg_life.specs.Results.{Gives};
ghost use Rattle.hg_life.specs.Spelling.{Spells};
ghost use Rattle.hg_proof.specs.Reading.{entries_part, form_of, graph_part, order_part, row_part, rows_part};
ghost use Rattle.hg_proof.specs.Want.{BeginsGraph, HasFirst, IsBegun, IsRead, OnMemory};

use crate::fields::{behind_magic, breaks_at, count_part, entry_part, u32_part};
use crate::shown::Shown;
use crate::why::Why;
use hg_event::{Event, EventView, decode_first};
use hg_model::{Memory, Placed, Stop};
use hg_name::name_of;
use std::alloc::Global;
use std::sync::Arc;

/// The event that was read in these bytes, as one value to share.
fn shared(alloc: Global, view: &EventView<'_>, bytes: &[u8]) -> Result<Arc<Event>, Memory>
    requires { Spells bytes.now (row_of view.now) }
    ensures { IfOk result (λ event. event.value ≡ row_of view.now) }
{
    let event = Event::copied(alloc, view, name_of(bytes), bytes)?;
    Ok(Arc::new(alloc, event)?)
}

/// The event in front, and the bytes behind it.
fn event_part(alloc: Global, bytes: &[u8], size: usize) -> Result<(Arc<Event>, &[u8]), Stop<Why>>
    ensures part { Gives (λ part. (part.0.value, part.1.now)) result (row_part size bytes.now) }
    ensures free { OnMemory result (IsRead (row_part size bytes.now)) }
{
    let Ok((view, len)) = decode_first(bytes) else {
        return Err(Stop::Fault(breaks_at(size, bytes)));
    };
    let (front, rest) = bytes.split_at(len);
    Ok((shared(alloc, &view, front)?, rest))
}

/// So many events, and the bytes behind them. However many are promised, memory is taken only for those that are there.
fn events_part(
    alloc: Global,
    bytes: &[u8],
    size: usize,
    count: u32,
) -> Result<(Vec<Arc<Event>>, &[u8]), Stop<Why>>
    ensures parts { Gives (λ part. (rows_of part.0.items, part.1.now)) result (rows_part size count bytes.now) }
    ensures free { OnMemory result (HasFirst size count bytes.now) }
{
    let mut events = Vec::new(alloc);
    let mut left = bytes;
    for _ in 0..count {
        let (event, rest) = event_part(alloc, left, size)?;
        events.push(event)?;
        left = rest;
    }
    Ok((events, left))
}

/// How many events there are, and these, and the bytes behind them.
#[tactic(auto, unfolding(crate::specs::Reading::graph_part))]
fn graph_part(
    alloc: Global,
    bytes: &[u8],
    size: usize,
) -> Result<(Vec<Arc<Event>>, &[u8]), Stop<Why>>
    ensures part { Gives (λ part. (rows_of part.0.items, part.1.now)) result (graph_part size bytes.now) }
    ensures free { OnMemory result (BeginsGraph size bytes.now) }
{
    let (count, rest) = count_part(bytes, size)?;
    events_part(alloc, rest, size, count)
}

/// So many entries, and the bytes behind them, with memory as for events.
fn entries_part(
    alloc: Global,
    bytes: &[u8],
    size: usize,
    count: u32,
) -> Result<(Vec<Placed>, &[u8]), Stop<Why>>
    ensures { Gives (λ part. (part.0.items, part.1.now)) result (entries_part size count bytes.now) }
{
    let mut entries = Vec::new(alloc);
    let mut left = bytes;
    for _ in 0..count {
        let (entry, rest) = entry_part(left, size)?;
        entries.push(entry)?;
        left = rest;
    }
    Ok((entries, left))
}

/// How many entries there are, and these, and the bytes behind them.
#[tactic(auto, unfolding(crate::specs::Reading::order_part))]
fn order_part(alloc: Global, bytes: &[u8], size: usize) -> Result<(Vec<Placed>, &[u8]), Stop<Why>>
    ensures { Gives (λ part. (part.0.items, part.1.now)) result (order_part size bytes.now) }
{
    let (count, rest) = u32_part(bytes, size)?;
    entries_part(alloc, rest, size, count)
}

/// What the bytes hold, or the first place at which they break the format. Whether events and entries belong together is
/// not asked here. Where no event stands in front of the rows it takes no memory for them.
#[tactic(auto, unfolding(crate::specs::Reading::form_of))]
pub(crate) fn form_of(alloc: Global, bytes: &[u8]) -> Result<Shown, Stop<Why>>
    ensures form { Gives (λ shown. shown) result (form_of bytes.now) }
    ensures free { OnMemory result (IsBegun bytes.now) }
{
    let size = bytes.len();
    let rest = behind_magic(bytes, size)?;
    let (events, rest) = graph_part(alloc, rest, size)?;
    let (order, rest) = order_part(alloc, rest, size)?;
    if !rest.is_empty() {
        return Err(Stop::Fault(breaks_at(size, rest)));
    }
    Ok(Shown::new(events, order))
}
