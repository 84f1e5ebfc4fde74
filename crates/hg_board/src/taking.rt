// How a seat that holds the turn puts events to its node.
ghost use Rattle.std.specs.Prelude.{◌≡◌, ◌<◌, ◌+◌, ◌-◌, ◌^◌, ◌≤◌, true, IfOk, OnErr, OnOk};
ghost use Rattle.hg_graph.specs.RowsWithRoom.{rows_of};
ghost use Rattle.hg_life.specs.Spelling.{spelling};
ghost use Rattle.hg_life.specs.Calls.{put_answer};
ghost use Rattle.hg_node.specs.Puts.{WouldAccept, after_put};
ghost use Rattle.hg_gossip.specs.Nodes.{taking_of};
ghost use Rattle.hg_board.specs.Table.{node_at};
ghost use Rattle.hg_board.specs.Taking.{AddsInside, AreSignedFor, IsSignedFor, TakesFirst, take_row, taking_rows};
ghost use Rattle.hg_board.specs.Turns.{IsInside, IsSized};

use crate::rule::{RawSeat, SharedBoard};
use crate::turn::raise_if_changed;
use hg_event::Event;
use hg_gossip::{Taken, with_answer};
use hg_life::PutAnswer;
use hg_model::{Memory, Sight};
use hg_node::Node;
use hg_sign::Signer;
use std::sync::Arc;

/// Puts an event, and raises the count if it was accepted.
fn put_inside<V: Signer + Drop>(
    board: &SharedBoard<V>,
    raw: &mut RawSeat<V>,
    node: &mut Node<V>,
    event: &Arc<Event>,
) -> Result<PutAnswer, Memory>
    requires size { IsSized board.now.table_id }
    requires table { raw.old.table_id ≡ board.now.table_id }
    requires inside { IsInside raw.old.me }
    requires node { node.old ≡ node_at board.now.key.value raw.old.me.0.seen }
    requires signed { IsSignedFor V.accepts node.old.start event.now.value }
    ensures table { raw.new.table_id ≡ raw.old.table_id }
    ensures adds { AddsInside raw.old.me raw.new.me node.old node.new }
    ensures answer { IfOk result (λ a. a ≡ put_answer V.accepts node.old (spelling event.now.value)) }
    ensures ok { OnOk result (node.new ≡ after_put V.accepts node.old (spelling event.now.value)) }
    ensures err { OnErr result (node.new ≡ node.old) }
    ensures free { OnErr result (WouldAccept V.accepts node.old (spelling event.now.value)) }
{
    let count = node.changes() as u64;
    let answer = node.put_event(event);
    raise_if_changed(board, raw, node, count);
    answer
}

/// The same, unless the node has the event's name, with the counts.
fn take_one<V: Signer + Drop>(
    board: &SharedBoard<V>,
    raw: &mut RawSeat<V>,
    node: &mut Node<V>,
    event: &Arc<Event>,
    counts: Taken,
) -> Result<Taken, Memory>
    requires size { IsSized board.now.table_id }
    requires table { raw.old.table_id ≡ board.now.table_id }
    requires inside { IsInside raw.old.me }
    requires node { node.old ≡ node_at board.now.key.value raw.old.me.0.seen }
    requires signed { IsSignedFor V.accepts node.old.start event.now.value }
    requires few { counts.taken + counts.refused < 2 ^ 64 - 1 }
    ensures table { raw.new.table_id ≡ raw.old.table_id }
    ensures adds { AddsInside raw.old.me raw.new.me node.old node.new }
    ensures ok { IfOk result (λ t. taking_of node.new t ≡ take_row V.accepts (taking_of node.old counts) event.now.value) }
    ensures few { IfOk result (λ t. t.taken + t.refused ≤ counts.taken + counts.refused + 1) }
    ensures err { OnErr result (node.new ≡ node.old) }
    ensures free { OnErr result (WouldAccept V.accepts node.old (spelling event.now.value)) }
{
    let row = event.row();
    if node.graph().place_by(&row.name, row.creator).is_some() {
        return Ok(counts);
    }
    let answer = put_inside(board, raw, node, event)?;
    Ok(with_answer(counts, answer))
}

/// Puts the events whose names the node has not, one after the other, and raises the count for each that is accepted.
pub fn take_each<V: Signer + Drop>(
    board: &SharedBoard<V>,
    raw: &mut RawSeat<V>,
    node: &mut Node<V>,
    events: &[Arc<Event>],
) -> Result<Taken, Memory>
    requires size { IsSized board.now.table_id }
    requires table { raw.old.table_id ≡ board.now.table_id }
    requires inside { IsInside raw.old.me }
    requires node { node.old ≡ node_at board.now.key.value raw.old.me.0.seen }
    requires signed { AreSignedFor V.accepts node.old.start (rows_of events.now) }
    ensures table { raw.new.table_id ≡ raw.old.table_id }
    ensures adds { AddsInside raw.old.me raw.new.me node.old node.new }
    ensures ok { IfOk result (λ t. taking_rows V.accepts node.old (rows_of events.now) ≡ taking_of node.new t) }
    ensures err { OnErr result (TakesFirst V.accepts node.old (rows_of events.now) node.new) }
{
    let mut counts = Taken {
        taken: 0,
        refused: 0,
    };
    for event in events {
        counts = take_one(board, raw, node, event, counts)?;
    }
    Ok(counts)
}
