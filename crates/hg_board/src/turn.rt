// How a seat comes in, with the turn and the node, and goes out.
ghost use Rattle.std.specs.Prelude.{◌≡◌, ◌++◌, ◌∷◌, [], length};
ghost use Rattle.hg_life.specs.NodeView.{IsNode};
ghost use Rattle.hg_board.specs.Table.{node_at};
ghost use Rattle.hg_board.specs.Steps.{IsAtRest};
ghost use Rattle.hg_board.specs.Turns.{Enters, IsGrown, IsInside, IsSized, inside_at, mine_with, outside_at};

use crate::rule::{Give, Look, Naming, Raise, RawSeat, SharedBoard, Take};
use hg_node::Node;
use hg_sign::Signer;
use std::marker::Brand;
use std::sync::Wait;
use std::thread;

/// The word that is 1 where a seat holds the turn, else 0.
const TURN: usize = 0;

/// The word that is the history's length.
const COUNT: usize = 1;

/// The slot of the node.
const NODE: usize = 0;

/// Takes the turn, loads the count and moves the node out.
pub fn enter<V: Signer + Drop, R: Wait>(
    rt: &R,
    board: &SharedBoard<V>,
    raw: &mut RawSeat<V>,
) -> (Node<V>, u64)
    requires size { IsSized board.now.table_id }
    requires table { raw.old.table_id ≡ board.now.table_id }
    requires rest { IsAtRest raw.old.me }
    requires start { raw.old.me.0.start ≡ Some board.now.key.value }
    ensures table { raw.new.table_id ≡ raw.old.table_id }
    ensures seat { Enters V.accepts board.now.key.value raw.old.me raw.new.me result.0 result.1 }
{
    for _ in rt.forever() {
        if board.compare_exchange::<Take>(raw, TURN, 0, 1) == 0 {
            let count = board.load::<Look>(raw, COUNT);
            let node = board.exchange(raw, NODE, None).unwrap();
            return (node, count);
        }
        thread::yield_now();
    }
    unreachable!()
}

/// Moves the node in and gives the turn. The node has the history that the seat has seen.
pub fn leave<V: Signer + Drop>(board: &SharedBoard<V>, raw: &mut RawSeat<V>, node: Node<V>)
    requires size { IsSized board.now.table_id }
    requires table { raw.old.table_id ≡ board.now.table_id }
    requires inside { IsInside raw.old.me }
    requires node { node ≡ node_at board.now.key.value raw.old.me.0.seen }
    ensures table { raw.new.table_id ≡ raw.old.table_id }
    ensures seat { raw.new.me ≡ outside_at raw.old.me.0 raw.old.me.0.seen raw.old.me.0.mine }
{
    drop(board.exchange(raw, NODE, Some(node)));
    board.store::<Give>(raw, TURN, 0);
}

/// Raises the count for the one change that the node has more than the seat has seen.
fn raise<V: Signer + Drop, N: Naming>(board: &SharedBoard<V>, raw: &mut RawSeat<V>, node: &Node<V>)
    requires size { IsSized board.now.table_id }
    requires table { raw.old.table_id ≡ board.now.table_id }
    requires inside { IsInside raw.old.me }
    requires node { node.now ≡ node_at board.now.key.value (raw.old.me.0.seen ++ N.change ∷ []) }
    ensures table { raw.new.table_id ≡ raw.old.table_id }
    ensures seat { raw.new.me ≡ inside_at raw.old.me.0 node.now.history (mine_with raw.old.me.0 node.now.history) }
{
    node.is_node();
    // Their number fits the word.
    node.changes();
    board.fetch_add::<Raise<N>>(raw, COUNT, 1);
}

/// Raises the count where the node has a change that the count has not.
pub fn raise_if_changed<V: Signer + Drop>(
    board: &SharedBoard<V>,
    raw: &mut RawSeat<V>,
    node: &Node<V>,
    count: u64,
)
    requires size { IsSized board.now.table_id }
    requires table { raw.old.table_id ≡ board.now.table_id }
    requires inside { IsInside raw.old.me }
    requires count { count ≡ length raw.old.me.0.seen }
    requires node { IsGrown (node_at board.now.key.value raw.old.me.0.seen) node.now }
    ensures table { raw.new.table_id ≡ raw.old.table_id }
    ensures seat { raw.new.me ≡ inside_at raw.old.me.0 node.now.history (mine_with raw.old.me.0 node.now.history) }
{
    if node.changes() as u64 > count {
        raise::<V, Brand>(board, raw, node);
    }
}

/// The same as `leave`, after a call that may have changed the node once: then the count is raised first.
pub fn leave_changed<V: Signer + Drop>(
    board: &SharedBoard<V>,
    raw: &mut RawSeat<V>,
    node: Node<V>,
    count: u64,
)
    requires size { IsSized board.now.table_id }
    requires table { raw.old.table_id ≡ board.now.table_id }
    requires inside { IsInside raw.old.me }
    requires count { count ≡ length raw.old.me.0.seen }
    requires node { IsGrown (node_at board.now.key.value raw.old.me.0.seen) node }
    ensures table { raw.new.table_id ≡ raw.old.table_id }
    ensures seat { raw.new.me ≡ outside_at raw.old.me.0 node.history (mine_with raw.old.me.0 node.history) }
    ensures node { IsNode V.accepts node }
{
    node.is_node();
    raise_if_changed(board, raw, &node, count);
    leave(board, raw, node);
}
