//! A shared node by hand: its two seats are those of one thread, one after the other.

ghost use Rattle.std.specs.Prelude.{◌≡◌};
ghost use Rattle.hg_board.specs.Seats.{IsOf};

use crate::players::Player;
use hg_board::{Seat, Shared};
use hg_life::MakeAnswer;
use hg_model::{Memory, Row, Sight};
use hg_node::Node;
use hg_sign::MacTable;
use std::alloc::Global;
use std::sync::Wait;

/// Whether the node makes its first event, and its graph then has the one row.
fn makes_one<R: Wait>(
    rt: &R,
    shared: &Shared<MacTable>,
    seat: &mut Seat<MacTable>,
) -> Result<bool, Memory>
    requires { IsOf shared.now seat.old }
    ensures of { IsOf shared.now seat.new }
    ensures parts { seat.new.parts ≡ seat.old.parts }
{
    let made = shared.make(rt, seat, &[], 1, b"")?;
    let frozen = shared.freeze(rt, seat)?;
    Ok(made == MakeAnswer::Made(0) && frozen.rows() == 1)
}

/// Whether the names that are held are that of the row.
fn tells_name<R: Wait>(
    rt: &R,
    alloc: Global,
    shared: &Shared<MacTable>,
    seat: &mut Seat<MacTable>,
    row: &Row,
) -> Result<bool, Memory>
    requires { IsOf shared.now seat.old }
    ensures of { IsOf shared.now seat.new }
    ensures parts { seat.new.parts ≡ seat.old.parts }
{
    let names = shared.held(rt, alloc, seat)?;
    Ok(names.as_slice() == [row.name].as_slice())
}

/// Whether one that has nothing lacks just these bytes.
fn tells_bytes<R: Wait>(
    rt: &R,
    alloc: Global,
    shared: &Shared<MacTable>,
    seat: &mut Seat<MacTable>,
    bytes: &[u8],
) -> Result<bool, Memory>
    requires { IsOf shared.now seat.old }
    ensures of { IsOf shared.now seat.new }
    ensures parts { seat.new.parts ≡ seat.old.parts }
{
    let parcel = shared.missing(rt, alloc, seat, &[])?;
    Ok(match parcel.rows.as_slice() {
        [first] => first.as_slice() == bytes,
        _ => false,
    })
}

/// Whether nothing is ordered.
fn tells_no_order<R: Wait>(
    rt: &R,
    alloc: Global,
    shared: &Shared<MacTable>,
    seat: &mut Seat<MacTable>,
) -> Result<bool, Memory>
    requires { IsOf shared.now seat.old }
    ensures of { IsOf shared.now seat.new }
    ensures parts { seat.new.parts ≡ seat.old.parts }
{
    let order = shared.kept_copy(rt, alloc, seat)?;
    Ok(order.is_empty())
}

/// Whether what is read through the seat is what a node that was alone has, which made its first event.
fn tells_one<R: Wait>(
    rt: &R,
    alloc: Global,
    shared: &Shared<MacTable>,
    seat: &mut Seat<MacTable>,
    alone: &Node<MacTable>,
) -> Result<bool, Memory>
    requires { IsOf shared.now seat.old }
    ensures of { IsOf shared.now seat.new }
    ensures parts { seat.new.parts ≡ seat.old.parts }
{
    if alone.rows() != 1 {
        return Ok(false);
    }
    let has_name = tells_name(rt, alloc, shared, seat, alone.row(0))?;
    let has_bytes = tells_bytes(rt, alloc, shared, seat, alone.bytes(0))?;
    let has_no_order = tells_no_order(rt, alloc, shared, seat)?;
    Ok(has_name && has_bytes && has_no_order)
}

/// Whether the node has one row in the end, as the one that was alone, and its seats told what they must.
pub fn is_as_by_hand<R: Wait>(
    rt: &R,
    alloc: Global,
    node: Node<MacTable>,
    alone: &Node<MacTable>,
) -> Result<bool, Memory> {
    let Ok((shared, mut first)) = Shared::start(alloc, node) else {
        return Err(Memory);
    };
    let mut second = shared.split(&mut first);
    let makes = makes_one(rt, &shared, &mut first);
    shared.absorb(&mut second, first);
    let tells = tells_one(rt, alloc, &shared, &mut second, alone);
    let player = Player {
        node: shared.finish(rt, second),
    };
    Ok(makes? && tells? && player.node.rows() == 1)
}
