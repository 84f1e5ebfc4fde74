ghost use Rattle.std.specs.Prelude.{◌≡◌, ◌<◌, IfOk, length};
ghost use Rattle.hg_model.specs.Order.{named_in};
ghost use Rattle.hg_life.specs.NodeView.{node_rows};
ghost use Rattle.hg_world.specs.World.{IsMemberOf, node_at};
ghost use Rattle.check_graphs.specs.Orders.{kept_order, orders_in};

use hg_check::{Order, Ordered};
use hg_model::{Items, Member, Memory, Placed};
use hg_node::Node;
use hg_sign::SharedTable;
use hg_world::World;
use std::alloc::Global;

/// A placed row of the node, by its name.
#[tactic(auto, unfolding(hg_model::specs::Graph::name_at))]
fn named(node: &Node<SharedTable>, placed: &Placed) -> Ordered
    requires { placed.now.place < length (node_rows node.now) }
    ensures { result ≡ named_in (node_rows node.now) placed.now }
{
    Ordered {
        name: node.row(placed.place).name,
        received: placed.received,
        time: placed.time,
    }
}

/// The order that the node keeps.
fn order_of(alloc: Global, node: &Node<SharedTable>) -> Result<Order, Memory>
    ensures { IfOk result (λ order. order ≡ kept_order node.now) }
{
    let kept = node.kept();
    let mut order = Vec::with_capacity(alloc, kept.len())?;
    for x in 0..kept.len() {
        order.push(named(node, &kept[x]))?;
    }
    Ok(Items::from_vec(order))
}

/// The order that a member's node keeps.
fn order_at(alloc: Global, world: &World, member: Member) -> Result<Order, Memory>
    requires { IsMemberOf world.now member }
    ensures { IfOk result (λ order. order ≡ kept_order (node_at world.now member)) }
{
    order_of(alloc, world.node(member))
}

/// The orders that the nodes keep, in the order of the members.
pub fn orders_of(alloc: Global, world: &World) -> Result<Vec<Order>, Memory>
    ensures { IfOk result (λ orders. orders.items ≡ orders_in world.now) }
{
    let mut orders = Vec::new(alloc);
    for member in 0..world.members() {
        orders.push(order_at(alloc, world, member as Member)?)?;
    }
    Ok(orders)
}
