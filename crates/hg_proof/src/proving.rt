ghost use Rattle.std.specs.Prelude.{◌≡◌, IfOk};
ghost use Rattle.hg_proof.specs.Least.{Proves};

use crate::least::least_front;
use crate::ordering::order_in;
use crate::writing::certificate_bytes;
use hg_model::Memory;
use hg_node::Node;
use hg_sign::Signer;
use std::alloc::Global;

/// The certificate of a node's order: that of its whole graph by the graph's own fame, whatever the node has published of it,
/// with the fewest first rows that have this order. It takes an election of the first rows for each number of them that is
/// tried, some ten.
pub fn certificate<V: Signer>(alloc: Global, node: &Node<V>) -> Result<Vec<u8>, Memory>
    ensures { IfOk result (λ bytes. Proves V.accepts node.now bytes.items) }
{
    node.is_node();
    let graph = node.graph();
    // That the graph is lawful.
    graph.len();
    let order = order_in(alloc, graph)?;
    let len = least_front(alloc, graph, order.as_slice())?;
    let bytes = certificate_bytes(alloc, graph, len, order.as_slice())?;
    Ok(bytes)
}
