use hg_check::are_equal;
use hg_life::Members;
use hg_model::Memory;
use hg_node::Node;
use hg_plain::PlainWhole;
use hg_proof::{Checked, certificate, check, empty_graph};
use hg_sign::MacTable;
use std::alloc::Global;

/// Whether the certificate of the node's order shows the order that the plain program tells.
pub fn is_proved(
    alloc: Global,
    members: &Members,
    keys: &MacTable,
    node: &Node<&MacTable>,
    whole: &PlainWhole,
) -> Result<bool, Memory> {
    let bytes = certificate(alloc, node)?;
    let mut graph = empty_graph(alloc, members)?;
    match check(alloc, keys, &mut graph, bytes.as_slice())? {
        Checked::Yes(shown) => Ok(are_equal(shown.order(), whole.order.as_slice())),
        Checked::No(_) => Ok(false),
    }
}
