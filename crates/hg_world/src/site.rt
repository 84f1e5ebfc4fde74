use hg_node::Node;
use hg_sign::SharedTable;

/// A member's node, and how many rows each of its workers froze last, or 0.
#[derive(Drop)]
pub struct Site {
    pub node: Node<SharedTable>,
    pub frozen: [usize; 16],
}
