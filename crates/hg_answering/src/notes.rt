use crate::order_notes::OrderNotes;
use crate::row_notes::RowNotes;

/// What is noted of a node.
#[derive(Debug, Drop)]
pub struct Notes {
    /// The payload that binds a member's first event to the node's members.
    pub bound: [u8; 52],
    pub rows: RowNotes,
    pub order: OrderNotes,
}
