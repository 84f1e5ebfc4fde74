//! What a node answers to a host program. `specs/Answering.antt` says it of each request, `specs/Serving.antt` of all lines that
//! are heard, and `specs/Steps.antt` over which nodes that leads.
//! The layer above uses the calls below, each of which tells one thing of a node that does not change. What would need a walk
//! over all rows is noted as they come: after a change `follow` looks at the new rows and at the new entries of the order alone.
//!
//! From `waiting` of `hg_answering`:
//!
//! ```text
//! fn waiting<V: Signer>(members: &Members, node: &Node<V>, notes: &Notes) -> u64
//!     requires { AreNoted members.now node.now notes.now }
//!     ensures { result ≡ waiting (node_rows node.now) (kept_of node.now) }
//! {
//!     notes.rows.payloads().saturating_sub(notes.order.payloads)
//! }
//! ```
#![tactic(auto)]

mod beyond_rows;
mod following;
mod making;
mod notes;
mod order_notes;
mod ordering;
mod row_notes;
mod telling;
mod told;

pub use beyond_rows::beyond;
pub use following::follow;
pub use making::next_other;
pub use notes::Notes;
pub use order_notes::OrderNotes;
pub use ordering::order;
pub use row_notes::RowNotes;
pub use telling::{balances, events, heads, proof, state};
