//! The report's procedures computed whole from a list of rows, in time by the cube of the rows: the yardstick for every
//! faster form. What the rows see of each other, their rounds and what is closed stand in tables of `hg_plain_graph`; here
//! ballots are counted and weighed as there, by `hg_votes`, and the order is made. The layer above uses `plain_whole`,
//! which is the definition, and `PlainPrefix`, a graph with its tables, for what takes any `Prefix`.
//!
//! From `whole_of` of `check_graphs`:
//!
//! ```text
//! pub fn whole_of(alloc: Global, node: &Node<&MacTable>) -> Result<PlainWhole, Memory>
//!     ensures order { IfOk result (λ whole. whole.order ≡ order_of node.now.start.members node.now.start.coin (node_rows node.now)) }
//!     ensures closed { IfOk result (λ whole. whole.state.closed ≡ closed_of node.now.start.members node.now.start.coin (node_rows node.now)) }
//! {
//!     let rows = rows_of(alloc, node)?;
//!     let stakes = stakes_of(alloc, node)?;
//!     let graph = node.graph();
//!     is_of_graph(graph);
//!     plain_whole(alloc, &rows, &stakes, graph.coin())
//! }
//! ```
#![tactic(auto)]

mod fame;
mod order;
mod plain;
mod prefix;
mod received;
mod votes;

pub use hg_plain_graph::{PlainSight, plain_forkers};
pub use plain::{PlainState, PlainWhole, plain_whole};
pub use prefix::PlainPrefix;
