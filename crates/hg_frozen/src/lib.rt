//! The first rows of a graph as one value, with what they see of each other and their rounds: a frozen prefix.
//! The layer above uses `Frozen` as a `Prefix` of `hg_model` that a thread can take along; it tells besides how many of
//! its rows stand in sealed blocks. Its rows are events that other graphs share, in blocks that other prefixes share. It takes no memory of its own; each call is
//! the sight's, the table's, or one look at a row.
//!
//! From `prefix` of the `EventGraph` of `hg_graph`:
//!
//! ```text
//! pub fn prefix(&self, len: usize) -> Result<FrozenGraph, Memory>
//!     requires { len ≤ length self.now.graph.rows }
//!     ensures graph { IfOk result (λ frozen. frozen.graph ≡ first_graph self.now.graph len) }
//!     ensures sealed { IfOk result (λ frozen. frozen.sealed ≡ (len - 1) / 64) }
//! {
//!     let (blocks, tail) = self.store.prefix(len)?.into_parts();
//!     Ok(Frozen::of(
//!         blocks, tail, self.sight.prefix(len)?, self.rounds.prefix(len)?, self.coin,
//!     ))
//! }
//! ```
#![tactic(auto)]

mod frozen;
mod shared;

pub use frozen::Frozen;
pub use shared::{RowBlock, RowTail, SharedEvent};
