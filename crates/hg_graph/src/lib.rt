//! A node's graph: its rows, each an event that other nodes may share, found by name, and what they see of each other.
//! The layer above uses that an `EventGraph` is a `Prefix` of `hg_model` that grows row by row, and keeps to `IsHeld`.
//! A row is entered once everywhere, without memory: `reserve` takes that of all parts before.
//!
//! From `add` of the `Chronicle` of `hg_node`, whose `graph` is an `EventGraph`, shortened:
//!
//! ```text
//! let place = self.graph.len();
//! self.graph.reserve()?;
//! self.kept.reserve()?;
//! self.graph.push(event, parents);
//! self.kept.add(&self.graph);
//! ```
#![tactic(auto)]

mod graph;
mod laws;
mod names;
mod store;

pub use graph::{EventGraph, FrozenGraph};
pub use laws::rows_add_links;
