//! What a node has published of its graph: the marks of fame, the closed rounds and the kept order, which only grows.
//! The layer above uses `Kept`, which a row and a publish leave as the definitions have it.
//! A publish costs what the rounds cost that it closes: no step goes back to a settled round. Where ancestors are counted
//! and no member has a fork, what a round receives is found in time of its witnesses, the members and the rows received,
//! however many rows wait on; after a fork each round goes over all rows that wait.
//!
//! From `add` and then `publish` of the `Chronicle` of `hg_node`, whose `kept` is a `Kept`, shortened:
//!
//! ```text
//! self.kept.reserve()?;
//! self.graph.push(event, parents);
//! self.kept.add(&self.graph);
//!
//! let count = self.kept.publish(&self.graph, found);
//! self.ledger.pay(&self.graph, self.kept.order());
//! ```
#![tactic(auto)]

mod closing;
mod kept;
mod marking;
mod pending;
mod walking;

pub use kept::Kept;
