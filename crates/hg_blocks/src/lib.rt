//! Lists that grow at their end, in sealed blocks of 64 and an open tail of at most 64.
//! The layer above uses that a `Blocks` is the list of its items, and that a `prefix` shares the sealed blocks, so that it
//! costs a pointer for each block and a copy of at most 64 items. `RowBlocks` is the same of rows of numbers.
//!
//! From `reserve`, `push` and `prefix` of the `RowStore` of `hg_graph`, whose `events` are a `Blocks<SharedEvent>`, shortened:
//!
//! ```text
//! self.events.reserve()?;
//! self.events.push(SharedEvent::of(event));
//! self.events.cloned_prefix(len)
//! ```
#![tactic(auto)]

mod block;
mod blocks;
mod rows;
mod tail;

pub use block::Block;
pub use blocks::Blocks;
pub use rows::RowBlocks;
pub use tail::Tail;
