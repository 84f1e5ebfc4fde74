//! Members and the lines of a script, made from a number, for a large run without files.
//! The layer above uses `generate`, whose lines are made as they are taken; together they are those of the definition of the
//! same name in `specs/Made.antt`, and lawful for its members. Drawn are the members of the syncs and their transfers, and
//! nothing else. Who draws more in the same way uses `Draws`, and `peer_of` for another member than one.
//!
//! From `make` of `hg_top`:
//!
//! ```text
//! let (list, mut lines) = match generate(alloc, seed, members, lines) {
//!     Ok(made) => made,
//!     Err(Memory) => return Status::Memory,
//! };
//! let voters = Voters::new(gate);
//! match summary(rt, alloc, &list, &mut lines, workers, &voters, gate) {
//!     Ok((summary, world)) => {
//!         let status = status_of(summary_of(&summary, out));
//!         forget(world);
//!         status
//!     }
//!     Err(Memory) => Status::Memory,
//! }
//! ```
#![tactic(auto)]

mod draws;
mod lines;
mod making;
mod members;

pub use draws::Draws;
pub use lines::{MadeLines, peer_of};
pub use making::generate;
