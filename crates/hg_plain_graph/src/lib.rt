//! What the rows of a graph see of each other, their rounds, who has a fork and what marks close, each relation filled into
//! a table once, in time by the cube of the rows: the plain half of `hg_plain`, to which it gives `PlainSight`, the tables
//! of a list of rows, and `closed_rounds`. `plain_forkers` needs no table.
//!
//! From `elect` of `hg_plain`:
//!
//! ```text
//! let sight = PlainSight::new(alloc, rows, stakes)?;
//! let prefix = PlainPrefix::new(alloc, rows, sight, coin)?;
//! let marks = marks(alloc, &prefix)?;
//! let closed = closed_rounds(alloc, prefix.tables(), &marks)?;
//! ```
#![tactic(auto)]

mod ancestry;
mod closed;
mod forks;
mod links;
mod rounds;
mod seeing;
mod sight;
mod strongly_seeing;
mod tables;

pub use closed::{closed_rounds, is_witness_of_round, last_closed};
pub use forks::plain_forkers;
pub use sight::PlainSight;
