//! The report's text, as a function of what a run prints. Every number is decimal, every line ends with one line feed.
//! The layer above uses `text_of`, which writes `report_text` of the outcome to a sink, by pages, without memory, and
//! `summary_of`, which so writes `told_text` of a summary, a few lines for each node.
//!
//! From `run_script` of `hg_top`:
//!
//! ```text
//! match play(rt, alloc, members, lines.as_slice(), workers, &voters, gate) {
//!     Ok(outcome) => status_of(text_of(&outcome, out)),
//!     Err(Memory) => Status::Memory,
//! }
//! ```
#![tactic(auto)]

mod heads;
mod printed;
mod summary;

pub use heads::heads_of;
pub use hg_pieces::{Piece, print_pieces};
pub use printed::{text_of, write_outcome};
pub use summary::summary_of;
