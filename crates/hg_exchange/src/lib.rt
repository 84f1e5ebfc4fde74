//! The work of the commands `ask`, `serve` and `take`: a script is played among the members, and one member's node then
//! gossips by files: it asks by a message, answers one, or takes what a peer answered.
//! The layer above uses `read_message`, the three calls, which play the script and say what was written or came of it, and
//! `write_took`, which prints that.
//!
//! From `take_message` of `hg_top`:
//!
//! ```text
//! match take(alloc, members, lines, own, &message) {
//!     Ok(took) => status_of(write_took(&took, out)),
//!     Err(Memory) => Status::Memory,
//! }
//! ```
#![tactic(auto)]

mod exchange;
mod message;
mod playing;
mod printing;

pub use exchange::{Took, ask, serve, take};
pub use message::{MessageFault, names_of, read_message};
pub use printing::write_took;
