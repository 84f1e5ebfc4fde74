//! Gossip over streams of bytes: messages that are read right however a stream is cut, and what two nodes say to each other
//! by them. HAVE has the names of rows that one has, ROWS the events of a peer that are beyond these.
//! The layers above use that an `Ear` which is fed the pieces of a stream finds its first message and no other
//! (`hear_all`, law `messages`), that `receive` reads no byte behind it, that `ask`, `answer` and `write_message` write a
//! message or a front of it, and that after `take` each row of the peer is held or was refused (law `exchanges_hold`).
//!
//! From `listen` of `hg_wire`, which is `receive` from within, shortened:
//!
//! ```text
//! let room = ear.wants().min(PIECE);
//! let Ok(count) = source.read(&mut buf[..room]) else {
//!     return Ok(Receipt::Failed);
//! };
//! ...
//! match ear.feed(piece)? {
//!     Fed::More => at += count,
//!     Fed::Whole(message, _) => return Ok(Receipt::Got(message)),
//!     Fed::Refused(fault) => return Ok(Receipt::Wire(fault)),
//! }
//! ```
#![tactic(auto)]

mod ear;
mod exchange;
mod fields;
mod hearing;
mod laws;
mod message;
mod progress;
mod receiving;
mod sizes;
mod writing;

pub use ear::Ear;
pub use exchange::{Delivery, answer, ask, rows_of, take};
pub use laws::{exchanges_fit, exchanges_hold, hear_all, messages};
pub use message::{Fed, Message, Want, WireFault};
pub use receiving::{Receipt, receive};
pub use writing::write_message;
