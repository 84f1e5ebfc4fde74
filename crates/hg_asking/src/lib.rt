//! The reading end of a node that a host drives: lines from a source, however it is cut, and the request that a line is. What a
//! line can ask stands in `hg_service`.
//! The layer above uses a `LineReader`, which finds `lines_in` of what was read, keeps one line of at most 1,048,576 bytes and
//! drops a longer one, and `request_of`, which is the definition of that name.
//!
//! From `request_of` of `hg_asking`:
//!
//! ```text
//! let words = all_words(alloc, line)?;
//! match words.as_slice() {
//!     [] => Err(Stop::Fault(LineFault::Script(Why::Word))),
//!     [verb, words @ ..] => asked_by(alloc, members, verb, words),
//! }
//! ```
#![tactic(auto)]

mod front;
mod piece;
mod reader;
mod request;
mod words;

pub use reader::{Heard, LineReader};
pub use request::request_of;
