//! Events in bytes: their one spelling, written for a maker and read for a node, which borrows and takes no memory.
//! It begins with `HGE1` where an event has at most one other-parent, and with `HGE2` where it has two to four.
//! The layers above use that `decode` is `read_event`, the row that the bytes spell or their first fault, that an
//! `Event` is a row whose bytes spell it, and that `decode_first` reads the event at the front of a stream.
//!
//! From `keeps_an_event_as_it_was_read` in the tests of `check_bytes`, shortened:
//!
//! ```text
//! let Ok(view) = decode(&bytes) else {
//!     return Err("a fault".into());
//! };
//! let event = Event::copied(rt.alloc(), &view, Sha384::digest(&bytes), &bytes)?;
//! assert_eq!(rt; event.row().time, 1);
//! assert_eq!(rt; event.bytes(), bytes.as_slice());
//! ```
#![tactic(auto)]

mod event;
mod fields;
mod laws;
mod parents;
mod read;
mod view;
mod write;

pub use event::Event;
pub use fields::PAYLOAD_LIMIT;
pub use laws::{front_events, one_spelling};
pub use parents::ParentsView;
pub use read::{body_of, decode, decode_first};
pub use view::EventView;
pub use write::{encode, encode_body};
