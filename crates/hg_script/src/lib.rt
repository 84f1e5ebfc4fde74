//! The gossip script: what its lines do, and what a word of a line can be, in `argument.rt`. `specs/Table.antt` has the
//! table of lines, and `lines_of` in `specs/Script.antt` says what bytes are a script. The layer above uses `Line` and its
//! parts, and `ScriptFault`; `hg_reading` reads lines from bytes, by the calls of `argument` below the lines of `Above`.
//!
//! From `give` of `hg_reading`, shortened:
//!
//! ```text
//! fn give<'a>(members: &Members, above: &Above<'_>, x: &[u8], l: &[u8]) -> Result<Found<'a>, Why>
//! {
//!     let member = node_of(members, x)?;
//!     let label = label_of(above, l)?;
//!     Ok(gossip(Gossip::Give { member, label }))
//! }
//! ```
#![tactic(auto)]

mod above;
pub mod argument;
mod fault;
mod found;
mod line;
mod lines;
mod verb;

pub use above::Above;
pub use fault::{ScriptFault, Why};
pub use found::Found;
pub use line::{Action, Gossip, Line, Part, Source};
pub use lines::{LineSource, all_lines};
pub use verb::Verb;
