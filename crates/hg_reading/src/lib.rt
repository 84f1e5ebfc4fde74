//! A gossip script, read from bytes. The layer above uses `read_script`, which gives just the lines that the bytes are in
//! a run with so many workers, or the first line that is refused. `table.rt` has a function for each kind of line, as the
//! table of `specs/Table.antt` in `hg_script` has a definition, and `labels.rt` and `payload.rt` read words with commas. A layer
//! that reads other lines uses `all_words` and `payload_of`.
//!
//! From `lines_of` in the tests of `check_bytes`:
//!
//! ```text
//! fn lines_of(rt: &impl Abort, alloc: Global, bytes: &[u8]) -> Result<Items<Line>, Fail> {
//!     match read_script(alloc, bytes, &three_members(rt, alloc)?, 0)? {
//!         Ok(lines) => Ok(lines),
//!         Err(_) => Err("refused".into()),
//!     }
//! }
//! ```
#![tactic(auto)]

mod labels;
mod parts;
mod payload;
mod script;
mod table;
mod words;

pub use payload::payload_of;
pub use script::read_script;
pub use words::all_words;
