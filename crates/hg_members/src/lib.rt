//! The member file: who the members are, read from TOML.
//! The layer above uses `read_members`, which gives the members, or the first fault in the order of the checks.
//! What TOML is, is what the kit's `toml` takes.
//!
//! From `members_are_read` in the tests of `check_bytes`, shortened:
//!
//! ```text
//! let Ok(members) = read_members(rt.alloc(), text.as_bytes())? else {
//!     return Err("refused".into());
//! };
//! assert_eq!(rt; members.coin(), 100);
//! assert_eq!(rt; members.count(), 2);
//! let first = &members.entries()[0];
//! assert_eq!(rt; first.name.as_slice(), b"A".as_slice());
//! ```
#![tactic(auto)]

mod entry;
mod fault;
mod file;

pub use fault::MemberFault;
pub use file::read_members;
