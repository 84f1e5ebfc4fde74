//! A node that is kept in a file: each of its changes stands there before it is answered, and a stop of the machine leaves a
//! file from which the node comes again.
//! The layers above use `Stored`: `open`, `put`, `restore`, `make` and `remark`, each over a disk that they hold, and `node`. Many
//! changes are stored at once by `put_batch`, or are staged one by one (`stage_put` and its like, which need no disk) and then
//! stored at once by `commit`: a stop leaves all of them or none.
//!
//! From `play` in the tests of `check_program`, shortened:
//!
//! ```text
//! let Ok(mut stored) = Stored::open(alloc, disk, NAME, members, 0, keys) else {
//!     ...
//! if stored.put(disk, event) != Ok(PutAnswer::Accepted(1)) {
//!     ...
//! ```
#![tactic(auto)]

mod again;
mod ahead;
mod appending;
mod batching;
mod errors;
mod filling;
mod head;
mod making;
mod opening;
mod replaying;
mod stored;
mod storing;
mod tail;

pub use errors::{OpenError, StoreError};
pub use stored::Stored;
