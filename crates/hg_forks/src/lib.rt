//! Which members have a fork, told as rows come one by one, in constant time for each row.
//! The layer above uses that a `Watch` has the number and the stake of those members, `forkers` and `forking` of the graph that
//! it saw, and the stake also with one row more.
//! A member's rows stand in one line until a row stands on another than the last: that row and the last are a fork.
//!
//! From `would` and then `push` of the `EventGraph` of `hg_graph`, whose `watch` is a `Watch`, shortened:
//!
//! ```text
//! self.watch.would(creator, self_parent(parents))
//!
//! let creator = event.row().creator;
//! self.watch.add(creator, self_parent(parents));
//! ```
#![tactic(auto)]

mod laws;
mod line;
mod self_row;
mod watch;

pub use laws::self_links_have_forks;
pub use watch::Watch;
