//! A node between threads: callers share a `Shared`, and each has a `Seat`, what it has seen of the node's one history.
//! The layers above use that each call, but for `start`, `split` and `absorb`, waits for its turn, and answers as the
//! node does at what its seat then has seen, in the words of `hg_gossip`'s holders; and `Crew`, which workers keep to.
//! Events are handed over and taken as they stand (`events_from`, `take_events`): none is read or checked in a turn.
//!
//! From `shared_beside` of `check_threads`, shortened:
//!
//! ```text
//! let Ok((shared, mut seat)) = Shared::start(alloc, node) else { return Err(Memory); };
//! let other = shared.split(&mut seat);
//! let top = &shared;
//! let ((mut seat, replayed), (other, marked)) = join(
//!     rt,
//!     move || ... { replay(rt, top, seat, alone, gate) },
//!     move || ... { vote(rt, alloc, top, other, gate) },
//! );
//! shared.absorb(&mut seat, other);
//! let player = Player { node: shared.finish(rt, seat) };
//! ```
#![tactic(auto)]

mod copies;
mod crew;
mod laws;
mod reading;
mod rule;
mod seat;
mod shared;
mod taking;
mod turn;
mod view;

pub use copies::EventParcel;
pub use crew::Crew;
pub use laws::{
    shared_makes_add_one, shared_publishes_add_one, shared_puts_add_one, turns_take_each,
};
pub use seat::Seat;
pub use shared::Shared;
