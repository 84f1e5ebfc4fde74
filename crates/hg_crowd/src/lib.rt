//! Many nodes between threads: a seat of each, workers beside each other over all of them, and the nodes again.
//! The layer above uses `Party`, the nodes with their seats as one value, which each thread makes for itself, the calls
//! that start and finish them, and `sessions_end`: where all that others did beside the calls through one seat of
//! each node are marks, the nodes have the rows that those seats have seen.
//!
//! From `play_beside` of `hg_play`, shortened:
//!
//! ```text
//! let own = party.split(alloc)?.into_seats();
//! let seats = party.into_seats();
//! let ((seats, _), (own, known, played)) = join(
//!     rt,
//!     move || ... {
//!         let party = Party::new(places, seats);
//!         let (party, done) = party.work_beside(rt, alloc, workers, crew);
//!         (party.into_seats(), done)
//!     },
//!     ...
//! );
//! let mut party = Party::new(places, seats);
//! party.absorb(Party::new(places, own));
//! let (party, done) = party.work_beside(rt, alloc, workers, crew);
//! ```
#![tactic(auto)]

mod laws;
mod party;
mod sharing;
mod splitting;
mod working;

pub use laws::sessions_end;
pub use party::Party;
pub use sharing::{finish_all, start_all};
