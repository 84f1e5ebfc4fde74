//! Fame: the decision on a witness, and those on a share of all witnesses.
//! The layer above uses `elect_open` for given witnesses, and `elect_first` for such in the first rows of a prefix, with the
//! votes of the whole one. `elect_share` elects all witnesses of a share, `elect_unmarked` those without a mark, and `elect`
//! and `elect_within` one witness.
//! An election opens rounds one by one and ends at the first that decides; it takes no memory.
//!
//! From `found_in` of `hg_node`:
//!
//! ```text
//! let places = open_places(alloc, graph, kept, votes, share, len)?;
//! elect_first(alloc, graph, votes, share, len, places.as_slice())
//! ```
#![tactic(auto, using(hg_model::proofs::StandingLaws::standings_known, hg_model::proofs::LinkLaws::link_lengths))]

mod electing;
mod sharing;

pub use electing::{elect, elect_within};
pub use sharing::{elect_first, elect_open, elect_share, elect_unmarked};
