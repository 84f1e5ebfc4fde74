//! Votes on the fame of a witness, round by round: a ballot for each later witness, from those of its voters.
//! The layer above uses `VoteTable` as the `Votes` of `hg_model`; the plain program uses `count_votes` and `weigh`.
//! Voters are found once, as sets of slots, which are indices among the witnesses of the round before; a table is carried
//! to a longer prefix. A ballot takes no memory: it costs a word of voters for every 64 slots where all members have one
//! stake, and else a look at each slot.
//!
//! From `elect_in` of `check_graphs`, what a share of the witnesses decides in a frozen graph:
//!
//! ```text
//! let mut votes = VoteTable::new(alloc, held)?;
//! elect_share(alloc, held, &mut votes, share)
//! ```
#![tactic(auto, using(hg_model::proofs::StandingLaws::standings_known, hg_model::proofs::LinkLaws::link_lengths))]

mod ballots;
mod holding;
mod sets;
mod shared;
mod slots;
mod table;
mod tally;
mod voters;
mod weighing;

pub use table::VoteTable;
pub use tally::{Tally, count_votes};
pub use weighing::{coin_bit, weigh};
