//! Rounds and witnesses as rows come one by one: each row's are found from a table of those before it.
//! The layer above uses that a table which follows a graph row by row has the `standings_of` that graph.
//! A row asks what it strongly sees of the witnesses of one round alone: the greatest of its parents' rounds.
//!
//! From `push` of the `EventGraph` of `hg_graph`, whose `rounds` is a `RoundTable`, shortened:
//!
//! ```text
//! self.sight.extend(parents, creator);
//! let (round, witness) = place_round(&self.sight, &self.rounds, parents);
//! self.rounds.add(round, witness, self.sight.stake(creator));
//! ```
#![tactic(auto)]

mod laws;
mod place;
mod places;
mod row_round;
mod table;
mod witnesses;

pub use laws::rounds_are_found_row_by_row;
pub use place::place_round;
pub use table::RoundTable;
