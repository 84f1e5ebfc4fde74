//! A gossip script played over the members' nodes, each line some steps of a run; with workers it is played in batches.
//! The layer above uses `play`, whose answer is all that the script prints, as the definitions say it, and whose run is
//! safe and its blocks agree (premises: `IsSafe` of `hg_runs`); and `summary`, which tells of its last blocks alone, and keeps
//! neither lines nor what they print.
//!
//! From `run_script` of `hg_top`:
//!
//! ```text
//! let voters = Voters::new(gate);
//! match play(rt, alloc, members, lines.as_slice(), workers, &voters, gate) {
//!     Ok(outcome) => status_of(text_of(&outcome, out)),
//!     Err(Memory) => Status::Memory,
//! }
//! ```
#![tactic(auto)]

mod band;
mod batch;
mod blocks;
mod game;
mod gossip;
mod handing;
mod labels;
mod laws;
mod lines;
mod nodes;
mod outcomes;
mod playing;
mod printing;
mod shared;
mod summaries;
mod taking;
mod tape;
mod through;

pub use hg_seat::Seated;
pub use laws::{lines_are_steps, lines_need_rows_alone, steps_need_rows_alone};
pub use outcomes::{block_of, outcome_of};
pub use playing::{play, play_world, summary};
pub use summaries::summary_of;
