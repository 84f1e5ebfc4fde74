//! The order of one round: its unique famous witnesses, what they receive, and how that is ordered.
//! The layer above uses `order_round`, which gives what the definitions order in a round, and the calls that lead to it.
//! No call takes memory but `RoundMemory::reserve`. A round is ordered by one sort. In `order_round` each received row
//! walks down one line for each witness; `order_round_within` goes over the lines of the witnesses once for all received
//! rows: where a sight counts ancestors the timers of rows run on the way, else each row is found in each line by halves.
//!
//! From `place_fresh` of `hg_plain`:
//!
//! ```text
//! fn place_fresh(p: &PlainPrefix<'_>, marks: &[Option<bool>], r: u32, fresh: &[u32], places: &mut [usize],
//!     placed: &mut [Placed])
//!     requires fresh { fresh.now ≡ received_places p.now marks.now r }
//!     requires room { member_count p.now.members ≤ length places.old }
//!     requires same { length placed.old ≡ length fresh.now }
//!     ensures { placed.new ≡ received_order p.now marks.now r }
//! {
//!     let count = unique_famous(p, marks, r, places);
//!     order_round(p, &places[..count], fresh, placed);
//! }
//! ```
#![tactic(auto)]

mod famous;
mod lane;
mod least;
mod line_rows;
mod lines;
mod memory;
mod order;
mod placing;
mod received;
mod sweep;
mod time;
mod timer;
mod white;

pub use famous::unique_famous;
pub use least::least_counts;
pub use memory::RoundMemory;
pub use order::{order_round, order_round_within};
pub use received::{received_below, received_in};
pub use time::time_of;
pub use white::white_cmp;
