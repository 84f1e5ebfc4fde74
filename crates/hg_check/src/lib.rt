//! What the programs of tests have in common: the score of what they tried and what differs from what it must be, dice
//! that fall the same for the same number, why they came to no end, the names of parents as a row has them, and three
//! comparisons: of what two runs of the program came to, of the orders of two nodes by names, and of those of one graph by
//! places.
//! The program above adds to a `Score`, prints it as its last line, and ends with `exit`.
//!
//! From `run_all` and `main` of `check_cases`:
//!
//! ```text
//! let runs = Score::new()
//!     .with(lines_meet(rt)?)
//!     .with(workers_meet(rt)?)
//!     .with(many_write(rt)?)
//!     .with(lines_pass(rt)?)
//!     .with(points_are_passed(rt, false)?)
//!     .with(points_are_passed(rt, true)?);
//! runs.print(rt, "runs at gates")?;
//! Ok(runs)
//!
//! exit(play_all(&rt))
//! ```
#![tactic(auto)]

mod dice;
mod ordered;
mod outcome;
mod parents;
mod placed;
mod score;
mod trouble;

pub use dice::Dice;
pub use ordered::{Order, Ordered, is_prefix};
pub use outcome::{Outcome, Part, difference};
pub use parents::parents_on;
pub use placed::are_equal;
pub use score::{Score, exit};
pub use trouble::Trouble;
