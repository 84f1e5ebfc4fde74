//! What the rows of a graph see of each other, by a row of bits for each: its ancestors, found by whole words.
//! A layer above uses `BitSight` as a graph that grows (`Growing` of `hg_model`); another sight takes the links from here,
//! and the laws of forks. A row takes the memory of its bits and of one mask of members.
//!
//! From `alike` in the tests of `check_sights`, which holds two sights to each other:
//!
//! ```text
//! sight.ancestor(x, y) == bits.ancestor(x, y)
//!     && sight.sees(x, y) == bits.sees(x, y)
//!     && sight.strongly_sees(x, y) == bits.strongly_sees(x, y)
//! ```
#![tactic(auto)]

mod ancestry;
mod forks;
mod links;
mod seeing;
mod sight;

pub use links::PlacedLink;
pub use sight::BitSight;
