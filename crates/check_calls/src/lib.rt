//! Tests of public calls of `hg_votes`, `hg_fame`, `hg_node`, `hg_gossip`, `hg_board` and `hg_world`, with values from
//! outside: those that own a node.
//! They stand above these crates so that their code is proved once; a crate with tests of its own is proved twice.
//! There is nothing here but tests.
//!
//! `rt ci check_calls` proves and runs them, and then says:
//!
//! ```text
//! rt: check_calls: its tests passed
//! ```
#![tactic(auto)]

#[cfg(test)]
mod checked;
#[cfg(test)]
mod coming;
#[cfg(test)]
mod damaged;
#[cfg(test)]
mod freezing;
#[cfg(test)]
mod full_node;
#[cfg(test)]
mod gossiping;
#[cfg(test)]
mod medians;
#[cfg(test)]
mod members;
#[cfg(test)]
mod paying;
#[cfg(test)]
mod playing;
#[cfg(test)]
mod publishing;
#[cfg(test)]
mod seats;
#[cfg(test)]
mod several;
#[cfg(test)]
mod shared;
#[cfg(test)]
mod two_members;
#[cfg(test)]
mod worlds;
