//! Tests of public calls of the crates that say what rows see of each other, their rounds, their votes and their order,
//! from `hg_bits` to `hg_kept`, with values from outside.
//! They stand above these crates so that their code is proved once; a crate with tests of its own is proved twice.
//! There is nothing here but tests.
//!
//! `rt ci check_sights` proves and runs them, and then says:
//!
//! ```text
//! rt: check_sights: its tests passed
//! ```
#![tactic(auto)]

#[cfg(test)]
mod ancestry;
#[cfg(test)]
mod bits;
#[cfg(test)]
mod blocks;
#[cfg(test)]
mod both;
#[cfg(test)]
mod branches;
#[cfg(test)]
mod counting;
#[cfg(test)]
mod forking;
#[cfg(test)]
mod forks;
#[cfg(test)]
mod growing;
#[cfg(test)]
mod kept;
#[cfg(test)]
mod order;
#[cfg(test)]
mod rounds;
#[cfg(test)]
mod telling;
#[cfg(test)]
mod votes;
#[cfg(test)]
mod wide;
