//! Tests of what one node hands to another or to somebody without one: certificates, by public calls of `hg_certify`, and the
//! messages of gossip by files, by the commands `ask`, `serve` and `take` of `hg_top`, with values from outside.
//! They stand above these crates so that their code is proved once; a crate with tests of its own is proved twice.
//! No node is owned here, so that no end of one is proved here either.
//! There is nothing here but tests.
//!
//! `rt ci check_messages` proves and runs them, and then says:
//!
//! ```text
//! rt: check_messages: its tests passed
//! ```
#![tactic(auto)]

#[cfg(test)]
mod exchanging;
#[cfg(test)]
mod proving;
