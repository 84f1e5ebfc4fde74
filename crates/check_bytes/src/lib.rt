//! Tests of public calls of the crates that read and write bytes, with values from outside: events, names, signatures,
//! members and transfers, lines of a script, requests, and the text of a report.
//! They stand above these crates so that their code is proved once; a crate with tests of its own is proved twice.
//! No node is owned here, so that no end of one is proved here either.
//! There is nothing here but tests.
//!
//! `rt ci check_bytes` proves and runs them, and then says:
//!
//! ```text
//! rt: check_bytes: its tests passed
//! ```
#![tactic(auto)]

#[cfg(test)]
mod events;
#[cfg(test)]
mod formats;
#[cfg(test)]
mod fronts;
#[cfg(test)]
mod matching;
#[cfg(test)]
mod members;
#[cfg(test)]
mod names;
#[cfg(test)]
mod paying;
#[cfg(test)]
mod reporting;
#[cfg(test)]
mod script;
#[cfg(test)]
mod several;
#[cfg(test)]
mod signing;
#[cfg(test)]
mod sources;
#[cfg(test)]
mod stopping;
#[cfg(test)]
mod telling;
#[cfg(test)]
mod wire;
