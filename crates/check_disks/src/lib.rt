//! Tests of public calls of `hg_io` and `hg_stream`: files, disks, streams and the words of an environment, and of the command
//! `keep` of `hg_top` over a disk in memory, with values from outside.
//! They stand above these crates so that their code is proved once; a crate with tests of its own is proved twice.
//! No node is owned here, so that no end of one is proved here either.
//! There is nothing here but tests.
//!
//! `rt ci check_disks` proves and runs them, and then says:
//!
//! ```text
//! rt: check_disks: its tests passed
//! ```
#![tactic(auto)]

#[cfg(test)]
mod disk;
#[cfg(test)]
mod disks;
#[cfg(test)]
mod environment;
#[cfg(test)]
mod failing;
#[cfg(test)]
mod files;
#[cfg(test)]
mod keeping;
#[cfg(test)]
mod telling;
