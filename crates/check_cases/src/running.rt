//! A run of the program beside workers, over files in memory.

use crate::playing::{Played, play};
use hg_check::Trouble;
use hg_io::Gate;
use hg_model::Memory;
use hg_top::Status;
use std::alloc::{AllocError, Global};
use std::sync::Wait;
use std::thread::Threads;

/// Two members.
const MEMBERS: &str =
    "coin = 10\n[[member]]\nname = \"A\"\nsecret = \"0b0b0b0b\"\nbalance = 100\n[[member]]\nname = \"B\"\nsecret = \"0c0c0c0c\"\n";

/// The words of a run with so many workers.
fn words(alloc: Global, workers: &str) -> Result<Vec<String>, AllocError> {
    let mut words = Vec::new(alloc);
    for word in [
        "hashgraph",
        "run",
        "--members",
        "members.toml",
        "--script",
        "script.txt",
        "--workers",
        workers,
    ] {
        words.push(String::from_str(alloc, word)?)?;
    }
    Ok(words)
}

/// The members' file and this script, each with its name.
fn files(alloc: Global, script: &str) -> Result<Vec<(String, Vec<u8>)>, Memory> {
    let mut files = Vec::new(alloc);
    files.push((
        String::from_str(alloc, "members.toml")?,
        Vec::from_slice(alloc, MEMBERS.as_bytes())?,
    ))?;
    files.push((
        String::from_str(alloc, "script.txt")?,
        Vec::from_slice(alloc, script.as_bytes())?,
    ))?;
    Ok(files)
}

/// A run with so many workers at this gate, which is to come to its end.
pub fn run_at<R: Threads + Wait + Sync, G: Gate + Sync>(
    rt: &R,
    alloc: Global,
    workers: &str,
    script: &str,
    gate: &G,
) -> Result<Played, Trouble> {
    let words = words(alloc, workers)?;
    let played = play(rt, alloc, words.as_slice(), files(alloc, script)?, gate)?;
    match played.status {
        Status::Done => Ok(played),
        _ => Err(Trouble::Program),
    }
}
