//! Plays made graphs and made worlds, and tells how many of each differ from what they must be.
//!
//! A graph: a node takes and makes rows, some of them forks, and publishes fame from earlier prefixes, while the plain
//! program says what its rows must come to. Of one more graph the order was worked by hand, and is what the plain
//! program must say. `Watched` says that what is elected in an earlier prefix may be published; the comparisons say what
//! is alike. Where fame was published, the certificate of the node's order must show the plain program's. In every second
//! graph members have stakes that differ, and in three of nine rows may have up to four other-parents. In each prefix of a graph a table of votes that is carried from row to row is compared with a new one.
//!
//! A world: members of one stake each gossip and publish late, fewer than a third of them fork, and damaged bytes come. After
//! each step, of any two orders that nodes keep one must be a prefix of the other (`IsOnePrefix`), and each begin with what it
//! was. It tells how many pairs were compared.
//!
//! `rt run` in its folder proves and runs it; it prints (`stdout`):
//!
//! ```text
//! 51 graphs, 0 differ
//! 100 worlds, 186785 comparisons, 0 differ
//! ```
#![tactic(auto)]

mod agreeing;
mod carried;
mod comparing;
mod drafting;
mod forging;
mod game;
mod marks;
mod orders;
mod plain;
mod plan;
mod proved;
mod watched;
mod worked;
mod world_plan;
mod worlds;

use crate::game::play;
use crate::worked::play_worked;
use crate::worlds::play_world;
use hg_check::{Score, Trouble, exit};
use std::process::ExitCode;

/// How many graphs are made.
const GRAPHS: u32 = 50;

/// How many worlds are played.
const WORLDS: u32 = 100;

/// Plays the worked graph and all that are made, and tells how many there are and how many of them differ.
fn play_graphs<R: AllocGlobal + Print>(rt: &R) -> Result<Score, Trouble> {
    let mut graphs = Score::new().with(play_worked(rt.alloc())?);
    for number in 0..GRAPHS {
        graphs = graphs.with(play(rt.alloc(), number)?);
    }
    graphs.print(rt, "graphs")?;
    Ok(graphs)
}

/// Plays all worlds, and tells how many there are, how many pairs of orders were compared, and how many worlds differ.
fn play_worlds<R: AllocGlobal + Print>(rt: &R) -> Result<Score, Trouble> {
    let mut worlds = Score::new();
    let mut pairs = 0_u64;
    for number in 0..WORLDS {
        let played = play_world(rt.alloc(), number)?;
        pairs = pairs.saturating_add(played.compared.tried);
        worlds = worlds.with(played.is_worth && played.compared.differ == 0);
    }
    let things = format!(in rt.alloc(); "worlds, {pairs} comparisons")?;
    worlds.print(rt, things.as_str())?;
    Ok(worlds)
}

/// Plays both, of which each counts as one that differs if something in it does.
fn play_all<R: AllocGlobal + Print>(rt: &R) -> Result<Score, Trouble> {
    let graphs = play_graphs(rt)?;
    let worlds = play_worlds(rt)?;
    Ok(
        Score::new()
            .with(graphs.differ == 0)
            .with(worlds.differ == 0),
    )
}

fn main(rt: HostRuntime) -> ExitCode {
    exit(play_all(&rt))
}
