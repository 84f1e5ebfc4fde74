//! Plays stored cases: for each, words and files, and what the program must write and end with.
//! Each is run through `hashgraph` of hg_top over a shelf, a disk and two sinks in memory, and compared byte for byte
//! (`difference` of hg_check). Where a case does not differ, the program may come to what is stored (`play_case`).
//!
//! Then it runs the program beside workers at gates where a worker and the lines, or two workers, wait for each other.
//! So it ends with no wait at its limit only where they work beside each other, and a worker decides without the turn.
//! Another gate notes each point that workers and the lines pass. It tells how many runs there were, and how many of
//! them waited in vain, passed other points or wrote another report.
//!
//! `rt ci check_cases` proves it and runs it in its `data/`; it prints (`stdout`), N being the number of stored cases:
//!
//! ```text
//! N cases, 0 differ
//! 6 runs at gates, 0 differ
//! ```
#![tactic(auto)]

ghost use Rattle.std.specs.Prelude.{◌≡◌, IfOk};
ghost use Rattle.hg_io.specs.FilesOf.{files_of};
ghost use Rattle.hg_check.specs.Outcomes.{AreSame};
ghost use Rattle.check_cases.specs.Runs.{MayComeTo};

mod case;
mod gates;
mod meeting;
mod noted;
mod pack;
mod playing;
mod printing;
mod running;

use crate::case::{Case, read_case};
use crate::meeting::run_all;
use crate::pack::Pack;
use crate::playing::play;
use crate::printing::print_difference;
use hg_check::{Outcome, Score, Trouble, difference, exit};
use hg_io::NoGate;
use std::fs;
use std::process::ExitCode;
use std::rt::Files;
use std::sync::Wait;
use std::thread::Threads;

/// The packed cases, which lie where the program runs.
const PACKS: [&str; 12] = [
    "base.cases",
    "first-path.cases",
    "further.cases",
    "made.cases",
    "multi.cases",
    "proof.cases",
    "stage-a.cases",
    "stake.cases",
    "storm.cases",
    "transfers.cases",
    "wire.cases",
    "workers.cases",
];

/// Counts a case, and tells how it differs, if it does.
fn counted<R: AllocGlobal + Print>(
    rt: &R,
    name: &str,
    wanted: &Outcome<'_>,
    got: &Outcome<'_>,
    score: Score,
) -> Result<Score, Trouble>
    ensures none { IfOk result (λ t. t.differ ≡ 0 → score.differ ≡ 0) }
    ensures same { IfOk result (λ t. t.differ ≡ 0 → AreSame wanted.now got.now) }
{
    match difference(wanted, got) {
        None => Ok(score.with(true)),
        Some(part) => {
            print_difference(rt, name, part, wanted, got)?;
            Ok(score.with(false))
        }
    }
}

/// Plays a case, and counts it.
#[tactic(auto, using(crate::proofs::RunLaws::came))]
fn play_case<R: AllocGlobal + Print + Threads + Wait + Sync>(
    rt: &R,
    case: Case<'_>,
    score: Score,
) -> Result<Score, Trouble>
    ensures none { IfOk result (λ t. t.differ ≡ 0 → score.differ ≡ 0) }
    ensures same { IfOk result (λ t. t.differ ≡ 0 → MayComeTo case.entry.words.items (files_of case.entry.files.items) case.entry.wanted) }
{
    let Case {
        name,
        words,
        files,
        wanted,
    } = case;
    let played = play(rt, rt.alloc(), words.as_slice(), files, &NoGate)?;
    counted(rt, name, &wanted, &played.outcome(), score)
}

/// Plays all cases of a pack, to its end.
fn play_pack<R: AllocGlobal + Print + Threads + Wait + Sync>(
    rt: &R,
    bytes: &[u8],
    score: Score,
) -> Result<Score, Trouble>
    ensures { IfOk result (λ t. t.differ ≡ 0 → score.differ ≡ 0) }
{
    let mut score = score;
    let mut pack = Pack::new(bytes);
    let count = pack.count()?;
    for played in 0..count {
        score = play_case(rt, read_case(rt.alloc(), &mut pack)?, score)?;
    }
    pack.end()?;
    Ok(score)
}

/// Plays the cases of the file of this name.
fn play_file<R: AllocGlobal + Files + Print + Threads + Wait + Sync>(
    rt: &R,
    name: &str,
    score: Score,
) -> Result<Score, Trouble>
    ensures { IfOk result (λ t. t.differ ≡ 0 → score.differ ≡ 0) }
{
    let bytes = fs::read(rt, name)?;
    play_pack(rt, bytes.as_slice(), score)
}

/// Plays all packs, and tells how many cases there are and how many of them differ.
fn play_cases<R: AllocGlobal + Files + Print + Eprint + Threads + Wait + Sync>(
    rt: &R,
) -> Result<Score, Trouble> {
    let mut score = Score::new();
    for name in PACKS {
        score = match play_file(rt, name, score) {
            Ok(score) => score,
            Err(trouble) => {
                eprintln!(rt; "{name}: {}", trouble.text())?;
                return Err(trouble);
            }
        };
    }
    score.print(rt, "cases")?;
    Ok(score)
}

/// Plays the cases and the runs at gates, of which each counts as one that differs if something in it does.
fn play_all<R: AllocGlobal + Files + Print + Eprint + Threads + Wait + Sync>(
    rt: &R,
) -> Result<Score, Trouble> {
    let cases = play_cases(rt)?;
    let runs = run_all(rt)?;
    Ok(Score::new().with(cases.differ == 0).with(runs.differ == 0))
}

fn main(rt: HostRuntime) -> ExitCode {
    exit(play_all(&rt))
}
