//! Runs beside workers at gates where a worker and the lines, or two workers, wait for each other. So a run ends with no
//! wait at its limit only where they work beside each other, and a worker decides without the turn. Another gate notes
//! each point that workers and the lines pass.

ghost use Rattle.std.specs.Prelude.{◌≡◌, ◌↔◌, IsTrue};

use crate::gates::{LinesMeet, WorkerHeld, WorkersMeet};
use crate::noted::{Noted, noted_script};
use crate::playing::Played;
use crate::running::run_at;
use hg_check::{Score, Trouble};
use hg_io::NoGate;
use std::sync::Wait;
use std::thread::Threads;

/// The script of the first three runs.
const SCRIPT: &str = "create A 1\n";

/// What each of them writes.
const REPORT: &str =
    "1 create made 0\nnode A events 1 forkers 0 round 1 closed 0 ordered 0\nbalance A 100\nbalance B 0\nnode B events 0 forkers 0 round 0 closed 0 ordered 0\nbalance A 100\nbalance B 0\n";

/// Eight lines, each on one of two nodes.
const EIGHT_LINES: &str =
    "create A 1\ncreate B 2\nsync A B 3\nsync B A 4\nsync A B 5\nsync B A 6\nsync A B 7\nsync B A 8\n";

/// What the run of these writes.
const EIGHT_LINES_REPORT: &str =
    "1 create made 0\n2 create made 0\n3 sync taken 1 refused 0 made 2\n4 sync taken 2 refused 0 made 3\n5 sync taken 1 refused 0 made 4\n6 sync taken 1 refused 0 made 5\n7 sync taken 1 refused 0 made 6\n8 sync taken 1 refused 0 made 7\nnode A events 7 forkers 0 round 3 closed 1 ordered 0\nbalance A 100\nbalance B 0\nnode B events 8 forkers 0 round 4 closed 2 ordered 4\n1 A 0 round 2 time 1 -\n2 B 0 round 2 time 2 -\n3 A 1 round 2 time 3 -\n4 B 1 round 2 time 4 -\nbalance A 100\nbalance B 0\n";

/// Whether the run has written this report.
fn has_written(run: &Played, report: &str) -> bool
    ensures { IsTrue result ↔ (run.now.out.bytes ≡ report.now) }
{
    run.out.bytes() == report.as_bytes()
}

/// Whether one worker and the lines meet.
fn lines_meet<R: AllocGlobal + Threads + Wait + Sync>(rt: &R) -> Result<bool, Trouble> {
    let gate = LinesMeet::new();
    let run = run_at(rt, rt.alloc(), "1", SCRIPT, &gate)?;
    Ok(has_written(&run, REPORT) && !gate.is_late())
}

/// Whether two workers meet.
fn workers_meet<R: AllocGlobal + Threads + Wait + Sync>(rt: &R) -> Result<bool, Trouble> {
    let gate = WorkersMeet::new();
    let run = run_at(rt, rt.alloc(), "2", SCRIPT, &gate)?;
    Ok(has_written(&run, REPORT) && !gate.is_late())
}

/// Whether sixteen workers write the same.
fn many_write<R: AllocGlobal + Threads + Wait + Sync>(rt: &R) -> Result<bool, Trouble> {
    let run = run_at(rt, rt.alloc(), "16", SCRIPT, &NoGate)?;
    Ok(has_written(&run, REPORT))
}

/// Whether all lines have their answers while the worker is held.
fn lines_pass<R: AllocGlobal + Threads + Wait + Sync>(rt: &R) -> Result<bool, Trouble> {
    let gate = WorkerHeld::new();
    let run = run_at(rt, rt.alloc(), "1", EIGHT_LINES, &gate)?;
    Ok(has_written(&run, EIGHT_LINES_REPORT) && !gate.is_late())
}

/// Whether one worker, or two, and the lines pass the points that they have to, and write what is written without
/// workers.
fn points_are_passed<R: AllocGlobal + Threads + Wait + Sync>(
    rt: &R,
    has_second: bool,
) -> Result<bool, Trouble> {
    let script = noted_script(rt.alloc())?;
    let gate = Noted::new();
    let workers = if has_second { "2" } else { "1" };
    let run = run_at(rt, rt.alloc(), workers, script.as_str(), &gate)?;
    let alone = run_at(rt, rt.alloc(), "0", script.as_str(), &NoGate)?;
    Ok(run.out.bytes() == alone.out.bytes() && gate.is_complete(has_second))
}

/// Runs the program at each gate, and tells how many runs there were and how many of them differ.
pub fn run_all<R: AllocGlobal + Print + Threads + Wait + Sync>(rt: &R) -> Result<Score, Trouble> {
    let runs = Score::new()
        .with(lines_meet(rt)?)
        .with(workers_meet(rt)?)
        .with(many_write(rt)?)
        .with(lines_pass(rt)?)
        .with(points_are_passed(rt, false)?)
        .with(points_are_passed(rt, true)?);
    runs.print(rt, "runs at gates")?;
    Ok(runs)
}
