ghost use Rattle.std.specs.Prelude.{◌≡◌, ◌≤◌, ℕ, false};
ghost use Rattle.hg_command.specs.Asked.{made_run, run_files};
ghost use Rattle.hg_top.specs.Commands.{IsSummaryOf, KeepsNothing, asks, run_work, script_work, work_for};
ghost use Rattle.hg_top.specs.Course.{OnlyReads};
ghost use Rattle.hg_top.specs.Ends.{CompletesOnDisk, EndsOn, EndsOnDisk, ReadsNoFile};
ghost use Rattle.hg_top.specs.Printing.{IsPrintedOn, status_line};
ghost use Rattle.hg_top.specs.Writing.{WroteOn, may_write};

use crate::exchanging::{Exchange, play_node};
use crate::keeping::keep;
use crate::printing::report_status;
use crate::proving::{check, prove};
use crate::reading::{lines_from, members_from};
use crate::status::{Status, status_of};
use crate::storming::storm;
use hg_command::{MakeRequest, Request, RunRequest, read_words};
use hg_io::{Disk, Gate, Shelf, Sink};
use hg_life::Members;
use hg_made::generate;
use hg_model::Memory;
use hg_play::{play, summary};
use hg_report::{summary_of, text_of};
use hg_workers::Voters;
use std::alloc::Global;
use std::mem::forget;
use std::sync::Wait;
use std::thread::Threads;

/// What the script of this name comes to among these members, with so many workers.
fn run_script<R: Threads + Wait + Sync, F: Shelf, K: Sink, G: Gate + Sync>(
    rt: &R,
    alloc: Global,
    members: &Members,
    script: &str,
    workers: u32,
    shelf: &mut F,
    out: &mut K,
    gate: &G,
) -> Status
    requires { workers ≤ 16 }
    ensures ends { EndsOn F.Shelf K.Sink shelf.old shelf.new out.old out.new
        (script_work script.now workers members.now) result }
    ensures same { OnlyReads F.Shelf shelf.old shelf.new }
{
    let lines = match lines_from(alloc, shelf, script, members, workers) {
        Ok(lines) => lines,
        Err(stop) => return stop,
    };
    let voters = Voters::new(gate);
    match play(rt, alloc, members, lines.as_slice(), workers, &voters, gate) {
        Ok(outcome) => status_of(text_of(&outcome, out)),
        Err(Memory) => Status::Memory,
    }
}

/// What the run of a script comes to.
fn run<R: Threads + Wait + Sync, F: Shelf, K: Sink, G: Gate + Sync>(
    rt: &R,
    alloc: Global,
    asked: &RunRequest<'_>,
    shelf: &mut F,
    out: &mut K,
    gate: &G,
) -> Status
    requires { asked.now.workers ≤ 16 }
    ensures ends { EndsOn F.Shelf K.Sink shelf.old shelf.new out.old out.new (run_work (run_files asked.now)) result }
    ensures same { OnlyReads F.Shelf shelf.old shelf.new }
{
    let members = match members_from(alloc, shelf, asked.members) {
        Ok(members) => members,
        Err(status) => return status,
    };
    run_script(
        rt,
        alloc,
        &members,
        asked.script,
        asked.workers,
        shelf,
        out,
        gate,
    )
}

/// What the run of made members and lines comes to. The nodes are let be in the end, and not freed one by one: the process,
/// whose last work this is, gives all memory back at once.
fn make<R: Threads + Wait + Sync, K: Sink, G: Gate + Sync>(
    rt: &R,
    alloc: Global,
    asked: &MakeRequest,
    out: &mut K,
    gate: &G,
) -> Status
    requires some { 2 ≤ asked.now.members }
    requires few { asked.now.members ≤ 128 }
    requires workers { asked.now.workers ≤ 16 }
    ensures { WroteOn K.Sink out.old out.new (IsSummaryOf (made_run asked.now)) result }
{
    let MakeRequest {
        members,
        lines,
        seed,
        workers,
    } = *asked;
    let (list, mut lines) = match generate(alloc, seed, members, lines) {
        Ok(made) => made,
        Err(Memory) => return Status::Memory,
    };
    let voters = Voters::new(gate);
    match summary(rt, alloc, &list, &mut lines, workers, &voters, gate) {
        Ok((summary, world)) => {
            let status = status_of(summary_of(&summary, out));
            forget(world);
            status
        }
        Err(Memory) => Status::Memory,
    }
}

/// Runs the program `hashgraph` over the files of a shelf and a disk. `words` has the program's name first, and then one
/// of nine commands, which `docs/SCRIPT.md` lists with their options: `run`, `make`, `keep`, `prove`, `check`, `storm`,
/// `ask`, `serve` and `take`. What each comes to is written to `out`, and what is wrong to `err`, in one line. With
/// workers the fame of witnesses is decided by so many threads beside the one that plays the lines; what is written does
/// not change with their number, and what is said of the safety of the run is said of it without the marks that workers
/// give. They pass the points of `gate`. All that memory is taken for is done before the first byte is written to `out`.
/// Where the status is neither `Done` nor `WriteFault` nothing is done to `out`, not even an attempt that fails.
pub fn hashgraph<R: Threads + Wait + Sync, F: Shelf, D: Disk, K: Sink, E: Sink, G: Gate + Sync>(
    rt: &R,
    alloc: Global,
    words: &[String],
    shelf: &mut F,
    disk: &mut D,
    out: &mut K,
    err: &mut E,
    gate: &G,
) -> Status
    // How the work that the words ask for ended: with its text on `out`, or for which cause, with which files started,
    // and what became of the disk. No two nodes' orders part ways in the run that is written, where the dishonest
    // members have less than a third of the stake and names do not collide.
    ensures ends { EndsOnDisk F.Shelf K.Sink D.Disk shelf.old shelf.new out.old out.new disk.old disk.new
        (work_for words.now) result }
    // That it must end with its text, or with the status of what is refused, if nothing fails and memory does not run out.
    ensures complete { CompletesOnDisk F.Shelf K.Sink D.Disk shelf.old shelf.new out.old out.new disk.old disk.new
        (work_for words.now) result }
    ensures unwritten { may_write result ≡ false → out.new ≡ out.old }
    ensures unread { ReadsNoFile (work_for words.now) → shelf.new ≡ shelf.old }
    ensures unkept { KeepsNothing (asks words.now) → disk.new ≡ disk.old }
    ensures matches { IsPrintedOn E.Sink err.old err.new (status_line result) }
    ensures same { OnlyReads F.Shelf shelf.old shelf.new }
{
    let status = match read_words(alloc, words) {
        Ok(Some(Request::Run(asked))) => run(rt, alloc, &asked, shelf, out, gate),
        Ok(Some(Request::Make(asked))) => make(rt, alloc, &asked, out, gate),
        Ok(Some(Request::Keep(asked))) => keep(alloc, &asked, shelf, disk, out),
        Ok(Some(Request::Prove(asked))) => prove(alloc, &asked, shelf, out),
        Ok(Some(Request::Check(asked))) => check(alloc, &asked, shelf, out),
        Ok(Some(Request::Storm(asked))) => storm(rt, alloc, &asked, shelf, out, gate),
        Ok(Some(Request::Ask(asked))) => play_node(alloc, &asked, Exchange::Ask, shelf, out),
        Ok(Some(Request::Serve(asked, have))) => {
            play_node(alloc, &asked, Exchange::Serve(have), shelf, out)
        }
        Ok(Some(Request::Take(asked, rows))) => {
            play_node(alloc, &asked, Exchange::Take(rows), shelf, out)
        }
        Ok(None) => Status::Usage,
        Err(Memory) => Status::Memory,
    };
    report_status(err, status);
    status
}
