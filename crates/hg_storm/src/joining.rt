// The threads, and their joins.
ghost use Rattle.std.specs.Prelude.{◌≡◌, ◌<◌, ◌≤◌, All, IfOk, Ok, OnOk, Some, get_or, length, map};
ghost use Rattle.hg_model.specs.Shares.{whole};
ghost use Rattle.hg_life.specs.Signing.{accepts_by};
ghost use Rattle.hg_board.specs.Seats.{IsOf};
ghost use Rattle.hg_board.specs.Crews.{MarksAll};
ghost use Rattle.hg_crowd.specs.Workers.{Worked};
ghost use Rattle.hg_storm.specs.Drawing.{IsCircle, IsDrawing, place_in};
ghost use Rattle.hg_storm.specs.Turning.{GoesOn, Stands};
ghost use Rattle.hg_storm.specs.Threads.{AllCome, ComesOf, IsDoneJob, MayRun};

use crate::desk::{Desk, Job};
use crate::drawing::place_in;
use crate::plan::Plan;
use crate::turning::take_turns;
use hg_board::{Crew, Seat, Shared};
use hg_io::Gate;
use hg_mail::Mailbox;
use hg_model::{Memory, Share};
use hg_sign::SharedTable;
use std::alloc::Global;
use std::sync::Wait;
use std::thread::{Threads, join, map_vec};

/// What a crew does beside the turns of a member.
fn work<C: Crew, R: Wait>(
    rt: &R,
    alloc: Global,
    shared: &Shared<SharedTable>,
    mut seat: Seat<SharedTable>,
    crew: &C,
    turns: u32,
) -> (Seat<SharedTable>, Result<(), Memory>)
    requires { IsOf shared.now seat }
    ensures worked { Worked seat result.0 }
    ensures marked { OnOk result.1 (0 < turns → MarksAll shared.now whole seat result.0) }
{
    match crew.work(rt, alloc, shared, &mut seat, Share::new(0, 1), turns) {
        Ok(_) => (seat, Ok(())),
        Err(Memory) => (seat, Err(Memory)),
    }
}

/// The turns of a member, with a crew beside them. Without a node it takes none.
fn take_beside<C: Crew + Sync, G: Gate + Sync, R: Threads + Wait + Sync>(
    rt: &R,
    alloc: Global,
    mailboxes: &[Mailbox],
    places: &[Shared<SharedTable>],
    job: Job,
    plan: &Plan,
    crew: &C,
    gate: &G,
) -> Result<Job, Memory>
    requires run { MayRun mailboxes.now places.now plan.now job }
    requires circle { IsCircle (length mailboxes.now) plan.now }
    ensures { (p : _) → ComesOf plan.now mailboxes.now (get_or places.now job.desk.me p) job result }
{
    let Some(place) = place_in(plan.circle.as_slice(), job.desk.me) else {
        return Ok(job);
    };
    let shared = &places[job.desk.me as usize];
    let Job { desk, seat } = job;
    let (ended, (seat, done)) = join(
        rt,
        move || -> Result<Desk, Memory>
            requires stands { Stands plan.now place mailboxes.now shared.now 0 0 desk }
            requires draws { IsDrawing plan.now desk.me 0 desk.draws }
            requires place { place < length plan.now.circle.items }
            requires circle { IsCircle (length mailboxes.now) plan.now }
            ensures on { IfOk result (GoesOn desk) }
            ensures stands { IfOk result
                (Stands plan.entry.now place mailboxes.entry.now shared.entry.now plan.entry.now.turns plan.entry.now.turns) }
        { take_turns(rt, alloc, mailboxes, shared, desk, plan, place, gate) },
        move || -> (Seat<SharedTable>, Result<(), Memory>)
            requires { IsOf shared.now seat }
            ensures worked { Worked seat result.0 }
            ensures marked { OnOk result.1 (0 < plan.entry.now.turns → MarksAll shared.entry.now whole seat result.0) }
        { work(rt, alloc, shared, seat, crew, plan.turns) },
    );
    let desk = ended?;
    done?;
    Ok(Job { desk, seat })
}

/// Each member's turns in a thread of their own, beside all others.
pub(crate) fn take_all_turns<C: Crew + Sync, G: Gate + Sync, R: Threads + Wait + Sync>(
    rt: &R,
    alloc: Global,
    mailboxes: &[Mailbox],
    places: &[Shared<SharedTable>],
    jobs: Vec<Job>,
    plan: &Plan,
    crew: &C,
    gate: &G,
) -> Result<Vec<Result<Job, Memory>>, Memory>
    requires run { All (MayRun mailboxes.now places.now plan.now) jobs.items }
    requires circle { IsCircle (length mailboxes.now) plan.now }
    ensures { IfOk result (λ ended. AllCome plan.now mailboxes.now places.now jobs.items ended.items) }
{
    let ended = map_vec(
        rt,
        jobs,
        &|job: Job| -> Result<Job, Memory>
            requires run { MayRun mailboxes.now places.now plan.now job }
            requires circle { IsCircle (length mailboxes.now) plan.now }
            ensures { (p : _) → ComesOf plan.entry.now mailboxes.entry.now (get_or places.entry.now job.desk.me p) job result }
        { take_beside(rt, alloc, mailboxes, places, job, plan, crew, gate) },
    )?;
    Ok(ended)
}

/// What came back of each thread, unless one had no memory.
pub(crate) fn all_of(alloc: Global, ended: Vec<Result<Job, Memory>>) -> Result<Vec<Job>, Memory>
    ensures { IfOk result (λ jobs. map Ok jobs.items ≡ ended.items) }
{
    let mut jobs = Vec::new(alloc);
    'each: for one in ended {
        let job = one?;
        jobs.push(job)?;
    }
    Ok(jobs)
}
