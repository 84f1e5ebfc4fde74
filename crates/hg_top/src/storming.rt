ghost use Rattle.std.specs.Prelude.{◌≤◌, IfOk};
ghost use Rattle.hg_command.specs.Asked.{storm_run};
ghost use Rattle.hg_top.specs.Commands.{IsStormOutcome, storm_work};
ghost use Rattle.hg_top.specs.Course.{OnlyReads};
ghost use Rattle.hg_top.specs.Ends.{EndsOn};

use crate::reading::members_from;
use crate::status::{Status, status_of};
use hg_command::StormRequest;
use hg_io::{Gate, Shelf, Sink};
use hg_life::Members;
use hg_model::Memory;
use hg_outcome::Outcome;
use hg_play::outcome_of;
use hg_report::heads_of;
use hg_workers::Voters;
use std::alloc::Global;
use std::sync::Wait;
use std::thread::Threads;

/// The blocks of the nodes after a storm.
fn storm_outcome<R: Threads + Wait + Sync, G: Gate + Sync>(
    rt: &R,
    alloc: Global,
    members: &Members,
    asked: &StormRequest<'_>,
    gate: &G,
) -> Result<Outcome, Memory>
    requires { 1 ≤ asked.now.room }
    ensures { IfOk result (IsStormOutcome (storm_run asked.now) members.now) }
{
    let voters = Voters::new(gate);
    let storm = hg_storm::storm(
        rt,
        alloc,
        members,
        asked.turns,
        asked.room as usize,
        asked.seed,
        &voters,
        gate,
    )?;
    let outcome = outcome_of(alloc, members, &storm.world)?;
    Ok(outcome)
}

/// What a storm comes to.
pub(crate) fn storm<R: Threads + Wait + Sync, F: Shelf, K: Sink, G: Gate + Sync>(
    rt: &R,
    alloc: Global,
    asked: &StormRequest<'_>,
    shelf: &mut F,
    out: &mut K,
    gate: &G,
) -> Status
    requires { 1 ≤ asked.now.room }
    ensures ends { EndsOn F.Shelf K.Sink shelf.old shelf.new out.old out.new (storm_work (storm_run asked.now)) result }
    ensures same { OnlyReads F.Shelf shelf.old shelf.new }
{
    let members = match members_from(alloc, shelf, asked.members) {
        Ok(members) => members,
        Err(status) => return status,
    };
    match storm_outcome(rt, alloc, &members, asked, gate) {
        Ok(outcome) => status_of(heads_of(&outcome, out)),
        Err(Memory) => Status::Memory,
    }
}
