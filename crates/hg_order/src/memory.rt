ghost use Rattle.std.specs.Prelude.{◌≡◌, ◌<◌, ◌≤◌, ◌+◌, ◌/◌, true, All, length, replicate, slice_index, OnOk, vec_capacity};
ghost use Rattle.hg_order.specs.Famous.{AreFamous};
ghost use Rattle.hg_order.specs.Counted.{AreShared, EndAtRows};
ghost use Rattle.hg_order.specs.Swept.{FindsTimes, ReachTo};
ghost use Rattle.hg_order.specs.Timers.{unticked, HaveMedians};

use crate::line_rows::{list_line_rows, raise_ends, sort_line_rows};
use crate::sweep::{Lanes, sweep_rows};
use crate::timer::{LineRow, Timer, Wanted, tick_rows};
use hg_model::{Memory, Prefix, Sight, is_of_graph, reserve_all};
use std::alloc::Global;
use std::marker::Model;

/// The memory in which consensus timestamps are counted.
#[derive(Drop)]
pub struct RoundMemory {
    pub line_rows: Vec<LineRow>,
    pub timers: Vec<Timer>,
    pub lanes: Lanes,
}

impl Model for RoundMemory {
    ghost use Rattle.std.specs.Prelude.{ℕ, min, vec_capacity};

    ghost Value = { ℕ };

    ghost view = { λ s. min (vec_capacity s.line_rows) (vec_capacity s.timers) };
}

impl RoundMemory {
    /// For no rows. Takes no memory.
    pub fn new(alloc: Global) -> RoundMemory {
        RoundMemory {
            line_rows: Vec::new(alloc),
            timers: Vec::new(alloc),
            lanes: Lanes::new(alloc),
        }
    }

    /// Takes the memory for so many rows of so many members.
    pub fn reserve(&mut self, rows: usize, members: usize) -> Result<(), Memory>
        ensures room { OnOk result (rows ≤ self.new) }
        ensures more { self.old ≤ self.new }
    {
        reserve_all(&mut self.line_rows, rows)?;
        reserve_all(&mut self.timers, rows)?;
        self.lanes.reserve(members)?;
        Ok(())
    }
}

/// The least of the places, and of `first`.
pub fn lowest(places: &[u32], first: usize) -> usize
    ensures first { result ≤ first }
    ensures all { All (λ x. result ≤ x) places.now }
{
    let mut low = first;
    for x in places {
        low = low.min(*x as usize);
    }
    low
}

/// So many timers without a time.
fn set_timers(timers: &mut Vec<Timer>, count: usize, need: u32)
    requires { count ≤ vec_capacity timers.old }
    ensures cleared { timers.new.items ≡ replicate count (unticked need) }
    ensures room { vec_capacity timers.new ≡ vec_capacity timers.old }
{
    timers.clear();
    for _ in 0..count {
        timers.push_reserved(Timer {
            left: need,
            time: 0,
        });
    }
}

/// Finds the times that these line rows leave of the wanted rows, of so many from the lowest on: by a sweep, and where
/// it cannot by timers. It tells whether it could.
fn find_times<S: Sight>(
    sight: &S,
    line_rows: &[LineRow],
    wanted: &Wanted,
    rows: usize,
    lanes: &mut Lanes,
    timers: &mut Vec<Timer>,
) -> bool
    requires places { All (λ h. h.place < length (S.shape sight.now).links) line_rows.now }
    requires last { EndAtRows (S.shape sight.now).members (S.shape sight.now).links wanted.now.least }
    requires inside { wanted.now.low + rows ≤ length (S.shape sight.now).links }
    requires reach { ReachTo (S.shape sight.now).links wanted.now.least (wanted.now.low + rows) }
    requires some { 0 < wanted.now.need }
    requires room { rows ≤ vec_capacity timers.old }
    ensures times { FindsTimes result (S.shape sight.now) wanted.now line_rows.now timers.new.items }
    ensures long { result ≡ true → length timers.new.items ≡ rows }
    ensures room { vec_capacity timers.new ≡ vec_capacity timers.old }
{
    set_timers(timers, rows, u32::from(wanted.need));
    if sweep_rows(sight, line_rows, wanted, lanes, timers) {
        return true;
    }
    set_timers(timers, rows, u32::from(wanted.need));
    tick_rows(sight, line_rows, wanted, timers)
}

/// Counts the consensus timestamps of the wanted rows, all that these unique famous witnesses have as ancestor; tells
/// whether it could: their ancestors are counted, and there is room for the rows up to the last of the witnesses.
pub fn count_times<P: Prefix>(
    p: &P,
    famous: &[usize],
    wanted: &Wanted,
    line_rows: &mut Vec<LineRow>,
    lanes: &mut Lanes,
    timers: &mut Vec<Timer>,
) -> bool
    requires famous { AreFamous (P.graph p.now) famous.now }
    requires some { 0 < length famous.now }
    requires least { AreShared (P.graph p.now) famous.now wanted.now.least }
    requires low { wanted.now.low ≤ slice_index famous.now 0 }
    requires need { wanted.now.need ≡ (length famous.now + 1) / 2 }
    ensures medians { result ≡ true → HaveMedians (P.graph p.now) famous.now wanted.now.low timers.new.items }
    ensures line_rows_room { vec_capacity line_rows.new ≡ vec_capacity line_rows.old }
    ensures timers_room { vec_capacity timers.new ≡ vec_capacity timers.old }
{
    is_of_graph(p);
    let mut ends = [0; 128];
    let end = raise_ends(p, famous, &mut ends);
    if line_rows.capacity().min(timers.capacity()) < end - wanted.low {
        return false;
    }
    line_rows.clear();
    list_line_rows(p, &ends, wanted.low, end, line_rows);
    sort_line_rows(line_rows);
    find_times(p, line_rows, wanted, end - wanted.low, lanes, timers)
}
