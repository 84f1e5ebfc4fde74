ghost use Rattle.std.specs.Prelude.{◌≡◌, ◌<◌, ◌≤◌, ◌+◌, ◌-◌, ◌^◌, true, All, length, vec_capacity, OnOk};
ghost use Rattle.hg_model.specs.Stakes.{member_count};
ghost use Rattle.hg_order.specs.Timers.{ReachAll};
ghost use Rattle.hg_order.specs.Swept.{ends_from, AdvancesLanes, AreClear, AreFew, AreLanesOver, AreLastOver, AreLinked, ArePast, FindsTimes, IsSweptBySome, Sweeps};

use crate::lane::{Course, Lane, advance, count_from, end_from, gain_row, link_rows, parent_end};
use crate::timer::{LineRow, Timer, Wanted};
use hg_model::{Memory, Sight, is_shaped};
use std::alloc::Global;

/// Of each member the counts of the last line row on its line that was gone through, or zeros, and its lane. The numbers of
/// the lanes stand apart, so that a line row is one pass over rows of 16 bits. All are counted from the lowest row of the
/// round on: a place that is below it is 0, and one more than another place is one more than how far that is above it.
#[derive(Drop)]
pub struct Lanes {
    last: Vec<[u16; 128]>,
    next: [u16; 128],
    above: [u16; 128],
}

impl Lanes {
    /// Of no members. Takes no memory.
    pub fn new(alloc: Global) -> Lanes {
        Lanes {
            last: Vec::new(alloc),
            next: [0; 128],
            above: [0; 128],
        }
    }

    /// Takes the memory for so many members.
    pub fn reserve(&mut self, members: usize) -> Result<(), Memory>
        ensures { OnOk result (members ≤ vec_capacity self.new.last) }
    {
        self.last.reserve(members.saturating_sub(self.last.len()))?;
        Ok(())
    }

    /// Before the first holder.
    fn clear(&mut self, members: usize)
        requires { members ≤ vec_capacity self.old.last }
        ensures { AreClear members self.new }
    {
        self.next = [0; 128];
        self.above = [0; 128];
        self.last.clear();
        for _ in 0..members {
            self.last.push_reserved([0; 128]);
        }
    }
}

/// Goes on with each lane whose row enough lines have as ancestor.
fn advance_lanes<S: Sight>(
    sight: &S,
    wanted: &Wanted,
    time: u64,
    lanes: &mut Lanes,
    timers: &mut [Timer],
)
    requires members { length lanes.old.last.items ≡ member_count (S.shape sight.now).members }
    requires inside { wanted.now.low + length timers.old ≤ length (S.shape sight.now).links }
    requires short { length timers.old ≤ 2 ^ 16 - 1 }
    requires linked { AreLinked (S.shape sight.now).links wanted.now.low timers.old }
    requires lanes { AreLanesOver (S.shape sight.now) wanted.now.low lanes.old timers.old }
    requires some { 0 < wanted.now.need }
    ensures moved { AdvancesLanes (S.shape sight.now) wanted.now time lanes.old lanes.new timers.old timers.new }
    ensures few { AreFew wanted.now.need lanes.new.above }
    ensures last { lanes.new.last ≡ lanes.old.last }
{
    is_shaped(sight);
    for m in 0..lanes.last.len() {
        if lanes.above[m] < wanted.need {
            continue;
        }
        let start = Lane {
            next: end_from(wanted.low, lanes.next[m]),
            above: lanes.above[m],
        };
        let course = Course {
            bound: wanted.least[m],
            low: wanted.low,
            need: wanted.need,
            time,
        };
        let lane = advance(sight, &lanes.last, course, start, timers);
        lanes.next[m] = count_from(wanted.low, lane.next);
        lanes.above[m] = lane.above;
    }
}

/// One line row more. It answers whether it could: ancestors are counted, and the line row follows its self-parent, as it
/// does where the times along a line do not fall.
fn sweep_row<S: Sight>(
    sight: &S,
    line_row: LineRow,
    wanted: &Wanted,
    lanes: &mut Lanes,
    timers: &mut [Timer],
) -> bool
    requires place { line_row.place < length (S.shape sight.now).links }
    requires members { length lanes.old.last.items ≡ member_count (S.shape sight.now).members }
    requires last { AreLastOver (S.shape sight.now) wanted.now.low lanes.old }
    requires inside { wanted.now.low + length timers.old ≤ length (S.shape sight.now).links }
    requires short { length timers.old ≤ 2 ^ 16 - 1 }
    requires some { 0 < wanted.now.need }
    requires swept { IsSweptBySome (S.shape sight.now) wanted.now lanes.old timers.old }
    ensures on { Sweeps result (S.shape sight.now) wanted.now line_row lanes.old lanes.new timers.old timers.new }
    ensures last { result ≡ true → AreLastOver (S.shape sight.now) wanted.now.low lanes.new }
    ensures members { result ≡ true → length lanes.new.last.items ≡ length lanes.old.last.items }
    ensures long { result ≡ true → length timers.new ≡ length timers.old }
{
    is_shaped(sight);
    let member = sight.creator(line_row.place) as usize;
    let last = &mut lanes.last[member];
    if last[member] as usize != parent_end(sight, wanted.low, line_row.place) {
        return false;
    }
    let Some(most) = gain_row(
        sight,
        line_row.place,
        wanted.low,
        last,
        &lanes.next,
        &mut lanes.above,
    ) else {
        return false;
    };
    if most >= wanted.need {
        advance_lanes(sight, wanted, line_row.time, lanes, timers);
    }
    true
}

/// Whether none of the first lanes, of so many, is left at a row below its bound.
fn are_past(next: &[u16; 128], least: &[u32; 128], low: usize, members: usize) -> bool
    requires { members ≤ 128 }
    ensures { result ≡ true → ArePast members (ends_from low next.now) least.now }
{
    for m in 0..members {
        if 0 < next[m] && next[m] as usize <= (least[m] as usize).saturating_sub(low) {
            return false;
        }
    }
    true
}

/// The same as `sweep_rows`, over lanes that have no row yet.
fn sweep_lanes<S: Sight>(
    sight: &S,
    line_rows: &[LineRow],
    wanted: &Wanted,
    lanes: &mut Lanes,
    timers: &mut [Timer],
) -> bool
    requires places { All (λ h. h.place < length (S.shape sight.now).links) line_rows.now }
    requires inside { wanted.now.low + length timers.old ≤ length (S.shape sight.now).links }
    requires reach { ReachAll (S.shape sight.now).links wanted.now.least wanted.now.low timers.old }
    requires some { 0 < wanted.now.need }
    requires clear { AreClear (member_count (S.shape sight.now).members) lanes.old }
    ensures { FindsTimes result (S.shape sight.now) wanted.now line_rows.now timers.new }
{
    is_shaped(sight);
    if timers.len() > u16::MAX as usize {
        return false;
    }
    link_rows(sight, wanted.low, timers, &mut lanes.next);
    for line_row in line_rows {
        if !sweep_row(sight, *line_row, wanted, lanes, timers) {
            return false;
        }
    }
    are_past(&lanes.next, &wanted.least, wanted.low, lanes.last.len())
}

/// Finds the times that these line rows leave of the wanted rows; tells whether it could: ancestors are
/// counted, the rows of the round are fewer than 2^16, times fall on no line, and the lanes have memory for the members.
/// The line rows come in the order of their times. Of each member it keeps one row, so that a line row costs one pass over
/// the lanes, and a row one over the lines.
pub fn sweep_rows<S: Sight>(
    sight: &S,
    line_rows: &[LineRow],
    wanted: &Wanted,
    lanes: &mut Lanes,
    timers: &mut Vec<Timer>,
) -> bool
    requires places { All (λ h. h.place < length (S.shape sight.now).links) line_rows.now }
    requires inside { wanted.now.low + length timers.old.items ≤ length (S.shape sight.now).links }
    requires reach { ReachAll (S.shape sight.now).links wanted.now.least wanted.now.low timers.old.items }
    requires some { 0 < wanted.now.need }
    ensures times { FindsTimes result (S.shape sight.now) wanted.now line_rows.now timers.new.items }
    ensures long { length timers.new.items ≡ length timers.old.items }
    ensures room { vec_capacity timers.new ≡ vec_capacity timers.old }
{
    let members = sight.members() as usize;
    if lanes.last.capacity() < members {
        return false;
    }
    lanes.clear(members);
    sweep_lanes(sight, line_rows, wanted, lanes, timers)
}
