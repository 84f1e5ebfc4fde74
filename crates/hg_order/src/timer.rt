ghost use Rattle.std.specs.Prelude.{◌≡◌, ◌<◌, ◌≤◌, ◌+◌, ℕ, true, All, length, replicate, vec_capacity};
ghost use Rattle.hg_model.specs.Counts.{numbers_of};
ghost use Rattle.hg_model.specs.GraphWords.{IsShapedIn};
ghost use Rattle.hg_order.specs.Counted.{AreLines, EndAtRows, EndsBefore};
ghost use Rattle.hg_order.specs.Timers.{ticked, is_in_line_below, AreEnds, AreTicked, ReachAll, ReachesTop, TicksAll, TicksAt, TicksBy};

use hg_model::{Counts, Member, Sight, is_shaped};

/// A row on the line of a unique famous witness, and the time that its creator claims.
#[derive(Clone, Copy)]
pub struct LineRow {
    pub time: u64,
    pub place: usize,
}

/// Of one row: how many lines have yet to have it as ancestor until as many as are wanted have, and, once they have, the
/// time at which the last of these first had.
#[derive(Clone, Copy)]
pub struct Timer {
    pub left: u32,
    pub time: u64,
}

/// The rows whose times are to be found: those from `low` on that stand below the number of their creator in `least`.
/// Such a row has the time at which `need` lines first have it as ancestor.
#[derive(Clone, Copy)]
pub struct Wanted {
    pub least: [u32; 128],
    pub low: usize,
    pub need: u16,
}

/// The timer with one time more.
pub fn ticked(timer: Timer, time: u64) -> Timer
    ensures { result ≡ ticked time timer }
{
    Timer {
        left: timer.left.saturating_sub(1),
        time: if timer.left == 1 { time } else { timer.time },
    }
}

/// One more than the place of the last row before row `x` by its creator, or 0.
fn end_before<S: Sight>(sight: &S, x: usize) -> usize
    requires place { x < length (S.shape sight.now).links }
    requires shaped { IsShapedIn (S.shape sight.now) }
    requires lines { AreLines (S.shape sight.now).links }
    ensures { EndsBefore (S.shape sight.now).links x result }
{
    match sight.self_parent(x) {
        None => 0,
        Some(parent) => parent + 1,
    }
}

/// Ticks the timers of the rows by one member from `bottom` up to below `top`, which is one more than the place of such a row.
fn tick_line<S: Sight>(
    sight: &S,
    bottom: usize,
    top: usize,
    low: usize,
    time: u64,
    timers: &mut [Timer],
)
    requires shaped { IsShapedIn (S.shape sight.now) }
    requires lines { AreLines (S.shape sight.now).links }
    requires top { top ≤ length (S.shape sight.now).links }
    requires low { low ≤ bottom }
    requires reach { top ≤ low + length timers.old }
    ensures { AreTicked low time (is_in_line_below (S.shape sight.now).links bottom top) timers.old timers.new }
{
    let mut end = top;
    while bottom < end {
        let x = end - 1;
        timers[x - low] = ticked(timers[x - low], time);
        end = end_before(sight, x);
    }
}

/// Ticks the timers of the rows that are not below `before`, and below `counts` and `least`, member by member.
fn tick_between<S: Sight>(
    sight: &S,
    before: Counts<'_>,
    counts: Counts<'_>,
    wanted: &Wanted,
    time: u64,
    timers: &mut [Timer],
)
    requires shaped { IsShapedIn (S.shape sight.now) }
    requires lines { AreLines (S.shape sight.now).links }
    requires few { length (numbers_of counts) ≤ 128 }
    requires before { length (numbers_of counts) ≤ length (numbers_of before) }
    requires ends { AreEnds (S.shape sight.now).links (numbers_of counts) wanted.now.least }
    requires reach { ReachesTop (numbers_of counts) wanted.now.least (wanted.now.low + length timers.old) }
    ensures { TicksAt (S.shape sight.now) before.entry counts.entry wanted.now time timers.old timers.new }
{
    for m in 0..counts.len() {
        let member = m as Member;
        let top = counts.at(member).min(wanted.least[m] as usize);
        let bottom = wanted.low.max(before.at(member));
        tick_line(sight, bottom, top, wanted.low, time, timers);
    }
}

/// The counts of no row.
fn no_counts() -> [u16; 128]
    ensures { result ≡ replicate 128 0 }
{
    [0; 128]
}

/// One line row ticks at the rows that it has as ancestor and its self-parent has not; tells whether their ancestors are
/// counted.
fn tick_row<S: Sight>(sight: &S, line_row: LineRow, wanted: &Wanted, timers: &mut [Timer]) -> bool
    requires place { line_row.place < length (S.shape sight.now).links }
    requires last { EndAtRows (S.shape sight.now).members (S.shape sight.now).links wanted.now.least }
    requires reach { ReachAll (S.shape sight.now).links wanted.now.least wanted.now.low timers.old }
    ensures { TicksBy result (S.shape sight.now) wanted.now line_row timers.old timers.new }
{
    is_shaped(sight);
    let Some(counts) = sight.counts(line_row.place) else {
        return false;
    };
    match sight.self_parent(line_row.place) {
        None => tick_between(
            sight,
            Counts::Narrow(&no_counts()),
            counts,
            wanted,
            line_row.time,
            timers,
        ),
        Some(parent) => {
            let Some(before) = sight.counts(parent) else {
                return false;
            };
            tick_between(sight, before, counts, wanted, line_row.time, timers);
        }
    }
    true
}

/// Ticks these line rows, one after the other; tells whether all their ancestors are counted.
fn tick_slice<S: Sight>(
    sight: &S,
    line_rows: &[LineRow],
    wanted: &Wanted,
    timers: &mut [Timer],
) -> bool
    requires places { All (λ h. h.place < length (S.shape sight.now).links) line_rows.now }
    requires last { EndAtRows (S.shape sight.now).members (S.shape sight.now).links wanted.now.least }
    requires reach { ReachAll (S.shape sight.now).links wanted.now.least wanted.now.low timers.old }
    ensures { TicksAll result (S.shape sight.now) wanted.now line_rows.now timers.old timers.new }
{
    for line_row in line_rows {
        if !tick_row(sight, *line_row, wanted, timers) {
            return false;
        }
    }
    true
}

/// The same of timers that own their memory.
pub fn tick_rows<S: Sight>(
    sight: &S,
    line_rows: &[LineRow],
    wanted: &Wanted,
    timers: &mut Vec<Timer>,
) -> bool
    requires places { All (λ h. h.place < length (S.shape sight.now).links) line_rows.now }
    requires last { EndAtRows (S.shape sight.now).members (S.shape sight.now).links wanted.now.least }
    requires reach { ReachAll (S.shape sight.now).links wanted.now.least wanted.now.low timers.old.items }
    ensures ticked { TicksAll result (S.shape sight.now) wanted.now line_rows.now timers.old.items timers.new.items }
    ensures room { vec_capacity timers.new ≡ vec_capacity timers.old }
{
    tick_slice(sight, line_rows, wanted, timers)
}
