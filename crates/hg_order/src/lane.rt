ghost use Rattle.std.specs.Prelude.{◌≡◌, ◌<◌, ◌≤◌, ◌+◌, ◌-◌, ◌^◌, ℕ, cond, nat_le, nat_lt, count_by, length, replicate, slice_index, IfSome};
ghost use Rattle.hg_model.specs.Links.{self_parent};
ghost use Rattle.hg_order.specs.Swept.{reached, parent_end, end_from, ends_from, lines_from, AdvancesLane, AreFirsts, AreFrom, AreGainedFrom, AreLinked, GainsFrom, StartsLane};

use crate::timer::Timer;
use hg_model::{Counts, Sight, is_shaped};

/// Of a member, one more than the place of the row whose time is to be found next, or 0 where none is left, and how
/// many lines have that row as ancestor.
#[derive(Clone, Copy)]
pub struct Lane {
    pub next: u32,
    pub above: u16,
}

/// How a lane goes on: its rows from `low` on get the time while `need` lines have them as ancestor, up to the last of them
/// that stands below the bound.
#[derive(Clone, Copy)]
pub struct Course {
    pub bound: u32,
    pub low: usize,
    pub need: u16,
    pub time: u64,
}

/// One more than a place, by how far that is from `low` on, or 0.
pub fn end_from(low: usize, count: u16) -> u32
    requires { low + count < 2 ^ 32 }
    ensures { result ≡ end_from low count }
{
    if count == 0 {
        return 0;
    }
    (low + count as usize) as u32
}

/// How far one more than a place is from `low` on, or 0.
pub fn count_from(low: usize, end: u32) -> u16
    requires { end ≤ low + (2 ^ 16 - 1) }
    ensures { result ≡ end - low }
{
    (end as usize).saturating_sub(low) as u16
}

/// Of the rows that the timers stand for each is linked to the next by its member, by one more than the place of that,
/// or 0; and each member to the first of its rows.
pub fn link_rows<S: Sight>(sight: &S, low: usize, timers: &mut [Timer], next: &mut [u16])
    requires inside { low + length timers.old ≤ length (S.shape sight.now).links }
    requires short { length timers.old ≤ 2 ^ 16 - 1 }
    requires none { next.old ≡ replicate 128 0 }
    ensures linked { AreLinked (S.shape sight.now).links low timers.new }
    ensures first { AreFirsts (S.shape sight.now).links low (low + length timers.new) (ends_from low next.new) }
    ensures long { length timers.new ≡ length timers.old }
{
    is_shaped(sight);
    let mut x = low + timers.len();
    while low < x {
        x -= 1;
        let member = sight.creator(x) as usize;
        timers[x - low] = Timer {
            left: end_from(low, next[member]),
            time: 0,
        };
        next[member] = (x - low + 1) as u16;
    }
}

/// How many of these counts are above `x` at the member.
fn count_above(last: &[[u16; 128]], member: usize, x: u16) -> u16
    requires few { length last.now ≤ 128 }
    requires member { member < 128 }
    ensures { result ≡ count_by (λ counts. nat_lt x (slice_index counts member)) last.now }
{
    let mut lines = 0;
    for counts in last {
        lines += u16::from(x < counts[member]);
    }
    lines
}

/// How many lines have row `x` as ancestor.
fn reached<S: Sight>(sight: &S, last: &[[u16; 128]], low: usize, x: usize) -> u16
    requires few { length last.now ≤ 128 }
    requires place { x < length (S.shape sight.now).links }
    requires from { low ≤ x }
    requires near { x < low + (2 ^ 16 - 1) }
    ensures { result ≡ reached (S.shape sight.now).links (lines_from low last.now) x }
{
    is_shaped(sight);
    count_above(last, sight.creator(x) as usize, (x - low) as u16)
}

/// One more than the place of a row, if the row stands below the bound, else 0.
fn next_below(left: u32, bound: u32) -> u32
    ensures { result ≡ cond (nat_le left bound) left 0 }
{
    if left <= bound { left } else { 0 }
}

/// The lane that comes to this row.
fn lane_at<S: Sight>(sight: &S, last: &[[u16; 128]], low: usize, next: u32) -> Lane
    requires few { length last.now ≤ 128 }
    requires place { next ≤ length (S.shape sight.now).links }
    requires from { 0 < next → low < next }
    requires near { next ≤ low + (2 ^ 16 - 1) }
    ensures next { result.next ≡ next }
    ensures counted { 0 < next → result.above ≡ reached (S.shape sight.now).links (lines_from low last.now) (next - 1) }
    ensures idle { next ≡ 0 → result.above ≡ 0 }
{
    if next == 0 {
        return Lane { next: 0, above: 0 };
    }
    Lane {
        next,
        above: reached(sight, last, low, next as usize - 1),
    }
}

/// Goes on with the lane of a member whose row enough lines have as ancestor: that row has the time, and so has each
/// row that follows while enough lines have it as ancestor, up to the last that stands below the bound.
pub fn advance<S: Sight>(
    sight: &S,
    last: &[[u16; 128]],
    course: Course,
    start: Lane,
    timers: &mut [Timer],
) -> Lane
    requires members { length last.now ≤ 128 }
    requires inside { course.low + length timers.old ≤ length (S.shape sight.now).links }
    requires short { length timers.old ≤ 2 ^ 16 - 1 }
    requires linked { AreLinked (S.shape sight.now).links course.low timers.old }
    requires lane { StartsLane (S.shape sight.now) last.now course start timers.old }
    requires some { 0 < course.need }
    ensures moved { AdvancesLane (S.shape sight.now) last.now course start result timers.old timers.new }
    ensures few { result.above < course.need }
{
    let low = course.low;
    let mut lane = start;
    while course.need <= lane.above {
        let k = lane.next as usize - 1 - low;
        let left = timers[k].left;
        timers[k] = Timer {
            left,
            time: course.time,
        };
        lane = lane_at(sight, last, low, next_below(left, course.bound));
    }
    lane
}

/// Counts one line more at each lane whose row is not below the last row of a line, and is below these counts of the next,
/// and makes those of the last from `low` on these. It answers the greatest of the numbers then. One loop over 16 bits that
/// makes both tests at each lane and so has no branch, in a call of its own, where the compiler knows that the lists do not
/// overlap: it makes vectors of it.
#[inline(never)]
pub fn gain_narrow(
    last: &mut [u16],
    counts: &[u16],
    low: usize,
    next: &[u16],
    above: &mut [u16],
) -> u16
    requires last { length counts.now ≤ length last.old }
    requires next { length counts.now ≤ length next.now }
    requires above { length counts.now ≤ length above.old }
    requires short { (m : ℕ) → slice_index above.old m < 2 ^ 16 - 1 }
    ensures gained { AreGainedFrom low last.old counts.now next.now above.old above.new }
    ensures line { AreFrom low counts.now last.new }
    ensures rest { (m : ℕ) → length counts.now ≤ m → slice_index above.new m ≡ slice_index above.old m }
    ensures most { (m : ℕ) → m < length counts.now → slice_index above.new m ≤ result }
{
    let least = low.min(u16::MAX as usize) as u16;
    let mut most = 0;
    for m in 0..counts.len() {
        let (row, count) = (next[m], counts[m].saturating_sub(least));
        above[m] += u16::from((last[m] < row) & (row <= count));
        last[m] = count;
        most = most.max(above[m]);
    }
    most
}

/// The same of counts of 32 bits.
#[inline(never)]
pub fn gain_wide(last: &mut [u16], counts: &[u32], low: u32, next: &[u16], above: &mut [u16]) -> u16
    requires last { length counts.now ≤ length last.old }
    requires next { length counts.now ≤ length next.now }
    requires above { length counts.now ≤ length above.old }
    requires short { (m : ℕ) → slice_index above.old m < 2 ^ 16 - 1 }
    requires near { (m : ℕ) → m < length counts.now → slice_index counts.now m ≤ low + (2 ^ 16 - 1) }
    ensures gained { AreGainedFrom low last.old counts.now next.now above.old above.new }
    ensures line { AreFrom low counts.now last.new }
    ensures rest { (m : ℕ) → length counts.now ≤ m → slice_index above.new m ≡ slice_index above.old m }
    ensures most { (m : ℕ) → m < length counts.now → slice_index above.new m ≤ result }
{
    let mut most = 0;
    for m in 0..counts.len() {
        let (row, count) = (next[m], counts[m].saturating_sub(low) as u16);
        above[m] += u16::from((last[m] < row) & (row <= count));
        last[m] = count;
        most = most.max(above[m]);
    }
    most
}

/// Row `x` is next on its line, of whose last row these are the counts from `low` on: each lane whose row it has as ancestor,
/// and that one has not, counts one line more. It answers the greatest of the numbers then, and nothing where ancestors are
/// not counted or the row is too far from `low`.
pub fn gain_row<S: Sight>(
    sight: &S,
    x: usize,
    low: usize,
    last: &mut [u16; 128],
    next: &[u16; 128],
    above: &mut [u16; 128],
) -> Option<u16>
    requires place { x < length (S.shape sight.now).links }
    requires low { low ≤ length (S.shape sight.now).links }
    requires short { (m : ℕ) → slice_index above.old m < 2 ^ 16 - 1 }
    ensures { IfSome result (GainsFrom (S.shape sight.now) x low last.old last.new next.now above.old above.new) }
{
    is_shaped(sight);
    let Some(counts) = sight.counts(x) else {
        return None;
    };
    match counts {
        Counts::Narrow(counts) => Some(gain_narrow(last, counts, low, next, above)),
        Counts::Wide(counts) => {
            if x.saturating_sub(low) >= u16::MAX as usize {
                return None;
            }
            Some(gain_wide(last, counts, low as u32, next, above))
        }
    }
}

/// How far one more than the place of the self-parent of row `z` is from `low` on, or 0 where there is none.
pub fn parent_end<S: Sight>(sight: &S, low: usize, z: usize) -> usize
    requires { z < length (S.shape sight.now).links }
    ensures { end_from low result ≡ parent_end low (self_parent (S.shape sight.now).links z) }
{
    is_shaped(sight);
    match sight.self_parent(z) {
        None => 0,
        Some(parent) => { if parent < low { 0 } else { parent - low + 1 } }
    }
}
