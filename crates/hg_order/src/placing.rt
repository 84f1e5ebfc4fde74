ghost use Rattle.std.specs.Prelude.{◌≡◌, ◌<◌, ◌≤◌, ◌+◌, true, All, length, map, vec_capacity};
ghost use Rattle.std.specs.List.{AllByRecursion};
ghost use Rattle.hg_model.specs.Prefix.{links_of};
ghost use Rattle.hg_order.specs.Famous.{AreFamous, IsBelowAll};
ghost use Rattle.hg_order.specs.Round.{placed_below, IsWide};
ghost use Rattle.hg_order.specs.Timers.{placed_with};

use crate::least::least_counts;
use crate::lines::{list_lines, median_of_lines};
use crate::memory::{RoundMemory, count_times, lowest};
use crate::order::{is_wide, place_rows};
use crate::timer::{LineRow, Timer, Wanted};
use hg_model::{Placed, Prefix, is_of_graph};

/// The rows at the places `fresh`, with the times of their timers.
fn place_timed<P: Prefix>(
    p: &P,
    round: u32,
    low: usize,
    timers: &[Timer],
    fresh: &[u32],
    out: &mut [Placed],
)
    requires places { All (λ x. x < length (links_of (P.graph p.now))) fresh.now }
    requires low { All (λ x. low ≤ x) fresh.now }
    requires reach { All (λ x. x < low + length timers.now) fresh.now }
    requires same { length out.old ≡ length fresh.now }
    ensures placed { out.new ≡ map (placed_with low round timers.now) fresh.now }
    ensures wide { All (IsWide (P.graph p.now).rows) fresh.now }
{
    for (i, x) in fresh.iter().enumerate() {
        let place = *x as usize;
        is_wide(p, place);
        out[i] = Placed {
            place,
            received: round,
            time: timers[place - low].time,
        };
    }
}

/// The rows at the places `fresh` as the round places them, by counting; tells whether it could count them.
fn place_by_counts<P: Prefix>(
    p: &P,
    famous: &[usize],
    round: u32,
    fresh: &[u32],
    memory: &mut RoundMemory,
    out: &mut [Placed],
) -> bool
    requires famous { AreFamous (P.graph p.now) famous.now }
    requires some { 0 < length famous.now }
    requires received { AllByRecursion (IsBelowAll (P.graph p.now) famous.now) fresh.now }
    requires same { length out.old ≡ length fresh.now }
    ensures placed { result ≡ true → out.new ≡ map (placed_below (P.graph p.now) famous.now round) fresh.now }
    ensures wide { result ≡ true → All (IsWide (P.graph p.now).rows) fresh.now }
    ensures room { memory.new ≡ memory.old }
{
    is_of_graph(p);
    let Some(least) = least_counts(p, famous) else {
        return false;
    };
    let low = lowest(fresh, famous[0]);
    let need = (famous.len() as u16 + 1) / 2;
    let wanted = Wanted { least, low, need };
    if !count_times(
        p,
        famous,
        &wanted,
        &mut memory.line_rows,
        &mut memory.lanes,
        &mut memory.timers,
    ) {
        return false;
    }
    place_timed(p, round, low, &memory.timers, fresh, out);
    true
}

/// The rows at the places `fresh` as the round places them, by the lines of the witnesses, each listed once; tells whether
/// there was room for the lines.
fn place_by_lines<P: Prefix>(
    p: &P,
    famous: &[usize],
    round: u32,
    fresh: &[u32],
    lines: &mut Vec<LineRow>,
    out: &mut [Placed],
) -> bool
    requires famous { AreFamous (P.graph p.now) famous.now }
    requires some { 0 < length famous.now }
    requires received { AllByRecursion (IsBelowAll (P.graph p.now) famous.now) fresh.now }
    requires same { length out.old ≡ length fresh.now }
    ensures placed { result ≡ true → out.new ≡ map (placed_below (P.graph p.now) famous.now round) fresh.now }
    ensures wide { result ≡ true → All (IsWide (P.graph p.now).rows) fresh.now }
    ensures room { vec_capacity lines.new ≡ vec_capacity lines.old }
{
    is_of_graph(p);
    let low = lowest(fresh, famous[0]);
    let mut starts = [0; 129];
    lines.clear();
    if !list_lines(p, famous, low, lines, &mut starts) {
        return false;
    }
    for (i, x) in fresh.iter().enumerate() {
        let place = *x as usize;
        is_wide(p, place);
        out[i] = Placed {
            place,
            received: round,
            time: median_of_lines(p, famous, lines, &starts, place),
        };
    }
    true
}

/// The rows at the places `fresh` as the round places them, in their order: by counting where ancestors are counted
/// and the memory suffices, else by the lines of the witnesses where it suffices for these.
pub fn place_within<P: Prefix>(
    p: &P,
    famous: &[usize],
    round: u32,
    fresh: &[u32],
    memory: &mut RoundMemory,
    out: &mut [Placed],
)
    requires famous { AreFamous (P.graph p.now) famous.now }
    requires received { AllByRecursion (IsBelowAll (P.graph p.now) famous.now) fresh.now }
    requires same { length out.old ≡ length fresh.now }
    ensures placed { out.new ≡ map (placed_below (P.graph p.now) famous.now round) fresh.now }
    ensures wide { All (IsWide (P.graph p.now).rows) fresh.now }
    ensures room { memory.new ≡ memory.old }
{
    if !famous.is_empty()
        && (place_by_counts(p, famous, round, fresh, memory, out)
            || place_by_lines(p, famous, round, fresh, &mut memory.line_rows, out))
    {
        return;
    }
    place_rows(p, famous, round, fresh, out);
}
