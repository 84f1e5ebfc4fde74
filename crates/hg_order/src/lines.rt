ghost use Rattle.std.specs.Prelude.{◌≡◌, ◌<◌, ◌≤◌, ◌+◌, [], ◌∷◌, ◌++◌, true, All, length, slice_index, vec_capacity};
ghost use Rattle.hg_model.specs.Ancestry.{is_ancestor};
ghost use Rattle.hg_model.specs.GraphWords.{IsShapedIn};
ghost use Rattle.hg_model.specs.Order.{median, time_at};
ghost use Rattle.hg_model.specs.Prefix.{links_of};
ghost use Rattle.hg_order.specs.Famous.{AreFamous, IsBelowAll, all_have, first_holder, times_of};
ghost use Rattle.hg_order.specs.Lined.{place_at, AreLinesOf, HasLine, HaveTimes, IsNextFrom, ListsLine, ListsLines};
ghost use Rattle.hg_order.specs.Timers.{line_row_at};

use crate::time::median_of;
use crate::timer::LineRow;
use hg_model::{Prefix, Sight, is_of_graph};

/// The self-parent of row `z`, unless it stands below `low`.
fn parent_from<S: Sight>(sight: &S, z: usize, low: usize) -> Option<usize>
    requires { z < length (S.shape sight.now).links }
    ensures { IsNextFrom (S.shape sight.now).links low z result }
{
    match sight.self_parent(z) {
        Some(parent) if low <= parent => Some(parent),
        _ => None,
    }
}

/// One more line row, the row at `z`, if there is room; tells whether there was.
#[tactic(auto, using(crate::proofs::RowLaws::row_known))]
fn push_row<P: Prefix>(p: &P, z: usize, lines: &mut Vec<LineRow>) -> bool
    requires { z < length (P.shape p.now).links }
    ensures pushed { result ≡ true → lines.new.items ≡ lines.old.items ++ line_row_at (P.graph p.now).rows z ∷ [] }
    ensures room { vec_capacity lines.new ≡ vec_capacity lines.old }
{
    is_of_graph(p);
    let room = lines.len() < lines.capacity();
    if room {
        lines.push_reserved(LineRow {
            time: p.row(z).time,
            place: z,
        });
    }
    room
}

/// Lists the line of row `w` behind these, down to the last of it that does not stand below `low`; tells whether there was
/// room.
fn list_line<P: Prefix>(p: &P, w: usize, low: usize, lines: &mut Vec<LineRow>) -> bool
    requires { w < length (P.shape p.now).links }
    ensures line { ListsLine result (P.graph p.now) (P.shape p.now) w low lines.old.items lines.new.items }
    ensures room { vec_capacity lines.new ≡ vec_capacity lines.old }
{
    is_of_graph(p);
    if !push_row(p, w, lines) {
        return false;
    }
    let mut z = w;
    while let Some(parent) = parent_from(p, z, low) {
        if !push_row(p, parent, lines) {
            return false;
        }
        z = parent;
    }
    true
}

/// Lists the lines of these rows, one behind the other, each down to the last of it that does not stand below `low`; tells
/// whether there was room. `starts` gets where each begins, and where the last one ends.
pub fn list_lines<P: Prefix>(
    p: &P,
    places: &[usize],
    low: usize,
    lines: &mut Vec<LineRow>,
    starts: &mut [usize],
) -> bool
    requires places { All (λ w. w < length (P.shape p.now).links) places.now }
    requires none { lines.old.items ≡ [] }
    requires zero { slice_index starts.old 0 ≡ 0 }
    requires wide { length places.now < length starts.old }
    ensures lines { ListsLines result (P.graph p.now) (P.shape p.now) places.now low lines.new.items starts.new }
    ensures room { vec_capacity lines.new ≡ vec_capacity lines.old }
{
    for (i, w) in places.iter().enumerate() {
        if !list_line(p, *w, low, lines) {
            return false;
        }
        starts[i + 1] = lines.len();
    }
    true
}

/// Where in a line that is listed from `start` up to below `end` the first of it stands that has row `x` as ancestor: by
/// halves, since what is behind it has not.
fn find_first<S: Sight>(sight: &S, lines: &[LineRow], start: usize, end: usize, x: usize) -> usize
    requires shaped { IsShapedIn (S.shape sight.now) }
    requires line { HasLine (S.shape sight.now).links x lines.now start end }
    requires top { place_at lines.now start < length (S.shape sight.now).links }
    requires place { x < length (S.shape sight.now).links }
    requires has { is_ancestor (S.shape sight.now).links (place_at lines.now start) x ≡ true }
    ensures value { place_at lines.now result ≡ first_holder (S.shape sight.now).links x (place_at lines.now start) }
    ensures within { result < length lines.now }
{
    let mut has = start;
    let mut lacks = end;
    while has + 1 < lacks {
        let middle = has + (lacks - has) / 2;
        if sight.ancestor(lines[middle].place, x) {
            has = middle;
        } else {
            lacks = middle;
        }
    }
    has
}

/// The time at which a line that is listed so first had row `x` as ancestor.
fn listed_time<P: Prefix>(p: &P, lines: &[LineRow], start: usize, end: usize, x: usize) -> u64
    requires shaped { IsShapedIn (P.shape p.now) }
    requires line { HasLine (P.shape p.now).links x lines.now start end }
    requires top { place_at lines.now start < length (P.shape p.now).links }
    requires place { x < length (P.shape p.now).links }
    requires has { is_ancestor (P.shape p.now).links (place_at lines.now start) x ≡ true }
    requires times { HaveTimes (P.graph p.now).rows lines.now }
    ensures { result ≡ time_at (P.graph p.now).rows (first_holder (P.shape p.now).links x (place_at lines.now start)) }
{
    lines[find_first(p, lines, start, end, x)].time
}

/// The times at which these lines first had row `x` as ancestor.
fn list_times<P: Prefix>(
    p: &P,
    places: &[usize],
    lines: &[LineRow],
    starts: &[usize],
    x: usize,
    times: &mut [u64],
)
    requires shaped { IsShapedIn (P.shape p.now) }
    requires places { All (λ w. w < length (P.shape p.now).links) places.now }
    requires lines { AreLinesOf (P.graph p.now).rows (P.shape p.now).links places.now x lines.now starts.now }
    requires wide { length places.now < length starts.now }
    requires place { x < length (P.shape p.now).links }
    requires have { all_have (P.shape p.now).links places.now x ≡ true }
    requires same { length times.old ≡ length places.now }
    ensures { times.new ≡ times_of (P.graph p.now).rows (P.shape p.now).links x places.now }
{
    for i in 0..places.len() {
        times[i] = listed_time(p, lines, starts[i], starts[i + 1], x);
    }
}

/// The median of the times at which the lines of these unique famous witnesses first had row `x` as ancestor.
pub fn median_of_lines<P: Prefix>(
    p: &P,
    famous: &[usize],
    lines: &[LineRow],
    starts: &[usize],
    x: usize,
) -> u64
    requires famous { AreFamous (P.graph p.now) famous.now }
    requires lines { AreLinesOf (P.graph p.now).rows (P.shape p.now).links famous.now x lines.now starts.now }
    requires wide { length famous.now < length starts.now }
    requires received { IsBelowAll (P.graph p.now) famous.now x }
    ensures { result ≡ median (times_of (P.graph p.now).rows (links_of (P.graph p.now)) x famous.now) }
{
    is_of_graph(p);
    median_in(p, famous, lines, starts, x, &mut [0; 128])
}

/// The same, found in an array of at least as many times as there are witnesses.
fn median_in<P: Prefix>(
    p: &P,
    places: &[usize],
    lines: &[LineRow],
    starts: &[usize],
    x: usize,
    times: &mut [u64],
) -> u64
    requires shaped { IsShapedIn (P.shape p.now) }
    requires places { All (λ w. w < length (P.shape p.now).links) places.now }
    requires lines { AreLinesOf (P.graph p.now).rows (P.shape p.now).links places.now x lines.now starts.now }
    requires wide { length places.now < length starts.now }
    requires place { x < length (P.shape p.now).links }
    requires have { all_have (P.shape p.now).links places.now x ≡ true }
    requires room { length places.now ≤ length times.old }
    ensures { result ≡ median (times_of (P.graph p.now).rows (P.shape p.now).links x places.now) }
{
    let times = &mut times[..places.len()];
    list_times(p, places, lines, starts, x, times);
    median_of(times)
}
