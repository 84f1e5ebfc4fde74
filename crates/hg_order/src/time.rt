ghost use Rattle.std.specs.Prelude.{◌≡◌, ◌<◌, ◌≤◌, ◌-◌, ◌/◌, true, All, length, slice_index};
ghost use Rattle.hg_model.specs.Prefix.{links_of};
ghost use Rattle.hg_model.specs.Ancestry.{is_ancestor};
ghost use Rattle.hg_model.specs.Order.{median, time_at};
ghost use Rattle.hg_model.specs.GraphWords.{shape_in, IsShapedIn};
ghost use Rattle.hg_order.specs.Round.{IsTimeBy};
ghost use Rattle.hg_order.specs.Famous.{AreFamous, first_holder, times_of, IsBelowAll};

use hg_model::{Prefix, Sight, is_of_graph};

/// The consensus timestamp of row `x` by the unique famous witnesses of a round, all of which have it as ancestor.
pub fn time_of<P: Prefix>(p: &P, famous: &[usize], x: usize) -> u64
    requires famous { AreFamous (P.graph p.now) famous.now }
    requires received { IsBelowAll (P.graph p.now) famous.now x }
    ensures { IsTimeBy (P.graph p.now) famous.now x result }
{
    is_of_graph(p);
    median_time(p, famous, x)
}

/// The median of the times at which the lines of these witnesses first had row `x` as ancestor.
pub fn median_time<P: Prefix>(p: &P, famous: &[usize], x: usize) -> u64
    requires famous { AreFamous (P.graph p.now) famous.now }
    requires received { IsBelowAll (P.graph p.now) famous.now x }
    ensures { result ≡ median (times_of (P.graph p.now).rows (links_of (P.graph p.now)) x famous.now) }
{
    is_of_graph(p);
    median_in(p, famous, x, &mut [0; 128])
}

/// The same, found in an array of at least as many times as there are witnesses.
fn median_in<P: Prefix>(p: &P, famous: &[usize], x: usize, times: &mut [u64]) -> u64
    requires shaped { IsShapedIn (shape_in (P.graph p.now)) }
    requires places { All (λ w. w < length (links_of (P.graph p.now))) famous.now }
    requires have { IsBelowAll (P.graph p.now) famous.now x }
    requires room { length famous.now ≤ length times.old }
    ensures { result ≡ median (times_of (P.graph p.now).rows (links_of (P.graph p.now)) x famous.now) }
{
    let times = &mut times[..famous.len()];
    fill_times(p, famous, x, times);
    median_of(times)
}

/// The times at which the lines of these rows first had row `x` as ancestor.
fn fill_times<P: Prefix>(p: &P, places: &[usize], x: usize, times: &mut [u64])
    requires shaped { IsShapedIn (shape_in (P.graph p.now)) }
    requires places { All (λ w. w < length (links_of (P.graph p.now))) places.now }
    requires have { IsBelowAll (P.graph p.now) places.now x }
    requires same { length times.old ≡ length places.now }
    ensures { times.new ≡ times_of (P.graph p.now).rows (links_of (P.graph p.now)) x places.now }
{
    for (i, w) in places.iter().enumerate() {
        times[i] = holder_time(p, *w, x);
    }
}

/// The time at which the line of row `w` first had row `x` as ancestor.
#[tactic(auto, using(crate::proofs::RowLaws::row_known))]
fn holder_time<P: Prefix>(p: &P, w: usize, x: usize) -> u64
    requires shaped { IsShapedIn (shape_in (P.graph p.now)) }
    requires line { w < length (links_of (P.graph p.now)) }
    requires place { x < length (links_of (P.graph p.now)) }
    requires has { is_ancestor (links_of (P.graph p.now)) w x ≡ true }
    ensures { result ≡ time_at (P.graph p.now).rows (first_holder (links_of (P.graph p.now)) x w) }
{
    is_of_graph(p);
    p.row(first_holder(p, x, w)).time
}

/// The first of the line of row `w` that has row `x` as ancestor.
fn first_holder<S: Sight>(sight: &S, x: usize, w: usize) -> usize
    requires shaped { IsShapedIn (S.shape sight.now) }
    requires place { x < length (S.shape sight.now).links }
    requires line { w < length (S.shape sight.now).links }
    requires has { is_ancestor (S.shape sight.now).links w x ≡ true }
    ensures value { result ≡ first_holder (S.shape sight.now).links x w }
    ensures within { result ≤ w }
{
    let mut z = w;
    while let Some(before) = sight.self_parent(z) {
        if !sight.ancestor(before, x) {
            break;
        }
        z = before;
    }
    z
}

/// Of k times that at place (k - 1) / 2, or 0 if there is none.
fn middle_of(times: &[u64]) -> u64
    ensures { result ≡ slice_index times.now ((length times.now - 1) / 2) }
{
    match times.get(times.len().saturating_sub(1) / 2) {
        None => 0,
        Some(time) => *time,
    }
}

/// Of k times in ascending order that at place (k - 1) / 2, or 0 if there is none.
pub fn median_of(times: &mut [u64]) -> u64
    ensures { result ≡ median times.old }
{
    times.sort_unstable();
    middle_of(times)
}
