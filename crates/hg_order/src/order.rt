ghost use Rattle.std.specs.Prelude.{◌≡◌, ◌<◌, ◌≤◌, All, length, map, replicate, slice_get};
ghost use Rattle.std.specs.List.{AllByRecursion};
ghost use Rattle.hg_model.specs.Prefix.{links_of};
ghost use Rattle.hg_model.specs.Order.{sort_by};
ghost use Rattle.hg_order.specs.Famous.{AreFamous, IsBelowAll, whitening_of};
ghost use Rattle.hg_order.specs.Round.{placed_below, rows_cmp, sig_or_zeros, name_or_zeros, placed_cmp, placed_less, sorted_below, IsWide, ArePlacedBy, AreOrderedBy, IsRoundOf};

use crate::memory::RoundMemory;
use crate::placing::place_within;
use crate::time::median_time;
use crate::white::{no_signature, white_cmp, whitening};
use hg_model::{Name, Placed, Prefix, Sig, is_of_graph};
use std::cmp::Ordering;

/// The rows at the places `fresh`, as the round of these unique famous witnesses places them, in order: `out` is as
/// long as `fresh`. Where `fresh` has just what the round receives, in the order of the places, this is the order of
/// the round.
pub fn order_round<P: Prefix>(p: &P, famous: &[usize], fresh: &[u32], out: &mut [Placed])
    requires famous { AreFamous (P.graph p.now) famous.now }
    requires some { 0 < length fresh.now → 0 < length famous.now }
    requires received { AllByRecursion (IsBelowAll (P.graph p.now) famous.now) fresh.now }
    requires same { length out.old ≡ length fresh.now }
    ensures placed { ArePlacedBy (P.graph p.now) famous.now fresh.now out.new }
    ensures whole { AreOrderedBy (P.graph p.now) famous.now fresh.now out.new }
{
    is_of_graph(p);
    place_rows(p, famous, round_of(p, famous), fresh, out);
    sort_round(p, famous, out);
}

/// The same, with the consensus timestamps found in this memory, if it is for the rows from the first of `fresh` to the last
/// of the witnesses: in time of the rows and the witnesses, where the ancestors of rows are counted, and else in time of the
/// logarithm of these for each of `fresh` and each witness.
pub fn order_round_within<P: Prefix>(
    p: &P,
    famous: &[usize],
    fresh: &[u32],
    memory: &mut RoundMemory,
    out: &mut [Placed],
)
    requires famous { AreFamous (P.graph p.now) famous.now }
    requires some { 0 < length fresh.now → 0 < length famous.now }
    requires received { AllByRecursion (IsBelowAll (P.graph p.now) famous.now) fresh.now }
    requires same { length out.old ≡ length fresh.now }
    ensures placed { ArePlacedBy (P.graph p.now) famous.now fresh.now out.new }
    ensures whole { AreOrderedBy (P.graph p.now) famous.now fresh.now out.new }
    ensures room { memory.new ≡ memory.old }
{
    is_of_graph(p);
    place_within(p, famous, round_of(p, famous), fresh, memory, out);
    sort_round(p, famous, out);
}

/// Sorts rows that the round of these unique famous witnesses places.
fn sort_round<P: Prefix>(p: &P, famous: &[usize], placed: &mut [Placed])
    requires { AreFamous (P.graph p.now) famous.now }
    ensures sorted { placed.new ≡ sorted_below (P.graph p.now).rows famous.now placed.old }
    ensures long { length (whitening_of (P.graph p.now).rows famous.now) ≡ 64 }
{
    is_of_graph(p);
    sort_placed(p, &whitening(p, famous), placed);
}

/// The round of these unique famous witnesses, or 0 if there is none.
fn round_of<P: Prefix>(p: &P, famous: &[usize]) -> u32
    requires { AreFamous (P.graph p.now) famous.now }
    ensures { IsRoundOf (P.graph p.now) famous.now result }
{
    is_of_graph(p);
    match famous {
        [] => 0,
        [first, ..] => p.round(*first),
    }
}

/// The rows at the places `fresh` as the round places them, in their order.
pub fn place_rows<P: Prefix>(p: &P, famous: &[usize], round: u32, fresh: &[u32], out: &mut [Placed])
    requires famous { AreFamous (P.graph p.now) famous.now }
    requires received { AllByRecursion (IsBelowAll (P.graph p.now) famous.now) fresh.now }
    requires same { length out.old ≡ length fresh.now }
    ensures placed { out.new ≡ map (placed_below (P.graph p.now) famous.now round) fresh.now }
    ensures wide { All (IsWide (P.graph p.now).rows) fresh.now }
{
    for (i, x) in fresh.iter().enumerate() {
        out[i] = place_row(p, famous, round, *x as usize);
    }
}

/// Row `x` as the round places it.
fn place_row<P: Prefix>(p: &P, famous: &[usize], round: u32, x: usize) -> Placed
    requires famous { AreFamous (P.graph p.now) famous.now }
    requires received { IsBelowAll (P.graph p.now) famous.now x }
    ensures placed { result ≡ placed_below (P.graph p.now) famous.now round x }
    ensures wide { IsWide (P.graph p.now).rows x }
{
    is_wide(p, x);
    Placed {
        place: x,
        received: round,
        time: median_time(p, famous, x),
    }
}

/// A law: the signature of a row has 64 bytes.
#[tactic(auto, using(crate::proofs::RowLaws::row_known))]
pub fn is_wide<P: Prefix>(p: &P, x: usize)
    requires { x < length (links_of (P.graph p.now)) }
    ensures { IsWide (P.graph p.now).rows x }
{
    is_of_graph(p);
    is_long(&p.row(x).sig);
}

/// A law: a signature has 64 bytes.
fn is_long(sig: &Sig)
    ensures { length sig.now ≡ 64 }
{}

/// Sorts placed rows.
fn sort_placed<P: Prefix>(p: &P, white: &Sig, placed: &mut [Placed])
    ensures { placed.new ≡ sort_by (placed_less (P.graph p.now).rows white.now) placed.old }
{
    placed.sort_unstable_by(|a, b| placed_cmp(p, white, a, b));
}

/// How placed rows compare; their signatures and names are read only where the times are the same.
#[tactic(auto, using(hg_model::proofs::CompareLaws::then_assoc))]
fn placed_cmp<P: Prefix>(p: &P, white: &Sig, a: &Placed, b: &Placed) -> Ordering
    ensures { result ≡ placed_cmp (P.graph p.now).rows white.now a.now b.now }
{
    match a.received.cmp(&b.received).then(a.time.cmp(&b.time)) {
        Ordering::Equal => rows_cmp(p, white, a.place, b.place).then(a.place.cmp(&b.place)),
        unequal => unequal,
    }
}

/// How the rows at two places compare by their whitened signatures and their names. A call of its own, so that the sort, which
/// hardly makes it, stays short.
#[inline(never)]
#[tactic(auto, unfolding(crate::specs::Round::rows_cmp))]
fn rows_cmp<P: Prefix>(p: &P, white: &Sig, x: usize, y: usize) -> Ordering
    ensures { result ≡ rows_cmp (P.graph p.now).rows white.now x y }
{
    is_of_graph(p);
    if x < p.rows() && y < p.rows() {
        let a = p.row(x);
        let b = p.row(y);
        return white_cmp(&a.sig, &a.name, &b.sig, &b.name, white);
    }
    any_rows_cmp(p, white, x, y)
}

/// The same where a place may be of no row.
#[tactic(auto, unfolding(crate::specs::Round::rows_cmp))]
fn any_rows_cmp<P: Prefix>(p: &P, white: &Sig, x: usize, y: usize) -> Ordering
    ensures { result ≡ rows_cmp (P.graph p.now).rows white.now x y }
{
    let a = tie_break_at(p, x);
    let b = tie_break_at(p, y);
    white_cmp(&a.sig, &a.name, &b.sig, &b.name, white)
}

/// What tells rows apart whose consensus timestamps are the same.
#[derive(Clone, Copy)]
struct TieBreak {
    sig: Sig,
    name: Name,
}

/// The signature and the name of the row at a place; zeros stand for what is not there.
#[tactic(auto, using(crate::proofs::RowLaws::zeros_past))]
fn tie_break_at<P: Prefix>(p: &P, x: usize) -> TieBreak
    ensures sig { result.sig ≡ sig_or_zeros (slice_get (P.graph p.now).rows x) }
    ensures name { result.name ≡ name_or_zeros (slice_get (P.graph p.now).rows x) }
{
    is_of_graph(p);
    if x < p.rows() {
        let row = p.row(x);
        TieBreak {
            sig: row.sig,
            name: row.name,
        }
    } else {
        TieBreak {
            sig: no_signature(),
            name: no_name(),
        }
    }
}

/// 48 bytes 0.
fn no_name() -> Name
    ensures { result ≡ replicate 48 0 }
{
    [0; 48]
}
