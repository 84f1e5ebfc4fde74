ghost use Rattle.std.specs.Prelude.{◌≡◌, ◌<◌, ◌≤◌, ◌-◌, ℕ, [], All, length, replicate, slice_index, vec_capacity};
ghost use Rattle.hg_model.specs.Prefix.{links_of};
ghost use Rattle.hg_model.specs.Order.{sort_by};
ghost use Rattle.hg_order.specs.Counted.{AreLines, JustBelow};
ghost use Rattle.hg_order.specs.Timers.{line_row_cmp, line_rows_below, is_earlier, is_on_some_line};

use crate::timer::LineRow;
use hg_model::{Prefix, Sight, is_of_graph, is_shaped};
use std::cmp::Ordering;

/// Makes zeros the ends of the lines of these rows: for each creator one more than the place of the last of them. It
/// answers the greatest end.
pub fn raise_ends<S: Sight>(sight: &S, places: &[usize], ends: &mut [usize]) -> usize
    requires places { All (λ w. w < length (S.shape sight.now).links) places.now }
    requires lines { AreLines (S.shape sight.now).links }
    requires none { ends.old ≡ replicate 128 0 }
    ensures just { JustBelow (S.shape sight.now).links ends.new (is_on_some_line (S.shape sight.now).links places.now) }
    ensures below { All (λ w. w < result) places.now }
    ensures within { (m : ℕ) → slice_index ends.new m ≤ result }
    ensures end { result ≤ length (S.shape sight.now).links }
{
    is_shaped(sight);
    let mut last: usize = 0;
    for w in places {
        let member = sight.creator(*w) as usize;
        ends[member] = ends[member].max(*w + 1);
        last = last.max(*w + 1);
    }
    last
}

/// The rows from `low` up to below `end` that stand below the end of the line of their creator.
#[tactic(auto, using(crate::proofs::RowLaws::row_known))]
pub fn list_line_rows<P: Prefix>(
    p: &P,
    ends: &[usize; 128],
    low: usize,
    end: usize,
    line_rows: &mut Vec<LineRow>,
)
    requires order { low ≤ end }
    requires end { end ≤ length (links_of (P.graph p.now)) }
    requires none { line_rows.old.items ≡ [] }
    requires room { end - low ≤ vec_capacity line_rows.old }
    ensures listed { line_rows.new.items ≡ line_rows_below (P.graph p.now) ends.now low end }
    ensures room { vec_capacity line_rows.new ≡ vec_capacity line_rows.old }
{
    is_of_graph(p);
    for z in low..end {
        if z < ends[p.creator(z) as usize] {
            line_rows.push_reserved(LineRow {
                time: p.row(z).time,
                place: z,
            });
        }
    }
}

/// How line rows compare.
fn line_row_cmp(a: &LineRow, b: &LineRow) -> Ordering
    ensures { result ≡ line_row_cmp a.now b.now }
{
    a.time.cmp(&b.time).then(a.place.cmp(&b.place))
}

/// Sorts line rows by their times.
fn sort_slice(line_rows: &mut [LineRow])
    ensures { line_rows.new ≡ sort_by is_earlier line_rows.old }
{
    line_rows.sort_unstable_by(|a, b| line_row_cmp(a, b));
}

/// The same of a list that owns its memory.
pub fn sort_line_rows(line_rows: &mut Vec<LineRow>)
    ensures sorted { line_rows.new.items ≡ sort_by is_earlier line_rows.old.items }
    ensures room { vec_capacity line_rows.new ≡ vec_capacity line_rows.old }
{
    sort_slice(line_rows);
}
