ghost use Rattle.std.specs.Prelude.{◌≡◌, ◌<◌, ◌+◌, ◌-◌, ◌^◌, false, length, IfOk, slice_index_or};
ghost use Rattle.hg_model.specs.Places.{some_below, greatest_below};
ghost use Rattle.hg_model.specs.Fame.{is_witness_of_round, is_unmarked, is_closed};
ghost use Rattle.hg_plain_graph.specs.Held.{IsClosedTable};

use crate::sight::PlainSight;
use hg_model::Memory;
use std::alloc::Global;

/// Whether row `y` is a witness of round `r`.
pub fn is_witness_of_round(sight: &PlainSight, r: u32, y: usize) -> bool
    requires { y < length sight.now.links }
    ensures { result ≡ is_witness_of_round sight.now.members sight.now.links r y }
{
    sight.is_witness(y) && sight.round(y) == r
}

/// Whether round `r` has a witness.
#[tactic(auto, using(hg_model::proofs::PlacesLaws::some_steps))]
fn has_witness(sight: &PlainSight, r: u32) -> bool
    ensures { result ≡ some_below (length sight.now.links) (is_witness_of_round sight.now.members sight.now.links r) }
{
    for y in 0..sight.len() {
        if is_witness_of_round(sight, r, y) {
            return true;
        }
    }
    false
}

/// Whether row `y` is a witness of a round at most `r`, without a mark.
fn is_unmarked(sight: &PlainSight, marks: &[Option<bool>], r: u32, y: usize) -> bool
    requires same { length marks.now ≡ length sight.now.links }
    requires row { y < length sight.now.links }
    ensures { result ≡ is_unmarked sight.now.members sight.now.links marks.now r y }
{
    sight.is_witness(y) && sight.round(y) <= r && marks[y].is_none()
}

/// Whether some witness of a round at most `r` has no mark.
#[tactic(auto, using(hg_model::proofs::PlacesLaws::some_steps))]
fn has_unmarked(sight: &PlainSight, marks: &[Option<bool>], r: u32) -> bool
    requires { length marks.now ≡ length sight.now.links }
    ensures { result ≡ some_below (length sight.now.links) (is_unmarked sight.now.members sight.now.links marks.now r) }
{
    for y in 0..sight.len() {
        if is_unmarked(sight, marks, r, y) {
            return true;
        }
    }
    false
}

/// Whether the marks close round `r`.
#[tactic(auto, unfolding(hg_model::specs::Fame::is_closed))]
fn is_closed(sight: &PlainSight, marks: &[Option<bool>], r: u32) -> bool
    requires { length marks.now ≡ length sight.now.links }
    ensures { result ≡ is_closed sight.now.members sight.now.links marks.now r }
{
    has_witness(sight, r) && !has_unmarked(sight, marks, r)
}

/// Whether the marks close each round, from 0 to the number of rows.
#[tactic(auto, using(crate::proofs::TableLaws::table_steps))]
pub fn closed_rounds(
    alloc: Global,
    sight: &PlainSight,
    marks: &[Option<bool>],
) -> Result<Vec<bool>, Memory>
    requires same { length marks.now ≡ length sight.now.links }
    requires short { length marks.now < 2 ^ 32 - 1 }
    ensures { IfOk result (λ v. IsClosedTable sight.now marks.now v.items) }
{
    let mut closed = Vec::new(alloc);
    for r in 0..marks.len() as u32 + 1 {
        closed.push(is_closed(sight, marks, r))?;
    }
    Ok(closed)
}

/// The greatest closed round, or 0.
#[tactic(auto, using(hg_model::proofs::PlacesLaws::greatest_steps))]
pub fn last_closed(closed: &[bool]) -> u32
    requires { length closed.now < 2 ^ 32 }
    ensures { result ≡ greatest_below (length closed.now) (λ r. slice_index_or closed.now r false) }
{
    let mut last = 0;
    for (r, is_closed) in closed.iter().enumerate() {
        if *is_closed {
            last = r as u32;
        }
    }
    last
}
