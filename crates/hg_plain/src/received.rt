ghost use Rattle.std.specs.Prelude.{◌≡◌, ◌<◌, ◌≤◌, ◌^◌, length, IfOk, false, None};
ghost use Rattle.hg_model.specs.Stakes.{member_count};
ghost use Rattle.hg_model.specs.Fame.{is_closed};
ghost use Rattle.hg_model.specs.Order.{can_receive, round_received};
ghost use Rattle.hg_model.specs.Prefix.{links_of};
ghost use Rattle.hg_model.specs.GraphWords.{shape_in, is_closed_in, can_receive_in, round_received_in};
ghost use Rattle.hg_plain_graph.specs.Held.{IsClosedTable};
ghost use Rattle.hg_plain.specs.Held.{IsReceivedTable};

use crate::prefix::PlainPrefix;
use hg_model::{Memory, Sight};
use hg_order::{received_in, unique_famous};
use std::alloc::Global;

/// The round that receives each row, if some round does.
#[tactic(auto, using(hg_plain_graph::proofs::TableLaws::table_steps))]
pub fn rounds_received(
    alloc: Global,
    p: &PlainPrefix<'_>,
    marks: &[Option<bool>],
    closed: &[bool],
) -> Result<Vec<Option<u32>>, Memory>
    requires closed { IsClosedTable (shape_in p.now) marks.now closed.now }
    ensures { IfOk result (λ v. IsReceivedTable (shape_in p.now) marks.now v.items) }
{
    let mut places = vec![in alloc; 0; p.members() as usize]?;
    let mut received = Vec::new(alloc);
    for x in 0..p.rows() {
        received.push(round_received(p, marks, closed, x, &mut places))?;
    }
    Ok(received)
}

/// The first round that can receive row `x`; `places` has room for a row of each member.
#[tactic(auto, using(hg_model::proofs::PlacesLaws::least_steps, hg_model::proofs::SearchLaws::least_number_first), unfolding(hg_model::specs::Order::round_received))]
fn round_received(
    p: &PlainPrefix<'_>,
    marks: &[Option<bool>],
    closed: &[bool],
    x: usize,
    places: &mut [usize],
) -> Option<u32>
    requires closed { IsClosedTable (shape_in p.now) marks.now closed.now }
    requires row { x < length (links_of p.now) }
    requires room { member_count p.now.members ≤ length places.old }
    requires short { length closed.now < 2 ^ 32 }
    ensures { result ≡ round_received_in p.now marks.now x }
{
    for (r, is_closed) in closed.iter().enumerate() {
        if can_receive(p, marks, *is_closed, r as u32, x, places) {
            return Some(r as u32);
        }
    }
    None
}

/// Whether round `r`, which the marks close or not, can receive row `x`.
fn can_receive(
    p: &PlainPrefix<'_>,
    marks: &[Option<bool>],
    decided: bool,
    r: u32,
    x: usize,
    places: &mut [usize],
) -> bool
    requires closed { decided ≡ is_closed_in p.now marks.now r }
    requires row { x < length (links_of p.now) }
    requires room { member_count p.now.members ≤ length places.old }
    ensures { result ≡ can_receive_in p.now marks.now x r }
{
    if !decided {
        return false;
    }
    let count = unique_famous(p, marks, r, places);
    count > 0 && received_in(p, &places[..count], x)
}
