ghost use Rattle.std.specs.Prelude.{◌≡◌, ◌<◌, ◌≤◌, ◌==◌, ◌++◌, ◌^◌, length, IfOk, OnOk, None, false};
ghost use Rattle.hg_model.specs.GraphWords.{received_order, shape_in, ordered_by};
ghost use Rattle.hg_order.specs.Round.{received_places};
ghost use Rattle.hg_plain_graph.specs.Held.{IsClosedTable};
ghost use Rattle.hg_plain.specs.Held.{IsReceivedTable};
ghost use Rattle.hg_plain.specs.Rounds.{is_round, places_received};
ghost use Rattle.hg_model.specs.Stakes.{member_count};

use crate::prefix::PlainPrefix;
use crate::received::rounds_received;
use hg_model::{Memory, Placed, Sight, is_of_graph};
use hg_order::{order_round, unique_famous};
use std::alloc::Global;

/// The rows that closed rounds receive, in order.
#[tactic(auto, using(crate::proofs::OrderLaws::order_steps))]
pub fn ordered_rows(
    alloc: Global,
    p: &PlainPrefix<'_>,
    marks: &[Option<bool>],
    closed: &[bool],
) -> Result<Vec<Placed>, Memory>
    requires closed { IsClosedTable (shape_in p.now) marks.now closed.now }
    requires short { length closed.now < 2 ^ 32 }
    ensures { IfOk result (λ v. v.items ≡ ordered_by p.now marks.now) }
{
    let received = rounds_received(alloc, p, marks, closed)?;
    let mut order = Vec::new(alloc);
    for r in 0..closed.len() as u32 {
        push_round(alloc, p, marks, &received, r, &mut order)?;
    }
    Ok(order)
}

/// What round `r` receives, behind the rows of earlier rounds.
fn push_round(
    alloc: Global,
    p: &PlainPrefix<'_>,
    marks: &[Option<bool>],
    received: &[Option<u32>],
    r: u32,
    order: &mut Vec<Placed>,
) -> Result<(), Memory>
    requires received { IsReceivedTable (shape_in p.now) marks.now received.now }
    ensures { OnOk result (order.new.items ≡ order.old.items ++ received_order p.now marks.now r) }
{
    is_of_graph(p);
    let fresh = received_places(alloc, received, r)?;
    let round = round_order(alloc, p, marks, r, &fresh)?;
    order.extend_from_slice(&round)?;
    Ok(())
}

/// The places of the rows that round `r` receives.
#[tactic(auto, using(hg_model::proofs::PlacesLaws::list_steps))]
fn received_places(alloc: Global, received: &[Option<u32>], r: u32) -> Result<Vec<u32>, Memory>
    requires { length received.now < 2 ^ 32 }
    ensures { IfOk result (λ v. v.items ≡ places_received received.now r) }
{
    let mut places = Vec::new(alloc);
    for x in 0..received.len() {
        if is_round(r, received[x]) {
            places.push(x as u32)?;
        }
    }
    Ok(places)
}

fn is_round(r: u32, received: Option<u32>) -> bool
    ensures { result ≡ is_round r received }
{
    match received {
        None => false,
        Some(k) => k == r,
    }
}

/// What round `r` receives, the rows at the places `fresh`, in order.
fn round_order(
    alloc: Global,
    p: &PlainPrefix<'_>,
    marks: &[Option<bool>],
    r: u32,
    fresh: &[u32],
) -> Result<Vec<Placed>, Memory>
    requires { fresh.now ≡ received_places p.now marks.now r }
    ensures { IfOk result (λ v. v.items ≡ received_order p.now marks.now r) }
{
    let mut placed = vec![in alloc; NOWHERE; fresh.len()]?;
    let mut places = vec![in alloc; 0; p.members() as usize]?;
    place_fresh(p, marks, r, fresh, &mut places, &mut placed);
    Ok(placed)
}

/// A row before it is placed.
const NOWHERE: Placed = Placed {
    place: 0,
    received: 0,
    time: 0,
};

/// Places what round `r` receives, in order; `places` has room for a row of each member.
fn place_fresh(
    p: &PlainPrefix<'_>,
    marks: &[Option<bool>],
    r: u32,
    fresh: &[u32],
    places: &mut [usize],
    placed: &mut [Placed],
)
    requires fresh { fresh.now ≡ received_places p.now marks.now r }
    requires room { member_count p.now.members ≤ length places.old }
    requires same { length placed.old ≡ length fresh.now }
    ensures { placed.new ≡ received_order p.now marks.now r }
{
    let count = unique_famous(p, marks, r, places);
    order_round(p, &places[..count], fresh, placed);
}
