ghost use Rattle.std.specs.Prelude.{◌≡◌, ◌<◌, ◌≤◌, ◌-◌, ◌^◌, ◌&&◌, ◌==◌, length, slice_index, IfOk};
ghost use Rattle.hg_model.specs.Places.{IsEarlier, maximum_below};
ghost use Rattle.hg_model.specs.Links.{parents};
ghost use Rattle.hg_model.specs.Rounds.{parent_round, is_seen_witness, is_witness_by, round_of, stake_at};
ghost use Rattle.hg_plain_graph.specs.Held.{IsRoundTable, IsStrongTable, seen_weight};

use crate::links::{PlainLink, creator_of, parents_of, self_parent_of};
use crate::seeing::Seeing;
use crate::tables::cell;
use hg_model::{Memory, is_supermajority};
use std::alloc::Global;

/// The rounds of all rows, from the table of what strongly sees what.
#[tactic(auto, using(crate::proofs::TableLaws::table_steps))]
pub fn rounds_of(alloc: Global, seeing: &Seeing, strong: &[Vec<bool>]) -> Result<Vec<u32>, Memory>
    requires strong { IsStrongTable seeing.now strong.now }
    requires short { length seeing.now.links < 2 ^ 32 - 1 }
    ensures { IfOk result (λ v. IsRoundTable seeing.now (length seeing.now.links) v.items) }
{
    let len = seeing.ancestry().links().len();
    let mut rounds = Vec::with_capacity(alloc, len)?;
    for x in 0..len {
        rounds.push(next_round(seeing, strong, &rounds, x))?;
    }
    Ok(rounds)
}

/// The round of row `x`, from the rounds of the rows before it.
fn next_round(seeing: &Seeing, strong: &[Vec<bool>], rounds: &[u32], x: usize) -> u32
    requires place { x < length seeing.now.links }
    requires strong { IsStrongTable seeing.now strong.now }
    requires known { IsRoundTable seeing.now x rounds.now }
    requires short { x < 2 ^ 32 - 1 }
    ensures { result ≡ round_of seeing.now.members seeing.now.links x }
{
    let r = parent_round(seeing.ancestry().links(), rounds, x);
    if is_supermajority(seeing.total(), weigh_seen(seeing, strong, rounds, r, x)) {
        r + 1
    } else {
        r
    }
}

/// The greatest of the rounds of the parents of row `x`, or 1.
#[tactic(auto, using(crate::proofs::StepLaws::parent_round_steps))]
fn parent_round(links: &[PlainLink], rounds: &[u32], x: usize) -> u32
    requires place { x < length links.now }
    requires earlier { IsEarlier (parents links.now) }
    requires known { x ≤ length rounds.now }
    ensures { result ≡ parent_round (λ p. slice_index rounds.now p) (parents links.now x) }
{
    let places = parents_of(links, x);
    let mut greatest = 1;
    for place in places {
        greatest = rounds[*place].max(greatest);
    }
    greatest
}

/// What the witnesses of round `r` weigh that row `x` strongly sees.
#[tactic(auto, using(hg_model::proofs::PlacesLaws::weight_steps))]
fn weigh_seen(seeing: &Seeing, strong: &[Vec<bool>], rounds: &[u32], r: u32, x: usize) -> u64
    requires place { x < length seeing.now.links }
    requires strong { IsStrongTable seeing.now strong.now }
    requires known { x ≤ length rounds.now }
    requires short { x < 2 ^ 32 - 1 }
    ensures { result ≡ seen_weight seeing.now rounds.now r x }
{
    let mut weight = 0;
    for y in 0..x {
        if is_seen_witness(seeing, strong, rounds, r, x, y) {
            weight += u64::from(stake_at(seeing, y));
        }
    }
    weight
}

/// The stake of the creator of row `y`.
pub fn stake_at(seeing: &Seeing, y: usize) -> u32
    requires { y < length seeing.now.links }
    ensures { result ≡ stake_at seeing.now.members seeing.now.links y }
{
    seeing.stakes()[usize::from(creator_of(seeing.ancestry().links(), y))]
}

/// Whether row `y` is a witness of round `r` that row `x` strongly sees.
fn is_seen_witness(
    seeing: &Seeing,
    strong: &[Vec<bool>],
    rounds: &[u32],
    r: u32,
    x: usize,
    y: usize,
) -> bool
    requires place { x < length seeing.now.links }
    requires strong { IsStrongTable seeing.now strong.now }
    requires known { x ≤ length rounds.now }
    requires before { y < x }
    ensures { result ≡ is_seen_witness (λ k. slice_index rounds.now k) seeing.now.members seeing.now.links r x y }
{
    is_witness_in(seeing.ancestry().links(), rounds, r, y) && cell(strong, x, y)
}

/// Whether row `x` is a witness of round `r`.
fn is_witness_in(links: &[PlainLink], rounds: &[u32], r: u32, x: usize) -> bool
    requires place { x < length links.now }
    requires earlier { IsEarlier (parents links.now) }
    requires known { x < length rounds.now }
    ensures { result ≡ (is_witness_by (λ p. slice_index rounds.now p) links.now x && slice_index rounds.now x == r) }
{
    rounds[x] == r && is_witness_by(links, rounds, x)
}

/// Whether row `x` has no self-parent, or a round above its self-parent's.
pub fn is_witness_by(links: &[PlainLink], rounds: &[u32], x: usize) -> bool
    requires place { x < length links.now }
    requires earlier { IsEarlier (parents links.now) }
    requires known { x < length rounds.now }
    ensures { result ≡ is_witness_by (λ p. slice_index rounds.now p) links.now x }
{
    match self_parent_of(links, x) {
        None => true,
        Some(self_place) => rounds[self_place] < rounds[x],
    }
}

/// The greatest of the rounds, 0 if there is none.
#[tactic(auto, using(hg_model::proofs::PlacesLaws::maximum_steps))]
pub fn greatest_of(rounds: &[u32]) -> u32
    ensures { result ≡ maximum_below (λ x. slice_index rounds.now x) (length rounds.now) }
{
    let mut greatest = 0;
    for x in 0..rounds.len() {
        greatest = rounds[x].max(greatest);
    }
    greatest
}
