ghost use Rattle.std.specs.Prelude.{◌≡◌, ◌<◌, ◌-◌, ◌^◌, length, IfOk};
ghost use Rattle.hg_model.specs.Prefix.{ballot_of, links_of};
ghost use Rattle.hg_model.specs.Votes.{is_voter, rounds_above};
ghost use Rattle.hg_votes.specs.Tallies.{voters_of};
ghost use Rattle.hg_plain.specs.Elections.{IsBallotTable, IsVoterTable};

use crate::prefix::PlainPrefix;
use hg_model::{Ballot, Items, Memory, Prefix, Sight, is_shaped};
use hg_plain_graph::PlainSight;
use hg_votes::{count_votes, weigh};
use std::alloc::Global;

/// Whether row `w` is a voter of row `y`: a witness of the round before, which `y` strongly sees.
#[tactic(auto, unfolding(hg_model::specs::Rounds::is_witness))]
fn is_voter(sight: &PlainSight, y: usize, w: usize) -> bool
    requires row { y < length sight.now.links }
    requires voter { w < length sight.now.links }
    ensures { result ≡ is_voter sight.now.members sight.now.links y w }
{
    sight.is_witness(w)
        && sight.round(w) == sight.round(y).saturating_sub(1)
        && sight.strongly_sees(y, w)
}

/// The voters of row `y`, in order.
#[tactic(auto, using(hg_model::proofs::PlacesLaws::list_steps, hg_model::proofs::LinkLaws::link_lengths), unfolding(hg_votes::specs::Tallies::voters_of))]
fn voters_of(alloc: Global, p: &PlainPrefix<'_>, y: usize) -> Result<Items<usize>, Memory>
    requires { y < length (links_of p.now) }
    ensures { IfOk result (λ v. v ≡ voters_of p.now y) }
{
    let mut voters = Vec::new(alloc);
    for w in 0..p.rows() {
        if is_voter(p.tables(), y, w) {
            voters.push(w)?;
        }
    }
    Ok(Items::from_vec(voters))
}

/// The voters of each row.
#[tactic(auto, using(hg_plain_graph::proofs::TableLaws::table_steps))]
pub fn voters(alloc: Global, p: &PlainPrefix<'_>) -> Result<Vec<Items<usize>>, Memory>
    ensures { IfOk result (λ v. IsVoterTable p.now v.items) }
{
    let mut voters = Vec::new(alloc);
    for y in 0..p.rows() {
        voters.push(voters_of(alloc, p, y)?)?;
    }
    Ok(voters)
}

/// By how many rounds row `y` is above row `x`.
fn rounds_above(sight: &PlainSight, x: usize, y: usize) -> u32
    requires candidate { x < length sight.now.links }
    requires row { y < length sight.now.links }
    ensures { result ≡ rounds_above sight.now.members sight.now.links x y }
{
    sight.round(y).saturating_sub(sight.round(x))
}

/// The ballot of row `y` on row `x`, from the ballots of the rows before `y`.
#[tactic(auto, using(hg_model::proofs::LinkLaws::link_lengths))]
fn next_ballot(
    p: &PlainPrefix<'_>,
    voters: &[usize],
    ballots: &[Ballot],
    x: usize,
    y: usize,
) -> Ballot
    requires short { length (links_of p.now) < 2 ^ 32 - 1 }
    requires candidate { x < length (links_of p.now) }
    requires row { y < length (links_of p.now) }
    requires voters { voters.now ≡ voters_of p.now y }
    requires known { IsBallotTable p.now x y ballots.now }
    ensures { result ≡ ballot_of p.now x y }
{
    let sight = p.tables();
    is_shaped(p);
    let above = rounds_above(sight, x, y);
    if above == 1 {
        return Ballot {
            vote: sight.sees(y, x),
            decides: false,
        };
    }
    let tally = count_votes(voters, p.row_stakes(), ballots);
    let weighed = weigh(
        above,
        p.coin(),
        tally.yes,
        tally.no,
        sight.total(),
        &p.row(y).sig,
    );
    Ballot {
        vote: weighed.vote,
        decides: sight.is_witness(y) & weighed.decides,
    }
}

/// The ballots of all rows on row `x`.
#[tactic(auto, using(hg_plain_graph::proofs::TableLaws::table_steps))]
pub fn ballots(
    alloc: Global,
    p: &PlainPrefix<'_>,
    voters: &[Items<usize>],
    x: usize,
) -> Result<Vec<Ballot>, Memory>
    requires short { length (links_of p.now) < 2 ^ 32 - 1 }
    requires candidate { x < length (links_of p.now) }
    requires voters { IsVoterTable p.now voters.now }
    ensures { IfOk result (λ v. IsBallotTable p.now x (length (links_of p.now)) v.items) }
{
    let mut ballots = Vec::new(alloc);
    for y in 0..voters.len() {
        let next = next_ballot(p, voters[y].as_slice(), &ballots, x, y);
        ballots.push(next)?;
    }
    Ok(ballots)
}
