ghost use Rattle.std.specs.Prelude.{◌≡◌, ◌<◌, ◌-◌, ◌^◌, length, IfOk};
ghost use Rattle.hg_model.specs.Prefix.{links_of};
ghost use Rattle.hg_model.specs.GraphWords.{fame_in, fame_marks_in};
ghost use Rattle.hg_plain.specs.Elections.{IsVoterTable, decided_vote, earlier_of, first_decision};

use crate::prefix::PlainPrefix;
use crate::votes::{ballots, voters};
use hg_model::{Ballot, Items, Memory};
use hg_plain_graph::PlainSight;
use std::alloc::Global;

/// A decision: the round of the row that decides, and its vote.
#[derive(Clone, Copy)]
pub struct Decision {
    pub round: u32,
    pub vote: bool,
}

/// Of two decisions that of the lesser round, the earlier where the rounds are equal.
fn earlier_of(earlier: Option<Decision>, later: Decision) -> Decision
    ensures { result ≡ earlier_of earlier later }
{
    match earlier {
        Some(decision) if decision.round <= later.round => decision,
        _ => later,
    }
}

/// The decision of the first decider, by round and then by place.
#[tactic(auto, using(crate::proofs::FameSteps::decision_steps))]
fn first_decision(sight: &PlainSight, ballots: &[Ballot]) -> Option<Decision>
    requires { length ballots.now ≡ length sight.now.links }
    ensures { result ≡ first_decision sight.now ballots.now }
{
    let mut first = None;
    for y in 0..sight.len() {
        if ballots[y].decides {
            let decision = Decision {
                round: sight.round(y),
                vote: ballots[y].vote,
            };
            first = Some(earlier_of(first, decision));
        }
    }
    first
}

/// The vote of a decision, if there is one.
fn decided_vote(decision: Option<Decision>) -> Option<bool>
    ensures { result ≡ decided_vote decision }
{
    decision.map(|decision| decision.vote)
}

/// The fame of row `x`, if it is a witness and decided.
fn fame(
    alloc: Global,
    p: &PlainPrefix<'_>,
    voters: &[Items<usize>],
    x: usize,
) -> Result<Option<bool>, Memory>
    requires short { length (links_of p.now) < 2 ^ 32 - 1 }
    requires candidate { x < length (links_of p.now) }
    requires voters { IsVoterTable p.now voters.now }
    ensures { IfOk result (λ fame. fame ≡ fame_in p.now x) }
{
    let sight = p.tables();
    if !sight.is_witness(x) {
        return Ok(None);
    }
    let ballots = ballots(alloc, p, voters, x)?;
    Ok(decided_vote(first_decision(sight, &ballots)))
}

/// The fame of all rows.
#[tactic(auto, using(hg_plain_graph::proofs::TableLaws::table_steps))]
pub fn marks(alloc: Global, p: &PlainPrefix<'_>) -> Result<Vec<Option<bool>>, Memory>
    requires short { length (links_of p.now) < 2 ^ 32 - 1 }
    ensures marks { IfOk result (λ v. v.items ≡ fame_marks_in p.now) }
    ensures len { IfOk result (λ v. length v.items ≡ length (links_of p.now)) }
{
    let voters = voters(alloc, p)?;
    let mut marks = Vec::new(alloc);
    for x in 0..voters.len() {
        marks.push(fame(alloc, p, &voters, x)?)?;
    }
    Ok(marks)
}
