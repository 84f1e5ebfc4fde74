ghost use Rattle.std.specs.Prelude.{◌≡◌, ◌<◌, ◌≤◌, ◌-◌, ◌^◌, length, replicate};
ghost use Rattle.hg_model.specs.Prefix.{IsCounted, ballot_of};
ghost use Rattle.hg_model.specs.GraphWords.{round_in};
ghost use Rattle.hg_model.specs.Votes.{is_normal};
ghost use Rattle.hg_votes.specs.Counting.{HasRoom, HoldsBallots, HoldsVoted, HoldsVoters, IsOpened, IsVotersOf, witnesses_of};

use crate::slots::mark;
use crate::tally::{Voted, weigh_slots};
use crate::voters::Voters;
use crate::weighing::{is_normal, weigh_where};
use hg_model::{Ballot, Prefix};

/// The ballot of witness `y` on `x`, so many rounds below it, from the votes of its voters.
fn next_ballot<P: Prefix>(
    p: &P,
    voters: &[u64],
    voted: Voted<'_>,
    x: usize,
    y: usize,
    above: u32,
    normal: bool,
) -> Ballot
    requires counted { IsCounted (P.graph p.now) x (round_in (P.graph p.now) y) y }
    requires candidate { x < length (P.graph p.now).rows }
    requires short { length (P.graph p.now).rows < 2 ^ 32 - 1 }
    requires above { above ≡ round_in (P.graph p.now) y - round_in (P.graph p.now) x }
    requires normal { normal ≡ is_normal (P.graph p.now).coin above }
    requires voters { IsVotersOf (P.graph p.now) y voters.now }
    requires wide { length voters.now ≤ length voted.yes.now }
    requires rows { voted.rows.now ≡ witnesses_of (P.graph p.now) (round_in (P.graph p.now) y - 1) }
    requires before { HoldsVoted (P.graph p.now) x (round_in (P.graph p.now) y - 1) voted.yes.now }
    ensures { result ≡ ballot_of (P.graph p.now) x y }
{
    if above == 1 {
        return Ballot {
            vote: p.sees(y, x),
            decides: false,
        };
    }
    let tally = weigh_slots(p, voted.rows, voters, voted.yes);
    weigh_where(normal, above, tally.yes, tally.no, p.total(), &p.row(y).sig)
}

/// Counts the votes on `x` of the witnesses of round `r`, where those of the rounds before are counted: their ballots,
/// and as a set those who vote yes.
pub fn count_round<P: Prefix>(
    p: &P,
    voters: &Voters,
    voted: &[u64],
    ballots: &mut [Ballot],
    next: &mut [u64],
    x: usize,
    r: u32,
)
    requires first { 0 < r }
    requires opened { IsOpened (P.graph p.now) x (r - 1) }
    requires short { length (P.graph p.now).rows < 2 ^ 32 - 1 }
    requires voters { HoldsVoters (P.graph p.now) (length (P.graph p.now).rows) voters.now }
    requires room { HasRoom (P.graph p.now) (length voted.now) }
    requires same { length next.old ≡ length voted.now }
    requires voted { HoldsVoted (P.graph p.now) x (r - 1) voted.now }
    requires before { HoldsBallots (P.graph p.now) x (r - 1) ballots.old }
    ensures ballots { HoldsBallots (P.graph p.now) x r ballots.new }
    ensures next { HoldsVoted (P.graph p.now) x r next.new }
{
    next.fill(0);
    let above = r - p.round(x);
    let normal = is_normal(above, p.coin());
    let rows = p.witnesses(r - 1);
    let before = Voted { rows, yes: voted };
    let witnesses = p.witnesses(r);
    for slot in 0..witnesses.len() {
        let y = witnesses[slot];
        let number = voters.number(y);
        let ballot = next_ballot(p, voters.voters(number), before, x, y, above, normal);
        mark(next, slot, ballot.vote);
        ballots[number] = ballot;
    }
}
