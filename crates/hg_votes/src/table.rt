ghost use Rattle.std.specs.Prelude.{ℕ, ◌≡◌, ◌<◌, ◌≤◌, [], length, slice_index, vec_len, IfOk, OnOk, OnErr};
ghost use Rattle.hg_model.specs.Orders.{IsPrefix};
ghost use Rattle.hg_model.specs.Prefix.{Graph, graph_of};
ghost use Rattle.hg_model.specs.Stakes.{Stakes};
ghost use Rattle.hg_votes.specs.Counting.{CarriesTo, HasMost, HoldsVoters, IsMadeFor, number_of};

use crate::ballots::count_round;
use crate::shared::SharedVoters;
use crate::voters::Voters;
use hg_model::{Ballot, Memory, Prefix, Votes, is_of_graph};
use std::alloc::Global;
use std::marker::Model;
use std::mem;

/// The votes of a prefix's witnesses.
#[derive(Drop)]
pub struct VoteTable {
    voters: SharedVoters,
    /// The ballots on the candidate by witness, of those witnesses whose votes are counted.
    ballots: Vec<Ballot>,
    /// The witnesses of the last counted round who vote yes, as a set of slots.
    voted: Vec<u64>,
    /// As many words, for the next round.
    next: Vec<u64>,
    candidate: usize,
    /// The round up to which votes are counted, 0 without a candidate.
    counted: u32,
}

/// What stands where no ballot is counted.
pub(crate) const NO_BALLOT: Ballot = Ballot {
    vote: false,
    decides: false,
};

impl Model for VoteTable {
    ghost use Rattle.std.specs.Prelude.{◌≡◌, length};
    ghost use Rattle.hg_votes.specs.Counting.{Counting};

    ghost Value = { Counting };

    ghost view = { λ s. record { voters = s.voters; ballots = s.ballots.items; voted = s.voted.items; candidate = s.candidate; counted = s.counted } };

    ghost invariant = { λ s. length s.next.items ≡ length s.voted.items };
}

/// How many witnesses the round has that has most, of the rounds of the rows from this one on.
fn most_witnesses<P: Prefix>(p: &P, from: usize) -> usize
    ensures { HasMost (P.graph p.now) from (length (P.graph p.now).rows) result }
{
    let mut most = 0;
    for y in from..p.rows() {
        most = most.max(p.witnesses(p.round(y)).len());
    }
    most
}

/// Enters the rows that are not entered yet, and takes the memory of a ballot for each witness. After an error some of
/// the rows are entered, and the ballots are as they were.
fn enter<P: Prefix>(voters: &mut Voters, ballots: &mut Vec<Ballot>, p: &P) -> Result<(), Memory>
    requires few { length voters.old.numbers ≤ length (P.graph p.now).rows }
    requires before { HoldsVoters (P.graph p.now) (length voters.old.numbers) voters.old }
    ensures voters { OnOk result (HoldsVoters (P.graph p.now) (length (P.graph p.now).rows) voters.new) }
    ensures ballots { OnOk result (vec_len ballots.new ≡ length voters.new.sets) }
    ensures same { OnErr result (ballots.new.items ≡ ballots.old.items) }
    ensures numbers { IsPrefix voters.old.numbers voters.new.numbers }
    ensures sets { IsPrefix voters.old.sets voters.new.sets }
{
    voters.enter(p)?;
    ballots.resize(voters.witnesses(), NO_BALLOT)?;
    Ok(())
}

/// Enters the rows that are not entered yet, and takes the memory of a ballot for each witness. An error leaves both.
pub(crate) fn enter_or_leave<P: Prefix>(
    voters: &mut Voters,
    ballots: &mut Vec<Ballot>,
    p: &P,
) -> Result<(), Memory>
    requires few { length voters.old.numbers ≤ length (P.graph p.now).rows }
    requires before { HoldsVoters (P.graph p.now) (length voters.old.numbers) voters.old }
    ensures voters { OnOk result (HoldsVoters (P.graph p.now) (length (P.graph p.now).rows) voters.new) }
    ensures ballots { OnOk result (vec_len ballots.new ≡ length voters.new.sets) }
    ensures same_voters { OnErr result (voters.new ≡ voters.old) }
    ensures same_ballots { OnErr result (ballots.new.items ≡ ballots.old.items) }
{
    let rows = voters.rows();
    let witnesses = voters.witnesses();
    match enter(voters, ballots, p) {
        Ok(()) => Ok(()),
        Err(memory) => {
            voters.truncate(rows, witnesses);
            Err(memory)
        }
    }
}

impl VoteTable {
    /// The table of no rows, by whatever members. Takes no memory.
    pub fn empty(alloc: Global) -> VoteTable
        ensures { (members : Stakes) (coin : ℕ) → IsMadeFor result (graph_of members coin []) }
    {
        VoteTable {
            voters: SharedVoters::new(alloc),
            ballots: Vec::new(alloc),
            voted: Vec::new(alloc),
            next: Vec::new(alloc),
            candidate: 0,
            counted: 0,
        }
    }

    /// The table of a prefix, without a candidate.
    pub fn new<P: Prefix>(alloc: Global, p: &P) -> Result<VoteTable, Memory>
        ensures { IfOk result (λ table. IsMadeFor table (P.graph p.now)) }
    {
        let mut table = VoteTable::empty(alloc);
        table.carry(alloc, p)?;
        Ok(table)
    }

    /// Makes it the table of this prefix, which goes on from the one that it was made for, without a candidate. Only new
    /// rows are looked at. An error leaves the table.
    pub fn carry<P: Prefix>(&mut self, alloc: Global, p: &P) -> Result<(), Memory>
        requires { CarriesTo self.old (P.graph p.now) }
        ensures ok { OnOk result (IsMadeFor self.new (P.graph p.now)) }
        ensures err { OnErr result (self.new ≡ self.old) }
    {
        is_of_graph(p);
        let most = most_witnesses(p, self.voters.as_voters().rows());
        let words = most.div_ceil(64).max(self.voted.len());
        let voted = vec![in alloc; 0u64; words]?;
        let next = vec![in alloc; 0u64; words]?;
        self.voters.enter(alloc, &mut self.ballots, p)?;
        self.voted = voted;
        self.next = next;
        self.candidate = 0;
        self.counted = 0;
        Ok(())
    }

    /// A table of its own, without a candidate, made for each graph that this one is made for. It shares the voters.
    pub fn shared(&mut self, alloc: Global) -> Result<VoteTable, Memory>
        ensures same { self.new ≡ self.old }
        ensures made { IfOk result (λ other. (g : Graph) → IsMadeFor self.old g → IsMadeFor other g) }
    {
        let ballots = vec![in alloc; NO_BALLOT; self.voters.as_voters().witnesses()]?;
        let words = self.voted.len();
        let voted = vec![in alloc; 0u64; words]?;
        let next = vec![in alloc; 0u64; words]?;
        Ok(VoteTable {
            voters: self.voters.share(alloc)?,
            ballots,
            voted,
            next,
            candidate: 0,
            counted: 0,
        })
    }

    /// How many witnesses come before row `x`.
    pub fn number(&self, x: usize) -> usize
        requires { x < length self.now.voters.numbers }
        ensures kept { result ≡ slice_index self.now.voters.numbers x }
        ensures number { (g : Graph) → IsMadeFor self.now g → result ≡ number_of g x }
    {
        self.voters.as_voters().number(x)
    }
}

impl Votes for VoteTable {
    ghost MadeFor = { IsMadeFor };

    ghost candidate = { λ table. table.candidate };

    ghost counted = { λ table. table.counted };

    fn open<P: Prefix>(&mut self, p: &P, x: usize) {
        self.candidate = x;
        self.counted = p.round(x);
    }

    fn advance<P: Prefix>(&mut self, p: &P) {
        self.counted += 1;
        count_round(
            p,
            self.voters.as_voters(),
            &self.voted,
            &mut self.ballots,
            &mut self.next,
            self.candidate,
            self.counted,
        );
        mem::swap(&mut self.voted, &mut self.next);
    }

    fn fill<P: Prefix>(&mut self, p: &P, x: usize) {
        self.open(p, x);
        while self.counted < p.greatest() {
            self.advance(p);
        }
    }

    fn ballot(&self, y: usize) -> Ballot {
        self.ballots[self.voters.as_voters().number(y)]
    }
}
