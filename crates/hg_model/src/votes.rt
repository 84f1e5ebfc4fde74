ghost use Rattle.std.specs.Prelude.{◌≡◌, ℕ, ◌<◌, ◌≤◌, ◌+◌, IsTrue, length};
ghost use Rattle.hg_model.specs.Prefix.{Graph, IsCounted, ballot_of};
ghost use Rattle.hg_model.specs.GraphWords.{round_in, is_witness_in, last_round_in};

use crate::ballot::Ballot;
use crate::prefix::Prefix;

/// The votes of a prefix's witnesses on the fame of one of them, the candidate, round by round. Takes no memory.
pub trait Votes {
    /// It was made for this graph, and the votes that it has counted are the graph's.
    ghost MadeFor: { Self → Graph → Type 0 };

    /// The place of the witness that is voted on.
    ghost candidate: { Self → ℕ };

    /// The votes of the witnesses of rounds up to this one are counted; 0 where there is no candidate.
    ghost counted: { Self → ℕ };

    /// Witness `x` is the candidate, and no vote on it is counted.
    fn open<P: Prefix>(&mut self, p: &P, x: usize)
        requires made { MadeFor self.old (P.graph p.now) }
        requires place { x < length (P.graph p.now).rows }
        requires witness { IsTrue (is_witness_in (P.graph p.now) x) }
        ensures made { MadeFor self.new (P.graph p.now) }
        ensures candidate { candidate self.new ≡ x }
        ensures counted { counted self.new ≡ round_in (P.graph p.now) x }
        ensures opened { 0 < counted self.new };

    /// The votes of the witnesses of one round more are counted.
    fn advance<P: Prefix>(&mut self, p: &P)
        requires made { MadeFor self.old (P.graph p.now) }
        requires opened { 0 < counted self.old }
        requires more { counted self.old < last_round_in (P.graph p.now) }
        ensures made { MadeFor self.new (P.graph p.now) }
        ensures candidate { candidate self.new ≡ candidate self.old }
        ensures counted { counted self.new ≡ counted self.old + 1 };

    /// Witness `x` is the candidate, and the votes of all witnesses of later rounds are counted.
    fn fill<P: Prefix>(&mut self, p: &P, x: usize)
        requires made { MadeFor self.old (P.graph p.now) }
        requires place { x < length (P.graph p.now).rows }
        requires witness { IsTrue (is_witness_in (P.graph p.now) x) }
        ensures made { MadeFor self.new (P.graph p.now) }
        ensures candidate { candidate self.new ≡ x }
        ensures counted { last_round_in (P.graph p.now) ≤ counted self.new };

    /// The vote of witness `y`, of a counted round above the candidate's, and whether it decides.
    fn ballot(&self, y: usize) -> Ballot
        requires { (g : Graph) × MadeFor self.now g × IsCounted g (candidate self.now) (counted self.now) y }
        ensures { (g : Graph) → MadeFor self.now g → IsCounted g (candidate self.now) (counted self.now) y → result ≡ ballot_of g (candidate self.now) y };
}
