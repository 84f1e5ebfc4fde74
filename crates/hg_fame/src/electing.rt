ghost use Rattle.std.specs.Prelude.{◌≡◌, ◌<◌, ◌≤◌, IsTrue, length, option_map};
ghost use Rattle.hg_model.specs.GraphWords.{fame_in, round_in, is_witness_in};
ghost use Rattle.hg_fame.specs.Decisions.{decider_within, decision_of, fame_within, first_decider};

use hg_model::{Prefix, Votes, is_of_graph};

/// The decision of round `r`, whose votes are the last that are counted: that of its first decider by place, of those
/// among the first `len` rows.
fn decision_in<P: Prefix, V: Votes>(p: &P, votes: &V, r: u32, len: usize) -> Option<(bool, usize)>
    requires made { V.MadeFor votes.now (P.graph p.now) }
    requires counted { V.counted votes.now ≡ r }
    requires later { round_in (P.graph p.now) (V.candidate votes.now) < r }
    ensures { result ≡ decision_of (P.graph p.now) len (V.candidate votes.now) r }
{
    for y in p.witnesses(r) {
        if *y < len {
            let ballot = votes.ballot(*y);
            if ballot.decides {
                return Some((ballot.vote, *y));
            }
        }
    }
    None
}

/// The fame of witness `x` and its first decider, by round and then by place; `None` where the prefix has none.
/// Counts the votes of no later round than that of the decider.
pub fn elect<P: Prefix, V: Votes>(p: &P, votes: &mut V, x: usize) -> Option<(bool, usize)>
    requires made { V.MadeFor votes.old (P.graph p.now) }
    requires place { x < length (P.graph p.now).rows }
    requires witness { IsTrue (is_witness_in (P.graph p.now) x) }
    ensures made { V.MadeFor votes.new (P.graph p.now) }
    ensures fame { option_map (λ decision. decision.0) result ≡ fame_in (P.graph p.now) x }
    ensures decider { option_map (λ decision. decision.1) result ≡ first_decider (P.graph p.now) x }
{
    elect_within(p, votes, x, p.rows())
}

/// The same in the graph of the first `len` rows, with the votes of the whole prefix: what a later row would decide does
/// not count.
pub fn elect_within<P: Prefix, V: Votes>(
    p: &P,
    votes: &mut V,
    x: usize,
    len: usize,
) -> Option<(bool, usize)>
    requires made { V.MadeFor votes.old (P.graph p.now) }
    requires within { len ≤ length (P.graph p.now).rows }
    requires place { x < len }
    requires witness { IsTrue (is_witness_in (P.graph p.now) x) }
    ensures made { V.MadeFor votes.new (P.graph p.now) }
    ensures fame { option_map (λ decision. decision.0) result ≡ fame_within (P.graph p.now) len x }
    ensures decider { option_map (λ decision. decision.1) result ≡ decider_within (P.graph p.now) len x }
{
    // Votes in the first rows are those in all rows where the graph is lawful.
    is_of_graph(p);
    votes.open(p, x);
    let mut round = p.round(x);
    while round < p.greatest() {
        round += 1;
        votes.advance(p);
        let decision = decision_in(p, votes, round, len);
        if decision.is_some() {
            return decision;
        }
    }
    None
}
