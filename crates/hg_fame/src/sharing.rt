ghost use Rattle.std.specs.Prelude.{◌≡◌, ◌<◌, ◌≤◌, Some, IsTrue, length, IfOk, IfSome};
ghost use Rattle.hg_model.specs.Places.{count_below};
ghost use Rattle.hg_model.specs.Rounds.{is_witness};
ghost use Rattle.hg_model.specs.Shares.{share_fame};
ghost use Rattle.hg_model.specs.Fame.{mark_at};
ghost use Rattle.hg_model.specs.GraphWords.{fame_in, is_witness_in, share_fame_in};
ghost use Rattle.hg_fame.specs.Decisions.{AreFameIn, AreWitnesses, SpeaksFor, fame_within, fames_among};

use crate::electing::{elect, elect_within};
use hg_model::{Found, Items, Memory, Prefix, Share, Votes};
use std::alloc::Global;

/// The mark of row `x`, none past the end of the marks.
fn mark_at(marks: &[Option<bool>], x: usize) -> Option<bool>
    ensures { result ≡ mark_at marks.now x }
{
    if x < marks.len() { marks[x] } else { None }
}

/// The fame of witness `x`, which has so many witnesses before it, if it is of the share and decided. It is elected
/// where its fame is not known.
fn share_fame<P: Prefix, V: Votes>(
    p: &P,
    votes: &mut V,
    share: Share,
    index: u32,
    x: usize,
    known: Option<bool>,
) -> Option<bool>
    requires made { V.MadeFor votes.old (P.graph p.now) }
    requires place { x < length (P.graph p.now).rows }
    requires witness { IsTrue (is_witness_in (P.graph p.now) x) }
    requires index { index ≡ count_below x (is_witness_in (P.graph p.now)) }
    requires known { IfSome known (λ fame. fame_in (P.graph p.now) x ≡ Some fame) }
    ensures made { V.MadeFor votes.new (P.graph p.now) }
    ensures fame { result ≡ share_fame_in (P.graph p.now) share x }
{
    if index % share.of() != share.k() {
        return None;
    }
    if known.is_some() {
        return known;
    }
    elect(p, votes, x).map(|decision| decision.0)
}

/// What the share of the prefix's witnesses decides in it: each decided one of them by place, with its fame.
/// It walks past all rows once, and elects the share's witnesses alone.
pub fn elect_share<P: Prefix, V: Votes>(
    alloc: Global,
    p: &P,
    votes: &mut V,
    share: Share,
) -> Result<Found, Memory>
    requires made { V.MadeFor votes.old (P.graph p.now) }
    ensures made { V.MadeFor votes.new (P.graph p.now) }
    ensures share { IfOk result (λ found. found.share ≡ share) }
    ensures len { IfOk result (λ found. found.len ≡ length (P.graph p.now).rows) }
    ensures speaks { IfOk result (λ found. SpeaksFor (P.graph p.now) share found) }
{
    elect_unmarked(alloc, p, votes, share, &[])
}

/// The same for a caller who has marks of fame by place: those witnesses are not elected again.
#[tactic(auto, using(hg_model::proofs::StandingLaws::standings_known, hg_model::proofs::LinkLaws::link_lengths, crate::proofs::ShareLaws::share_steps))]
pub fn elect_unmarked<P: Prefix, V: Votes>(
    alloc: Global,
    p: &P,
    votes: &mut V,
    share: Share,
    marks: &[Option<bool>],
) -> Result<Found, Memory>
    requires made { V.MadeFor votes.old (P.graph p.now) }
    requires marks { AreFameIn (P.graph p.now) marks.now }
    ensures made { V.MadeFor votes.new (P.graph p.now) }
    ensures share { IfOk result (λ found. found.share ≡ share) }
    ensures len { IfOk result (λ found. found.len ≡ length (P.graph p.now).rows) }
    ensures speaks { IfOk result (λ found. SpeaksFor (P.graph p.now) share found) }
{
    let mut found = Vec::new(alloc);
    let mut witnesses = 0;
    for x in 0..p.rows() {
        if p.is_witness(x) {
            if let Some(fame) = share_fame(p, votes, share, witnesses, x, mark_at(marks, x)) {
                found.push((x, fame))?;
            }
            witnesses += 1;
        }
    }
    Ok(Found {
        len: p.rows(),
        share,
        marks: Items::from_vec(found),
    })
}

/// What the prefix decides of these witnesses: each decided one, in their order, with its fame. The share is handed on: it
/// is the caller's word that they are of it.
pub fn elect_open<P: Prefix, V: Votes>(
    alloc: Global,
    p: &P,
    votes: &mut V,
    share: Share,
    places: &[usize],
) -> Result<Found, Memory>
    requires made { V.MadeFor votes.old (P.graph p.now) }
    requires places { AreWitnesses (P.graph p.now) (length (P.graph p.now).rows) places.now }
    ensures made { V.MadeFor votes.new (P.graph p.now) }
    ensures share { IfOk result (λ found. found.share ≡ share) }
    ensures len { IfOk result (λ found. found.len ≡ length (P.graph p.now).rows) }
    ensures fames { IfOk result (λ found. found.marks ≡ fames_among (fame_in (P.graph p.now)) places.now) }
{
    elect_first(alloc, p, votes, share, p.rows(), places)
}

/// The same in the graph of the first `len` rows, with the votes of the whole prefix. The share is handed on too.
pub fn elect_first<P: Prefix, V: Votes>(
    alloc: Global,
    p: &P,
    votes: &mut V,
    share: Share,
    len: usize,
    places: &[usize],
) -> Result<Found, Memory>
    requires made { V.MadeFor votes.old (P.graph p.now) }
    requires within { len ≤ length (P.graph p.now).rows }
    requires places { AreWitnesses (P.graph p.now) len places.now }
    ensures made { V.MadeFor votes.new (P.graph p.now) }
    ensures share { IfOk result (λ found. found.share ≡ share) }
    ensures len { IfOk result (λ found. found.len ≡ len) }
    ensures fames { IfOk result (λ found. found.marks ≡ fames_among (fame_within (P.graph p.now) len) places.now) }
{
    let mut found = Vec::new(alloc);
    for x in places {
        if let Some((fame, _)) = elect_within(p, votes, *x, len) {
            found.push((*x, fame))?;
        }
    }
    Ok(Found {
        len,
        share,
        marks: Items::from_vec(found),
    })
}
