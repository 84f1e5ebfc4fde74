//! What the tests of sights share: rows that are added where they fit.

ghost use Rattle.std.specs.Prelude.{◌≡◌, ◌≢◌, ◌<◌, ◌∷◌, IsTrue, length};
ghost use Rattle.std.specs.List.{AllByRecursion};
ghost use Rattle.hg_model.specs.Stakes.{member_count};
ghost use Rattle.hg_model.specs.Links.{creator, first_place};
ghost use Rattle.hg_model.specs.Shape.{FitsLink, link_of, place_list};

use hg_model::{Growing, Member, Memory, Sight};

/// A row: who made it, and the places of its parents, the self-parent's first.
pub(crate) type Made = (Member, &'static [usize]);

/// The self-parent's place, if there is one.
pub(crate) fn self_place(parents: &[usize]) -> Option<usize>
    ensures { place_list result ≡ first_place parents.now }
{
    match parents {
        [] => None,
        [place, ..] => Some(*place),
    }
}

/// Whether there are rows at these places, all by others than the member.
fn are_by_others<S: Sight>(sight: &S, places: &[usize], member: Member) -> bool
    ensures there { IsTrue result → AllByRecursion (λ p. p < length (S.shape sight.now).links) places.now }
    ensures by { IsTrue result → AllByRecursion (λ p. creator (S.shape sight.now).links p ≢ member) places.now }
{
    match places {
        [] => true,
        [place, rest @ ..] => {
            *place < sight.rows()
                && sight.creator(*place) != member
                && are_by_others(sight, rest, member)
        }
    }
}

/// Whether a row by the member may come next on its own row and these others.
fn fits_on<S: Sight>(sight: &S, own: usize, others: &[usize], creator: Member) -> bool
    requires { creator < member_count (S.shape sight.now).members }
    ensures { IsTrue result → FitsLink (S.shape sight.now).members (S.shape sight.now).links (link_of creator (own ∷ others.now)) }
{
    if others.len() > 4 || own >= sight.rows() || sight.creator(own) != creator {
        return false;
    }
    are_by_others(sight, others, creator)
}

/// Whether a row by the member on these parents may come next.
#[tactic(auto, using(hg_model::proofs::ShapeLaws::fits_alone))]
pub(crate) fn fits<S: Sight>(sight: &S, parents: &[usize], creator: Member) -> bool
    ensures { IsTrue result → FitsLink (S.shape sight.now).members (S.shape sight.now).links (link_of creator parents.now) }
{
    if u32::from(creator) >= sight.members() {
        return false;
    }
    match parents {
        [] => true,
        [own, others @ ..] => fits_on(sight, *own, others, creator),
    }
}

/// Adds the row if it fits, and answers whether it does.
pub(crate) fn add<S: Growing>(
    sight: &mut S,
    parents: &[usize],
    creator: Member,
) -> Result<bool, Memory> {
    sight.reserve()?;
    if sight.rows() > 100_000 || !fits(&*sight, parents, creator) {
        return Ok(false);
    }
    sight.extend(parents, creator);
    Ok(true)
}

/// Adds the rows one by one, and answers whether each of them fitted.
pub(crate) fn add_all<S: Growing>(sight: &mut S, rows: &[Made]) -> Result<bool, Memory> {
    for (creator, parents) in rows {
        if !add(sight, *parents, *creator)? {
            return Ok(false);
        }
    }
    Ok(true)
}
