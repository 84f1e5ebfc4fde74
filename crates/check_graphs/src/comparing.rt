ghost use Rattle.std.specs.Prelude.{◌≡◌, ◌<◌, ◌↔◌, ℕ, IsTrue, length, slice_get};
ghost use Rattle.check_graphs.specs.Alike.{AreAlike, IsPairAlike, IsRowAlike};

use hg_model::{Placed, Prefix, Rounds, Sight};

/// Whether two rows see each other alike in both.
fn is_pair_alike<S: Sight, T: Sight>(a: &S, b: &T, x: usize, y: usize) -> bool
    requires left { x < length (S.shape a.now).links }
    requires left_other { y < length (S.shape a.now).links }
    requires right { x < length (T.shape b.now).links }
    requires right_other { y < length (T.shape b.now).links }
    ensures { IsTrue result ↔ IsPairAlike (S.shape a.now) (T.shape b.now) x y }
{
    a.ancestor(x, y) == b.ancestor(x, y)
        && a.sees(x, y) == b.sees(x, y)
        && a.strongly_sees(x, y) == b.strongly_sees(x, y)
}

/// Whether a row has the same place in both: its creator, its self-parent, its round, and whether it is a witness.
#[tactic(auto, using(hg_model::proofs::StandingLaws::standings_known, hg_model::proofs::LinkLaws::link_lengths))]
fn is_row_alike<P: Prefix, Q: Prefix>(a: &P, b: &Q, x: usize) -> bool
    requires left { x < length (P.graph a.now).rows }
    requires right { x < length (Q.graph b.now).rows }
    ensures { IsTrue result → IsRowAlike (P.shape a.now) (P.standings a.now) (Q.shape b.now) (Q.standings b.now) x }
{
    a.creator(x) == b.creator(x)
        && a.self_parent(x) == b.self_parent(x)
        && a.round(x) == b.round(x)
        && a.is_witness(x) == b.is_witness(x)
}

/// Whether a row sees all rows alike in both, and is seen so.
fn sees_alike<S: Sight, T: Sight>(a: &S, b: &T, x: usize) -> bool
    requires left { x < length (S.shape a.now).links }
    requires right { x < length (T.shape b.now).links }
    requires same { length (S.shape a.now).links ≡ length (T.shape b.now).links }
    ensures { IsTrue result → (y : ℕ) → y < length (S.shape a.now).links → IsPairAlike (S.shape a.now) (T.shape b.now) x y }
{
    for y in 0..a.rows() {
        if !is_pair_alike(a, b, x, y) {
            return false;
        }
    }
    true
}

/// Whether both tell the same of all rows, and of all pairs of rows.
#[tactic(auto, using(hg_model::proofs::StandingLaws::standings_known, hg_model::proofs::LinkLaws::link_lengths))]
pub fn is_alike<P: Prefix, Q: Prefix>(a: &P, b: &Q) -> bool
    ensures { IsTrue result → AreAlike (P.shape a.now) (P.standings a.now) (Q.shape b.now) (Q.standings b.now) }
{
    if a.rows() != b.rows() {
        return false;
    }
    for x in 0..a.rows() {
        if !is_row_alike(a, b, x) || !sees_alike(a, b, x) {
            return false;
        }
    }
    a.greatest() == b.greatest()
}

fn is_same(a: &Placed, b: &Placed) -> bool
    ensures { IsTrue result ↔ (a.now ≡ b.now) }
{
    a.place == b.place && a.received == b.received && a.time == b.time
}

/// Whether both have the same at a place.
fn is_same_at(a: &[Placed], b: &[Placed], x: usize) -> bool
    ensures { IsTrue result → slice_get a.now x ≡ slice_get b.now x }
{
    match (a.get(x), b.get(x)) {
        (Some(one), Some(other)) => is_same(one, other),
        _ => false,
    }
}

/// Whether the first begins the second.
pub fn is_front(front: &[Placed], whole: &[Placed]) -> bool
    ensures { IsTrue result → (x : ℕ) → x < length front.now → slice_get front.now x ≡ slice_get whole.now x }
{
    for x in 0..front.len() {
        if !is_same_at(front, whole, x) {
            return false;
        }
    }
    true
}
