ghost use Rattle.std.specs.Prelude.{◌≡◌};
ghost use Rattle.hg_proof.specs.Judging.{difference_from, is_same};

use hg_model::Placed;

/// Whether two entries are the same.
fn is_same(p: &Placed, q: &Placed) -> bool
    ensures { result ≡ is_same p.now q.now }
{
    p.place == q.place && p.received == q.received && p.time == q.time
}

/// The first place at which two orders differ, in an entry or in that one of them has ended.
pub(crate) fn difference(order: &[Placed], other: &[Placed]) -> Option<usize>
    ensures { result ≡ difference_from 0 order.now other.now }
{
    for i in 0..order.len().min(other.len()) {
        if !is_same(&order[i], &other[i]) {
            return Some(i);
        }
    }
    if order.len() == other.len() {
        None
    } else {
        Some(order.len().min(other.len()))
    }
}
