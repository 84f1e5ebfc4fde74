ghost use Rattle.std.specs.Prelude.{◌≡◌, ◌↔◌, IsTrue};

use hg_model::Placed;

/// Whether two orders of a node are the same.
pub fn are_equal(one: &[Placed], other: &[Placed]) -> bool
    ensures { IsTrue result ↔ (one.now ≡ other.now) }
{
    one == other
}
